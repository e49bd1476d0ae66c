//! Worked rows of paths.
use daq_types::Name;
use odb_value::{Path, PathRefusal, is_front, is_same};
use std::alloc::{AllocError, Global};

/// The names, each behind a slash.
fn spelled(alloc: Global, names: &[Name]) -> Result<Vec<u8>, AllocError> {
    let mut spelled = Vec::new(alloc);
    for name in names {
        spelled.push(b'/')?;
        spelled.extend_from_slice(name.as_slice())?;
    }
    Ok(spelled)
}

/// Whether the text is a path of these names.
fn is_spelled(alloc: Global, text: &[u8], names: &[u8]) -> Result<bool, PathRefusal> {
    let path = Path::read(alloc, text)?;
    Ok(spelled(alloc, path.names())?.as_slice() == names)
}

/// Texts of paths, and the names of each.
const PATHS: &[(&str, &str)] = &[
    ("", ""),
    ("/", ""),
    ("/Runinfo", "/Runinfo"),
    ("Runinfo/Run number", "/Runinfo/Run number"),
    ("/A/b/C", "/A/b/C"),
    (
        "/1234567890123456789012345678901",
        "/1234567890123456789012345678901",
    ),
    (
        "/a/a/a/a/a/a/a/a/a/a/a/a/a/a/a/a/a/a/a/a/a/a/a/a/a/a/a/a/a/a/a/a",
        "/a/a/a/a/a/a/a/a/a/a/a/a/a/a/a/a/a/a/a/a/a/a/a/a/a/a/a/a/a/a/a/a",
    ),
];

#[test]
fn paths_of_texts(rt: HostRuntime) {
    for (text, names) in PATHS {
        let is_right = is_spelled(rt.alloc(), text.as_bytes(), names.as_bytes());
        assert!(rt; matches!(is_right, Ok(true)), "{text}");
    }
}

/// Texts that are no paths, and why.
const REFUSED: &[(&str, PathRefusal)] = &[
    ("//", PathRefusal::EmptyName),
    ("/A//B", PathRefusal::EmptyName),
    ("/A/", PathRefusal::EmptyName),
    ("/12345678901234567890123456789012", PathRefusal::LongName),
    ("/A/[x]", PathRefusal::BadByte { at: 3 }),
    ("A/[x]", PathRefusal::BadByte { at: 2 }),
    ("/A/ x", PathRefusal::BadByte { at: 3 }),
    ("/A/x ", PathRefusal::BadByte { at: 4 }),
    (
        "/A=/12345678901234567890123456789012",
        PathRefusal::BadByte { at: 2 },
    ),
    (
        "/a/a/a/a/a/a/a/a/a/a/a/a/a/a/a/a/a/a/a/a/a/a/a/a/a/a/a/a/a/a/a/a/a/[",
        PathRefusal::TooDeep,
    ),
    (
        "/a/a/a/a/a/a/a/a/a/a/a/a/a/a/a/a/a/a/a/a/a/a/a/a/a/a/a/a/a/a/a/a/[",
        PathRefusal::BadByte { at: 65 },
    ),
];

/// Whether the text is no path, for this reason.
fn is_refused(alloc: Global, text: &[u8], why: PathRefusal) -> bool {
    Path::read(alloc, text).err() == Some(why)
}

#[test]
fn texts_that_are_no_paths(rt: HostRuntime) {
    for (text, refusal) in REFUSED {
        let is_right = is_refused(rt.alloc(), text.as_bytes(), *refusal);
        assert!(rt; is_right, "{text}");
    }
}

/// Whether a path is a front of the other, and whether it is the same.
fn compared(path: &Path, other: &Path) -> [bool; 2] {
    [
        is_front(path.names(), other.names()),
        is_same(path.names(), other.names()),
    ]
}

/// Whether a path of one name is compared without regard to case, and is the same with the second.
fn becomes_same(path: &mut Path, other: &Path) -> Result<bool, PathRefusal> {
    let Ok(name) = Name::new(b"fe") else {
        return Ok(false);
    };
    if path.names().len() != 1 {
        return Ok(false);
    }
    let is_front = compared(path, other) == [true, false];
    path.push(name)?;
    Ok(is_front && compared(path, other) == [true, true])
}

/// Whether that holds of such a path.
fn is_compared(alloc: Global) -> Result<bool, PathRefusal> {
    let upper = Path::read(alloc, b"/EQUIPMENT/FE")?;
    let mut lower = Path::read(alloc, b"equipment")?;
    becomes_same(&mut lower, &upper)
}

#[test]
fn paths_are_compared_without_case(rt: HostRuntime) {
    assert!(rt; matches!(is_compared(rt.alloc()), Ok(true)));
}

/// Whether a path differs from another in a letter, and a copy of it does not.
fn differs(alloc: Global) -> Result<bool, PathRefusal> {
    let upper = Path::read(alloc, b"/EQUIPMENT/FE")?;
    let other = Path::read(alloc, b"/equipment/fg")?;
    let copy = other.try_clone(alloc)?;
    Ok(!is_same(other.names(), upper.names()) && is_same(other.names(), copy.names()))
}

#[test]
fn paths_that_differ_in_a_letter_and_a_copy(rt: HostRuntime) {
    assert!(rt; matches!(differs(rt.alloc()), Ok(true)));
}

#[test]
fn the_root_has_no_names(rt: HostRuntime) {
    assert!(rt; Path::root(rt.alloc()).names().is_empty());
}
