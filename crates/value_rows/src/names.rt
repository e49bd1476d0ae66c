//! Names, and the numbers of types, transitions and callers.
use daq_types::{Caller, FileName, Name, NameRefusal, Tid, Transition};

/// Texts, and why each that is no name is none.
const NAMES: &[(&[u8], Option<NameRefusal>)] = &[
    (b"", Some(NameRefusal::EmptyName)),
    (b"Run number", None),
    (b"a23456789012345678901234567890b", None),
    (
        b"a23456789012345678901234567890bc",
        Some(NameRefusal::LongName),
    ),
    (b"[x]", Some(NameRefusal::BadByte { at: 0 })),
    (b"ab  ", Some(NameRefusal::BadByte { at: 3 })),
    (b"a;b", None),
    (b";ab", Some(NameRefusal::BadByte { at: 0 })),
    (b"a\x7f", Some(NameRefusal::BadByte { at: 1 })),
];

#[test]
fn names_by_the_rule(rt: HostRuntime) {
    for (text, refusal) in NAMES {
        assert!(rt; Name::new(text).err() == *refusal, "{text:?}");
    }
}

/// Names, and whether they are one without regard to case.
const PAIRS: &[(&[u8], &[u8], bool)] = &[
    (b"SYSTEM", b"SYSTEM", true),
    (b"SYSTEM", b"system", true),
    (b"SYSTEM", b"SYSTEN", false),
    (b"Run@no", b"run`no", false),
];

/// Whether these names are one without regard to case; None where one is no name.
fn is_same(ours: &[u8], theirs: &[u8]) -> Option<bool> {
    let ours = Name::new(ours).ok()?;
    let theirs = Name::new(theirs).ok()?;
    Some(ours.same_as(&theirs))
}

#[test]
fn names_without_case(rt: HostRuntime) {
    for (ours, theirs, same) in PAIRS {
        assert!(rt; is_same(ours, theirs) == Some(*same), "{theirs:?}");
    }
}

const BITS: &[(Transition, u32)] = &[
    (Transition::Start, 1),
    (Transition::Stop, 2),
    (Transition::Pause, 4),
    (Transition::Resume, 8),
    (Transition::StartAbort, 16),
];

#[test]
fn numbers_of_transitions(rt: HostRuntime) {
    for (transition, bit) in BITS {
        assert!(rt; transition.bit() == *bit, "{bit}");
    }
}

#[test]
fn numbers_of_callers(rt: HostRuntime) {
    assert!(rt;
        [
            Caller::MAIN.number(),
            Caller::of_client(0).number(),
            Caller::of_client(4).number(),
        ] == [0, 1, 5]
    );
    assert!(rt; Caller::of_client(4) != Caller::of_client(5));
}

/// Texts of file names, and whether each says that the file is compressed; None for one that is no name.
const FILES: &[(&str, Option<bool>)] = &[
    ("", None),
    ("a b", None),
    ("run00001.mid", Some(false)),
    ("run00001.mid.gz", Some(true)),
    (".gz", Some(true)),
    ("x.lz4", Some(true)),
    ("x.bz2", Some(true)),
    ("x.GZ", Some(false)),
];

/// Whether the text is no name, or has the bytes of one that says so.
fn is_named(text: &str, compressed: Option<bool>) -> bool {
    match FileName::new(text) {
        Err(_) => compressed.is_none(),
        Ok(name) => { name.as_slice() == text.as_bytes() && compressed == Some(name.compressed()) }
    }
}

#[test]
fn names_of_files(rt: HostRuntime) {
    for (text, compressed) in FILES {
        assert!(rt; is_named(text, *compressed), "{text}");
    }
}

/// Numbers of types, their names, and the sizes of their items.
const TYPES: &[(u32, &str, u32)] = &[
    (1, "UINT8", 1),
    (2, "INT8", 1),
    (3, "CHAR", 1),
    (4, "UINT16", 2),
    (5, "INT16", 2),
    (6, "UINT32", 4),
    (7, "INT32", 4),
    (8, "BOOL", 4),
    (9, "FLOAT", 4),
    (10, "DOUBLE", 8),
    (11, "BITFIELD", 4),
    (12, "STRING", 0),
    (13, "ARRAY", 0),
    (14, "STRUCT", 0),
    (15, "KEY", 0),
    (16, "LINK", 0),
    (17, "INT64", 8),
    (18, "UINT64", 8),
];

/// Whether the number is that of a type with this name and this size.
fn is_type(code: u32, name: &str, size: u32) -> bool {
    let Some(tid) = Tid::from_code(code) else {
        return false;
    };
    tid.code() == code
        && tid.name() == name
        && tid.size() == size
        && Tid::from_name(name.as_bytes()) == Some(tid)
}

#[test]
fn types_by_number(rt: HostRuntime) {
    for (code, name, size) in TYPES {
        assert!(rt; is_type(*code, name, *size), "{name}");
    }
}

/// Older names of types.
const OLDER: &[(&[u8], Tid)] = &[
    (b"BYTE", Tid::UInt8),
    (b"SBYTE", Tid::Int8),
    (b"WORD", Tid::UInt16),
    (b"SHORT", Tid::Int16),
    (b"DWORD", Tid::UInt32),
    (b"INT", Tid::Int32),
];

#[test]
fn types_by_older_name(rt: HostRuntime) {
    for (name, tid) in OLDER {
        assert!(rt; Tid::from_name(name) == Some(*tid), "{tid:?}");
    }
}

#[test]
fn numbers_and_names_of_no_type(rt: HostRuntime) {
    assert!(rt; Tid::from_code(0).is_none() && Tid::from_code(19).is_none());
    assert!(rt; Tid::from_name(b"dword").is_none());
}
