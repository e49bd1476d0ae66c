//! Texts that grow, and numbers in texts.
use daq_text::{TextBuffer, behind_blanks, ended, is_blank, number, unsigned};
use daq_types::NoMemory;
use std::alloc::Global;

/// What `write` makes of an empty text.
const WRITTEN: &[u8] = b"run 18446744073709551615\n-127";

/// A word and a number, a line's end, and two numbers more.
fn write(text: &mut TextBuffer) -> Result<(), NoMemory> {
    text.text(b"run")?;
    text.blank_number(18446744073709551615)?;
    text.end_line()?;
    text.signed(-12)?;
    text.number(7)
}

/// Whether that is written, and cut then, first to the word and then to nothing.
fn is_cut(text: &mut TextBuffer) -> bool {
    let is_written = text.as_slice() == WRITTEN;
    text.truncate(3);
    let is_word = text.as_slice() == b"run".as_slice();
    text.clear();
    is_written && is_word && text.as_slice().is_empty()
}

/// Whether that holds of a new text.
fn is_written_and_cut(alloc: Global) -> Result<bool, NoMemory> {
    let mut text = TextBuffer::new(alloc);
    write(&mut text)?;
    Ok(is_cut(&mut text))
}

#[test]
fn texts(rt: HostRuntime) {
    assert!(rt; matches!(is_written_and_cut(rt.alloc()), Ok(true)));
}

/// Texts, the most that each may spell, and the number that is all of it, if there is one.
const WHOLE: &[(&str, u64, Option<u64>)] = &[
    ("0", 0, Some(0)),
    ("007", 7, Some(7)),
    ("8", 7, None),
    ("0xFf", 255, Some(255)),
    ("65536", 65535, None),
    ("18446744073709551615", u64::MAX, Some(u64::MAX)),
    ("18446744073709551616", u64::MAX, None),
    ("0X10", 99, None),
    ("0x", 99, None),
    ("5 ", 99, None),
    ("", 99, None),
];

#[test]
fn numbers(rt: HostRuntime) {
    for (text, most, spelled) in WHOLE {
        assert!(rt; number(text.as_bytes(), *most) == *spelled, "{text}");
    }
}

/// Texts, the most that each may spell, and the number that is read, or how many bytes are left at the first wrong one.
const READ: &[(&str, u64, Result<Option<u64>, usize>)] = &[
    ("12 \t", 99, Ok(Some(12))),
    ("0x1F", 30, Ok(None)),
    ("12 x", 99, Err(1)),
    ("x", 99, Err(1)),
    ("0x", 99, Err(0)),
];

#[test]
fn numbers_with_blanks_behind_them(rt: HostRuntime) {
    for (text, most, read) in READ {
        assert!(rt; unsigned(text.as_bytes(), *most) == *read, "{text}");
    }
}

#[test]
fn blanks(rt: HostRuntime) {
    assert!(rt; ended(true, b" \t".as_slice()) == Ok(true));
    assert!(rt; is_blank(b'\t'));
    assert!(rt; behind_blanks(b"\t x ".as_slice()) == b"x ".as_slice());
}
