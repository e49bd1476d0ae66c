//! The dumps of databases as great as there may be.
use crate::calls::is_saved;
use daq_text::TextBuffer;
use daq_types::NoMemory;
use odb_arena::ArenaTree;
use odb_text::{LoadRefusal, load};
use std::alloc::Global;
use std::test::Fail;

/// A database as great as there may be.
#[derive(Clone, Copy)]
enum Great {
    /// 256 directories with 255 keys each, which are 65,536 rows.
    Rows,
    /// 65,536 keys of the root.
    Keys,
    /// A key with 65,536 items of 64 bytes, which are 4,194,304 bytes.
    Items,
}

/// Adds the line of this number: that of an item, or that of a key with the number as its value.
fn add_line(text: &mut TextBuffer, great: Great, number: u64) -> Result<(), NoMemory> {
    match great {
        Great::Items => text.text(b"[64] t")?,
        _ => {
            text.text(b"k")?;
            text.number(number)?;
            text.text(b" = UINT32 : ")?;
        }
    }
    text.number(number)?;
    text.end_line()
}

/// Adds lines with these numbers.
fn add_lines(text: &mut TextBuffer, great: Great, count: u64) -> Result<(), NoMemory> {
    for number in 0..count {
        add_line(text, great, number)?;
    }
    text.end_line()
}

/// Adds directories with 255 keys each.
fn add_dirs(text: &mut TextBuffer, count: u64) -> Result<(), NoMemory> {
    for number in 0..count {
        text.text(b"[/d")?;
        text.number(number)?;
        text.text(b"]\n")?;
        add_lines(text, Great::Keys, 255)?;
    }
    Ok(())
}

/// Adds the dump of such a database.
fn add_dump(text: &mut TextBuffer, great: Great) -> Result<(), NoMemory> {
    match great {
        Great::Rows => add_dirs(text, 256),
        Great::Keys => {
            text.text(b"[/]\n")?;
            add_lines(text, great, 65536)
        }
        Great::Items => {
            text.text(b"[/]\nx = STRING[65536] :\n")?;
            add_lines(text, great, 65536)
        }
    }
}

/// How many keys the database loads of a text, where that is what it then is saved as.
fn loads_again(
    alloc: Global,
    database: &mut ArenaTree,
    text: &[u8],
) -> Result<Option<u32>, LoadRefusal> {
    if text.len() > 268_435_456 {
        return Ok(None);
    }
    let loaded = load(alloc, database, text)?;
    let saved = is_saved(alloc, database, text)?;
    Ok(if saved { Some(loaded.keys) } else { None })
}

/// Such databases, and how many keys their dumps have.
const GREAT: &[(Great, u32)] = &[
    (Great::Rows, 65280),
    (Great::Keys, 65536),
    (Great::Items, 1),
];

/// Whether a new database loads so many keys of the dump of such a one, and is saved as it.
fn is_loaded_again(alloc: Global, great: Great, keys: u32) -> Result<bool, NoMemory> {
    let mut text = TextBuffer::new(alloc);
    add_dump(&mut text, great)?;
    let mut database = ArenaTree::new(alloc);
    let loaded = loads_again(alloc, &mut database, text.as_slice());
    Ok(loaded == Ok(Some(keys)))
}

#[test]
fn as_much_as_there_may_be_loads_again(rt: HostRuntime) -> Result<(), Fail> {
    for (great, keys) in GREAT {
        assert!(rt; is_loaded_again(rt.alloc(), *great, *keys)?, "{keys} keys");
    }
    Ok(())
}
