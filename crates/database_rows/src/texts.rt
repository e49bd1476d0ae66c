//! Texts that are loaded or refused, and what is saved then.
use crate::calls::{is_saved, load_text};
use daq_types::{NoMemory, Tid};
use odb_text::{LoadRefusal, Loaded};
use odb_tree::{OdbRefusal, PlainTree, What};
use std::alloc::Global;
use std::test::Fail;
use worked_dumps::{OLDER, SAVED};

/// The keys of a new session.
pub const SESSION: &str =
    "[/Runinfo]\nState = INT32 : 1\nRun number = INT32 : 0\nStart time binary = UINT32 : 0\n\
    Stop time binary = UINT32 : 0\n";

/// The dump of a new session: 114 bytes.
const NEW: &str =
    "[/Runinfo]\nState = INT32 : 1\nRun number = INT32 : 0\nStart time binary = UINT32 : 0\n\
    Stop time binary = UINT32 : 0\n\n";

/// The dump of a run that begins: 173 bytes.
pub const BEGUN: &str =
    "[/Runinfo]\nState = INT32 : 1\nRun number = INT32 : 1\nStart time binary = UINT32 : 1000\n\
    Stop time binary = UINT32 : 0\n\n[/Equipment]\n\n[/Equipment/FE]\nEvents sent = UINT64 : 0\n\n";

/// A dump that is read and written: 176 bytes.
const ENDED: &str =
    "[/Runinfo]\nState = INT32 : 3\nRun number = INT32 : 1\nStart time binary = UINT32 : 1000\n\
    Stop time binary = UINT32 : 1010\n\n[/Equipment]\n\n[/Equipment/FE]\nEvents sent = UINT64 : 1\n\n";

/// The dump of a run at its end: 176 bytes.
pub const ENDED_EMPTY: &str =
    "[/Runinfo]\nState = INT32 : 3\nRun number = INT32 : 1\nStart time binary = UINT32 : 1000\n\
    Stop time binary = UINT32 : 1010\n\n[/Equipment]\n\n[/Equipment/FE]\nEvents sent = UINT64 : 0\n\n";

use LoadRefusal::{BadLine, KeyRefused};

type Reply = Result<Loaded, LoadRefusal>;

const TOO_MANY: OdbRefusal = OdbRefusal::Limit { what: What::Items };

const TOO_LONG: OdbRefusal = OdbRefusal::Limit { what: What::Size };

const OF_INT32: OdbRefusal = OdbRefusal::TypeMismatch { have: Tid::Int32 };

/// What stands before, a text, what comes of it, and what is saved then in how many bytes, if told.
type Row = (
    &'static str,
    &'static str,
    Reply,
    Option<(usize, &'static str)>,
);

/// Texts that are loaded, or why they are not.
const TEXTS: &[Row] = &[
    // Texts that a new database loads.
    (
        "",
        "",
        Ok(Loaded {
            keys: 0,
            skipped: 0,
        }),
        None,
    ),
    (
        "",
        "; comment\n \t\n[/A]  \r\n",
        Ok(Loaded {
            keys: 0,
            skipped: 0,
        }),
        None,
    ),
    (
        "",
        "x=INT:5",
        Ok(Loaded {
            keys: 1,
            skipped: 0,
        }),
        None,
    ),
    (
        "",
        "x = FLOAT : what\ny = LINK[2] :\n[7] a\n[0]\n",
        Ok(Loaded {
            keys: 0,
            skipped: 2,
        }),
        None,
    ),
    (
        "",
        "[]\na = CHAR : \nb = CHAR :  \nc = STRING : [0] \n",
        Ok(Loaded {
            keys: 3,
            skipped: 0,
        }),
        None,
    ),
    (
        "",
        "a = UINT8[1] :\n[0]0xFF\n[/B]\na = BOOL [2] : \n[0] y\n[1] 0\n",
        Ok(Loaded {
            keys: 2,
            skipped: 0,
        }),
        None,
    ),
    (
        "",
        "x = INT : 5\nX = INT : 6\n",
        Ok(Loaded {
            keys: 2,
            skipped: 0,
        }),
        None,
    ),
    // Lines that the grammar does not have.
    (
        "",
        "[/A]\nx = INT : 5\ny = INT : five\n",
        Err(BadLine { line: 3 }),
        None,
    ),
    ("", " [/A]", Err(BadLine { line: 1 }), None),
    ("", "[/A/]\n", Err(BadLine { line: 1 }), None),
    ("", " ;x", Err(BadLine { line: 1 }), None),
    ("", "x = ARRAY : 1", Err(BadLine { line: 1 }), None),
    ("", "x = INT[2] :\n[0] 1\n", Err(BadLine { line: 3 }), None),
    (
        "",
        "x = INT32[3] :\n[0] 1\n",
        Err(BadLine { line: 3 }),
        None,
    ),
    (
        "",
        "x = INT[2] :\n[0] 1\n\n[1] 2\n",
        Err(BadLine { line: 3 }),
        None,
    ),
    (
        "",
        "x = INT[2] :\n[0] 1\n[2] 2\n",
        Err(BadLine { line: 3 }),
        None,
    ),
    ("", "x = INT[0] :\n", Err(BadLine { line: 1 }), None),
    ("", "x = STRING : a", Err(BadLine { line: 1 }), None),
    ("", "x = UINT8 : 256", Err(BadLine { line: 1 }), None),
    (
        "",
        "x = STRING[3] :\n[32] a\nb\n[1025] c\n",
        Err(BadLine { line: 3 }),
        None,
    ),
    (
        "",
        "x = DOUBLE[2] :\n[0] 1\n",
        Err(BadLine { line: 3 }),
        None,
    ),
    (
        "",
        "[/a/a/a/a/a/a/a/a/a/a/a/a/a/a/a/a/a/a/a/a/a/a/a/a/a/a/a/a/a/a/a/a]\nx = INT : 1",
        Err(BadLine { line: 2 }),
        None,
    ),
    // Lines that the grammar does not have, of keys that a database refuses too.
    (
        "",
        "x = INT : 1\nx = DWORD[2] :\n[0] 1\n[1] bad\n",
        Err(BadLine { line: 4 }),
        None,
    ),
    (
        "",
        "x = INT : 1\nx = UINT8 : 300\n",
        Err(BadLine { line: 2 }),
        None,
    ),
    // Keys that a database refuses.
    (
        "",
        "x = INT32[65537] :\n",
        Err(KeyRefused {
            line: 1,
            why: TOO_MANY,
        }),
        None,
    ),
    (
        "",
        "\nx = FLOAT[65537] :\nbad",
        Err(KeyRefused {
            line: 2,
            why: TOO_MANY,
        }),
        None,
    ),
    (
        "",
        "x = STRING : [1025] a",
        Err(KeyRefused {
            line: 1,
            why: TOO_LONG,
        }),
        None,
    ),
    (
        "",
        "x = STRING[3] :\n[32] a\n[1025] b\nbad",
        Err(KeyRefused {
            line: 1,
            why: TOO_LONG,
        }),
        None,
    ),
    (
        "",
        "x = INT : 1\n[/x]\n",
        Err(KeyRefused {
            line: 2,
            why: OdbRefusal::NotDir,
        }),
        None,
    ),
    (
        "",
        "x = INT : 1\n[/x/y]\n",
        Err(KeyRefused {
            line: 2,
            why: OdbRefusal::NotDir,
        }),
        None,
    ),
    (
        "",
        "[/A]\n[/]\na = INT : 1\n",
        Err(KeyRefused {
            line: 3,
            why: OdbRefusal::NotValue,
        }),
        None,
    ),
    (
        "",
        "x = INT : 1\nx = DWORD : 1",
        Err(KeyRefused {
            line: 2,
            why: OF_INT32,
        }),
        None,
    ),
    // Texts whose database is saved again.
    (
        "",
        "a = CHAR : \nb = CHAR :  \n",
        Ok(Loaded {
            keys: 2,
            skipped: 0,
        }),
        Some((30, "[/]\na = CHAR : \nb = CHAR :  \n\n")),
    ),
    (
        SESSION,
        OLDER,
        Ok(Loaded {
            keys: 20,
            skipped: 2,
        }),
        Some((677, SAVED)),
    ),
    (
        SESSION,
        SAVED,
        Ok(Loaded {
            keys: 20,
            skipped: 0,
        }),
        Some((677, SAVED)),
    ),
    (
        "",
        SESSION,
        Ok(Loaded {
            keys: 4,
            skipped: 0,
        }),
        Some((114, NEW)),
    ),
    (
        "",
        NEW,
        Ok(Loaded {
            keys: 4,
            skipped: 0,
        }),
        Some((114, NEW)),
    ),
    (
        "",
        BEGUN,
        Ok(Loaded {
            keys: 5,
            skipped: 0,
        }),
        Some((173, BEGUN)),
    ),
    (
        "",
        ENDED,
        Ok(Loaded {
            keys: 5,
            skipped: 0,
        }),
        Some((176, ENDED)),
    ),
    (
        "",
        ENDED_EMPTY,
        Ok(Loaded {
            keys: 5,
            skipped: 0,
        }),
        Some((176, ENDED_EMPTY)),
    ),
    (
        SESSION,
        "[/A]\nx = INT : 5\ny = INT : five",
        Err(BadLine { line: 3 }),
        Some((114, NEW)),
    ),
];

/// Whether the database is saved as this text of so many bytes, if that is told.
fn is_saved_as(
    alloc: Global,
    database: &PlainTree,
    saved: Option<(usize, &str)>,
) -> Result<bool, NoMemory> {
    match saved {
        None => Ok(true),
        Some((len, saved)) if saved.len() == len => is_saved(alloc, database, saved.as_bytes()),
        Some(_) => Ok(false),
    }
}

/// Whether that comes of the text of a row, and is saved.
fn comes_so(alloc: Global, row: &Row) -> Result<bool, NoMemory> {
    let (before, text, wanted, saved) = row;
    let mut database = PlainTree::new(alloc);
    let stands = load_text(alloc, &mut database, before).is_ok();
    let loads = load_text(alloc, &mut database, text) == *wanted;
    let saves = is_saved_as(alloc, &database, *saved)?;
    Ok(stands && loads && saves)
}

#[test]
fn texts_are_loaded_or_refused(rt: HostRuntime) -> Result<(), Fail> {
    for row in TEXTS {
        assert!(rt; comes_so(rt.alloc(), row)?, "{}", row.1);
    }
    Ok(())
}
