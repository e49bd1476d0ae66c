//! Texts with links, of a database that keeps them and of one that keeps none.
use crate::calls::{is_saved, load_text};
use LoadRefusal::{BadLine, KeyRefused};
use daq_types::{NoMemory, Tid};
use odb_arena::ArenaTree;
use odb_links::LinkTree;
use odb_text::{LoadRefusal, Loaded};
use odb_tree::{Database, OdbRefusal, PlainTree, What};
use std::alloc::Global;
use std::test::Fail;

const TOO_MANY: OdbRefusal = OdbRefusal::Limit { what: What::Items };

const TOO_LONG: OdbRefusal = OdbRefusal::Limit { what: What::Size };

/// What comes of a text, and what is saved then.
type Outcome = (Result<Loaded, LoadRefusal>, &'static str);

/// A text that is loaded first, a text, and its outcomes: where links are kept, and where none are.
type Row = (&'static str, &'static str, Outcome, Outcome);

/// Texts with links, and directories at links and behind them.
const TEXTS: &[Row] = &[
    // A dump with a link, and links whose text or size is spelled otherwise.
    (
        "",
        "[/]\nL = LINK : [3] /A\n\n[/A]\nx = UINT32 : 0\n\n",
        (
            Ok(Loaded {
                keys: 2,
                skipped: 0,
            }),
            "[/]\nL = LINK : [3] /A\n\n[/A]\nx = UINT32 : 0\n\n",
        ),
        (
            Ok(Loaded {
                keys: 1,
                skipped: 1,
            }),
            "[/A]\nx = UINT32 : 0\n\n",
        ),
    ),
    (
        "",
        "L=LINK:[1024]/A",
        (
            Ok(Loaded {
                keys: 1,
                skipped: 0,
            }),
            "[/]\nL = LINK : [3] /A\n\n",
        ),
        (
            Ok(Loaded {
                keys: 0,
                skipped: 1,
            }),
            "",
        ),
    ),
    (
        "",
        "L = LINK : [0] A",
        (
            Ok(Loaded {
                keys: 1,
                skipped: 0,
            }),
            "[/]\nL = LINK : [2] A\n\n",
        ),
        (
            Ok(Loaded {
                keys: 0,
                skipped: 1,
            }),
            "",
        ),
    ),
    (
        "",
        "L = LINK : [3] ",
        (
            Ok(Loaded {
                keys: 1,
                skipped: 0,
            }),
            "[/]\nL = LINK : [1] \n\n",
        ),
        (
            Ok(Loaded {
                keys: 0,
                skipped: 1,
            }),
            "",
        ),
    ),
    (
        "",
        "L = LINK : [3] /\nl = LINK : [1] /B\n",
        (
            Ok(Loaded {
                keys: 2,
                skipped: 0,
            }),
            "[/]\nL = LINK : [3] /B\n\n",
        ),
        (
            Ok(Loaded {
                keys: 0,
                skipped: 2,
            }),
            "",
        ),
    ),
    // Lines of links that the grammar does not have, or that are refused whatever is there.
    (
        "",
        "L = LINK : /A",
        (Err(BadLine { line: 1 }), ""),
        (
            Ok(Loaded {
                keys: 0,
                skipped: 1,
            }),
            "",
        ),
    ),
    (
        "",
        "L = LINK : [3] A/",
        (Err(BadLine { line: 1 }), ""),
        (
            Ok(Loaded {
                keys: 0,
                skipped: 1,
            }),
            "",
        ),
    ),
    (
        "",
        "L = LINK : [1025] A/",
        (Err(BadLine { line: 1 }), ""),
        (
            Ok(Loaded {
                keys: 0,
                skipped: 1,
            }),
            "",
        ),
    ),
    (
        "",
        "\nL = LINK[1] :\n[3] /A\n",
        (Err(BadLine { line: 2 }), ""),
        (
            Ok(Loaded {
                keys: 0,
                skipped: 1,
            }),
            "",
        ),
    ),
    (
        "",
        "L = LINK[65537] :\n",
        (Err(BadLine { line: 1 }), ""),
        (
            Err(KeyRefused {
                line: 1,
                why: TOO_MANY,
            }),
            "",
        ),
    ),
    (
        "",
        "L = LINK : [1025] /A",
        (
            Err(KeyRefused {
                line: 1,
                why: TOO_LONG,
            }),
            "",
        ),
        (
            Ok(Loaded {
                keys: 0,
                skipped: 1,
            }),
            "",
        ),
    ),
    // What stands where a link is written.
    (
        "L = STRING : [32] a\n",
        "L = LINK : [3] /A",
        (
            Err(KeyRefused {
                line: 1,
                why: OdbRefusal::TypeMismatch { have: Tid::Text },
            }),
            "[/]\nL = STRING : [32] a\n\n",
        ),
        (
            Ok(Loaded {
                keys: 0,
                skipped: 1,
            }),
            "[/]\nL = STRING : [32] a\n\n",
        ),
    ),
    (
        "[/L]\n",
        "L = LINK : [3] /A",
        (
            Err(KeyRefused {
                line: 1,
                why: OdbRefusal::NotValue,
            }),
            "[/L]\n\n",
        ),
        (
            Ok(Loaded {
                keys: 0,
                skipped: 1,
            }),
            "[/L]\n\n",
        ),
    ),
    (
        "L = LINK : [3] /A\n",
        "L = LINK : [9] /B\n",
        (
            Ok(Loaded {
                keys: 1,
                skipped: 0,
            }),
            "[/]\nL = LINK : [3] /B\n\n",
        ),
        (
            Ok(Loaded {
                keys: 0,
                skipped: 1,
            }),
            "",
        ),
    ),
    (
        "L = LINK : [3] /A\n",
        "L = STRING : [32] a\n",
        (
            Err(KeyRefused {
                line: 1,
                why: OdbRefusal::TypeMismatch { have: Tid::Link },
            }),
            "[/]\nL = LINK : [3] /A\n\n",
        ),
        (
            Ok(Loaded {
                keys: 1,
                skipped: 0,
            }),
            "[/]\nL = STRING : [32] a\n\n",
        ),
    ),
    // Directories at links and behind them.
    (
        "L = LINK : [3] /A\n",
        "[/L]\n",
        (
            Err(KeyRefused {
                line: 1,
                why: OdbRefusal::NotDir,
            }),
            "[/]\nL = LINK : [3] /A\n\n",
        ),
        (
            Ok(Loaded {
                keys: 0,
                skipped: 0,
            }),
            "[/L]\n\n",
        ),
    ),
    (
        "L = LINK : [3] /A\n",
        "[/L/x]\n",
        (
            Ok(Loaded {
                keys: 0,
                skipped: 0,
            }),
            "[/]\nL = LINK : [3] /A\n\n[/A]\n\n[/A/x]\n\n",
        ),
        (
            Ok(Loaded {
                keys: 0,
                skipped: 0,
            }),
            "[/L]\n\n[/L/x]\n\n",
        ),
    ),
    (
        "L = LINK : [3] /A\n[/A/x]\n",
        "[/l/X]\n",
        (
            Ok(Loaded {
                keys: 0,
                skipped: 0,
            }),
            "[/]\nL = LINK : [3] /A\n\n[/A]\n\n[/A/x]\n\n",
        ),
        (
            Ok(Loaded {
                keys: 0,
                skipped: 0,
            }),
            "[/A]\n\n[/A/x]\n\n[/l]\n\n[/l/X]\n\n",
        ),
    ),
    (
        "L = LINK : [3] /A\n[/A]\nx = INT32 : 1\n",
        "[/L/x]\n",
        (
            Err(KeyRefused {
                line: 1,
                why: OdbRefusal::NotDir,
            }),
            "[/]\nL = LINK : [3] /A\n\n[/A]\nx = INT32 : 1\n\n",
        ),
        (
            Ok(Loaded {
                keys: 0,
                skipped: 0,
            }),
            "[/A]\nx = INT32 : 1\n\n[/L]\n\n[/L/x]\n\n",
        ),
    ),
    (
        "L = LINK : [3] /A\n[/A]\nx = LINK : [3] /B\n[/B]\n",
        "[/L/x]\n",
        (
            Err(KeyRefused {
                line: 1,
                why: OdbRefusal::NotDir,
            }),
            "[/]\nL = LINK : [3] /A\n\n[/A]\nx = LINK : [3] /B\n\n[/B]\n\n",
        ),
        (
            Ok(Loaded {
                keys: 0,
                skipped: 0,
            }),
            "[/A]\n\n[/B]\n\n[/L]\n\n[/L/x]\n\n",
        ),
    ),
    (
        "L = LINK : [3] /A\n",
        "[/L/x]\nz = INT32 : 1\n",
        (
            Err(KeyRefused {
                line: 2,
                why: OdbRefusal::NotDir,
            }),
            "[/]\nL = LINK : [3] /A\n\n",
        ),
        (
            Ok(Loaded {
                keys: 1,
                skipped: 0,
            }),
            "[/L]\n\n[/L/x]\nz = INT32 : 1\n\n",
        ),
    ),
    (
        "C = LINK : [3] /C\n",
        "[/C/x]\n",
        (
            Err(KeyRefused {
                line: 1,
                why: OdbRefusal::BadLink { steps: 16 },
            }),
            "[/]\nC = LINK : [3] /C\n\n",
        ),
        (
            Ok(Loaded {
                keys: 0,
                skipped: 0,
            }),
            "[/C]\n\n[/C/x]\n\n",
        ),
    ),
    (
        "C = LINK : [3] /C\n",
        "[/C]\n",
        (
            Err(KeyRefused {
                line: 1,
                why: OdbRefusal::NotDir,
            }),
            "[/]\nC = LINK : [3] /C\n\n",
        ),
        (
            Ok(Loaded {
                keys: 0,
                skipped: 0,
            }),
            "[/C]\n\n",
        ),
    ),
];

/// Whether a new database has the outcome that a row tells for its kind.
fn comes_so<D: Database>(alloc: Global, mut database: D, row: &Row) -> Result<bool, NoMemory> {
    let (before, text, kept, plain) = row;
    let (reply, saved) = if database.keeps_links() { kept } else { plain };
    let stands = load_text(alloc, &mut database, before).is_ok();
    let loads = load_text(alloc, &mut database, text) == *reply;
    let saves = is_saved(alloc, &database, saved.as_bytes())?;
    Ok(stands && loads && saves)
}

#[test]
fn links_in_texts(rt: HostRuntime) -> Result<(), Fail> {
    let alloc = rt.alloc();
    for row in TEXTS {
        let plain = comes_so(alloc, PlainTree::new(alloc), row)?;
        assert!(rt; plain, "plain: {}", row.1);
        let arena = comes_so(alloc, ArenaTree::new(alloc), row)?;
        assert!(rt; arena, "arena: {}", row.1);
        let linked = comes_so(alloc, LinkTree::new(alloc, ArenaTree::new(alloc)), row)?;
        assert!(rt; linked, "linked: {}", row.1);
    }
    Ok(())
}
