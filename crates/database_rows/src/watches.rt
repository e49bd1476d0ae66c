//! Worked rows of watches, over both databases, and each call once.
use crate::calls::{Call, Row, run};
use daq_types::{NoMemory, Tid};
use odb_arena::ArenaTree;
use odb_tree::{Database, Note, Notes, PlainTree};
use odb_watch::{NoWatch, WatchRefusal, Watches};
use std::alloc::Global;
use std::process::Abort;
use std::test::Fail;

/// A row of a database that is watched, the changes that are then made so often, and what is noted.
struct Watched {
    about: &'static str,
    before: &'static [Row],
    row: u32,
    times: u32,
    changes: &'static [Row],
    lost: u64,
    notes: &'static [Note],
}

/// The first item of the key of the rows below is written.
const NOTE: Note = Note { row: 2, index: 0 };

const WATCHED: &[Watched] = &[
    Watched {
        about: "a watch keeps 256 notes",
        before: &[
            ("/A/x", Call::Keys(Tid::UInt32, 1), Ok(2)),
            ("/A", Call::Find, Ok(1)),
        ],
        row: 1,
        times: 257,
        changes: &[("/A/x", Call::Set(0, Tid::UInt32, "1"), Ok(2))],
        lost: 1,
        notes: &[NOTE; 256],
    },
    Watched {
        about: "each item that is written is noted",
        before: &[],
        row: 0,
        times: 1,
        changes: &[
            ("/A/x", Call::Keys(Tid::UInt32, 2), Ok(2)),
            ("/A/x", Call::Get, Ok(2)),
            ("/A/x", Call::SetAll(Tid::UInt32, 2), Ok(2)),
            ("/A/x", Call::Resize(3), Ok(2)),
            ("/A/x", Call::Set(1, Tid::UInt32, "7"), Ok(2)),
            ("/A/x", Call::Delete, Ok(1)),
        ],
        lost: 0,
        notes: &[
            NOTE,
            NOTE,
            Note { row: 2, index: 1 },
            Note { row: 2, index: 2 },
            Note { row: 2, index: 1 },
        ],
    },
];

/// Whether the first watch gives these notes once, then none, and ends once.
fn gives_and_ends<D: Database>(
    alloc: Global,
    database: &mut Watches<D>,
    watched: &Watched,
) -> Result<bool, NoMemory> {
    let mut notes = Notes::new(alloc)?;
    let given = database.notes(0, &mut notes) == Ok(watched.lost);
    let noted = notes.as_slice() == watched.notes;
    let none = database.notes(0, &mut notes) == Ok(0);
    let empty = notes.as_slice().is_empty();
    let ended = database.unwatch(0) == Ok(());
    let gone = database.unwatch(0) == Err(NoWatch);
    let lost = database.notes(0, &mut notes) == Err(NoWatch);
    Ok(given && noted && none && empty && ended && gone && lost)
}

/// Whether the first watch of a copy of this database does so.
fn copy_gives<D: Database>(
    alloc: Global,
    database: &Watches<D>,
    watched: &Watched,
) -> Result<bool, NoMemory> {
    let mut copy = database.copy(alloc)?;
    gives_and_ends(alloc, &mut copy, watched)
}

/// Watches a row of this database, and makes the changes.
fn change<D: Database>(
    rt: &impl Abort,
    alloc: Global,
    database: &mut Watches<D>,
    watched: &Watched,
) -> Result<(), Fail> {
    run(rt, alloc, database, watched.before)?;
    assert!(rt; database.watch(alloc, watched.row) == Ok(0));
    for _ in 0..watched.times {
        run(rt, alloc, database, watched.changes)?;
    }
    Ok(())
}

/// Whether that is noted over this database.
fn is_noted<D: Database>(
    rt: &impl Abort,
    alloc: Global,
    tree: D,
    watched: &Watched,
) -> Result<bool, Fail> {
    let mut database = Watches::new(alloc, tree);
    change(rt, alloc, &mut database, watched)?;
    let copied = copy_gives(alloc, &database, watched)?;
    let given = gives_and_ends(alloc, &mut database, watched)?;
    Ok(copied && given)
}

#[test]
fn changes_are_noted(rt: HostRuntime) -> Result<(), Fail> {
    let alloc = rt.alloc();
    for watched in WATCHED {
        let plain = is_noted(&rt, alloc, PlainTree::new(alloc), watched)?;
        assert!(rt; plain, "plain: {}", watched.about);
        let arena = is_noted(&rt, alloc, ArenaTree::new(alloc), watched)?;
        assert!(rt; arena, "arena: {}", watched.about);
    }
    Ok(())
}

/// Whether 64 watches live and no more, and the number of one that ended is given again.
fn holds_sixty_four<D: Database>(alloc: Global, database: &mut Watches<D>) -> bool {
    for number in 0..64 {
        if database.watch(alloc, 0) != Ok(number) {
            return false;
        }
    }
    database.watch(alloc, 0) == Err(WatchRefusal::NoWatchSlot)
        && database.unwatch(7) == Ok(())
        && database.watch(alloc, 0) == Ok(7)
}

#[test]
fn sixty_four_watches_live(rt: HostRuntime) {
    let mut database = Watches::new(rt.alloc(), ArenaTree::new(rt.alloc()));
    assert!(rt; holds_sixty_four(rt.alloc(), &mut database));
}
