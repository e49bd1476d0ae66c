//! Calls on a database that notes each, and whose they are in the journal.
ghost use Rattle.std.specs.Prelude.{◌≤◌};

use crate::calls::{Call, Reply, Row, children_in, item_of, items_in, named, value_of};
use daq_types::{Caller, Tid};
use odb_journal::LocalDatabase;
use odb_tree::{DatabaseEntry, NewKey, OdbRefusal, PlainTree};
use odb_value::Path;
use std::alloc::Global;
use std::test::Fail;

/// Calls and their replies. A member writes the items, and the main thread makes the other calls.
const CALLS: &[Row] = &[
    (
        "/A/b",
        Call::Set(1, Tid::UInt8, "255"),
        Err(OdbRefusal::NoKey),
    ),
    ("/", Call::Find, Ok(0)),
    ("/", Call::List, Ok(0)),
    ("/", Call::PathOf(0), Ok(0)),
    ("/A/b", Call::Keys(Tid::UInt8, 2), Ok(2)),
    ("/A/b", Call::Get, Ok(2)),
    ("/A/b", Call::SetAll(Tid::UInt8, 2), Ok(2)),
    ("/A/b", Call::Set(1, Tid::UInt8, "255"), Ok(2)),
    ("/a/B", Call::Find, Ok(2)),
    ("/", Call::List, Ok(1)),
    ("/", Call::PathOf(2), Ok(2)),
    ("/A/b", Call::Resize(3), Ok(2)),
    ("/A/b", Call::SetAll(Tid::UInt8, 2), Ok(2)),
    ("/A/b", Call::Delete, Ok(1)),
];

/// Sets the item of this type and text, as a member.
fn set_by_member(
    alloc: Global,
    database: &mut LocalDatabase<PlainTree>,
    path: Path,
    index: u32,
    tid: Tid,
    text: &str,
) -> Reply
    requires room { 1 ≤ database.old.room }
{
    let item = item_of(alloc, tid, text)?;
    database.set(alloc, Caller::of_client(0), path, index, item)
}

fn set_all(
    alloc: Global,
    database: &mut LocalDatabase<PlainTree>,
    path: Path,
    tid: Tid,
    len: u32,
) -> Reply
    requires room { 1 ≤ database.old.room }
{
    let value = value_of(alloc, tid, len)?;
    database.set_all(alloc, path, value)
}

fn call_noted(
    alloc: Global,
    database: &mut LocalDatabase<PlainTree>,
    path: Path,
    call: Call,
) -> Reply {
    let main = Caller::MAIN;
    database.reserve(1)?;
    match call {
        Call::Keys(tid, len) => database.create(alloc, path, NewKey::Keys { tid, len }),
        Call::Set(index, tid, text) => set_by_member(alloc, database, path, index, tid, text),
        Call::SetAll(tid, len) => set_all(alloc, database, path, tid, len),
        Call::Get => items_in(database.get(alloc, main, path)),
        Call::Find => database.find(alloc, main, path),
        Call::List => children_in(database.list(alloc, main, path)),
        Call::Delete => database.delete(path),
        Call::Resize(len) => database.resize(alloc, path, len),
        Call::PathOf(row) => named(database.path_of(alloc, main, row)),
        _ => Err(OdbRefusal::NoMemory),
    }
}

/// Whether as many calls are noted as the rows make, the two that write an item as the member's.
fn are_noted(entries: &[(Caller, DatabaseEntry)]) -> bool {
    entries.len() == CALLS.len() && is_members(&entries[0]) && is_members(&entries[7])
}

fn is_members(entry: &(Caller, DatabaseEntry)) -> bool {
    match entry {
        (caller, DatabaseEntry::Set { index, .. }) => *caller == Caller::of_client(0)
            && *index == 1,
        _ => false,
    }
}

#[test]
fn calls_are_noted(rt: HostRuntime) -> Result<(), Fail> {
    let alloc = rt.alloc();
    let mut database = LocalDatabase::new(alloc, PlainTree::new(alloc));
    for (text, call, wanted) in CALLS {
        let path = Path::read(alloc, text.as_bytes())?;
        assert!(rt;
            call_noted(alloc, &mut database, path, *call) == *wanted,
            "{text}"
        );
    }
    let (_, journal) = database.into_parts();
    assert!(rt; are_noted(journal.as_slice()));
    Ok(())
}
