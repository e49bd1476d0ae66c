//! Rows of calls, a copy's too, for all databases, and for those that keep links.
use crate::calls::{Call, Reply, Row, run};
use crate::texts::{BEGUN, ENDED_EMPTY, SESSION};
use daq_types::Tid;
use odb_arena::ArenaTree;
use odb_links::LinkTree;
use odb_tree::{Database, OdbRefusal, PlainTree, What};
use std::alloc::Global;
use std::process::Abort;
use std::test::Fail;

/// Calls on a new database, then on a copy of it, and then on the first again.
type Story = (&'static [Row], &'static [Row], &'static [Row]);

/// It has values of this other type.
const HAS_UINT32: Reply = Err(OdbRefusal::TypeMismatch { have: Tid::UInt32 });

const LIMIT_ITEMS: Reply = Err(OdbRefusal::Limit { what: What::Items });

const LIMIT_SIZE: Reply = Err(OdbRefusal::Limit { what: What::Size });

const LIMIT_TOTAL: Reply = Err(OdbRefusal::Limit { what: What::Total });

const FLOAT_NOT_KEPT: Reply = Err(OdbRefusal::NotKept { tid: Tid::Float });

const NO_INDEX_1: Reply = Err(OdbRefusal::BadIndex { len: 1 });

/// Keys are made and removed.
const KEYS: &[Row] = &[
    ("/", Call::Dir, Err(OdbRefusal::Exists)),
    ("/A/x", Call::Keys(Tid::UInt32, 2), Ok(2)),
    ("/a/X", Call::Keys(Tid::Float, 0), Err(OdbRefusal::Exists)),
    ("/A/x/y", Call::Keys(Tid::Float, 0), Err(OdbRefusal::NotDir)),
    ("/B/f", Call::Keys(Tid::Float, 0), FLOAT_NOT_KEPT),
    ("/B/f", Call::Keys(Tid::UInt8, 0), LIMIT_ITEMS),
    ("/B/f", Call::Keys(Tid::UInt8, 65537), LIMIT_ITEMS),
    ("/B", Call::Find, Err(OdbRefusal::NoKey)),
    ("/A/d", Call::Dir, Ok(3)),
    ("/A/y", Call::Keys(Tid::Int8, 1), Ok(4)),
    ("/A", Call::List, Ok(3)),
    ("/A/x", Call::List, Err(OdbRefusal::NotDir)),
    ("/A/x/y", Call::Delete, Err(OdbRefusal::NotDir)),
    ("/A/q", Call::Delete, Err(OdbRefusal::NoKey)),
    ("/a/X", Call::Delete, Ok(1)),
    ("/A/x", Call::Keys(Tid::UInt32, 1), Ok(5)),
    ("/A/D/z", Call::SetAll(Tid::UInt32, 1), Ok(6)),
    ("/a/d/Z", Call::Find, Ok(6)),
    ("/", Call::Delete, Ok(5)),
    ("/A", Call::Dir, Ok(7)),
];

/// Values are written.
const VALUES: &[Row] = &[
    ("/A/x", Call::SetAll(Tid::UInt32, 2), Ok(2)),
    ("/A/x", Call::Set(2, Tid::UInt8, "7"), HAS_UINT32),
    (
        "/A/x",
        Call::Set(2, Tid::UInt32, "7"),
        Err(OdbRefusal::BadIndex { len: 2 }),
    ),
    ("/a/X", Call::Set(1, Tid::UInt32, "7"), Ok(2)),
    (
        "/A",
        Call::Set(0, Tid::UInt32, "7"),
        Err(OdbRefusal::NotValue),
    ),
    ("/", Call::Get, Err(OdbRefusal::NotValue)),
    ("/A/q", Call::Get, Err(OdbRefusal::NoKey)),
    ("/A/x/q", Call::Get, Err(OdbRefusal::NotDir)),
    ("/A/x", Call::Resize(5), Ok(2)),
    ("/a/x", Call::Get, Ok(5)),
    ("/A/x", Call::SetAll(Tid::UInt32, 2), Ok(2)),
    ("/A/x", Call::Get, Ok(2)),
    ("/A/t", Call::Keys(Tid::Text, 1), Ok(3)),
    ("/A/t", Call::SetLong(1, 1024), NO_INDEX_1),
    ("/A/t", Call::SetLong(0, 1024), LIMIT_SIZE),
    ("/A/t", Call::SetLong(0, 1023), Ok(3)),
    ("/A/t", Call::Resize(0), LIMIT_ITEMS),
    ("/A/t", Call::Resize(4096), LIMIT_TOTAL),
    ("/A/t", Call::Resize(4095), Ok(3)),
    ("/A/t", Call::Get, Ok(4095)),
    ("/A/x", Call::SetAll(Tid::UInt32, 1024), LIMIT_TOTAL),
    ("/A/x", Call::SetAll(Tid::UInt8, 1), HAS_UINT32),
    ("/A", Call::SetAll(Tid::UInt8, 1), Err(OdbRefusal::NotValue)),
    (
        "/A/x/y",
        Call::SetAll(Tid::UInt8, 1),
        Err(OdbRefusal::NotDir),
    ),
];

/// Keys and directories of which one key is removed and made again.
const MADE_AGAIN: &[Row] = &[
    ("/A/x", Call::Keys(Tid::UInt32, 1), Ok(2)),
    ("/A/d", Call::Dir, Ok(3)),
    ("/A/y", Call::Keys(Tid::UInt32, 1), Ok(4)),
    ("/a/X", Call::Delete, Ok(1)),
    ("/A/x", Call::Keys(Tid::UInt32, 1), Ok(5)),
];

/// A directory lists its keys first, and rows lie below others.
const LISTED: &[Row] = &[
    ("/A", Call::List, Ok(3)),
    ("/A", Call::Child(0, "y"), Ok(0)),
    ("/A", Call::Child(1, "x"), Ok(0)),
    ("/A", Call::Child(2, "d"), Ok(1)),
    ("", Call::IsBelow(5, 1), Ok(1)),
    ("", Call::IsBelow(5, 0), Ok(1)),
    ("", Call::IsBelow(1, 5), Ok(0)),
    ("", Call::IsBelow(2, 1), Ok(0)),
    ("", Call::IsBelow(0, 0), Ok(1)),
    ("", Call::PathOf(2), Err(OdbRefusal::NoKey)),
    ("", Call::PathOf(5), Ok(2)),
];

/// What is copied.
const FIRST: &[Row] = &[
    ("/A/B/x", Call::Keys(Tid::UInt32, 1), Ok(3)),
    ("/C", Call::Dir, Ok(4)),
];

/// A copy has the numbers of the rows.
const ON_COPY: &[Row] = &[
    ("/a/b", Call::Delete, Ok(2)),
    ("/A/y", Call::Keys(Tid::UInt32, 1), Ok(5)),
    ("/A/B", Call::Find, Err(OdbRefusal::NoKey)),
];

/// It stands alone.
const BEHIND: &[Row] = &[
    ("/A/b/X", Call::Find, Ok(3)),
    ("/A/y", Call::Find, Err(OdbRefusal::NoKey)),
    ("/A/z", Call::Dir, Ok(5)),
];

/// Numbers, and a directory that was removed, are saved.
const SAVED: &[Row] = &[
    ("/Settings/Delay", Call::Keys(Tid::UInt32, 3), Ok(2)),
    ("/settings/delay", Call::Set(1, Tid::UInt32, "7"), Ok(2)),
    ("/Settings/Old", Call::Dir, Ok(3)),
    ("/Enabled", Call::Keys(Tid::Bool, 1), Ok(4)),
    ("/Settings/OLD", Call::Delete, Ok(1)),
    (
        "",
        Call::Save(
            "[/]\nEnabled = BOOL : n\n\n[/Settings]\nDelay = UINT32[3] :\n[0] 0\n[1] 7\n[2] 0\n\n",
        ),
        Ok(1),
    ),
];

/// Texts and arrays are saved.
const TEXTS: &[Row] = &[
    ("/Settings/Names", Call::Keys(Tid::Text, 2), Ok(2)),
    (
        "/Settings/Names",
        Call::Set(0, Tid::Text, "ADC left"),
        Ok(2),
    ),
    (
        "/Settings/Names",
        Call::Set(1, Tid::Text, "ADC right"),
        Ok(2),
    ),
    ("/Settings/Delay", Call::Keys(Tid::UInt32, 3), Ok(3)),
    ("/Settings/Delay", Call::Set(0, Tid::UInt32, "10"), Ok(3)),
    ("/Settings/Delay", Call::Set(1, Tid::UInt32, "20"), Ok(3)),
    ("/Settings/Delay", Call::Set(2, Tid::UInt32, "30"), Ok(3)),
    ("/Stop time", Call::Keys(Tid::Text, 1), Ok(4)),
    ("/Stop time", Call::Set(0, Tid::Text, ""), Ok(4)),
    ("/Enabled", Call::Keys(Tid::Bool, 1), Ok(5)),
    ("/Enabled", Call::Set(0, Tid::Bool, "y"), Ok(5)),
    (
        "",
        Call::Save(
            "[/]\nStop time = STRING : [32] \nEnabled = BOOL : y\n\n[/Settings]\n\
             Names = STRING[2] :\n[32] ADC left\n[32] ADC right\n\
             Delay = UINT32[3] :\n[0] 10\n[1] 20\n[2] 30\n\n",
        ),
        Ok(1),
    ),
];

/// A run that begins is saved.
const RUN_BEGUN: &[Row] = &[
    ("/Runinfo/State", Call::Keys(Tid::Int32, 1), Ok(2)),
    ("/Runinfo/State", Call::Set(0, Tid::Int32, "1"), Ok(2)),
    ("/Runinfo/Run number", Call::Keys(Tid::Int32, 1), Ok(3)),
    ("/Runinfo/Run number", Call::Set(0, Tid::Int32, "1"), Ok(3)),
    (
        "/Runinfo/Start time binary",
        Call::Keys(Tid::UInt32, 1),
        Ok(4),
    ),
    (
        "/Runinfo/Start time binary",
        Call::Set(0, Tid::UInt32, "1000"),
        Ok(4),
    ),
    (
        "/Runinfo/Stop time binary",
        Call::Keys(Tid::UInt32, 1),
        Ok(5),
    ),
    (
        "/Runinfo/Stop time binary",
        Call::Set(0, Tid::UInt32, "0"),
        Ok(5),
    ),
    (
        "/Equipment/FE/Events sent",
        Call::Keys(Tid::UInt64, 1),
        Ok(8),
    ),
    (
        "/Equipment/FE/Events sent",
        Call::Set(0, Tid::UInt64, "0"),
        Ok(8),
    ),
    ("", Call::Save(BEGUN), Ok(1)),
];

/// A session with a run is saved at its end.
const RUN_ENDED: &[Row] = &[
    ("", Call::Load(SESSION), Ok(4)),
    (
        "/Equipment/FE/Events sent",
        Call::Keys(Tid::UInt64, 1),
        Ok(8),
    ),
    (
        "/Equipment/FE/Events sent",
        Call::Set(0, Tid::UInt64, "0"),
        Ok(8),
    ),
    ("/Runinfo/State", Call::Set(0, Tid::Int32, "1"), Ok(2)),
    ("/Runinfo/Run number", Call::Set(0, Tid::Int32, "1"), Ok(3)),
    (
        "/Runinfo/Start time binary",
        Call::Set(0, Tid::UInt32, "1000"),
        Ok(4),
    ),
    (
        "/Runinfo/Stop time binary",
        Call::Set(0, Tid::UInt32, "0"),
        Ok(5),
    ),
    (
        "/Equipment/FE/Events sent",
        Call::Set(0, Tid::UInt64, "0"),
        Ok(8),
    ),
    ("/Runinfo/State", Call::Set(0, Tid::Int32, "3"), Ok(2)),
    (
        "/Runinfo/Stop time binary",
        Call::Set(0, Tid::UInt32, "1010"),
        Ok(5),
    ),
    ("", Call::Save(ENDED_EMPTY), Ok(1)),
];

const STORIES: &[Story] = &[
    (KEYS, &[], &[]),
    (VALUES, &[], &[]),
    (MADE_AGAIN, LISTED, &[]),
    (FIRST, ON_COPY, BEHIND),
    (SAVED, &[], &[]),
    (TEXTS, &[], &[]),
    (RUN_BEGUN, &[], &[]),
    (RUN_ENDED, &[], &[]),
];

const LEADS_NOWHERE: Reply = Err(OdbRefusal::BadLink { steps: 16 });

const LINK_NOT_KEPT: Reply = Err(OdbRefusal::NotKept { tid: Tid::Link });

/// A path of 32 names of 31 bytes, the longest that there is, whose text has 1,024 bytes.
const LONGEST: &str =
    "/0123456789012345678901234567890/0123456789012345678901234567890/0123456789012345678901234567890\
    /0123456789012345678901234567890/0123456789012345678901234567890/0123456789012345678901234567890\
    /0123456789012345678901234567890/0123456789012345678901234567890/0123456789012345678901234567890\
    /0123456789012345678901234567890/0123456789012345678901234567890/0123456789012345678901234567890\
    /0123456789012345678901234567890/0123456789012345678901234567890/0123456789012345678901234567890\
    /0123456789012345678901234567890/0123456789012345678901234567890/0123456789012345678901234567890\
    /0123456789012345678901234567890/0123456789012345678901234567890/0123456789012345678901234567890\
    /0123456789012345678901234567890/0123456789012345678901234567890/0123456789012345678901234567890\
    /0123456789012345678901234567890/0123456789012345678901234567890/0123456789012345678901234567890\
    /0123456789012345678901234567890/0123456789012345678901234567890/0123456789012345678901234567890\
    /0123456789012345678901234567890/0123456789012345678901234567890";

/// A database that keeps no links makes none.
const NO_LINKS: &[Row] = &[
    ("/A", Call::Link("/B"), LINK_NOT_KEPT),
    ("/A", Call::Find, Err(OdbRefusal::NoKey)),
    ("/A/x", Call::Put(Tid::UInt32, 2), Ok(2)),
    ("/A/x", Call::Link("/B"), Err(OdbRefusal::Exists)),
    ("/A/x", Call::Raw, Ok(0)),
    ("/a/X/y", Call::Walk, Ok(2)),
    ("/A/x", Call::Put(Tid::UInt8, 2), HAS_UINT32),
];

/// Links are made, to a directory, to one another, to themselves and to nothing, and paths go through them.
const LINKS: &[Row] = &[
    ("/A/x", Call::Keys(Tid::UInt32, 1), Ok(2)),
    ("/L", Call::Link("/A"), Ok(3)),
    ("/l/X", Call::Find, Ok(2)),
    ("/L", Call::Find, Ok(1)),
    ("/L", Call::List, Ok(1)),
    ("/L", Call::Get, Err(OdbRefusal::NotValue)),
    ("/L", Call::Raw, Ok(1)),
    ("/A/x", Call::Raw, Ok(0)),
    ("/L/x", Call::Raw, Err(OdbRefusal::NotDir)),
    ("/L/x", Call::Put(Tid::UInt32, 1), Err(OdbRefusal::NotDir)),
    ("/L/x", Call::Delete, Err(OdbRefusal::NotDir)),
    ("/L/y", Call::Keys(Tid::UInt8, 1), Ok(4)),
    ("/A/y", Call::Find, Ok(4)),
    ("/L", Call::Keys(Tid::UInt8, 1), Err(OdbRefusal::Exists)),
    ("/L", Call::Link("/B"), Err(OdbRefusal::Exists)),
    ("/M", Call::Link("/L"), Ok(5)),
    ("/M/x", Call::Find, Ok(2)),
    ("/M/x", Call::Walk, Ok(1)),
    ("/M/d/k", Call::Link("/A/x"), Ok(7)),
    ("/A/d/k", Call::Get, Ok(1)),
    ("/C", Call::Link("/C"), Ok(8)),
    ("/C", Call::Get, LEADS_NOWHERE),
    ("/C/x", Call::Dir, LEADS_NOWHERE),
    ("/C", Call::Dir, Err(OdbRefusal::Exists)),
    ("/C", Call::Raw, Ok(1)),
    ("/N", Call::Link("/B/z"), Ok(9)),
    ("/N", Call::Find, Err(OdbRefusal::NoKey)),
    ("/N", Call::SetAll(Tid::UInt32, 2), Ok(11)),
    ("/B/z", Call::Get, Ok(2)),
    ("/N", Call::Resize(3), Ok(11)),
    ("/B/z", Call::Get, Ok(3)),
    (
        "/N",
        Call::Put(Tid::UInt32, 1),
        Err(OdbRefusal::TypeMismatch { have: Tid::Link }),
    ),
    ("/Q", Call::Link(LONGEST), LIMIT_SIZE),
    ("/Q", Call::Find, Err(OdbRefusal::NoKey)),
    ("/A/x", Call::Link(LONGEST), Err(OdbRefusal::Exists)),
    ("/A/x/y", Call::Link(LONGEST), Err(OdbRefusal::NotDir)),
];

/// A link is removed, and not what it leads to.
const LINKS_ON_COPY: &[Row] = &[
    ("/L", Call::Delete, Ok(1)),
    ("/M/x", Call::Find, Err(OdbRefusal::NoKey)),
    ("/A/x", Call::Find, Ok(2)),
    ("/A", Call::Delete, Ok(5)),
    ("/N", Call::Get, Ok(3)),
];

/// The first database has its links still.
const LINKS_BEHIND: &[Row] = &[
    ("/M/x", Call::Find, Ok(2)),
    ("/M/d/k", Call::Raw, Err(OdbRefusal::NotDir)),
];

/// Makes the calls on a copy of the database.
fn run_on_copy<D: Database>(
    rt: &impl Abort,
    alloc: Global,
    database: &D,
    rows: &[Row],
) -> Result<(), Fail> {
    let mut copy = database.copy(alloc)?;
    run(rt, alloc, &mut copy, rows)
}

fn play<D: Database>(
    rt: &impl Abort,
    alloc: Global,
    mut database: D,
    story: Story,
) -> Result<(), Fail> {
    let (first, on_copy, behind) = story;
    run(rt, alloc, &mut database, first)?;
    run_on_copy(rt, alloc, &database, on_copy)?;
    run(rt, alloc, &mut database, behind)
}

#[test]
fn all_databases_reply_by_the_rows(rt: HostRuntime) -> Result<(), Fail> {
    let alloc = rt.alloc();
    for story in STORIES {
        play(&rt, alloc, PlainTree::new(alloc), *story)?;
        play(&rt, alloc, ArenaTree::new(alloc), *story)?;
        play(
            &rt,
            alloc,
            LinkTree::new(alloc, ArenaTree::new(alloc)),
            *story,
        )?;
    }
    Ok(())
}

#[test]
fn links_are_followed_where_they_are_kept(rt: HostRuntime) -> Result<(), Fail> {
    let alloc = rt.alloc();
    let none: Story = (NO_LINKS, &[], &[]);
    play(&rt, alloc, PlainTree::new(alloc), none)?;
    play(&rt, alloc, ArenaTree::new(alloc), none)?;
    let some: Story = (LINKS, LINKS_ON_COPY, LINKS_BEHIND);
    play(
        &rt,
        alloc,
        LinkTree::new(alloc, PlainTree::new(alloc)),
        some,
    )?;
    play(
        &rt,
        alloc,
        LinkTree::new(alloc, ArenaTree::new(alloc)),
        some,
    )
}
