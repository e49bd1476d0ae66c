//! Rows of calls on a database with links, each with the reply that it must get.
use daq_types::Tid;
use odb_links::LinkTree;
use odb_tree::{Database, NewKey, OdbRefusal, PlainTree};
use odb_value::{Item, Path, Value};
use std::alloc::Global;
use std::process::Abort;
use std::test::Fail;

/// A call of a row, whose reply is a number here.
#[derive(Clone, Copy)]
enum Call {
    Dir,
    /// A key with one item of this type.
    Key(Tid),
    /// A link to this path.
    Link(&'static str),
    /// This number in the first item.
    Set(u32),
    /// This number as the whole value.
    SetAll(u32),
    Put(u32),
    /// A link's value with this text.
    SetAllLink(&'static str),
    PutLink(&'static str),
    /// The number in the first item.
    Get,
    /// 1 where the value is a link's.
    Raw,
    Find,
    /// How many children.
    List,
    /// So many items.
    Resize(u32),
    Delete,
    /// How many rows there are along the path.
    Walk,
    /// How many names the path of this row has.
    PathOf(u32),
    /// 1 where the first row is the second or lies below it.
    IsBelow(u32, u32),
}

type Reply = Result<u32, OdbRefusal>;

type Row = (&'static str, Call, Reply);

const BAD_LINK_16: Reply = Err(OdbRefusal::BadLink { steps: 16 });

const HAS_LINK: Reply = Err(OdbRefusal::TypeMismatch { have: Tid::Link });

/// A link to a directory, and one in a circle.
const TO_DIRECTORY: &[Row] = &[
    ("/A/x", Call::Key(Tid::UInt32), Ok(2)),
    ("/L", Call::Link("/A"), Ok(3)),
    ("/L/x", Call::Set(5), Ok(2)),
    ("/A/x", Call::Get, Ok(5)),
    ("/l/x", Call::Walk, Ok(1)),
    ("/L/x", Call::Delete, Err(OdbRefusal::NotDir)),
    ("/C", Call::Link("/C"), Ok(4)),
    ("/C", Call::Get, BAD_LINK_16),
    ("/C/x", Call::Dir, BAD_LINK_16),
    ("/L", Call::Find, Ok(1)),
    ("/L", Call::List, Ok(1)),
    ("/L", Call::Raw, Ok(1)),
    ("/L/x", Call::Raw, Err(OdbRefusal::NotDir)),
    ("/L/y", Call::Key(Tid::UInt8), Ok(5)),
    ("/L/M", Call::Link("/L"), Ok(6)),
    ("/A/m/M/y", Call::Find, Ok(5)),
    ("", Call::PathOf(6), Ok(2)),
    ("", Call::IsBelow(6, 1), Ok(1)),
    ("", Call::IsBelow(3, 1), Ok(0)),
    ("/L", Call::Dir, Err(OdbRefusal::Exists)),
    ("/L", Call::Link("/B"), Err(OdbRefusal::Exists)),
    ("/A", Call::Link("/B"), Err(OdbRefusal::Exists)),
    ("/", Call::Link("/B"), Err(OdbRefusal::Exists)),
    ("/L", Call::Resize(2), Err(OdbRefusal::NotValue)),
    ("/L", Call::Delete, Ok(1)),
    ("/L", Call::Find, Err(OdbRefusal::NoKey)),
    ("/A/x", Call::Get, Ok(5)),
    ("/L", Call::Key(Tid::UInt32), Ok(7)),
    ("/L", Call::Raw, Ok(0)),
];

/// A link to a link to a key, which comes and goes.
const TO_KEY: &[Row] = &[
    ("/one", Call::Link("/two"), Ok(1)),
    ("/two", Call::Link("/D/k"), Ok(2)),
    ("/one", Call::Get, Err(OdbRefusal::NoKey)),
    ("/one", Call::SetAll(7), Ok(4)),
    ("/D/k", Call::Get, Ok(7)),
    ("/one", Call::Get, Ok(7)),
    ("/one", Call::Raw, Ok(1)),
    ("/one", Call::Put(1), HAS_LINK),
    ("/one", Call::PutLink("/D"), Ok(1)),
    ("/one/k", Call::Get, Ok(7)),
    (
        "/D/k",
        Call::PutLink("/D"),
        Err(OdbRefusal::TypeMismatch { have: Tid::UInt32 }),
    ),
    ("/D", Call::PutLink("/D"), Err(OdbRefusal::NotValue)),
    ("/", Call::PutLink("/D"), Err(OdbRefusal::NotValue)),
    ("/one/z", Call::PutLink("/D"), Err(OdbRefusal::NotDir)),
    ("/E/l", Call::PutLink("D/k"), Ok(6)),
    ("/E/l", Call::Set(9), Ok(4)),
    ("/E/l", Call::Resize(3), Ok(4)),
    ("/D/k", Call::Get, Ok(9)),
    (
        "/E/l",
        Call::SetAllLink("/D"),
        Err(OdbRefusal::NotKept { tid: Tid::Link }),
    ),
    ("/s", Call::Key(Tid::Text), Ok(7)),
    (
        "/s",
        Call::PutLink("/D"),
        Err(OdbRefusal::TypeMismatch { have: Tid::Text }),
    ),
    ("/D", Call::Delete, Ok(2)),
    ("/E/l", Call::Get, Err(OdbRefusal::NoKey)),
    ("/E/l", Call::Raw, Ok(1)),
    ("/D/k", Call::Put(3), Ok(9)),
    ("/E/l", Call::Get, Ok(3)),
];

/// Of 17 links in a row the last is one too many.
const IN_A_ROW: &[Row] = &[
    ("/t", Call::Dir, Ok(1)),
    ("/a", Call::Link("/t"), Ok(2)),
    ("/b", Call::Link("/a"), Ok(3)),
    ("/c", Call::Link("/b"), Ok(4)),
    ("/d", Call::Link("/c"), Ok(5)),
    ("/e", Call::Link("/d"), Ok(6)),
    ("/f", Call::Link("/e"), Ok(7)),
    ("/g", Call::Link("/f"), Ok(8)),
    ("/h", Call::Link("/g"), Ok(9)),
    ("/i", Call::Link("/h"), Ok(10)),
    ("/j", Call::Link("/i"), Ok(11)),
    ("/k", Call::Link("/j"), Ok(12)),
    ("/l", Call::Link("/k"), Ok(13)),
    ("/m", Call::Link("/l"), Ok(14)),
    ("/n", Call::Link("/m"), Ok(15)),
    ("/o", Call::Link("/n"), Ok(16)),
    ("/p", Call::Link("/o"), Ok(17)),
    ("/q", Call::Link("/p"), Ok(18)),
    ("/p", Call::Find, Ok(1)),
    ("/q", Call::Find, BAD_LINK_16),
    ("/q", Call::Delete, Ok(1)),
];

/// A path comes to 32 names by a link, and to 33.
const TOO_DEEP: &[Row] = &[
    (
        "/L",
        Call::Link("/a/b/c/d/e/f/g/h/i/j/k/l/m/n/o/p/q/r/s/t/u/v/w/x/y/z/A/B/C/D/E"),
        Ok(1),
    ),
    ("/L/y", Call::Find, Err(OdbRefusal::NoKey)),
    ("/L/x/y", Call::Find, Err(OdbRefusal::BadLink { steps: 0 })),
    ("/M", Call::Link("/L/x/y"), Ok(2)),
    ("/M", Call::Find, Err(OdbRefusal::BadLink { steps: 1 })),
];

const STORIES: &[&[Row]] = &[TO_DIRECTORY, TO_KEY, IN_A_ROW, TOO_DEEP];

fn number(alloc: Global, number: u32) -> Result<Value, OdbRefusal> {
    let mut value = Value::new(alloc, Tid::UInt32, 1)?;
    value.put(0, Item::UInt32(number));
    Ok(value)
}

/// The value of a link with this text, as another database gives it.
fn link(alloc: Global, text: &str) -> Result<Value, OdbRefusal> {
    let mut other = LinkTree::new(alloc, PlainTree::new(alloc));
    let target = path(alloc, text)?;
    let at = path(alloc, "/L")?;
    let _row = other.create(alloc, &at, &NewKey::Link { target })?;
    other.raw(alloc, &at)
}

fn path(alloc: Global, text: &str) -> Result<Path, OdbRefusal> {
    match Path::read(alloc, text.as_bytes()) {
        Ok(path) => Ok(path),
        Err(_) => Err(OdbRefusal::NoMemory),
    }
}

/// The number in the first item.
fn first(value: &Value) -> u32 {
    match value.items().first() {
        Some(Item::UInt32(number)) => *number,
        _ => 0,
    }
}

fn reply<D: Database>(alloc: Global, database: &mut D, at: &Path, call: Call) -> Reply {
    match call {
        Call::Dir => database.create(alloc, at, &NewKey::Dir),
        Call::Key(tid) => database.create(alloc, at, &NewKey::Keys { tid, len: 1 }),
        Call::Link(text) => {
            let target = path(alloc, text)?;
            database.create(alloc, at, &NewKey::Link { target })
        }
        Call::Set(n) => database.set(alloc, at, 0, &Item::UInt32(n)),
        Call::SetAll(n) => database.set_all(alloc, at, &number(alloc, n)?),
        Call::Put(n) => database.put(alloc, at, &number(alloc, n)?),
        Call::SetAllLink(text) => database.set_all(alloc, at, &link(alloc, text)?),
        Call::PutLink(text) => database.put(alloc, at, &link(alloc, text)?),
        Call::Get => Ok(first(&database.get(alloc, at)?)),
        Call::Raw => Ok((database.raw(alloc, at)?.tid() == Tid::Link) as u32),
        Call::Find => database.find(alloc, at),
        Call::List => Ok(database.list(alloc, at)?.as_slice().len().min(9) as u32),
        Call::Resize(len) => database.resize(alloc, at, len),
        Call::Delete => database.delete(at),
        Call::Walk => {
            let mut numbers = [0; 32];
            Ok(database.walk(at, &mut numbers))
        }
        Call::PathOf(row) => match database.path_of(alloc, row)? {
            Some(path) => Ok(path.names().len().min(32) as u32),
            None => Err(OdbRefusal::NoKey),
        },
        Call::IsBelow(row, above) => Ok(database.is_below(row, above) as u32),
    }
}

/// Makes the calls, and compares their replies.
fn run<D: Database>(
    rt: &impl Abort,
    alloc: Global,
    database: &mut D,
    rows: &[Row],
) -> Result<(), Fail> {
    for (text, call, wanted) in rows {
        let at = Path::read(alloc, text.as_bytes())?;
        let found = reply(alloc, database, &at, *call);
        assert!(rt; found == *wanted, "{text}");
    }
    Ok(())
}

#[test]
fn links_lead_by_the_rows(rt: HostRuntime) -> Result<(), Fail> {
    let alloc = rt.alloc();
    for rows in STORIES {
        let mut database = LinkTree::new(alloc, PlainTree::new(alloc));
        run(&rt, alloc, &mut database, rows)?;
        let copy = database.copy(alloc)?;
        assert!(rt; copy.keeps_links());
    }
    Ok(())
}
