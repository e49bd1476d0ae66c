//! Calls on a database as rows of tables, each with the reply that it must get.
use daq_types::{NoMemory, Tid};
use odb_text::{LoadRefusal, Loaded, load, save};
use odb_tree::{Children, Database, NewKey, OdbRefusal};
use odb_value::{Item, Path, TextBytes, Value, parse_item};
use std::alloc::Global;
use std::process::Abort;
use std::test::Fail;

/// A call of a row, whose reply is a number here.
#[derive(Clone, Copy)]
pub enum Call {
    Dir,
    Keys(Tid, u32),
    /// A link to this path.
    Link(&'static str),
    /// The item of this type and text, at an index.
    Set(u32, Tid, &'static str),
    /// A text of so many bytes, at an index.
    SetLong(u32, usize),
    /// So many items of a new key.
    SetAll(Tid, u32),
    /// The same at the path as it is.
    Put(Tid, u32),
    /// How many items.
    Get,
    /// 1 where the value at the path as it is is that of a link, and 0 for any other.
    Raw,
    /// How many of the path's names have a row.
    Walk,
    Find,
    /// How many children.
    List,
    /// 1 where the child in this place is a directory; refused where it has another name.
    Child(usize, &'static str),
    Delete,
    Resize(u32),
    /// How many names the path of this row has.
    PathOf(u32),
    /// 1 where the first row is the second or lies below it.
    IsBelow(u32, u32),
    /// How many keys of this text are loaded.
    Load(&'static str),
    /// 1 where this text is saved.
    Save(&'static str),
}

pub type Reply = Result<u32, OdbRefusal>;

/// A path, a call and its reply.
pub type Row = (&'static str, Call, Reply);

/// Whether the database is saved as this text.
pub fn is_saved<D: Database>(alloc: Global, database: &D, text: &[u8]) -> Result<bool, NoMemory> {
    let dump = save(alloc, database)?;
    Ok(dump.as_slice() == text)
}

/// How many items the value has.
pub fn items_in(value: Result<Value, OdbRefusal>) -> Reply {
    Ok(value?.items().len() as u32)
}

/// How many children the list has, up to 9.
pub fn children_in(list: Result<Children, OdbRefusal>) -> Reply {
    Ok(list?.as_slice().len().min(9) as u32)
}

/// How many names the path has.
pub fn named(path: Result<Option<Path>, NoMemory>) -> Reply {
    match path? {
        None => Err(OdbRefusal::NoKey),
        Some(path) => Ok(path.names().len().min(32) as u32),
    }
}

/// The item of this type and text.
pub fn item_of(alloc: Global, tid: Tid, text: &str) -> Result<Item, OdbRefusal> {
    match parse_item(alloc, tid, text.as_bytes()) {
        Ok(item) => Ok(item),
        Err(_) => Err(OdbRefusal::NoMemory),
    }
}

/// So many bytes, or else numbers of 32 bits, as a new key has them.
pub fn value_of(alloc: Global, tid: Tid, len: u32) -> Result<Value, NoMemory> {
    let len = len.clamp(1, 65536);
    match tid {
        Tid::UInt8 => Value::new(alloc, Tid::UInt8, len),
        _ => Value::new(alloc, Tid::UInt32, len),
    }
}

fn set<D: Database>(
    alloc: Global,
    database: &mut D,
    path: &Path,
    index: u32,
    tid: Tid,
    text: &str,
) -> Reply {
    let item = item_of(alloc, tid, text)?;
    database.set(alloc, path, index, &item)
}

fn set_long<D: Database>(
    alloc: Global,
    database: &mut D,
    path: &Path,
    index: u32,
    len: usize,
) -> Reply {
    let bytes = vec![in alloc; b'x'; len]?;
    match TextBytes::bad_place(bytes.as_slice()) {
        Some(_) => Err(OdbRefusal::NoMemory),
        None => database.set(alloc, path, index, &Item::Text(TextBytes::of(bytes))),
    }
}

fn set_all<D: Database>(alloc: Global, database: &mut D, path: &Path, tid: Tid, len: u32) -> Reply {
    let value = value_of(alloc, tid, len)?;
    database.set_all(alloc, path, &value)
}

/// A link at this path to the path of a text.
fn link<D: Database>(alloc: Global, database: &mut D, path: &Path, target: &str) -> Reply {
    match Path::read(alloc, target.as_bytes()) {
        Ok(target) => database.create(alloc, path, &NewKey::Link { target }),
        Err(_) => Err(OdbRefusal::NoMemory),
    }
}

fn put<D: Database>(alloc: Global, database: &mut D, path: &Path, tid: Tid, len: u32) -> Reply {
    let value = value_of(alloc, tid, len)?;
    database.put(alloc, path, &value)
}

/// Whether the value is that of a link.
fn is_link(value: Result<Value, OdbRefusal>) -> Reply {
    Ok(matches!(value?.tid(), Tid::Link) as u32)
}

/// How many of the path's names have a row, up to 32.
fn walked<D: Database>(database: &D, path: &Path) -> u32 {
    let mut numbers = [0; 32];
    database.walk(path, &mut numbers)
}

fn child<D: Database>(alloc: Global, database: &D, path: &Path, place: usize, name: &str) -> Reply {
    let children = database.list(alloc, path)?;
    match children.as_slice().get(place) {
        Some(child) if child.name.as_slice() == name.as_bytes() => Ok(child.is_dir as u32),
        _ => Err(OdbRefusal::NoKey),
    }
}

/// What comes of a text.
pub fn load_text<D: Database>(
    alloc: Global,
    database: &mut D,
    text: &str,
) -> Result<Loaded, LoadRefusal> {
    if text.len() > 1000 {
        return Err(LoadRefusal::NoMemory);
    }
    load(alloc, database, text.as_bytes())
}

/// How many keys were loaded.
fn keys_loaded(loaded: Result<Loaded, LoadRefusal>) -> Reply {
    match loaded {
        Ok(loaded) => Ok(loaded.keys),
        Err(_) => Err(OdbRefusal::NoMemory),
    }
}

fn reply<D: Database>(alloc: Global, database: &mut D, path: &Path, call: Call) -> Reply {
    match call {
        Call::Dir => database.create(alloc, path, &NewKey::Dir),
        Call::Keys(tid, len) => database.create(alloc, path, &NewKey::Keys { tid, len }),
        Call::Link(target) => link(alloc, database, path, target),
        Call::Set(index, tid, text) => set(alloc, database, path, index, tid, text),
        Call::SetLong(index, len) => set_long(alloc, database, path, index, len),
        Call::SetAll(tid, len) => set_all(alloc, database, path, tid, len),
        Call::Put(tid, len) => put(alloc, database, path, tid, len),
        Call::Get => items_in(database.get(alloc, path)),
        Call::Raw => is_link(database.raw(alloc, path)),
        Call::Walk => Ok(walked(database, path)),
        Call::Find => database.find(alloc, path),
        Call::List => children_in(database.list(alloc, path)),
        Call::Child(place, name) => child(alloc, database, path, place, name),
        Call::Delete => database.delete(path),
        Call::Resize(len) => database.resize(alloc, path, len),
        Call::PathOf(row) => named(database.path_of(alloc, row)),
        Call::IsBelow(row, above) => Ok(database.is_below(row, above) as u32),
        Call::Load(text) => keys_loaded(load_text(alloc, database, text)),
        Call::Save(text) => Ok(is_saved(alloc, database, text.as_bytes())? as u32),
    }
}

/// Makes the calls, and compares their replies.
pub fn run<D: Database>(
    rt: &impl Abort,
    alloc: Global,
    database: &mut D,
    rows: &[Row],
) -> Result<(), Fail> {
    for (text, call, wanted) in rows {
        let path = Path::read(alloc, text.as_bytes())?;
        let found = reply(alloc, database, &path, *call);
        assert!(rt; found == *wanted, "{text}");
    }
    Ok(())
}
