use crate::children::Children;
use crate::refusals::OdbRefusal;
use crate::rows::NewKey;
use daq_types::NoMemory;
use odb_value::{Item, Path, Value};

/// A call on the database, with its arguments and its reply.
#[derive(Drop)]
pub enum DatabaseEntry {
    Create {
        path: Path,
        kind: NewKey,
        reply: Result<u32, OdbRefusal>,
    },
    Set {
        path: Path,
        index: u32,
        item: Item,
        reply: Result<u32, OdbRefusal>,
    },
    SetAll {
        path: Path,
        value: Value,
        reply: Result<u32, OdbRefusal>,
    },
    Get {
        path: Path,
        reply: Result<Value, OdbRefusal>,
    },
    Find {
        path: Path,
        reply: Result<u32, OdbRefusal>,
    },
    ListDir {
        path: Path,
        reply: Result<Children, OdbRefusal>,
    },
    Delete {
        path: Path,
        reply: Result<u32, OdbRefusal>,
    },
    Resize {
        path: Path,
        len: u32,
        reply: Result<u32, OdbRefusal>,
    },
    PathOf {
        row: u32,
        reply: Result<Option<Path>, NoMemory>,
    },
}
