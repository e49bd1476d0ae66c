use crate::notes::{NoWatch, WatchRefusal};
use daq_types::{Bytes, NoMemory};
use odb_text::{LoadRefusal, Loaded};
use odb_tree::{DatabaseEntry, Notes};

/// A call on a watched database, with its arguments and its reply.
#[derive(Drop)]
pub enum WatchEntry {
    /// A call on the database itself.
    Call {
        entry: DatabaseEntry,
    },
    Watch {
        row: u32,
        reply: Result<u32, WatchRefusal>,
    },
    /// The reply has the notes that were moved out, and how many others there were.
    Notes {
        watch: u32,
        reply: Result<(Notes, u64), NoWatch>,
    },
    Unwatch {
        watch: u32,
        reply: Result<(), NoWatch>,
    },
    /// The reply has the text of the database.
    Save {
        reply: Result<Bytes, NoMemory>,
    },
    Load {
        text: Bytes,
        reply: Result<Loaded, LoadRefusal>,
    },
}
