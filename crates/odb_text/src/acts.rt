use daq_types::NoMemory;
use odb_tree::OdbRefusal;
use odb_value::{Path, Value};

/// What some lines of a database text ask for.
#[derive(Drop)]
pub enum Act {
    /// To make a directory, and those above it, where they are missing.
    Make { path: Path },
    /// To write a key.
    Write { path: Path, value: Value },
    /// To skip a key. An array has so many items, any other key none.
    Skip { items: u64 },
}

/// How many keys a text had that was loaded.
#[derive(Clone, Copy, Debug, PartialEq, Eq)]
pub struct Loaded {
    /// The keys that were written, one for each of their lines.
    pub keys: u32,
    /// The keys that were skipped.
    pub skipped: u32,
}

/// Why a text was not loaded. The database is as it was.
#[derive(Clone, Copy, Debug, PartialEq, Eq)]
pub enum LoadRefusal {
    /// This line is the first at which the text leaves the grammar. Lines are numbered from 1.
    BadLine { line: u32 },
    /// What this line asks for is refused.
    KeyRefused { line: u32, why: OdbRefusal },
    /// There was no memory for the text's database.
    NoMemory,
}

impl From<NoMemory> for LoadRefusal {
    ghost use Rattle.std.specs.Prelude.{◌≡◌};
    ghost use Rattle.odb_text.specs.declared.acts.LoadRefusal.TheVariants.{NoMemory as no_memory};

    ghost from_gives = { λ _ e. e ≡ no_memory };

    fn from(_e: NoMemory) -> LoadRefusal {
        LoadRefusal::NoMemory
    }
}
