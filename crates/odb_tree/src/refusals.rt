use daq_types::{NoMemory, Tid};
use std::alloc::{AllocError, AllocFailed};

/// A limit of the database.
#[derive(Clone, Copy, Debug, PartialEq, Eq)]
pub enum What {
    /// 65,536 keys and directories.
    Keys,
    /// 1 to 65,536 items of a key.
    Items,
    /// 1,023 bytes of a text.
    Size,
    /// 4,194,304 bytes of all values: the sum over the keys of the number of items times the item size.
    Total,
    /// The number 2^32 - 1 of a row. Numbers are never used again.
    Rows,
}

/// Why a call on the database was refused. The database is as it was.
#[derive(Clone, Copy, Debug, PartialEq, Eq)]
pub enum OdbRefusal {
    /// A name of the path is not there.
    NoKey,
    /// There is a key or a directory at the path already.
    Exists,
    /// A value stands where a directory is needed.
    NotDir,
    /// A directory or the root stands where a value is needed.
    NotValue,
    /// The key has values of this other type.
    TypeMismatch { have: Tid },
    /// The key has only so many items.
    BadIndex { len: u32 },
    /// The database would pass this limit.
    Limit { what: What },
    /// The database keeps no values of this type.
    NotKept { tid: Tid },
    /// The path has no end within 16 links, or comes to more than 32 names by a link. So many links were followed.
    BadLink { steps: u32 },
    /// There was no memory for the call.
    NoMemory,
}

impl From<NoMemory> for OdbRefusal {
    ghost use Rattle.std.specs.Prelude.{◌≡◌};
    ghost use Rattle.odb_tree.specs.declared.refusals.OdbRefusal.TheVariants.{NoMemory as no_memory};

    ghost from_gives = { λ _ e. e ≡ no_memory };

    fn from(_e: NoMemory) -> OdbRefusal {
        OdbRefusal::NoMemory
    }
}

impl From<AllocError> for OdbRefusal {
    ghost use Rattle.std.specs.Prelude.{◌≡◌};
    ghost use Rattle.odb_tree.specs.declared.refusals.OdbRefusal.TheVariants.{NoMemory as no_memory};

    ghost from_gives = { λ _ e. e ≡ no_memory };

    fn from(_e: AllocError) -> OdbRefusal {
        OdbRefusal::NoMemory
    }
}

impl<T: Drop> From<AllocFailed<T>> for OdbRefusal {
    ghost use Rattle.std.specs.Prelude.{◌≡◌};
    ghost use Rattle.odb_tree.specs.declared.refusals.OdbRefusal.TheVariants.{NoMemory as no_memory};

    ghost from_gives = { λ _ e. e ≡ no_memory };

    fn from(_e: AllocFailed<T>) -> OdbRefusal {
        OdbRefusal::NoMemory
    }
}
