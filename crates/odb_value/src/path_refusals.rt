use daq_types::NoMemory;
use std::alloc::{AllocError, AllocFailed};
use thiserror::Error;

/// Why a text is no path: the first name with a fault, and what is wrong with it.
#[derive(Clone, Copy, Debug, PartialEq, Eq, Error)]
pub enum PathRefusal {
    /// The name is empty.
    #[error("a name of the path is empty")]
    EmptyName,
    /// The name has more than 31 bytes.
    #[error("a name of the path has more than 31 bytes")]
    LongName,
    /// A byte breaks the rule of names.
    #[error("byte {at} of the path belongs to no name")]
    BadByte {
        /// The least place of such a byte of the name, counted in the whole text.
        at: u32,
    },
    /// 32 names stand in front of the name.
    #[error("the path has more than 32 names")]
    TooDeep,
    /// There was no memory for the path.
    #[error("there was no memory for the path")]
    NoMemory,
}

impl From<NoMemory> for PathRefusal {
    ghost use Rattle.std.specs.Prelude.{◌≡◌};
    ghost use Rattle.odb_value.specs.declared.path_refusals.PathRefusal.TheVariants.{NoMemory as no_memory};

    ghost from_gives = { λ _ e. e ≡ no_memory };

    fn from(_e: NoMemory) -> PathRefusal {
        PathRefusal::NoMemory
    }
}

impl From<AllocError> for PathRefusal {
    ghost use Rattle.std.specs.Prelude.{◌≡◌};
    ghost use Rattle.odb_value.specs.declared.path_refusals.PathRefusal.TheVariants.{NoMemory as no_memory};

    ghost from_gives = { λ _ e. e ≡ no_memory };

    fn from(_e: AllocError) -> PathRefusal {
        PathRefusal::NoMemory
    }
}

impl<T: Drop> From<AllocFailed<T>> for PathRefusal {
    ghost use Rattle.std.specs.Prelude.{◌≡◌};
    ghost use Rattle.odb_value.specs.declared.path_refusals.PathRefusal.TheVariants.{NoMemory as no_memory};

    ghost from_gives = { λ _ e. e ≡ no_memory };

    fn from(_e: AllocFailed<T>) -> PathRefusal {
        PathRefusal::NoMemory
    }
}
