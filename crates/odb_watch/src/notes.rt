use daq_types::NoMemory;
use std::alloc::{AllocError, AllocFailed};

/// Why no watch was begun.
#[derive(Clone, Copy, Debug, PartialEq, Eq)]
pub enum WatchRefusal {
    /// 64 watches live.
    NoWatchSlot,
    /// There was no memory for the watch.
    NoMemory,
}

/// No watch of this number lives.
#[derive(Clone, Copy, Debug, PartialEq, Eq)]
pub struct NoWatch;

impl From<NoMemory> for WatchRefusal {
    ghost use Rattle.std.specs.Prelude.{◌≡◌};
    ghost use Rattle.odb_watch.specs.declared.notes.WatchRefusal.TheVariants.{NoMemory as no_memory};

    ghost from_gives = { λ _ e. e ≡ no_memory };

    fn from(_e: NoMemory) -> WatchRefusal {
        WatchRefusal::NoMemory
    }
}

impl From<AllocError> for WatchRefusal {
    ghost use Rattle.std.specs.Prelude.{◌≡◌};
    ghost use Rattle.odb_watch.specs.declared.notes.WatchRefusal.TheVariants.{NoMemory as no_memory};

    ghost from_gives = { λ _ e. e ≡ no_memory };

    fn from(_e: AllocError) -> WatchRefusal {
        WatchRefusal::NoMemory
    }
}

impl<T: Drop> From<AllocFailed<T>> for WatchRefusal {
    ghost use Rattle.std.specs.Prelude.{◌≡◌};
    ghost use Rattle.odb_watch.specs.declared.notes.WatchRefusal.TheVariants.{NoMemory as no_memory};

    ghost from_gives = { λ _ e. e ≡ no_memory };

    fn from(_e: AllocFailed<T>) -> WatchRefusal {
        WatchRefusal::NoMemory
    }
}
