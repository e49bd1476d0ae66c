use daq_types::NoMemory;
use odb_tree::OdbRefusal;
use std::alloc::AllocFailed;

/// Why the lines of a step were not read.
#[derive(Clone, Copy, Debug)]
pub enum BlockFault {
    /// The text leaves the grammar at the line with this place, counted from the first of them, which has 0.
    Bad { at: u32 },
    /// The first line asks for what passes a limit.
    Refused { why: OdbRefusal },
    /// There was no memory.
    NoMemory,
}

impl From<NoMemory> for BlockFault {
    ghost use Rattle.std.specs.Prelude.{◌≡◌};
    ghost use Rattle.odb_text.specs.declared.faults.BlockFault.TheVariants.{NoMemory as no_memory};

    ghost from_gives = { λ _ e. e ≡ no_memory };

    fn from(_e: NoMemory) -> BlockFault {
        BlockFault::NoMemory
    }
}

/// Why the items of an array were not read.
#[derive(Clone, Copy, Debug)]
pub enum ItemsFault {
    /// The line with this place, counted from the line of the array's name, is none of an item, or is not there.
    BadItem { at: u32 },
    /// An item has a size above 1,024.
    WideItem,
    /// There was no memory.
    NoMemory,
}

impl From<NoMemory> for ItemsFault {
    ghost use Rattle.std.specs.Prelude.{◌≡◌};
    ghost use Rattle.odb_text.specs.declared.faults.ItemsFault.TheVariants.{NoMemory as no_memory};

    ghost from_gives = { λ _ e. e ≡ no_memory };

    fn from(_e: NoMemory) -> ItemsFault {
        ItemsFault::NoMemory
    }
}

impl<T: Drop> From<AllocFailed<T>> for ItemsFault {
    ghost use Rattle.std.specs.Prelude.{◌≡◌};
    ghost use Rattle.odb_text.specs.declared.faults.ItemsFault.TheVariants.{NoMemory as no_memory};

    ghost from_gives = { λ _ e. e ≡ no_memory };

    fn from(_e: AllocFailed<T>) -> ItemsFault {
        ItemsFault::NoMemory
    }
}
