ghost use Rattle.std.specs.Prelude.{◌≡◌};
ghost use Rattle.console.specs.declared.halts.Halt.TheVariants.{NoMemory as no_memory};

use daq_types::NoMemory;

/// Why the lines of a script cannot go on.
#[derive(Clone, Copy, Debug, PartialEq, Eq)]
pub enum Halt {
    /// A command found no memory.
    NoMemory,
    /// A call on the sink failed.
    SinkFault,
}

impl From<NoMemory> for Halt {
    ghost from_gives = { λ _ h. h ≡ no_memory };

    fn from(_e: NoMemory) -> Halt {
        Halt::NoMemory
    }
}
