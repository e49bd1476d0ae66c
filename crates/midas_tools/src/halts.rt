ghost use Rattle.std.specs.Prelude.{◌≡◌};
ghost use Rattle.midas_tools.specs.declared.halts.Halt.TheVariants.{SinkFailed as sink_failed};

use daq_io::Failed;
use mid_format::MidFault;

/// Why the events of a file were not all printed.
#[derive(Clone, Copy, Debug, PartialEq, Eq)]
pub enum Halt {
    /// The file has this fault, or its source failed.
    Bad { fault: MidFault },
    /// The sink failed.
    SinkFailed,
}

impl From<Failed> for Halt {
    ghost from_gives = { λ _ h. h ≡ sink_failed };

    fn from(_e: Failed) -> Halt {
        Halt::SinkFailed
    }
}
