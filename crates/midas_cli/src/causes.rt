ghost use Rattle.std.specs.Prelude.{◌≡◌};
ghost use Rattle.midas_cli.specs.Outcomes.{script_cause};

use daq_session::ScriptEnd;
use daq_types::FileName;
use midas_tools::InputFault;

/// Why a call of the program ended.
#[derive(Clone, Copy, Debug, PartialEq, Eq)]
pub enum Cause {
    /// Nothing else holds.
    Done,
    /// At least one line of the script was refused: how many, and the number of the first.
    CommandRefused { count: u64, first: u64 },
    /// The words have none of the forms.
    Usage,
    /// The input cannot be used.
    BadInput(InputFault),
    /// A call on the source failed.
    SourceFault,
    /// A call on the sink failed.
    SinkFault,
    /// A call on files failed; the name is that of the file of the first fault.
    FileFault { name: FileName },
    /// There was no memory.
    NoMemory,
}

impl From<ScriptEnd> for Cause {
    ghost from_gives = { λ end cause. cause ≡ script_cause end };

    fn from(end: ScriptEnd) -> Cause {
        match end {
            ScriptEnd::Done => Cause::Done,
            ScriptEnd::CommandRefused { count, first } => Cause::CommandRefused { count, first },
            ScriptEnd::TooLong => Cause::BadInput(InputFault::ScriptTooLong),
            ScriptEnd::SourceFault => Cause::SourceFault,
            ScriptEnd::SinkFault => Cause::SinkFault,
            ScriptEnd::FileFault { name } => Cause::FileFault { name },
            ScriptEnd::NoMemory => Cause::NoMemory,
        }
    }
}
