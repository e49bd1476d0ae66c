ghost use Rattle.std.specs.Prelude.{◌≡◌};

use crate::halts::Halt;

/// How the lines of a script ended.
#[derive(Clone, Copy, Debug, PartialEq, Eq)]
pub enum Ending {
    /// The source was read to its end, or an `exit` was answered.
    End,
    /// The script is too long.
    TooLong,
    /// A call on the source failed.
    SourceFault,
    /// They could not go on.
    Halted { halt: Halt },
}

impl Ending {
    ghost use Rattle.console.specs.Closing.{earlier, ended_by, prints};

    /// Whether anything more may be printed.
    pub fn prints(&self) -> bool
        ensures { result ≡ prints self.now }
    {
        match self {
            Ending::End | Ending::TooLong | Ending::SourceFault => true,
            Ending::Halted { .. } => false,
        }
    }

    /// How a script ended whose lines ended so, and behind which this failed.
    pub fn with_closing(self, closing: Option<Halt>) -> Ending
        ensures { result ≡ ended_by self closing }
    {
        match closing {
            None => self,
            Some(halt) => self.earlier(halt),
        }
    }

    /// The earlier cause of this ending and of a halt behind it.
    pub fn earlier(self, halt: Halt) -> Ending
        ensures { result ≡ earlier self halt }
    {
        match (self, halt) {
            (Ending::SourceFault, Halt::SinkFault) => Ending::SourceFault,
            (
                Ending::Halted {
                    halt: Halt::NoMemory,
                },
                _,
            ) => Ending::Halted {
                halt: Halt::NoMemory,
            },
            (_, halt) => Ending::Halted { halt },
        }
    }
}
