ghost use Rattle.std.specs.Prelude.{◌≡◌, ◌<◌, ◌+◌, ◌^◌};
ghost use Rattle.console.specs.Console.{refuses_line};
ghost use Rattle.console.specs.Refused.{refusals_after};

use crate::replies::Reply;

/// The script lines that were refused.
#[derive(Clone, Copy, Debug, PartialEq, Eq)]
pub struct Refusals {
    /// How many there are.
    pub count: u64,
    /// The number of the first; 0 where there is none.
    pub first: u64,
}

impl Reply {
    /// Whether the reply refuses its line.
    pub fn is_refusal(&self) -> bool
        ensures { result ≡ refuses_line self.now }
    {
        match self {
            Reply::BadCommand { .. }
            | Reply::Setup { .. }
            | Reply::WrongState { .. }
            | Reply::LastStart
            | Reply::RunNumber { .. }
            | Reply::StartRefused { .. } => true,
            Reply::Silent
            | Reply::Started { .. }
            | Reply::Paused { .. }
            | Reply::Resumed { .. }
            | Reply::Stopped { .. } => false,
            Reply::Database { reply } => reply.is_refusal(),
            Reply::Watch { reply } => reply.is_refusal(),
        }
    }
}

impl Refusals {
    /// No line was refused.
    pub const NONE: Refusals = Refusals { count: 0, first: 0 };

    /// Notes the reply to the line of this number.
    pub fn note(&mut self, line: u64, reply: &Reply)
        requires { self.old.count + 1 < 2 ^ 64 }
        ensures { self.new ≡ refusals_after self.old line (refuses_line reply.now) }
    {
        if reply.is_refusal() {
            if self.count == 0 {
                self.first = line;
            }
            self.count += 1;
        }
    }
}
