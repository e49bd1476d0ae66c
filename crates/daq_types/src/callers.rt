ghost use Rattle.std.specs.Prelude.{◌≡◌, ◌+◌, ◌<◌, ◌^◌};
ghost use Rattle.daq_types.specs.Callers.{caller_of_client};

use std::marker::Model;

/// Who makes a call on a buffer, on the database or on the run: the main thread, or a member of the session by its client
/// number. On every object 0 is the main thread, and a member is its client number and 1.
#[derive(Clone, Copy, Debug, PartialEq, Eq)]
pub struct Caller {
    number: u32,
}

impl Model for Caller {
    ghost use Rattle.std.specs.Prelude.{ℕ};

    ghost Value = { ℕ };

    ghost view = { λ c. c.number };

    ghost inverse = { λ n. record { number = n } };
}

impl Caller {
    /// The main thread.
    pub const MAIN: Caller = Caller { number: 0 };

    /// The member with this client number.
    pub fn of_client(client: u32) -> Caller
        requires { client + 1 < 2 ^ 32 }
        ensures { result ≡ caller_of_client client }
    {
        Caller { number: client + 1 }
    }

    /// The caller's number in the histories.
    pub fn number(self) -> u32
        ensures { result ≡ self }
    {
        self.number
    }
}
