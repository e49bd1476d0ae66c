ghost use Rattle.std.specs.Prelude.{◌≡◌, ◌/◌, ◌%◌, ◌^◌, false, IfOk, OnErr};
ghost use Rattle.std.specs.Duration.{as_nanos};

use daq_io::{Clock, Gate, Pick, Point};
use std::io::Error;
use std::rt;
use std::time::Duration;

/// The clock of the system. Nothing is told of its readings.
#[derive(Drop)]
pub struct StdClock<R: rt::Clock + Drop> {
    system: R,
}

impl<R: rt::Clock + Drop> StdClock<R> {
    /// The clock of this system.
    pub fn new(system: R) -> StdClock<R> {
        StdClock { system }
    }
}

/// What a clock reads for the time since 1970 that the system tells: its seconds modulo 2^32. Where it tells none, 0.
fn reading(told: Result<Duration, Error>) -> u32
    ensures seconds { IfOk told (λ time. result ≡ as_nanos time / 10 ^ 9 % 2 ^ 32) }
    ensures none { OnErr told (result ≡ 0) }
{
    match told {
        Ok(time) => (time.as_secs() % 4294967296) as u32,
        Err(_) => 0,
    }
}

impl<R: rt::Clock + Drop> Clock for StdClock<R> {
    ghost told = { λ _. record { tells = false; ahead = λ _. 0 } };

    fn now(&mut self) -> u32 {
        reading(self.system.since_1970())
    }
}

/// Each member has the first turn of a round in turn. Nothing is told of its choices.
#[derive(Drop)]
pub struct RoundPick {
    next: u32,
}

impl RoundPick {
    /// Begins with the member of number 0.
    pub fn new() -> RoundPick {
        RoundPick { next: 0 }
    }
}

impl Pick for RoundPick {
    ghost told = { λ _. record { tells = false; ahead = λ _. 0 } };

    fn first(&mut self, members: u32) -> u32 {
        let member = self.next % members;
        self.next = member + 1;
        member
    }
}

/// A gate that holds nobody.
#[derive(Clone, Copy, Debug, PartialEq, Eq)]
pub struct NoGate;

impl Gate for NoGate {
    fn at(&self, _member: u32, _point: Point) {}
}
