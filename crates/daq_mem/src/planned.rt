ghost use Rattle.std.specs.Prelude.{◌≡◌};
ghost use Rattle.daq_mem.specs.Plans.{after_call, is_planned};

use std::marker::Model;

/// Which calls of an object in memory fail, and how many there were.
#[derive(Drop)]
pub struct Planned {
    fails: Vec<u64>,
    calls: u64,
}

impl Model for Planned {
    ghost use Rattle.daq_mem.specs.Plans.{Plan};

    ghost Value = { Plan };

    ghost view = { λ p. record { fails = p.fails.items; calls = p.calls } };
}

impl Planned {
    /// The calls of these numbers fail, counted from 0.
    pub fn new(fails: Vec<u64>) -> Planned
        ensures { result ≡ record { fails = fails.items; calls = 0 } }
    {
        Planned { fails, calls: 0 }
    }

    /// Counts a call, and answers whether it is one that fails.
    pub fn call(&mut self) -> bool
        ensures listed { result ≡ is_planned self.old }
        ensures counted { self.new ≡ after_call self.old }
    {
        let listed = self.fails.contains(&self.calls);
        self.calls = self.calls.saturating_add(1);
        listed
    }
}
