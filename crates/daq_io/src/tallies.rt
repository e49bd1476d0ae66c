ghost use Rattle.std.specs.Prelude.{◌≡◌, ◌≤◌, ◌↔◌, None, IsNone};
ghost use Rattle.daq_io.specs.Counts.{Rose, first_of};

use daq_types::FileName;
use std::marker::Model;

/// How often calls of an object with files failed or met a clash of names.
#[derive(Drop)]
pub struct Tally {
    faults: u64,
    clashes: u64,
    first: Option<FileName>,
}

impl Model for Tally {
    ghost use Rattle.std.specs.Prelude.{◌≡◌, ◌↔◌, IsNone};
    ghost use Rattle.daq_io.specs.Tallies.{Tallied};

    ghost Value = { Tallied };

    ghost view = { λ t. record { faults = t.faults; clashes = t.clashes; first = t.first } };

    ghost invariant = { λ t. IsNone t.first ↔ (t.faults ≡ 0) };
}

impl Tally {
    /// No fault and no clash.
    pub fn new() -> Tally
        ensures { result ≡ record { faults = 0; clashes = 0; first = None } }
    {
        Tally {
            faults: 0,
            clashes: 0,
            first: None,
        }
    }

    /// Counts a fault at the file of this name.
    pub fn fault(&mut self, name: &FileName)
        ensures later { self.old.faults ≤ self.new.faults }
        ensures rose { Rose self.old.faults self.new.faults }
        ensures clashes { self.new.clashes ≡ self.old.clashes }
        ensures first { self.new.first ≡ first_of self.old.first name.now }
    {
        self.faults = self.faults.saturating_add(1);
        self.first = match self.first {
            Some(first) => Some(first),
            None => Some(*name),
        };
    }

    /// Counts a clash of names.
    pub fn clash(&mut self)
        ensures later { self.old.clashes ≤ self.new.clashes }
        ensures rose { Rose self.old.clashes self.new.clashes }
        ensures faults { self.new.faults ≡ self.old.faults }
        ensures first { self.new.first ≡ self.old.first }
    {
        self.clashes = self.clashes.saturating_add(1);
    }

    /// The name of the file of the first fault.
    pub fn first_fault(&self) -> Option<FileName>
        ensures name { result ≡ self.now.first }
        ensures none { IsNone result ↔ (self.now.faults ≡ 0) }
    {
        self.first
    }
}
