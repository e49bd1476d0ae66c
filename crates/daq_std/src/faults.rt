//! Counts of faults. A call can answer `Failed` only where it has the fault that the count rises for.
ghost use Rattle.std.specs.Prelude.{◌≡◌, ◌≢◌, ◌≤◌, ◌↔◌, ◌+◌, None, IsNone};
ghost use Rattle.daq_io.specs.Counts.{ClashBy, FaultBy, FirstBy, Rose, first_of};
ghost use Rattle.daq_std.specs.SystemCalls.{reason_of};

use crate::system::{Fault, Reason};
use daq_io::{Failed, NameRefused, Tally};
use daq_types::FileName;
use std::marker::Model;

/// How many calls of a stream failed. The count stands still at 2^64 - 1.
#[derive(Drop)]
pub struct FaultCount {
    count: u64,
}

impl Model for FaultCount {
    ghost use Rattle.std.specs.Prelude.{ℕ};

    ghost Value = { ℕ };

    ghost view = { λ f. f.count };
}

impl FaultCount {
    /// None.
    pub fn new() -> FaultCount
        ensures { result ≡ 0 }
    {
        FaultCount { count: 0 }
    }

    /// Counts this fault, and answers that the call failed.
    pub fn failed(&mut self, _fault: Fault) -> Failed
        ensures later { self.old ≤ self.new }
        ensures rose { Rose self.old self.new }
    {
        self.count = self.count.saturating_add(1);
        Failed
    }
}

/// How often calls of an object with files failed or met a clash of names.
#[derive(Drop)]
pub struct FaultTally {
    tally: Tally,
}

impl Model for FaultTally {
    ghost use Rattle.daq_io.specs.Tallies.{Tallied};

    ghost Value = { Tallied };

    ghost view = { λ f. f.tally };
}

impl FaultTally {
    /// No fault and no clash.
    pub fn new() -> FaultTally
        ensures { result ≡ record { faults = 0; clashes = 0; first = None } }
    {
        FaultTally {
            tally: Tally::new(),
        }
    }

    /// Counts this fault at the file of this name, and answers that the call failed.
    pub fn failed(&mut self, name: &FileName, _fault: Fault) -> Failed
        ensures later { self.old.faults ≤ self.new.faults }
        ensures rose { Rose self.old.faults self.new.faults }
        ensures clashes { self.new.clashes ≡ self.old.clashes }
        ensures first { self.new.first ≡ first_of self.old.first name.now }
    {
        self.tally.fault(name);
        Failed
    }

    /// Counts why the file of this name was not made: a clash of names where there is one, and else a fault.
    pub fn not_made(&mut self, name: &FileName, fault: Fault) -> NameRefused
        ensures exists { (result ≡ NameRefused.Exists) ↔ (reason_of fault ≡ Reason.Taken) }
        ensures failed { reason_of fault ≢ Reason.Taken → result ≡ NameRefused.Failed }
        ensures faults { FaultBy result self.old.faults self.new.faults }
        ensures later { self.old.faults ≤ self.new.faults }
        ensures clashes { ClashBy result self.old.clashes self.new.clashes }
        ensures later_clashes { self.old.clashes ≤ self.new.clashes }
        ensures first { FirstBy result name.now self.old.first self.new.first }
    {
        match fault.reason() {
            Reason::Taken => {
                self.tally.clash();
                NameRefused::Exists
            }
            _ => {
                self.tally.fault(name);
                NameRefused::Failed
            }
        }
    }

    /// Counts why the file of this name was not opened: a clash of names where there is none, and else a fault.
    pub fn not_opened(&mut self, name: &FileName, fault: Fault) -> NameRefused
        ensures missing { (result ≡ NameRefused.Missing) ↔ (reason_of fault ≡ Reason.Absent) }
        ensures failed { reason_of fault ≢ Reason.Absent → result ≡ NameRefused.Failed }
        ensures faults { FaultBy result self.old.faults self.new.faults }
        ensures later { self.old.faults ≤ self.new.faults }
        ensures clashes { ClashBy result self.old.clashes self.new.clashes }
        ensures later_clashes { self.old.clashes ≤ self.new.clashes }
        ensures first { FirstBy result name.now self.old.first self.new.first }
    {
        match fault.reason() {
            Reason::Absent => {
                self.tally.clash();
                NameRefused::Missing
            }
            _ => {
                self.tally.fault(name);
                NameRefused::Failed
            }
        }
    }

    /// The name of the file of the first fault.
    pub fn first_fault(&self) -> Option<FileName>
        ensures name { result ≡ self.now.first }
        ensures none { IsNone result ↔ (self.now.faults ≡ 0) }
    {
        self.tally.first_fault()
    }
}
