ghost use Rattle.std.specs.Prelude.{◌≡◌, ◌+◌, ℕ, true, IsTrue, slice_index, min, length, ◌-◌};
ghost use Rattle.daq_mem.specs.Series.{ahead_in};

use daq_io::{Clock, Pick};
use std::marker::Model;

/// Numbers that are given one after another. The last repeats, and where there is none, 0 does.
#[derive(Drop)]
pub struct Numbers {
    values: Vec<u32>,
    next: usize,
}

impl Model for Numbers {
    ghost use Rattle.daq_mem.specs.Series.{NumberSeries};

    ghost Value = { NumberSeries };

    ghost view = { λ s. record { values = s.values.items; next = s.next } };
}

impl Numbers {
    /// These numbers.
    pub fn new(values: Vec<u32>) -> Numbers
        ensures { result ≡ record { values = values.items; next = 0 } }
    {
        Numbers { values, next: 0 }
    }

    /// The next number.
    pub fn give(&mut self) -> u32
        ensures value { result ≡ ahead_in self.old 0 }
        ensures later { (n : ℕ) → ahead_in self.new n ≡ ahead_in self.old (n + 1) }
    {
        let values = self.values.as_slice();
        if self.next < values.len() && values.len() - self.next > 1 {
            let value = values[self.next];
            self.next += 1;
            return value;
        }
        match values.last() {
            Some(value) => *value,
            None => 0,
        }
    }
}

/// A clock whose readings are given beforehand, and told.
#[derive(Drop)]
pub struct MemClock {
    numbers: Numbers,
}

impl MemClock {
    /// A clock that gives these readings. The last repeats, and where there is none, 0 does.
    pub fn new(values: Vec<u32>) -> MemClock
        ensures tells { IsTrue (⟦<MemClock as Clock>⟧.told result).tells }
        ensures ahead { (n : ℕ) → (⟦<MemClock as Clock>⟧.told result).ahead n
            ≡ slice_index values.items (min n (length values.items - 1)) }
    {
        MemClock {
            numbers: Numbers::new(values),
        }
    }
}

impl Clock for MemClock {
    ghost told = { λ c. record { tells = true; ahead = ahead_in c.numbers } };

    fn now(&mut self) -> u32 {
        self.numbers.give()
    }
}

/// Choices that are given beforehand, and told.
#[derive(Drop)]
pub struct MemPick {
    numbers: Numbers,
}

impl MemPick {
    /// A pick that takes each of these numbers modulo the members. The last repeats, and where there is none, 0 does.
    pub fn new(values: Vec<u32>) -> MemPick
        ensures tells { IsTrue (⟦<MemPick as Pick>⟧.told result).tells }
        ensures ahead { (n : ℕ) → (⟦<MemPick as Pick>⟧.told result).ahead n
            ≡ slice_index values.items (min n (length values.items - 1)) }
    {
        MemPick {
            numbers: Numbers::new(values),
        }
    }
}

impl Pick for MemPick {
    ghost told = { λ p. record { tells = true; ahead = ahead_in p.numbers } };

    fn first(&mut self, members: u32) -> u32 {
        self.numbers.give() % members
    }
}
