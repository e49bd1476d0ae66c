ghost use Rattle.std.specs.Prelude.{◌≡◌, ◌+◌, ◌<◌, ◌↔◌, ◌||◌, [], Some, None, IsTrue, IfOk, IsErr, OnErr, length, min, nat_lt};
ghost use Rattle.std.specs.Io.{ReadsAtMost, WritesAtMost};
ghost use Rattle.std.specs.Io.KnownBytes.{ReadConsumes, WriteAppends};
ghost use Rattle.daq_io.specs.Counts.{CountsFault};
ghost use Rattle.daq_io.specs.Streams.{GaveRead};
ghost use Rattle.daq_mem.specs.Plans.{after_call, is_planned};

use crate::planned::Planned;
use daq_io::{ByteRoom, Failed, Sink, Source, copy_front};
use daq_types::NoMemory;
use std::alloc::Global;
use std::marker::Model;

/// A source over bytes in memory, which it tells.
#[derive(Drop)]
pub struct MemSource {
    bytes: Vec<u8>,
    at: usize,
    planned: Planned,
    faults: u64,
}

impl Model for MemSource {
    ghost use Rattle.std.specs.Prelude.{◌≤◌, drop, length, take};
    ghost use Rattle.daq_mem.specs.StreamsSeen.{SourceSeen};

    ghost Value = { SourceSeen };

    ghost view = { λ s. record {
      left = drop s.at s.bytes.items;
      gave = take s.at s.bytes.items;
      faults = s.faults;
      plan = s.planned;
    } };

    ghost invariant = { λ s. s.at ≤ length s.bytes.items };
}

impl MemSource {
    /// A source of these bytes. The calls that `fails` lists fail, counted from 0.
    pub fn new(bytes: Vec<u8>, fails: Vec<u64>) -> MemSource
        ensures made { result ≡ record {
          left = bytes.items;
          gave = [];
          faults = 0;
          plan = record
              { fails = fails.items; calls = 0 };
        } }
        ensures left { (⟦<MemSource as Source>⟧.told result).left ≡ Some bytes.items }
        ensures gave { (⟦<MemSource as Source>⟧.told result).gave ≡ [] }
        ensures faults { (⟦<MemSource as Source>⟧.told result).faults ≡ 0 }
        ensures origin { (⟦<MemSource as Source>⟧.told result).origin ≡ None }
    {
        MemSource {
            bytes,
            at: 0,
            planned: Planned::new(fails),
            faults: 0,
        }
    }
}

impl Source for MemSource {
    ghost told = { λ s. record {
      left = Some s.left;
      gave = s.gave;
      faults = s.faults;
      at_hand = [];
      origin = None;
    } };

    fn read(&mut self, into: &mut [u8]) -> Result<usize, Failed>
        ensures within { ReadsAtMost result into.new }
        ensures bytes { ReadConsumes (Some self.old.left) (Some self.new.left) result into.new }
        ensures gave { GaveRead self.old.gave self.new.gave result into.new }
        ensures faults { CountsFault self.old.faults self.new.faults result }
        ensures origin { (⟦<MemSource as Source>⟧.told self.new).origin
            ≡ (⟦<MemSource as Source>⟧.told self.old).origin }
        ensures at_hand { OnErr result ((⟦<MemSource as Source>⟧.told self.new).at_hand ≡ []) }
        // The listed calls fail and no others. Each other one gives as many bytes as there are and fit.
        ensures listed { IsErr result ↔ IsTrue (is_planned self.old.plan) }
        ensures count { IfOk result (λ count. count ≡ min (length self.old.left)
            (length into.old)) }
        ensures called { self.new.plan ≡ after_call self.old.plan }
    {
        if self.planned.call() {
            self.faults = self.faults.saturating_add(1);
            return Err(Failed);
        }
        let (_, rest) = self.bytes.as_slice().split_at(self.at);
        let count = copy_front(rest, into);
        self.at += count;
        Ok(count)
    }
}

/// A sink that keeps its bytes in memory, and tells them. What does not fit is a fault.
#[derive(Drop)]
pub struct MemSink {
    bytes: ByteRoom,
    planned: Planned,
    faults: u64,
}

impl Model for MemSink {
    ghost use Rattle.daq_mem.specs.StreamsSeen.{SinkSeen};

    ghost Value = { SinkSeen };

    ghost view = { λ s. record {
      bytes = s.bytes.bytes;
      room = s.bytes.room;
      faults = s.faults;
      plan = s.planned;
    } };
}

impl MemSink {
    /// A sink with room for so many bytes. The calls that `fails` lists fail, counted from 0.
    pub fn new(alloc: Global, room: usize, fails: Vec<u64>) -> Result<MemSink, NoMemory>
        ensures made { IfOk result (λ sink. sink ≡ record {
          bytes = [];
          room = room;
          faults = 0;
          plan = record
              { fails = fails.items; calls = 0 };
        }) }
        ensures written { IfOk result (λ sink. (⟦<MemSink as Sink>⟧.told sink).written ≡ Some []) }
        ensures faults { IfOk result (λ sink. (⟦<MemSink as Sink>⟧.told sink).faults ≡ 0) }
    {
        let bytes = ByteRoom::new(alloc, room)?;
        Ok(MemSink {
            bytes,
            planned: Planned::new(fails),
            faults: 0,
        })
    }

    /// The bytes that were written.
    pub fn bytes(&self) -> &[u8]
        ensures { (⟦<MemSink as Sink>⟧.told self.now).written ≡ Some result.now }
    {
        self.bytes.as_slice()
    }
}

impl Sink for MemSink {
    ghost told = { λ s. record { written = Some s.bytes; faults = s.faults } };

    fn write(&mut self, bytes: &[u8]) -> Result<usize, Failed>
        ensures within { WritesAtMost result bytes.now }
        ensures some { IfOk result (λ count. 0 < length bytes.now → 0 < count) }
        ensures bytes { WriteAppends (Some self.old.bytes) (Some self.new.bytes) result bytes.now }
        ensures faults { CountsFault self.old.faults self.new.faults result }
        // A call fails exactly where it is listed, or where the bytes do not all fit. Each other one takes them all.
        ensures fails { IsErr result ↔ IsTrue (is_planned self.old.plan || nat_lt self.old.room
            (length self.old.bytes + length bytes.now)) }
        ensures whole { IfOk result (λ count. count ≡ length bytes.now) }
        ensures called { self.new.plan ≡ after_call self.old.plan }
        ensures room { self.new.room ≡ self.old.room }
    {
        if self.planned.call() {
            self.faults = self.faults.saturating_add(1);
            return Err(Failed);
        }
        if self.bytes.put(bytes) {
            return Ok(bytes.len());
        }
        self.faults = self.faults.saturating_add(1);
        Err(Failed)
    }
}
