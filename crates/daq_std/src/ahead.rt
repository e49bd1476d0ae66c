ghost use Rattle.std.specs.Prelude.{◌≡◌, ◌++◌, ◌↔◌, [], length, min, take, IsTrue, IfOk, OnOk, OnErr};
ghost use Rattle.std.specs.Io.KnownBytes.{Consumes, IsAtEnd, Keeps};

use crate::blocks::BLOCK_BYTES;
use crate::system::{Fault, SystemFile};
use daq_io::copy_front;
use daq_types::NoMemory;
use std::alloc::Global;
use std::io::Read;
use std::marker::Model;

/// Bytes that were read ahead and not taken yet. Room for a block of them is taken once, and not touched before the first
/// is read.
#[derive(Drop)]
pub struct ReadAhead {
    block: Vec<u8>,
    start: usize,
    end: usize,
}

impl Model for ReadAhead {
    ghost use Rattle.std.specs.Prelude.{◌≤◌, ℕ, List, length, slice_range, vec_capacity};
    ghost use Rattle.daq_std.specs.Blocks.{block_room};

    ghost Value = { List ℕ };

    ghost view = { λ a. slice_range a.block.items a.start a.end };

    ghost invariant = { λ a. (a.start ≤ a.end) × (a.end ≤ length a.block.items)
        × (block_room ≤ vec_capacity a.block) };
}

impl ReadAhead {
    /// Room for a block, with nothing in it.
    pub fn new(alloc: Global) -> Result<ReadAhead, NoMemory>
        ensures { IfOk result (λ made. made ≡ []) }
    {
        let block = Vec::with_capacity(alloc, BLOCK_BYTES)?;
        Ok(ReadAhead {
            block,
            start: 0,
            end: 0,
        })
    }

    /// Whether all was taken.
    pub fn is_empty(&self) -> bool
        ensures { IsTrue result ↔ (self.now ≡ []) }
    {
        self.start == self.end
    }

    /// Forgets what was read ahead.
    pub fn clear(&mut self)
        ensures { self.new ≡ [] }
    {
        self.start = 0;
        self.end = 0;
    }

    /// Moves the first bytes to the front of `into`, and answers how many.
    pub fn take(&mut self, into: &mut [u8]) -> usize
        ensures count { result ≡ min (length self.old) (length into.old) }
        ensures moved { self.old ≡ take result into.new ++ self.new }
    {
        let (filled, _) = self.block.as_slice().split_at(self.end);
        let (_, ahead) = filled.split_at(self.start);
        let count = copy_front(ahead, into);
        self.start += count;
        count
    }

    /// Reads the next block of the file, where nothing is left of the one before. No byte is its end.
    pub fn fill<F: Read>(&mut self, file: &mut SystemFile<F>) -> Result<(), Fault>
        ensures read { OnOk result (Consumes (F.remaining file.old.file)
            (F.remaining file.new.file) self.new) }
        ensures end { OnOk result (self.new ≡ [] → IsAtEnd (F.remaining file.new.file)) }
        ensures failed { OnErr result (Keeps (F.remaining file.old.file)
            (F.remaining file.new.file)) }
        ensures none { OnErr result (self.new ≡ []) }
        ensures opening { file.new.opening ≡ file.old.opening }
        ensures handed { file.new.handed ≡ file.old.handed }
    {
        self.start = 0;
        self.end = 0;
        if self.block.resize(BLOCK_BYTES, 0).is_err() {
            unreachable!();
        }
        let count = file.read(self.block.as_mut_slice())?;
        self.end = count;
        Ok(())
    }
}
