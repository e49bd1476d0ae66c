ghost use Rattle.std.specs.Prelude.{◌≡◌, ◌<◌, ◌++◌, ℕ, [], IfErr, IfOk, IsErr, IsSome, IsTrue, OnErr, OnOk, Some, length};
ghost use mathlib.Core.List.{IsPrefix};
ghost use Rattle.std.specs.Io.{ReadsAtMost};
ghost use Rattle.std.specs.Io.KnownBytes.{Keeps, ReadConsumes};
ghost use Rattle.daq_std.specs.BlockTables.{GrowsBlock, IsLetGo, LeavesBlock, OpensBlock, UsesBlock, ahead_at, bytes_given_at, given_at, opening_at, is_broken_at};

use crate::blocks::BlockFile;
use crate::system::{Fault, LetGo, OnDisk, SystemFile};
use daq_types::NoMemory;
use std::alloc::Global;
use std::fs::OpenFile;
use std::io::{Read, Write};

/// A block for each number.
#[derive(Drop)]
pub struct BlockTable<F> {
    pub blocks: Vec<BlockFile<F>>,
}

impl<F: Read + Write + OpenFile + Drop> BlockTable<F> {
    /// Blocks for so many numbers.
    pub fn new(alloc: Global, count: u32) -> Result<BlockTable<F>, NoMemory>
        ensures count { IfOk result (λ made. length made.blocks.items ≡ count) }
        ensures nothing { IfOk result (λ made. (number : ℕ)
            → given_at made.blocks.items number ≡ []) }
    {
        let mut blocks = Vec::new(alloc);
        for _ in 0..count {
            blocks.push(BlockFile::new(alloc)?)?;
        }
        Ok(BlockTable { blocks })
    }

    /// Goes on with this file under this number, with nothing to write and nothing read ahead.
    pub fn open(&mut self, number: u32, file: SystemFile<F>)
        requires { number < length self.old.blocks.items }
        ensures { OpensBlock file self.old.blocks.items self.new.blocks.items number }
    {
        let block = &mut self.blocks[number as usize];
        block.open(file);
    }

    /// Appends to the file of this number. Once a write failed, it takes no byte.
    pub fn append(&mut self, number: u32, bytes: &[u8]) -> Result<(), Fault>
        requires { IsSome (opening_at self.old.blocks.items number) }
        ensures grown { OnOk result (GrowsBlock F.contents self.old.blocks.items
            self.new.blocks.items number bytes.now) }
        ensures given { OnOk result (given_at self.new.blocks.items number
            ≡ given_at self.old.blocks.items number ++ bytes.now) }
        ensures part { OnErr result (IsPrefix (given_at self.new.blocks.items number)
            (given_at self.old.blocks.items number ++ bytes.now)) }
        ensures stays { IsTrue (is_broken_at self.old.blocks.items number)
            → given_at self.new.blocks.items number ≡ given_at self.old.blocks.items number }
        ensures never_again { IsTrue (is_broken_at self.old.blocks.items number) → IsErr result }
        ensures breaks { OnErr result (IsTrue (is_broken_at self.new.blocks.items number)) }
        ensures uses { UsesBlock self.old.blocks.items self.new.blocks.items number }
    {
        let block = &mut self.blocks[number as usize];
        block.append(bytes)
    }

    /// Reads from the file of this number.
    pub fn read(&mut self, number: u32, into: &mut [u8]) -> Result<usize, Fault>
        requires { IsSome (opening_at self.old.blocks.items number) }
        ensures within { ReadsAtMost result into.new }
        ensures bytes { ReadConsumes (ahead_at F.remaining self.old.blocks.items number)
            (ahead_at F.remaining self.new.blocks.items number) result into.new }
        ensures uses { UsesBlock self.old.blocks.items self.new.blocks.items number }
    {
        let block = &mut self.blocks[number as usize];
        block.read(into)
    }

    /// Writes what is left of the file of this number, has all of it put on the disk, and hands the file out. It does not
    /// where a write failed before.
    pub fn finish(&mut self, number: u32) -> Result<OnDisk<F>, LetGo>
        requires { IsSome (opening_at self.old.blocks.items number) }
        ensures whole { IfOk result (λ synced. Keeps (bytes_given_at F.contents
            self.old.blocks.items number) (F.contents synced.file)) }
        ensures opening { IfOk result (λ synced. Some synced.opening
            ≡ opening_at self.old.blocks.items number) }
        ensures handed { IfOk result (λ synced. synced.handed
            ≡ given_at self.old.blocks.items number) }
        ensures let_go { IfErr result (λ gone. IsLetGo (opening_at self.old.blocks.items number)
            (given_at self.old.blocks.items number) gone.file) }
        ensures broken { IsTrue (is_broken_at self.old.blocks.items number) → IsErr result }
        ensures leaves { LeavesBlock self.old.blocks.items self.new.blocks.items number }
    {
        let block = &mut self.blocks[number as usize];
        block.close()
    }

    /// Lets the file of this number go.
    pub fn release(&mut self, number: u32)
        requires { IsSome (opening_at self.old.blocks.items number) }
        ensures { LeavesBlock self.old.blocks.items self.new.blocks.items number }
    {
        let block = &mut self.blocks[number as usize];
        block.release();
    }
}
