ghost use Rattle.std.specs.Prelude.{◌≡◌, ◌++◌, [], IsErr, IsNone, IsSome, IfErr, IfOk, OnErr, OnOk, None, Some};
ghost use mathlib.Core.List.{IsPrefix};
ghost use Rattle.std.specs.Io.{ReadsAtMost};
ghost use Rattle.std.specs.Io.KnownBytes.{Appends, Keeps, ReadConsumes};
ghost use Rattle.daq_std.specs.Blocks.{bytes_given, opening_of};
ghost use Rattle.daq_std.specs.BlockTables.{IsLetGo, IsOpened, given_in_blocks, given_to, left_in};

use crate::ahead::ReadAhead;
use crate::system::{Fault, LetGo, OnDisk, SystemFile};
use daq_io::ByteRoom;
use daq_types::NoMemory;
use std::alloc::Global;
use std::fs::OpenFile;
use std::io::{Read, Write};

/// How many bytes go to the system, or come from it, at a time.
pub const BLOCK_BYTES: usize = 65536;

/// A file of the system, read or written in blocks.
#[derive(Drop)]
pub struct BlockFile<F> {
    pub file: Option<SystemFile<F>>,
    /// Bytes that are not written yet.
    pub pending: ByteRoom,
    /// Bytes that were read and not taken yet.
    pub ahead: ReadAhead,
    /// Why a write failed, if one did since the file was opened.
    pub broken: Option<Fault>,
}

impl<F: Read + Write + OpenFile + Drop> BlockFile<F> {
    /// Room for blocks, and no file.
    pub fn new(alloc: Global) -> Result<BlockFile<F>, NoMemory>
        ensures { IfOk result (λ made. IsNone made.file) }
    {
        Ok(BlockFile {
            file: None,
            pending: ByteRoom::new(alloc, BLOCK_BYTES)?,
            ahead: ReadAhead::new(alloc)?,
            broken: None,
        })
    }

    /// Goes on with this file, with nothing to write and nothing read ahead.
    pub fn open(&mut self, file: SystemFile<F>)
        ensures { IsOpened file self.new }
    {
        self.pending.clear();
        self.ahead.clear();
        self.broken = None;
        self.file = Some(file);
    }

    /// Writes the bytes behind those so far. They may stay in the block for now. Once a write failed, none is taken, and the
    /// answer is the fault of that write.
    pub fn append(&mut self, bytes: &[u8]) -> Result<(), Fault>
        requires { IsSome (opening_of self.old.file) }
        ensures grown { OnOk result (Appends (given_to F.contents self.old)
            (given_to F.contents self.new) bytes.now) }
        ensures given { OnOk result (given_in_blocks self.new ≡ given_in_blocks self.old ++ bytes.now) }
        ensures part { OnErr result (IsPrefix (given_in_blocks self.new)
            (given_in_blocks self.old ++ bytes.now)) }
        ensures never_again { IsSome self.old.broken → IsErr result }
        ensures stays { IsSome self.old.broken → self.new ≡ self.old }
        ensures breaks { OnErr result (IsSome self.new.broken) }
        ensures opening { opening_of self.new.file ≡ opening_of self.old.file }
    {
        if let Some(fault) = self.broken {
            return Err(fault);
        }
        if self.pending.put(bytes) {
            return Ok(());
        }
        self.flush()?;
        if self.pending.put(bytes) {
            return Ok(());
        }
        self.write_out(bytes)
    }

    /// Writes what is still in the block, and empties it; but not once a write failed.
    fn flush(&mut self) -> Result<(), Fault>
        requires { IsSome (opening_of self.old.file) }
        ensures kept { OnOk result (Keeps (bytes_given F.contents self.old.file
            self.old.pending.bytes) (bytes_given F.contents self.new.file [])) }
        ensures empty { OnOk result (self.new.pending.bytes ≡ []) }
        ensures given { OnOk result (given_in_blocks self.new ≡ given_in_blocks self.old) }
        ensures part { OnErr result (IsPrefix (given_in_blocks self.new) (given_in_blocks self.old)) }
        ensures never_again { IsSome self.old.broken → IsErr result }
        ensures stays { IsSome self.old.broken → self.new ≡ self.old }
        ensures whole { OnOk result (self.new.broken ≡ None) }
        ensures breaks { OnErr result (IsSome self.new.broken) }
        ensures opening { opening_of self.new.file ≡ opening_of self.old.file }
    {
        if let Some(fault) = self.broken {
            return Err(fault);
        }
        let Some(file) = &mut self.file else {
            unreachable!();
        };
        if let Err(fault) = file.write_all(self.pending.as_slice()) {
            self.broken = Some(fault);
            return Err(fault);
        }
        self.pending.clear();
        Ok(())
    }

    /// Writes bytes past the block, which is empty.
    fn write_out(&mut self, bytes: &[u8]) -> Result<(), Fault>
        requires open { IsSome (opening_of self.old.file) }
        requires empty { self.old.pending.bytes ≡ [] }
        requires whole { self.old.broken ≡ None }
        ensures grown { OnOk result (Appends (bytes_given F.contents self.old.file [])
            (bytes_given F.contents self.new.file self.new.pending.bytes) bytes.now) }
        ensures given { OnOk result (given_in_blocks self.new ≡ given_in_blocks self.old ++ bytes.now) }
        ensures part { OnErr result (IsPrefix (given_in_blocks self.new)
            (given_in_blocks self.old ++ bytes.now)) }
        ensures breaks { OnErr result (IsSome self.new.broken) }
        ensures opening { opening_of self.new.file ≡ opening_of self.old.file }
    {
        let Some(file) = &mut self.file else {
            unreachable!();
        };
        if let Err(fault) = file.write_all(bytes) {
            self.broken = Some(fault);
            return Err(fault);
        }
        Ok(())
    }

    /// Reads into the front of `into`, and answers how many bytes. None at all, where there is room, is the end. Where
    /// nothing was read ahead, as much as a block is read past it.
    pub fn read(&mut self, into: &mut [u8]) -> Result<usize, Fault>
        requires { IsSome (opening_of self.old.file) }
        ensures within { ReadsAtMost result into.new }
        ensures bytes { ReadConsumes (left_in F.remaining self.old) (left_in F.remaining self.new)
            result into.new }
        ensures opening { opening_of self.new.file ≡ opening_of self.old.file }
    {
        let Some(file) = &mut self.file else {
            unreachable!();
        };
        if self.ahead.is_empty() {
            if into.len() >= BLOCK_BYTES {
                return file.read(into);
            }
            self.ahead.fill(file)?;
        }
        Ok(self.ahead.take(into))
    }

    /// Writes what is left, has the system put all of the file on the disk, and hands the file out. Where a part was not
    /// written, also before, the file is let go.
    pub fn close(&mut self) -> Result<OnDisk<F>, LetGo>
        requires { IsSome (opening_of self.old.file) }
        ensures whole { IfOk result (λ synced. Keeps (given_to F.contents self.old)
            (F.contents synced.file)) }
        ensures opening { IfOk result (λ synced. Some synced.opening
            ≡ opening_of self.old.file) }
        ensures handed { IfOk result (λ synced. synced.handed ≡ given_in_blocks self.old) }
        ensures let_go { IfErr result (λ gone. IsLetGo (opening_of self.old.file)
            (given_in_blocks self.old) gone.file) }
        ensures broken { IsSome self.old.broken → IsErr result }
        ensures gone { IsNone self.new.file }
    {
        let written = self.flush();
        let Some(file) = self.file.take() else {
            unreachable!();
        };
        match written {
            Ok(()) => file.sync(),
            Err(fault) => Err(file.let_go(fault)),
        }
    }

    /// Lets the file go.
    pub fn release(&mut self)
        ensures { IsNone self.new.file }
    {
        self.file = None;
    }
}
