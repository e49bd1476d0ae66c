ghost use Rattle.std.specs.Prelude.{◌≡◌, ℕ, [], IfOk, IsErr, IsErrOf, IsTrue, None, OnErr, OnOk, Some, take};
ghost use Rattle.std.specs.Io.{ReadsAtMost};
ghost use Rattle.daq_io.specs.Counts.{NamesFirst};
ghost use Rattle.daq_io.specs.Seen.{close_state, Closes, Creates, Ends, Extends, ExtendsPart, InUse, IsFree, Opens, Reads, Removes, Same};
ghost use Rattle.daq_io.specs.Uses.{free_numbers};
ghost use Rattle.daq_std.specs.BlockTables.{LeavesBlock, UsesBlock};
ghost use Rattle.daq_std.specs.InBlocks.{CountsOne, CountsOnName, GivesBytes, HasAll, IsBroken, NamesFirstAt, NamesOnDisk, OpensFile, TakesBytes, told_by};
ghost use Rattle.daq_std.specs.Paths.{path_in};
ghost use Rattle.daq_std.specs.SystemCalls.{new_to_write, to_read};

use crate::faults::FaultTally;
use crate::folder::SystemFolder;
use crate::standard::StandardTaken;
use crate::system::{Fault, free_number};
use crate::table::BlockTable;
use daq_io::{Failed, Files, NameRefused, Usage, UseTable};
use daq_types::{FileName, NoMemory};
use std::alloc::Global;
use std::marker::Model;
use std::rt;

/// The files of one folder of the system; a name that begins with `/` is one from the root. Told are the bytes that each file
/// which was made here was given, and how it was left; nothing is told of which names there are, and of the bytes that files
/// had before. Reads and appends go through blocks that are taken once, so bytes may reach the system only at a later
/// append or at the close, and a failure there is that call's fault. A close answers Ok only when the system has put the
/// file and the names of its folder on the disk; what a removal undoes is there behind the next close in that folder. A
/// file of which a write failed takes no more bytes, and its close fails. What is no file, such as a folder or a pipe, is
/// not opened.
#[derive(Drop)]
pub struct StdFiles<R: rt::Files + Drop> {
    folder: SystemFolder<R>,
    numbers: UseTable,
    blocks: BlockTable<R::File>,
    tally: FaultTally,
}

impl<R: rt::Files + Drop> Model for StdFiles<R> {
    ghost use Rattle.daq_std.specs.InBlocks.{HasFiles, InBlocks};

    ghost Value = { InBlocks R.File };

    ghost view = { λ s. record {
      inside = s.folder;
      uses = s.numbers.uses.items;
      blocks = s.blocks.blocks.items;
      tallied = s.tally;
    } };

    ghost invariant = { λ s. HasFiles s.folder.folder s.numbers.uses.items s.blocks.blocks.items };
}

impl<R: rt::Files + Drop> StdFiles<R> {
    /// The files of this folder, of which so many are in use at a time, at most. None of them gets a number of the standard
    /// streams.
    pub fn new(
        alloc: Global,
        system: R,
        _taken: &StandardTaken,
        folder: &str,
        numbers: u32,
    ) -> Result<StdFiles<R>, NoMemory>
        ensures folder { IfOk result (λ made. made.inside.folder ≡ folder.now) }
        ensures numbers { IfOk result (λ made. free_numbers made.uses ≡ numbers) }
        ensures unused { IfOk result (λ made. (number : ℕ)
            → IsFree (⟦<StdFiles<R> as Files>⟧.told made).seen number) }
        ensures faults { IfOk result (λ made. (⟦<StdFiles<R> as Files>⟧.told made).faults ≡ 0) }
        ensures clashes { IfOk result (λ made. (⟦<StdFiles<R> as Files>⟧.told made).clashes ≡ 0) }
        ensures first { IfOk result (λ made. (⟦<StdFiles<R> as Files>⟧.told made).first ≡ None) }
        ensures nothing_given { IfOk result (λ made. (number : ℕ)
            → (⟦<StdFiles<R> as Files>⟧.told made).seen.given number ≡ []) }
        ensures nothing_done { IfOk result
            (λ made. (⟦<StdFiles<R> as Files>⟧.told made).seen.done ≡ []) }
    {
        let folder = SystemFolder::new(alloc, system, folder)?;
        let blocks = BlockTable::new(alloc, numbers)?;
        Ok(StdFiles {
            folder,
            numbers: UseTable::new(alloc, numbers)?,
            blocks,
            tally: FaultTally::new(),
        })
    }

    /// Makes a file and goes on with it under a number.
    fn make(&mut self, name: &FileName) -> Result<u32, Fault>
        ensures made { IfOk result (λ number. Creates (told_by self.old) (told_by self.new)
            name.now number []) }
        ensures kept { OnErr result (Same (told_by self.old) (told_by self.new)) }
        ensures opened { IfOk result (OpensFile new_to_write name.now self.old self.new) }
        ensures others { OnErr result (self.new.blocks ≡ self.old.blocks) }
        ensures tally { self.new.tallied ≡ self.old.tallied }
        ensures removed { OnOk result (self.new.inside.removed ≡ None) }
        ensures kept_name { OnOk result (self.new.inside.kept ≡ None) }
        ensures folder { self.new.inside.folder ≡ self.old.inside.folder }
    {
        let number = free_number(&self.numbers)?;
        let file = self.folder.create(name)?;
        self.blocks.open(number, file);
        self.numbers.assign(number, Usage::Writing(*name));
        Ok(number)
    }

    /// Opens a file and goes on with it under a number.
    fn open(&mut self, name: &FileName) -> Result<u32, Fault>
        ensures opens { IfOk result (λ number. Opens (told_by self.old) (told_by self.new) name.now
            number []) }
        ensures kept { OnErr result (Same (told_by self.old) (told_by self.new)) }
        ensures opened { IfOk result (OpensFile to_read name.now self.old self.new) }
        ensures others { OnErr result (self.new.blocks ≡ self.old.blocks) }
        ensures tally { self.new.tallied ≡ self.old.tallied }
        ensures inside { self.new.inside ≡ self.old.inside }
    {
        let number = free_number(&self.numbers)?;
        let file = self.folder.open(name)?;
        self.blocks.open(number, file);
        self.numbers.assign(number, Usage::Reading(*name));
        Ok(number)
    }

    /// Puts the written file of this number on the disk, and the names of its folder. The number is not in use any more.
    fn finish(&mut self, file: u32, name: &FileName) -> Result<(), Fault>
        requires writes { IsTrue ((told_by self.old).writes file) }
        requires named { (told_by self.old).name_of file ≡ name.now }
        ensures closes { Closes (told_by self.old) (told_by self.new) file (close_state result) [] }
        ensures all { OnOk result (HasAll R.File.contents self.old file) }
        ensures named { OnOk result (NamesOnDisk self.old self.new file) }
        ensures broken { IsBroken self.old file → IsErr result }
        ensures leaves { LeavesBlock self.old.blocks self.new.blocks file }
        ensures tally { self.new.tallied ≡ self.old.tallied }
        ensures folder { self.new.inside.folder ≡ self.old.inside.folder }
    {
        self.numbers.assign(file, Usage::Free);
        match self.blocks.finish(file) {
            Ok(on_disk) => self.folder.sync(name, on_disk),
            Err(gone) => {
                self.folder.leave(name, gone.file);
                Err(gone.fault)
            }
        }
    }
}

impl<R: rt::Files + Drop> Files for StdFiles<R> {
    ghost use Rattle.daq_std.specs.InBlocks.{told_by};

    // No byte that is read is counted, since what files had before is not told.
    ghost told = { λ s. record {
      seen = told_by s;
      faults = s.tallied.faults;
      clashes = s.tallied.clashes;
      first = s.tallied.first;
      bytes_read = 0;
    } };

    /// The number goes on with a file that the system made under the path of the name.
    fn create(&mut self, name: &FileName) -> Result<u32, NameRefused>
        ensures made { IfOk result (λ number. Creates (told_by self.old) (told_by self.new)
            name.now number []) }
        ensures kept { OnErr result (Same (told_by self.old) (told_by self.new)) }
        ensures not_missing { ¬ IsErrOf result NameRefused.Missing }
        ensures counts { CountsOnName name.now self.old self.new result }
        ensures bytes_read { (⟦<StdFiles<R> as Files>⟧.told self.new).bytes_read
            ≡ (⟦<StdFiles<R> as Files>⟧.told self.old).bytes_read }
        ensures opened { IfOk result (OpensFile new_to_write name.now self.old self.new) }
        ensures others { OnErr result (self.new.blocks ≡ self.old.blocks) }
        ensures removed { OnOk result (self.new.inside.removed ≡ None) }
        ensures kept_name { OnOk result (self.new.inside.kept ≡ None) }
        ensures folder { self.new.inside.folder ≡ self.old.inside.folder }
    {
        match self.make(name) {
            Ok(number) => Ok(number),
            Err(fault) => Err(self.tally.not_made(name, fault)),
        }
    }

    /// Once a write failed, no byte of that file is taken.
    fn append(&mut self, file: u32, bytes: &[u8]) -> Result<(), Failed>
        requires { IsTrue ((told_by self.old).writes file) }
        ensures written { OnOk result
            (Extends (told_by self.old) (told_by self.new) file bytes.now) }
        ensures part { OnErr result
            (ExtendsPart (told_by self.old) (told_by self.new) file bytes.now) }
        ensures faults { CountsOne self.old self.new result }
        ensures clashes { self.new.tallied.clashes ≡ self.old.tallied.clashes }
        ensures bytes_read { (⟦<StdFiles<R> as Files>⟧.told self.new).bytes_read
            ≡ (⟦<StdFiles<R> as Files>⟧.told self.old).bytes_read }
        ensures first { NamesFirstAt file self.old self.new result }
        ensures given { OnOk result (GivesBytes R.File.contents self.old self.new file bytes.now) }
        ensures never_again { IsBroken self.old file → IsErr result }
        ensures breaks { OnErr result (IsBroken self.new file) }
        ensures stays { IsBroken self.old file → (told_by self.new).given file
            ≡ (told_by self.old).given file }
        ensures uses { UsesBlock self.old.blocks self.new.blocks file }
        ensures inside { self.new.inside ≡ self.old.inside }
    {
        match self.numbers.usage(file) {
            Usage::Writing(name) => match self.blocks.append(file, bytes) {
                Ok(()) => Ok(()),
                Err(fault) => Err(self.tally.failed(&name, fault)),
            },
            _ => unreachable!(),
        }
    }

    /// A written file is closed well where the system has put all of its bytes on the disk, and the names of its folder.
    fn close(&mut self, file: u32) -> Result<(), Failed>
        requires { InUse (told_by self.old) file }
        ensures written { IsTrue ((told_by self.old).writes file)
            → Closes (told_by self.old) (told_by self.new) file (close_state result) [] }
        ensures read { IsTrue ((told_by self.old).reads file)
            → Ends (told_by self.old) (told_by self.new) file }
        ensures faults { CountsOne self.old self.new result }
        ensures clashes { self.new.tallied.clashes ≡ self.old.tallied.clashes }
        ensures bytes_read { (⟦<StdFiles<R> as Files>⟧.told self.new).bytes_read
            ≡ (⟦<StdFiles<R> as Files>⟧.told self.old).bytes_read }
        ensures first { NamesFirstAt file self.old self.new result }
        ensures all { IsTrue ((told_by self.old).writes file)
            → OnOk result (HasAll R.File.contents self.old file) }
        ensures named { IsTrue ((told_by self.old).writes file)
            → OnOk result (NamesOnDisk self.old self.new file) }
        ensures broken { IsTrue ((told_by self.old).writes file) → IsBroken self.old file
            → IsErr result }
        ensures leaves { LeavesBlock self.old.blocks self.new.blocks file }
        ensures folder { self.new.inside.folder ≡ self.old.inside.folder }
    {
        match self.numbers.usage(file) {
            Usage::Writing(name) => match self.finish(file, &name) {
                Ok(()) => Ok(()),
                Err(fault) => Err(self.tally.failed(&name, fault)),
            },
            Usage::Reading(_) => {
                self.numbers.assign(file, Usage::Free);
                self.blocks.release(file);
                Ok(())
            }
            Usage::Free => unreachable!(),
        }
    }

    /// The system removed the file under the path of the name, or told that there is none.
    fn remove(&mut self, name: &FileName) -> Result<(), Failed>
        ensures removed { OnOk result (Removes (told_by self.old) (told_by self.new) name.now) }
        ensures kept { OnErr result (Same (told_by self.old) (told_by self.new)) }
        ensures faults { CountsOne self.old self.new result }
        ensures clashes { self.new.tallied.clashes ≡ self.old.tallied.clashes }
        ensures bytes_read { (⟦<StdFiles<R> as Files>⟧.told self.new).bytes_read
            ≡ (⟦<StdFiles<R> as Files>⟧.told self.old).bytes_read }
        ensures first { NamesFirst name.now self.old.tallied.first self.new.tallied.first result }
        ensures done { OnOk result (self.new.inside.removed
            ≡ Some (path_in self.old.inside.folder name.now)) }
        ensures files { self.new ≡ record self.old
            { inside = self.new.inside; tallied = self.new.tallied } }
        ensures folder { self.new.inside.folder ≡ self.old.inside.folder }
    {
        match self.folder.remove(name) {
            Ok(()) => Ok(()),
            Err(fault) => Err(self.tally.failed(name, fault)),
        }
    }

    /// The number goes on with a file that the system opened under the path of the name.
    fn open_read(&mut self, name: &FileName) -> Result<u32, NameRefused>
        ensures opens { IfOk result (λ number. Opens (told_by self.old) (told_by self.new) name.now
            number []) }
        ensures kept { OnErr result (Same (told_by self.old) (told_by self.new)) }
        ensures not_exists { ¬ IsErrOf result NameRefused.Exists }
        ensures counts { CountsOnName name.now self.old self.new result }
        ensures bytes_read { (⟦<StdFiles<R> as Files>⟧.told self.new).bytes_read
            ≡ (⟦<StdFiles<R> as Files>⟧.told self.old).bytes_read }
        ensures opened { IfOk result (OpensFile to_read name.now self.old self.new) }
        ensures others { OnErr result (self.new.blocks ≡ self.old.blocks) }
        ensures inside { self.new.inside ≡ self.old.inside }
    {
        match self.open(name) {
            Ok(number) => Ok(number),
            Err(fault) => Err(self.tally.not_opened(name, fault)),
        }
    }

    /// The bytes are those of the file of that number.
    fn read(&mut self, file: u32, into: &mut [u8]) -> Result<usize, Failed>
        requires { IsTrue ((told_by self.old).reads file) }
        ensures within { ReadsAtMost result into.new }
        ensures bytes { IfOk result (λ count. Reads (told_by self.old) (told_by self.new) file
            (take count into.new)) }
        ensures kept { OnErr result (Same (told_by self.old) (told_by self.new)) }
        ensures faults { CountsOne self.old self.new result }
        ensures clashes { self.new.tallied.clashes ≡ self.old.tallied.clashes }
        ensures bytes_read { (⟦<StdFiles<R> as Files>⟧.told self.new).bytes_read
            ≡ (⟦<StdFiles<R> as Files>⟧.told self.old).bytes_read }
        ensures first { NamesFirstAt file self.old self.new result }
        ensures taken { TakesBytes R.File.remaining self.old self.new file result into.new }
        ensures inside { self.new.inside ≡ self.old.inside }
    {
        match self.numbers.usage(file) {
            Usage::Reading(name) => match self.blocks.read(file, into) {
                Ok(count) => Ok(count),
                Err(fault) => Err(self.tally.failed(&name, fault)),
            },
            _ => unreachable!(),
        }
    }

    fn first_fault(&self) -> Option<FileName> {
        self.tally.first_fault()
    }
}
