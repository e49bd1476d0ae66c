ghost use Rattle.std.specs.Prelude.{◌≡◌, ◌≤◌, ◌+◌, ◌<◌, ◌==◌, ◌↔◌, ◌||◌, ◌&&◌, Some, None, IfOk, IsTrue, IsSome, IsNone, IsErr, IsErrOf, IsOk, OnOk, OnErr, MatchOption, option_map, is_some, if◌then◌else◌, ℕ, List, [], length, take, min, replicate};
ghost use Rattle.std.specs.Io.{ReadsAtMost};
ghost use Rattle.daq_io.specs.Counts.{CountsClash, CountsFault, CountsNamed, NamesFirst, NamesFirstOf, RoseJustBy};
ghost use Rattle.daq_io.specs.Seen.{Closes, Creates, Ends, Extends, ExtendsPart, InUse, IsFree, Opens, Reads, Removes, Same, close_state, is_closed};
ghost use Rattle.daq_mem.specs.FilesSeen.{Adds, FitsIn, GivesRoom, SameCounts, TakesRoom, is_full, is_too_long};
ghost use Rattle.daq_mem.specs.Plans.{is_op_planned, after_op_call};

use crate::plans::{FileFail, FileOp, PlannedFails};
use crate::readers::Readers;
use crate::slots::Slots;
use daq_io::{
    ByteTraces, Failed, FileState, FileTrace, Files, NameRefused, Tally, Usage, UseTable,
};
use daq_types::{FileName, NoMemory};
use std::alloc::Global;

/// Files in memory, which tell everything. What does not fit is a fault, and a failed append keeps nothing of the new
/// bytes.
#[derive(Drop)]
pub struct MemFiles {
    slots: Slots,
    numbers: UseTable,
    readers: Readers,
    planned: PlannedFails,
    tally: Tally,
    bytes_read: u64,
    given: ByteTraces,
    done: FileTrace,
    // Each number has a reader, with the room of a file.
    ghost read_by_number: { length readers.readers.items ≡ length numbers.uses.items },
    ghost room_to_read: { readers.room ≡ slots.room },
    ghost given_by_number: { length given ≡ length numbers.uses.items },
}

impl MemFiles {
    ghost use Rattle.daq_mem.specs.SeenFiles.{seen_files};

    /// Room for so many files, with as many numbers in use at a time, and `room` bytes in each file. The calls that
    /// `fails` lists fail.
    pub fn new(
        alloc: Global,
        files: u32,
        room: u64,
        fails: Vec<FileFail>,
    ) -> Result<MemFiles, NoMemory>
        ensures names { IfOk result (λ made. IsTrue (seen_files made).told.seen.names) }
        ensures empty { IfOk result (λ made. (name : List ℕ) → (seen_files made).told.seen.at name
            ≡ None) }
        ensures unused { IfOk result (λ made. (number : ℕ) → IsFree (seen_files made).told.seen number) }
        ensures done { IfOk result (λ made. (seen_files made).told.seen.done ≡ []) }
        ensures faults { IfOk result (λ made. (seen_files made).told.faults ≡ 0) }
        ensures clashes { IfOk result (λ made. (seen_files made).told.clashes ≡ 0) }
        ensures bytes_read { IfOk result (λ made. (seen_files made).told.bytes_read ≡ 0) }
        ensures plan { IfOk result (λ made. (seen_files made).plan
            ≡ record { fails = fails.items; calls = replicate 6 0 }) }
        ensures room { IfOk result (λ made. (seen_files made).room ≡ room) }
        ensures files { IfOk result (λ made. (seen_files made).free_files ≡ files) }
        ensures numbers { IfOk result (λ made. (seen_files made).free_numbers ≡ files) }
    {
        let slots = Slots::new(alloc, files, room as usize)?;
        let numbers = UseTable::new(alloc, files)?;
        let readers = Readers::new(alloc, files, room as usize)?;
        let given = ByteTraces::new(alloc, files)?;
        Ok(MemFiles {
            slots,
            numbers,
            readers,
            planned: PlannedFails::new(fails),
            tally: Tally::new(),
            bytes_read: 0,
            given,
            done: FileTrace::new(),
        })
    }

    /// Adds a closed file, as one that was there before. Where the name is there, or the file does not fit, nothing happens
    /// and the answer is Err.
    pub fn add(&mut self, name: FileName, bytes: Vec<u8>) -> Result<(), NoMemory>
        ensures added { OnOk result (Adds (seen_files self.old).told.seen (seen_files self.new).told.seen
            name bytes.items) }
        ensures kept { OnErr result (Same (seen_files self.old).told.seen (seen_files self.new).told.seen) }
        ensures there { IsSome ((seen_files self.old).told.seen.at name) → IsErr result }
        ensures fits { IsNone ((seen_files self.old).told.seen.at name)
            → (IsOk result ↔ FitsIn (seen_files self.old) (length bytes.items)) }
        ensures counts { SameCounts (seen_files self.old) (seen_files self.new) }
        ensures plan { (seen_files self.new).plan ≡ (seen_files self.old).plan }
        ensures takes { OnOk result (TakesRoom (seen_files self.old) (seen_files self.new) 1 0) }
        ensures takes_none { OnErr result (TakesRoom (seen_files self.old) (seen_files self.new) 0
            0) }
    {
        match self.slots.file(&name) {
            Some(_) => Err(NoMemory),
            None => {
                if self.slots.store(&name, bytes.as_slice(), FileState::Closed) {
                    return Ok(());
                }
                Err(NoMemory)
            }
        }
    }

    /// The bytes of the file of this name.
    pub fn find(&self, name: &FileName) -> Option<&[u8]>
        ensures { MatchOption result ((seen_files self.now).told.seen.at name.now ≡ None)
            (λ bytes. option_map (λ file. file.bytes) ((seen_files self.now).told.seen.at name.now)
            ≡ Some bytes.now) }
    {
        match self.slots.file(name) {
            Some(slot) => Some(slot.bytes.as_slice()),
            None => None,
        }
    }

    /// Whether there is a file of this name that is written no more.
    pub fn is_closed(&self, name: &FileName) -> bool
        ensures { result ≡ is_closed ((seen_files self.now).told.seen.at name.now) }
    {
        match self.slots.file(name) {
            Some(slot) => slot.state != FileState::Open,
            None => false,
        }
    }
}

/// What a close leaves a file as that was written.
fn state_left(fails: bool) -> FileState
    ensures { result ≡ (if fails then FileState.InVain else FileState.Closed) }
{
    if fails {
        return FileState::InVain;
    }
    FileState::Closed
}

// Each call is counted among those of its operation, and fails where it is listed.
impl Files for MemFiles {
    ghost use Rattle.daq_mem.specs.SeenFiles.{seen_files};

    ghost told = { λ m. (seen_files m).told };

    /// Fails exactly where the name is free and the call is listed, or there is no room for a file or no number.
    fn create(&mut self, name: &FileName) -> Result<u32, NameRefused>
        ensures made { IfOk result (λ number. Creates (seen_files self.old).told.seen
            (seen_files self.new).told.seen name.now number []) }
        ensures kept { OnErr result (Same (seen_files self.old).told.seen (seen_files self.new).told.seen) }
        ensures exists { IsErrOf result NameRefused.Exists
            ↔ IsSome ((seen_files self.old).told.seen.at name.now) }
        ensures not_missing { ¬ IsErrOf result NameRefused.Missing }
        ensures faults { CountsNamed (seen_files self.old).told.faults (seen_files self.new).told.faults
            result }
        ensures clashes { CountsClash (seen_files self.old).told.clashes (seen_files self.new).told.clashes
            result }
        ensures bytes_read { (seen_files self.new).told.bytes_read ≡ (seen_files self.old).told.bytes_read }
        ensures first { NamesFirstOf name.now (seen_files self.old).told.first
            (seen_files self.new).told.first result }
        ensures called { (seen_files self.new).plan ≡ after_op_call (seen_files self.old).plan
            FileOp.Create }
        ensures listed { IsTrue (is_op_planned (seen_files self.old).plan FileOp.Create)
            → IsErr result }
        ensures full { IsTrue (is_full (seen_files self.old)) → IsErr result }
        ensures fails { IsErrOf result NameRefused.Failed
            → IsTrue (is_op_planned (seen_files self.old).plan FileOp.Create || is_full
            (seen_files self.old)) }
        ensures takes { OnOk result (TakesRoom (seen_files self.old) (seen_files self.new) 1 1) }
        ensures takes_none { OnErr result (TakesRoom (seen_files self.old) (seen_files self.new) 0
            0) }
    {
        let fails = self.planned.is_next(FileOp::Create);
        if self.slots.file(name).is_some() {
            self.tally.clash();
            return Err(NameRefused::Exists);
        }
        if let Some(number) = self.numbers.free()
            && !fails
        {
            if self.slots.store(name, &[], FileState::Open) {
                self.numbers.assign(number, Usage::Writing(*name));
                self.given.begin(number);
                return Ok(number);
            }
            self.tally.fault(name);
            return Err(NameRefused::Failed);
        }
        self.tally.fault(name);
        Err(NameRefused::Failed)
    }

    /// Fails exactly where the call is listed, or the file has no room for the bytes. A failed call keeps nothing of them.
    fn append(&mut self, file: u32, bytes: &[u8]) -> Result<(), Failed>
        requires { IsTrue ((seen_files self.old).told.seen.writes file) }
        ensures written { OnOk result (Extends (seen_files self.old).told.seen
            (seen_files self.new).told.seen file bytes.now) }
        ensures part { OnErr result (ExtendsPart (seen_files self.old).told.seen
            (seen_files self.new).told.seen file bytes.now) }
        ensures kept { OnErr result (Same (seen_files self.old).told.seen (seen_files self.new).told.seen) }
        ensures faults { CountsFault (seen_files self.old).told.faults (seen_files self.new).told.faults
            result }
        ensures clashes { (seen_files self.new).told.clashes ≡ (seen_files self.old).told.clashes }
        ensures bytes_read { (seen_files self.new).told.bytes_read ≡ (seen_files self.old).told.bytes_read }
        ensures first { NamesFirst ((seen_files self.old).told.seen.name_of file)
            (seen_files self.old).told.first (seen_files self.new).told.first result }
        ensures called { (seen_files self.new).plan ≡ after_op_call (seen_files self.old).plan
            FileOp.Append }
        ensures fails { IsErr result ↔ IsTrue (is_op_planned (seen_files self.old).plan
            FileOp.Append || is_too_long (seen_files self.old) file (length bytes.now)) }
        ensures takes_none { TakesRoom (seen_files self.old) (seen_files self.new) 0 0 }
    {
        match self.numbers.usage(file) {
            Usage::Writing(name) => {
                if self.planned.is_next(FileOp::Append) {
                    self.tally.fault(&name);
                    return Err(Failed);
                }
                if self.slots.append(&name, bytes) {
                    self.given.more(file, bytes, bytes.len());
                    return Ok(());
                }
                self.tally.fault(&name);
                Err(Failed)
            }
            _ => unreachable!(),
        }
    }

    /// Fails exactly where the call is listed. A file that was written is then closed in vain, with all that was given.
    fn close(&mut self, file: u32) -> Result<(), Failed>
        requires { InUse (seen_files self.old).told.seen file }
        ensures written { IsTrue ((seen_files self.old).told.seen.writes file)
            → Closes (seen_files self.old).told.seen (seen_files self.new).told.seen file (close_state result) [] }
        ensures read { IsTrue ((seen_files self.old).told.seen.reads file)
            → Ends (seen_files self.old).told.seen (seen_files self.new).told.seen file }
        ensures faults { CountsFault (seen_files self.old).told.faults (seen_files self.new).told.faults
            result }
        ensures clashes { (seen_files self.new).told.clashes ≡ (seen_files self.old).told.clashes }
        ensures bytes_read { (seen_files self.new).told.bytes_read ≡ (seen_files self.old).told.bytes_read }
        ensures first { NamesFirst ((seen_files self.old).told.seen.name_of file)
            (seen_files self.old).told.first (seen_files self.new).told.first result }
        ensures called { (seen_files self.new).plan ≡ after_op_call (seen_files self.old).plan
            FileOp.Close }
        ensures fails { IsErr result ↔ IsTrue (is_op_planned (seen_files self.old).plan
            FileOp.Close) }
        ensures gives { GivesRoom (seen_files self.old) (seen_files self.new) 0 1 }
    {
        let fails = self.planned.is_next(FileOp::Close);
        match self.numbers.usage(file) {
            Usage::Writing(name) => {
                let state = state_left(fails);
                self.slots.leave(&name, state);
                self.done.left(&name, self.given.take(file), state);
                self.numbers.assign(file, Usage::Free);
                if fails {
                    self.tally.fault(&name);
                    return Err(Failed);
                }
                Ok(())
            }
            Usage::Reading(name) => {
                self.numbers.assign(file, Usage::Free);
                if fails {
                    self.tally.fault(&name);
                    return Err(Failed);
                }
                Ok(())
            }
            Usage::Free => unreachable!(),
        }
    }

    /// Fails exactly where there is such a file and the call is listed.
    fn remove(&mut self, name: &FileName) -> Result<(), Failed>
        ensures removed { OnOk result (Removes (seen_files self.old).told.seen
            (seen_files self.new).told.seen name.now) }
        ensures kept { OnErr result (Same (seen_files self.old).told.seen (seen_files self.new).told.seen) }
        ensures absent { IsNone ((seen_files self.old).told.seen.at name.now) → IsOk result }
        ensures faults { CountsFault (seen_files self.old).told.faults (seen_files self.new).told.faults
            result }
        ensures clashes { (seen_files self.new).told.clashes ≡ (seen_files self.old).told.clashes }
        ensures bytes_read { (seen_files self.new).told.bytes_read ≡ (seen_files self.old).told.bytes_read }
        ensures first { NamesFirst name.now (seen_files self.old).told.first
            (seen_files self.new).told.first result }
        ensures called { (seen_files self.new).plan ≡ after_op_call (seen_files self.old).plan
            FileOp.Remove }
        ensures fails { IsErr result ↔ IsTrue (is_some ((seen_files self.old).told.seen.at name.now) &&
            is_op_planned (seen_files self.old).plan FileOp.Remove) }
        ensures gives { OnOk result (GivesRoom (seen_files self.old) (seen_files self.new)
            (if is_some ((seen_files self.old).told.seen.at name.now) then 1 else 0) 0) }
        ensures gives_none { OnErr result (GivesRoom (seen_files self.old) (seen_files self.new) 0
            0) }
    {
        let fails = self.planned.is_next(FileOp::Remove);
        if self.slots.file(name).is_some() && fails {
            self.tally.fault(name);
            return Err(Failed);
        }
        self.slots.remove(name);
        self.done.removed(name);
        Ok(())
    }

    /// Fails exactly where there is such a file and the call is listed or no number is free.
    fn open_read(&mut self, name: &FileName) -> Result<u32, NameRefused>
        ensures opened { IfOk result (λ number. Opens (seen_files self.old).told.seen
            (seen_files self.new).told.seen name.now number []) }
        ensures kept { OnErr result (Same (seen_files self.old).told.seen (seen_files self.new).told.seen) }
        ensures missing { IsErrOf result NameRefused.Missing
            ↔ IsNone ((seen_files self.old).told.seen.at name.now) }
        ensures not_exists { ¬ IsErrOf result NameRefused.Exists }
        ensures faults { CountsNamed (seen_files self.old).told.faults (seen_files self.new).told.faults
            result }
        ensures clashes { CountsClash (seen_files self.old).told.clashes (seen_files self.new).told.clashes
            result }
        ensures bytes_read { (seen_files self.new).told.bytes_read ≡ (seen_files self.old).told.bytes_read }
        ensures first { NamesFirstOf name.now (seen_files self.old).told.first
            (seen_files self.new).told.first result }
        ensures called { (seen_files self.new).plan ≡ after_op_call (seen_files self.old).plan
            FileOp.OpenRead }
        ensures listed { IsTrue (is_op_planned (seen_files self.old).plan FileOp.OpenRead)
            → IsErr result }
        ensures full { (seen_files self.old).free_numbers ≡ 0 → IsErr result }
        ensures fails { IsErrOf result NameRefused.Failed
            → IsTrue (is_op_planned (seen_files self.old).plan FileOp.OpenRead ||
            (seen_files self.old).free_numbers == 0) }
        ensures takes { OnOk result (TakesRoom (seen_files self.old) (seen_files self.new) 0 1) }
        ensures takes_none { OnErr result (TakesRoom (seen_files self.old) (seen_files self.new) 0
            0) }
    {
        let fails = self.planned.is_next(FileOp::OpenRead);
        match self.slots.file(name) {
            None => {
                self.tally.clash();
                Err(NameRefused::Missing)
            }
            Some(slot) => {
                if let Some(number) = self.numbers.free()
                    && !fails
                {
                    if self.readers.open(number, slot.bytes.as_slice()) {
                        self.numbers.assign(number, Usage::Reading(*name));
                        return Ok(number);
                    }
                    self.tally.fault(name);
                    return Err(NameRefused::Failed);
                }
                self.tally.fault(name);
                Err(NameRefused::Failed)
            }
        }
    }

    /// Fails exactly where the call is listed. Each other one gives as many bytes as there are and fit.
    fn read(&mut self, file: u32, into: &mut [u8]) -> Result<usize, Failed>
        requires { IsTrue ((seen_files self.old).told.seen.reads file) }
        ensures within { ReadsAtMost result into.new }
        ensures bytes { IfOk result (λ count. Reads (seen_files self.old).told.seen
            (seen_files self.new).told.seen file (take count into.new)) }
        ensures end { IfOk result (λ count. count ≡ 0 → 0 < length into.new
            → (seen_files self.new).told.seen.left file ≡ []) }
        ensures count { IfOk result (λ count. count ≡ min
            (length ((seen_files self.old).told.seen.left file)) (length into.old)) }
        ensures kept { OnErr result (Same (seen_files self.old).told.seen (seen_files self.new).told.seen) }
        ensures faults { CountsFault (seen_files self.old).told.faults (seen_files self.new).told.faults
            result }
        ensures clashes { (seen_files self.new).told.clashes ≡ (seen_files self.old).told.clashes }
        ensures bytes_read { IfOk result (λ count. RoseJustBy count (seen_files self.old).told.bytes_read
            (seen_files self.new).told.bytes_read) }
        ensures none_read { OnErr result ((seen_files self.new).told.bytes_read
            ≡ (seen_files self.old).told.bytes_read) }
        ensures first { NamesFirst ((seen_files self.old).told.seen.name_of file)
            (seen_files self.old).told.first (seen_files self.new).told.first result }
        ensures called { (seen_files self.new).plan ≡ after_op_call (seen_files self.old).plan
            FileOp.Read }
        ensures fails { IsErr result ↔ IsTrue (is_op_planned (seen_files self.old).plan
            FileOp.Read) }
        ensures takes_none { TakesRoom (seen_files self.old) (seen_files self.new) 0 0 }
    {
        match self.numbers.usage(file) {
            Usage::Reading(name) => {
                if self.planned.is_next(FileOp::Read) {
                    self.tally.fault(&name);
                    return Err(Failed);
                }
                let count = self.readers.read(file, into);
                self.bytes_read = self.bytes_read.saturating_add(count as u64);
                Ok(count)
            }
            _ => unreachable!(),
        }
    }

    fn first_fault(&self) -> Option<FileName> {
        self.tally.first_fault()
    }
}
