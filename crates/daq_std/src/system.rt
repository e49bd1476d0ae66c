//! The calls of the system on files and streams, one in each function. What they hand out says what the system did, and there is
//! no other way to have it than to ask the system. A fault is made here alone: of an error that the system told, of what is no
//! file, of a write that took no byte, of too many interruptions, and where no number is free.
ghost use Rattle.std.specs.Prelude.{◌≡◌, ◌≢◌, ◌<◌, ◌+◌, ◌-◌, ◌^◌, ◌↔◌, ◌++◌, ◌∷◌, [], IfErr, IfOk, IsErrAnd, IsOk, IsTrue, Err, Ok, OnErr, OnOk, length, string_bytes};
ghost use Rattle.std.specs.Fs.{IsFile, file_type};
ghost use Rattle.std.specs.Io.{ReadsAtMost, WritesAtMost};
ghost use Rattle.std.specs.Io.KnownBytes.{Appends, ReadConsumes, WriteAppends};
ghost use Rattle.std.specs.IoError.{error_kind};
ghost use Rattle.daq_io.specs.Seen.{close_state, was_left, was_removed};
ghost use Rattle.daq_io.specs.Uses.{free_numbers, use_at};
ghost use Rattle.daq_io.specs.declared.uses.Usage.TheVariants.{Free};
ghost use Rattle.daq_std.specs.Paths.{path_in};
ghost use Rattle.daq_std.specs.SystemCalls.{TellsKind, TookPart, TookWrite, left_so, reason_of};

use crate::again::{read_once, write_whole};
use crate::opening::open_to_read;
use daq_io::{ByteTrace, FileState, FileTrace, UseTable};
use daq_types::FileName;
use std::fs::{Metadata, OpenFile, OpenOptions};
use std::io::{self, ErrorKind, Read, Write};
use std::marker::Model;
use std::rt;
use std::snapshot::Snapshot;

/// What a fault says of the call, and of the name that it was on.
#[derive(Clone, Copy)]
pub enum Reason {
    /// There is something of that name.
    Taken,
    /// There is nothing of that name.
    Absent,
    /// A signal interrupted the call.
    Interrupted,
    /// None of these: the system told another error, or no number was free, or what bears the name is no file.
    Other,
}

/// Why a call on files or on a stream failed.
#[derive(Clone, Copy)]
pub struct Fault {
    reason: Reason,
}

/// What an error of this kind says.
fn reason_for(kind: ErrorKind) -> Reason
    ensures taken { (result ≡ Reason.Taken) ↔ (kind ≡ ErrorKind.AlreadyExists) }
    ensures absent { (result ≡ Reason.Absent) ↔ (kind ≡ ErrorKind.NotFound) }
    ensures interrupted { (result ≡ Reason.Interrupted) ↔ (kind ≡ ErrorKind.Interrupted) }
{
    match kind {
        ErrorKind::AlreadyExists => Reason::Taken,
        ErrorKind::NotFound => Reason::Absent,
        ErrorKind::Interrupted => Reason::Interrupted,
        _ => Reason::Other,
    }
}

/// The fault that an error of this kind is.
fn fault_of(kind: ErrorKind) -> Fault
    ensures { TellsKind kind result }
{
    Fault {
        reason: reason_for(kind),
    }
}

impl Fault {
    /// What it says.
    pub fn reason(&self) -> Reason
        ensures { result ≡ reason_of self.now }
    {
        self.reason
    }
}

/// The system removed the file under this path, or told that there is none.
#[derive(Drop)]
pub struct Removed {
    path: Snapshot<String>,
}

impl Model for Removed {
    ghost use Rattle.std.specs.Prelude.{List, string_bytes, ℕ};

    ghost Value = { List ℕ };

    ghost view = { λ r. string_bytes r.path.value };
}

/// A file of the system that is written no more: how it was opened, under which path; the bytes that the system took for it;
/// and how it was left.
#[derive(Drop)]
pub struct LeftFile {
    how: Snapshot<OpenOptions>,
    path: Snapshot<String>,
    taken: ByteTrace,
    state: FileState,
}

impl Model for LeftFile {
    ghost use Rattle.std.specs.Prelude.{string_bytes};
    ghost use Rattle.daq_io.specs.Seen.{stored_as};
    ghost use Rattle.daq_std.specs.SystemCalls.{OpenedThenLeft};

    ghost Value = { OpenedThenLeft };

    ghost view = { λ f. record {
      opening = record { how = f.how.value; path = string_bytes f.path.value };
      left = stored_as f.state f.taken;
    } };
}

impl LeftFile {
    /// Notes the file, which was opened under the path of this name of a folder.
    pub fn tell(self, done: &mut FileTrace, _folder: &str, name: &FileName)
        requires { self.opening.path ≡ path_in _folder.now name.now }
        ensures { done.new ≡ done.old ++ was_left name.now self.left ∷ [] }
    {
        done.left(name, self.taken, self.state);
    }
}

/// A file that was let go, and why.
#[derive(Drop)]
pub struct LetGo {
    pub file: LeftFile,
    pub fault: Fault,
}

/// The system put the names of the folder under a path on the disk, or told that it cannot do so for a folder; and before that
/// this file.
#[derive(Drop)]
pub struct NameOnDisk {
    folder: Snapshot<String>,
    file: Snapshot<LeftFile>,
}

impl Model for NameOnDisk {
    ghost use Rattle.std.specs.Prelude.{string_bytes};
    ghost use Rattle.daq_std.specs.SystemCalls.{KeptName};

    ghost Value = { KeptName };

    ghost view = { λ n. record {
      folder = string_bytes n.folder.value;
      file = n.file.value.opening.path;
    } };
}

/// What takes writes, and the bytes that it took of them, in order.
#[derive(Drop)]
pub struct TakingWriter<W> {
    writer: W,
    taken: ByteTrace,
}

impl<W> TakingWriter<W> {
    /// Nothing was taken yet.
    pub fn new(writer: W) -> TakingWriter<W>
        ensures { result ≡ record { writer = writer; taken = [] } }
    {
        TakingWriter {
            writer,
            taken: ByteTrace::new(),
        }
    }
}

/// A file of the system, which opened it so, under this path, and the bytes that the system took for it.
#[derive(Drop)]
pub struct SystemFile<F> {
    file: TakingWriter<F>,
    how: Snapshot<OpenOptions>,
    path: Snapshot<String>,
}

impl<F> Model for SystemFile<F> {
    ghost use Rattle.std.specs.Prelude.{string_bytes};
    ghost use Rattle.daq_std.specs.SystemCalls.{OpenedFile};

    ghost Value = { OpenedFile F };

    ghost view = { λ f. record {
      file = f.file.writer;
      opening = record { how = f.how.value; path = string_bytes f.path.value };
      handed = f.file.taken;
    } };
}

/// A file that the system has put on the disk.
#[derive(Drop)]
pub struct OnDisk<F> {
    file: SystemFile<F>,
}

impl<F> Model for OnDisk<F> {
    ghost use Rattle.daq_std.specs.SystemCalls.{OpenedFile};

    ghost Value = { OpenedFile F };

    ghost view = { λ d. d.file };
}

/// What the system answered, where its error is a fault of that kind.
fn told<T>(answer: io::Result<T>) -> Result<T, Fault>
    ensures done { IfOk answer (λ value. result ≡ Ok value) }
    ensures fault { IfErr answer (λ error. IsErrAnd result (TellsKind (error_kind error))) }
{
    match answer {
        Ok(value) => Ok(value),
        Err(error) => Err(fault_of(error.kind())),
    }
}

/// What the system answered, where its error is a fault of that kind, but for one that is as good as done.
fn told_unless(good: ErrorKind, answer: io::Result<()>) -> Result<(), Fault>
    ensures done { OnOk answer (IsOk result) }
    ensures good { IfErr answer (λ error. error_kind error ≡ good → IsOk result) }
    ensures fault { IfErr answer (λ error. error_kind error ≢ good → IsErrAnd result
        (TellsKind (error_kind error))) }
{
    match answer {
        Ok(()) => Ok(()),
        Err(error) => {
            if error.kind() == good {
                return Ok(());
            }
            Err(fault_of(error.kind()))
        }
    }
}

/// Refuses what is no file, such as a folder or a pipe.
fn regular(found: io::Result<Metadata>) -> Result<(), Fault>
    ensures file { IfOk found (λ metadata. IsOk result ↔ IsFile (file_type metadata)) }
    ensures other { IfOk found (λ metadata. ¬ IsFile (file_type metadata)
        → IsErrAnd result (TellsKind ErrorKind.InvalidInput)) }
    ensures fault { IfErr found (λ error. IsErrAnd result (TellsKind (error_kind error))) }
{
    if told(found)?.is_file() {
        return Ok(());
    }
    Err(fault_of(ErrorKind::InvalidInput))
}

/// Opens a file so.
pub fn open_as<R: rt::Files>(
    system: &R,
    how: &OpenOptions,
    path: &String,
) -> Result<SystemFile<R::File>, Fault>
    ensures opening { IfOk result (λ opened. opened.opening
        ≡ record { how = how.now; path = string_bytes path.now }) }
    ensures nothing { IfOk result (λ opened. opened.handed ≡ []) }
{
    Ok(SystemFile {
        file: TakingWriter::new(told(how.open(system, path.as_str()))?),
        how: Snapshot::of(how),
        path: Snapshot::of(path),
    })
}

/// Refuses what is no file under this path.
pub fn look_at<R: rt::Files>(system: &R, path: &String) -> Result<(), Fault> {
    regular(system.metadata(path.as_str()))
}

/// Removes the file of this name of a folder, and notes it. That there is none is as good.
pub fn remove_file<R: rt::Files>(
    system: &R,
    path: &String,
    done: &mut FileTrace,
    _folder: &str,
    name: &FileName,
) -> Result<Removed, Fault>
    requires { string_bytes path.now ≡ path_in _folder.now name.now }
    ensures removed { IfOk result (λ removed. removed ≡ string_bytes path.now) }
    ensures done { OnOk result (done.new ≡ done.old ++ was_removed name.now ∷ []) }
    ensures kept { OnErr result (done.new ≡ done.old) }
{
    told_unless(ErrorKind::NotFound, system.remove_file(path.as_str()))?;
    done.removed(name);
    Ok(Removed {
        path: Snapshot::of(path),
    })
}

/// Has the system put the names of a folder on the disk. That it cannot do so for a folder is as good.
fn sync_names<R: rt::Files>(system: &R, path: &String) -> Result<(), Fault> {
    let folder = open_to_read(system, path)?;
    told_unless(ErrorKind::InvalidInput, folder.file.writer.sync_all())
}

/// Has the system put the names of a folder on the disk, behind a file, and answers how that file is left: closed where the
/// system did.
pub fn sync_folder<R: rt::Files>(
    system: &R,
    path: &String,
    file: OnDisk<R::File>,
) -> (Result<NameOnDisk, Fault>, LeftFile)
    ensures kept { IfOk result.0 (λ kept. kept
        ≡ record { folder = string_bytes path.now; file = file.opening.path }) }
    ensures left { result.1 ≡ left_so (close_state result.0) file }
{
    match sync_names(system, path) {
        Ok(()) => {
            let closed = file.file.leave(FileState::Closed);
            let kept = NameOnDisk {
                folder: Snapshot::of(path),
                file: Snapshot::of(&closed),
            };
            (Ok(kept), closed)
        }
        Err(fault) => (Err(fault), file.file.leave(FileState::InVain)),
    }
}

/// Reads, by one call.
pub fn read_from<R: Read>(reader: &mut R, into: &mut [u8]) -> Result<usize, Fault>
    ensures within { ReadsAtMost result into.new }
    ensures bytes { ReadConsumes (R.remaining reader.old) (R.remaining reader.new) result
        into.new }
{
    told(reader.read(into))
}

/// How many bytes a write took, by whether there was one to take: that none is taken then is a fault.
fn taken(count: usize, some: bool) -> Result<usize, Fault>
    ensures count { IfOk result (λ n. (n ≡ count) × (IsTrue some → 0 < count)) }
    ensures none { OnErr result (count ≡ 0) }
    ensures fault { count ≡ 0 → IsTrue some → IsErrAnd result (TellsKind ErrorKind.WriteZero) }
{
    if count == 0 && some {
        return Err(fault_of(ErrorKind::WriteZero));
    }
    Ok(count)
}

/// Writes, by one call, and notes what was taken. That no byte is taken, where there is one, is a fault.
pub fn write_to<W: Write>(to: &mut TakingWriter<W>, bytes: &[u8]) -> Result<usize, Fault>
    ensures within { WritesAtMost result bytes.now }
    ensures some { IfOk result (λ count. 0 < length bytes.now → 0 < count) }
    ensures bytes { WriteAppends (W.contents to.old.writer) (W.contents to.new.writer) result
        bytes.now }
    ensures taken { TookWrite to.old.taken to.new.taken result bytes.now }
{
    let count = told(to.writer.write(bytes))?;
    to.taken.more(bytes, count);
    taken(count, !bytes.is_empty())
}

impl<F: Read> SystemFile<F> {
    /// Reads from the file.
    pub fn read(&mut self, into: &mut [u8]) -> Result<usize, Fault>
        ensures within { ReadsAtMost result into.new }
        ensures bytes { ReadConsumes (F.remaining self.old.file) (F.remaining self.new.file) result
            into.new }
        ensures opening { self.new.opening ≡ self.old.opening }
        ensures handed { self.new.handed ≡ self.old.handed }
    {
        read_once(&mut self.file.writer, into)
    }
}

impl<F: Write> SystemFile<F> {
    /// Writes all of the bytes to the file. After a failure the system took the front of them.
    pub fn write_all(&mut self, bytes: &[u8]) -> Result<(), Fault>
        ensures bytes { OnOk result (Appends (F.contents self.old.file) (F.contents self.new.file)
            bytes.now) }
        ensures handed { OnOk result (self.new.handed ≡ self.old.handed ++ bytes.now) }
        ensures part { OnErr result (TookPart (F.contents self.old.file)
            (F.contents self.new.file) self.old.handed self.new.handed bytes.now) }
        ensures opening { self.new.opening ≡ self.old.opening }
    {
        write_whole(&mut self.file, bytes)
    }
}

impl<F: OpenFile + Drop> SystemFile<F> {
    /// Refuses what is no file.
    pub fn look(&self) -> Result<(), Fault> {
        regular(self.file.writer.metadata())
    }

    /// Has the system put all of the file on the disk. Where it does not, the file is let go.
    pub fn sync(self) -> Result<OnDisk<F>, LetGo>
        ensures synced { IfOk result (λ synced. synced ≡ self) }
        ensures gone { IfErr result (λ gone. gone.file ≡ left_so FileState.InVain self) }
    {
        match told(self.file.writer.sync_all()) {
            Ok(()) => Ok(OnDisk { file: self }),
            Err(fault) => Err(self.let_go(fault)),
        }
    }

    /// Lets the file go, for this fault.
    pub fn let_go(self, fault: Fault) -> LetGo
        ensures file { result.file ≡ left_so FileState.InVain self }
        ensures fault { result.fault ≡ fault }
    {
        LetGo {
            file: self.leave(FileState::InVain),
            fault,
        }
    }

    /// What is left of the file, which is written no more.
    fn leave(self, state: FileState) -> LeftFile
        ensures { result ≡ left_so state self }
    {
        LeftFile {
            how: self.how,
            path: self.path,
            taken: self.file.taken,
            state,
        }
    }
}

/// How often in a row a signal has interrupted a call that is made again.
#[derive(Drop)]
pub struct Interruptions {
    count: u64,
}

impl Model for Interruptions {
    ghost use Rattle.std.specs.Prelude.{ℕ};

    ghost Value = { ℕ };

    ghost view = { λ i. i.count };
}

impl Interruptions {
    /// None.
    pub fn new() -> Interruptions
        ensures { result ≡ 0 }
    {
        Interruptions { count: 0 }
    }

    /// Counts this fault, where it is an interruption; the call is then to be made again. Any other is handed back. Behind
    /// 2^64 - 1 interruptions one more is a fault that is none.
    pub fn count(&mut self, fault: Fault) -> Result<(), Fault>
        ensures counted { OnOk result (self.new ≡ self.old + 1) }
        ensures interrupted { OnOk result (reason_of fault ≡ Reason.Interrupted) }
        ensures again { reason_of fault ≡ Reason.Interrupted → self.old < 2 ^ 64 - 1 → IsOk result }
        ensures other { reason_of fault ≢ Reason.Interrupted → result ≡ Err fault }
        ensures no_longer { IfErr result (λ left. reason_of left ≢ Reason.Interrupted) }
        ensures bounded { OnOk result (self.new < 2 ^ 64) }
    {
        match fault.reason {
            Reason::Interrupted => match self.count.checked_add(1) {
                Some(count) => {
                    self.count = count;
                    Ok(())
                }
                None => Err(fault_of(ErrorKind::TimedOut)),
            },
            Reason::Taken | Reason::Absent | Reason::Other => Err(fault),
        }
    }
}

/// A number that is in no use.
pub fn free_number(numbers: &UseTable) -> Result<u32, Fault>
    ensures inside { IfOk result (λ number. number < length numbers.now.uses.items) }
    ensures free { IfOk result (λ number. use_at numbers.now.uses.items number ≡ Free) }
    ensures none { OnErr result (free_numbers numbers.now.uses.items ≡ 0) }
    ensures other { IfErr result (TellsKind ErrorKind.ResourceBusy) }
{
    match numbers.free() {
        Some(number) => Ok(number),
        None => Err(fault_of(ErrorKind::ResourceBusy)),
    }
}
