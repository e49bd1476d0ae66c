//! The file of a run that is being written, and how the next one is begun.

ghost use Rattle.std.specs.Prelude.{ℕ, ◌≡◌, ◌≢◌, ◌≤◌, ◌<◌, ◌+◌, ◌^◌, ◌⊎◌, ◌↔◌, [], List, false, IsTrue, IsSome, IsErrOf, OnOk, OnErr, IfOk, IfErr, length};
ghost use Rattle.daq_types.specs.declared.events.Event.{Event};
ghost use Rattle.event.specs.Events.{encoding, record_limit};
ghost use Rattle.event.specs.RunFile.{begun_file, end_record as end_event};
ghost use Rattle.daq_io.specs.Counts.{CountsFault, CountsNamed, CountsClash, NamesFirst, NamesFirstOf, Rose, first_of};
ghost use Rattle.daq_io.specs.declared.folder.FileState.TheVariants.{Closed};
ghost use Rattle.daq_io.specs.Seen.{Same, Creates, Extends, Closes};
ghost use Rattle.sub_files.specs.RecordFiles.{ClosesAnyhow, ClosesPart, NamesMore, UndoesFile, RoseTwice, RemovesNames, AreGone, LeavesForFaults, NamesOneOf};
ghost use Rattle.sub_files.specs.Patterns.{piece_name_by};
ghost use Rattle.sub_files.specs.Pieces.{Series, IsOpenPiece, HoldsRun, HasRun, HasPart, HoldsMore, HasPartOfMore, series_of, begin_bytes};
ghost use Rattle.sub_files.specs.Rolls.{begins_next, counted_in, first_file, next_file, FindsNameTaken, RollsAt, RollsOn, MakesReady, WritesNext, FailsRoll, FailsMove, FailsNext, AppendsNone, ClashesBy, RisesWith, NamesOne, fallen_at};

use crate::pattern::Pattern;
use crate::record_files::{append_record, begin_file, end_file};
use daq_io::{Failed, Files, NameRefused};
use mid_format::begin_record;

/// The greatest number of a file of a run.
const LAST_NUMBER: u32 = 9999;

/// The run number and the time of the records that begin a run's files.
#[derive(Clone, Copy)]
pub struct RunHead {
    /// The run number.
    pub run: u32,
    /// The time of its start, in seconds.
    pub time: u32,
}

/// The file of a run that is being written.
#[derive(Clone, Copy)]
pub struct OpenFile {
    /// The number under which it is written.
    pub file: u32,
    /// Its number in the run, from 0 to 9999.
    pub sub: u32,
    /// Its bytes, where there is a limit.
    pub bytes: u64,
    /// Whether the name of the next file was found taken.
    pub taken: bool,
}

/// What a failed call left of a run's files, all of which are closed.
#[derive(Clone, Copy)]
pub struct Fallen {
    /// How many were made.
    pub files: u32,
    /// How many of these, the first ones, have both records and were closed without a fault.
    pub framed: u32,
}

/// Closes a file behind a call that failed, whatever that is answered.
fn close_behind<F: Files>(files: &mut F, file: u32)
    requires writes { IsTrue ((F.told files.old).seen.writes file) }
    ensures closes { ClosesAnyhow (F.told files.old).seen (F.told files.new).seen file }
    ensures faults { (F.told files.old).faults ≤ (F.told files.new).faults }
    ensures clashes { (F.told files.new).clashes ≡ (F.told files.old).clashes }
    ensures first { NamesMore ((F.told files.old).seen.name_of file) (F.told files.old).first
        (F.told files.new).first }
{
    let _ = files.close(file);
}

impl OpenFile {
    /// Whether the next file is begun before so many bytes are written, where a begin record has a dump of this length.
    fn begins_next(self, limit: u32, dump: usize, size: usize) -> bool
        requires { dump ≤ record_limit }
        ensures { result ≡ begins_next limit (16 + dump) self size }
    {
        0 < limit
            && (16 + dump as u64) < self.bytes
            && u64::from(limit) < self.bytes.saturating_add(size as u64)
            && self.sub < LAST_NUMBER
            && !self.taken
    }

    /// The file with so many bytes more, which are counted where there is a limit.
    fn counted(self, limit: u32, size: usize) -> OpenFile
        ensures { result ≡ counted_in limit self size }
    {
        if 0 < limit {
            OpenFile {
                file: self.file,
                sub: self.sub,
                bytes: self.bytes.saturating_add(size as u64),
                taken: self.taken,
            }
        } else {
            self
        }
    }

    /// Writes the begin record of the next file, which was made, behind the end of this one. Where that fails the file is closed.
    fn begin_next<F: Files>(
        self,
        files: &mut F,
        file: u32,
        head: RunHead,
        dump: &[u8],
    ) -> Result<OpenFile, Fallen>
        requires writes { IsTrue ((F.told files.old).seen.writes file) }
        requires small { length dump.now ≤ record_limit }
        requires few { self.sub < 9999 }
        ensures begins { OnOk result (Extends (F.told files.old).seen (F.told files.new).seen file
            (begin_bytes head dump.now)) }
        ensures ready { IfOk result (λ ready. ready ≡ next_file dump.now self file) }
        ensures fails { OnErr result (ClosesPart (F.told files.old).seen (F.told files.new).seen file
            (begin_bytes head dump.now)) }
        ensures fallen { IfErr result (λ fallen. fallen
            ≡ fallen_at (self.sub + 2) (self.sub + 1)) }
        ensures many { IfErr result (λ fallen. fallen.files ≤ 10000) }
        ensures faults { CountsFault (F.told files.old).faults (F.told files.new).faults result }
        ensures clashes { (F.told files.new).clashes ≡ (F.told files.old).clashes }
        ensures first { NamesFirst ((F.told files.old).seen.name_of file) (F.told files.old).first
            (F.told files.new).first result }
    {
        let header = begin_record(head.run, head.time, dump.len() as u32);
        match append_record(files, file, &header, dump) {
            Ok(()) => Ok(OpenFile {
                file,
                sub: self.sub + 1,
                bytes: 16 + dump.len() as u64,
                taken: false,
            }),
            Err(Failed) => {
                close_behind(files, file);
                Err(Fallen {
                    files: self.sub + 2,
                    framed: self.sub + 1,
                })
            }
        }
    }

    /// Ends this file and begins the next one, which was made. Where either fails both are closed.
    fn roll<F: Files>(
        self,
        files: &mut F,
        file: u32,
        head: RunHead,
        dump: &[u8],
    ) -> Result<OpenFile, Fallen>
        requires old { IsTrue ((F.told files.old).seen.writes self.file) }
        requires writes { IsTrue ((F.told files.old).seen.writes file) }
        requires apart { self.file ≢ file }
        requires small { length dump.now ≤ record_limit }
        requires few { self.sub < 9999 }
        ensures rolls { IfOk result (λ ready. RollsAt head dump.now self ready file
            (F.told files.old).seen (F.told files.new).seen) }
        ensures fails { IfErr result (λ fallen. FailsRoll head dump.now self file fallen
            (F.told files.old).seen (F.told files.new).seen) }
        ensures many { IfErr result (λ fallen. fallen.files ≤ 10000) }
        ensures faults { CountsFault (F.told files.old).faults (F.told files.new).faults result }
        ensures clashes { (F.told files.new).clashes ≡ (F.told files.old).clashes }
        ensures quiet { OnOk result ((F.told files.new).first ≡ (F.told files.old).first) }
        ensures first { OnErr result (NamesOne ((F.told files.old).seen.name_of self.file)
            ((F.told files.old).seen.name_of file) (F.told files.old).first (F.told files.new).first) }
    {
        match end_file(files, self.file, head.run, head.time, &[]) {
            Ok(()) => self.begin_next(files, file, head, dump),
            Err(Failed) => {
                close_behind(files, file);
                Err(Fallen {
                    files: self.sub + 2,
                    framed: self.sub,
                })
            }
        }
    }

    /// Goes on in the next file, or past the limit where its name is taken. Where a call fails all that is open is closed.
    fn move_on<F: Files>(
        self,
        files: &mut F,
        pattern: &Pattern,
        head: RunHead,
        dump: &[u8],
    ) -> Result<OpenFile, Fallen>
        requires old { IsTrue ((F.told files.old).seen.writes self.file) }
        requires small { length dump.now ≤ record_limit }
        requires few { self.sub < 9999 }
        ensures moves { IfOk result (λ ready.
            FindsNameTaken (piece_name_by pattern.now head.run (self.sub + 1)) self ready
            (F.told files.old).seen (F.told files.new).seen
            ⊎ RollsOn (piece_name_by pattern.now head.run (self.sub + 1)) head dump.now self ready
            (F.told files.old).seen (F.told files.new).seen) }
        ensures fails { IfErr result (λ fallen.
            FailsMove (piece_name_by pattern.now head.run (self.sub + 1)) head dump.now self fallen
            (F.told files.old).seen (F.told files.new).seen) }
        ensures many { IfErr result (λ fallen. fallen.files ≤ 10000) }
        ensures faults { CountsFault (F.told files.old).faults (F.told files.new).faults result }
        ensures taken { IfOk result (λ ready.
            ClashesBy false ready.taken (F.told files.old).clashes (F.told files.new).clashes) }
        ensures clashes { OnErr result ((F.told files.new).clashes ≡ (F.told files.old).clashes) }
        ensures quiet { OnOk result ((F.told files.new).first ≡ (F.told files.old).first) }
        ensures first { OnErr result (NamesOne ((F.told files.old).seen.name_of self.file)
            (piece_name_by pattern.now head.run (self.sub + 1)) (F.told files.old).first
            (F.told files.new).first) }
    {
        let next = pattern.name(head.run, self.sub + 1);
        match files.create(&next) {
            Ok(file) => self.roll(files, file, head, dump),
            Err(NameRefused::Exists) => Ok(OpenFile {
                file: self.file,
                sub: self.sub,
                bytes: self.bytes,
                taken: true,
            }),
            Err(NameRefused::Failed) => {
                close_behind(files, self.file);
                Err(Fallen {
                    files: self.sub + 1,
                    framed: self.sub,
                })
            }
            Err(NameRefused::Missing) => unreachable!(),
        }
    }

    /// Appends an event. Where that fails the file is closed.
    fn append<F: Files>(self, files: &mut F, limit: u32, event: &[u8]) -> Result<OpenFile, Fallen>
        requires writes { IsTrue ((F.told files.old).seen.writes self.file) }
        requires few { self.sub ≤ 9999 }
        ensures writes { OnOk result (Extends (F.told files.old).seen (F.told files.new).seen self.file
            event.now) }
        ensures later { IfOk result (λ later. later
            ≡ counted_in limit self (length event.now)) }
        ensures fails { IfErr result (λ fallen. AppendsNone self event.now fallen
            (F.told files.old).seen (F.told files.new).seen) }
        ensures many { IfErr result (λ fallen. fallen.files ≤ 10000) }
        ensures faults { CountsFault (F.told files.old).faults (F.told files.new).faults result }
        ensures clashes { (F.told files.new).clashes ≡ (F.told files.old).clashes }
        ensures first { NamesFirst ((F.told files.old).seen.name_of self.file) (F.told files.old).first
            (F.told files.new).first result }
    {
        match files.append(self.file, event) {
            Ok(()) => Ok(self.counted(limit, event.len())),
            Err(Failed) => {
                close_behind(files, self.file);
                Err(Fallen {
                    files: self.sub + 1,
                    framed: self.sub,
                })
            }
        }
    }

    /// Makes the file ready for so many bytes more: where they do not fit in, it goes on in the next one.
    fn make_ready<F: Files>(
        self,
        files: &mut F,
        pattern: &Pattern,
        limit: u32,
        head: RunHead,
        dump: &[u8],
        size: usize,
    ) -> Result<OpenFile, Fallen>
        requires file { IsOpenPiece (F.told files.old).seen
            (series_of pattern.now limit head dump.now) self }
        requires small { length dump.now ≤ record_limit }
        ensures moves { IfOk result (λ ready.
            MakesReady (series_of pattern.now limit head dump.now) self ready size
            (F.told files.old).seen (F.told files.new).seen) }
        ensures begins { OnErr result
            (IsTrue (begins_next limit (16 + length dump.now) self size)) }
        ensures fails { IfErr result (λ fallen.
            FailsMove (piece_name_by pattern.now head.run (self.sub + 1)) head dump.now self fallen
            (F.told files.old).seen (F.told files.new).seen) }
        ensures file { IfOk result (λ ready. IsOpenPiece (F.told files.new).seen
            (series_of pattern.now limit head dump.now) ready) }
        ensures many { IfErr result (λ fallen. fallen.files ≤ 10000) }
        ensures faults { CountsFault (F.told files.old).faults (F.told files.new).faults result }
        ensures taken { IfOk result (λ ready.
            ClashesBy self.taken ready.taken (F.told files.old).clashes (F.told files.new).clashes) }
        ensures clashes { OnErr result ((F.told files.new).clashes ≡ (F.told files.old).clashes) }
        ensures quiet { OnOk result ((F.told files.new).first ≡ (F.told files.old).first) }
        ensures first { OnErr result (NamesOne (piece_name_by pattern.now head.run self.sub)
            (piece_name_by pattern.now head.run (self.sub + 1)) (F.told files.old).first
            (F.told files.new).first) }
        ensures unlimited { limit ≡ 0 → IfOk result (λ ready. ready ≡ self) }
    {
        if self.begins_next(limit, dump.len(), size) {
            self.move_on(files, pattern, head, dump)
        } else {
            Ok(self)
        }
    }

    /// Writes an event, as `write` does, whose bytes may be any.
    fn write_bytes<F: Files>(
        &mut self,
        files: &mut F,
        pattern: &Pattern,
        limit: u32,
        head: RunHead,
        dump: &[u8],
        event: &[u8],
    ) -> Result<(), Fallen>
        requires file { IsOpenPiece (F.told files.old).seen
            (series_of pattern.now limit head dump.now) self.old }
        requires small { length dump.now ≤ record_limit }
        ensures wrote { OnOk result
            (WritesNext (series_of pattern.now limit head dump.now) self.old self.new event.now
            (F.told files.old).seen (F.told files.new).seen) }
        ensures fails { IfErr result (λ fallen.
            FailsNext (series_of pattern.now limit head dump.now) self.old event.now fallen
            (F.told files.old).seen (F.told files.new).seen) }
        ensures file { OnOk result (IsOpenPiece (F.told files.new).seen
            (series_of pattern.now limit head dump.now) self.new) }
        ensures many { IfErr result (λ fallen. fallen.files ≤ 10000) }
        ensures faults { CountsFault (F.told files.old).faults (F.told files.new).faults result }
        ensures taken { OnOk result
            (ClashesBy self.old.taken self.new.taken (F.told files.old).clashes (F.told files.new).clashes) }
        ensures clashes { RisesWith limit (F.told files.old).clashes (F.told files.new).clashes }
        ensures quiet { OnOk result ((F.told files.new).first ≡ (F.told files.old).first) }
        ensures first { OnErr result (NamesOne (piece_name_by pattern.now head.run self.old.sub)
            (piece_name_by pattern.now head.run (self.old.sub + 1)) (F.told files.old).first
            (F.told files.new).first) }
        ensures own_first { limit ≡ 0 → OnErr result ((F.told files.new).first
            ≡ first_of (F.told files.old).first (piece_name_by pattern.now head.run self.old.sub)) }
    {
        match self.make_ready(files, pattern, limit, head, dump, event.len()) {
            Ok(ready) => match ready.append(files, limit, event) {
                Ok(later) => {
                    *self = later;
                    Ok(())
                }
                Err(fallen) => Err(fallen),
            },
            Err(fallen) => Err(fallen),
        }
    }

    /// Writes an event of the run whose files have these records at their front. Where the file has an event and would grow
    /// past the limit, 0 of which is none, it is ended with the begin's time and an empty dump, and the next one is made and
    /// begun before; but not where its number is 9999, or the name of the next file is taken, which the file remembers. Where a
    /// call on the files fails, those that are open are closed, and the answer tells how many there are.
    pub fn write<F: Files>(
        &mut self,
        files: &mut F,
        pattern: &Pattern,
        limit: u32,
        head: RunHead,
        dump: &[u8],
        event: &[u8],
    ) -> Result<(), Fallen>
        requires file { IsOpenPiece (F.told files.old).seen
            (series_of pattern.now limit head dump.now) self.old }
        requires small { length dump.now ≤ record_limit }
        ensures wrote { OnOk result
            (WritesNext (series_of pattern.now limit head dump.now) self.old self.new event.now
            (F.told files.old).seen (F.told files.new).seen) }
        ensures fails { IfErr result (λ fallen.
            FailsNext (series_of pattern.now limit head dump.now) self.old event.now fallen
            (F.told files.old).seen (F.told files.new).seen) }
        ensures file { OnOk result (IsOpenPiece (F.told files.new).seen
            (series_of pattern.now limit head dump.now) self.new) }
        ensures many { IfErr result (λ fallen. fallen.files ≤ 10000) }
        ensures faults { CountsFault (F.told files.old).faults (F.told files.new).faults result }
        ensures taken { OnOk result
            (ClashesBy self.old.taken self.new.taken (F.told files.old).clashes (F.told files.new).clashes) }
        ensures clashes { RisesWith limit (F.told files.old).clashes (F.told files.new).clashes }
        ensures quiet { OnOk result ((F.told files.new).first ≡ (F.told files.old).first) }
        ensures first { OnErr result (NamesOne (piece_name_by pattern.now head.run self.old.sub)
            (piece_name_by pattern.now head.run (self.old.sub + 1)) (F.told files.old).first
            (F.told files.new).first) }
        ensures own_first { limit ≡ 0 → OnErr result ((F.told files.new).first
            ≡ first_of (F.told files.old).first (piece_name_by pattern.now head.run self.old.sub)) }
        ensures holds { OnOk result
            (HoldsMore (series_of pattern.now limit head dump.now) self.old self.new event.now
            (F.told files.old).seen (F.told files.new).seen) }
        ensures part { IfErr result (λ fallen.
            HasPartOfMore (series_of pattern.now limit head dump.now) self.old fallen event.now
            (F.told files.old).seen (F.told files.new).seen) }
    {
        self.write_bytes(files, pattern, limit, head, dump, event)
    }

    /// Makes the first file of a run and writes its begin record. Where that fails, no file of this name is left, unless the
    /// removing fails too.
    pub fn begin<F: Files>(
        files: &mut F,
        pattern: &Pattern,
        head: RunHead,
        dump: &[u8],
    ) -> Result<OpenFile, NameRefused>
        requires small { length dump.now ≤ record_limit }
        ensures begun { IfOk result (λ begun. Creates (F.told files.old).seen (F.told files.new).seen
            (piece_name_by pattern.now head.run 0) begun.file
            (begun_file head.run head.time dump.now [])) }
        ensures number { IfOk result (λ begun. begun ≡ first_file dump.now begun.file) }
        ensures exists { IsTrue (F.told files.old).seen.names → (IsErrOf result NameRefused.Exists
            ↔ IsSome ((F.told files.old).seen.at (piece_name_by pattern.now head.run 0))) }
        ensures not_missing { ¬ IsErrOf result NameRefused.Missing }
        ensures kept { IsErrOf result NameRefused.Exists
            → Same (F.told files.old).seen (F.told files.new).seen }
        ensures undone { IsErrOf result NameRefused.Failed → UndoesFile RoseTwice
            (F.told files.old).seen (F.told files.new).seen (piece_name_by pattern.now head.run 0)
            (F.told files.old).faults (F.told files.new).faults }
        ensures faults { CountsNamed (F.told files.old).faults (F.told files.new).faults result }
        ensures clashes { CountsClash (F.told files.old).clashes (F.told files.new).clashes result }
        ensures first { NamesFirstOf (piece_name_by pattern.now head.run 0) (F.told files.old).first
            (F.told files.new).first result }
        ensures holds { IfOk result (λ begun. (limit : ℕ) → limit < 2 ^ 32 →
            HoldsRun (F.told files.new).seen (series_of pattern.now limit head dump.now) begun []) }
    {
        let name = pattern.name(head.run, 0);
        match begin_file(files, &name, head.run, head.time, dump) {
            Ok(file) => Ok(OpenFile {
                file,
                sub: 0,
                bytes: 16 + dump.len() as u64,
                taken: false,
            }),
            Err(why) => Err(why),
        }
    }

    /// Ends the run: the file gets its end record, of this time and with this dump, and is closed, also where a call on it fails.
    pub fn end_run<F: Files>(
        self,
        files: &mut F,
        head: RunHead,
        time: u32,
        dump: &[u8],
    ) -> Result<(), Fallen>
        requires writes { IsTrue ((F.told files.old).seen.writes self.file) }
        requires small { length dump.now ≤ record_limit }
        requires few { self.sub ≤ 9999 }
        ensures whole { OnOk result (Closes (F.told files.old).seen (F.told files.new).seen self.file Closed
            (encoding (end_event head.run time dump.now))) }
        ensures part { OnErr result (ClosesPart (F.told files.old).seen (F.told files.new).seen self.file
            (encoding (end_event head.run time dump.now))) }
        ensures fallen { IfErr result (λ fallen. fallen ≡ fallen_at (self.sub + 1) self.sub) }
        ensures faults { CountsFault (F.told files.old).faults (F.told files.new).faults result }
        ensures clashes { (F.told files.new).clashes ≡ (F.told files.old).clashes }
        ensures first { NamesFirst ((F.told files.old).seen.name_of self.file) (F.told files.old).first
            (F.told files.new).first result }
        ensures run { OnOk result ((s : Series) → (events : List Event) →
            HoldsRun (F.told files.old).seen s self events →
            HasRun (F.told files.new).seen s (self.sub + 1) self.taken
            (encoding (end_event head.run time dump.now)) events) }
        ensures broken { IfErr result (λ fallen. (s : Series) → (events : List Event) →
            HoldsRun (F.told files.old).seen s self events →
            HasPart (F.told files.new).seen s fallen (encoding (end_event head.run time dump.now))
            events) }
    {
        match end_file(files, self.file, head.run, time, dump) {
            Ok(()) => Ok(()),
            Err(Failed) => Err(Fallen {
                files: self.sub + 1,
                framed: self.sub,
            }),
        }
    }
}

/// Removes so many files of a run, by rising number. It goes on behind one that cannot be removed.
pub fn remove_files<F: Files>(
    files: &mut F,
    pattern: &Pattern,
    run: u32,
    many: u32,
) -> Result<(), Failed>
    requires few { many ≤ 10000 }
    ensures removes { RemovesNames (piece_name_by pattern.now run) many
        (F.told files.old).seen (F.told files.new).seen }
    ensures gone { OnOk result
        (AreGone (F.told files.old).seen (F.told files.new).seen (piece_name_by pattern.now run) many) }
    ensures leaves { LeavesForFaults (piece_name_by pattern.now run) many (F.told files.old).seen
        (F.told files.new).seen (F.told files.old).faults (F.told files.new).faults }
    ensures faults { CountsFault (F.told files.old).faults (F.told files.new).faults result }
    ensures clashes { (F.told files.new).clashes ≡ (F.told files.old).clashes }
    ensures quiet { OnOk result ((F.told files.new).first ≡ (F.told files.old).first) }
    ensures first { OnErr result (NamesOneOf (piece_name_by pattern.now run) many
        (F.told files.old).first (F.told files.new).first) }
{
    let mut answer = Ok(());
    for sub in 0..many {
        match files.remove(&pattern.name(run, sub)) {
            Ok(()) => {}
            Err(failed) => answer = Err(failed),
        }
    }
    answer
}
