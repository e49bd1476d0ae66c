ghost use Rattle.std.specs.Prelude.{◌≡◌, ◌≤◌, ◌<◌, ℕ, List, [], if◌then◌else◌, length, map, unwrap_or, Option, Some, None, IfOk, IfSome};
ghost use Rattle.event.specs.Events.{record_limit};
ghost use Rattle.daq_io.specs.Seen.{Seen};
ghost use Rattle.daq_io.specs.Told.{FilesTold};
ghost use Rattle.buffer_core.specs.Ports.{Access};
ghost use Rattle.buffer_core.specs.Slots.{some_slot};
ghost use Rattle.member_model.specs.Turns.{MemberTurn};
ghost use Rattle.daq_types.specs.declared.runs.Transition.TheVariants.{Start, Stop, Pause, Resume, StartAbort};
ghost use Rattle.transitions.specs.declared.answers.Answer.TheVariants.{Yes};
ghost use Rattle.transitions.specs.declared.answers.Tally.TheVariants.{Plain};
ghost use Rattle.loggers.specs.Moments.{moment_of, IsLoggerReady, HaveFilesOpen, AreIdleChannels, AreSamePorts};
ghost use Rattle.loggers.specs.Turning.{logger_turned, TakesTurn, TakesStart, TakesStop, TakesMark, TakesAbort, StartsLogger, PausesBuffer, ResumesBuffer, is_run_on, is_started, is_of_start, buffers_begun, IsIdleOutside, start_answer, start_part, start_dumps, no_dumps, DumpsFit};
ghost use Rattle.loggers.specs.Finishing.{FinishesLogger, logger_finished};
ghost use Rattle.loggers.specs.SlotPulls.{HasEventRoom, PullsNumbered};
ghost use Rattle.loggers.specs.NewLoggers.{HaveNumbers, HasNewChannels, HavePorts, AreUnused, HaveRooms};
ghost use Rattle.loggers.specs.LoggerCalls.{KeepsLoggerCalls};
ghost use Rattle.loggers.specs.LoggerFaults.{HasFailed, NotesFaults};
ghost use Rattle.loggers.specs.LoggerLaws.{StandsAfterTurn, StandsAfterFinish};
ghost use Rattle.loggers.specs.LoggerStands.{LoggerStands};
ghost use Rattle.loggers.specs.Reasons.{GivesReasons};

use crate::endings::{end_files, stop_time};
use crate::laws as logger_laws;
use crate::logged_run::{LoggedRun, RunDumps, RunPart};
use crate::marks::{end_first, pause_all, resume_all};
use crate::slots::{ChannelSpecs, Ports, Slots, any_failed, are_settled, new_channels};
use crate::starting::{abort_all, start_run};
use crate::steps::pull_at;
use buffer_core::BufferPort;
use daq_io::Files;
use daq_types::{Bytes, NoMemory, Order, Transition, Why};
use member_model::{Answer, Tally};
use mid_logger::{Pulled, laws as channel_laws};
use std::alloc::Global;
use std::sync::Wait;

/// The logger: it takes part in runs by its turns, and its channels write the events of each run into run files.
/// Only `new` takes memory.
#[derive(Drop)]
pub struct Logger {
    /// Its channels, each at its number.
    pub channels: Slots,
    /// The run that it was last told to start, until that is over.
    pub run: Option<LoggedRun>,
    /// The dumps of that run.
    pub dumps: RunDumps,
}

/// Whether a run is on: its start was accepted, and its stop is not answered.
fn has_run(run: Option<LoggedRun>) -> bool
    ensures { result ≡ is_run_on run }
{
    match run {
        None => false,
        Some(run) => run.part != RunPart::Refused,
    }
}

/// Whether the start with this number was accepted, and no stop of it has come.
fn goes_on(run: Option<LoggedRun>, start: u32) -> bool
    ensures { result ≡ is_started run start }
{
    match run {
        None => false,
        Some(run) => run.part == RunPart::Started && run.start == start,
    }
}

/// In how many buffers the start with this number is begun; None where the logger was not last told to start that.
fn begun_in(run: Option<LoggedRun>, start: u32) -> Option<usize>
    ensures { result ≡ (if is_of_start run start then Some (buffers_begun run) else None) }
{
    let run = run?;
    if run.start != start {
        return None;
    }
    Some(run.begun)
}

/// The bytes of a dump; none without one.
fn bytes_of(dump: &Option<Bytes>) -> &[u8]
    ensures { result.now ≡ unwrap_or dump.now [] }
{
    match dump {
        Some(bytes) => bytes.as_slice(),
        None => &[],
    }
}

/// What a turn is answered that needs no more.
fn plain() -> Answer
    ensures { result ≡ Yes Plain }
{
    Answer::Yes(Tally::Plain)
}

/// What a start is answered.
fn answer_of_start(started: Result<(), Why>) -> Answer
    ensures { result ≡ start_answer started }
{
    match started {
        Ok(()) => plain(),
        Err(why) => Answer::No(why),
    }
}

/// How far a run is behind this result of its start.
fn part_of_start(started: Result<(), Why>) -> RunPart
    ensures { result ≡ start_part started }
{
    match started {
        Ok(()) => RunPart::Started,
        Err(_) => RunPart::Refused,
    }
}

/// No dump of a run.
fn without_dumps() -> RunDumps
    ensures { result ≡ no_dumps }
{
    RunDumps {
        start: None,
        stop: None,
    }
}

/// The dumps that are kept behind this result of a start with this dump.
fn dumps_of_start(dump: Option<Bytes>, started: Result<(), Why>) -> RunDumps
    ensures { result ≡ start_dumps dump started }
{
    match started {
        Ok(()) => RunDumps {
            start: dump,
            stop: None,
        },
        Err(_) => without_dumps(),
    }
}

impl Logger {
    /// A logger with a channel for each spec, and for each channel room for an event of so many bytes of data.
    pub fn new(alloc: Global, specs: ChannelSpecs, rooms: &[u32]) -> Result<Logger, NoMemory>
        requires rooms { length rooms.now ≡ length specs }
        requires numbers { HaveNumbers specs }
        ensures made { IfOk result (λ logger. HasNewChannels specs rooms.now logger.channels) }
        ensures run { IfOk result (λ logger. logger.run ≡ None) }
        ensures dumps { IfOk result (λ logger. logger.dumps ≡ no_dumps) }
        ensures small { IfOk result (λ logger. DumpsFit logger.dumps) }
        ensures idle { IfOk result (λ logger. AreIdleChannels logger.channels) }
        ensures ready { IfOk result (λ logger. (ports : List Access) → (seen : Seen) →
            HavePorts specs ports → IsLoggerReady logger.channels ports seen) }
        ensures stands { IfOk result (λ logger. (ports : List Access) → (seen : Seen) →
            HavePorts specs ports → AreUnused ports →
            LoggerStands logger.run logger.dumps logger.channels ports [] seen) }
        ensures room { IfOk result (λ logger. (ports : List Access) →
            HaveRooms specs rooms.now ports → (number : ℕ) →
            HasEventRoom number logger.channels ports) }
        ensures own { IfOk result (λ logger. (ports : List Access) → AreUnused ports →
            KeepsLoggerCalls logger.channels ports) }
        ensures failed { IfOk result (λ logger. HasFailed logger.channels → ⊥) }
        ensures reasons { IfOk result (λ logger. (ports : List Access) → (files : FilesTold) →
            GivesReasons logger.channels ports files files []) }
    {
        let channels = new_channels(alloc, specs, rooms)?;
        Ok(Logger {
            channels,
            run: None,
            dumps: without_dumps(),
        })
    }

    /// Takes a turn. Between two turns the answer to the first was given.
    ///
    /// At a start each channel, in order of number, makes its first file, writes the begin record with the dump, and
    /// asks for its events; then the run is begun in every buffer. The first refusal of these is the answer, before
    /// which the files are closed and removed and the requests cancelled. A pause and a resume are marked in every
    /// buffer. At a stop the run is ended in every buffer; the answer is None, and `finish` gives it later. At a
    /// start-abort the run is ended where it is begun, and each channel calls it off.
    ///
    /// A start is refused as NotReady while a run is on. A stop, a pause or a resume of another run than the one
    /// whose start was accepted last, and a start-abort of another start than the last, change nothing.
    pub fn on_turn<R: Wait, F: Files, P: BufferPort>(
        &mut self,
        rt: &R,
        files: &mut F,
        ports: &mut Ports<P>,
        transition: Transition,
        order: &Order,
        dump: Option<Bytes>,
    ) -> Option<Answer>
        requires ready { IsLoggerReady self.old.channels (map P.access ports.old)
            (F.told files.old).seen }
        requires idle { IsIdleOutside self.old.run self.old.channels }
        requires begun { buffers_begun self.old.run ≤ length ports.old }
        requires small { IfSome dump (λ bytes. length bytes ≤ record_limit) }
        ensures takes { TakesTurn (logger_turned F.told transition order.now dump result self.old
            self.new (map P.access ports.old) (map P.access ports.new) files.old files.new) }
        ensures ready { IsLoggerReady self.new.channels (map P.access ports.new)
            (F.told files.new).seen }
        ensures idle { IsIdleOutside self.new.run self.new.channels }
        ensures begun { buffers_begun self.new.run ≤ length ports.new }
        ensures small { DumpsFit self.old.dumps → DumpsFit self.new.dumps }
        ensures same { AreSamePorts (map P.access ports.old) (map P.access ports.new) }
        ensures own { KeepsLoggerCalls self.old.channels (map P.access ports.old) →
            KeepsLoggerCalls self.new.channels (map P.access ports.new) }
        ensures failed { NotesFaults self.old.channels self.new.channels
            (F.told files.old).faults (F.told files.new).faults }
        ensures room { ((number : ℕ)
            → HasEventRoom number self.old.channels (map P.access ports.old)) →
            (number : ℕ) → HasEventRoom number self.new.channels (map P.access ports.new) }
        ensures keeps { StandsAfterTurn (logger_turned
            F.told transition order.now dump result self.old
            self.new (map P.access ports.old) (map P.access ports.new) files.old files.new) }
    {
        logger_laws::turns_keep();
        self.take_turn(rt, files, ports, transition, order, dump)
    }

    /// Takes a turn: what is done, and what is answered.
    fn take_turn<R: Wait, F: Files, P: BufferPort>(
        &mut self,
        rt: &R,
        files: &mut F,
        ports: &mut Ports<P>,
        transition: Transition,
        order: &Order,
        dump: Option<Bytes>,
    ) -> Option<Answer>
        requires ready { IsLoggerReady self.old.channels (map P.access ports.old)
            (F.told files.old).seen }
        requires idle { IsIdleOutside self.old.run self.old.channels }
        requires begun { buffers_begun self.old.run ≤ length ports.old }
        requires small { IfSome dump (λ bytes. length bytes ≤ record_limit) }
        ensures takes { TakesTurn (logger_turned F.told transition order.now dump result self.old
            self.new (map P.access ports.old) (map P.access ports.new) files.old files.new) }
        ensures ready { IsLoggerReady self.new.channels (map P.access ports.new)
            (F.told files.new).seen }
        ensures idle { IsIdleOutside self.new.run self.new.channels }
        ensures begun { buffers_begun self.new.run ≤ length ports.new }
        ensures small { DumpsFit self.old.dumps → DumpsFit self.new.dumps }
    {
        match transition {
            Transition::Start => Some(self.on_start(rt, files, ports, order, dump)),
            Transition::Stop => self.on_stop(rt, files, ports, order, dump),
            Transition::Pause => Some(self.on_pause(rt, files, ports, order)),
            Transition::Resume => Some(self.on_resume(rt, files, ports, order)),
            Transition::StartAbort => Some(self.on_abort(rt, files, ports, order)),
        }
    }

    /// Takes a start turn.
    fn on_start<R: Wait, F: Files, P: BufferPort>(
        &mut self,
        rt: &R,
        files: &mut F,
        ports: &mut Ports<P>,
        order: &Order,
        dump: Option<Bytes>,
    ) -> Answer
        requires ready { IsLoggerReady self.old.channels (map P.access ports.old)
            (F.told files.old).seen }
        requires idle { IsIdleOutside self.old.run self.old.channels }
        requires begun { buffers_begun self.old.run ≤ length ports.old }
        requires small { IfSome dump (λ bytes. length bytes ≤ record_limit) }
        ensures takes { TakesStart (is_run_on self.old.run)
            (logger_turned F.told Start order.now dump
            (Some result) self.old self.new (map P.access ports.old)
            (map P.access ports.new) files.old files.new) }
        ensures ready { IsLoggerReady self.new.channels (map P.access ports.new)
            (F.told files.new).seen }
        ensures idle { IsIdleOutside self.new.run self.new.channels }
        ensures begun { buffers_begun self.new.run ≤ length ports.new }
        ensures small { DumpsFit self.old.dumps → DumpsFit self.new.dumps }
    {
        if has_run(self.run) {
            return Answer::No(Why::NotReady);
        }
        self.start(rt, files, ports, order, dump)
    }

    /// Starts the run, where none is on.
    fn start<R: Wait, F: Files, P: BufferPort>(
        &mut self,
        rt: &R,
        files: &mut F,
        ports: &mut Ports<P>,
        order: &Order,
        dump: Option<Bytes>,
    ) -> Answer
        requires ready { IsLoggerReady self.old.channels (map P.access ports.old)
            (F.told files.old).seen }
        requires idle { AreIdleChannels self.old.channels }
        requires small { IfSome dump (λ bytes. length bytes ≤ record_limit) }
        ensures starts { StartsLogger (logger_turned F.told Start order.now dump
            (Some result) self.old self.new (map P.access ports.old)
            (map P.access ports.new) files.old files.new) }
        ensures ready { IsLoggerReady self.new.channels (map P.access ports.new)
            (F.told files.new).seen }
        ensures idle { IsIdleOutside self.new.run self.new.channels }
        ensures begun { buffers_begun self.new.run ≤ length ports.new }
        ensures small { DumpsFit self.new.dumps }
    {
        let (begun, result) = start_run(
            &mut self.channels,
            rt,
            files,
            ports,
            order,
            bytes_of(&dump),
        );
        self.run = Some(LoggedRun {
            start: order.start,
            begun,
            part: part_of_start(result),
        });
        self.dumps = dumps_of_start(dump, result);
        answer_of_start(result)
    }

    /// Takes a stop turn.
    fn on_stop<R: Wait, F: Files, P: BufferPort>(
        &mut self,
        rt: &R,
        files: &mut F,
        ports: &mut Ports<P>,
        order: &Order,
        dump: Option<Bytes>,
    ) -> Option<Answer>
        requires ready { IsLoggerReady self.old.channels (map P.access ports.old)
            (F.told files.old).seen }
        requires idle { IsIdleOutside self.old.run self.old.channels }
        requires begun { buffers_begun self.old.run ≤ length ports.old }
        ensures takes { TakesStop (is_started self.old.run order.now.start)
            (logger_turned F.told Stop order.now dump
            result self.old self.new (map P.access ports.old) (map P.access ports.new)
            files.old files.new) }
        ensures ready { IsLoggerReady self.new.channels (map P.access ports.new)
            (F.told files.new).seen }
        ensures idle { IsIdleOutside self.new.run self.new.channels }
        ensures begun { buffers_begun self.new.run ≤ length ports.new }
        ensures dumps { self.new.dumps ≡ (if is_started self.old.run order.now.start
            then record self.old.dumps { stop = dump } else self.old.dumps) }
        ensures files { files.new ≡ files.old }
    {
        if !goes_on(self.run, order.start) {
            return Some(plain());
        }
        let count = ports.len();
        end_first(&mut self.channels, rt, ports, count, order.start);
        self.run = Some(LoggedRun {
            start: order.start,
            begun: 0,
            part: RunPart::Stopping { time: order.time },
        });
        self.dumps.stop = dump;
        None
    }

    /// Takes a pause turn.
    fn on_pause<R: Wait, F: Files, P: BufferPort>(
        &mut self,
        rt: &R,
        files: &mut F,
        ports: &mut Ports<P>,
        order: &Order,
    ) -> Answer
        requires ready { IsLoggerReady self.old.channels (map P.access ports.old)
            (F.told files.old).seen }
        requires idle { IsIdleOutside self.old.run self.old.channels }
        requires begun { buffers_begun self.old.run ≤ length ports.old }
        ensures takes { (dump : Option (List ℕ)) →
            TakesMark PausesBuffer (is_started self.old.run order.now.start)
            (logger_turned F.told Pause order.now dump
            (Some result) self.old self.new (map P.access ports.old)
            (map P.access ports.new) files.old files.new) }
        ensures ready { IsLoggerReady self.new.channels (map P.access ports.new)
            (F.told files.new).seen }
        ensures idle { IsIdleOutside self.new.run self.new.channels }
        ensures begun { buffers_begun self.new.run ≤ length ports.new }
        ensures same { self.new ≡ self.old }
        ensures files { files.new ≡ files.old }
    {
        if !goes_on(self.run, order.start) {
            return plain();
        }
        pause_all(rt, ports, order.start);
        plain()
    }

    /// Takes a resume turn.
    fn on_resume<R: Wait, F: Files, P: BufferPort>(
        &mut self,
        rt: &R,
        files: &mut F,
        ports: &mut Ports<P>,
        order: &Order,
    ) -> Answer
        requires ready { IsLoggerReady self.old.channels (map P.access ports.old)
            (F.told files.old).seen }
        requires idle { IsIdleOutside self.old.run self.old.channels }
        requires begun { buffers_begun self.old.run ≤ length ports.old }
        ensures takes { (dump : Option (List ℕ)) →
            TakesMark ResumesBuffer (is_started self.old.run order.now.start)
            (logger_turned F.told Resume order.now dump
            (Some result) self.old self.new (map P.access ports.old)
            (map P.access ports.new) files.old files.new) }
        ensures ready { IsLoggerReady self.new.channels (map P.access ports.new)
            (F.told files.new).seen }
        ensures idle { IsIdleOutside self.new.run self.new.channels }
        ensures begun { buffers_begun self.new.run ≤ length ports.new }
        ensures same { self.new ≡ self.old }
        ensures files { files.new ≡ files.old }
    {
        if !goes_on(self.run, order.start) {
            return plain();
        }
        resume_all(rt, ports, order.start);
        plain()
    }

    /// Takes a start-abort turn.
    fn on_abort<R: Wait, F: Files, P: BufferPort>(
        &mut self,
        rt: &R,
        files: &mut F,
        ports: &mut Ports<P>,
        order: &Order,
    ) -> Answer
        requires ready { IsLoggerReady self.old.channels (map P.access ports.old)
            (F.told files.old).seen }
        requires idle { IsIdleOutside self.old.run self.old.channels }
        requires begun { buffers_begun self.old.run ≤ length ports.old }
        ensures takes { (dump : Option (List ℕ)) →
            TakesAbort (is_of_start self.old.run order.now.start)
            (logger_turned F.told StartAbort order.now dump
            (Some result) self.old self.new (map P.access ports.old)
            (map P.access ports.new) files.old files.new) }
        ensures ready { IsLoggerReady self.new.channels (map P.access ports.new)
            (F.told files.new).seen }
        ensures idle { IsIdleOutside self.new.run self.new.channels }
        ensures begun { buffers_begun self.new.run ≤ length ports.new }
        ensures small { DumpsFit self.old.dumps → DumpsFit self.new.dumps }
    {
        let Some(begun) = begun_in(self.run, order.start) else {
            return plain();
        };
        end_first(&mut self.channels, rt, ports, begun, order.start);
        abort_all(&mut self.channels, rt, files, ports);
        self.run = None;
        self.dumps = without_dumps();
        plain()
    }

    /// Pulls once on the channel of this number: one receive, of which the event is written where it is one of the run.
    /// Where the file would grow past the channel's limit, the next one is begun before, with the dump of the start.
    /// NoChannel exactly where there is no such channel.
    pub fn pull<R: Wait, F: Files, P: BufferPort>(
        &mut self,
        rt: &R,
        files: &mut F,
        ports: &mut Ports<P>,
        channel: u32,
    ) -> Pulled
        requires ready { IsLoggerReady self.old.channels (map P.access ports.old)
            (F.told files.old).seen }
        requires idle { IsIdleOutside self.old.run self.old.channels }
        requires room { HasEventRoom channel self.old.channels (map P.access ports.old) }
        requires small { DumpsFit self.old.dumps }
        ensures pulls { PullsNumbered (unwrap_or self.old.dumps.start []) channel result
            (moment_of self.old.channels (map P.access ports.old) (F.told files.old))
            (moment_of self.new.channels (map P.access ports.new) (F.told files.new)) }
        ensures run { self.new.run ≡ self.old.run }
        ensures dumps { self.new.dumps ≡ self.old.dumps }
        ensures ready { IsLoggerReady self.new.channels (map P.access ports.new)
            (F.told files.new).seen }
        ensures idle { IsIdleOutside self.new.run self.new.channels }
        ensures same { AreSamePorts (map P.access ports.old) (map P.access ports.new) }
        ensures own { KeepsLoggerCalls self.old.channels (map P.access ports.old) →
            KeepsLoggerCalls self.new.channels (map P.access ports.new) }
        ensures failed { NotesFaults self.old.channels self.new.channels
            (F.told files.old).faults (F.told files.new).faults }
        ensures room { ((number : ℕ)
            → HasEventRoom number self.old.channels (map P.access ports.old)) →
            (number : ℕ) → HasEventRoom number self.new.channels (map P.access ports.new) }
        ensures keeps { (turns : List MemberTurn) →
            LoggerStands self.old.run self.old.dumps self.old.channels
            (map P.access ports.old) turns (F.told files.old).seen →
            LoggerStands self.new.run self.new.dumps self.new.channels
            (map P.access ports.new) turns (F.told files.new).seen }
    {
        channel_laws::left_beside();
        channel_laws::pulls_kept();
        channel_laws::pulls_beside();
        channel_laws::files_beside();
        channel_laws::opens_kept();
        let dump = bytes_of(&self.dumps.start);
        pull_at(&mut self.channels, rt, files, ports, channel as usize, dump)
    }

    /// The answer to the stop that waits: it ends the files of each channel, in order of number, and tells what
    /// became of them. None exactly where no stop waits, or the client of some channel that did not break off has
    /// yet to read its run.
    pub fn finish<F: Files>(&mut self, files: &mut F) -> Option<Answer>
        requires many { length self.old.channels ≤ 16 }
        requires files { HaveFilesOpen self.old.channels (F.told files.old).seen }
        requires idle { IsIdleOutside self.old.run self.old.channels }
        requires small { DumpsFit self.old.dumps }
        ensures finishes { FinishesLogger (logger_finished
            F.told self.old self.new files.old files.new
            result) }
        ensures ready { (ports : List Access) →
            IsLoggerReady self.old.channels ports (F.told files.old).seen →
            IsLoggerReady self.new.channels ports (F.told files.new).seen }
        ensures idle { IsIdleOutside self.new.run self.new.channels }
        ensures begun { buffers_begun self.new.run ≤ buffers_begun self.old.run }
        ensures small { DumpsFit self.new.dumps }
        ensures room { (ports : List Access) →
            ((number : ℕ) → HasEventRoom number self.old.channels ports) →
            (number : ℕ) → HasEventRoom number self.new.channels ports }
        ensures own { (ports : List Access) → KeepsLoggerCalls self.old.channels ports →
            KeepsLoggerCalls self.new.channels ports }
        ensures failed { NotesFaults self.old.channels self.new.channels
            (F.told files.old).faults (F.told files.new).faults }
        ensures keeps { StandsAfterFinish (logger_finished
            F.told self.old self.new files.old files.new
            result) }
    {
        logger_laws::finishes_keep();
        self.end_run(files)
    }

    /// Ends the files of the run whose stop waits, where every channel is settled.
    fn end_run<F: Files>(&mut self, files: &mut F) -> Option<Answer>
        requires many { length self.old.channels ≤ 16 }
        requires files { HaveFilesOpen self.old.channels (F.told files.old).seen }
        requires idle { IsIdleOutside self.old.run self.old.channels }
        requires small { DumpsFit self.old.dumps }
        ensures finishes { FinishesLogger (logger_finished
            F.told self.old self.new files.old files.new
            result) }
        ensures ready { (ports : List Access) →
            IsLoggerReady self.old.channels ports (F.told files.old).seen →
            IsLoggerReady self.new.channels ports (F.told files.new).seen }
        ensures idle { IsIdleOutside self.new.run self.new.channels }
        ensures begun { buffers_begun self.new.run ≤ buffers_begun self.old.run }
        ensures small { DumpsFit self.new.dumps }
    {
        let time = stop_time(self.run)?;
        if !are_settled(&self.channels) {
            return None;
        }
        let told = end_files(&mut self.channels, files, time, &self.dumps.stop);
        self.run = None;
        self.dumps = without_dumps();
        Some(Answer::Yes(Tally::Channels(told)))
    }

    /// Whether a call on the files failed in a call of this logger.
    pub fn failed(&self) -> bool
        ensures { result ≡ some_slot (λ c. c.failed) self.now.channels }
    {
        any_failed(&self.channels)
    }
}
