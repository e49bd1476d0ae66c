ghost use Rattle.std.specs.Prelude.{◌≡◌, ◌≤◌, ◌-◌, ◌++◌, ◌∷◌, [], true, false, ℕ, List, Result, min, length, Ok, Some, None};
ghost use Rattle.event.specs.Events.{event_limit, record_limit};
ghost use Rattle.daq_io.specs.Seen.{Seen};
ghost use Rattle.buffer_core.specs.declared.replies.MarkRefusal.{MarkRefusal};
ghost use Rattle.buffer_core.specs.declared.entry.BufferEntry.{BufferEntry};
ghost use Rattle.buffer_core.specs.declared.entry.BufferEntry.TheVariants.{Begin, End};
ghost use Rattle.buffer_core.specs.Ports.{GotEvent};
ghost use Rattle.sub_files.specs.Rolls.{RisesWith};
ghost use Rattle.mid_logger.specs.declared.stage.ChannelRun.{ChannelRun};
ghost use Rattle.mid_logger.specs.declared.stage.ChannelStage.TheVariants.{Asking, Drained, Broken};
ghost use Rattle.mid_logger.specs.Channels.{FileHead, ChannelStands, HasLastOpen, IsLastOpen, CancelsRequest, is_behind_end, reading_run, written_run, stage_at, stage_begun, stage_ended, end_marked, channel_run, files_by, place_marked, EndsOnce};
ghost use Rattle.mid_logger.specs.Pulls.{TakesBy, TakesRun, PullsOnce, Pulls, PullFaults, PullNames, open_name, name_behind, failed_by, drains_at_none};

use crate::channel_spec::ChannelSpec;
use crate::pulled::Pulled;
use crate::stage::{BegunRun, ChannelRun, ChannelStage};
use buffer_core::{BufferPort, Received};
use daq_io::Files;
use event::EventBuf;
use std::sync::Wait;
use sub_files::{Fallen, OpenFile, RunHead};

/// A channel of the logger: what it writes, its client at the buffer, how far it is, whether a call on the files ever
/// failed in a call of it, and room for an event.
#[derive(Drop)]
pub struct Channel {
    pub spec: ChannelSpec,
    pub client: Option<u32>,
    pub stage: ChannelStage,
    pub failed: bool,
    pub event: EventBuf,
}

/// Whether the place is at or behind the end of the run, where that is marked.
fn is_behind(ended: Option<u64>, place: u64) -> bool
    ensures { result ≡ is_behind_end ended place }
{
    match ended {
        Some(end) => end <= place,
        None => false,
    }
}

/// The run that a channel reads in this stage.
fn run_read(stage: ChannelStage) -> Option<BegunRun>
    ensures { result ≡ reading_run stage }
{
    match stage {
        ChannelStage::Writing { opened, begun } => Some(BegunRun {
            opened,
            begun,
            ended: None,
        }),
        ChannelStage::Draining { run } => Some(run),
        ChannelStage::Idle
        | ChannelStage::Asking { .. }
        | ChannelStage::Drained { .. }
        | ChannelStage::Broken { .. } => None,
    }
}

/// Whether a client that finds no event is drained in this stage.
fn is_stopped(stage: ChannelStage) -> bool
    ensures { result ≡ drains_at_none stage }
{
    matches!(stage, ChannelStage::Draining { .. })
}

/// The stage once the run was begun at this place.
fn begun_stage(stage: ChannelStage, begun: u64) -> ChannelStage
    ensures { result ≡ stage_begun stage begun }
{
    match stage {
        ChannelStage::Asking { opened } => ChannelStage::Writing { opened, begun },
        other => other,
    }
}

/// The place at which a run was ended, with this mark more.
fn ended_first(before: Option<u64>, mark: Option<u64>) -> Option<u64>
    ensures { result ≡ end_marked before mark }
{
    match before {
        None => mark,
        Some(end) => Some(end),
    }
}

/// The stage once the run was ended at this place, or could not be.
fn ended_stage(stage: ChannelStage, ended: Option<u64>) -> ChannelStage
    ensures { result ≡ stage_ended stage ended }
{
    match stage {
        ChannelStage::Writing { opened, begun } => ChannelStage::Draining {
            run: BegunRun {
                opened,
                begun,
                ended,
            },
        },
        ChannelStage::Broken { run, fallen } => ChannelStage::Broken {
            run: BegunRun {
                opened: run.opened,
                begun: run.begun,
                ended: ended_first(run.ended, ended),
            },
            fallen,
        },
        other => other,
    }
}

/// This file is the one that is being written, where one is.
fn keep_file(stage: &mut ChannelStage, at: OpenFile)
    ensures { stage.new ≡ stage_at stage.old at }
{
    match stage {
        ChannelStage::Writing { opened, .. } => opened.at = at,
        ChannelStage::Draining { run } => run.opened.at = at,
        ChannelStage::Idle
        | ChannelStage::Asking { .. }
        | ChannelStage::Drained { .. }
        | ChannelStage::Broken { .. } => (),
    }
}

impl Channel {
    /// Cancels the request, after a call on the files failed, which are closed.
    fn break_off<R: Wait, P: BufferPort>(
        &mut self,
        rt: &R,
        port: &mut P,
        run: BegunRun,
        fallen: Fallen,
    )
        ensures stage { self.new ≡ record self.old
            { stage = Broken run fallen; failed = true } }
        ensures cancelled { CancelsRequest (P.access port.old) (P.access port.new) run.opened }
    {
        let _ = port.cancel(rt, run.opened.client, run.opened.request);
        self.stage = ChannelStage::Broken { run, fallen };
        self.failed = true;
    }

    /// Writes the event that was got, and begins the next file before where this one has no room for it. Where a call on
    /// the files fails the channel breaks off.
    fn write<R: Wait, F: Files, P: BufferPort>(
        &mut self,
        rt: &R,
        files: &mut F,
        port: &mut P,
        run: BegunRun,
        place: u64,
        dump: &[u8],
    ) -> Pulled
        requires file { HasLastOpen (F.told files.old).seen self.old.spec run.opened }
        requires small { length dump.now ≤ record_limit }
        ensures spec { self.new.spec ≡ self.old.spec }
        ensures client { self.new.client ≡ self.old.client }
        ensures room { self.new.event.room ≡ self.old.event.room }
        ensures failed { self.new.failed ≡ failed_by result self.old.failed }
        ensures takes { TakesBy false false (record {
          spec = self.old.spec;
          dump = dump.now;
          stage = self.old.stage;
          later_stage = self.new.stage;
          port = P.access port.old;
          later_port = P.access port.new;
          files = (F.told files.old).seen;
          later_files = (F.told files.new).seen;
          answer = result;
        }) run place self.old.event.event }
        ensures few { files_by self.old.stage ≤ 10000 → files_by self.new.stage ≤ 10000 }
        ensures faults { PullFaults result (F.told files.old).faults (F.told files.new).faults }
        ensures clashes { RisesWith self.old.spec.sub_bytes (F.told files.old).clashes
            (F.told files.new).clashes }
        ensures first { PullNames result (open_name self.old.spec (Some run.opened))
            (name_behind self.old.spec (Some run.opened)) (F.told files.old).first
            (F.told files.new).first }
        ensures file { reading_run self.old.stage ≡ Some run →
            IsLastOpen (F.told files.new).seen self.new.spec (written_run self.new.stage) }
    {
        let head = RunHead {
            run: run.opened.run,
            time: run.opened.time,
        };
        let mut at = run.opened.at;
        let limit = self.spec.sub_bytes;
        let event = self.event.bytes();
        match at.write(files, &self.spec.pattern, limit, head, dump, event) {
            Ok(()) => {
                keep_file(&mut self.stage, at);
                Pulled::Wrote { place }
            }
            Err(fallen) => {
                self.break_off(rt, port, run, fallen);
                Pulled::Broke
            }
        }
    }

    /// Cancels the request of a client that was drained.
    fn end_reading<R: Wait, P: BufferPort>(&mut self, rt: &R, port: &mut P, run: BegunRun)
        ensures stage { self.new ≡ record self.old { stage = Drained run } }
        ensures cancelled { CancelsRequest (P.access port.old) (P.access port.new) run.opened }
    {
        let _ = port.cancel(rt, run.opened.client, run.opened.request);
        self.stage = ChannelStage::Drained { run };
    }

    /// Takes the event that was got at this place: it is written where the place is one of the run. The first place at or
    /// behind the end drains the client.
    fn take<R: Wait, F: Files, P: BufferPort>(
        &mut self,
        rt: &R,
        files: &mut F,
        port: &mut P,
        run: BegunRun,
        place: u64,
        dump: &[u8],
    ) -> Pulled
        requires file { HasLastOpen (F.told files.old).seen self.old.spec run.opened }
        requires small { length dump.now ≤ record_limit }
        ensures spec { self.new.spec ≡ self.old.spec }
        ensures client { self.new.client ≡ self.old.client }
        ensures room { self.new.event.room ≡ self.old.event.room }
        ensures failed { self.new.failed ≡ failed_by result self.old.failed }
        ensures takes { TakesRun (record {
          spec = self.old.spec;
          dump = dump.now;
          stage = self.old.stage;
          later_stage = self.new.stage;
          port = P.access port.old;
          later_port = P.access port.new;
          files = (F.told files.old).seen;
          later_files = (F.told files.new).seen;
          answer = result;
        }) run place self.old.event.event }
        ensures few { files_by self.old.stage ≤ 10000 → files_by self.new.stage ≤ 10000 }
        ensures faults { PullFaults result (F.told files.old).faults (F.told files.new).faults }
        ensures clashes { RisesWith self.old.spec.sub_bytes (F.told files.old).clashes
            (F.told files.new).clashes }
        ensures first { PullNames result (open_name self.old.spec (Some run.opened))
            (name_behind self.old.spec (Some run.opened)) (F.told files.old).first
            (F.told files.new).first }
        ensures file { reading_run self.old.stage ≡ Some run →
            IsLastOpen (F.told files.new).seen self.new.spec (written_run self.new.stage) }
    {
        if is_behind(run.ended, place) {
            self.end_reading(rt, port, run);
            return Pulled::Dropped { place };
        }
        if place < run.begun {
            return Pulled::Dropped { place };
        }
        self.write(rt, files, port, run, place, dump)
    }

    /// Receives once, where the channel reads a run, and takes what it gets. The dump is that of the run's start: each file of
    /// the run begins with it.
    pub fn pull<R: Wait, F: Files, P: BufferPort>(
        &mut self,
        rt: &R,
        files: &mut F,
        port: &mut P,
        dump: &[u8],
    ) -> Pulled
        requires file { IsLastOpen (F.told files.old).seen self.old.spec (written_run self.old.stage) }
        requires small { length dump.now ≤ record_limit }
        requires room { min event_limit ((P.access port.old).size - 24) ≤ self.old.event.room }
        ensures spec { self.new.spec ≡ self.old.spec }
        ensures client { self.new.client ≡ self.old.client }
        ensures room { self.new.event.room ≡ self.old.event.room }
        ensures failed { self.new.failed ≡ failed_by result self.old.failed }
        ensures pulls { Pulls (record {
          spec = self.old.spec;
          dump = dump.now;
          stage = self.old.stage;
          later_stage = self.new.stage;
          port = P.access port.old;
          later_port = P.access port.new;
          files = (F.told files.old).seen;
          later_files = (F.told files.new).seen;
          answer = result;
        }) self.old.event.room }
        ensures few { files_by self.old.stage ≤ 10000 → files_by self.new.stage ≤ 10000 }
        ensures faults { PullFaults result (F.told files.old).faults (F.told files.new).faults }
        ensures clashes { RisesWith self.old.spec.sub_bytes (F.told files.old).clashes
            (F.told files.new).clashes }
        ensures first { PullNames result (open_name self.old.spec (written_run self.old.stage))
            (name_behind self.old.spec (written_run self.old.stage)) (F.told files.old).first
            (F.told files.new).first }
        ensures file { IsLastOpen (F.told files.new).seen self.new.spec (written_run self.new.stage) }
        ensures keeps { (head : FileHead) → head.dump ≡ dump.now →
            ChannelStands self.old.spec self.old.client self.old.stage head (P.access port.old).own
            (P.access port.old).got (F.told files.old).seen →
            ChannelStands self.new.spec self.new.client self.new.stage head (P.access port.new).own
            (P.access port.new).got (F.told files.new).seen }
    {
        self.pull_once(rt, files, port, dump)
    }

    /// Receives once, where the channel reads a run, and takes what it gets.
    fn pull_once<R: Wait, F: Files, P: BufferPort>(
        &mut self,
        rt: &R,
        files: &mut F,
        port: &mut P,
        dump: &[u8],
    ) -> Pulled
        requires file { IsLastOpen (F.told files.old).seen self.old.spec (written_run self.old.stage) }
        requires small { length dump.now ≤ record_limit }
        requires room { min event_limit ((P.access port.old).size - 24) ≤ self.old.event.room }
        ensures spec { self.new.spec ≡ self.old.spec }
        ensures client { self.new.client ≡ self.old.client }
        ensures room { self.new.event.room ≡ self.old.event.room }
        ensures failed { self.new.failed ≡ failed_by result self.old.failed }
        ensures pulls { Pulls (record {
          spec = self.old.spec;
          dump = dump.now;
          stage = self.old.stage;
          later_stage = self.new.stage;
          port = P.access port.old;
          later_port = P.access port.new;
          files = (F.told files.old).seen;
          later_files = (F.told files.new).seen;
          answer = result;
        }) self.old.event.room }
        ensures few { files_by self.old.stage ≤ 10000 → files_by self.new.stage ≤ 10000 }
        ensures faults { PullFaults result (F.told files.old).faults (F.told files.new).faults }
        ensures clashes { RisesWith self.old.spec.sub_bytes (F.told files.old).clashes
            (F.told files.new).clashes }
        ensures first { PullNames result (open_name self.old.spec (written_run self.old.stage))
            (name_behind self.old.spec (written_run self.old.stage)) (F.told files.old).first
            (F.told files.new).first }
        ensures file { IsLastOpen (F.told files.new).seen self.new.spec (written_run self.new.stage) }
    {
        let Some(run) = run_read(self.stage) else {
            return Pulled::Nothing;
        };
        let stopped = is_stopped(self.stage);
        self.pull_run(rt, files, port, run, stopped, dump)
    }

    /// Receives once in this run. Where the run was stopped a client that finds nothing is drained.
    fn pull_run<R: Wait, F: Files, P: BufferPort>(
        &mut self,
        rt: &R,
        files: &mut F,
        port: &mut P,
        run: BegunRun,
        stopped: bool,
        dump: &[u8],
    ) -> Pulled
        requires file { HasLastOpen (F.told files.old).seen self.old.spec run.opened }
        requires small { length dump.now ≤ record_limit }
        requires room { min event_limit ((P.access port.old).size - 24) ≤ self.old.event.room }
        requires stopped { stopped ≡ drains_at_none self.old.stage }
        ensures spec { self.new.spec ≡ self.old.spec }
        ensures client { self.new.client ≡ self.old.client }
        ensures room { self.new.event.room ≡ self.old.event.room }
        ensures failed { self.new.failed ≡ failed_by result self.old.failed }
        ensures pulls { PullsOnce (record {
          spec = self.old.spec;
          dump = dump.now;
          stage = self.old.stage;
          later_stage = self.new.stage;
          port = P.access port.old;
          later_port = P.access port.new;
          files = (F.told files.old).seen;
          later_files = (F.told files.new).seen;
          answer = result;
        }) run self.old.event.room }
        ensures few { files_by self.old.stage ≤ 10000 → files_by self.new.stage ≤ 10000 }
        ensures faults { PullFaults result (F.told files.old).faults (F.told files.new).faults }
        ensures clashes { RisesWith self.old.spec.sub_bytes (F.told files.old).clashes
            (F.told files.new).clashes }
        ensures first { PullNames result (open_name self.old.spec (Some run.opened))
            (name_behind self.old.spec (Some run.opened)) (F.told files.old).first
            (F.told files.new).first }
        ensures file { reading_run self.old.stage ≡ Some run →
            IsLastOpen (F.told files.new).seen self.new.spec (written_run self.new.stage) }
    {
        match port.receive(rt, run.opened.client, &mut self.event) {
            Received::Got { place, .. } => self.take(rt, files, port, run, place, dump),
            Received::Empty { .. } if stopped => {
                self.end_reading(rt, port, run);
                Pulled::Nothing
            }
            Received::Empty { .. } | Received::NoClient => Pulled::Nothing,
            Received::SmallBuf { .. } => unreachable!(),
        }
    }

    /// Notes that the run was begun in the buffer, at this place.
    pub fn note_begun(&mut self, begun: u64)
        ensures spec { self.new.spec ≡ self.old.spec }
        ensures client { self.new.client ≡ self.old.client }
        ensures failed { self.new.failed ≡ self.old.failed }
        ensures event { self.new.event ≡ self.old.event }
        ensures stage { self.new.stage ≡ stage_begun self.old.stage begun }
        ensures file { written_run self.new.stage ≡ written_run self.old.stage }
        ensures few { files_by self.new.stage ≡ files_by self.old.stage }
        ensures keeps { (opened : ChannelRun) → (head : FileHead) → (own : List BufferEntry) →
            (got : List GotEvent) → (seen : Seen) →
            self.old.stage ≡ Asking opened →
            ChannelStands self.old.spec self.old.client self.old.stage head own got seen →
            ChannelStands self.new.spec self.new.client self.new.stage head
            (own ++ Begin opened.start (Ok begun) ∷ []) got seen }
    {
        self.stage = begun_stage(self.stage, begun);
    }

    /// Notes that the run was ended in the buffer, at this place; none, where the buffer refused that.
    pub fn note_ended(&mut self, ended: Option<u64>)
        ensures spec { self.new.spec ≡ self.old.spec }
        ensures client { self.new.client ≡ self.old.client }
        ensures failed { self.new.failed ≡ self.old.failed }
        ensures event { self.new.event ≡ self.old.event }
        ensures stage { self.new.stage ≡ stage_ended self.old.stage ended }
        ensures file { written_run self.new.stage ≡ written_run self.old.stage }
        ensures few { files_by self.new.stage ≡ files_by self.old.stage }
        ensures keeps { (opened : ChannelRun) → (reply : Result ℕ MarkRefusal) → (head : FileHead) →
            (own : List BufferEntry) → (got : List GotEvent) → (seen : Seen) →
            channel_run self.old.stage ≡ Some opened → ended ≡ place_marked reply →
            EndsOnce self.old.stage reply →
            ChannelStands self.old.spec self.old.client self.old.stage head own got seen →
            ChannelStands self.new.spec self.new.client self.new.stage head
            (own ++ End opened.start reply ∷ []) got seen }
    {
        self.stage = ended_stage(self.stage, ended);
    }
}
