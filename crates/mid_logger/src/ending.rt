//! How a channel calls a run off, and how it ends the file of a run that its client has read.

ghost use Rattle.std.specs.Prelude.{◌≡◌, ◌≤◌, ◌<◌, ◌^◌, ◌+◌, List, IsTrue, IsSome, IfSome, IfOk, OnOk, OnErr, Some, length};
ghost use Rattle.event.specs.Events.{record_limit};
ghost use Rattle.daq_io.specs.Counts.{CountsFault, NamesFirst};
ghost use Rattle.daq_io.specs.declared.folder.FileState.TheVariants.{Closed};
ghost use Rattle.daq_io.specs.Seen.{Closes};
ghost use Rattle.buffer_core.specs.declared.entry.BufferEntry.{BufferEntry};
ghost use Rattle.buffer_core.specs.Ports.{GotEvent};
ghost use Rattle.sub_files.specs.Cuts.{last_number};
ghost use Rattle.sub_files.specs.RecordFiles.{ClosesPart};
ghost use Rattle.mid_logger.specs.declared.stage.ChannelStage.TheVariants.{Idle};
ghost use Rattle.mid_logger.specs.Channels.{FileHead, ChannelStands, IsLastOpen, channel_run, written_run, files_by};
ghost use Rattle.mid_logger.specs.ChannelTurns.{NotesFault, asking_run, drained_run};
ghost use Rattle.mid_logger.specs.ChannelEnds.{CancelsStanding, ClosesOpen, DropsFiles, RemovesRun, NamesRun, ClosesFile, EndNames, HasLeft, left_run, last_bytes, state_ended, state_otherwise, stage_settled, name_written, both_done, framed_by, end_of};

use crate::channel::Channel;
use crate::stage::{BegunRun, ChannelRun, ChannelStage};
use buffer_core::BufferPort;
use daq_io::{Failed, Files};
use daq_types::{Bytes, ChannelEnd, ChannelState};
use std::sync::Wait;
use sub_files::{end_file, remove_files};

/// The run whose request stands.
fn run_asked(stage: ChannelStage) -> Option<ChannelRun>
    ensures { result ≡ asking_run stage }
{
    match stage {
        ChannelStage::Asking { opened } => Some(opened),
        ChannelStage::Writing { opened, .. } => Some(opened),
        ChannelStage::Draining { run } => Some(run.opened),
        ChannelStage::Idle | ChannelStage::Drained { .. } | ChannelStage::Broken { .. } => None,
    }
}

/// The run whose file is being written.
fn run_written(stage: ChannelStage) -> Option<ChannelRun>
    ensures { result ≡ written_run stage }
{
    match stage {
        ChannelStage::Asking { opened } => Some(opened),
        ChannelStage::Writing { opened, .. } => Some(opened),
        ChannelStage::Draining { run } => Some(run.opened),
        ChannelStage::Drained { run } => Some(run.opened),
        ChannelStage::Idle | ChannelStage::Broken { .. } => None,
    }
}

/// The run that the client has read.
fn run_drained(stage: ChannelStage) -> Option<BegunRun>
    ensures { result ≡ drained_run stage }
{
    match stage {
        ChannelStage::Drained { run } => Some(run),
        _ => None,
    }
}

/// The state of a channel whose file is not to be ended.
fn other_state(stage: ChannelStage) -> ChannelState
    ensures { result ≡ state_otherwise stage }
{
    match stage {
        ChannelStage::Idle => ChannelState::Idle,
        ChannelStage::Broken { .. } => ChannelState::Broken,
        _ => ChannelState::Writing,
    }
}

/// The stage behind the answer to a stop.
fn settled_stage(stage: ChannelStage) -> ChannelStage
    ensures { result ≡ stage_settled stage }
{
    match stage {
        ChannelStage::Idle | ChannelStage::Drained { .. } | ChannelStage::Broken { .. } => {
            ChannelStage::Idle
        }
        other => other,
    }
}

/// The run that the channel writes, or that broke off.
fn run_had(stage: ChannelStage) -> Option<ChannelRun>
    ensures { result ≡ channel_run stage }
{
    match stage {
        ChannelStage::Idle => None,
        ChannelStage::Asking { opened } => Some(opened),
        ChannelStage::Writing { opened, .. } => Some(opened),
        ChannelStage::Draining { run } => Some(run.opened),
        ChannelStage::Drained { run } => Some(run.opened),
        ChannelStage::Broken { run, .. } => Some(run.opened),
    }
}

/// How many files of its run a channel has made.
fn files_by(stage: ChannelStage) -> u32
    requires few { IfSome (written_run stage) (λ opened. opened.at.sub ≤ last_number) }
    ensures { result ≡ files_by stage }
{
    match stage {
        ChannelStage::Idle => 0,
        ChannelStage::Asking { opened } => opened.at.sub + 1,
        ChannelStage::Writing { opened, .. } => opened.at.sub + 1,
        ChannelStage::Draining { run } => run.opened.at.sub + 1,
        ChannelStage::Drained { run } => run.opened.at.sub + 1,
        ChannelStage::Broken { fallen, .. } => fallen.files,
    }
}

/// How many files of its run have both records and were closed without a fault, once the last is ended and this is told of it.
fn framed_by(stage: ChannelStage, state: ChannelState) -> u32
    requires few { IfSome (written_run stage) (λ opened. opened.at.sub ≤ last_number) }
    ensures { result ≡ framed_by stage state }
{
    match stage {
        ChannelStage::Idle => 0,
        ChannelStage::Asking { opened } => opened.at.sub,
        ChannelStage::Writing { opened, .. } => opened.at.sub,
        ChannelStage::Draining { run } => run.opened.at.sub,
        ChannelStage::Drained { run } => match state {
            ChannelState::Ended => run.opened.at.sub + 1,
            _ => run.opened.at.sub,
        },
        ChannelStage::Broken { fallen, .. } => fallen.framed,
    }
}

/// What is told of a channel in this state, whose stage was this before its files were ended.
fn told_end(stage: ChannelStage, state: ChannelState) -> ChannelEnd
    requires few { IfSome (written_run stage) (λ opened. opened.at.sub ≤ last_number) }
    ensures told { result ≡ end_of stage state }
    ensures state { result.state ≡ state }
{
    ChannelEnd {
        state,
        files: files_by(stage),
        framed: framed_by(stage, state),
    }
}

/// Whether both were done.
fn both(first: Result<(), Failed>, second: Result<(), Failed>) -> Result<(), Failed>
    ensures { result ≡ both_done first second }
{
    match first {
        Ok(()) => second,
        Err(failed) => Err(failed),
    }
}

/// Closes the file that is written in this stage, if there is one.
fn close_written<F: Files>(files: &mut F, stage: ChannelStage) -> Result<(), Failed>
    requires { IfSome (written_run stage) (λ opened.
        IsTrue ((F.told files.old).seen.writes opened.at.file)) }
    ensures some { OnErr result (IsSome (written_run stage)) }
    ensures closes { ClosesOpen (written_run stage) (F.told files.old).seen (F.told files.new).seen }
    ensures faults { CountsFault (F.told files.old).faults (F.told files.new).faults result }
    ensures clashes { (F.told files.new).clashes ≡ (F.told files.old).clashes }
    ensures first { NamesFirst (name_written (F.told files.old).seen (written_run stage))
        (F.told files.old).first (F.told files.new).first result }
{
    match run_written(stage) {
        Some(opened) => files.close(opened.at.file),
        None => Ok(()),
    }
}

/// Ends the file of a run that was read: it gets its end record, where the end of the run was marked and there is a dump,
/// and is closed, also where a call on it fails.
fn close_read<F: Files>(
    files: &mut F,
    run: BegunRun,
    time: u32,
    dump: &Option<Bytes>,
) -> Result<ChannelState, Failed>
    requires writes { IsTrue ((F.told files.old).seen.writes run.opened.at.file) }
    requires small { IfSome dump.now (λ bytes. length bytes ≤ record_limit) }
    ensures state { IfOk result (λ state. state ≡ state_ended run.ended dump.now) }
    ensures whole { OnOk result (Closes (F.told files.old).seen (F.told files.new).seen run.opened.at.file Closed
        (last_bytes run.opened.run run.ended time dump.now)) }
    ensures part { OnErr result (ClosesPart (F.told files.old).seen (F.told files.new).seen run.opened.at.file
        (last_bytes run.opened.run run.ended time dump.now)) }
    ensures faults { CountsFault (F.told files.old).faults (F.told files.new).faults result }
    ensures clashes { (F.told files.new).clashes ≡ (F.told files.old).clashes }
    ensures first { NamesFirst ((F.told files.old).seen.name_of run.opened.at.file) (F.told files.old).first
        (F.told files.new).first result }
{
    let Some(_) = run.ended else {
        files.close(run.opened.at.file)?;
        return Ok(ChannelState::NoMark);
    };
    let Some(bytes) = dump else {
        files.close(run.opened.at.file)?;
        return Ok(ChannelState::NoEnd);
    };
    end_file(
        files,
        run.opened.at.file,
        run.opened.run,
        time,
        bytes.as_slice(),
    )?;
    Ok(ChannelState::Ended)
}

impl Channel {
    /// Cancels the request that stands, if there is one.
    fn cancel_standing<R: Wait, P: BufferPort>(&self, rt: &R, port: &mut P)
        ensures { CancelsStanding (asking_run self.now.stage) (P.access port.old)
            (P.access port.new) }
    {
        if let Some(opened) = run_asked(self.stage) {
            let _ = port.cancel(rt, opened.client, opened.request);
        }
    }

    /// Closes the file that is written, if there is one, and removes all files of the run, by rising number. A failure is kept
    /// in mind.
    fn drop_files<F: Files>(&mut self, files: &mut F, opened: ChannelRun)
        requires run { channel_run self.old.stage ≡ Some opened }
        requires file { IsLastOpen (F.told files.old).seen self.old.spec (written_run self.old.stage) }
        requires few { files_by self.old.stage ≤ 10000 }
        ensures channel { self.new ≡ record self.old { failed = self.new.failed } }
        ensures drops { DropsFiles self.old.spec (written_run self.old.stage) opened.run
            (files_by self.old.stage) (F.told files.old).seen
            (F.told files.new).seen (F.told files.old).faults (F.told files.new).faults }
        ensures failed { NotesFault self.old.failed self.new.failed (F.told files.old).faults
            (F.told files.new).faults }
        ensures clashes { (F.told files.new).clashes ≡ (F.told files.old).clashes }
        ensures first { NamesRun self.old.spec (Some opened) (written_run self.old.stage)
            (files_by self.old.stage) (F.told files.old).first
            (F.told files.new).first }
    {
        let stage = self.stage;
        let closed = close_written(files, stage);
        let many = files_by(stage);
        let removed = remove_files(files, &self.spec.pattern, opened.run, many);
        match both(closed, removed) {
            Ok(()) => {}
            Err(Failed) => self.failed = true,
        }
    }

    /// Removes the files of the channel's run, if it has one.
    fn remove_run<F: Files>(&mut self, files: &mut F)
        requires file { IsLastOpen (F.told files.old).seen self.old.spec (written_run self.old.stage) }
        requires few { files_by self.old.stage ≤ 10000 }
        ensures channel { self.new ≡ record self.old { failed = self.new.failed } }
        ensures removes { RemovesRun (channel_run self.old.stage) (written_run self.old.stage)
            self.old.spec (files_by self.old.stage)
            (F.told files.old).seen (F.told files.new).seen (F.told files.old).faults (F.told files.new).faults }
        ensures failed { NotesFault self.old.failed self.new.failed (F.told files.old).faults
            (F.told files.new).faults }
        ensures clashes { (F.told files.new).clashes ≡ (F.told files.old).clashes }
        ensures first { NamesRun self.old.spec (channel_run self.old.stage)
            (written_run self.old.stage)
            (files_by self.old.stage) (F.told files.old).first
            (F.told files.new).first }
    {
        let Some(opened) = run_had(self.stage) else {
            return;
        };
        self.drop_files(files, opened);
    }

    /// Calls the run off, if there is one: its request is cancelled, the file that is written is closed, and all files of the
    /// run are removed, by rising number.
    pub fn abort<R: Wait, F: Files, P: BufferPort>(&mut self, rt: &R, files: &mut F, port: &mut P)
        requires file { IsLastOpen (F.told files.old).seen self.old.spec (written_run self.old.stage) }
        requires few { files_by self.old.stage ≤ 10000 }
        ensures channel { self.new ≡ record self.old { stage = Idle; failed = self.new.failed } }
        ensures cancels { CancelsStanding (asking_run self.old.stage) (P.access port.old)
            (P.access port.new) }
        ensures removes { RemovesRun (channel_run self.old.stage) (written_run self.old.stage)
            self.old.spec (files_by self.old.stage)
            (F.told files.old).seen (F.told files.new).seen (F.told files.old).faults (F.told files.new).faults }
        ensures failed { NotesFault self.old.failed self.new.failed (F.told files.old).faults
            (F.told files.new).faults }
        ensures clashes { (F.told files.new).clashes ≡ (F.told files.old).clashes }
        ensures first { NamesRun self.old.spec (channel_run self.old.stage)
            (written_run self.old.stage)
            (files_by self.old.stage) (F.told files.old).first
            (F.told files.new).first }
        ensures keeps { (head : FileHead) →
            ChannelStands self.old.spec self.old.client self.old.stage head (P.access port.old).own
            (P.access port.old).got (F.told files.old).seen →
            ChannelStands self.new.spec self.new.client self.new.stage head (P.access port.new).own
            (P.access port.new).got (F.told files.new).seen }
    {
        self.cancel_standing(rt, port);
        self.remove_run(files);
        self.stage = ChannelStage::Idle;
    }

    /// Ends the file of a run that the channel's client has read, and answers what became of the run's files. A channel that
    /// broke off says so; one that still reads its run goes on.
    pub fn close<F: Files>(&mut self, files: &mut F, time: u32, dump: &Option<Bytes>) -> ChannelEnd
        requires file { IsLastOpen (F.told files.old).seen self.old.spec (written_run self.old.stage) }
        requires small { IfSome dump.now (λ bytes. length bytes ≤ record_limit) }
        ensures channel { self.new ≡ record self.old
            { stage = stage_settled self.old.stage; failed = self.new.failed } }
        ensures told { result ≡ end_of self.old.stage result.state }
        ensures closes { ClosesFile (drained_run self.old.stage) self.old.stage result.state time
            dump.now (F.told files.old).seen (F.told files.new).seen (F.told files.old).faults
            (F.told files.new).faults }
        ensures failed { NotesFault self.old.failed self.new.failed (F.told files.old).faults
            (F.told files.new).faults }
        ensures clashes { (F.told files.new).clashes ≡ (F.told files.old).clashes }
        ensures first { EndNames self.old.spec (drained_run self.old.stage) result.state
            (F.told files.old).first (F.told files.new).first }
        ensures left { (head : FileHead) → (own : List BufferEntry) → (got : List GotEvent) →
            ChannelStands self.old.spec self.old.client self.old.stage head own got
            (F.told files.old).seen →
            HasLeft (left_run self.old.stage) result self.old.spec head time dump.now own got
            (F.told files.new).seen }
        ensures keeps { (head : FileHead) → (own : List BufferEntry) → (got : List GotEvent) →
            ChannelStands self.old.spec self.old.client self.old.stage head own got
            (F.told files.old).seen →
            ChannelStands self.new.spec self.new.client self.new.stage head own got
            (F.told files.new).seen }
    {
        let stage = self.stage;
        let state = self.close_file(files, time, dump);
        told_end(stage, state)
    }

    /// Ends the file of a run that the channel's client has read, and answers what became of it.
    fn close_file<F: Files>(
        &mut self,
        files: &mut F,
        time: u32,
        dump: &Option<Bytes>,
    ) -> ChannelState
        requires file { IsLastOpen (F.told files.old).seen self.old.spec (written_run self.old.stage) }
        requires small { IfSome dump.now (λ bytes. length bytes ≤ record_limit) }
        ensures channel { self.new ≡ record self.old
            { stage = stage_settled self.old.stage; failed = self.new.failed } }
        ensures closes { ClosesFile (drained_run self.old.stage) self.old.stage result time dump.now
            (F.told files.old).seen (F.told files.new).seen (F.told files.old).faults (F.told files.new).faults }
        ensures failed { NotesFault self.old.failed self.new.failed (F.told files.old).faults
            (F.told files.new).faults }
        ensures clashes { (F.told files.new).clashes ≡ (F.told files.old).clashes }
        ensures first { EndNames self.old.spec (drained_run self.old.stage) result
            (F.told files.old).first (F.told files.new).first }
    {
        let stage = self.stage;
        self.stage = settled_stage(stage);
        let Some(run) = run_drained(stage) else {
            return other_state(stage);
        };
        match close_read(files, run, time, dump) {
            Ok(state) => state,
            Err(Failed) => {
                self.failed = true;
                ChannelState::Broken
            }
        }
    }
}
