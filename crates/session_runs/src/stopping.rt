// A stop of the run that is on.
ghost use Rattle.std.specs.Prelude.{◌≡◌, ◌≤◌, [], length, IfOk, OnErr};
ghost use Rattle.odb_text.specs.Dumps.{dump_limit};
ghost use Rattle.daq_types.specs.declared.runs.StartOutcome.TheVariants.{Completed};
ghost use Rattle.daq_types.specs.declared.runs.Transition.TheVariants.{Stop};
ghost use Rattle.session_runs.specs.KeptRuns.{record_of};
ghost use Rattle.session_runs.specs.MainKnowledge.{known_from};
ghost use Rattle.session_runs.specs.RunEntries.{AnnouncesStop, dump_saved};
ghost use Rattle.session_runs.specs.RunAnswers.{AddsSuch, AnswersStop, StopsUnsaved, ReadsClock, point_of};

use crate::channels::RunChannel;
use crate::making::sheet_for;
use crate::on::{CurrentRun, OpenRun, RunRooms};
use crate::replies::RunReply;
use crate::run_keys::RunKeys;
use crate::runs::{Runs, reporter_count, sender_count};
use crate::tallied::{take_files, take_fronts, take_reports};
use crate::{MainSeat, RunRecord};
use daq_io::Clock;
use daq_types::{Bytes, NoMemory, StartOutcome, Transition};
use member_crew::Rounds;
use member_model::Tallies;
use odb_watch::WatchPort;
use odb_watch::port_laws::calls_add_up;
use std::alloc::Global;
use std::sync::Wait;

/// Announces a stop in the database, before it begins: reads the clock, sets the run's parameters, and takes the text of the
/// database.
fn announce_stop<R: Wait, D: WatchPort, C: Clock>(
    rt: &R,
    alloc: Global,
    keys: &RunKeys,
    database: &mut D,
    clock: &mut C,
    seat: &MainSeat<'_>,
) -> (u32, Result<Bytes, NoMemory>)
    ensures reading { ReadsClock (C.told clock.old)
        (C.told clock.new) result.0 }
    ensures calls { AddsSuch (AnnouncesStop (known_from seat.now.own).state result.0 result.1)
        (D.access database.old) (D.access database.new) }
    ensures dump { IfOk result.1 (λ dump. length dump ≤ dump_limit) }
{
    calls_add_up();
    let time = clock.now();
    keys.set_stopping(rt, alloc, database, seat, time);
    let saved = database.save(rt, alloc);
    (time, saved)
}

/// The text that was saved, if there was memory for it.
fn dump_saved(saved: Result<Bytes, NoMemory>) -> Option<Bytes>
    ensures { result ≡ dump_saved saved }
{
    match saved {
        Ok(dump) => Some(dump),
        Err(_) => None,
    }
}

/// The record of a run that was stopped at this time, in the room that was taken for it, with nothing yet of what the clients
/// told.
fn untold_record(ended: OpenRun, time: u32) -> RunRecord
    ensures { result ≡ record {
      run = ended.run.run;
      start = ended.run.start;
      time0 = ended.run.time;
      time1 = time;
      outcome = Completed;
      fronts = [];
      files = [];
      reports = [];
    } }
{
    let OpenRun { run, rooms } = ended;
    let RunRooms {
        fronts,
        files,
        reports,
        ..
    } = rooms;
    RunRecord {
        run: run.run,
        start: run.start,
        time0: run.time,
        time1: time,
        outcome: StartOutcome::Completed,
        fronts,
        files,
        reports,
    }
}

/// The record of a run that was stopped at this time, by what the clients told, in the room that was taken for it.
fn record_of(
    ended: OpenRun,
    time: u32,
    count: u32,
    channels: &[RunChannel],
    analyzers: u32,
    tallies: &mut Tallies,
) -> RunRecord
    requires fronts { count ≤ 32 }
    requires channels { length channels.now ≤ 16 }
    requires analyzers { analyzers ≤ 8 }
    ensures { result ≡ record_of count channels.now analyzers ended.run time tallies.old }
{
    let mut record = untold_record(ended, time);
    take_fronts(&mut record.fronts, count, tallies.as_slice());
    take_files(&mut record.files, channels, count, tallies.as_slice());
    take_reports(&mut record.reports, count + 1, analyzers, tallies);
    record
}

impl<'a> Runs<'a> {
    /// Answers `stop`. Where there is no memory for the text of the database, the run is stopped all the same, without it,
    /// and then the answer is that memory was wanting.
    pub fn stop<R: Wait, D: WatchPort, M: Rounds, C: Clock>(
        &mut self,
        rt: &R,
        alloc: Global,
        database: &mut D,
        members: &mut M,
        clock: &mut C,
    ) -> Result<RunReply, NoMemory>
        ensures did { IfOk result (λ reply. AnswersStop M.round reply
            (C.told clock.old)
            (C.told clock.new)
            (point_of self.old (D.access database.old) members.old)
            (point_of self.new (D.access database.new) members.new)) }
        ensures unsaved { OnErr result (StopsUnsaved M.round
            (C.told clock.old)
            (C.told clock.new)
            (point_of self.old (D.access database.old) members.old)
            (point_of self.new (D.access database.new) members.new)) }
    {
        let state = self.seat.state();
        let Some(open) = self.on.take() else {
            return Ok(RunReply::WrongState { state });
        };
        calls_add_up();
        let CurrentRun { run, quota, .. } = open.run;
        let keys = &open.rooms.keys;
        let (time, saved) = announce_stop(rt, alloc, keys, database, clock, &self.seat);
        let lacking = saved.is_err();
        let sheet = sheet_for(alloc, run, time, quota, dump_saved(saved));
        let tallies = &mut self.tallies;
        let _ = self
            .seat
            .make(rt, Transition::Stop, sheet, tallies, members);
        keys.set_state(rt, alloc, database, &self.seat);
        let count = sender_count(&self.members) as u32;
        let analyzers = reporter_count(&self.members) as u32;
        self.runs.push_reserved(record_of(
            open,
            time,
            count,
            self.channels.as_slice(),
            analyzers,
            &mut self.tallies,
        ));
        self.tallies.clear();
        if lacking {
            return Err(NoMemory);
        }
        Ok(RunReply::Stopped { run })
    }
}
