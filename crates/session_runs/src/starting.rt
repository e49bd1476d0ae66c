// A start of a run.
ghost use Rattle.std.specs.Prelude.{◌≡◌, ◌≤◌, ◌<◌, ◌^◌, ◌∷◌, ◌++◌, [], length, None, Some, Ok, IsOk, IfOk, OnErr, OnOk};
ghost use Rattle.daq_types.specs.Callers.{main_caller};
ghost use Rattle.odb_text.specs.Dumps.{dump_limit};
ghost use Rattle.odb_runinfo.specs.RunSets.{SetsNumbers};
ghost use Rattle.daq_types.specs.declared.runs.RunState.TheVariants.{Running};
ghost use Rattle.daq_types.specs.declared.runs.StartOutcome.TheVariants.{Completed};
ghost use Rattle.daq_types.specs.declared.runs.Transition.TheVariants.{Start};
ghost use Rattle.session_runs.specs.MainKnowledge.{known_from, begin_known};
ghost use Rattle.member_model.specs.RunEngines.{IsSheet};
ghost use Rattle.session_runs.specs.KeptRuns.{refused_start};
ghost use Rattle.session_runs.specs.RunEntries.{AnnounceCalls, outcome_sets};
ghost use Rattle.session_runs.specs.RunAnswers.{AddsSuch, AnnouncesRun, AnswersStart, CutsAnnouncing, CutsStart, AnswersBegin, CutsBegin, ReadsClock, point_of};

use crate::making::{blank_reports, make_untold, start_sheet};
use crate::on::{CurrentRun, OpenRun, RunRooms};
use crate::refusing::refusal_of;
use crate::replies::RunReply;
use crate::run_keys::RunKeys;
use crate::runs::{Runs, reporter_count};
use crate::{MainSeat, RunRecord};
use daq_io::Clock;
use daq_types::{Bytes, NoMemory, StartOutcome, Transition};
use member_crew::Rounds;
use member_model::Sheet;
use odb_runinfo::{RunNumber, next_run};
use odb_watch::WatchPort;
use odb_watch::port_laws::{calls_add_up, entries_add_up};
use std::alloc::Global;
use std::sync::Wait;

/// Announces a run in the database, before it begins: reads the clock, sets the run's parameters, and takes the text of the
/// database.
fn announce<R: Wait, D: WatchPort, C: Clock>(
    rt: &R,
    alloc: Global,
    keys: &RunKeys,
    database: &mut D,
    clock: &mut C,
    run: u32,
) -> (u32, Result<Bytes, NoMemory>)
    requires small { run < 2 ^ 31 }
    ensures reading { ReadsClock (C.told clock.old)
        (C.told clock.new) result.0 }
    ensures calls { AddsSuch (AnnounceCalls run result.0 result.1) (D.access database.old) (D.access database.new) }
    ensures dump { IfOk result.1 (λ dump. length dump ≤ dump_limit) }
{
    calls_add_up();
    let time = clock.now();
    keys.set_starting(rt, alloc, database, run, time);
    let saved = database.save(rt, alloc);
    (time, saved)
}

/// Takes all memory that a run needs up to its end, and announces it in the database: the run's rooms, and what it is begun with.
fn announce_run<R: Wait, D: WatchPort, C: Clock>(
    rt: &R,
    alloc: Global,
    database: &mut D,
    clock: &mut C,
    run: u32,
    quota: u32,
    count: usize,
) -> Result<(RunRooms, Sheet), NoMemory>
    requires small { run < 2 ^ 31 }
    ensures announced { IfOk result (λ made. AnnouncesRun run quota count
        (C.told clock.old)
        (C.told clock.new)
        (D.access database.old) (D.access database.new) made.1) }
    ensures sheet { IfOk result (λ made. IsSheet made.1) }
    ensures interrupted { OnErr result (CutsAnnouncing run
        (C.told clock.old)
        (C.told clock.new)
        (D.access database.old) (D.access database.new)) }
{
    let rooms = RunRooms::new(alloc)?;
    let blanks = blank_reports(alloc, count)?;
    let (time, saved) = announce(rt, alloc, &rooms.keys, database, clock, run);
    let Ok(dump) = saved else {
        return Err(NoMemory);
    };
    Ok((rooms, start_sheet(run, time, quota, dump, blanks)))
}

/// Sets what a start that ended so sets last, as the main thread knows by then.
fn set_outcome<R: Wait, D: WatchPort>(
    rt: &R,
    alloc: Global,
    keys: &RunKeys,
    database: &mut D,
    seat: &MainSeat<'_>,
    run: u32,
    outcome: StartOutcome,
)
    requires first { 1 ≤ run }
    requires small { run < 2 ^ 31 }
    requires known { outcome ≡ Completed → (known_from seat.now.own).state ≡ Running }
    ensures { SetsNumbers (D.access database.old) (D.access database.new)
        (outcome_sets run outcome) }
{
    match outcome {
        StartOutcome::Completed => keys.set_state(rt, alloc, database, seat),
        StartOutcome::Refused { .. } => keys.set_back(rt, alloc, database, run),
    }
}

/// The record of a start that was refused, in the room that was taken for it.
fn refused_record(rooms: RunRooms, run: CurrentRun, outcome: StartOutcome) -> RunRecord
    ensures { result ≡ refused_start run outcome }
{
    let RunRooms {
        fronts,
        files,
        reports,
        ..
    } = rooms;
    RunRecord {
        run: run.run,
        start: run.start,
        time0: run.time,
        time1: 0,
        outcome,
        fronts,
        files,
        reports,
    }
}

/// What `start` is answered where the database has no next run number.
fn no_number(refusal: RunNumber) -> RunReply
    ensures { result ≡ RunReply.RunNumber refusal.have }
{
    RunReply::RunNumber { have: refusal.have }
}

impl<'a> Runs<'a> {
    /// Starts the run of this number, where the engine allows it.
    fn start_run<R: Wait, D: WatchPort, M: Rounds, C: Clock>(
        &mut self,
        rt: &R,
        alloc: Global,
        database: &mut D,
        members: &mut M,
        clock: &mut C,
        run: u32,
    ) -> Result<RunReply, NoMemory>
        requires begins { IsOk (begin_known (known_from self.old.main.own) Start) }
        requires idle { self.old.on ≡ None }
        requires first { 1 ≤ run }
        requires small { run < 2 ^ 31 }
        ensures did { IfOk result (λ reply. AnswersBegin M.round run reply
            (C.told clock.old)
            (C.told clock.new)
            (point_of self.old (D.access database.old) members.old)
            (point_of self.new (D.access database.new) members.new)) }
        ensures interrupted { OnErr result (CutsBegin run
            (C.told clock.old)
            (C.told clock.new)
            (point_of self.old (D.access database.old) members.old)
            (point_of self.new (D.access database.new) members.new)) }
    {
        self.runs.reserve(1)?;
        let quota = self.quota;
        let count = reporter_count(&self.members);
        let (rooms, sheet) = announce_run(rt, alloc, database, clock, run, quota, count)?;
        let time = sheet.time;
        calls_add_up();
        let made = make_untold(
            rt,
            &mut self.seat,
            Transition::Start,
            sheet,
            &mut self.tallies,
            members,
        );
        let (keys, seat) = (&rooms.keys, &self.seat);
        set_outcome(rt, alloc, keys, database, seat, run, made.outcome);
        let current = CurrentRun {
            run,
            start: made.start,
            time,
            quota,
        };
        match made.outcome {
            StartOutcome::Completed => {
                self.on = Some(OpenRun {
                    run: current,
                    rooms,
                });
                Ok(RunReply::Started { run })
            }
            StartOutcome::Refused { client, why } => {
                self.runs
                    .push_reserved(refused_record(rooms, current, made.outcome));
                Ok(RunReply::StartRefused { client, why })
            }
        }
    }

    /// Answers `start`. All memory that the run needs up to its end is taken before it is announced in the database, but for
    /// the text of the database.
    pub fn start<R: Wait, D: WatchPort, M: Rounds, C: Clock>(
        &mut self,
        rt: &R,
        alloc: Global,
        database: &mut D,
        members: &mut M,
        clock: &mut C,
    ) -> Result<RunReply, NoMemory>
        ensures did { IfOk result (λ reply. AnswersStart M.round reply
            (C.told clock.old)
            (C.told clock.new)
            (point_of self.old (D.access database.old) members.old)
            (point_of self.new (D.access database.new) members.new)) }
        ensures interrupted { OnErr result (CutsStart
            (C.told clock.old)
            (C.told clock.new)
            (point_of self.old (D.access database.old) members.old)
            (point_of self.new (D.access database.new) members.new)) }
    {
        if let Some(reply) = refusal_of(&self.seat, Transition::Start) {
            return Ok(reply);
        }
        match next_run(rt, alloc, database)? {
            Err(refusal) => Ok(no_number(refusal)),
            Ok(run) => self.start_run(rt, alloc, database, members, clock, run),
        }
    }
}
