// A pause or a resume of the run that is on.
ghost use Rattle.std.specs.Prelude.{◌≡◌, ◌⊎◌, IfOk, IfErr};
ghost use Rattle.daq_types.specs.declared.runs.Transition.TheVariants.{Pause, Resume};
ghost use Rattle.session_runs.specs.MainKnowledge.{known_from};
ghost use Rattle.session_runs.specs.declared.on.CurrentRun.{CurrentRun};
ghost use Rattle.session_runs.specs.RunAnswers.{AnswersPause, AnswersResume, PausesOrResumes, RefusesKnown, point_of};

use crate::making::{make_untold, sheet_for};
use crate::refusing::refusal_of;
use crate::replies::RunReply;
use crate::runs::Runs;
use daq_types::Transition;
use member_crew::Rounds;
use odb_watch::WatchPort;
use odb_watch::port_laws::calls_add_up;
use std::alloc::Global;
use std::sync::Wait;

impl<'a> Runs<'a> {
    /// Pauses the run that is on, or resumes it: its number, or the reply where the engine would refuse that.
    fn change<R: Wait, D: WatchPort, M: Rounds>(
        &mut self,
        rt: &R,
        alloc: Global,
        database: &mut D,
        members: &mut M,
        transition: Transition,
    ) -> Result<u32, RunReply>
        requires { (transition ≡ Pause) ⊎ (transition ≡ Resume) }
        ensures did { IfOk result (λ run. PausesOrResumes M.round transition run
            (point_of self.old (D.access database.old) members.old)
            (point_of self.new (D.access database.new) members.new)) }
        ensures refused { IfErr result (λ reply. RefusesKnown reply
            (known_from self.old.main.own) transition) }
        ensures same { IfErr result (λ _. (point_of self.new (D.access database.new) members.new)
            ≡ (point_of self.old (D.access database.old) members.old)) }
    {
        if let Some(reply) = refusal_of(&self.seat, transition) {
            return Err(reply);
        }
        let Some(open) = &self.on else {
            unreachable!();
        };
        calls_add_up();
        let sheet = sheet_for(alloc, open.run.run, open.run.time, open.run.quota, None);
        let _ = make_untold(
            rt,
            &mut self.seat,
            transition,
            sheet,
            &mut self.tallies,
            members,
        );
        open.rooms.keys.set_state(rt, alloc, database, &self.seat);
        Ok(open.run.run)
    }

    /// Answers `pause`. Takes no memory.
    pub fn pause<R: Wait, D: WatchPort, M: Rounds>(
        &mut self,
        rt: &R,
        alloc: Global,
        database: &mut D,
        members: &mut M,
    ) -> RunReply
        ensures { AnswersPause M.round result
            (point_of self.old (D.access database.old) members.old)
            (point_of self.new (D.access database.new) members.new) }
    {
        match self.change(rt, alloc, database, members, Transition::Pause) {
            Ok(run) => RunReply::Paused { run },
            Err(reply) => reply,
        }
    }

    /// Answers `resume`. Takes no memory.
    pub fn resume<R: Wait, D: WatchPort, M: Rounds>(
        &mut self,
        rt: &R,
        alloc: Global,
        database: &mut D,
        members: &mut M,
    ) -> RunReply
        ensures { AnswersResume M.round result
            (point_of self.old (D.access database.old) members.old)
            (point_of self.new (D.access database.new) members.new) }
    {
        match self.change(rt, alloc, database, members, Transition::Resume) {
            Ok(run) => RunReply::Resumed { run },
            Err(reply) => reply,
        }
    }
}
