// The main thread's place at a shared engine.
ghost use Rattle.std.specs.Prelude.{◌≡◌, ◌≢◌, ◌+◌, ◌≤◌, ◌++◌, ◌∷◌, [], length, None, Some, Ok, IsOk, IsTrue, false};
ghost use Rattle.daq_types.specs.Callers.{main_caller};
ghost use Rattle.daq_types.specs.declared.runs.StartOutcome.TheVariants.{Completed};
ghost use Rattle.daq_types.specs.declared.runs.Transition.TheVariants.{Start};
ghost use Rattle.transitions.specs.States.{is_allowed};
ghost use Rattle.turn_lock.specs.Passes.{number_of, held_by, own_entries, IsOf};
ghost use Rattle.transitions.specs.declared.entry.EngineEntry.TheVariants.{Close};
ghost use Rattle.transitions.specs.Engines.{engine_opening};
ghost use Rattle.transitions.specs.Limits.{most_clients};
ghost use Rattle.member_model.specs.RunEngines.{IsSheet};
ghost use Rattle.transition_lock.specs.SharedEngines.{engine_lock_of, first_engine};
ghost use Rattle.session_runs.specs.MainKnowledge.{known_from, begin_known, known_behind, state_behind};
ghost use Rattle.session_runs.specs.MadeTransitions.{DrivesTransition};
ghost use Rattle.session_runs.specs.Members.{registrations};

use crate::engine_making::{Made, make_transition};
use crate::opening::{MemberName, close, register_all};
use daq_types::{RunState, StartOutcome, Transition};
use member_crew::Rounds;
use member_model::{Sheet, Tallies};
use std::marker::Model;
use std::sync::Wait;
use transition_lock::{EnginePass, SharedEngine};
use transitions::{BeginRefusal, after, allowed};

/// The main thread's place at a shared engine, by the pass of number 0. From its own calls it knows the run state and the
/// number of the last start. Between two calls no transition is in progress, and the engine is open.
#[derive(Drop)]
pub struct MainSeat<'a> {
    engine: &'a SharedEngine,
    pass: EnginePass,
    state: RunState,
    starts: u32,
}

impl<'a> Model for MainSeat<'a> {
    ghost use Rattle.std.specs.Prelude.{◌≡◌, None, false};
    ghost use Rattle.daq_types.specs.Callers.{main_caller};
    ghost use Rattle.turn_lock.specs.Passes.{number_of, held_by, own_entries, IsOf};
    ghost use Rattle.transitions.specs.Engines.{engine_opening};
    ghost use Rattle.transition_lock.specs.SharedEngines.{engine_lock_of, first_engine};
    ghost use Rattle.session_runs.specs.MainKnowledge.{known_from};
    ghost use Rattle.session_runs.specs.MainSeats.{MainSeen};

    ghost Value = { MainSeen };

    ghost view = { λ s. record { engine = s.engine.now; own = own_entries s.pass } };

    ghost invariant = { λ s. (number_of s.pass ≡ main_caller)
        × (IsOf (engine_lock_of s.engine.now) s.pass)
        × (held_by s.pass ≡ None)
        × (first_engine s.engine.now ≡ engine_opening)
        × ((known_from (own_entries s.pass)).closed ≡ false)
        × ((known_from (own_entries s.pass)).going ≡ None)
        × ((known_from (own_entries s.pass)).state ≡ s.state)
        × ((known_from (own_entries s.pass)).starts ≡ s.starts) };
}

/// The run state behind a transition that ended so.
fn state_after(state: RunState, transition: Transition, outcome: StartOutcome) -> RunState
    requires { IsTrue (is_allowed state transition) }
    ensures { result ≡ state_behind outcome (Some transition) state }
{
    match outcome {
        StartOutcome::Completed => after(state, transition),
        StartOutcome::Refused { .. } => state,
    }
}

impl<'a> MainSeat<'a> {
    ghost use Rattle.session_runs.specs.MainSeats.{StandsFree};

    /// The place of the main thread at an engine that has made no transition, by the pass of number 0, which made no call
    /// yet. Takes no memory.
    pub fn new(engine: &'a SharedEngine, pass: EnginePass) -> MainSeat<'a>
        requires main { number_of pass ≡ main_caller }
        requires own { IsOf (engine_lock_of engine.now) pass }
        requires idle { held_by pass ≡ None }
        requires opening { first_engine engine.now ≡ engine_opening }
        requires fresh { own_entries pass ≡ [] }
        ensures engine { result.engine ≡ engine.now }
        ensures calls { result.own ≡ [] }
    {
        MainSeat {
            engine,
            pass,
            state: RunState::Stopped,
            starts: 0,
        }
    }

    /// The run state, which stands until the next transition. Calls nothing.
    pub fn state(&self) -> RunState
        ensures state { result ≡ (known_from self.now.own).state }
        ensures between { StandsFree self.now.own }
    {
        self.state
    }

    /// The start number with which this transition would begin, or why it would be refused. Calls nothing.
    pub fn begins(&self, transition: Transition) -> Result<u32, BeginRefusal>
        ensures { result ≡ begin_known (known_from self.now.own) transition }
    {
        if !allowed(self.state, transition) {
            return Err(BeginRefusal::WrongState { state: self.state });
        }
        match transition {
            Transition::Start if self.starts == u32::MAX => Err(BeginRefusal::LastStart),
            Transition::Start => Ok(self.starts + 1),
            _ => Ok(self.starts),
        }
    }

    /// Registers the members in order, with their sequence numbers. Each gets the client number behind the one before it; the
    /// logger gets the database's text, and an analyzer a report to count in.
    pub fn register_all<R: Wait>(&mut self, rt: &R, members: &[MemberName])
        requires room { length (known_from self.old.own).clients + length members.now
            ≤ most_clients }
        ensures registered { self.new.own ≡ self.old.own
            ++ registrations (length (known_from self.old.own).clients) members.now }
        ensures state { (known_from self.new.own).state ≡ (known_from self.old.own).state }
        ensures starts { (known_from self.new.own).starts ≡ (known_from self.old.own).starts }
        ensures engine { self.new.engine ≡ self.old.engine }
    {
        register_all(rt, self.engine, &mut self.pass, members);
    }

    /// Makes a transition that would begin: begins it, and gives the members rounds for as long as it is in progress. The tallies
    /// that the clients answered come into the empty list.
    pub fn make<R: Wait, M: Rounds>(
        &mut self,
        rt: &R,
        transition: Transition,
        sheet: Sheet,
        tallies: &mut Tallies,
        members: &mut M,
    ) -> Made
        requires begins { IsOk (begin_known (known_from self.old.own) transition) }
        requires sheet { IsSheet sheet }
        requires empty { tallies.old ≡ [] }
        ensures begun { begin_known (known_from self.old.own) transition ≡ Ok result.start }
        ensures made { DrivesTransition M.round transition sheet result.start result.outcome
            tallies.new self.old.own self.new.own members.old members.new }
        ensures known { known_from self.new.own
            ≡ known_behind transition result.outcome (known_from self.old.own) }
        ensures last { (known_from self.new.own).starts ≡ result.start }
        ensures completed { transition ≢ Start → result.outcome ≡ Completed }
        ensures engine { self.new.engine ≡ self.old.engine }
    {
        let made = make_transition(
            rt,
            self.engine,
            &mut self.pass,
            transition,
            sheet,
            tallies,
            members,
        );
        self.state = state_after(self.state, transition, made.outcome);
        self.starts = made.start;
        made
    }

    /// Closes the engine, and gives the pass back. The clients find the engine closed from then on.
    pub fn close<R: Wait>(self, rt: &R) -> EnginePass
        ensures closed { own_entries result ≡ self.entry.own ++ Close (Ok tt) ∷ [] }
        ensures main { number_of result ≡ main_caller }
        ensures own { IsOf (engine_lock_of self.entry.engine) result }
        ensures idle { held_by result ≡ None }
    {
        let MainSeat {
            engine,
            mut pass,
            ..
        } = self;
        close(rt, engine, &mut pass);
        pass
    }
}
