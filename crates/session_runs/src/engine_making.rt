// A transition by the main thread.
ghost use Rattle.std.specs.Prelude.{◌≡◌, ◌≢◌, [], None, Some, Ok, IsOk};
ghost use Rattle.daq_types.specs.Callers.{main_caller};
ghost use Rattle.daq_types.specs.declared.runs.StartOutcome.TheVariants.{Completed};
ghost use Rattle.daq_types.specs.declared.runs.Transition.TheVariants.{Start};
ghost use Rattle.turn_lock.specs.Passes.{number_of, held_by, own_entries, seen_by, IsOf};
ghost use Rattle.transitions.specs.Engines.{engine_opening};
ghost use Rattle.member_model.specs.RunEngines.{IsLegalEngine, IsSheet};
ghost use Rattle.transition_lock.specs.SharedEngines.{engine_lock_of, first_engine};
ghost use Rattle.session_runs.specs.MainKnowledge.{known_from, begin_known, known_behind};
ghost use Rattle.session_runs.specs.MadeTransitions.{WaitsForEnd, DrivesTransition};

use daq_types::{StartOutcome, Transition};
use history_laws::engines::{main_has_transition, tallies_answered};
use member_crew::Rounds;
use member_model::{Sheet, Tallies};
use std::sync::Wait;
use transition_lock::{EnginePass, SharedEngine};
use transitions::Progress;

/// A transition that was made.
#[derive(Clone, Copy, Debug, PartialEq, Eq)]
pub struct Made {
    /// The start number of its run.
    pub start: u32,
    /// Whether a client refused, which only a start can be.
    pub outcome: StartOutcome,
}

/// Rounds until the transition that is going on has ended, before each of which the engine is checked. Nothing is owed about
/// the end: it comes with the last member's answer.
fn wait_for_end<R: Wait, M: Rounds>(
    rt: &R,
    engine: &SharedEngine,
    main: &mut EnginePass,
    tallies: &mut Tallies,
    members: &mut M,
) -> StartOutcome
    requires main { number_of main.old ≡ main_caller }
    requires own { IsOf (engine_lock_of engine.now) main.old }
    requires idle { held_by main.old ≡ None }
    requires opening { first_engine engine.now ≡ engine_opening }
    requires empty { tallies.old ≡ [] }
    requires going { (t : _) × ((known_from (own_entries main.old)).going ≡ Some t) }
    ensures waits { WaitsForEnd M.round result tallies.new (own_entries main.old)
        (own_entries main.new) members.old members.new }
    ensures main { number_of main.new ≡ main_caller }
    ensures own { IsOf (engine_lock_of engine.now) main.new }
    ensures idle { held_by main.new ≡ None }
    ensures legal { IsLegalEngine (first_engine engine.now) (seen_by main.new) }
{
    for _ in rt.forever() {
        let progress = engine.check(rt, main, tallies);
        match progress {
            Progress::Going => members.round(rt),
            Progress::Done { outcome } => return outcome,
            Progress::None => unreachable!(),
        }
    }
    unreachable!()
}

/// Makes a transition that would begin: begins it, and gives the members rounds for as long as it is in progress. The tallies that
/// the clients answered come into the empty list.
pub(crate) fn make_transition<R: Wait, M: Rounds>(
    rt: &R,
    engine: &SharedEngine,
    main: &mut EnginePass,
    transition: Transition,
    sheet: Sheet,
    tallies: &mut Tallies,
    members: &mut M,
) -> Made
    requires main { number_of main.old ≡ main_caller }
    requires own { IsOf (engine_lock_of engine.now) main.old }
    requires idle { held_by main.old ≡ None }
    requires opening { first_engine engine.now ≡ engine_opening }
    requires begins { IsOk (begin_known (known_from (own_entries main.old)) transition) }
    requires sheet { IsSheet sheet }
    requires empty { tallies.old ≡ [] }
    ensures begun { begin_known (known_from (own_entries main.old)) transition ≡ Ok result.start }
    ensures made { DrivesTransition M.round transition sheet result.start result.outcome
        tallies.new (own_entries main.old) (own_entries main.new) members.old members.new }
    ensures known { known_from (own_entries main.new)
        ≡ known_behind transition result.outcome (known_from (own_entries main.old)) }
    ensures completed { transition ≢ Start → result.outcome ≡ Completed }
    ensures main { number_of main.new ≡ main_caller }
    ensures own { IsOf (engine_lock_of engine.now) main.new }
    ensures idle { held_by main.new ≡ None }
{
    main_has_transition();
    tallies_answered();
    match engine.begin(rt, main, transition, sheet) {
        Ok(start) => {
            let outcome = wait_for_end(rt, engine, main, tallies, members);
            Made { start, outcome }
        }
        Err(_) => unreachable!(),
    }
}
