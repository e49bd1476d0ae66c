//! Laws of the turns of one client of an engine: each function does nothing, and its contract is the law.

ghost use Rattle.history_laws.specs.EngineLaws.{GivesEngineTurns, TurnsWereBegun, StartsFromStopped, StopsFromRun, DonesHaveBegins, OthersComplete, TalliesAreAnswers, RefusalsAreAnswers, NosAreRefusals, LoneNosAreRefusals, RefusedAreCalledOff, RunsAreOver, CalledAreTold, MainHasTransition};

use event_report::Report;
use transitions::laws;

/// The turns that a client's caller reads off its own calls are turns as an engine gives them: each start has a new number,
/// and any other turn that of the run that is on, unless the client was not called for the start of its run.
pub fn gives_turns()
    ensures { GivesEngineTurns }
{}

/// Each of these turns is one of a transition that was begun in the history, with its order, the state that the history tells
/// there, and at most its dump: a start from the stopped state, a stop from another.
pub fn turns_begun()
    ensures begun { TurnsWereBegun }
    ensures starts { StartsFromStopped }
    ensures stops { StopsFromRun }
{
    laws::follows::<Report>();
}

/// Each Done belongs to the begin before it, and each tally of a client in it is what its caller answered to the client's turn
/// of that transition; the turn of the one client that wants the dump has it. Only the Done of a start tells a refusal, which is
/// what the caller of the client that it names answered to the client's turn of that start; and behind each No to a turn of a
/// start its Done tells a refusal: this very one where the client is alone in its group.
pub fn tallies_answered()
    ensures begins { DonesHaveBegins }
    ensures completed { OthersComplete }
    ensures tallies { TalliesAreAnswers }
    ensures refusals { RefusalsAreAnswers }
    ensures nos { NosAreRefusals }
    ensures lone { LoneNosAreRefusals }
{
    laws::called_in_order();
    laws::follows::<Report>();
    laws::tallies_belong::<Report>();
}

/// Where a transition was not refused, each client that is called for it has its tally in the Done.
pub fn called_told()
    ensures { CalledAreTold }
{
    laws::called_in_order();
}

/// Where a start was refused, the caller of each client that is called for a start-abort answered its turn of that.
pub fn called_off()
    ensures { RefusedAreCalledOff }
{
    laws::called_in_order();
}

/// A client that is called for each stop and each start-abort is given a start only once all runs before it are over.
pub fn runs_over()
    ensures { RunsAreOver }
{
    laws::called_in_order();
}

/// A transition that the main thread's own calls tell stands in the history of all callers, with the same own calls before
/// it.
pub fn main_has_transition()
    ensures { MainHasTransition }
{}
