// What the main thread's own calls on the engine refuse.
ghost use Rattle.std.specs.Prelude.{◌≡◌, IsOk, IfNone, IfSome};
ghost use Rattle.session_runs.specs.MainKnowledge.{known_from, begin_known};
ghost use Rattle.session_runs.specs.MainSeats.{StandsFree};
ghost use Rattle.session_runs.specs.RunAnswers.{RefusesKnown};

use crate::MainSeat;
use crate::replies::RunReply;
use daq_types::Transition;
use transitions::BeginRefusal;

/// The reply where the engine would refuse the transition. Calls nothing.
pub(crate) fn refusal_of(seat: &MainSeat<'_>, transition: Transition) -> Option<RunReply>
    ensures refused { IfSome result (λ reply. RefusesKnown reply (known_from seat.now.own)
        transition) }
    ensures begins { IfNone result (IsOk (begin_known (known_from seat.now.own) transition)) }
    ensures between { StandsFree seat.now.own }
{
    let _state = seat.state();
    match seat.begins(transition) {
        Ok(_) => None,
        Err(BeginRefusal::WrongState { state }) => Some(RunReply::WrongState { state }),
        Err(BeginRefusal::LastStart) => Some(RunReply::LastStart),
        Err(_) => unreachable!(),
    }
}
