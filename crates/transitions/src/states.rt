ghost use Rattle.std.specs.Prelude.{◌≡◌, IsTrue};
ghost use Rattle.transitions.specs.States.{is_allowed, run_state_after};

use daq_types::{RunState, Transition};

/// Whether the transition is allowed in this state. Start-abort is no transition of its own: it follows a start that a
/// client refused.
pub fn allowed(state: RunState, transition: Transition) -> bool
    ensures { result ≡ is_allowed state transition }
{
    match transition {
        Transition::Start => state == RunState::Stopped,
        Transition::Stop => state != RunState::Stopped,
        Transition::Pause => state == RunState::Running,
        Transition::Resume => state == RunState::Paused,
        Transition::StartAbort => false,
    }
}

/// The state behind a transition that is allowed.
pub fn after(state: RunState, transition: Transition) -> RunState
    requires { IsTrue (is_allowed state transition) }
    ensures { result ≡ run_state_after state transition }
{
    match transition {
        Transition::Start | Transition::Resume => RunState::Running,
        Transition::Stop => RunState::Stopped,
        Transition::Pause => RunState::Paused,
        Transition::StartAbort => state,
    }
}
