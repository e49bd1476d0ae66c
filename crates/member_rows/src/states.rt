//! The table of allowed transitions, and that of the sequence numbers.
use daq_types::{RunState, Transition};
use std::test::Fail;
use transitions::{Role, after, allowed};

/// States, transitions, and the state that follows where the transition is allowed.
const TRANSITIONS: &[(RunState, Transition, Option<RunState>)] = &[
    (
        RunState::Stopped,
        Transition::Start,
        Some(RunState::Running),
    ),
    (RunState::Stopped, Transition::Stop, None),
    (RunState::Stopped, Transition::Pause, None),
    (RunState::Stopped, Transition::Resume, None),
    (RunState::Running, Transition::Start, None),
    (RunState::Running, Transition::Stop, Some(RunState::Stopped)),
    (RunState::Running, Transition::Pause, Some(RunState::Paused)),
    (RunState::Running, Transition::Resume, None),
    (RunState::Paused, Transition::Start, None),
    (RunState::Paused, Transition::Stop, Some(RunState::Stopped)),
    (RunState::Paused, Transition::Pause, None),
    (
        RunState::Paused,
        Transition::Resume,
        Some(RunState::Running),
    ),
    (RunState::Stopped, Transition::StartAbort, None),
    (RunState::Running, Transition::StartAbort, None),
    (RunState::Paused, Transition::StartAbort, None),
];

#[test]
fn transitions_by_state(rt: HostRuntime) {
    for (state, transition, next) in TRANSITIONS {
        let found = if allowed(*state, *transition) {
            Some(after(*state, *transition))
        } else {
            None
        };
        assert!(rt; found == *next);
    }
}

/// The numbers of the role, at start, stop, pause, resume and start-abort.
fn numbers_of(role: Role) -> [Option<u32>; 5] {
    let sequences = role.sequences();
    [
        sequences.get(Transition::Start),
        sequences.get(Transition::Stop),
        sequences.get(Transition::Pause),
        sequences.get(Transition::Resume),
        sequences.get(Transition::StartAbort),
    ]
}

#[test]
fn numbers_by_role(rt: HostRuntime) -> Result<(), Fail> {
    assert!(rt;
        numbers_of(Role::FrontEnd) == [Some(500), Some(500), Some(500), Some(500), Some(500)]
    );
    assert!(rt;
        numbers_of(Role::Logger) == [Some(200), Some(800), Some(800), Some(200), Some(800)]
    );
    assert!(rt; numbers_of(Role::Analyzer) == [Some(300), Some(900), None, None, Some(900)]);
    Ok(())
}
