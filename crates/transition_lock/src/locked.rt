// An engine as the counting lock sees it.
use member_model::{Engine, EngineEntry};
use std::marker::Model;
use turn_lock::Machine;

/// An engine under the lock. Its data are the engine's state, and its entries the calls with their replies.
#[derive(Drop)]
pub struct LockedEngine {
    pub engine: Engine,
}

/// The state of an engine, for contracts alone: no value of this type is made.
pub struct EngineSeen {
    nothing: (),
}

impl Model for EngineSeen {
    ghost use Rattle.transitions.specs.Engines.{engine_opening};
    ghost use Rattle.member_model.specs.RunEngines.{EngineState};

    ghost Value = { EngineState };

    ghost view = { λ _. engine_opening };
}

impl Machine for LockedEngine {
    type State = EngineSeen;

    type Entry = EngineEntry;

    ghost use Rattle.transition_lock.specs.EngineSteps.{StepsEngine};

    ghost state = { λ locked. locked.engine };

    ghost step = { StepsEngine };

    fn known(&self) {}
}
