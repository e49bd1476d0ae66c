// A buffer as the counting lock sees it.
use buffer_core::{BufferEntry, EventBuffer};
use std::marker::Model;
use turn_lock::Machine;

/// A buffer under the lock. Its data are the window, and its entries the calls with their replies.
#[derive(Drop)]
pub struct Locked<B: EventBuffer> {
    pub buffer: B,
}

/// The window of a buffer, for contracts alone: no value of this type is made.
pub struct WindowSeen {
    nothing: (),
}

impl Model for WindowSeen {
    ghost use Rattle.buffer_core.specs.Window.{Window, opening};

    ghost Value = { Window };

    ghost view = { λ _. opening 0 };
}

impl<B: EventBuffer> Machine for Locked<B> {
    type State = WindowSeen;

    type Entry = BufferEntry;

    ghost use Rattle.buffer_core.specs.Window.{IsWindow};
    ghost use Rattle.buffer_lock.specs.BufferSteps.{StepsWindow};

    ghost state = { λ locked. B.window locked.buffer };

    ghost step = { StepsWindow };

    ghost sound = { IsWindow };

    // A buffer tells that its window is one by its count.
    fn known(&self) {
        self.buffer.accepted();
    }
}
