use daq_types::{Bytes, Order, RunState, StartOutcome, Transition};

/// Why a client was not registered.
#[derive(Clone, Copy, Debug, PartialEq, Eq)]
pub enum RegisterRefusal {
    Closed,
    /// This transition is in progress.
    InProgress { transition: Transition },
    /// There are 64 clients.
    NoSlot,
}

/// Why a transition was not begun.
#[derive(Clone, Copy, Debug, PartialEq, Eq)]
pub enum BeginRefusal {
    Closed,
    /// This transition is in progress.
    InProgress { transition: Transition },
    /// The transition is not allowed in this state.
    WrongState { state: RunState },
    /// The last start number was given.
    LastStart,
}

/// What a client finds that asks whether it has its turn.
#[derive(Drop)]
pub enum Polled<R> {
    /// It has its turn of this transition and is to answer.
    Turn {
        transition: Transition,
        order: Order,
        dump: Option<Bytes>,
        blank: Option<R>,
    },
    Idle {
        state: RunState,
    },
    Closed,
    NoClient,
}

/// No turn of that client was polled and is unanswered.
#[derive(Clone, Copy, Debug, PartialEq, Eq)]
pub struct NotYourTurn;

/// How far the transition is.
#[derive(Clone, Copy, Debug, PartialEq, Eq)]
pub enum Progress {
    /// A turn is unanswered.
    Going,
    /// All turns are answered. This is told once.
    Done { outcome: StartOutcome },
    /// No transition is in progress.
    None,
}

/// The transition that is in progress.
#[derive(Clone, Copy, Debug, PartialEq, Eq)]
pub struct InProgress {
    pub transition: Transition,
}
