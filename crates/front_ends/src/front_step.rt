use buffer_core::RunGate;

/// What a step of a front-end came to.
#[derive(Clone, Copy, PartialEq, Eq)]
pub enum FrontStep {
    /// The next event was taken, at this place.
    Sent { place: u64 },
    /// The buffer is full: this client has yet to get the event at this place.
    Held { client: u32, place: u64 },
    /// The buffer does not take events of the run: its gate is this.
    Shut { gate: RunGate },
    /// The buffer takes no more events; `total` is the sum of the slots of all that it ever took.
    Spent { total: u64 },
    /// There is nothing to send.
    NoWork,
}
