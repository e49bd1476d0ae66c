use buffer_core::RunGate;

/// What a builder got of one of its inputs.
#[derive(Clone, Copy, PartialEq, Eq)]
pub enum BuildPull {
    /// The event of this place, which is the next one of the run and is held.
    Took { place: u64 },
    /// The event of this place, which has another start number than the run.
    Dropped { place: u64 },
    /// Nothing.
    Nothing,
    /// Nothing was asked for, since an event of this input is held already.
    Waiting,
    /// An event that cannot be built with.
    Failed,
}

/// What became of the event that a builder had to send.
#[derive(Clone, Copy, PartialEq, Eq)]
pub enum BuildStep {
    /// It was sent, and stands at this place.
    Sent { place: u64 },
    /// It has to wait, since this client has yet to get the event of this place.
    Held { client: u32, place: u64 },
    /// It has to wait, since the run is not on in the buffer.
    Shut { gate: RunGate },
    /// It is not sent any more: the buffer takes no more events.
    Spent { total: u64 },
    /// There was none.
    NoWork,
}
