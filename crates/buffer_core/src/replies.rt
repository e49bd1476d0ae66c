use crate::gate::RunGate;

/// 64 clients are attached.
#[derive(Clone, Copy, Debug, PartialEq, Eq)]
pub struct NoSlot;

/// No client of this number is attached.
#[derive(Clone, Copy, Debug, PartialEq, Eq)]
pub struct NoClient;

/// Why a request was not made or not cancelled.
#[derive(Clone, Copy, Debug, PartialEq, Eq)]
pub enum RequestRefusal {
    /// No client of this number is attached.
    NoClient,
    /// The client has ten requests.
    NoRequestSlot,
    /// The client has no request of this number.
    NoRequest,
}

/// Why an event was not taken. The buffer is as it was.
#[derive(Clone, Copy, Debug, PartialEq, Eq)]
pub enum SendRefusal {
    /// The run of the event is not on.
    NotRunning { gate: RunGate },
    /// The header states another length than the data has, or more than 4,194,304 bytes.
    BadSize { stated: u32, given: u64 },
    /// The id is that of a run record or of a fragment.
    ReservedId { id: u16 },
    /// The event takes more room than the whole buffer has.
    TooLarge { slot: u32, size: u32 },
    /// The events ever taken would take more than 2^62 bytes together; so many they take now.
    Spent { total: u64 },
    /// The event at this place would have to go, and this client has yet to get it.
    Full { client: u32, place: u64 },
}

/// What a receive found.
#[derive(Clone, Copy, Debug, PartialEq, Eq)]
pub enum Received {
    /// The event of this place, sent with this start number (0: in no run).
    Got { place: u64, start: u32 },
    /// There is none. The gate, and the last start number, at that time.
    Empty { gate: RunGate, last: u32 },
    /// No client of this number is attached.
    NoClient,
    /// The next event has so many bytes of data, more than there is room for.
    SmallBuf { need: u32 },
}

/// Why the run gate was not moved.
#[derive(Clone, Copy, Debug, PartialEq, Eq)]
pub enum MarkRefusal {
    /// The gate is open for the run of this start number.
    GateOpen { start: u32 },
    /// The start number is not above the last one, which is this.
    OldStart { last: u32 },
    /// The gate is this, and not the one that the call needs.
    WrongGate { gate: RunGate },
}
