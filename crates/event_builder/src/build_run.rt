/// Why a builder could not go on.
#[derive(Clone, Copy, PartialEq, Eq)]
pub enum BuildFault {
    /// An event of this input has so many bytes of data, more than there is room for.
    SmallRoom { input: u32, need: u32 },
    /// The k-th event of this input has this serial number, and not k.
    Serial { input: u32, k: u64, have: u32 },
    /// The data of the k-th event of this input are no bank area.
    NotBanks { input: u32, k: u64 },
    /// The k-th built event would have so many bytes of data, more than may be.
    TooBig { k: u64, size: u64 },
}

/// How a builder came to the end of a run.
#[derive(Clone, Copy, PartialEq, Eq)]
pub enum BuiltEnd {
    /// All events of one of its inputs were built with.
    All,
    /// The run was stopped while it was paused.
    Paused,
    /// Its buffer takes no more events; `total` is the sum of the slots of all that it ever took.
    Spent { total: u64 },
    /// It could not go on.
    Fault(BuildFault),
}

/// A run of which a builder builds the events.
#[derive(Clone, Copy)]
pub struct BuildRun {
    /// The start number.
    pub start: u32,
    /// How many built events were sent.
    pub sent: u32,
    /// Whether the run was stopped.
    pub stopped: bool,
    /// How the builder came to its end, once it has.
    pub ended: Option<BuiltEnd>,
}

/// What a builder tells of a run when that is stopped.
#[derive(Clone, Copy, PartialEq, Eq)]
pub struct BuiltRun {
    /// How many built events were sent.
    pub sent: u64,
    /// How the builder came to the end of the run.
    pub ended: BuiltEnd,
}
