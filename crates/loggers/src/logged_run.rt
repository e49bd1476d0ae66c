use daq_types::Bytes;

/// How far the run is that a logger was last told to start.
#[derive(Clone, Copy, PartialEq, Eq)]
pub enum RunPart {
    /// Its start was refused.
    Refused,
    /// Its start was accepted, and no stop of it has come.
    Started,
    /// A stop of it has come, at this time, and is not answered.
    Stopping { time: u32 },
}

/// The run that a logger was last told to start, until that is over.
#[derive(Clone, Copy)]
pub struct LoggedRun {
    /// The start number.
    pub start: u32,
    /// How many buffers, from the first on, the logger has begun it in and not ended it.
    pub begun: usize,
    pub part: RunPart,
}

/// The dumps of the run that a logger was last told to start, until that is over: each file of the run begins with the
/// first, and the last one ends with the other.
#[derive(Drop)]
pub struct RunDumps {
    /// The dump of its start, if that was accepted.
    pub start: Option<Bytes>,
    /// The dump of the stop that is not answered.
    pub stop: Option<Bytes>,
}
