use sub_files::{Fallen, OpenFile};

/// A run that a channel writes.
#[derive(Clone, Copy)]
pub struct ChannelRun {
    /// The run number.
    pub run: u32,
    /// The start number.
    pub start: u32,
    /// The time of its start, in seconds.
    pub time: u32,
    /// The file that is written.
    pub at: OpenFile,
    /// The client that reads the buffer.
    pub client: u32,
    /// The number of its request.
    pub request: u32,
}

/// A run that was begun, as its client reads it.
#[derive(Clone, Copy)]
pub struct BegunRun {
    pub opened: ChannelRun,
    /// The place at which it was begun.
    pub begun: u64,
    /// The place at which it was ended, once that is marked.
    pub ended: Option<u64>,
}

/// How far a channel is.
#[derive(Clone, Copy)]
pub enum ChannelStage {
    /// It writes no run.
    Idle,
    /// The first file has its begin record, and the request was made; the run is not begun yet.
    Asking { opened: ChannelRun },
    /// The run is on. It was begun at this place.
    Writing { opened: ChannelRun, begun: u64 },
    /// The run was stopped, and the client is not drained.
    Draining { run: BegunRun },
    /// The client was drained, and its request cancelled. The last file has no end record yet.
    Drained { run: BegunRun },
    /// A call on the files failed. They were closed, and the request cancelled. The run goes on, and may yet be ended.
    Broken { run: BegunRun, fallen: Fallen },
}
