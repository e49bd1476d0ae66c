ghost use Rattle.std.specs.Prelude.{◌≡◌};
ghost use Rattle.daq_types.specs.Transitions.{transition_bit};

/// What a request asks of a buffer when it is full.
#[derive(Clone, Copy, Debug, PartialEq, Eq)]
pub enum Kind {
    /// GET_ALL: no matching event is dropped before the client got it; senders wait.
    All,
    /// GET_NONBLOCKING: events may be dropped unread.
    NonBlocking,
}

/// The state of the run, with the numbers that MIDAS keeps in `/Runinfo/State`.
#[derive(Clone, Copy, Debug, PartialEq, Eq)]
pub enum RunState {
    Stopped = 1,
    Paused = 2,
    Running = 3,
}

/// A change of the run state, or the call-off of a start that a client refused.
#[derive(Clone, Copy, Debug, PartialEq, Eq)]
pub enum Transition {
    Start,
    Stop,
    Pause,
    Resume,
    StartAbort,
}

impl Transition {
    /// The transition's bit in MIDAS's masks of transitions: 1 start, 2 stop, 4 pause, 8 resume, 16 start-abort.
    pub fn bit(self) -> u32
        ensures { result ≡ transition_bit self }
    {
        match self {
            Transition::Start => 1,
            Transition::Stop => 2,
            Transition::Pause => 4,
            Transition::Resume => 8,
            Transition::StartAbort => 16,
        }
    }
}

/// What the members are told of a run at a transition.
#[derive(Clone, Copy, Debug, PartialEq, Eq)]
pub struct Order {
    /// The run number, which is used again after a refused start.
    pub run: u32,
    /// The start number, which is never used again.
    pub start: u32,
    /// When the transition was ordered, in seconds since 1970.
    pub time: u32,
    /// The state before the transition.
    pub from: RunState,
    /// How many events each front-end has to send.
    pub quota: u32,
}

/// What became of a logger channel's file.
#[derive(Clone, Copy, Debug, PartialEq, Eq)]
pub enum ChannelState {
    /// No run is written.
    Idle,
    /// The file is open for writing.
    Writing,
    /// The file's calls failed; the file is left as it was then.
    Broken,
    /// The file is whole, from its begin record to its end record.
    Ended,
    /// The file was closed without an end record, since the end of the run had no dump.
    NoEnd,
    /// The file was closed without an end record, since the end of the run could not be marked.
    NoMark,
}

/// What became of a logger channel's files of a run.
#[derive(Clone, Copy, Debug, PartialEq, Eq)]
pub struct ChannelEnd {
    /// What became of the channel, and so of its last file.
    pub state: ChannelState,
    /// How many files of the run it made.
    pub files: u32,
    /// How many of these, the first ones, have both records and were closed without a fault.
    pub framed: u32,
}

/// How a start ended. Every other transition is completed.
#[derive(Clone, Copy, Debug, PartialEq, Eq)]
pub enum StartOutcome {
    /// Every client took part.
    Completed,
    /// This client refused.
    Refused { client: u32, why: Why },
}

/// Why a client refused a start.
#[derive(Clone, Copy, Debug, PartialEq, Eq)]
pub enum Why {
    /// It is not made for a run of this order.
    NotReady,
    /// The name of this channel's run file was taken.
    Exists { channel: u32 },
    /// A call on the run file of this channel failed.
    Fault { channel: u32 },
    /// A buffer refused what it was asked for.
    BufferRefused,
}

/// Why a front-end sent no more events in a run.
#[derive(Clone, Copy, Debug, PartialEq, Eq)]
pub enum FrontEnded {
    /// It had sent its quota.
    Quota,
    /// The run was stopped while it was paused.
    Paused,
    /// The buffer takes no more events; `total` is the sum of the slots of all that it ever took.
    Spent { total: u64 },
}
