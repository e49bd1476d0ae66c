use crate::replies::{MarkRefusal, NoClient, NoSlot, Received, RequestRefusal, SendRefusal};
use daq_types::{Event, Kind, Name};

/// A call on a buffer, with its arguments and its reply.
#[derive(Drop)]
pub enum BufferEntry {
    Attach {
        name: Name,
        reply: Result<u32, NoSlot>,
    },
    Detach {
        client: u32,
        reply: Result<(), NoClient>,
    },
    Request {
        client: u32,
        id: u16,
        mask: u16,
        kind: Kind,
        reply: Result<u32, RequestRefusal>,
    },
    Cancel {
        client: u32,
        request: u32,
        reply: Result<(), RequestRefusal>,
    },
    /// `stated` is the length that the header states.
    Send {
        stated: u32,
        event: Event,
        reply: Result<u64, SendRefusal>,
    },
    SendInRun {
        start: u32,
        stated: u32,
        event: Event,
        reply: Result<u64, SendRefusal>,
    },
    /// `room` is how much data fits.
    Receive {
        client: u32,
        room: u32,
        reply: Received,
    },
    Begin {
        start: u32,
        reply: Result<u64, MarkRefusal>,
    },
    Pause {
        start: u32,
        reply: Result<u64, MarkRefusal>,
    },
    Resume {
        start: u32,
        reply: Result<u64, MarkRefusal>,
    },
    End {
        start: u32,
        reply: Result<u64, MarkRefusal>,
    },
    Level {
        reply: u64,
    },
    Accepted {
        reply: u64,
    },
}
