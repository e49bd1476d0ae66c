//! One table of rows for both buffers.
use buffer_core::{
    EventBuffer, MarkRefusal, NoClient, NoSlot, Received, RequestRefusal, RunGate, SendRefusal,
};
use daq_types::{Kind, Name, NoMemory};
use event::{EventBuf, Header};
use plain_buffer::PlainBuffer;
use ring_buffer::{Ring, RingBuffer};
use std::process::Abort;
use std::test::Fail;

/// A call with the reply that it must get.
#[derive(Clone, Copy)]
pub(crate) enum Step {
    Attach(Result<u32, NoSlot>),
    Detach(u32, Result<(), NoClient>),
    /// The client, the id, the mask and the kind.
    Request(u32, u16, u16, Kind, Result<u32, RequestRefusal>),
    Cancel(u32, u32, Result<(), RequestRefusal>),
    /// The id, the mask and the length of the data.
    Send(u16, u16, usize, Result<u64, SendRefusal>),
    /// An event whose header states 8 bytes, with 7.
    SendShort(Result<u64, SendRefusal>),
    /// The start number.
    SendInRun(u32, Result<u64, SendRefusal>),
    /// The first event of a run's front-end, with the start number.
    SendFirst(u32, Result<u64, SendRefusal>),
    Receive(u32, Received),
    /// With room for so many bytes.
    ReceiveInto(u32, u32, Received),
    /// The first client gets the event of this place and start number, with this id and mask and so
    /// many bytes of data.
    Given(u64, u32, u16, u16, usize),
    Begin(u32, Result<u64, MarkRefusal>),
    Pause(u32, Result<u64, MarkRefusal>),
    Resume(u32, Result<u64, MarkRefusal>),
    End(u32, Result<u64, MarkRefusal>),
    Level(u64),
    Accepted(u64),
}

use Kind::{All, NonBlocking};
use Step::*;

const ANY: u16 = 0xFFFF;

/// The least length of data whose event does not fit into a buffer of 256 bytes.
const TOO_LONG: usize = 233;

/// The bytes of the data of an event of this id.
fn data_of(id: u16) -> [u8; TOO_LONG] {
    [id.to_le_bytes()[0]; TOO_LONG]
}

/// The first event that a front-end sends in a run.
const FIRST: Header = Header {
    event_id: 1,
    trigger_mask: 0,
    serial_number: 1,
    time_stamp: 1000,
    data_size: 24,
};

const FIRST_DATA: &[u8] = &[
    0x10, 0, 0, 0, 1, 0, 0, 0, 0x47, 0x45, 0x4E, 0x30, 6, 0, 4, 0, 0xAC, 0x6F, 0x57, 0x6C, 0, 0, 0,
    0,
];

fn header(id: u16, mask: u16, size: u32) -> Header {
    Header {
        event_id: id,
        trigger_mask: mask,
        serial_number: 1,
        time_stamp: 0,
        data_size: size,
    }
}

fn sent<B: EventBuffer>(
    rt: &impl Abort,
    buffer: &mut B,
    id: u16,
    mask: u16,
    size: usize,
) -> Result<u64, SendRefusal> {
    let data = data_of(id);
    assert!(rt; size <= data.len());
    buffer.send(&header(id, mask, size as u32), &data[..size])
}

/// What a receive with room for so many bytes answers.
fn received<R: AllocGlobal, B: EventBuffer>(
    rt: &R,
    buffer: &mut B,
    client: u32,
    room: u32,
) -> Result<Received, NoMemory> {
    let mut into = EventBuf::new(rt.alloc(), room)?;
    Ok(buffer.receive(client, &mut into))
}

/// Whether the first client gets an event of this id and mask and with so many bytes of data.
fn is_given<R: Abort + AllocGlobal, B: EventBuffer>(
    rt: &R,
    buffer: &mut B,
    reply: Received,
    id: u16,
    mask: u16,
    size: usize,
) -> Result<bool, NoMemory> {
    let data = data_of(id);
    assert!(rt; size <= data.len());
    let mut into = EventBuf::new(rt.alloc(), TOO_LONG as u32)?;
    let is_right = buffer.receive(0, &mut into) == reply;
    Ok(is_right && into.header() == header(id, mask, size as u32) && into.body() == &data[..size])
}

/// Makes the call, and answers whether its reply is the right one.
pub(crate) fn is_right<R: Abort + AllocGlobal, B: EventBuffer>(
    rt: &R,
    buffer: &mut B,
    step: Step,
) -> Result<bool, NoMemory> {
    Ok(match step {
        Attach(reply) => buffer.attach(name(rt)) == reply,
        Detach(client, reply) => buffer.detach(client) == reply,
        Request(client, id, mask, kind, reply) => buffer.request(client, id, mask, kind) == reply,
        Cancel(client, request, reply) => buffer.cancel(client, request) == reply,
        Send(id, mask, size, reply) => sent(rt, buffer, id, mask, size) == reply,
        SendShort(reply) => buffer.send(&header(1, 0, 8), &data_of(1)[..7]) == reply,
        SendInRun(start, reply) => {
            buffer.send_in_run(start, &header(1, 0, 24), &data_of(1)[..24]) == reply
        }
        SendFirst(start, reply) => buffer.send_in_run(start, &FIRST, FIRST_DATA) == reply,
        Receive(client, reply) => received(rt, buffer, client, TOO_LONG as u32)? == reply,
        ReceiveInto(client, room, reply) => received(rt, buffer, client, room)? == reply,
        Given(place, start, id, mask, size) => {
            is_given(rt, buffer, Received::Got { place, start }, id, mask, size)?
        }
        Begin(start, reply) => buffer.begin(start) == reply,
        Pause(start, reply) => buffer.pause(start) == reply,
        Resume(start, reply) => buffer.resume(start) == reply,
        End(start, reply) => buffer.end(start) == reply,
        Level(level) => buffer.level() == level,
        Accepted(accepted) => buffer.accepted() == accepted,
    })
}

fn name(rt: &impl Abort) -> Name {
    Name::new(b"ANA").expect(rt, "a name")
}

/// Makes the calls, and compares their replies.
pub(crate) fn run_all<R: Abort + AllocGlobal, B: EventBuffer>(
    rt: &R,
    buffer: &mut B,
    steps: &[Step],
) -> Result<(), Fail> {
    for (place, step) in steps.iter().enumerate() {
        assert!(rt; is_right(rt, buffer, *step)?, "call {place}");
    }
    Ok(())
}

/// What a receive finds where there is nothing more and no run was on.
const NOTHING: Received = Received::Empty {
    gate: RunGate::Shut,
    last: 0,
};

pub(crate) const MUST_GET: &[Step] = &[
    Attach(Ok(0)),
    Request(0, 1, ANY, All, Ok(0)),
    Send(1, 0, 8, Ok(0)),
    Send(1, 0, 8, Ok(1)),
    Send(1, 0, 8, Ok(2)),
    Send(1, 0, 8, Ok(3)),
    Send(1, 0, 8, Ok(4)),
    Send(1, 0, 8, Ok(5)),
    Send(1, 0, 8, Ok(6)),
    Send(1, 0, 8, Ok(7)),
    Level(256),
    Send(
        1,
        0,
        8,
        Err(SendRefusal::Full {
            client: 0,
            place: 0,
        }),
    ),
    Receive(0, Received::Got { place: 0, start: 0 }),
    Send(1, 0, 8, Ok(8)),
    Accepted(9),
];

pub(crate) const PUSHED: &[Step] = &[
    Attach(Ok(0)),
    Request(0, 1, ANY, NonBlocking, Ok(0)),
    Send(1, 0, 8, Ok(0)),
    Send(1, 0, 8, Ok(1)),
    Send(1, 0, 8, Ok(2)),
    Send(1, 0, 8, Ok(3)),
    Send(1, 0, 8, Ok(4)),
    Send(1, 0, 8, Ok(5)),
    Send(1, 0, 8, Ok(6)),
    Send(1, 0, 8, Ok(7)),
    Send(1, 0, 8, Ok(8)),
    Receive(0, Received::Got { place: 1, start: 0 }),
];

pub(crate) const NOT_OWED: &[Step] = &[
    Attach(Ok(0)),
    Request(0, 2, ANY, All, Ok(0)),
    Send(1, 0, 8, Ok(0)),
    Send(2, 0, 8, Ok(1)),
    Send(1, 0, 8, Ok(2)),
    Send(1, 0, 8, Ok(3)),
    Send(1, 0, 8, Ok(4)),
    Send(1, 0, 8, Ok(5)),
    Send(1, 0, 8, Ok(6)),
    Send(1, 0, 8, Ok(7)),
    Send(1, 0, 8, Ok(8)),
    Send(
        1,
        0,
        8,
        Err(SendRefusal::Full {
            client: 0,
            place: 1,
        }),
    ),
];

pub(crate) const REFUSED: &[Step] = &[
    Send(
        1,
        0,
        TOO_LONG,
        Err(SendRefusal::TooLarge {
            slot: 264,
            size: 256,
        }),
    ),
    Send(0x8000, 0, 8, Err(SendRefusal::ReservedId { id: 0x8000 })),
    Send(0x8001, 0, 8, Err(SendRefusal::ReservedId { id: 0x8001 })),
    Send(0xD123, 0, 8, Err(SendRefusal::ReservedId { id: 0xD123 })),
    SendShort(Err(SendRefusal::BadSize {
        stated: 8,
        given: 7,
    })),
    Accepted(0),
    Send(1, 0, 232, Ok(0)),
    Level(256),
];

/// The third event lies over the end of the ring, at the offsets 192 to 287.
pub(crate) const OVER_THE_END: &[Step] = &[
    Attach(Ok(0)),
    Request(0, ANY, ANY, All, Ok(0)),
    Send(1, 0, 72, Ok(0)),
    Send(2, 0, 72, Ok(1)),
    Given(0, 0, 1, 0, 72),
    Send(3, 0, 72, Ok(2)),
    Given(1, 0, 2, 0, 72),
    ReceiveInto(0, 71, Received::SmallBuf { need: 72 }),
    Given(2, 0, 3, 0, 72),
    Receive(0, NOTHING),
    Detach(0, Ok(())),
];

const GIVEN_AS_SENT: &[Step] = &[
    Attach(Ok(0)),
    Request(0, ANY, ANY, All, Ok(0)),
    Begin(4, Ok(0)),
    Send(2, 3, 8, Ok(0)),
    SendInRun(4, Ok(1)),
    Given(0, 0, 2, 3, 8),
    Given(1, 4, 1, 0, 24),
];

const MATCHED: &[Step] = &[
    Attach(Ok(0)),
    Attach(Ok(1)),
    Attach(Ok(2)),
    Request(0, ANY, ANY, All, Ok(0)),
    Request(1, ANY, 1, All, Ok(0)),
    Request(2, ANY, 0, All, Ok(0)),
    Send(1, 0, 8, Ok(0)),
    Send(1, 2, 8, Ok(1)),
    Send(1, 3, 8, Ok(2)),
    Receive(0, Received::Got { place: 0, start: 0 }),
    Receive(1, Received::Got { place: 2, start: 0 }),
    Receive(2, NOTHING),
    Receive(3, Received::NoClient),
];

pub(crate) const CANCELLED: &[Step] = &[
    Attach(Ok(0)),
    Request(0, 1, ANY, All, Ok(0)),
    Request(0, ANY, ANY, All, Ok(1)),
    Send(1, 0, 8, Ok(0)),
    Send(2, 0, 8, Ok(1)),
    Receive(0, Received::Got { place: 0, start: 0 }),
    Cancel(0, 1, Ok(())),
    Cancel(0, 1, Err(RequestRefusal::NoRequest)),
    Cancel(1, 0, Err(RequestRefusal::NoClient)),
    Receive(0, NOTHING),
];

pub(crate) const PASSED_OVER: &[Step] = &[
    Attach(Ok(0)),
    Request(0, 2, ANY, All, Ok(0)),
    Send(1, 0, 8, Ok(0)),
    Send(1, 0, 8, Ok(1)),
    Send(1, 0, 8, Ok(2)),
    Send(1, 0, 8, Ok(3)),
    Send(1, 0, 8, Ok(4)),
    Send(1, 0, 8, Ok(5)),
    Send(1, 0, 8, Ok(6)),
    Send(1, 0, 8, Ok(7)),
    Receive(0, NOTHING),
    Send(1, 0, 8, Ok(8)),
];

pub(crate) const GATED: &[Step] = &[
    Begin(1, Ok(0)),
    Begin(2, Err(MarkRefusal::GateOpen { start: 1 })),
    SendInRun(
        2,
        Err(SendRefusal::NotRunning {
            gate: RunGate::Running(1),
        }),
    ),
    Pause(1, Ok(0)),
    SendInRun(
        1,
        Err(SendRefusal::NotRunning {
            gate: RunGate::Paused(1),
        }),
    ),
    Resume(1, Ok(0)),
    SendInRun(1, Ok(0)),
    Pause(1, Ok(1)),
    End(1, Ok(1)),
    Begin(1, Err(MarkRefusal::OldStart { last: 1 })),
    Resume(
        1,
        Err(MarkRefusal::WrongGate {
            gate: RunGate::Shut,
        }),
    ),
    Begin(2, Ok(1)),
    Resume(
        2,
        Err(MarkRefusal::WrongGate {
            gate: RunGate::Running(2),
        }),
    ),
    End(
        1,
        Err(MarkRefusal::WrongGate {
            gate: RunGate::Running(2),
        }),
    ),
];

const SHUT_AGAIN: &[Step] = &[
    Begin(1, Ok(0)),
    Begin(2, Err(MarkRefusal::GateOpen { start: 1 })),
    SendFirst(
        2,
        Err(SendRefusal::NotRunning {
            gate: RunGate::Running(1),
        }),
    ),
    Pause(1, Ok(0)),
    End(1, Ok(0)),
    Begin(1, Err(MarkRefusal::OldStart { last: 1 })),
    Resume(
        1,
        Err(MarkRefusal::WrongGate {
            gate: RunGate::Shut,
        }),
    ),
];

const DETACHED: &[Step] = &[
    Attach(Ok(0)),
    Attach(Ok(1)),
    Request(0, 1, ANY, All, Ok(0)),
    Request(1, 1, ANY, NonBlocking, Ok(0)),
    Send(1, 0, 8, Ok(0)),
    Send(1, 0, 8, Ok(1)),
    Send(1, 0, 8, Ok(2)),
    Send(1, 0, 8, Ok(3)),
    Send(1, 0, 8, Ok(4)),
    Send(1, 0, 8, Ok(5)),
    Send(1, 0, 8, Ok(6)),
    Send(1, 0, 8, Ok(7)),
    Send(
        1,
        0,
        8,
        Err(SendRefusal::Full {
            client: 0,
            place: 0,
        }),
    ),
    Detach(0, Ok(())),
    Send(1, 0, 8, Ok(8)),
    Level(256),
    Receive(1, Received::Got { place: 1, start: 0 }),
];

const BOTH_SILENT: &[Step] = &[
    Attach(Ok(0)),
    Attach(Ok(1)),
    Request(0, 1, ANY, All, Ok(0)),
    Request(1, 1, ANY, All, Ok(0)),
    Send(1, 0, 8, Ok(0)),
    Send(1, 0, 8, Ok(1)),
    Send(1, 0, 8, Ok(2)),
    Send(1, 0, 8, Ok(3)),
    Send(1, 0, 8, Ok(4)),
    Send(1, 0, 8, Ok(5)),
    Send(1, 0, 8, Ok(6)),
    Send(1, 0, 8, Ok(7)),
    Send(
        1,
        0,
        8,
        Err(SendRefusal::Full {
            client: 0,
            place: 0,
        }),
    ),
    Detach(0, Ok(())),
    Send(
        1,
        0,
        8,
        Err(SendRefusal::Full {
            client: 1,
            place: 0,
        }),
    ),
];

/// What events a buffer holds back and gives, and which calls it refuses.
const ROWS: &[&[Step]] = &[
    // A client that must get all events holds back sends.
    MUST_GET,
    // A client that need not get them is pushed.
    PUSHED,
    // Events that nobody is owed are dropped.
    NOT_OWED,
    // Events that are no good are refused.
    REFUSED,
    // An event over the end of the ring is given whole, and stays where the room is too small.
    OVER_THE_END,
    // An event is given with its header, its data and its start number.
    GIVEN_AS_SENT,
    // Requests match by id and mask.
    MATCHED,
    // A cancelled request asks no more.
    CANCELLED,
    // A client that has passed over all events holds back none.
    PASSED_OVER,
    // The gate lets one run in.
    GATED,
    // It shuts behind a run that was paused, whose number is old then.
    SHUT_AGAIN,
    // A client that is gone holds back none.
    DETACHED,
    // Of two that hold back a send, the other still does when one is gone.
    BOTH_SILENT,
];

/// A request and a client give their numbers back, which are the next ones then.
const FREED: &[Step] = &[
    Request(7, 1, ANY, All, Err(RequestRefusal::NoRequestSlot)),
    Cancel(7, 3, Ok(())),
    Request(7, 1, ANY, All, Ok(3)),
    Detach(5, Ok(())),
    Detach(5, Err(NoClient)),
    Request(5, 1, ANY, All, Err(RequestRefusal::NoClient)),
    Attach(Ok(5)),
    Request(5, 1, ANY, All, Ok(0)),
];

fn use_numbers_again<R: Abort + AllocGlobal, B: EventBuffer>(
    rt: &R,
    buffer: &mut B,
) -> Result<(), Fail> {
    for client in 0..64 {
        assert_eq!(rt; buffer.attach(name(rt)), Ok(client));
    }
    assert_eq!(rt; buffer.attach(name(rt)), Err(NoSlot));
    for request in 0..10 {
        assert_eq!(rt; buffer.request(7, 1, ANY, All), Ok(request));
    }
    run_all(rt, buffer, FREED)
}

/// Makes the calls on a new buffer of 256 bytes of each kind.
fn both_run<R: Abort + AllocGlobal>(rt: &R, steps: &[Step]) -> Result<(), Fail> {
    run_all(rt, &mut PlainBuffer::new(rt.alloc(), 256)?, steps)?;
    run_all(
        rt,
        &mut RingBuffer::over(Ring::new(rt.alloc(), 256)?),
        steps,
    )
}

#[test]
fn both_buffers_reply_by_the_rows(rt: HostRuntime) -> Result<(), Fail> {
    for steps in ROWS {
        both_run(&rt, steps)?;
    }
    use_numbers_again(&rt, &mut PlainBuffer::new(rt.alloc(), 256)?)?;
    use_numbers_again(&rt, &mut RingBuffer::over(Ring::new(rt.alloc(), 256)?))
}
