//! A buffer with the journal of its calls.
ghost use Rattle.std.specs.Prelude.{◌≤◌};

use buffer_core::{
    BufferEntry, MarkRefusal, NoClient, NoSlot, Received, RequestRefusal, RunGate, SendRefusal,
};
use daq_types::{Caller, Kind, Name, NoMemory};
use event::{EventBuf, Header};
use plain_buffer::{BufferJournal, LocalPort, PlainBuffer};
use std::alloc::Global;
use std::process::Abort;
use std::test::Fail;

/// A call with the reply that it must get.
#[derive(Clone, Copy)]
enum Step {
    Attach(Result<u32, NoSlot>),
    Detach(u32, Result<(), NoClient>),
    /// The client.
    Request(u32, Result<u32, RequestRefusal>),
    Cancel(u32, u32, Result<(), RequestRefusal>),
    /// An event with 8 bytes of data.
    Send(Result<u64, SendRefusal>),
    /// The start number.
    SendInRun(u32, Result<u64, SendRefusal>),
    Receive(u32, Received),
    Begin(u32, Result<u64, MarkRefusal>),
    Pause(u32, Result<u64, MarkRefusal>),
    Resume(u32, Result<u64, MarkRefusal>),
    End(u32, Result<u64, MarkRefusal>),
    Level(u64),
    Accepted(u64),
}

use Step::*;

const ANY: u16 = 0xFFFF;

const DATA: [u8; 24] = [0; 24];

fn header(size: u32) -> Header {
    Header {
        event_id: 1,
        trigger_mask: 1,
        serial_number: 1,
        time_stamp: 0,
        data_size: size,
    }
}

fn name(rt: &impl Abort) -> Name {
    Name::new(b"ANA").expect(rt, "a name")
}

/// Makes the call, and answers whether its reply is the right one.
fn is_right(
    rt: &impl Abort,
    port: &mut LocalPort<PlainBuffer>,
    step: Step,
    into: &mut EventBuf,
) -> bool
    requires room { 1 ≤ port.old.calls }
    requires bytes { 24 ≤ port.old.bytes }
{
    match step {
        Attach(reply) => port.attach(name(rt)) == reply,
        Detach(client, reply) => port.detach(client) == reply,
        Request(client, reply) => port.request(client, ANY, ANY, Kind::All) == reply,
        Cancel(client, request, reply) => port.cancel(client, request) == reply,
        Send(reply) => port.send(&header(8), &DATA[..8]) == reply,
        SendInRun(start, reply) => port.send_in_run(start, &header(24), &DATA[..24]) == reply,
        Receive(client, reply) => port.receive(client, into) == reply,
        Begin(start, reply) => port.begin(start) == reply,
        Pause(start, reply) => port.pause(start) == reply,
        Resume(start, reply) => port.resume(start) == reply,
        End(start, reply) => port.end(start) == reply,
        Level(level) => port.level() == level,
        Accepted(accepted) => port.accepted() == accepted,
    }
}

/// A new buffer of 256 bytes with its journal.
fn new_port(alloc: Global) -> Result<LocalPort<PlainBuffer>, NoMemory> {
    let mut port = LocalPort::new(alloc, PlainBuffer::new(alloc, 256)?);
    port.set_caller(Caller::of_client(3));
    Ok(port)
}

const STEPS: &[Step] = &[
    Attach(Ok(0)),
    Request(0, Ok(0)),
    Send(Ok(0)),
    Begin(4, Ok(1)),
    SendInRun(4, Ok(1)),
    Receive(0, Received::Got { place: 0, start: 0 }),
    Receive(0, Received::Got { place: 1, start: 4 }),
    Pause(4, Ok(2)),
    Resume(4, Ok(2)),
    End(4, Ok(2)),
    Receive(
        0,
        Received::Empty {
            gate: RunGate::Shut,
            last: 4,
        },
    ),
    Cancel(0, 0, Ok(())),
    Level(80),
    Accepted(2),
    Detach(0, Ok(())),
];

/// The same with room for the call in the journal and for an event.
fn is_right_with_room<R: Abort + AllocGlobal>(
    rt: &R,
    port: &mut LocalPort<PlainBuffer>,
    step: Step,
) -> Result<bool, NoMemory> {
    port.reserve(1, 24)?;
    let mut into = EventBuf::new(rt.alloc(), 24)?;
    Ok(is_right(rt, port, step, &mut into))
}

/// Makes the calls up to the first whose reply is wrong. Says how many replies are right.
fn count_right<R: Abort + AllocGlobal>(
    rt: &R,
    port: &mut LocalPort<PlainBuffer>,
) -> Result<usize, NoMemory> {
    for (place, step) in STEPS.iter().enumerate() {
        if !is_right_with_room(rt, port, *step)? {
            return Ok(place);
        }
    }
    Ok(STEPS.len())
}

/// Whether the fifth call of the journal is the send, with its caller and its data.
fn has_send(journal: &BufferJournal) -> bool {
    if journal.len() <= 4 {
        return false;
    }
    let sent = journal.get(4);
    sent.caller == Caller::of_client(3)
        && sent.body == DATA.as_slice()
        && matches!(sent.entry, BufferEntry::SendInRun { start: 4, .. })
}

/// What came of the calls.
#[derive(Drop)]
struct Outcome {
    /// How many replies are right before the first that is wrong.
    right: usize,
    /// How many calls the journal has.
    noted: usize,
    has_send: bool,
}

/// Makes the calls on a new buffer. It and its journal end here, so that the test holds neither while it looks at what
/// came of them.
fn run_of_new<R: Abort + AllocGlobal>(rt: &R) -> Result<Outcome, NoMemory> {
    let mut port = new_port(rt.alloc())?;
    let right = count_right(rt, &mut port)?;
    let (_, journal) = port.into_parts();
    Ok(Outcome {
        right,
        noted: journal.len(),
        has_send: has_send(&journal),
    })
}

#[test]
fn a_buffer_with_a_journal_replies_as_without(rt: HostRuntime) -> Result<(), Fail> {
    let outcome = run_of_new(&rt)?;
    assert!(rt; outcome.right == STEPS.len(), "call {}", outcome.right);
    assert!(rt; outcome.noted == STEPS.len());
    assert!(rt; outcome.has_send);
    Ok(())
}
