//! The rows of an event builder of two front-ends, whose events have the ids 1 and 2, over ports to plain buffers.

ghost use Rattle.std.specs.Prelude.{◌≡◌, ◌≤◌, ◌<◌, ◌%◌, IfOk, length};
ghost use Rattle.event.specs.Events.{slot_of_length};
ghost use Rattle.member_rows.specs.LoggerRows.{row_access};
ghost use Rattle.member_rows.specs.BuilderRows.{IsBuilderRow};

use crate::making::Port;
use buffer_core::{BufferPort, RequestRefusal, RunGate};
use daq_types::{Kind, Name, NoMemory, Order, RunState, Transition};
use event::{EventBuf, Header};
use event_builder::{
    BuildFault, BuildPull, BuildStep, Builder, BuilderSpec, BuiltEnd, BuiltRun, FrontIds, Ports,
};
use member_model::{Answer, Tally};
use plain_buffer::{OwningPort, PlainBuffer};
use std::alloc::Global;
use std::sync::Wait;

/// The data of the first event that a front-end generates with id 1, and of that with id 2: a bank of one word.
const FIRST: &[u8] = b"\x10\0\0\0\x01\0\0\0GEN0\x06\0\x04\0\xac\x6f\x57\x6c\0\0\0\0";

const SECOND: &[u8] = b"\x10\0\0\0\x01\0\0\0GEN0\x06\0\x04\0\xd9\xee\xec\xb8\0\0\0\0";

/// An area without banks; one that has the flags of no format; and one with 32-bit sizes, of a bank of three bytes.
const EMPTY: &[u8] = b"\0\0\0\0\x01\0\0\0";

const FLAGS: &[u8] = b"\0\0\0\0\x02\0\0\0";

const THREE: &[u8] = b"\x14\0\0\0\x11\0\0\0ABCD\x01\0\0\0\x03\0\0\0\x01\x02\x03\0\0\0\0\0";

/// The event that is built of the two first, with its header; that of two empty areas; and that of three bytes and an empty one.
const BOTH: &[u8] = b"\x0a\0\x03\0\x01\0\0\0\xe8\x03\0\0\x38\0\0\0\x30\0\0\0\x31\0\0\0\
GEN0\x06\0\0\0\x04\0\0\0\0\0\0\0\xac\x6f\x57\x6c\0\0\0\0\
GEN0\x06\0\0\0\x04\0\0\0\0\0\0\0\xd9\xee\xec\xb8\0\0\0\0";

const NO_BANK: &[u8] = b"\x0a\0\x03\0\x01\0\0\0\xe8\x03\0\0\x08\0\0\0\0\0\0\0\x31\0\0\0";

const ONE_BANK: &[u8] = b"\x0a\0\x03\0\x01\0\0\0\xe8\x03\0\0\x20\0\0\0\x18\0\0\0\x31\0\0\0\
ABCD\x01\0\0\0\x03\0\0\0\0\0\0\0\x01\x02\x03\0\0\0\0\0";

/// What a builder has room for, and its output.
#[derive(Clone, Copy)]
enum Setting {
    /// 80 bytes of an event, 56 of a built one, and 1,024 of the output.
    Usual,
    /// 16 of an event.
    SmallRoom,
    /// 55 of a built one.
    SmallLimit,
    /// 256 of the output.
    SmallOutput,
}

/// What is done on the objects of a row, and what has to come of it.
#[derive(Clone, Copy)]
enum Act {
    /// A front-end sends an event of this serial number in the run of this start number.
    Send(usize, u32, u32, &'static [u8]),
    /// The run of this start number begins in the output, where a client asks for all events, and the builder accepts its start.
    Start(u32),
    /// The builder is to stop that run from this state, and its answer has to wait.
    Stop(u32, RunState),
    /// A pull on an input is answered so.
    Pull(u32, BuildPull),
    /// A step is answered so.
    Step(BuildStep),
    /// So the stop is answered, if it is.
    Finish(Option<BuiltRun>),
    /// This is the fault that came.
    Fault(BuildFault),
    /// The client of the output receives this event.
    Read(&'static [u8]),
    /// The run of start number 1 is paused in the output.
    Pause,
    /// It goes on there.
    Resume,
    /// The request of this input was cancelled.
    Cancelled(usize),
}

/// A row: the setting, and what is done, in order.
type Row = (Setting, &'static [Act]);

/// Sets that are built of the events of two inputs.
const SETS: &[Row] = &[
    // The one input has an event more than the other, and the run is stopped while it is on.
    (
        Setting::Usual,
        &[
            Act::Start(1),
            Act::Send(0, 1, 1, FIRST),
            Act::Send(0, 1, 2, FIRST),
            Act::Send(1, 1, 1, SECOND),
            Act::Pull(0, BuildPull::Took { place: 0 }),
            Act::Pull(1, BuildPull::Took { place: 0 }),
            Act::Step(BuildStep::Sent { place: 0 }),
            Act::Read(BOTH),
            Act::Pull(0, BuildPull::Took { place: 1 }),
            Act::Pull(1, BuildPull::Nothing),
            Act::Step(BuildStep::NoWork),
            Act::Stop(1, RunState::Running),
            Act::Finish(None),
            Act::Pull(0, BuildPull::Waiting),
            Act::Pull(1, BuildPull::Nothing),
            Act::Step(BuildStep::NoWork),
            Act::Finish(Some(BuiltRun {
                sent: 1,
                ended: BuiltEnd::All,
            })),
            Act::Cancelled(0),
            Act::Cancelled(1),
            Act::Pull(0, BuildPull::Nothing),
        ],
    ),
    // The same, stopped while it is paused.
    (
        Setting::Usual,
        &[
            Act::Start(1),
            Act::Send(0, 1, 1, FIRST),
            Act::Send(0, 1, 2, FIRST),
            Act::Send(1, 1, 1, SECOND),
            Act::Pull(0, BuildPull::Took { place: 0 }),
            Act::Pull(1, BuildPull::Took { place: 0 }),
            Act::Step(BuildStep::Sent { place: 0 }),
            Act::Pull(0, BuildPull::Took { place: 1 }),
            Act::Stop(1, RunState::Paused),
            Act::Finish(Some(BuiltRun {
                sent: 1,
                ended: BuiltEnd::Paused,
            })),
            Act::Cancelled(0),
            Act::Cancelled(1),
        ],
    ),
    // An event of another run is dropped.
    (
        Setting::Usual,
        &[
            Act::Start(8),
            Act::Send(0, 7, 1, FIRST),
            Act::Send(0, 8, 1, FIRST),
            Act::Send(1, 8, 1, SECOND),
            Act::Pull(0, BuildPull::Dropped { place: 0 }),
            Act::Pull(0, BuildPull::Took { place: 1 }),
            Act::Pull(1, BuildPull::Took { place: 0 }),
            Act::Step(BuildStep::Sent { place: 0 }),
            Act::Read(BOTH),
        ],
    ),
];

/// Events that cannot be built with.
const FAULTS: &[Row] = &[
    // The first event of the second input has serial number 2.
    (
        Setting::Usual,
        &[
            Act::Start(1),
            Act::Send(0, 1, 1, FIRST),
            Act::Send(1, 1, 2, SECOND),
            Act::Pull(0, BuildPull::Took { place: 0 }),
            Act::Pull(1, BuildPull::Failed),
            Act::Fault(BuildFault::Serial {
                input: 1,
                k: 1,
                have: 2,
            }),
            Act::Step(BuildStep::NoWork),
        ],
    ),
    // There is too little room for the first event.
    (
        Setting::SmallRoom,
        &[
            Act::Start(1),
            Act::Send(0, 1, 1, FIRST),
            Act::Pull(0, BuildPull::Failed),
            Act::Fault(BuildFault::SmallRoom { input: 0, need: 24 }),
            Act::Cancelled(0),
            Act::Cancelled(1),
            Act::Step(BuildStep::NoWork),
            Act::Stop(1, RunState::Running),
            Act::Finish(Some(BuiltRun {
                sent: 0,
                ended: BuiltEnd::Fault(BuildFault::SmallRoom { input: 0, need: 24 }),
            })),
        ],
    ),
    // Its data are no bank area.
    (
        Setting::Usual,
        &[
            Act::Start(1),
            Act::Send(0, 1, 1, FLAGS),
            Act::Pull(0, BuildPull::Failed),
            Act::Fault(BuildFault::NotBanks { input: 0, k: 1 }),
        ],
    ),
    // Nor are these, but its serial number is looked at first.
    (
        Setting::Usual,
        &[
            Act::Start(1),
            Act::Send(0, 1, 2, FLAGS),
            Act::Pull(0, BuildPull::Failed),
            Act::Fault(BuildFault::Serial {
                input: 0,
                k: 1,
                have: 2,
            }),
        ],
    ),
    // The built event would have one byte too many.
    (
        Setting::SmallLimit,
        &[
            Act::Start(1),
            Act::Send(0, 1, 1, FIRST),
            Act::Send(1, 1, 1, SECOND),
            Act::Pull(0, BuildPull::Took { place: 0 }),
            Act::Pull(1, BuildPull::Failed),
            Act::Fault(BuildFault::TooBig { k: 1, size: 56 }),
        ],
    ),
];

/// What a built event holds.
const DATA: &[Row] = &[
    (
        Setting::Usual,
        &[
            Act::Start(1),
            Act::Send(0, 1, 1, EMPTY),
            Act::Send(1, 1, 1, EMPTY),
            Act::Pull(0, BuildPull::Took { place: 0 }),
            Act::Pull(1, BuildPull::Took { place: 0 }),
            Act::Step(BuildStep::Sent { place: 0 }),
            Act::Read(NO_BANK),
        ],
    ),
    (
        Setting::Usual,
        &[
            Act::Start(1),
            Act::Send(0, 1, 1, THREE),
            Act::Send(1, 1, 1, EMPTY),
            Act::Pull(0, BuildPull::Took { place: 0 }),
            Act::Pull(1, BuildPull::Took { place: 0 }),
            Act::Step(BuildStep::Sent { place: 0 }),
            Act::Read(ONE_BANK),
        ],
    ),
];

/// A built event that has to wait.
const WAITS: &[Row] = &[
    // The output is full of events that its client has yet to get.
    (
        Setting::SmallOutput,
        &[
            Act::Start(1),
            Act::Send(0, 1, 1, FIRST),
            Act::Send(1, 1, 1, SECOND),
            Act::Pull(0, BuildPull::Took { place: 0 }),
            Act::Pull(1, BuildPull::Took { place: 0 }),
            Act::Step(BuildStep::Sent { place: 0 }),
            Act::Send(0, 1, 2, FIRST),
            Act::Send(1, 1, 2, SECOND),
            Act::Pull(0, BuildPull::Took { place: 1 }),
            Act::Pull(1, BuildPull::Took { place: 1 }),
            Act::Step(BuildStep::Sent { place: 1 }),
            Act::Send(0, 1, 3, FIRST),
            Act::Send(1, 1, 3, SECOND),
            Act::Pull(0, BuildPull::Took { place: 2 }),
            Act::Pull(1, BuildPull::Took { place: 2 }),
            Act::Step(BuildStep::Sent { place: 2 }),
            Act::Send(0, 1, 4, FIRST),
            Act::Send(1, 1, 4, SECOND),
            Act::Pull(0, BuildPull::Took { place: 3 }),
            Act::Pull(1, BuildPull::Took { place: 3 }),
            Act::Step(BuildStep::Held {
                client: 0,
                place: 0,
            }),
            Act::Read(BOTH),
            Act::Step(BuildStep::Sent { place: 3 }),
        ],
    ),
    // The run is paused in the output.
    (
        Setting::Usual,
        &[
            Act::Start(1),
            Act::Send(0, 1, 1, FIRST),
            Act::Send(1, 1, 1, SECOND),
            Act::Pull(0, BuildPull::Took { place: 0 }),
            Act::Pull(1, BuildPull::Took { place: 0 }),
            Act::Pause,
            Act::Step(BuildStep::Shut {
                gate: RunGate::Paused(1),
            }),
            Act::Resume,
            Act::Step(BuildStep::Sent { place: 0 }),
            Act::Read(BOTH),
        ],
    ),
];

/// How many bytes of data an event may have.
fn room_of(setting: Setting) -> u32 {
    match setting {
        Setting::SmallRoom => 16,
        _ => 80,
    }
}

/// How many a built event may have.
fn limit_of(setting: Setting) -> u32
    ensures least { 8 ≤ result }
    ensures most { result ≤ 56 }
    ensures slot { slot_of_length result ≤ 80 }
{
    match setting {
        Setting::SmallLimit => 55,
        _ => 56,
    }
}

/// How many bytes the output has.
fn size_of(setting: Setting) -> u32
    ensures least { 256 ≤ result }
    ensures most { result ≤ 1024 }
    ensures whole { result % 8 ≡ 0 }
{
    match setting {
        Setting::SmallOutput => 256,
        _ => 1024,
    }
}

/// A port to a new buffer of this size.
fn new_port(alloc: Global, size: u32) -> Result<Port, NoMemory>
    requires least { 256 ≤ size }
    requires most { size ≤ 1024 }
    requires whole { size % 8 ≡ 0 }
    ensures { IfOk result (λ port. (row_access port).size ≡ size) }
{
    OwningPort::new(alloc, PlainBuffer::new(alloc, size)?)
}

/// Ports to the buffers of two front-ends.
fn new_inputs(alloc: Global) -> Result<Ports<Port>, NoMemory>
    ensures { IfOk result (λ ports. length ports ≡ 2) }
{
    let mut ports = Ports::new(alloc)?;
    ports.try_push(new_port(alloc, 1024)?)?;
    ports.try_push(new_port(alloc, 1024)?)?;
    Ok(ports)
}

/// A builder of this setting, with id 10 and mask 3.
fn new_builder(alloc: Global, setting: Setting) -> Result<Builder, NoMemory>
    ensures two { IfOk result (λ builder. length builder.inputs ≡ 2) }
    ensures slot { IfOk result (λ builder. slot_of_length builder.limit ≤ 80) }
{
    let spec = BuilderSpec {
        id: 10,
        mask: 3,
        fronts: FrontIds::of(1, 2),
        room: room_of(setting),
        limit: limit_of(setting),
    };
    Builder::new(alloc, spec)
}

/// The order of a run of this start number, which is now in this state.
fn order(start: u32, from: RunState) -> Order {
    Order {
        run: 1,
        start,
        time: 1000,
        from,
        quota: 1,
    }
}

/// Sends an event of this id and serial number in the run of this start number, which is begun unless it is on. Before run 8 run 7
/// is ended.
fn send<R: Wait, P: BufferPort>(
    rt: &R,
    port: &mut P,
    start: u32,
    id: u16,
    serial: u32,
    body: &[u8],
) {
    let Ok(data_size) = u32::try_from(body.len()) else {
        return;
    };
    let header = Header {
        event_id: id,
        trigger_mask: 0,
        serial_number: serial,
        time_stamp: 1000,
        data_size,
    };
    if start == 8 {
        let _ = port.end(rt, 7);
    }
    let _ = port.begin(rt, start);
    let _ = port.send_in_run(rt, start, &header, body);
}

/// Sends so on an input. Whether there is that input.
fn sends<R: Wait, P: BufferPort>(
    rt: &R,
    ports: &mut Ports<P>,
    input: usize,
    start: u32,
    serial: u32,
    body: &[u8],
) -> bool
    ensures { length ports.new ≡ length ports.old }
{
    let id = if input == 0 { 1 } else { 2 };
    let Some(port) = ports.get_mut(input) else {
        return false;
    };
    send(rt, port, start, id, serial, body);
    true
}

/// Begins a run in the output, where a client asks for all events.
fn open_output<R: Wait, P: BufferPort>(rt: &R, output: &mut P, start: u32)
    ensures { (P.access output.new).size ≡ (P.access output.old).size }
{
    let Ok(name) = Name::new(b"Reader") else {
        return;
    };
    if let Ok(client) = output.attach(rt, name) {
        let _ = output.request(rt, client, 65_535, 65_535, Kind::All);
    }
    let _ = output.begin(rt, start);
}

/// Whether the client of the output receives this event.
fn reads<R: Wait, P: BufferPort>(
    rt: &R,
    output: &mut P,
    reader: &mut EventBuf,
    expected: &[u8],
) -> bool
    ensures { (P.access output.new).size ≡ (P.access output.old).size }
{
    let _ = output.receive(rt, 0, reader);
    reader.bytes() == expected
}

/// Whether the request of the input was cancelled: to cancel it once more is refused.
fn is_cancelled<R: Wait, P: BufferPort>(rt: &R, ports: &mut Ports<P>, input: usize) -> bool
    ensures { length ports.new ≡ length ports.old }
{
    let Some(port) = ports.get_mut(input) else {
        return false;
    };
    matches!(port.cancel(rt, 0, 0), Err(RequestRefusal::NoRequest))
}

/// Whether the builder accepts the start of this run.
fn starts<R: Wait, P: BufferPort>(
    rt: &R,
    builder: &mut Builder,
    ports: &mut Ports<P>,
    output: &mut P,
    start: u32,
) -> bool
    requires row { IsBuilderRow builder.old (length ports.old) (P.access output.old) }
    ensures row { IsBuilderRow builder.new (length ports.new) (P.access output.new) }
{
    open_output(rt, output, start);
    let order = order(start, RunState::Stopped);
    let answer = builder.on_turn(rt, ports, Transition::Start, &order);
    matches!(answer, Some(Answer::Yes(Tally::Plain)))
}

/// Whether its answer to the stop has to wait.
fn stops<R: Wait, P: BufferPort>(
    rt: &R,
    builder: &mut Builder,
    ports: &mut Ports<P>,
    start: u32,
    from: RunState,
) -> bool
    requires many { length ports.old ≡ length builder.old.inputs }
    ensures inputs { length builder.new.inputs ≡ length builder.old.inputs }
    ensures ports { length ports.new ≡ length ports.old }
    ensures limit { builder.new.limit ≡ builder.old.limit }
{
    let order = order(start, from);
    let answer = builder.on_turn(rt, ports, Transition::Stop, &order);
    answer.is_none()
}

/// Whether what is done comes to that.
fn is_act_right<R: Wait, P: BufferPort>(
    rt: &R,
    builder: &mut Builder,
    ports: &mut Ports<P>,
    output: &mut P,
    reader: &mut EventBuf,
    act: Act,
) -> bool
    requires row { IsBuilderRow builder.old (length ports.old) (P.access output.old) }
    ensures row { IsBuilderRow builder.new (length ports.new) (P.access output.new) }
{
    match act {
        Act::Send(input, start, serial, body) => sends(rt, ports, input, start, serial, body),
        Act::Start(start) => starts(rt, builder, ports, output, start),
        Act::Stop(start, from) => stops(rt, builder, ports, start, from),
        Act::Pull(input, told) => input < 2 && builder.pull(rt, ports, input) == told,
        Act::Step(told) => builder.step(rt, ports, output) == told,
        Act::Finish(told) => builder.finish() == told,
        Act::Fault(fault) => builder.fault() == Some(fault),
        Act::Read(expected) => reads(rt, output, reader, expected),
        Act::Pause => output.pause(rt, 1).is_ok(),
        Act::Resume => output.resume(rt, 1).is_ok(),
        Act::Cancelled(input) => is_cancelled(rt, ports, input),
    }
}

/// How many of these come to that, up to the first that does not.
fn count_right<R: Wait, P: BufferPort>(
    rt: &R,
    builder: &mut Builder,
    ports: &mut Ports<P>,
    output: &mut P,
    reader: &mut EventBuf,
    acts: &[Act],
) -> usize
    requires row { IsBuilderRow builder.old (length ports.old) (P.access output.old) }
{
    for place in 0..acts.len() {
        if !is_act_right(rt, builder, ports, output, reader, acts[place]) {
            return place;
        }
    }
    acts.len()
}

/// How many of what is done in a row come right, up to the first that does not.
fn came_right<R: Wait>(rt: &R, alloc: Global, row: Row) -> Result<usize, NoMemory> {
    let (setting, acts) = row;
    let mut builder = new_builder(alloc, setting)?;
    let mut ports = new_inputs(alloc)?;
    let mut output = new_port(alloc, size_of(setting))?;
    let mut reader = EventBuf::new(alloc, 80)?;
    Ok(count_right(rt, &mut builder, &mut ports, &mut output, &mut reader, acts))
}

#[test]
fn sets_are_built_in_order(rt: HostRuntime) {
    for row in SETS {
        let right = came_right(&rt, rt.alloc(), *row);
        assert!(rt; matches!(right, Ok(count) if count == row.1.len()));
    }
}

#[test]
fn an_event_that_cannot_be_built_with_is_a_fault(rt: HostRuntime) {
    for row in FAULTS {
        let right = came_right(&rt, rt.alloc(), *row);
        assert!(rt; matches!(right, Ok(count) if count == row.1.len()));
    }
}

#[test]
fn a_built_event_holds_the_banks_of_all(rt: HostRuntime) {
    for row in DATA {
        let right = came_right(&rt, rt.alloc(), *row);
        assert!(rt; matches!(right, Ok(count) if count == row.1.len()));
    }
}

#[test]
fn a_built_event_waits(rt: HostRuntime) {
    for row in WAITS {
        let right = came_right(&rt, rt.alloc(), *row);
        assert!(rt; matches!(right, Ok(count) if count == row.1.len()));
    }
}
