//! Calls on a shared buffer, by threads and by a port.
ghost use Rattle.std.specs.Prelude.{◌≡◌, ◌+◌, ◌%◌, ◌<◌, ◌≤◌, [], ◌∷◌, length, None, IfOk, OnErr, OnOk};
ghost use Rattle.daq_types.specs.Callers.{entries_by};
ghost use Rattle.turn_lock.specs.Passes.{passes_of, number_of, own_entries, held_by, IsOf};
ghost use Rattle.turn_lock.specs.Closing.{history_of};
ghost use Rattle.turn_lock.specs.Roster.{items_of, numbers_of, numbers_below, ArePassesOf, AreFresh, IsFresh};
ghost use Rattle.buffer_lock.specs.SharedBuffers.{lock_of};

use buffer_core::{BufferPort, EventBuffer, Received, SendRefusal};
use buffer_lock::{
    BufferClosed, BufferPass, BufferPasses, Locked, SharedBuffer, SharedPort, calls,
};
use daq_types::{Kind, Name, NoMemory};
use event::{EventBuf, Header};
use plain_buffer::PlainBuffer;
use std::alloc::Global;
use std::process::Abort;
use std::sync::Wait;
use std::thread::{Threads, join, yield_now};
use turn_lock::{MadeCall, Taken};

const SIZE: u32 = 1 << 20;

const ANY: u16 = 0xFFFF;

const DATA: [u8; 8] = [7; 8];

pub(crate) fn header(serial_number: u32) -> Header
    ensures serial { result.serial_number ≡ serial_number }
    ensures size { result.data_size ≡ 8 }
{
    Header {
        event_id: 1,
        trigger_mask: 1,
        serial_number,
        time_stamp: 0,
        data_size: 8,
    }
}

/// The send of this header with the data of the rows.
fn send_of(header: &Header) -> calls::Send<'_> {
    calls::Send {
        header,
        body: &DATA,
    }
}

/// Shares a buffer that is as it opened.
pub(crate) fn share(
    alloc: Global,
    size: u32,
    count: u32,
) -> Result<(SharedBuffer<PlainBuffer>, BufferPasses<PlainBuffer>), NoMemory>
    requires least { 256 ≤ size }
    requires most { size ≤ 268435456 }
    requires whole { size % 8 ≡ 0 }
    requires some { 0 < count }
    requires few { count ≤ 256 }
    ensures count { IfOk result (λ made. passes_of (lock_of made.0) ≡ count) }
    ensures own { IfOk result (λ made. ArePassesOf (lock_of made.0) made.1) }
    ensures numbers { IfOk result (λ made. numbers_of made.1 ≡ numbers_below count) }
    ensures fresh { IfOk result (λ made. AreFresh made.1) }
{
    let buffer = PlainBuffer::new(alloc, size)?;
    SharedBuffer::new(alloc, buffer, count)
}

/// Takes both passes of a buffer with two out of the list, number 0 first.
pub(crate) fn two_passes(
    _shared: &SharedBuffer<PlainBuffer>,
    passes: &mut BufferPasses<PlainBuffer>,
) -> (BufferPass<PlainBuffer>, BufferPass<PlainBuffer>)
    requires own { ArePassesOf (lock_of _shared.now) passes.old }
    requires fresh { AreFresh passes.old }
    requires numbers { numbers_of passes.old ≡ 0 ∷ 1 ∷ [] }
    ensures left { ArePassesOf (lock_of _shared.now) passes.new × (items_of passes.new ≡ []) }
    ensures own { IsOf (lock_of _shared.now) result.0 × IsOf (lock_of _shared.now) result.1 }
    ensures fresh { IsFresh result.0 × IsFresh result.1 }
    ensures numbers { (number_of result.0 ≡ 0) × (number_of result.1 ≡ 1) }
{
    let Some(second) = passes.pop() else {
        unreachable!()
    };
    let Some(first) = passes.pop() else {
        unreachable!()
    };
    (first, second)
}

fn send_times<R: Wait>(
    shared: &SharedBuffer<PlainBuffer>,
    rt: &R,
    mut pass: BufferPass<PlainBuffer>,
    times: u32,
) -> BufferPass<PlainBuffer>
    requires own { IsOf (lock_of shared.now) pass }
    requires idle { held_by pass ≡ None }
    requires fresh { length (own_entries pass) ≡ 0 }
    ensures own { IsOf (lock_of shared.now) result }
    ensures idle { held_by result ≡ None }
    ensures number { number_of result ≡ number_of pass }
    ensures all { length (own_entries result) ≡ times }
{
    for done in 0..times {
        let header = header(done);
        let _ = shared.call(rt, &mut pass, send_of(&header), &mut ());
    }
    pass
}

/// Two threads with a pass each send this many events.
fn send_in_two_threads<R: Threads + Wait + Sync>(
    shared: &SharedBuffer<PlainBuffer>,
    rt: &R,
    first: BufferPass<PlainBuffer>,
    second: BufferPass<PlainBuffer>,
    times: u32,
) -> (BufferPass<PlainBuffer>, BufferPass<PlainBuffer>)
    requires own { IsOf (lock_of shared.now) first × IsOf (lock_of shared.now) second }
    requires idle { (held_by first ≡ None) × (held_by second ≡ None) }
    requires fresh { (length (own_entries first) ≡ 0) × (length (own_entries second) ≡ 0) }
    ensures own { IsOf (lock_of shared.now) result.0 × IsOf (lock_of shared.now) result.1 }
    ensures idle { (held_by result.0 ≡ None) × (held_by result.1 ≡ None) }
    ensures number { (number_of result.0 ≡ number_of first)
        × (number_of result.1 ≡ number_of second) }
    ensures all { (length (own_entries result.0) ≡ times)
        × (length (own_entries result.1) ≡ times) }
{
    join(
        rt,
        move || send_times(shared, rt, first, times),
        move || send_times(shared, rt, second, times),
    )
}

/// Ends the sharing between two passes, which are all there are.
pub(crate) fn close_two(
    shared: SharedBuffer<PlainBuffer>,
    mut passes: BufferPasses<PlainBuffer>,
    first: BufferPass<PlainBuffer>,
    second: BufferPass<PlainBuffer>,
) -> BufferClosed<PlainBuffer>
    requires two { passes_of (lock_of shared) ≡ 2 }
    requires none { ArePassesOf (lock_of shared) passes × (items_of passes ≡ []) }
    requires own { IsOf (lock_of shared) first × IsOf (lock_of shared) second }
    requires idle { (held_by first ≡ None) × (held_by second ≡ None) }
    requires numbers { (number_of first ≡ 0) × (number_of second ≡ 1) }
    ensures first { entries_by 0 (history_of result) ≡ own_entries first }
    ensures second { entries_by 1 (history_of result) ≡ own_entries second }
    ensures all { length (history_of result)
        ≡ length (own_entries first) + length (own_entries second) }
{
    passes.push(first);
    passes.push(second);
    match shared.close(passes) {
        Ok(closed) => closed,
        Err(_) => unreachable!(),
    }
}

/// Two threads send so many events each into a shared buffer, which is closed behind them.
fn share_and_send<R: Threads + Wait + Sync>(
    rt: &R,
    alloc: Global,
    times: u32,
) -> Result<BufferClosed<PlainBuffer>, NoMemory>
    ensures all { IfOk result (λ closed. length (history_of closed) ≡ times + times) }
    ensures first { IfOk result (λ closed. length (entries_by 0 (history_of closed)) ≡ times) }
    ensures second { IfOk result (λ closed. length (entries_by 1 (history_of closed)) ≡ times) }
{
    let (shared, mut passes) = share(alloc, SIZE, 2)?;
    let (first, second) = two_passes(&shared, &mut passes);
    let (first, second) = send_in_two_threads(&shared, rt, first, second, times);
    Ok(close_two(shared, passes, first, second))
}

#[test]
fn two_threads_send_into_one_history(rt: HostRuntime) {
    let closed = share_and_send(&rt, rt.alloc(), 1000).expect(&rt, "memory");
    assert!(rt;
        closed.value.buffer.accepted() == 2000,
        "each of 2,000 events is accepted"
    );
}

/// Sends an event, as often as it takes until the buffer has room for it.
fn send_until_taken<R: Wait>(
    shared: &SharedBuffer<PlainBuffer>,
    rt: &R,
    pass: &mut BufferPass<PlainBuffer>,
    serial: u32,
)
    requires own { IsOf (lock_of shared.now) pass.old }
    requires idle { held_by pass.old ≡ None }
    ensures own { IsOf (lock_of shared.now) pass.new }
    ensures idle { held_by pass.new ≡ None }
{
    let header = header(serial);
    for _ in rt.forever() {
        let Err(SendRefusal::Full { .. }) = shared.call(rt, pass, send_of(&header), &mut ()) else {
            return;
        };
        yield_now();
    }
    unreachable!()
}

fn send_all<R: Wait>(
    shared: &SharedBuffer<PlainBuffer>,
    rt: &R,
    mut pass: BufferPass<PlainBuffer>,
    times: u32,
) -> BufferPass<PlainBuffer>
    requires own { IsOf (lock_of shared.now) pass }
    requires idle { held_by pass ≡ None }
    ensures own { IsOf (lock_of shared.now) result }
    ensures idle { held_by result ≡ None }
{
    for serial in 0..times {
        send_until_taken(shared, rt, &mut pass, serial);
    }
    pass
}

/// Receives until client 0 gets an event.
fn read_one<R: Wait>(
    shared: &SharedBuffer<PlainBuffer>,
    rt: &R,
    pass: &mut BufferPass<PlainBuffer>,
    into: &mut EventBuf,
)
    requires own { IsOf (lock_of shared.now) pass.old }
    requires idle { held_by pass.old ≡ None }
    ensures own { IsOf (lock_of shared.now) pass.new }
    ensures idle { held_by pass.new ≡ None }
{
    for _ in rt.forever() {
        if let Received::Got { .. } = shared.call(rt, pass, calls::Receive { client: 0 }, into) {
            return;
        }
        yield_now();
    }
    unreachable!()
}

fn read_all<R: Wait>(
    shared: &SharedBuffer<PlainBuffer>,
    rt: &R,
    mut pass: BufferPass<PlainBuffer>,
    mut into: EventBuf,
    times: u32,
) -> BufferPass<PlainBuffer>
    requires own { IsOf (lock_of shared.now) pass }
    requires idle { held_by pass ≡ None }
    ensures own { IsOf (lock_of shared.now) result }
    ensures idle { held_by result ≡ None }
{
    for _ in 0..times {
        read_one(shared, rt, &mut pass, &mut into);
    }
    pass
}

fn send_in_two<R: Threads + Wait + Sync>(
    shared: &SharedBuffer<PlainBuffer>,
    rt: &R,
    first: BufferPass<PlainBuffer>,
    second: BufferPass<PlainBuffer>,
) -> (BufferPass<PlainBuffer>, BufferPass<PlainBuffer>)
    requires own { IsOf (lock_of shared.now) first × IsOf (lock_of shared.now) second }
    requires idle { (held_by first ≡ None) × (held_by second ≡ None) }
{
    join(
        rt,
        move || send_all(shared, rt, first, 500),
        move || send_all(shared, rt, second, 500),
    )
}

fn send_in_two_and_read<R: Threads + Wait + Sync>(
    shared: &SharedBuffer<PlainBuffer>,
    rt: &R,
    first: BufferPass<PlainBuffer>,
    second: BufferPass<PlainBuffer>,
    reader: BufferPass<PlainBuffer>,
    into: EventBuf,
) -> BufferPass<PlainBuffer>
    requires own { IsOf (lock_of shared.now) first × IsOf (lock_of shared.now) second }
    requires idle { (held_by first ≡ None) × (held_by second ≡ None) }
    requires reader { IsOf (lock_of shared.now) reader }
    requires reader_idle { held_by reader ≡ None }
    ensures own { IsOf (lock_of shared.now) result }
    ensures idle { held_by result ≡ None }
{
    let (_, reader) = join(
        rt,
        move ||
            requires own { IsOf (lock_of shared.now) first × IsOf (lock_of shared.now) second }
            requires idle { (held_by first ≡ None) × (held_by second ≡ None) }
        { send_in_two(shared, rt, first, second) },
        move || read_all(shared, rt, reader, into, 2000),
    );
    reader
}

/// Four threads send, and a fifth reads until it got all that they send.
fn send_in_four_and_read<R: Abort + Threads + Wait + Sync>(
    shared: &SharedBuffer<PlainBuffer>,
    rt: &R,
    passes: &mut BufferPasses<PlainBuffer>,
    reader: BufferPass<PlainBuffer>,
    into: EventBuf,
) -> BufferPass<PlainBuffer>
    requires own { ArePassesOf (lock_of shared.now) passes.old }
    requires fresh { AreFresh passes.old }
    requires reader { IsOf (lock_of shared.now) reader }
    requires reader_idle { held_by reader ≡ None }
    ensures own { IsOf (lock_of shared.now) result }
    ensures idle { held_by result ≡ None }
{
    let first = pop_pass(shared, rt, passes);
    let second = pop_pass(shared, rt, passes);
    let third = pop_pass(shared, rt, passes);
    let fourth = pop_pass(shared, rt, passes);
    let (_, reader) = join(
        rt,
        move ||
            requires own { IsOf (lock_of shared.now) first × IsOf (lock_of shared.now) second }
            requires idle { (held_by first ≡ None) × (held_by second ≡ None) }
        { send_in_two(shared, rt, first, second) },
        move ||
            requires own { IsOf (lock_of shared.now) third × IsOf (lock_of shared.now) fourth }
            requires idle { (held_by third ≡ None) × (held_by fourth ≡ None) }
            requires reader { IsOf (lock_of shared.now) reader }
            requires reader_idle { held_by reader ≡ None }
        { send_in_two_and_read(shared, rt, third, fourth, reader, into) },
    );
    reader
}

fn pop_pass(
    _shared: &SharedBuffer<PlainBuffer>,
    rt: &impl Abort,
    passes: &mut BufferPasses<PlainBuffer>,
) -> BufferPass<PlainBuffer>
    requires own { ArePassesOf (lock_of _shared.now) passes.old }
    requires fresh { AreFresh passes.old }
    ensures own { ArePassesOf (lock_of _shared.now) passes.new }
    ensures fresh { AreFresh passes.new }
    ensures taken { IsOf (lock_of _shared.now) result }
    ensures idle { held_by result ≡ None }
{
    let Some(pass) = passes.pop() else {
        panic!(rt; "a pass")
    };
    pass
}

/// Attaches client 0, and requests all events: whether each is done.
fn attach_for_all<R: Wait>(
    shared: &SharedBuffer<PlainBuffer>,
    rt: &R,
    pass: &mut BufferPass<PlainBuffer>,
    name: Name,
) -> [bool; 2]
    requires own { IsOf (lock_of shared.now) pass.old }
    requires idle { held_by pass.old ≡ None }
    ensures own { IsOf (lock_of shared.now) pass.new }
    ensures idle { held_by pass.new ≡ None }
{
    let attached = shared.call(rt, pass, calls::Attach { name }, &mut ()) == Ok(0);
    let request = calls::Request {
        client: 0,
        id: ANY,
        mask: ANY,
        kind: Kind::All,
    };
    let requested = shared.call(rt, pass, request, &mut ()) == Ok(0);
    [attached, requested]
}

/// Four threads send to a reader of all: whether it is a client with a request, and how many events are accepted.
fn read_from_four<R: Abort + Threads + Wait + Sync>(
    rt: &R,
    alloc: Global,
    name: Name,
) -> Result<([bool; 2], u64), NoMemory> {
    let into = EventBuf::new(alloc, 8)?;
    let (shared, mut passes) = share(alloc, 4096, 5)?;
    let mut reader = pop_pass(&shared, rt, &mut passes);
    let attached = attach_for_all(&shared, rt, &mut reader, name);
    let mut reader = send_in_four_and_read(&shared, rt, &mut passes, reader, into);
    let accepted = shared.call(rt, &mut reader, calls::Accepted, &mut ());
    Ok((attached, accepted))
}

#[test]
fn a_reader_gets_all_that_four_threads_send(rt: HostRuntime) {
    let name = Name::new(b"ANA").expect(&rt, "a name");
    let (attached, accepted) = read_from_four(&rt, rt.alloc(), name).expect(&rt, "memory");
    assert!(rt; attached == [true, true], "a client with a request");
    assert!(rt; accepted == 2000, "each event was sent once");
}

/// Makes each call by any port, on a buffer that is as it opened, and at last the marks of a run with one event in it:
/// whether each is answered so.
fn make_calls<R: Wait, P: BufferPort>(
    rt: &R,
    port: &mut P,
    name: Name,
    into: &mut EventBuf,
) -> [bool; 13] {
    let got = Received::Got { place: 0, start: 0 };
    [
        port.attach(rt, name) == Ok(0),
        port.request(rt, 0, ANY, ANY, Kind::All) == Ok(0),
        port.send(rt, &header(1), &DATA) == Ok(0),
        port.level(rt) == 32,
        port.accepted(rt) == 1,
        port.receive(rt, 0, into) == got,
        port.cancel(rt, 0, 0) == Ok(()),
        port.detach(rt, 0) == Ok(()),
        port.begin(rt, 1) == Ok(1),
        port.send_in_run(rt, 1, &header(2), &DATA) == Ok(1),
        port.pause(rt, 1) == Ok(2),
        port.resume(rt, 1) == Ok(2),
        port.end(rt, 1) == Ok(2),
    ]
}

/// Makes each call by a port: whether each is answered so, and the number of the pass that comes back.
fn call_by_port<R: Wait>(
    rt: &R,
    shared: &SharedBuffer<PlainBuffer>,
    pass: BufferPass<PlainBuffer>,
    name: Name,
    into: &mut EventBuf,
) -> ([bool; 13], u32)
    requires own { IsOf (lock_of shared.now) pass }
    requires idle { held_by pass ≡ None }
{
    let mut port = SharedPort::new(shared, pass);
    let calls = make_calls(rt, &mut port, name, into);
    (calls, port.into_pass().number())
}

/// Shares a buffer with one pass, by which a port makes each call.
fn share_by_port<R: Abort + Wait>(
    rt: &R,
    alloc: Global,
    name: Name,
    into: &mut EventBuf,
) -> Result<([bool; 13], u32), NoMemory> {
    let (shared, mut passes) = share(alloc, 256, 1)?;
    let pass = pop_pass(&shared, rt, &mut passes);
    Ok(call_by_port(rt, &shared, pass, name, into))
}

#[test]
fn a_port_makes_each_call(rt: HostRuntime) {
    let name = Name::new(b"ANA").expect(&rt, "a name");
    let mut into = EventBuf::new(rt.alloc(), 8).expect(&rt, "memory");
    let called = share_by_port(&rt, rt.alloc(), name, &mut into);
    assert!(rt;
        called == Ok(([true; 13], 0)),
        "each call, each mark of a run, and the pass that comes back"
    );
    assert!(rt;
        into.body() == DATA.as_slice(),
        "the data of the event that was got"
    );
}

/// Tries each call that can be made in one try, on a free buffer in whose run of start number 1 nothing was sent: whether
/// each is made.
fn try_each(
    shared: &SharedBuffer<PlainBuffer>,
    pass: &mut BufferPass<PlainBuffer>,
    into: &mut EventBuf,
) -> [bool; 3]
    requires own { IsOf (lock_of shared.now) pass.old }
    requires idle { held_by pass.old ≡ None }
    ensures own { IsOf (lock_of shared.now) pass.new }
    ensures idle { held_by pass.new ≡ None }
{
    let header = header(1);
    let sent = shared.try_call(pass, send_of(&header), &mut ());
    let send_in_run = calls::SendInRun {
        start: 1,
        header: &header,
        body: &DATA,
    };
    let in_run = shared.try_call(pass, send_in_run, &mut ());
    let got = shared.try_call(pass, calls::Receive { client: 0 }, into);
    [
        sent == Ok(Ok(0)),
        in_run == Ok(Ok(1)),
        got == Ok(Received::Got { place: 0, start: 0 }),
    ]
}

/// The second pass has then seen what the first has.
fn meet_what_was_seen(
    shared: &SharedBuffer<PlainBuffer>,
    first: &mut BufferPass<PlainBuffer>,
    second: &mut BufferPass<PlainBuffer>,
)
    requires first { IsOf (lock_of shared.now) first.old }
    requires second { IsOf (lock_of shared.now) second.old }
    requires idle { held_by second.old ≡ None }
    ensures second { IsOf (lock_of shared.now) second.new }
    ensures idle { held_by second.new ≡ None }
{
    let note = shared.lock().note(first);
    shared.lock().meet(second, note);
}

/// Makes the calls in one try on a buffer with a client and a run: whether each is done, and how many events the second
/// pass then finds accepted.
fn try_on_free<R: Wait>(
    rt: &R,
    alloc: Global,
    name: Name,
) -> Result<([bool; 2], bool, [bool; 3], u64), NoMemory> {
    let mut into = EventBuf::new(alloc, 8)?;
    let (shared, mut passes) = share(alloc, 256, 2)?;
    let (mut first, mut second) = two_passes(&shared, &mut passes);
    let attached = attach_for_all(&shared, rt, &mut first, name);
    let begun = shared.call(rt, &mut first, calls::Begin { start: 1 }, &mut ()) == Ok(0);
    let tried = try_each(&shared, &mut first, &mut into);
    meet_what_was_seen(&shared, &mut first, &mut second);
    let accepted = shared.call(rt, &mut second, calls::Accepted, &mut ());
    Ok((attached, begun, tried, accepted))
}

#[test]
fn calls_in_one_try_on_a_free_buffer(rt: HostRuntime) {
    let name = Name::new(b"ANA").expect(&rt, "a name");
    let tried = try_on_free(&rt, rt.alloc(), name);
    assert!(rt;
        tried == Ok(([true; 2], true, [true; 3], 2)),
        "each is made, and two events are accepted"
    );
}

/// The count of the accepted events, which a pass read while it had the turn.
#[derive(Drop)]
struct CountRead {
    count: u64,
}

impl MadeCall<Locked<PlainBuffer>> for CountRead {
    ghost use Rattle.buffer_core.specs.declared.entry.BufferEntry.TheVariants.{Accepted};

    ghost entry = { λ call. Accepted call.count };
}

/// What a send in one try answers, or whose the turn was.
type Tried = Result<Result<u64, SendRefusal>, Taken>;

/// Tries a send by the second pass while the first has the turn, and again behind that.
fn try_twice<R: Wait>(
    shared: &SharedBuffer<PlainBuffer>,
    rt: &R,
    first: &mut BufferPass<PlainBuffer>,
    second: &mut BufferPass<PlainBuffer>,
) -> (Tried, Tried)
    requires first { IsOf (lock_of shared.now) first.old }
    requires second { IsOf (lock_of shared.now) second.old }
    requires idle { (held_by first.old ≡ None) × (held_by second.old ≡ None) }
    ensures one { OnErr result.0 (OnOk result.1
        (length (own_entries second.new) ≡ length (own_entries second.old) + 1)) }
{
    let header = header(1);
    let held = shared.lock().take(rt, first);
    let refused = shared.try_call(second, send_of(&header), &mut ());
    let count = held.value.buffer.accepted();
    shared.lock().put(first, held, &CountRead { count });
    (refused, shared.try_call(second, send_of(&header), &mut ()))
}

/// Tries a send by the second of two passes while the first has the turn, and again behind that.
fn try_on_taken<R: Wait>(rt: &R, alloc: Global) -> Result<(Tried, Tried), NoMemory> {
    let (shared, mut passes) = share(alloc, 256, 2)?;
    let (mut first, mut second) = two_passes(&shared, &mut passes);
    Ok(try_twice(&shared, rt, &mut first, &mut second))
}

#[test]
fn a_try_on_a_taken_buffer_sends_nothing(rt: HostRuntime) {
    let tried = try_on_taken(&rt, rt.alloc());
    assert!(rt;
        tried == Ok((Err(Taken { holder: 0 }), Ok(Ok(0)))),
        "pass 0 has the turn, and then the event is the first that is accepted"
    );
}
