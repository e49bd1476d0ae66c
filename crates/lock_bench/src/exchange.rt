// Sends and receives through one ring of bytes that threads share: under the counting lock, and under std's Mutex.
ghost use Rattle.std.specs.Prelude.{◌≡◌, ◌+◌, ◌<◌, ◌≤◌, length, IfOk};
ghost use Rattle.ring_buffer.specs.Rings.{most_bytes};
ghost use Rattle.turn_lock.specs.Roster.{items_of, ArePassesOf, AreFresh};
ghost use Rattle.buffer_lock.specs.SharedBuffers.{lock_of};

use buffer_core::{BufferPort, EventBuffer};
use buffer_lock::{BufferPasses, SharedBuffer, SharedPort};
use daq_types::{Kind, Name, NoMemory};
use event::{EventBuf, Header};
use ring_buffer::{Ring, RingBuffer};
use std::alloc::{AllocError, Global};
use std::sync::{Mutex, Wait};
use std::thread::{Threads, join};
use std::time::{Clock, Duration, Instant};

/// The size of the ring, in bytes.
const SIZE: u32 = 1 << 20;

const ANY: u16 = 0xFFFF;

const DATA: [u8; 8] = [7; 8];

const HEADER: Header = Header {
    event_id: 1,
    trigger_mask: 1,
    serial_number: 1,
    time_stamp: 0,
    data_size: 8,
};

/// One thread's access to the ring.
trait Exchange {
    /// Sends an event of 8 bytes, and receives the next one for this client.
    fn exchange<R: Wait>(&mut self, rt: &R, client: u32, into: &mut EventBuf);
}

impl<'a> Exchange for SharedPort<'a, RingBuffer> {
    fn exchange<R: Wait>(&mut self, rt: &R, client: u32, into: &mut EventBuf) {
        let _ = self.send(rt, &HEADER, &DATA);
        let _ = self.receive(rt, client, into);
    }
}

/// A ring under std's Mutex.
#[derive(Drop, Clone, Copy)]
struct Guarded<'a> {
    buffer: &'a Mutex<RingBuffer>,
}

impl<'a> Exchange for Guarded<'a> {
    fn exchange<R: Wait>(&mut self, rt: &R, client: u32, into: &mut EventBuf) {
        let _ = self.buffer.lock(rt).send(&HEADER, &DATA);
        let _ = self.buffer.lock(rt).receive(client, into);
    }
}

/// A thread's access, its client, and the room that it receives into.
#[derive(Drop)]
struct Worker<X: Exchange> {
    access: X,
    client: u32,
    into: EventBuf,
}

impl<X: Exchange + Drop> Worker<X> {
    fn work<R: Wait>(mut self, rt: &R, times: u32) {
        for _ in 0..times {
            self.access.exchange(rt, self.client, &mut self.into);
        }
    }
}

/// How many threads exchange events at once.
#[derive(Clone, Copy)]
pub enum Crowd {
    Alone,
    Two,
    Four,
}

fn work_in_two<R: Threads + Wait + Sync, X: Exchange + Drop + Send>(
    rt: &R,
    workers: (Worker<X>, Worker<X>),
    times: u32,
) {
    let (first, second) = workers;
    join(
        rt,
        move || first.work(rt, times),
        move || second.work(rt, times),
    );
}

fn work_in_crowd<R: Threads + Wait + Sync, X: Exchange + Drop + Send>(
    rt: &R,
    crowd: Crowd,
    left: (Worker<X>, Worker<X>),
    right: (Worker<X>, Worker<X>),
    times: u32,
) {
    match crowd {
        Crowd::Alone => left.0.work(rt, times),
        Crowd::Two => work_in_two(rt, left, times),
        Crowd::Four => {
            join(
                rt,
                move || work_in_two(rt, left, times),
                move || work_in_two(rt, right, times),
            );
        }
    }
}

fn found<T>(made: Result<T, NoMemory>) -> Result<T, AllocError> {
    match made {
        Ok(value) => Ok(value),
        Err(NoMemory) => Err(AllocError),
    }
}

fn client_name() -> Name {
    match Name::new(b"BENCH") {
        Ok(name) => name,
        Err(_) => unreachable!(),
    }
}

/// A ring of this size with four clients, of which each asks for all events, and which wait for none of them.
fn ring(alloc: Global, size: u32) -> Result<RingBuffer, NoMemory>
    requires least { 256 ≤ size }
    requires most { size ≤ most_bytes }
{
    let mut buffer = RingBuffer::over(Ring::new(alloc, size)?);
    for client in 0..4 {
        let _ = buffer.attach(client_name());
        let _ = buffer.request(client, ANY, ANY, Kind::NonBlocking);
    }
    Ok(buffer)
}

/// A port by the last pass of the list.
fn next_port<'a, B: EventBuffer>(
    shared: &'a SharedBuffer<B>,
    passes: &mut BufferPasses<B>,
) -> SharedPort<'a, B>
    requires own { ArePassesOf (lock_of shared.now) passes.old }
    requires fresh { AreFresh passes.old }
    requires some { 0 < length (items_of passes.old) }
    ensures own { ArePassesOf (lock_of shared.now) passes.new }
    ensures fresh { AreFresh passes.new }
    ensures left { length (items_of passes.new) + 1 ≡ length (items_of passes.old) }
{
    let Some(pass) = passes.pop() else {
        unreachable!()
    };
    SharedPort::new(shared, pass)
}

/// Ports by the last two passes of the list.
fn two_ports<'a, B: EventBuffer>(
    shared: &'a SharedBuffer<B>,
    passes: &mut BufferPasses<B>,
) -> (SharedPort<'a, B>, SharedPort<'a, B>)
    requires own { ArePassesOf (lock_of shared.now) passes.old }
    requires fresh { AreFresh passes.old }
    requires two { 2 ≤ length (items_of passes.old) }
    ensures own { ArePassesOf (lock_of shared.now) passes.new }
    ensures fresh { AreFresh passes.new }
    ensures left { length (items_of passes.new) + 2 ≡ length (items_of passes.old) }
{
    let first = next_port(shared, passes);
    let second = next_port(shared, passes);
    (first, second)
}

/// The ring shared among four passes.
fn share(
    alloc: Global,
    buffer: RingBuffer,
) -> Result<(SharedBuffer<RingBuffer>, BufferPasses<RingBuffer>), AllocError>
    ensures own { IfOk result (λ made. ArePassesOf (lock_of made.0) made.1) }
    ensures fresh { IfOk result (λ made. AreFresh made.1) }
    ensures four { IfOk result (λ made. length (items_of made.1) ≡ 4) }
{
    match SharedBuffer::new(alloc, buffer, 4) {
        Ok(made) => Ok(made),
        Err(NoMemory) => Err(AllocError),
    }
}

/// The rooms that four threads receive into.
#[derive(Drop)]
struct Rooms {
    left: (EventBuf, EventBuf),
    right: (EventBuf, EventBuf),
}

fn two_rooms(alloc: Global) -> Result<(EventBuf, EventBuf), NoMemory> {
    Ok((EventBuf::new(alloc, 8)?, EventBuf::new(alloc, 8)?))
}

/// A ring, and the rooms of those that exchange events through it.
fn ring_with_rooms(alloc: Global) -> Result<(RingBuffer, Rooms), NoMemory> {
    let left = two_rooms(alloc)?;
    let right = two_rooms(alloc)?;
    Ok((ring(alloc, SIZE)?, Rooms { left, right }))
}

/// Workers by these accesses and rooms, the first of which is this client.
fn two_workers<X: Exchange + Drop>(
    accesses: (X, X),
    client: u32,
    rooms: (EventBuf, EventBuf),
) -> (Worker<X>, Worker<X>)
    requires { client ≤ 2 }
{
    let first = Worker {
        access: accesses.0,
        client,
        into: rooms.0,
    };
    let second = Worker {
        access: accesses.1,
        client: client + 1,
        into: rooms.1,
    };
    (first, second)
}

/// How long it takes until each thread has made so many exchanges. All memory is there before.
fn time_crowd<R: Threads + Wait + Sync + Clock, X: Exchange + Drop + Send>(
    rt: &R,
    crowd: Crowd,
    left: (X, X),
    right: (X, X),
    rooms: Rooms,
    times: u32,
) -> anyhow::Result<Duration> {
    let left = two_workers(left, 0, rooms.left);
    let right = two_workers(right, 2, rooms.right);
    let start = Instant::now(rt);
    work_in_crowd(rt, crowd, left, right, times);
    Ok(start?.elapsed(rt)?)
}

/// How long it takes until each thread has made so many exchanges under the counting lock.
pub fn time_shared<R: Threads + Wait + Sync + Clock>(
    rt: &R,
    alloc: Global,
    crowd: Crowd,
    times: u32,
) -> anyhow::Result<Duration> {
    let (buffer, rooms) = found(ring_with_rooms(alloc))?;
    let (shared, mut passes) = share(alloc, buffer)?;
    let left = two_ports(&shared, &mut passes);
    let right = two_ports(&shared, &mut passes);
    time_crowd(rt, crowd, left, right, rooms, times)
}

/// The same under std's Mutex.
pub fn time_guarded<R: Threads + Wait + Sync + Clock>(
    rt: &R,
    alloc: Global,
    crowd: Crowd,
    times: u32,
) -> anyhow::Result<Duration> {
    let (buffer, rooms) = found(ring_with_rooms(alloc))?;
    let buffer = Mutex::new(buffer);
    let access = Guarded { buffer: &buffer };
    time_crowd(rt, crowd, (access, access), (access, access), rooms, times)
}
