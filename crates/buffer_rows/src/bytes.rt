//! A ring of bytes, by itself and below a buffer.
ghost use Rattle.std.specs.Prelude.{◌≡◌, ◌≤◌, length};

use crate::tests::{MUST_GET, Step, run_all};
use daq_types::NoMemory;
use ring_buffer::{Ring, RingBuffer};
use std::alloc::Global;
use std::process::Abort;
use std::test::Fail;

/// The eight bytes of the ring from this offset.
fn read_at(ring: &mut Ring, off: u64) -> [u8; 8]
    requires { 8 ≤ length ring.old.bytes }
    ensures { ring.new.bytes ≡ ring.old.bytes }
{
    let mut whole = [9; 8];
    ring.get_at(off, &mut whole);
    whole
}

/// What is read of a ring of eight bytes that was written over its end.
#[derive(Drop)]
struct Reads {
    size: u32,
    /// From the first byte that was written.
    behind: [u8; 8],
    /// From the ring's beginning.
    all: [u8; 8],
    /// From the greatest offset, after one more byte was written.
    around: [u8; 8],
    /// How often the ring was read by then.
    reads: u64,
    /// How many bytes that took.
    bytes_read: u64,
}

/// Writes over the end of a ring, and reads on both sides of it.
fn write_over_the_end(ring: &mut Ring) -> Reads
    requires { 8 ≤ length ring.old.bytes }
{
    let size = ring.size();
    ring.put_at(14, &[1, 2, 3, 4]);
    let behind = read_at(ring, 14);
    let all = read_at(ring, 0);
    ring.put_at(1, &[5]);
    let around = read_at(ring, u64::MAX);
    Reads {
        size,
        behind,
        all,
        around,
        reads: ring.reads(),
        bytes_read: ring.bytes_read(),
    }
}

/// The same with a new ring of eight bytes. It ends here, so that the test does not hold it while it looks at the reads.
fn reads_of_new(alloc: Global) -> Result<Reads, NoMemory> {
    let mut ring = Ring::new(alloc, 8)?;
    Ok(write_over_the_end(&mut ring))
}

#[test]
fn a_ring_goes_on_at_its_beginning(rt: HostRuntime) -> Result<(), Fail> {
    let reads = reads_of_new(rt.alloc())?;
    assert!(rt; reads.size == 8);
    assert!(rt; reads.behind == [1, 2, 3, 4, 0, 0, 0, 0]);
    assert!(rt; reads.all == [3, 4, 0, 0, 0, 0, 1, 2]);
    assert!(rt; reads.around == [2, 3, 5, 0, 0, 0, 0, 1]);
    assert!(rt; reads.reads == 3);
    assert!(rt; reads.bytes_read == 24);
    Ok(())
}

/// The slot of an event of eight bytes of data, which was sent in no run.
const SLOT: [u8; 32] = [
    0, 0, 0, 0, 8, 0, 0, 0, 1, 0, 0, 0, 1, 0, 0, 0, 0, 0, 0, 0, 8, 0, 0, 0, 1, 1, 1, 1, 1, 1, 1, 1,
];

/// The offset and the place that the first client goes on from after these calls on a new buffer of 256 bytes, and what
/// stands in the buffer's ring from this offset on.
fn left_by<R: Abort + AllocGlobal>(
    rt: &R,
    calls: &[Step],
    off: u64,
) -> Result<(Option<(u64, u64)>, [u8; 32]), Fail> {
    let mut buffer = RingBuffer::over(Ring::new(rt.alloc(), 256)?);
    run_all(rt, &mut buffer, calls)?;
    let first = buffer.pointers().at(0);
    let mut ring = buffer.into_ring();
    assert!(rt; ring.size() == 256);
    let mut slot = [9; 32];
    ring.get_at(off, &mut slot);
    Ok((first, slot))
}

#[test]
fn a_kept_event_stands_in_the_ring(rt: HostRuntime) -> Result<(), Fail> {
    // The first event is gone, and the ninth lies behind the ring's end, where the first was.
    let (first, slot) = left_by(&rt, MUST_GET, 256)?;
    assert_eq!(rt; first, Some((32, 1)));
    assert!(rt; slot == SLOT);
    Ok(())
}
