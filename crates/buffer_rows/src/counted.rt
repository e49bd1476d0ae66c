//! How often calls on a buffer read its ring, and how many bytes, as the ring itself counts them.
use crate::tests::{
    CANCELLED, GATED, MUST_GET, NOT_OWED, OVER_THE_END, PASSED_OVER, PUSHED, REFUSED, Step,
    is_right, run_all,
};
use ring_buffer::{Ring, RingBuffer};
use std::process::Abort;
use std::test::Fail;

/// Calls on a new buffer of 256 bytes, with what one of them reads.
#[derive(Clone, Copy)]
struct Row {
    calls: &'static [Step],
    /// The place of the one whose reads are counted.
    place: usize,
    reads: u64,
    bytes: u64,
}

const ROWS: &[Row] = &[
    // An event that is dropped is read once: what is in front of its data.
    Row {
        calls: NOT_OWED,
        place: 10,
        reads: 1,
        bytes: 24,
    },
    // So is the one that stands in the way.
    Row {
        calls: NOT_OWED,
        place: 11,
        reads: 1,
        bytes: 24,
    },
    // One that is received is read twice, the second time its data.
    Row {
        calls: PUSHED,
        place: 11,
        reads: 2,
        bytes: 32,
    },
    // Eight that are passed over are read once each.
    Row {
        calls: PASSED_OVER,
        place: 10,
        reads: 8,
        bytes: 192,
    },
    // One whose data have no room is read once.
    Row {
        calls: OVER_THE_END,
        place: 7,
        reads: 1,
        bytes: 24,
    },
    // One over the end of the ring is read twice like any other.
    Row {
        calls: OVER_THE_END,
        place: 8,
        reads: 2,
        bytes: 96,
    },
    // A client that has got all reads nothing.
    Row {
        calls: OVER_THE_END,
        place: 9,
        reads: 0,
        bytes: 0,
    },
    // Nor does a send that fits, one that is too long, or one that no run lets in.
    Row {
        calls: MUST_GET,
        place: 9,
        reads: 0,
        bytes: 0,
    },
    Row {
        calls: REFUSED,
        place: 0,
        reads: 0,
        bytes: 0,
    },
    Row {
        calls: GATED,
        place: 2,
        reads: 0,
        bytes: 0,
    },
    // Nor a client that comes, asks, takes that back or goes, nor a mark of a run.
    Row {
        calls: MUST_GET,
        place: 0,
        reads: 0,
        bytes: 0,
    },
    Row {
        calls: MUST_GET,
        place: 1,
        reads: 0,
        bytes: 0,
    },
    Row {
        calls: CANCELLED,
        place: 6,
        reads: 0,
        bytes: 0,
    },
    Row {
        calls: OVER_THE_END,
        place: 10,
        reads: 0,
        bytes: 0,
    },
    Row {
        calls: GATED,
        place: 0,
        reads: 0,
        bytes: 0,
    },
];

/// How often the ring was read, and how many bytes.
fn counts_of(buffer: &RingBuffer) -> (u64, u64) {
    (buffer.reads(), buffer.bytes_read())
}

/// How often the row's call reads the ring, and how many bytes. The buffer ends here.
fn counted<R: Abort + AllocGlobal>(rt: &R, row: Row) -> Result<(u64, u64), Fail> {
    let mut buffer = RingBuffer::over(Ring::new(rt.alloc(), 256)?);
    assert!(rt; row.place < row.calls.len());
    run_all(rt, &mut buffer, &row.calls[..row.place])?;
    let before = counts_of(&buffer);
    assert!(rt; is_right(rt, &mut buffer, row.calls[row.place])?);
    let after = counts_of(&buffer);
    Ok((
        after.0.wrapping_sub(before.0),
        after.1.wrapping_sub(before.1),
    ))
}

#[test]
fn a_ring_is_read_as_often_as_the_rows_say(rt: HostRuntime) -> Result<(), Fail> {
    for row in ROWS {
        assert_eq!(rt; counted(&rt, *row)?, (row.reads, row.bytes));
    }
    Ok(())
}
