//! Headers, and events in a buffer of one.
use daq_types::NoMemory;
use event::{EventBuf, Header, Short, TooSmall, read_header, slot_len, write_header};
use std::alloc::Global;

const HEADER: Header = Header {
    event_id: 1,
    trigger_mask: 0,
    serial_number: 1,
    time_stamp: 0,
    data_size: 8,
};

const BYTES: [u8; 16] = [1, 0, 0, 0, 1, 0, 0, 0, 0, 0, 0, 0, 8, 0, 0, 0];

#[test]
fn writes_and_reads_a_header(rt: HostRuntime) {
    let mut bytes = [0; 16];
    write_header(&HEADER, &mut bytes);
    assert!(rt; bytes == BYTES);
    assert!(rt; read_header(&BYTES) == Ok(HEADER));
    assert!(rt; read_header(&BYTES[..15]) == Err(Short { have: 15 }));
}

/// Lengths of data, and those of the slots that their events take.
const SLOTS: &[(u32, u32)] = &[(0, 24), (8, 32), (72, 96), (232, 256), (233, 264)];

#[test]
fn rounds_slots_up(rt: HostRuntime) {
    for (size, slot) in SLOTS {
        assert!(rt; slot_len(*size) == *slot, "of {size}");
    }
}

/// The bytes of an event with that header, and its data.
const EVENT: &[u8] = &[
    1, 0, 0, 0, 1, 0, 0, 0, 0, 0, 0, 0, 8, 0, 0, 0, 9, 9, 9, 9, 9, 9, 9, 9,
];

const DATA: &[u8] = &[9; 8];

/// Whether the buffer, which has room for the event, holds it.
fn holds_it(buf: &mut EventBuf) -> bool {
    let is_filled = buf.fill(&HEADER, DATA).is_ok();
    is_filled && buf.header() == HEADER && buf.body() == DATA && buf.bytes() == EVENT
}

/// Whether the buffer refuses an event that is longer by one byte, and holds its data still.
fn refuses_longer(buf: &mut EventBuf) -> bool {
    let longer = Header {
        data_size: 9,
        ..HEADER
    };
    let refused = buf.fill(&longer, &[7; 9]);
    refused == Err(TooSmall { room: 8 }) && buf.body() == DATA && buf.room() == 8
}

/// Whether a new buffer does both.
fn holds_and_refuses(alloc: Global) -> Result<bool, NoMemory> {
    let mut buf = EventBuf::new(alloc, 8)?;
    Ok(holds_it(&mut buf) && refuses_longer(&mut buf))
}

#[test]
fn holds_an_event_and_keeps_it_where_one_is_too_long(rt: HostRuntime) {
    assert!(rt; matches!(holds_and_refuses(rt.alloc()), Ok(true)));
}
