ghost use Rattle.std.specs.Prelude.{◌≡◌, ◌≤◌, length};
ghost use Rattle.event.specs.Headers.{fields_of};
ghost use Rattle.ring_buffer.specs.Rings.{IsRead};
ghost use Rattle.buffer_core.specs.Window.{Sent};
ghost use Rattle.ring_buffer.specs.RingHolds.{front_of, HoldsEvent};
ghost use Rattle.ring_buffer.specs.Stored.{FitsSlot, IsHeader};

use crate::Ring;
use event::{Header, read_header, write_header};

/// How many bytes stand in front of an event's data.
pub const FRONT: usize = 24;

/// What stands in front of an event's data.
#[derive(Clone, Copy)]
pub struct Front {
    /// The start number that the event was sent with.
    pub start: u32,
    pub header: Header,
}

/// The header. Each of its fields fits its bytes.
fn with_fields_that_fit(header: Header) -> Header
    ensures same { result ≡ header }
    ensures fit { IsHeader result }
{
    let Header {
        event_id,
        trigger_mask,
        serial_number,
        time_stamp,
        data_size,
    } = header;
    Header {
        event_id,
        trigger_mask,
        serial_number,
        time_stamp,
        data_size,
    }
}

/// Reads what stands in front of the data of the event at this offset.
pub fn read_front(ring: &mut Ring, off: u64) -> Front
    requires { 24 ≤ length ring.old.bytes }
    ensures start { (s : Sent) → HoldsEvent ring.old.bytes off s → FitsSlot s → result.start
        ≡ s.start }
    ensures header { (s : Sent) → HoldsEvent ring.old.bytes off s → FitsSlot s → result.header
        ≡ fields_of s.event }
    ensures read { IsRead ring.old ring.new 1 24 }
{
    let mut bytes = [0; FRONT];
    ring.get_at(off, &mut bytes);
    let (front, rest) = bytes.split_at(8);
    let Ok(header) = read_header(rest) else {
        unreachable!()
    };
    let start = u32::from_le_bytes([front[0], front[1], front[2], front[3]]);
    Front {
        start,
        header: with_fields_that_fit(header),
    }
}

/// The bytes in front of an event's data, all of whose fields fit.
pub fn front_bytes_of(start: u32, header: &Header) -> [u8; 24]
    ensures bytes { result ≡ front_of start header.now }
    ensures fit { IsHeader header.now }
{
    let fields = with_fields_that_fit(*header);
    let mut rest = [0; 16];
    write_header(&fields, &mut rest);
    let mut bytes = [0; 24];
    let (numbers, header_bytes) = bytes.split_at_mut(8);
    let (first, second) = numbers.split_at_mut(4);
    first.copy_from_slice(&start.to_le_bytes());
    second.copy_from_slice(&header.data_size.to_le_bytes());
    header_bytes.copy_from_slice(&rest);
    bytes
}
