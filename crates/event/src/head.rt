ghost use Rattle.std.specs.Prelude.{◌≡◌, ◌≤◌, ◌<◌, ◌↔◌, IsErr, IfOk, IfErr, length, take};
ghost use Rattle.event.specs.Events.{slot_of_length};
ghost use Rattle.event.specs.Headers.{header_encoding};

use byteorder::{ByteOrder, LittleEndian};

/// The bytes of a header.
pub const HEADER_BYTES: usize = 16;

/// The most bytes of data that an event has.
pub const MAX_DATA: u32 = 4_194_304;

/// The header of a MIDAS event. In bytes it is 16 long, with each field little-endian in this order.
#[derive(Clone, Copy, Debug, PartialEq, Eq)]
pub struct Header {
    /// Which kind of event it is.
    pub event_id: u16,
    /// One bit for each trigger that caused the event.
    pub trigger_mask: u16,
    /// Counts the events of a front-end.
    pub serial_number: u32,
    /// Seconds since 1970.
    pub time_stamp: u32,
    /// The bytes of data behind the header.
    pub data_size: u32,
}

/// There are too few bytes for a header.
#[derive(Clone, Copy, Debug, PartialEq, Eq)]
pub struct Short {
    /// How many there are.
    pub have: u32,
}

/// The header in the first 16 bytes; `Short` exactly where fewer are given.
#[tactic(auto, unfolding(crate::specs::Events::header_bytes))]
pub fn read_header(bytes: &[u8]) -> Result<Header, Short>
    ensures short { IsErr result ↔ (length bytes.now < 16) }
    ensures have { IfErr result (λ short. short.have ≡ length bytes.now) }
    ensures read { IfOk result (λ header. header_encoding header ≡ take 16 bytes.now) }
{
    if bytes.len() < HEADER_BYTES {
        return Err(Short {
            have: bytes.len() as u32,
        });
    }
    Ok(Header {
        event_id: u16::from_le_bytes([bytes[0], bytes[1]]),
        trigger_mask: u16::from_le_bytes([bytes[2], bytes[3]]),
        serial_number: u32::from_le_bytes([bytes[4], bytes[5], bytes[6], bytes[7]]),
        time_stamp: u32::from_le_bytes([bytes[8], bytes[9], bytes[10], bytes[11]]),
        data_size: u32::from_le_bytes([bytes[12], bytes[13], bytes[14], bytes[15]]),
    })
}

/// Writes the header's 16 bytes.
#[tactic(auto, unfolding(crate::specs::Events::header_bytes))]
pub fn write_header(header: &Header, into: &mut [u8; 16])
    ensures { into.new ≡ header_encoding header.now }
{
    LittleEndian::write_u16(into, header.event_id);
    LittleEndian::write_u16(&mut into[2..], header.trigger_mask);
    LittleEndian::write_u32(&mut into[4..], header.serial_number);
    LittleEndian::write_u32(&mut into[8..], header.time_stamp);
    LittleEndian::write_u32(&mut into[12..], header.data_size);
}

/// The bytes that an event with so much data takes in a buffer: 24 and the data rounded up to 8.
#[tactic(auto, unfolding(crate::specs::Events::slot_of_length))]
pub fn slot_len(data_size: u32) -> u32
    requires { data_size ≤ MAX_DATA }
    ensures { result ≡ slot_of_length data_size }
{
    24 + data_size.div_ceil(8) * 8
}
