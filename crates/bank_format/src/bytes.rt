ghost use Rattle.std.specs.Prelude.{◌≡◌, ◌+◌, ◌-◌, ◌≤◌, ◌<◌, ◌^◌, ◌++◌, [], length, take, drop, IfOk, vec_len, vec_capacity};
ghost use Rattle.std.specs.Int.{to_le_bytes, w32};
ghost use Rattle.bank_format.specs.Formats as formats;
ghost use Rattle.bank_format.specs.Formats.{field_limit, padded};
ghost use Rattle.bank_format.specs.BankAreas.{bank_value, plain_header, plain_bank, plain_banks};

use crate::formats::Format;
use byteorder::{ByteOrder, LittleEndian};
use daq_types::NoMemory;
use std::alloc::Global;

/// Whether a number does not fit the fields of 16 bits, in the format that has these.
pub fn is_past_16_bits(format: Format, number: u64) -> bool
    ensures { result ≡ formats.is_past_16_bits format number }
{
    match format {
        Format::Bank16 => number > 65_535,
        Format::Bank32 | Format::Bank32A => false,
    }
}

/// The bytes of a bank with its header and its padding.
pub fn bank_len(format: Format, body: &[u8]) -> u64
    ensures { result ≡ formats.header_len format + padded (length body.now) }
{
    format.header_len() as u64 + (body.len() as u64).div_ceil(8) * 8
}

/// An area with no bank, in a vector with room for `limit` bytes.
#[tactic(auto, unfolding(crate::specs::BankAreas::plain_banks))]
pub fn new_area(alloc: Global, format: Format, limit: u32) -> Result<Vec<u8>, NoMemory>
    requires { 8 ≤ limit }
    ensures bytes { IfOk result (λ bytes. bytes.items ≡ plain_banks format []) }
    ensures len { IfOk result (λ bytes. vec_len bytes ≡ 8) }
    ensures room { IfOk result (λ bytes. limit ≤ vec_capacity bytes) }
{
    let mut front = [0; 8];
    LittleEndian::write_u32(&mut front[4..], format.flags());
    let mut bytes = Vec::with_capacity(alloc, limit as usize)?;
    bytes.extend_from_slice(&front)?;
    Ok(bytes)
}

/// Appends bytes to a vector that has the room for them.
fn append(bytes: &mut Vec<u8>, more: &[u8])
    requires { vec_len bytes.old + length more.now ≤ vec_capacity bytes.old }
    ensures items { bytes.new.items ≡ bytes.old.items ++ more.now }
    ensures len { vec_len bytes.new ≡ vec_len bytes.old + length more.now }
    ensures room { vec_capacity bytes.old ≤ vec_capacity bytes.new }
{
    let _ = bytes.extend_from_slice(more);
}

/// A bank's header with a reserved word of 0, at the front of 16 bytes.
fn make_header(format: Format, name: [u8; 4], tid: u32, size: u32) -> [u8; 16]
    requires tid { tid < field_limit format }
    requires size { size < field_limit format }
    ensures { take (formats.header_len format) result ≡ plain_header format name tid size }
{
    let mut header = [
        name[0], name[1], name[2], name[3], 0, 0, 0, 0, 0, 0, 0, 0, 0, 0, 0, 0,
    ];
    match format {
        Format::Bank16 => {
            LittleEndian::write_u16(&mut header[4..], tid as u16);
            LittleEndian::write_u16(&mut header[6..], size as u16);
        }
        Format::Bank32 | Format::Bank32A => {
            LittleEndian::write_u32(&mut header[4..], tid);
            LittleEndian::write_u32(&mut header[8..], size);
        }
    }
    header
}

/// Appends a bank to bytes that have the room for it.
pub fn append_bank(format: Format, bytes: &mut Vec<u8>, name: [u8; 4], tid: u32, body: &[u8])
    requires tid { tid < field_limit format }
    requires size { length body.now < field_limit format }
    requires room { vec_len bytes.old + (formats.header_len format + padded (length body.now))
        ≤ vec_capacity bytes.old }
    ensures items { bytes.new.items ≡ bytes.old.items ++ plain_bank format
        (bank_value name tid body.now) }
    ensures len { vec_len bytes.new ≡ vec_len bytes.old
        + (formats.header_len format + padded (length body.now)) }
    ensures room { vec_capacity bytes.old ≤ vec_capacity bytes.new }
{
    let header = make_header(format, name, tid, body.len() as u32);
    let padding = body.len().div_ceil(8) * 8 - body.len();
    append(bytes, &header[..format.header_len()]);
    append(bytes, body);
    append(bytes, &[0; 8][..padding]);
}

/// Writes into the first 4 bytes how many stand behind the first 8.
pub fn state_length(bytes: &mut Vec<u8>)
    requires front { 8 ≤ vec_len bytes.old }
    requires most { vec_len bytes.old < 2 ^ 32 }
    ensures items { bytes.new.items ≡ to_le_bytes w32 (vec_len bytes.old - 8) ++ drop 4
        bytes.old.items }
    ensures len { vec_len bytes.new ≡ vec_len bytes.old }
    ensures room { vec_capacity bytes.new ≡ vec_capacity bytes.old }
{
    let len = (bytes.len() - 8) as u32;
    LittleEndian::write_u32(bytes.as_mut_slice(), len);
}
