ghost use Rattle.std.specs.Prelude.{◌≡◌, ◌+◌, ◌≤◌, ◌++◌, length, vec_len, vec_capacity, drop};
ghost use Rattle.event.specs.Headers.{header_encoding};

use crate::head::{HEADER_BYTES, Header, write_header};

/// Appends bytes to a vector that has the room for them. Takes no memory.
pub fn append_within(bytes: &mut Vec<u8>, more: &[u8])
    requires { vec_len bytes.old + length more.now ≤ vec_capacity bytes.old }
    ensures items { bytes.new.items ≡ bytes.old.items ++ more.now }
    ensures capacity { vec_capacity bytes.old ≤ vec_capacity bytes.new }
{
    let _ = bytes.extend_from_slice(more);
}

/// Writes the header to the front, and makes as much place behind it as it states. Takes no memory.
pub fn write_head(bytes: &mut Vec<u8>, header: &Header)
    requires long { 16 ≤ vec_len bytes.old }
    requires room { 16 + header.now.data_size ≤ vec_capacity bytes.old }
    ensures front { bytes.new.items ≡ header_encoding header.now ++ drop 16 bytes.new.items }
    ensures length { vec_len bytes.new ≡ 16 + header.now.data_size }
    ensures capacity { vec_capacity bytes.old ≤ vec_capacity bytes.new }
{
    let mut head = [0; 16];
    write_header(header, &mut head);
    let _ = bytes.resize(HEADER_BYTES + header.data_size as usize, 0);
    let (front, _) = bytes.as_mut_slice().split_at_mut(HEADER_BYTES);
    front.copy_from_slice(&head);
}
