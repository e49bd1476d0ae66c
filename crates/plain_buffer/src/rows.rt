ghost use Rattle.std.specs.Prelude.{◌≡◌, ◌≤◌, ◌<◌, ◌^◌, IfSome, ◌+◌, length, None, drop, sum_by, vec_len, vec_capacity};
ghost use Rattle.buffer_core.specs.Calls.{found_in, owed_in, to_drop};
ghost use Rattle.plain_buffer.specs.Rows.{slot_of_row, size_of_row, AreSmall, kept_of, bare, IsFound};

use crate::clients::Clients;
use buffer_core::Client;
use event::{Header, slot_len};

/// A kept event without its data, which stands among the bytes of all rows in order.
#[derive(Clone, Copy)]
pub struct Row {
    pub header: Header,
    /// The start number that the event was sent with.
    pub start: u32,
}

/// A kept event that was found.
#[derive(Clone, Copy)]
pub struct Found<'a> {
    pub place: u64,
    pub row: Row,
    pub body: &'a [u8],
}

/// How many rows have to go, from the front, so that with the rest an event of this slot fits.
pub fn count_to_drop(rows: &[Row], level: u64, slot: u64, size: u64) -> usize
    requires small { AreSmall rows.now }
    requires level { level ≡ sum_by slot_of_row rows.now }
    requires fits { level + slot < 2 ^ 64 }
    ensures value { result ≡ to_drop slot_of_row size slot rows.now }
    ensures within { result ≤ length rows.now }
{
    let mut left = level;
    for (gone, row) in rows.iter().enumerate() {
        if left + slot <= size {
            return gone;
        }
        left -= u64::from(slot_len(row.header.data_size));
    }
    rows.len()
}

/// The first of these rows, which stand from this place on, that a client has yet to get, with the least such client.
pub fn first_owed(rows: &[Row], first: u64, clients: &Clients) -> Option<(u32, u64)>
    requires { first + length rows.now < 2 ^ 64 }
    ensures { result ≡ owed_in clients.now first (bare rows.now) }
{
    for (index, row) in rows.iter().enumerate() {
        let place = first + index as u64;
        if let Some(client) = clients.owed(place, &row.header) {
            return Some((client, place));
        }
    }
    None
}

/// The first of these rows, which stand from this place on with these bytes of data, that the client has yet to be
/// given.
pub fn first_wanted<'a>(
    rows: &[Row],
    bytes: &'a [u8],
    first: u64,
    client: &Client,
) -> Option<Found<'a>>
    requires whole { sum_by size_of_row rows.now ≤ length bytes.now }
    requires places { first + length rows.now < 2 ^ 64 }
    ensures none { result ≡ None → found_in client.now first (kept_of rows.now bytes.now) ≡ None }
    ensures some { IfSome result (λ found. IsFound (found_in client.now first
        (kept_of rows.now bytes.now)) found.place found.row found.body.now) }
    ensures stated { IfSome result (λ found. found.row.header.data_size ≡ length found.body.now) }
    ensures place { IfSome result (λ found. found.place < first + length rows.now) }
{
    let mut rest = bytes;
    for (index, row) in rows.iter().enumerate() {
        let (body, behind) = rest.split_at(row.header.data_size as usize);
        let place = first + index as u64;
        if client.wants(place, &row.header) {
            return Some(Found {
                place,
                row: *row,
                body,
            });
        }
        rest = behind;
    }
    None
}

/// Takes so many off the front. The room stays.
pub fn drop_front<T: Drop>(items: &mut Vec<T>, count: usize)
    requires { count ≤ vec_len items.old }
    ensures items { items.new.items ≡ drop count items.old.items }
    ensures capacity { vec_capacity items.new ≡ vec_capacity items.old }
{
    let left = items.as_slice().len() - count;
    items.rotate_left(count);
    items.truncate(left);
}

/// The bytes of data of the first rows.
pub fn data_len(rows: &[Row]) -> u64
    requires { sum_by size_of_row rows.now < 2 ^ 64 }
    ensures { result ≡ sum_by size_of_row rows.now }
{
    rows.iter().map(|row| u64::from(row.header.data_size)).sum()
}

/// The slots of the rows.
pub fn slots_len(rows: &[Row]) -> u64
    requires small { AreSmall rows.now }
    requires fits { sum_by slot_of_row rows.now < 2 ^ 64 }
    ensures { result ≡ sum_by slot_of_row rows.now }
{
    rows.iter()
        .map(|row| u64::from(slot_len(row.header.data_size)))
        .sum()
}
