ghost use Rattle.std.specs.Prelude.{◌≡◌, ◌≤◌, ◌<◌, ◌^◌, ◌*◌, length, None};
ghost use Rattle.std.specs.Option.{option_map};
ghost use Rattle.odb_value.specs.ValueChanges.{default_size, size_with_item};
ghost use Rattle.odb_tree.specs.declared.refusals.OdbRefusal.TheVariants.{Limit};
ghost use Rattle.odb_tree.specs.Rows.{bytes_of, bytes_of_row, total_of};
ghost use Rattle.odb_tree.specs.Limits.{passed, len_fault, text_fault, total_limit};

use crate::refusals::{OdbRefusal, What};
use crate::rows::Row;
use daq_types::Tid;
use odb_value::{Item, Value};

/// The most rows of a database.
const MAX_ROWS: usize = 65536;

/// The most items of a key.
const MAX_ITEMS: u32 = 65536;

/// The most bytes of a text.
const MAX_TEXT: usize = 1023;

/// The most bytes of all values.
const MAX_TOTAL: u64 = 4194304;

/// The item size of a new STRING.
const NEW_TEXT_SIZE: u32 = 32;

/// The bytes of a value.
pub fn bytes_of(value: &Value) -> u64
    ensures value { result ≡ bytes_of value.now }
    ensures small { result < 2 ^ 48 }
{
    value.items().len() as u64 * u64::from(value.size())
}

/// The bytes of so many items of this size; the count is cut at the most items of a key.
pub fn bytes_with(len: u32, size: u32) -> u64
    ensures bytes { len_fault len ≡ None → result ≡ len * size }
    ensures small { result < 2 ^ 49 }
{
    u64::from(len.min(MAX_ITEMS)) * u64::from(size)
}

/// The bytes of a row's value.
fn bytes_of_row(row: &Row) -> u64
    ensures { result ≡ bytes_of_row row.now }
{
    match &row.value {
        Some(value) => bytes_of(value),
        None => 0,
    }
}

/// The bytes of all values.
pub fn total(rows: &[Row]) -> u64
    requires { total_of rows.now ≤ total_limit }
    ensures { result ≡ total_of rows.now }
{
    let mut total = 0;
    for row in rows {
        total += bytes_of_row(row);
    }
    total
}

/// What is wrong with the number of items of a key.
pub fn len_fault(len: u32) -> Option<What>
    ensures { result ≡ len_fault len }
{
    if len == 0 || len > MAX_ITEMS {
        return Some(What::Items);
    }
    None
}

/// What is wrong with the length of a text.
pub fn text_fault(item: &Item) -> Option<What>
    ensures { result ≡ text_fault item.now }
{
    match item {
        Item::Text(text) => {
            if text.as_slice().len() > MAX_TEXT {
                return Some(What::Size);
            }
            None
        }
        _ => None,
    }
}

/// The first limit that is passed, with so many rows, so many bytes of all values and this next number of a row.
pub fn limit_fault(own: Option<What>, count: usize, total: u64, next: u64) -> Option<OdbRefusal>
    ensures { result ≡ option_map Limit (passed own count total next) }
{
    if count > MAX_ROWS {
        return Some(OdbRefusal::Limit { what: What::Keys });
    }
    if let Some(what) = own {
        return Some(OdbRefusal::Limit { what });
    }
    if total > MAX_TOTAL {
        return Some(OdbRefusal::Limit { what: What::Total });
    }
    if next > 1 << 32 {
        return Some(OdbRefusal::Limit { what: What::Rows });
    }
    None
}

/// The item size of a new key of this type.
pub fn new_size(tid: Tid) -> u32
    ensures size { result ≡ default_size tid }
    ensures small { result ≤ 32 }
{
    match tid {
        Tid::Text => NEW_TEXT_SIZE,
        _ => tid.size(),
    }
}

/// The item size of a key with this item put in.
pub fn raised_size(size: u32, item: &Item) -> u32
    ensures { text_fault item.now ≡ None → result ≡ size_with_item size item.now }
{
    match item {
        Item::Text(text) => size.max(text.as_slice().len().min(MAX_TEXT) as u32 + 1),
        _ => size,
    }
}
