ghost use Rattle.std.specs.Prelude.{◌≡◌, false, ◌≤◌, ◌<◌, ◌^◌, ◌*◌, length, None, IfOk, OnOk};
ghost use Rattle.std.specs.Option.{option_or};
ghost use Rattle.daq_types.specs.declared.types.Tid.{Tid};
ghost use Rattle.odb_value.specs.Items.{is_kept};
ghost use Rattle.odb_value.specs.Values.{items_limit};
ghost use Rattle.odb_tree.specs.Rows.{bytes_in};
ghost use Rattle.odb_tree.specs.Calls.{exists_fault, tid_fault, kept_fault, items_fault, new_value, type_fault, index_fault};

use crate::limits::{bytes_with, len_fault, new_size};
use crate::lookups::row_at;
use crate::refusals::{OdbRefusal, What};
use crate::rows::{NewKey, Row};
use daq_types::{Name, NoMemory, Tid};
use odb_value::Value;
use std::alloc::Global;

/// Whether something is there already.
pub fn exists_fault(rows: &[Row], names: &[Name]) -> Option<OdbRefusal>
    ensures { result ≡ exists_fault rows.now names.now }
{
    if names.is_empty() || row_at(rows, names).is_some() {
        return Some(OdbRefusal::Exists);
    }
    None
}

/// Whether the database keeps values of this type: none of floats, bit fields, arrays, structures, keys and links.
pub fn is_kept(tid: Tid) -> bool
    ensures { result ≡ is_kept tid }
{
    !matches!(
        tid,
        Tid::Float | Tid::Double | Tid::BitField | Tid::Array | Tid::Struct | Tid::Key | Tid::Link
    )
}

/// Whether the database keeps no values of this type.
pub fn tid_fault(tid: Tid) -> Option<OdbRefusal>
    ensures { result ≡ tid_fault tid }
{
    if is_kept(tid) {
        return None;
    }
    Some(OdbRefusal::NotKept { tid })
}

/// Whether a database without links keeps no values of the new key's type.
pub fn kept_fault(kind: &NewKey) -> Option<OdbRefusal>
    ensures { result ≡ kept_fault false kind.now }
{
    match kind {
        NewKey::Dir => None,
        NewKey::Keys { tid, .. } => tid_fault(*tid),
        NewKey::Link { .. } => tid_fault(Tid::Link),
    }
}

/// What is wrong with the number of items, in a database without links.
pub fn items_fault(kind: &NewKey) -> Option<What>
    requires { kept_fault false kind.now ≡ None }
    ensures { result ≡ items_fault kind.now }
{
    match kind {
        NewKey::Dir | NewKey::Link { .. } => None,
        NewKey::Keys { len, .. } => len_fault(*len),
    }
}

/// The bytes of the new value, in a database without links.
pub fn bytes_of_new(kind: &NewKey) -> u64
    requires { kept_fault false kind.now ≡ None }
    ensures bytes { items_fault kind.now ≡ None → bytes_in (new_value kind.now) ≡ result }
    ensures small { result < 2 ^ 49 }
{
    match kind {
        NewKey::Dir | NewKey::Link { .. } => 0,
        NewKey::Keys { tid, len } => bytes_with(*len, new_size(*tid)),
    }
}

/// The new value, in a database without links.
pub fn new_value(alloc: Global, kind: &NewKey) -> Result<Option<Value>, NoMemory>
    requires kept { kept_fault false kind.now ≡ None }
    requires items { items_fault kind.now ≡ None }
    ensures { IfOk result (λ value. value ≡ new_value kind.now) }
{
    match kind {
        NewKey::Dir | NewKey::Link { .. } => Ok(None),
        NewKey::Keys { tid, len } => Ok(Some(Value::new(alloc, *tid, *len)?)),
    }
}

/// Whether the types differ.
pub fn type_fault(have: Tid, given: Tid) -> Option<OdbRefusal>
    ensures { result ≡ type_fault have given }
{
    if have.code() == given.code() {
        return None;
    }
    Some(OdbRefusal::TypeMismatch { have })
}

/// Why a value of the second type does not take the place of one of the first.
pub fn replace_fault(have: Tid, given: Tid) -> Option<OdbRefusal>
    ensures { result ≡ option_or (tid_fault given) (type_fault have given) }
{
    if let Some(refusal) = tid_fault(given) {
        return Some(refusal);
    }
    type_fault(have, given)
}

/// Whether there is no item of this index.
pub fn index_fault(len: usize, index: u32) -> Option<OdbRefusal>
    requires { len ≤ items_limit }
    ensures { result ≡ index_fault len index }
{
    if (index as usize) < len {
        return None;
    }
    Some(OdbRefusal::BadIndex { len: len as u32 })
}
