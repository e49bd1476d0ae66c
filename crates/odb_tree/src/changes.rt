ghost use Rattle.std.specs.Prelude.{◌≡◌, ◌≤◌, ◌<◌, length, position, ◌-◌, IfSome, IfOk, OnOk, OnErr, Some, None};
ghost use Rattle.odb_value.specs.Paths.{same_path};
ghost use Rattle.odb_value.specs.Values.{HeldValue, items_limit};
ghost use Rattle.odb_value.specs.ValueChanges.{put_in, resized};
ghost use Rattle.odb_tree.specs.declared.rows.Row.{Row};
ghost use Rattle.odb_tree.specs.Rows.{row_at, change_row, change_at, rows_outside};
ghost use Rattle.odb_tree.specs.Changes.{CanPut, RowCanPut, RowCanResize};

use crate::rows::Row;
use daq_types::{Name, NoMemory};
use odb_value::{Item, Value, is_front, is_same};
use std::alloc::Global;

/// The place of the row at the path of these names.
fn place_at(rows: &[Row], names: &[Name]) -> Option<usize>
    ensures place { result ≡ position (λ (row : Row). same_path row.path names.now) rows.now }
    ensures within { IfSome result (λ place. place < length rows.now) }
{
    rows.iter().position(|row| is_same(row.path.names(), names))
}

/// Puts an item into the row's value.
pub fn put_row(row: &mut Row, index: u32, item: Item)
    requires { (v : HeldValue) → row.old.value ≡ Some v → CanPut v index item }
    ensures { row.new ≡ change_row (λ v. put_in v index item) row.old }
{
    if let Some(value) = &mut row.value {
        value.put(index, item);
    }
}

/// Gives the row so many items.
pub fn resize_row(row: &mut Row, alloc: Global, len: u32) -> Result<(), NoMemory>
    requires kept { RowCanResize row.old }
    requires some { 1 ≤ len }
    requires many { len ≤ items_limit }
    ensures ok { OnOk result (row.new ≡ change_row (λ v. resized v len) row.old) }
    ensures err { OnErr result (row.new ≡ row.old) }
{
    if let Some(value) = &mut row.value {
        value.resize(alloc, len)?;
    }
    Ok(())
}

/// Replaces the row's value.
pub fn replace_row(row: &mut Row, value: Value)
    ensures { row.new ≡ change_row (λ _. value) row.old }
{
    if row.value.is_some() {
        row.value = Some(value);
    }
}

/// Puts an item into the key at the path of these names.
pub fn put_at(rows: &mut Vec<Row>, names: &[Name], index: u32, item: Item)
    requires { (row : Row) → row_at rows.old.items names.now ≡ Some row → RowCanPut row index item }
    ensures { rows.new.items ≡ change_at rows.old.items names.now (λ v. put_in v index item) }
{
    if let Some(place) = place_at(rows.as_slice(), names) {
        put_row(&mut rows[place], index, item);
    }
}

/// Gives the key at the path of these names so many items.
pub fn resize_at(
    rows: &mut Vec<Row>,
    alloc: Global,
    names: &[Name],
    len: u32,
) -> Result<(), NoMemory>
    requires kept { (row : Row) → row_at rows.old.items names.now ≡ Some row → RowCanResize row }
    requires some { 1 ≤ len }
    requires many { len ≤ items_limit }
    ensures ok { OnOk result (rows.new.items ≡ change_at rows.old.items names.now
        (λ v. resized v len)) }
    ensures err { OnErr result (rows.new.items ≡ rows.old.items) }
{
    if let Some(place) = place_at(rows.as_slice(), names) {
        resize_row(&mut rows[place], alloc, len)?;
    }
    Ok(())
}

/// Replaces the value of the key at the path of these names.
pub fn replace_at(rows: &mut Vec<Row>, names: &[Name], value: Value)
    ensures { rows.new.items ≡ change_at rows.old.items names.now (λ _. value) }
{
    if let Some(place) = place_at(rows.as_slice(), names) {
        replace_row(&mut rows[place], value);
    }
}

/// Removes the row at the path of these names and all below it, and answers how many rows went.
pub fn remove_at(rows: &mut Vec<Row>, names: &[Name]) -> usize
    ensures rows { rows.new.items ≡ rows_outside rows.old.items names.now }
    ensures gone { result ≡ length rows.old.items - length (rows_outside rows.old.items names.now) }
{
    let before = rows.len();
    rows.retain(|row| !is_front(names, row.path.names()));
    before - rows.len()
}

/// The same row once more.
pub fn copy_row(row: &Row, alloc: Global) -> Result<Row, NoMemory>
    ensures { IfOk result (λ copy. copy ≡ row.now) }
{
    let path = row.path.try_clone(alloc)?;
    let value = match &row.value {
        Some(value) => Some(value.try_clone(alloc)?),
        None => None,
    };
    Ok(Row {
        number: row.number,
        path,
        value,
    })
}

/// The same rows once more.
pub fn copy_rows(rows: &[Row], alloc: Global) -> Result<Vec<Row>, NoMemory>
    ensures { IfOk result (λ copy. copy.items ≡ rows.now) }
{
    let mut copy = Vec::with_capacity(alloc, rows.len())?;
    for row in rows {
        copy.push(copy_row(row, alloc)?)?;
    }
    Ok(copy)
}
