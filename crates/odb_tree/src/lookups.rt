ghost use Rattle.std.specs.Prelude.{◌≡◌, ◌<◌, ◌≤◌, ◌==◌, ◌++◌, ◌∷◌, [], ℕ, length, drop, map, not, ◌&&◌, Some, None, Ok, Err, IfOk, IfErr, IfSome, OnOk, MatchOption, filter};
ghost use Rattle.std.specs.Option.{option_copied};
ghost use Rattle.odb_value.specs.Paths.{depth_limit};
ghost use Rattle.odb_tree.specs.Rows.{row_at, row_numbered, is_key, is_child, keys_in, dirs_in, bytes_of, total_of};
ghost use Rattle.odb_tree.specs.Links.{numbers_along};
ghost use Rattle.odb_tree.specs.Lookups.{dir_fault, absent_fault, parent_of, obstacle_at, obstacle_from, obstacle_to, obstacle_to_new, seek, seek_key};
ghost use Rattle.odb_tree.specs.Calls.{child_of, children_of, path_with};

use crate::refusals::OdbRefusal;
use crate::rows::Row;
use daq_types::Name;
use odb_value::{Value, is_same};

/// The key at a path.
#[derive(Drop)]
pub struct Key<'a> {
    pub number: u32,
    pub value: &'a Value,
}

/// The names of the directory in which a path stands.
pub fn parent(names: &[Name]) -> &[Name]
    ensures { result.now ≡ parent_of names.now }
{
    &names[..names.len().saturating_sub(1)]
}

/// The row at the path of these names.
pub fn row_at<'a>(rows: &'a [Row], names: &[Name]) -> Option<&'a Row>
    ensures { option_copied result ≡ row_at rows.now names.now }
{
    rows.iter().find(|row| is_same(row.path.names(), names))
}

/// The row with this number.
pub fn row_numbered(rows: &[Row], number: u32) -> Option<&Row>
    ensures { option_copied result ≡ row_numbered rows.now number }
{
    rows.iter().find(|row| row.number == number)
}

/// What a row is where a directory is needed.
fn obstacle_at(row: Option<&Row>, missing: Option<OdbRefusal>) -> Option<OdbRefusal>
    ensures { result ≡ obstacle_at missing (option_copied row.entry) }
{
    match row {
        None => missing,
        Some(row) => match &row.value {
            Some(_) => Some(OdbRefusal::NotDir),
            None => None,
        },
    }
}

/// The first obstacle along these names from the root.
pub fn obstacle(rows: &[Row], names: &[Name], missing: Option<OdbRefusal>) -> Option<OdbRefusal>
    ensures { result ≡ obstacle_from missing rows.now [] names.now }
{
    for i in 0..names.len() {
        let found = obstacle_at(row_at(rows, &names[..i + 1]), missing);
        if found.is_some() {
            return found;
        }
    }
    None
}

/// The row at a path that is not the root's, or why it is not reached.
pub fn seek<'a>(rows: &'a [Row], names: &[Name]) -> Result<&'a Row, OdbRefusal>
    ensures found { IfOk result (λ row. seek rows.now names.now ≡ Ok row.now) }
    ensures refused { IfErr result (λ refusal. seek rows.now names.now ≡ Err refusal) }
{
    if let Some(refusal) = obstacle(rows, parent(names), Some(OdbRefusal::NoKey)) {
        return Err(refusal);
    }
    match row_at(rows, names) {
        Some(row) => Ok(row),
        None => Err(OdbRefusal::NoKey),
    }
}

/// The key at a path, or why there is none.
pub fn seek_key<'a>(rows: &'a [Row], names: &[Name]) -> Result<Key<'a>, OdbRefusal>
    ensures found { IfOk result (λ key. seek_key rows.now names.now
        ≡ Ok (key.number, key.value.now)) }
    ensures refused { IfErr result (λ refusal. seek_key rows.now names.now ≡ Err refusal) }
{
    if names.is_empty() {
        return Err(OdbRefusal::NotValue);
    }
    let row = seek(rows, names)?;
    match &row.value {
        Some(value) => Ok(Key {
            number: row.number,
            value,
        }),
        None => Err(OdbRefusal::NotValue),
    }
}

/// Whether a directory stands at a path, or why it is not reached.
pub fn check_dir(rows: &[Row], names: &[Name]) -> Result<(), OdbRefusal>
    ensures dir { OnOk result (dir_fault rows.now names.now ≡ None) }
    ensures refused { IfErr result (λ refusal. dir_fault rows.now names.now ≡ Some refusal) }
{
    if names.is_empty() {
        return Ok(());
    }
    match &seek(rows, names)?.value {
        Some(_) => Err(OdbRefusal::NotDir),
        None => Ok(()),
    }
}

/// The names of the row with this number, and none for the root.
pub fn path_with(rows: &[Row], number: u32) -> Option<&[Name]>
    ensures names { option_copied result ≡ path_with rows.now number }
    ensures depth { IfSome result (λ names. length names.now ≤ depth_limit) }
{
    if number == 0 {
        return Some(&[]);
    }
    match row_numbered(rows, number) {
        Some(row) => Some(row.path.names()),
        None => None,
    }
}

/// Whether a key or a directory stands at a path, or why it is not reached. The root is there.
pub fn check_there(rows: &[Row], names: &[Name]) -> Result<(), OdbRefusal>
    ensures row { OnOk result (absent_fault rows.now names.now ≡ None) }
    ensures refused { IfErr result (λ refusal. absent_fault rows.now names.now ≡ Some refusal) }
{
    if names.is_empty() {
        return Ok(());
    }
    let _row = seek(rows, names)?;
    Ok(())
}

/// Writes the numbers of the rows at the first of these names, the first two and so on, as far as rows are there, and
/// answers how many.
pub fn number_rows(rows: &[Row], names: &[Name], numbers: &mut [u32; 32]) -> u32
    requires { length names.now ≤ depth_limit }
    ensures count { result ≡ length (numbers_along rows.now [] names.now) }
    ensures numbers { numbers.new ≡ numbers_along rows.now [] names.now ++ drop result numbers.old }
{
    for i in 0..names.len() {
        let Some(row) = row_at(rows, &names[..i + 1]) else {
            return i as u32;
        };
        numbers[i] = row.number;
    }
    names.len() as u32
}
