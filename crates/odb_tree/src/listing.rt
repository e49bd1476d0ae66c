ghost use Rattle.std.specs.Prelude.{◌≡◌, ◌<◌, ◌++◌, ◌∷◌, [], length, map, true, if◌then◌else◌, IfOk, OnOk};
ghost use Rattle.std.specs.List.{filter};
ghost use Rattle.odb_tree.specs.Rows.{is_kind, is_listed};
ghost use Rattle.odb_tree.specs.Calls.{child_of, children_of};

use crate::children::{Child, Children};
use crate::rows::Row;
use daq_types::{Name, NoMemory};
use odb_value::is_front;
use std::alloc::Global;

/// Whether the row is of this kind.
fn is_kind(row: &Row, keys: bool) -> bool
    ensures { result ≡ is_kind keys row.now }
{
    if keys {
        row.value.is_some()
    } else {
        row.value.is_none()
    }
}

/// Whether the row is a key, or a directory, that stands in the directory with these names.
fn is_listed(row: &Row, names: &[Name], keys: bool) -> bool
    ensures listed { result ≡ is_listed keys names.now row.now }
    ensures named { result ≡ true → 0 < length row.now.path }
{
    let path = row.path.names();
    is_kind(row, keys) && path.len() == names.len() + 1 && is_front(names, path)
}

/// The row as what stands in its directory.
fn child_of(row: &Row) -> Child
    requires { 0 < length row.now.path }
    ensures { result ≡ child_of row.now }
{
    let path = row.path.names();
    Child {
        name: path[path.len() - 1],
        is_dir: row.value.is_none(),
        row: row.number,
    }
}

/// Adds the row where it is listed.
fn add_listed(
    children: &mut Vec<Child>,
    row: &Row,
    names: &[Name],
    keys: bool,
) -> Result<(), NoMemory>
    ensures { OnOk result (children.new.items ≡ children.old.items
        ++ (if is_listed keys names.now row.now then child_of row.now ∷ [] else [])) }
{
    if is_listed(row, names, keys) {
        children.push(child_of(row))?;
    }
    Ok(())
}

/// Adds the keys, or the directories, that stand in the directory with these names.
fn add_children(
    children: &mut Vec<Child>,
    rows: &[Row],
    names: &[Name],
    keys: bool,
) -> Result<(), NoMemory>
    ensures { OnOk result (children.new.items ≡ children.old.items ++ map child_of
        (filter (is_listed keys names.now) rows.now)) }
{
    for row in rows {
        add_listed(children, row, names, keys)?;
    }
    Ok(())
}

/// What stands in the directory with these names.
pub fn children_of(alloc: Global, rows: &[Row], names: &[Name]) -> Result<Children, NoMemory>
    ensures { IfOk result (λ children. children ≡ children_of rows.now names.now) }
{
    let mut children = Vec::new(alloc);
    add_children(&mut children, rows, names, true)?;
    add_children(&mut children, rows, names, false)?;
    Ok(Children::of(children))
}
