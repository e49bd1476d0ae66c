ghost use Rattle.std.specs.Prelude.{◌≡◌, ◌++◌, ◌∷◌, [], OnOk, All, ℕ, List};
ghost use Rattle.std.specs.List.{flat_map};
ghost use Rattle.odb_value.specs.Paths.{depth_limit};
ghost use Rattle.odb_tree.specs.Trees.{IsDir};
ghost use Rattle.odb_tree.specs.Rows.{keys_in};
ghost use Rattle.odb_tree.specs.Databases.{IsDatabase};
ghost use Rattle.odb_text.specs.Dumps.{dir_line, keys_text, section_text, root_text, dirs_text};
ghost use Rattle.odb_text.specs.Standing.{IsChildIn, key_part, begins_with_key};

use crate::children::{children_of, path_of_child};
use daq_text::TextBuffer;
use daq_types::NoMemory;
use odb_tree::{Child, Database};
use odb_value::{Path, print_key, print_path};
use std::alloc::Global;

/// Adds the line of a directory.
fn add_dir_line(text: &mut TextBuffer, path: &Path) -> Result<(), NoMemory>
    ensures { OnOk result (text.new ≡ text.old ++ dir_line path.now) }
{
    text.text(b"[")?;
    print_path(path.names(), text)?;
    text.text(b"]\n")
}

/// Adds the lines of what stands in a directory, where it is a key.
fn add_key<D: Database>(
    alloc: Global,
    database: &D,
    path: &Path,
    child: &Child,
    text: &mut TextBuffer,
) -> Result<(), NoMemory>
    requires { IsChildIn (D.rows database.now) path.now child.now }
    ensures { OnOk result (text.new
        ≡ text.old ++ key_part (D.rows database.now) path.now child.now) }
{
    if child.is_dir {
        return Ok(());
    }
    let own = path_of_child(alloc, database, path, child)?;
    match database.raw(alloc, &own) {
        Ok(value) => print_key(child.name.as_slice(), &value, text),
        Err(_) => Err(NoMemory),
    }
}

/// Adds the lines of those of these that are keys.
fn add_children<D: Database>(
    alloc: Global,
    database: &D,
    path: &Path,
    children: &[Child],
    text: &mut TextBuffer,
) -> Result<(), NoMemory>
    requires { All (IsChildIn (D.rows database.now) path.now) children.now }
    ensures { OnOk result (text.new ≡ text.old ++ flat_map (key_part (D.rows database.now) path.now)
        children.now) }
{
    for child in children {
        add_key(alloc, database, path, child, text)?;
    }
    Ok(())
}

/// Adds the lines of the keys in a directory.
fn add_keys<D: Database>(
    alloc: Global,
    database: &D,
    path: &Path,
    text: &mut TextBuffer,
) -> Result<(), NoMemory>
    requires { IsDir (D.rows database.now).rows path.now }
    ensures { OnOk result (text.new ≡ text.old ++ keys_text (keys_in (D.rows database.now).rows
        path.now)) }
{
    let children = children_of(alloc, database, path)?;
    add_children(alloc, database, path, children.as_slice(), text)
}

/// Adds the line of a directory, the lines of its keys, and an empty line.
fn add_section<D: Database>(
    alloc: Global,
    database: &D,
    path: &Path,
    text: &mut TextBuffer,
) -> Result<(), NoMemory>
    requires { IsDir (D.rows database.now).rows path.now }
    ensures { OnOk result (text.new
        ≡ text.old ++ section_text (D.rows database.now).rows path.now) }
{
    add_dir_line(text, path)?;
    add_keys(alloc, database, path, text)?;
    text.end_line()
}

/// Whether the first of these is a key.
fn begins_with_key(children: &[Child]) -> bool
    ensures { result ≡ begins_with_key children.now }
{
    match children {
        [] => false,
        [child, ..] => !child.is_dir,
    }
}

/// Adds the root, where keys stand in it.
#[tactic(auto, using(crate::proofs::Parts::root_with, crate::proofs::Parts::root_without))]
pub fn add_root<D: Database>(
    alloc: Global,
    database: &D,
    text: &mut TextBuffer,
) -> Result<(), NoMemory>
    ensures added { OnOk result (text.new ≡ text.old ++ root_text (D.rows database.now).rows) }
    ensures database { OnOk result (IsDatabase (D.rows database.now)) }
{
    let root = Path::root(alloc);
    let children = children_of(alloc, database, &root)?;
    if begins_with_key(children.as_slice()) {
        return add_section(alloc, database, &root, text);
    }
    Ok(())
}

/// Adds the directories in a directory, each with its keys and what is below it, down to so many levels.
pub fn add_dirs<D: Database>(
    alloc: Global,
    database: &D,
    path: &Path,
    depth: u32,
    text: &mut TextBuffer,
) -> Result<(), NoMemory>
    requires { IsDir (D.rows database.now).rows path.now }
    ensures { OnOk result (text.new
        ≡ text.old ++ dirs_text depth (D.rows database.now).rows path.now) }
{
    if depth == 0 {
        return Ok(());
    }
    let children = children_of(alloc, database, path)?;
    for child in children.as_slice() {
        if child.is_dir {
            let own = path_of_child(alloc, database, path, child)?;
            add_section(alloc, database, &own, text)?;
            add_dirs(alloc, database, &own, depth - 1, text)?;
        }
    }
    Ok(())
}
