ghost use Rattle.std.specs.Prelude.{◌≡◌, ◌-◌, ◌++◌, [], Bool, None, true, false, nat_eq, OnOk, OnErr, IfOk, map};
ghost use Rattle.std.specs.Cmp.Lexicographic.{pointwise};
ghost use Rattle.std.specs.Map.{lookup};
ghost use Rattle.std.specs.Option.{option_copied};
ghost use Rattle.odb_arena.specs.Names.{folded, names_in, child_in, with_child, without_name, last_named, last_child};

use crate::folded::Folded;
use daq_types::{Name, NoMemory};
use indexmap::IndexMap;
use odb_tree::{Child, Children};
use std::alloc::Global;

/// What stands in a directory, by name: its keys and its directories, each in order of making.
#[derive(Drop)]
pub struct Directory {
    pub keys: IndexMap<Folded, Child>,
    pub dirs: IndexMap<Folded, Child>,
}

impl Directory {
    /// An empty directory. Takes no memory.
    pub fn new(alloc: Global) -> Directory
        ensures { (keys : Bool) → names_in keys result ≡ [] }
    {
        Directory {
            keys: IndexMap::new(alloc),
            dirs: IndexMap::new(alloc),
        }
    }

    /// What stands under a name.
    pub fn child(&self, name: &Name) -> Option<&Child>
        ensures { option_copied result ≡ child_in (folded name.now) (names_in true self.now)
            (names_in false self.now) }
    {
        let key = Folded::of(name);
        if !self.dirs.is_empty() {
            if let Some(child) = self.dirs.get(&key) {
                return Some(child);
            }
        }
        self.keys.get(&key)
    }

    /// Adds a child under a name that is free among those of its kind, behind them.
    pub fn enter(&mut self, child: Child) -> Result<(), NoMemory>
        requires { (keys : Bool) → lookup (pointwise nat_eq (folded child.name))
            (names_in keys self.old) ≡ None }
        ensures ok { OnOk result ((keys : Bool) → names_in keys self.new
            ≡ with_child keys child (names_in keys self.old)) }
        ensures err { OnErr result ((keys : Bool) → names_in keys self.new
            ≡ names_in keys self.old) }
    {
        let key = Folded::of(&child.name);
        if child.is_dir {
            self.dirs.insert(key, child)?;
        } else {
            self.keys.insert(key, child)?;
        }
        Ok(())
    }

    /// Takes a name out of those of its kind.
    pub fn leave(&mut self, name: &Name, is_dir: bool)
        ensures { (keys : Bool) → names_in keys self.new
            ≡ without_name keys is_dir (folded name.now) (names_in keys self.old) }
    {
        let key = Folded::of(name);
        if is_dir {
            self.dirs.shift_remove(&key);
        } else {
            self.keys.shift_remove(&key);
        }
    }

    /// The child made last, of the directories or else of the keys.
    pub fn last_child(&self) -> Option<Child>
        ensures { result ≡ last_child (names_in true self.now) (names_in false self.now) }
    {
        last_of(&self.dirs).or(last_of(&self.keys))
    }

    /// The same directory once more.
    pub fn copy(&self, alloc: Global) -> Result<Directory, NoMemory>
        ensures { IfOk result (λ copy. (keys : Bool) → names_in keys copy
            ≡ names_in keys self.now) }
    {
        Ok(Directory {
            keys: copy_names(alloc, &self.keys)?,
            dirs: copy_names(alloc, &self.dirs)?,
        })
    }

    /// What stands in the directory: its keys, and then its directories.
    pub fn children(&self, alloc: Global) -> Result<Children, NoMemory>
        ensures { IfOk result (λ children. children
            ≡ map (λ e. e.1) (names_in true self.now) ++ map (λ e. e.1) (names_in false self.now)) }
    {
        let mut children = Vec::new(alloc);
        add_names(&mut children, &self.keys)?;
        add_names(&mut children, &self.dirs)?;
        Ok(Children::of(children))
    }
}

/// Adds the children under these names, in order.
fn add_names(children: &mut Vec<Child>, names: &IndexMap<Folded, Child>) -> Result<(), NoMemory>
    ensures { OnOk result (children.new.items ≡ children.old.items ++ map (λ e. e.1)
        names.now.entries) }
{
    for child in names.values() {
        children.push(*child)?;
    }
    Ok(())
}

/// The child that stands last among these names.
fn last_of(names: &IndexMap<Folded, Child>) -> Option<Child>
    ensures { result ≡ last_named names.now.entries }
{
    match names.last() {
        Some((_, child)) => Some(*child),
        None => None,
    }
}

/// The same names once more.
fn copy_names(
    alloc: Global,
    names: &IndexMap<Folded, Child>,
) -> Result<IndexMap<Folded, Child>, NoMemory>
    ensures { IfOk result (λ copy. copy.entries ≡ names.now.entries) }
{
    let mut copy = IndexMap::new(alloc);
    for i in 0..names.len() {
        let (name, child) = names.get_index(i).unwrap();
        copy.insert(*name, *child)?;
    }
    Ok(copy)
}
