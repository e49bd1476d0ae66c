ghost use Rattle.std.specs.Prelude.{◌≡◌, Bool, true, false, [], ℕ, None, nat_eq, OnOk, OnErr, IfOk, Some, ◌++◌, map, ◌<◌, ◌≤◌, ◌^◌};
ghost use Rattle.odb_tree.specs.Rows.{bytes_in};
ghost use Rattle.std.specs.Option.{unwrap_or, option_copied};
ghost use Rattle.std.specs.Cmp.Lexicographic.{pointwise};
ghost use Rattle.std.specs.Map.{lookup};
ghost use Rattle.indexmap.specs.IndexMap.{spare};
ghost use Rattle.odb_arena.specs.Names.{folded, names_in, child_in, with_child, without_name, last_child};
ghost use Rattle.odb_arena.specs.Arena.{node_at, row_of, names_at, names_entered, names_left, bytes_of_found, IsAltered};
ghost use Rattle.odb_tree.specs.declared.rows.Row.{Row};
ghost use Rattle.odb_arena.specs.declared.directory.Directory.{Directory};
ghost use Rattle.odb_tree.specs.Changes.{RowCanPut, RowCanResize};
ghost use Rattle.odb_value.specs.Values.{items_limit};
ghost use Rattle.odb_value.specs.ValueChanges.{put_in, resized};

use crate::directory::Directory;
use daq_types::{Name, NoMemory};
use indexmap::IndexMap;
use odb_tree::{Child, Children, Row, bytes_of, copy_row, put_row, replace_row, resize_row};
use odb_value::{Item, Value};
use std::alloc::Global;

/// A row, and what stands below it where it is a directory.
#[derive(Drop)]
pub struct Node {
    pub row: Row,
    pub below: Directory,
}

impl Node {
    /// Adds a child, under a name that is free among those of its kind.
    fn enter(&mut self, child: Child) -> Result<(), NoMemory>
        requires { (keys : Bool) → lookup (pointwise nat_eq (folded child.name))
            (names_in keys self.old.below) ≡ None }
        ensures row { self.new.row ≡ self.old.row }
        ensures ok { OnOk result ((keys : Bool) → names_in keys self.new.below
            ≡ with_child keys child (names_in keys self.old.below)) }
        ensures err { OnErr result ((keys : Bool) → names_in keys self.new.below
            ≡ names_in keys self.old.below) }
    {
        self.below.enter(child)
    }

    /// Takes a name out.
    fn leave(&mut self, name: &Name, is_dir: bool)
        ensures row { self.new.row ≡ self.old.row }
        ensures names { (keys : Bool) → names_in keys self.new.below
            ≡ without_name keys is_dir (folded name.now) (names_in keys self.old.below) }
    {
        self.below.leave(name, is_dir);
    }

    /// The same node once more.
    fn copy(&self, alloc: Global) -> Result<Node, NoMemory>
        ensures row { IfOk result (λ copy. copy.row ≡ self.now.row) }
        ensures names { IfOk result (λ copy. (keys : Bool) → names_in keys copy.below
            ≡ names_in keys self.now.below) }
    {
        Ok(Node {
            row: copy_row(&self.row, alloc)?,
            below: self.below.copy(alloc)?,
        })
    }
}

/// The bytes of a value, and 0 without one.
pub fn bytes_in(value: &Option<Value>) -> u64
    ensures bytes { result ≡ bytes_in value.now }
    ensures small { result < 2 ^ 48 }
{
    match value {
        Some(value) => bytes_of(value),
        None => 0,
    }
}

/// The node with this number. A node's place is one below its number until a row is removed, so it is looked for there
/// first.
pub fn node_with(nodes: &IndexMap<u32, Node>, number: u32) -> Option<&Node>
    ensures value { option_copied result ≡ node_at nodes.now.entries number }
{
    if let Some((found, node)) = nodes.get_index((number as usize).wrapping_sub(1)) {
        if *found == number {
            return Some(node);
        }
    }
    nodes.get(&number)
}

/// What stands under a name in the directory with this number, of which the root has 0.
pub fn child_at<'a>(
    root: &'a Directory,
    nodes: &'a IndexMap<u32, Node>,
    at: u32,
    name: &Name,
) -> Option<&'a Child>
    ensures { option_copied result ≡ child_in (folded name.now)
        (unwrap_or (names_at root.now nodes.now.entries true at) [])
        (unwrap_or (names_at root.now nodes.now.entries false at) []) }
{
    if at == 0 {
        return root.child(name);
    }
    match node_with(nodes, at) {
        Some(node) => node.below.child(name),
        None => None,
    }
}

/// Adds a child in the directory with this number, under a name that is free there.
pub fn enter_at(
    root: &mut Directory,
    nodes: &mut IndexMap<u32, Node>,
    at: u32,
    child: Child,
) -> Result<(), NoMemory>
    requires { (keys : Bool) → lookup (pointwise nat_eq (folded child.name))
        (unwrap_or (names_at root.old nodes.old.entries keys at) []) ≡ None }
    ensures rows { (number : ℕ) → row_of nodes.new.entries number
        ≡ row_of nodes.old.entries number }
    ensures room { spare nodes.new ≡ spare nodes.old }
    ensures ok { OnOk result ((keys : Bool) (number : ℕ)
        → names_at root.new nodes.new.entries keys number
        ≡ names_entered keys at child number (names_at root.old nodes.old.entries keys number)) }
    ensures err { OnErr result ((keys : Bool) (number : ℕ)
        → names_at root.new nodes.new.entries keys number
        ≡ names_at root.old nodes.old.entries keys number) }
{
    if at == 0 {
        return root.enter(child);
    }
    match nodes.get_mut(&at) {
        Some(node) => node.enter(child),
        None => Ok(()),
    }
}

/// Takes a name out of the directory with this number.
pub fn leave_at(
    root: &mut Directory,
    nodes: &mut IndexMap<u32, Node>,
    at: u32,
    name: &Name,
    is_dir: bool,
)
    ensures rows { (number : ℕ) → row_of nodes.new.entries number
        ≡ row_of nodes.old.entries number }
    ensures names { (keys : Bool) (number : ℕ) → names_at root.new nodes.new.entries keys number
        ≡ names_left keys at is_dir (folded name.now) number
        (names_at root.old nodes.old.entries keys number) }
{
    if at == 0 {
        root.leave(name, is_dir);
        return;
    }
    if let Some(node) = nodes.get_mut(&at) {
        node.leave(name, is_dir);
    }
}

/// The bytes of the value of the row with this number, and 0 without one.
pub fn bytes_at(nodes: &IndexMap<u32, Node>, number: u32) -> u64
    ensures bytes { result ≡ bytes_of_found (row_of nodes.now.entries number) }
    ensures small { result < 2 ^ 48 }
{
    match node_with(nodes, number) {
        Some(node) => bytes_in(&node.row.value),
        None => 0,
    }
}

/// Puts an item into the value of the row with this number.
pub fn put_in(nodes: &mut IndexMap<u32, Node>, number: u32, index: u32, item: Item)
    requires { (row : Row) → row_of nodes.old.entries number ≡ Some row → RowCanPut row index item }
    ensures { IsAltered (λ v. put_in v index item) number nodes.old.entries nodes.new.entries }
{
    if let Some(node) = nodes.get_mut(&number) {
        put_row(&mut node.row, index, item);
    }
}

/// Replaces the value of the row with this number.
pub fn replace_in(nodes: &mut IndexMap<u32, Node>, number: u32, value: Value)
    ensures { IsAltered (λ _. value) number nodes.old.entries nodes.new.entries }
{
    if let Some(node) = nodes.get_mut(&number) {
        replace_row(&mut node.row, value);
    }
}

/// Gives the value of the row with this number so many items.
pub fn resize_in(
    nodes: &mut IndexMap<u32, Node>,
    alloc: Global,
    number: u32,
    len: u32,
) -> Result<(), NoMemory>
    requires kept { (row : Row) → row_of nodes.old.entries number ≡ Some row → RowCanResize row }
    requires some { 1 ≤ len }
    requires many { len ≤ items_limit }
    ensures ok { OnOk result (IsAltered (λ v. resized v len) number nodes.old.entries
        nodes.new.entries) }
    ensures err { OnErr result (IsAltered (λ v. v) number nodes.old.entries nodes.new.entries) }
{
    match nodes.get_mut(&number) {
        Some(node) => resize_row(&mut node.row, alloc, len),
        None => Ok(()),
    }
}

/// The child made last in the directory with this number, of its directories or else of its keys.
pub fn last_child_at(root: &Directory, nodes: &IndexMap<u32, Node>, at: u32) -> Option<Child>
    ensures { result ≡ last_child (unwrap_or (names_at root.now nodes.now.entries true at) [])
        (unwrap_or (names_at root.now nodes.now.entries false at) []) }
{
    if at == 0 {
        return root.last_child();
    }
    match nodes.get(&at) {
        Some(node) => node.below.last_child(),
        None => None,
    }
}

/// The same nodes once more.
pub fn copy_nodes(
    alloc: Global,
    nodes: &IndexMap<u32, Node>,
) -> Result<IndexMap<u32, Node>, NoMemory>
    ensures rows { IfOk result (λ copy. (number : ℕ) → row_of copy.entries number
        ≡ row_of nodes.now.entries number) }
    ensures names { IfOk result (λ copy. (root : Directory) (keys : Bool) (number : ℕ)
        → names_at root copy.entries keys number ≡ names_at root nodes.now.entries keys number) }
{
    let mut copy = IndexMap::new(alloc);
    for i in 0..nodes.len() {
        let (number, node) = nodes.get_index(i).unwrap();
        copy.insert(*number, node.copy(alloc)?)?;
    }
    Ok(copy)
}

/// What stands in the directory with this number.
pub fn children_at(
    alloc: Global,
    root: &Directory,
    nodes: &IndexMap<u32, Node>,
    at: u32,
) -> Result<Children, NoMemory>
    ensures { IfOk result (λ children. children ≡ map (λ e. e.1)
        (unwrap_or (names_at root.now nodes.now.entries true at) []) ++ map (λ e. e.1)
        (unwrap_or (names_at root.now nodes.now.entries false at) [])) }
{
    if at == 0 {
        return root.children(alloc);
    }
    match nodes.get(&at) {
        Some(node) => node.below.children(alloc),
        None => Ok(Children::of(Vec::new(alloc))),
    }
}
