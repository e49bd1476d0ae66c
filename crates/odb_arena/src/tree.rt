ghost use Rattle.std.specs.Prelude.{◌≡◌, ◌≢◌, ◌<◌, ◌≤◌, ◌+◌, ◌-◌, ◌^◌, Option, ◌∷◌, ◌++◌, [], List, ℕ, length, false, Some, None, Ok, Err, IfOk, IfErr, IfSome, OnOk, OnErr};
ghost use Rattle.std.specs.Option.{option_map, option_or, option_copied};
ghost use Rattle.odb_value.specs.Paths.{depth_limit};
ghost use Rattle.odb_tree.specs.declared.rows.Row.{Row};
ghost use Rattle.odb_tree.specs.Rows.{no_rows, row_at, row_numbered, bytes_in, total_of};
ghost use Rattle.odb_tree.specs.Lookups.{parent_of, obstacle_to_new, dir_fault, seek, seek_key};
ghost use Rattle.odb_tree.specs.Making.{missing_from, new_number, created};
ghost use Rattle.odb_tree.specs.declared.entry.DatabaseEntry.TheVariants.{Create, Set, SetAll, Get, Find, ListDir, Resize};
ghost use Rattle.odb_tree.specs.Calls.{IsReplyThere, rows_there, path_with, child_of, after_delete, after_resize, exists_fault, create_fault, set_fault, tid_fault, set_all_fault};
ghost use Rattle.odb_tree.specs.Changes.{IsKeyAt};
ghost use Rattle.odb_tree.specs.Limits.{passed, len_fault, limit_fault};
ghost use Rattle.odb_tree.specs.declared.refusals.OdbRefusal.TheVariants.{Limit, NoMemory as no_memory};
ghost use Rattle.daq_types.specs.declared.types.Tid.{Tid};
ghost use Rattle.odb_value.specs.Items.{tid_of};
ghost use Rattle.odb_value.specs.Values.{HeldValue};
ghost use Rattle.odb_tree.specs.Trees.{with_rows};
ghost use Rattle.odb_arena.specs.Reaching.{IsReached};
ghost use Rattle.odb_arena.specs.Leaves.{HasPath, StandsIn, IsLeafBelow};
ghost use Rattle.odb_arena.specs.Growth.{dir_path, row_in_dir, chain, without_last, CanAdd, CanGrow, CanMake, IsLeaf, IsLastRow};
ghost use Rattle.odb_tree.specs.Databases.{IsDatabase};

use crate::directory::Directory;
use crate::node::{
    Node, bytes_at, bytes_in, child_at, children_at, copy_nodes, enter_at, last_child_at, leave_at,
    node_with, put_in, replace_in, resize_in,
};
use crate::reaching::{Reached, is_spelled};
use daq_types::{Name, NoMemory};
use indexmap::IndexMap;
use odb_tree::{
    Child, Children, Database, Key, NewKey, OdbRefusal, Row, What, bytes_of, bytes_of_new,
    bytes_with, index_fault, items_fault, kept_fault, len_fault, limit_fault, new_value, parent,
    raised_size, replace_fault, text_fault, tid_fault, type_fault,
};
use odb_value::{Item, MAX_DEPTH, Path, Value, is_front};
use std::alloc::Global;
use std::cell::Cell;
use std::marker::Model;

/// A database in an arena.
#[derive(Drop)]
pub struct ArenaTree {
    root: Directory,
    nodes: IndexMap<u32, Node>,
    next: u64,
    count: usize,
    bytes: u64,
    /// The number of the row that was found last, which the next call is mostly about too: a key is got before it is set.
    found: Cell<u32>,
}

impl Model for ArenaTree {
    ghost use Rattle.odb_tree.specs.Rows.{Rows};

    ghost Value = { Rows };

    ghost use Rattle.odb_arena.specs.Inside.{rows_of, IsWholeArena};

    ghost view = { rows_of };

    ghost invariant = { IsWholeArena };
}

impl ArenaTree {
    /// A database without rows. Takes no memory.
    pub fn new(alloc: Global) -> ArenaTree
        ensures { result ≡ no_rows }
    {
        ArenaTree {
            root: Directory::new(alloc),
            nodes: IndexMap::new(alloc),
            next: 1,
            count: 0,
            bytes: 0,
            found: Cell::new(0),
        }
    }

    /// What stands under a name in the directory with this number.
    fn child(&self, at: u32, name: &Name) -> Option<&Child>
        ensures { (p : List (List ℕ)) → path_with self.now.rows at ≡ Some p → option_copied result
            ≡ option_map child_of (row_at self.now.rows (p ++ name.now ∷ [])) }
    {
        let _ = name.as_slice();
        child_at(&self.root, &self.nodes, at, name)
    }

    /// The row of what stands under a name in the directory with this number.
    fn row_under(&self, at: u32, name: &Name) -> Option<&Row>
        ensures { (p : List (List ℕ)) → path_with self.now.rows at ≡ Some p → option_copied result
            ≡ row_at self.now.rows (p ++ name.now ∷ []) }
    {
        let Some(child) = self.child(at, name) else {
            return None;
        };
        match node_with(&self.nodes, child.row) {
            Some(node) => Some(&node.row),
            None => None,
        }
    }

    /// How far directories lead along some names.
    fn reach(&self, names: &[Name]) -> Reached
        ensures { IsReached self.now.rows names.now result }
    {
        let _ = &self.root;
        let mut at = 0;
        for depth in 0..names.len() {
            let Some(child) = self.child(at, &names[depth]) else {
                return Reached {
                    at,
                    depth,
                    blocked: false,
                };
            };
            if !child.is_dir {
                return Reached {
                    at,
                    depth,
                    blocked: true,
                };
            }
            at = child.row;
        }
        Reached {
            at,
            depth: names.len(),
            blocked: false,
        }
    }

    /// How far directories lead to the directory in which a path stands.
    fn reach_parent(&self, names: &[Name]) -> Reached
        ensures { IsReached self.now.rows (parent_of names.now) result }
    {
        let _ = &self.root;
        self.reach(parent(names))
    }

    /// The row at the path of these names.
    fn row_at(&self, names: &[Name], reached: Reached) -> Option<&Row>
        requires some { 0 < length names.now }
        requires reached { IsReached self.now.rows (parent_of names.now) reached }
        ensures { option_copied result ≡ row_at self.now.rows names.now }
    {
        let _ = &self.root;
        let front = parent(names);
        if reached.depth < front.len() {
            return None;
        }
        self.row_under(reached.at, &names[names.len() - 1])
    }

    /// The row that was found last, where these names are its path as it is spelled.
    fn found_again(&self, names: &[Name]) -> Option<&Row>
        ensures { IfSome result (λ row. seek self.now.rows names.now ≡ Ok row.now) }
    {
        let _ = &self.root;
        let Some(node) = node_with(&self.nodes, self.found.get()) else {
            return None;
        };
        if is_spelled(node.row.path.names(), names) {
            Some(&node.row)
        } else {
            None
        }
    }

    /// The row at a path that is not the root's, or why it is not reached, from the root down.
    fn seek_down(&self, names: &[Name]) -> Result<&Row, OdbRefusal>
        requires { 0 < length names.now }
        ensures found { IfOk result (λ row. seek self.now.rows names.now ≡ Ok row.now) }
        ensures refused { IfErr result (λ refusal. seek self.now.rows names.now ≡ Err refusal) }
    {
        let _ = &self.root;
        let front = parent(names);
        let reached = self.reach(front);
        if let Some(refusal) = reached.obstacle(front.len(), Some(OdbRefusal::NoKey)) {
            return Err(refusal);
        }
        match self.row_under(reached.at, &names[names.len() - 1]) {
            Some(row) => {
                self.found.set(row.number);
                Ok(row)
            }
            None => Err(OdbRefusal::NoKey),
        }
    }

    /// The row at a path that is not the root's, or why it is not reached.
    fn seek(&self, names: &[Name]) -> Result<&Row, OdbRefusal>
        requires { 0 < length names.now }
        ensures found { IfOk result (λ row. seek self.now.rows names.now ≡ Ok row.now) }
        ensures refused { IfErr result (λ refusal. seek self.now.rows names.now ≡ Err refusal) }
    {
        match self.found_again(names) {
            Some(row) => Ok(row),
            None => self.seek_down(names),
        }
    }

    /// The key at a path, or why there is none.
    fn seek_key(&self, names: &[Name]) -> Result<Key<'_>, OdbRefusal>
        ensures found { IfOk result (λ key. seek_key self.now.rows names.now
            ≡ Ok (key.number, key.value.now)) }
        ensures refused { IfErr result (λ refusal. seek_key self.now.rows names.now ≡ Err refusal) }
    {
        if names.is_empty() {
            return Err(OdbRefusal::NotValue);
        }
        let row = self.seek(names)?;
        match &row.value {
            Some(value) => Ok(Key {
                number: row.number,
                value,
            }),
            None => Err(OdbRefusal::NotValue),
        }
    }

    /// Whether a directory stands at a path, or why it is not reached.
    fn check_dir(&self, names: &[Name]) -> Result<(), OdbRefusal>
        ensures dir { OnOk result (dir_fault self.now.rows names.now ≡ None) }
        ensures refused { IfErr result (λ refusal. dir_fault self.now.rows names.now
            ≡ Some refusal) }
    {
        if names.is_empty() {
            return Ok(());
        }
        match &self.seek(names)?.value {
            Some(_) => Err(OdbRefusal::NotDir),
            None => Ok(()),
        }
    }

    /// The names of the row with this number, and none for the root.
    fn path_with(&self, number: u32) -> Option<&[Name]>
        ensures names { option_copied result ≡ path_with self.now.rows number }
        ensures depth { IfSome result (λ names. length names.now ≤ depth_limit) }
    {
        let _ = &self.root;
        if number == 0 {
            return Some(&[]);
        }
        match node_with(&self.nodes, number) {
            Some(node) => Some(node.row.path.names()),
            None => None,
        }
    }

    /// The path of a name in the directory with this number.
    fn path_below(&self, alloc: Global, at: u32, name: Name) -> Result<Path, NoMemory>
        requires { length (dir_path self.now at) < depth_limit }
        ensures { IfOk result (λ path. path ≡ dir_path self.now at ++ name ∷ []) }
    {
        let mut path = match self.path_with(at) {
            Some(names) => Path::of(alloc, names)?,
            None => Path::root(alloc),
        };
        path.push(name)?;
        Ok(path)
    }

    /// Makes a row in the directory with this number, under a name that is free there.
    fn add(
        &mut self,
        alloc: Global,
        at: u32,
        name: Name,
        value: Option<Value>,
    ) -> Result<u32, NoMemory>
        requires { CanAdd self.old at name value }
        ensures number { IfOk result (λ number. number ≡ self.old.next) }
        ensures ok { OnOk result (self.new ≡ with_rows self.old
            (row_in_dir self.old at name value ∷ [])) }
        ensures err { OnErr result (self.new ≡ self.old) }
    {
        let path = self.path_below(alloc, at, name)?;
        let number = self.next as u32;
        let is_dir = value.is_none();
        let bytes = bytes_in(&value);
        let child = Child {
            name,
            is_dir,
            row: number,
        };
        self.nodes.reserve(1)?;
        enter_at(&mut self.root, &mut self.nodes, at, child)?;
        let row = Row {
            number,
            path,
            value,
        };
        let below = Directory::new(alloc);
        let _ = self.nodes.insert(number, Node { row, below }).unwrap();
        self.next += 1;
        self.count += 1;
        self.bytes += bytes;
        Ok(number)
    }

    /// Removes a row that has nothing below it.
    fn remove_leaf(&mut self, number: u32)
        requires { IsLeaf self.old number }
        ensures { (row : Row) → row_numbered self.old.rows number ≡ Some row → self.new
            ≡ after_delete self.old row.path }
    {
        let Some(names) = self.path_with(number) else {
            return;
        };
        let at = self.reach(parent(names)).at;
        let name = names[names.len() - 1];
        let Some(node) = self.nodes.swap_remove(&number) else {
            return;
        };
        leave_at(
            &mut self.root,
            &mut self.nodes,
            at,
            &name,
            node.row.value.is_none(),
        );
        self.count -= 1;
        self.bytes -= bytes_in(&node.row.value);
    }

    /// How many rows there are.
    fn len(&self) -> usize
        ensures { result ≡ length self.now.rows }
    {
        self.count
    }

    /// The child made last in the directory with this number, of its directories or else of its keys.
    fn last_child(&self, at: u32) -> Option<Child>
        ensures { (p : List (List ℕ)) → path_with self.now.rows at ≡ Some p → StandsIn self.now p
            result }
    {
        last_child_at(&self.root, &self.nodes, at)
    }

    /// The number of a row with nothing below it: of the one with this number, or of one below it. 0 for the root where
    /// there are no rows.
    fn leaf_below(&self, number: u32) -> u32
        ensures { (p : List (List ℕ)) → path_with self.now.rows number ≡ Some p
            → IsLeafBelow self.now p result }
    {
        let _ = &self.root;
        let mut at = number;
        for _depth in 0..MAX_DEPTH {
            let Some(child) = self.last_child(at) else {
                return at;
            };
            at = child.row;
        }
        at
    }

    /// Removes the row with this number and all below it. For the root all rows go.
    fn remove_below(&mut self, number: u32)
        requires { HasPath self.old number }
        ensures { (p : List (List ℕ)) → path_with self.old.rows number ≡ Some p → self.new
            ≡ after_delete self.old p }
    {
        for _gone in 0..self.len() {
            let leaf = self.leaf_below(number);
            if leaf == 0 {
                return;
            }
            self.remove_leaf(leaf);
            if leaf == number {
                return;
            }
        }
    }

    /// Takes back the number given last, which no row has.
    fn forget_number(&mut self)
        requires some { 1 ≤ self.old.next }
        requires database { IsDatabase (record self.old { next = self.old.next - 1 }) }
        ensures { self.new ≡ record self.old { next = self.old.next - 1 } }
    {
        self.next -= 1;
    }

    /// Takes back the row made last.
    fn unmake(&mut self, number: u32)
        requires { IsLastRow self.old number }
        ensures { self.new ≡ without_last self.old }
    {
        let _ = &self.root;
        self.remove_leaf(number);
        self.forget_number();
    }

    /// Makes directories one in the other in the directory with this number, and a row in the last of them.
    fn make_from(
        &mut self,
        alloc: Global,
        at: u32,
        names: &[Name],
        value: Option<Value>,
    ) -> Result<u32, NoMemory>
        requires { CanGrow self.old at names.now value }
        ensures number { IfOk result (λ number. number + 1 ≡ self.old.next + length names.now) }
        ensures ok { OnOk result (self.new ≡ with_rows self.old
            (chain self.old.next (dir_path self.old at) names.now value)) }
        ensures err { OnErr result (self.new ≡ self.old) }
    {
        let _ = &self.root;
        if names.len() == 1 {
            return self.add(alloc, at, names[0], value);
        }
        let made = self.add(alloc, at, names[0], None)?;
        match self.make_from(alloc, made, &names[1..], value) {
            Ok(number) => Ok(number),
            Err(e) => {
                self.unmake(made);
                Err(e)
            }
        }
    }

    /// Makes a row, and the missing directories of its path.
    fn make(
        &mut self,
        alloc: Global,
        names: &[Name],
        reached: Reached,
        value: Option<Value>,
    ) -> Result<u32, NoMemory>
        requires can { CanMake self.old names.now value }
        requires reached { IsReached self.old.rows (parent_of names.now) reached }
        ensures number { IfOk result (λ number. number ≡ new_number self.old names.now) }
        ensures ok { OnOk result (self.new ≡ created self.old names.now value) }
        ensures err { OnErr result (self.new ≡ self.old) }
    {
        let _ = &self.root;
        self.make_from(alloc, reached.at, &names[reached.depth..], value)
    }

    /// Whether something is there already.
    fn exists_fault(&self, names: &[Name], reached: Reached) -> Option<OdbRefusal>
        requires { IsReached self.now.rows (parent_of names.now) reached }
        ensures { result ≡ exists_fault self.now.rows names.now }
    {
        if names.is_empty() || self.row_at(names, reached).is_some() {
            return Some(OdbRefusal::Exists);
        }
        None
    }

    /// The first obstacle on the way to a new row.
    fn obstacle(&self, names: &[Name], reached: Reached) -> Option<OdbRefusal>
        requires { IsReached self.now.rows (parent_of names.now) reached }
        ensures { result ≡ obstacle_to_new self.now.rows names.now }
    {
        let _ = &self.root;
        reached.obstacle(parent(names).len(), None)
    }

    /// How many directories are missing on the way to a new row, where no key is an obstacle.
    fn count_missing(&self, names: &[Name], reached: Reached) -> usize
        requires clear { obstacle_to_new self.now.rows names.now ≡ None }
        requires reached { IsReached self.now.rows (parent_of names.now) reached }
        ensures count { result ≡ missing_from self.now.rows [] (parent_of names.now) }
        ensures most { result ≤ length names.now }
    {
        let _ = &self.root;
        parent(names).len() - reached.depth
    }

    /// The limit that a new row of so many bytes would pass.
    fn new_fault(
        &self,
        names: &[Name],
        reached: Reached,
        own: Option<What>,
        bytes: u64,
    ) -> Option<OdbRefusal>
        requires clear { obstacle_to_new self.now.rows names.now ≡ None }
        requires reached { IsReached self.now.rows (parent_of names.now) reached }
        requires depth { length names.now ≤ depth_limit }
        requires small { bytes < 2 ^ 62 }
        ensures { (value : Option HeldValue) → (own ≡ None → bytes_in value ≡ bytes) → result
            ≡ limit_fault own (created self.now names.now value) }
    {
        let missing = self.count_missing(names, reached);
        limit_fault(
            own,
            self.count + missing + 1,
            self.bytes + bytes,
            self.next + missing as u64 + 1,
        )
    }

    /// The limit that a value of so many bytes in place of one of so many would pass.
    fn change_fault(&self, own: Option<What>, had: u64, bytes: u64) -> Option<OdbRefusal>
        requires had { had ≤ total_of self.now.rows }
        requires small { bytes < 2 ^ 62 }
        ensures { result ≡ option_map Limit (passed own (length self.now.rows)
            (total_of self.now.rows - had + bytes) self.now.next) }
    {
        limit_fault(own, self.count, self.bytes - had + bytes, self.next)
    }

    /// Why a row is not made.
    fn create_fault(&self, names: &[Name], reached: Reached, kind: &NewKey) -> Option<OdbRefusal>
        requires depth { length names.now ≤ depth_limit }
        requires reached { IsReached self.now.rows (parent_of names.now) reached }
        ensures { result ≡ create_fault self.now names.now kind.now }
    {
        let _ = &self.root;
        if let Some(refusal) = self.obstacle(names, reached) {
            return Some(refusal);
        }
        if let Some(refusal) = self.exists_fault(names, reached) {
            return Some(refusal);
        }
        if let Some(refusal) = kept_fault(kind) {
            return Some(refusal);
        }
        self.new_fault(names, reached, items_fault(kind), bytes_of_new(kind))
    }

    /// Why an item is not put into this value, which stands at the path.
    fn set_fault(
        &self,
        names: &[Name],
        value: &Value,
        index: u32,
        item: &Item,
    ) -> Option<OdbRefusal>
        requires { IsKeyAt self.now.rows names.now value.now }
        ensures { result ≡ set_fault self.now names.now index item.now value.now }
    {
        if let Some(refusal) = type_fault(value.tid(), item.tid()) {
            return Some(refusal);
        }
        let len = value.items().len();
        if let Some(refusal) = index_fault(len, index) {
            return Some(refusal);
        }
        let bytes = bytes_with(len as u32, raised_size(value.size(), item));
        self.change_fault(text_fault(item), bytes_of(value), bytes)
    }

    /// Why a key is not made with this value.
    fn made_fault(&self, names: &[Name], reached: Reached, value: &Value) -> Option<OdbRefusal>
        requires clear { obstacle_to_new self.now.rows names.now ≡ None }
        requires reached { IsReached self.now.rows (parent_of names.now) reached }
        requires depth { length names.now ≤ depth_limit }
        ensures { result ≡ option_or (tid_fault value.now.tid)
            (limit_fault None (created self.now names.now (Some value.now))) }
    {
        if let Some(refusal) = tid_fault(value.tid()) {
            return Some(refusal);
        }
        self.new_fault(names, reached, None, bytes_of(value))
    }

    /// Why a value is not written.
    fn set_all_fault(&self, names: &[Name], reached: Reached, value: &Value) -> Option<OdbRefusal>
        requires depth { length names.now ≤ depth_limit }
        requires reached { IsReached self.now.rows (parent_of names.now) reached }
        ensures { result ≡ set_all_fault self.now names.now value.now }
    {
        if let Some(refusal) = self.obstacle(names, reached) {
            return Some(refusal);
        }
        if names.is_empty() {
            return Some(OdbRefusal::NotValue);
        }
        let given = value.tid();
        let Some(row) = self.row_at(names, reached) else {
            return self.made_fault(names, reached, value);
        };
        let Some(had) = &row.value else {
            return Some(OdbRefusal::NotValue);
        };
        if let Some(refusal) = replace_fault(had.tid(), given) {
            return Some(refusal);
        }
        self.change_fault(None, bytes_of(had), bytes_of(value))
    }

    /// Why this value, which stands at the path, does not get so many items.
    fn resize_fault(&self, names: &[Name], value: &Value, len: u32) -> Option<OdbRefusal>
        requires { IsKeyAt self.now.rows names.now value.now }
        ensures { result ≡ limit_fault (len_fault len) (after_resize self.now names.now len) }
    {
        let bytes = bytes_with(len, value.size());
        self.change_fault(len_fault(len), bytes_of(value), bytes)
    }

    /// Makes a key or a directory at the path as it is.
    fn create_there(&mut self, alloc: Global, path: &Path, kind: &NewKey) -> Result<u32, OdbRefusal>
        ensures reply { IsReplyThere self.old (Create path.now kind.now result) }
        ensures after { self.new ≡ rows_there self.old (Create path.now kind.now result) }
    {
        let _ = &self.root;
        let names = path.names();
        let reached = self.reach_parent(names);
        if let Some(refusal) = self.create_fault(names, reached, kind) {
            return Err(refusal);
        }
        let value = new_value(alloc, kind)?;
        let number = self.make(alloc, names, reached, value)?;
        Ok(number)
    }

    /// Writes one item of the key at the path as it is.
    fn set_there(
        &mut self,
        alloc: Global,
        path: &Path,
        index: u32,
        item: &Item,
    ) -> Result<u32, OdbRefusal>
        ensures reply { IsReplyThere self.old (Set path.now index item.now result) }
        ensures memory { result ≡ Err no_memory → tid_of item.now ≡ Tid.Text }
        ensures after { self.new ≡ rows_there self.old (Set path.now index item.now result) }
    {
        let _ = &self.root;
        let names = path.names();
        let key = self.seek_key(names)?;
        let number = key.number;
        if let Some(refusal) = self.set_fault(names, key.value, index, item) {
            return Err(refusal);
        }
        let had = bytes_of(key.value);
        let _ = item.tid();
        let item = item.try_clone(alloc)?;
        put_in(&mut self.nodes, number, index, item);
        self.bytes = self.bytes - had + bytes_at(&self.nodes, number);
        Ok(number)
    }

    /// Replaces the value of the key at the path as it is, or makes the key with it.
    fn set_all_there(
        &mut self,
        alloc: Global,
        path: &Path,
        value: &Value,
    ) -> Result<u32, OdbRefusal>
        ensures reply { IsReplyThere self.old (SetAll path.now value.now result) }
        ensures after { self.new ≡ rows_there self.old (SetAll path.now value.now result) }
    {
        let _ = &self.root;
        let names = path.names();
        let reached = self.reach_parent(names);
        if let Some(refusal) = self.set_all_fault(names, reached, value) {
            return Err(refusal);
        }
        let _ = value.tid();
        let value = value.try_clone(alloc)?;
        match self.row_at(names, reached) {
            Some(row) => {
                let number = row.number;
                let had = bytes_in(&row.value);
                replace_in(&mut self.nodes, number, value);
                self.bytes = self.bytes - had + bytes_at(&self.nodes, number);
                Ok(number)
            }
            None => {
                let number = self.make(alloc, names, reached, Some(value))?;
                Ok(number)
            }
        }
    }

    /// The value of the key at the path as it is.
    fn get_there(&self, alloc: Global, path: &Path) -> Result<Value, OdbRefusal>
        ensures { IsReplyThere self.now (Get path.now result) }
    {
        let key = self.seek_key(path.names())?;
        let value = key.value.try_clone(alloc)?;
        Ok(value)
    }

    /// The number of the row at the path as it is. Takes no memory.
    fn find_there(&self, path: &Path) -> Result<u32, OdbRefusal>
        ensures reply { IsReplyThere self.now (Find path.now result) }
        ensures memory { result ≢ Err no_memory }
        ensures database { IsDatabase self.now }
    {
        let _ = &self.root;
        let names = path.names();
        if names.is_empty() {
            return Ok(0);
        }
        let row = self.seek(names)?;
        Ok(row.number)
    }

    /// What stands in the directory at the path as it is.
    fn list_there(&self, alloc: Global, path: &Path) -> Result<Children, OdbRefusal>
        ensures reply { IsReplyThere self.now (ListDir path.now result) }
        ensures database { IsDatabase self.now }
    {
        let _ = &self.root;
        let names = path.names();
        self.check_dir(names)?;
        let at = self.reach(names).at;
        let children = children_at(alloc, &self.root, &self.nodes, at)?;
        Ok(children)
    }

    /// Gives the key at the path as it is so many items.
    fn resize_there(&mut self, alloc: Global, path: &Path, len: u32) -> Result<u32, OdbRefusal>
        ensures reply { IsReplyThere self.old (Resize path.now len result) }
        ensures after { self.new ≡ rows_there self.old (Resize path.now len result) }
    {
        let _ = &self.root;
        let names = path.names();
        let key = self.seek_key(names)?;
        let number = key.number;
        if let Some(refusal) = self.resize_fault(names, key.value, len) {
            return Err(refusal);
        }
        let had = bytes_of(key.value);
        resize_in(&mut self.nodes, alloc, number, len)?;
        self.bytes = self.bytes - had + bytes_at(&self.nodes, number);
        Ok(number)
    }
}

impl Database for ArenaTree {
    ghost rows = { λ s. s };

    ghost watches = { λ _. [] };

    fn create(&mut self, alloc: Global, path: &Path, kind: &NewKey) -> Result<u32, OdbRefusal> {
        let _ = &self.root;
        self.create_there(alloc, path, kind)
    }

    fn set(
        &mut self,
        alloc: Global,
        path: &Path,
        index: u32,
        item: &Item,
    ) -> Result<u32, OdbRefusal> {
        let _ = &self.root;
        self.set_there(alloc, path, index, item)
    }

    fn set_all(&mut self, alloc: Global, path: &Path, value: &Value) -> Result<u32, OdbRefusal> {
        let _ = &self.root;
        self.set_all_there(alloc, path, value)
    }

    fn put(&mut self, alloc: Global, path: &Path, value: &Value) -> Result<u32, OdbRefusal> {
        let _ = &self.root;
        self.set_all_there(alloc, path, value)
    }

    fn get(&self, alloc: Global, path: &Path) -> Result<Value, OdbRefusal> {
        let _ = &self.root;
        self.get_there(alloc, path)
    }

    fn raw(&self, alloc: Global, path: &Path) -> Result<Value, OdbRefusal> {
        self.get_there(alloc, path)
    }

    fn find(&self, _alloc: Global, path: &Path) -> Result<u32, OdbRefusal> {
        let _ = &self.root;
        self.find_there(path)
    }

    fn list(&self, alloc: Global, path: &Path) -> Result<Children, OdbRefusal> {
        let _ = &self.root;
        self.list_there(alloc, path)
    }

    fn delete(&mut self, path: &Path) -> Result<u32, OdbRefusal> {
        let number = self.find_there(path)?;
        let before = self.len();
        self.remove_below(number);
        Ok((before - self.len()) as u32)
    }

    fn resize(&mut self, alloc: Global, path: &Path, len: u32) -> Result<u32, OdbRefusal> {
        let _ = &self.root;
        self.resize_there(alloc, path, len)
    }

    fn keeps_links(&self) -> bool
        ensures rows { result ≡ self.now.links }
        ensures never { result ≡ false }
    {
        let _ = &self.root;
        false
    }

    fn walk(&self, path: &Path, numbers: &mut [u32; 32]) -> u32 {
        let _ = &self.root;
        let names = path.names();
        let mut at = 0;
        for depth in 0..names.len() {
            let Some(child) = self.child(at, &names[depth]) else {
                return depth as u32;
            };
            numbers[depth] = child.row;
            at = child.row;
        }
        names.len() as u32
    }

    fn path_of(&self, alloc: Global, row: u32) -> Result<Option<Path>, NoMemory> {
        match self.path_with(row) {
            Some(names) => {
                let path = Path::of(alloc, names)?;
                Ok(Some(path))
            }
            None => Ok(None),
        }
    }

    fn is_below(&self, row: u32, above: u32) -> bool {
        let Some(names) = self.path_with(row) else {
            return false;
        };
        match self.path_with(above) {
            Some(front) => is_front(front, names),
            None => false,
        }
    }

    fn copy(&self, alloc: Global) -> Result<ArenaTree, NoMemory> {
        Ok(ArenaTree {
            root: self.root.copy(alloc)?,
            nodes: copy_nodes(alloc, &self.nodes)?,
            next: self.next,
            count: self.count,
            bytes: self.bytes,
            found: Cell::new(0),
        })
    }
}
