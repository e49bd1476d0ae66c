ghost use Rattle.std.specs.Prelude.{◌≡◌, ◌≢◌, ◌≤◌, ◌<◌, ◌^◌, ◌+◌, ◌-◌, [], length, Some, None, Err, IfOk, OnOk, OnErr, Option, false};
ghost use Rattle.std.specs.Option.{option_map, option_or};
ghost use Rattle.odb_value.specs.Paths.{depth_limit};
ghost use Rattle.odb_value.specs.Values.{HeldValue};
ghost use Rattle.daq_types.specs.declared.types.Tid.{Tid};
ghost use Rattle.odb_value.specs.Items.{tid_of};
ghost use Rattle.odb_tree.specs.declared.refusals.OdbRefusal.TheVariants.{Limit, NoMemory as no_memory};
ghost use Rattle.odb_tree.specs.Rows.{no_rows, bytes_in, total_of};
ghost use Rattle.odb_tree.specs.Limits.{len_fault, passed, limit_fault};
ghost use Rattle.odb_tree.specs.Making.{new_number, created};
ghost use Rattle.odb_tree.specs.Changes.{IsKeyAt};
ghost use Rattle.odb_tree.specs.Databases.{IsDatabase};
ghost use Rattle.odb_tree.specs.declared.entry.DatabaseEntry.TheVariants.{Create, Set, SetAll, Get, Find, ListDir, Resize};
ghost use Rattle.odb_tree.specs.Calls.{IsReplyThere, rows_there, create_fault, set_fault, tid_fault, set_all_fault, after_resize};

use crate::changes::{copy_rows, put_at, remove_at, replace_at, resize_at};
use crate::children::Children;
use crate::database::Database;
use crate::faults::{
    bytes_of_new, exists_fault, index_fault, items_fault, kept_fault, new_value, replace_fault,
    tid_fault, type_fault,
};
use crate::limits::{bytes_of, bytes_with, len_fault, limit_fault, raised_size, text_fault, total};
use crate::listing::children_of;
use crate::lookups::{
    check_dir, check_there, number_rows, obstacle, parent, path_with, row_at, seek, seek_key,
};
use crate::new_rows::{count_missing, new_rows};
use crate::refusals::{OdbRefusal, What};
use crate::rows::{NewKey, Row};
use daq_types::{Name, NoMemory};
use odb_value::{Item, Path, Value, is_front};
use std::alloc::Global;
use std::marker::Model;

/// A database that is a list of its rows.
#[derive(Drop)]
pub struct PlainTree {
    rows: Vec<Row>,
    next: u64,
}

impl Model for PlainTree {
    ghost use Rattle.odb_tree.specs.Rows.{Rows};
    ghost use Rattle.odb_tree.specs.Databases.{IsDatabase};

    ghost Value = { Rows };

    ghost use Rattle.odb_tree.specs.PlainInside.{plain_rows};

    ghost view = { plain_rows };

    ghost invariant = { λ t. IsDatabase (plain_rows t) };
}

impl PlainTree {
    /// A database without rows. Takes no memory.
    pub fn new(alloc: Global) -> PlainTree
        ensures { result ≡ no_rows }
    {
        PlainTree {
            rows: Vec::new(alloc),
            next: 1,
        }
    }

    /// The limit that a new row of so many bytes would pass.
    fn new_fault(&self, names: &[Name], own: Option<What>, bytes: u64) -> Option<OdbRefusal>
        requires depth { length names.now ≤ depth_limit }
        requires small { bytes < 2 ^ 62 }
        ensures { (value : Option HeldValue) → (own ≡ None → bytes_in value ≡ bytes) → result
            ≡ limit_fault own (created self.now names.now value) }
    {
        let rows = self.rows.as_slice();
        let missing = count_missing(rows, parent(names));
        let count = rows.len() + missing + 1;
        limit_fault(
            own,
            count,
            total(rows) + bytes,
            self.next + missing as u64 + 1,
        )
    }

    /// The limit that a value of so many bytes in place of one of so many would pass.
    fn change_fault(&self, own: Option<What>, had: u64, bytes: u64) -> Option<OdbRefusal>
        requires had { had ≤ total_of self.now.rows }
        requires small { bytes < 2 ^ 62 }
        ensures { result ≡ option_map Limit (passed own (length self.now.rows)
            (total_of self.now.rows - had + bytes) self.now.next) }
    {
        let rows = self.rows.as_slice();
        limit_fault(own, rows.len(), total(rows) - had + bytes, self.next)
    }

    /// Why a row is not made.
    fn create_fault(&self, names: &[Name], kind: &NewKey) -> Option<OdbRefusal>
        requires { length names.now ≤ depth_limit }
        ensures { result ≡ create_fault self.now names.now kind.now }
    {
        let rows = self.rows.as_slice();
        if let Some(refusal) = obstacle(rows, parent(names), None) {
            return Some(refusal);
        }
        if let Some(refusal) = exists_fault(rows, names) {
            return Some(refusal);
        }
        if let Some(refusal) = kept_fault(kind) {
            return Some(refusal);
        }
        self.new_fault(names, items_fault(kind), bytes_of_new(kind))
    }

    /// Why an item is not put into this value, which stands at the path.
    fn set_fault(
        &self,
        names: &[Name],
        value: &Value,
        index: u32,
        item: &Item,
    ) -> Option<OdbRefusal>
        requires { IsKeyAt self.now.rows names.now value.now }
        ensures { result ≡ set_fault self.now names.now index item.now value.now }
    {
        if let Some(refusal) = type_fault(value.tid(), item.tid()) {
            return Some(refusal);
        }
        let len = value.items().len();
        if let Some(refusal) = index_fault(len, index) {
            return Some(refusal);
        }
        let bytes = bytes_with(len as u32, raised_size(value.size(), item));
        self.change_fault(text_fault(item), bytes_of(value), bytes)
    }

    /// Why a key is not made with this value.
    fn made_fault(&self, names: &[Name], value: &Value) -> Option<OdbRefusal>
        requires { length names.now ≤ depth_limit }
        ensures { result ≡ option_or (tid_fault value.now.tid)
            (limit_fault None (created self.now names.now (Some value.now))) }
    {
        if let Some(refusal) = tid_fault(value.tid()) {
            return Some(refusal);
        }
        self.new_fault(names, None, bytes_of(value))
    }

    /// Why a value is not written.
    fn set_all_fault(&self, names: &[Name], value: &Value) -> Option<OdbRefusal>
        requires { length names.now ≤ depth_limit }
        ensures { result ≡ set_all_fault self.now names.now value.now }
    {
        let rows = self.rows.as_slice();
        if let Some(refusal) = obstacle(rows, parent(names), None) {
            return Some(refusal);
        }
        if names.is_empty() {
            return Some(OdbRefusal::NotValue);
        }
        let given = value.tid();
        let Some(row) = row_at(rows, names) else {
            return self.made_fault(names, value);
        };
        let Some(had) = &row.value else {
            return Some(OdbRefusal::NotValue);
        };
        if let Some(refusal) = replace_fault(had.tid(), given) {
            return Some(refusal);
        }
        self.change_fault(None, bytes_of(had), bytes_of(value))
    }

    /// Why this value, which stands at the path, does not get so many items.
    fn resize_fault(&self, names: &[Name], value: &Value, len: u32) -> Option<OdbRefusal>
        requires { IsKeyAt self.now.rows names.now value.now }
        ensures { result ≡ limit_fault (len_fault len) (after_resize self.now names.now len) }
    {
        let bytes = bytes_with(len, value.size());
        self.change_fault(len_fault(len), bytes_of(value), bytes)
    }

    /// Makes a row, and the missing directories of its path.
    fn make(&mut self, alloc: Global, names: &[Name], value: Option<Value>) -> Result<u32, NoMemory>
        requires named { 0 < length names.now }
        requires depth { length names.now ≤ depth_limit }
        requires database { IsDatabase (created self.old names.now value) }
        ensures number { IfOk result (λ number. number ≡ new_number self.old names.now) }
        ensures ok { OnOk result (self.new ≡ created self.old names.now value) }
        ensures err { OnErr result (self.new ≡ self.old) }
    {
        let mut made = new_rows(alloc, self.rows.as_slice(), self.next, names, value)?;
        let count = made.len() as u64;
        self.rows.append(&mut made)?;
        self.next += count;
        Ok((self.next - 1) as u32)
    }

    /// Makes a key or a directory at the path as it is.
    fn create_there(&mut self, alloc: Global, path: &Path, kind: &NewKey) -> Result<u32, OdbRefusal>
        ensures reply { IsReplyThere self.old (Create path.now kind.now result) }
        ensures after { self.new ≡ rows_there self.old (Create path.now kind.now result) }
    {
        let _ = &self.rows;
        let names = path.names();
        if let Some(refusal) = self.create_fault(names, kind) {
            return Err(refusal);
        }
        let value = new_value(alloc, kind)?;
        let number = self.make(alloc, names, value)?;
        Ok(number)
    }

    /// Writes one item of the key at the path as it is.
    fn set_there(
        &mut self,
        alloc: Global,
        path: &Path,
        index: u32,
        item: &Item,
    ) -> Result<u32, OdbRefusal>
        ensures reply { IsReplyThere self.old (Set path.now index item.now result) }
        ensures memory { result ≡ Err no_memory → tid_of item.now ≡ Tid.Text }
        ensures after { self.new ≡ rows_there self.old (Set path.now index item.now result) }
    {
        let names = path.names();
        let key = seek_key(self.rows.as_slice(), names)?;
        let number = key.number;
        if let Some(refusal) = self.set_fault(names, key.value, index, item) {
            return Err(refusal);
        }
        let _ = item.tid();
        let item = item.try_clone(alloc)?;
        put_at(&mut self.rows, names, index, item);
        Ok(number)
    }

    /// Replaces the value of the key at the path as it is, or makes the key with it.
    fn set_all_there(
        &mut self,
        alloc: Global,
        path: &Path,
        value: &Value,
    ) -> Result<u32, OdbRefusal>
        ensures reply { IsReplyThere self.old (SetAll path.now value.now result) }
        ensures after { self.new ≡ rows_there self.old (SetAll path.now value.now result) }
    {
        let names = path.names();
        if let Some(refusal) = self.set_all_fault(names, value) {
            return Err(refusal);
        }
        let _ = value.tid();
        let value = value.try_clone(alloc)?;
        match row_at(self.rows.as_slice(), names) {
            Some(row) => {
                let number = row.number;
                replace_at(&mut self.rows, names, value);
                Ok(number)
            }
            None => {
                let number = self.make(alloc, names, Some(value))?;
                Ok(number)
            }
        }
    }

    /// The value of the key at the path as it is.
    fn get_there(&self, alloc: Global, path: &Path) -> Result<Value, OdbRefusal>
        ensures { IsReplyThere self.now (Get path.now result) }
    {
        let key = seek_key(self.rows.as_slice(), path.names())?;
        let value = key.value.try_clone(alloc)?;
        Ok(value)
    }

    /// The number of the row at the path as it is. Takes no memory.
    fn find_there(&self, path: &Path) -> Result<u32, OdbRefusal>
        ensures reply { IsReplyThere self.now (Find path.now result) }
        ensures memory { result ≢ Err no_memory }
    {
        let rows = self.rows.as_slice();
        let names = path.names();
        if names.is_empty() {
            return Ok(0);
        }
        let row = seek(rows, names)?;
        Ok(row.number)
    }

    /// What stands in the directory at the path as it is.
    fn list_there(&self, alloc: Global, path: &Path) -> Result<Children, OdbRefusal>
        ensures { IsReplyThere self.now (ListDir path.now result) }
    {
        let names = path.names();
        check_dir(self.rows.as_slice(), names)?;
        let children = children_of(alloc, self.rows.as_slice(), names)?;
        Ok(children)
    }

    /// Gives the key at the path as it is so many items.
    fn resize_there(&mut self, alloc: Global, path: &Path, len: u32) -> Result<u32, OdbRefusal>
        ensures reply { IsReplyThere self.old (Resize path.now len result) }
        ensures after { self.new ≡ rows_there self.old (Resize path.now len result) }
    {
        let names = path.names();
        let key = seek_key(self.rows.as_slice(), names)?;
        let number = key.number;
        if let Some(refusal) = self.resize_fault(names, key.value, len) {
            return Err(refusal);
        }
        resize_at(&mut self.rows, alloc, names, len)?;
        Ok(number)
    }
}

impl Database for PlainTree {
    ghost rows = { λ s. s };

    ghost watches = { λ _. [] };

    fn create(&mut self, alloc: Global, path: &Path, kind: &NewKey) -> Result<u32, OdbRefusal> {
        let _ = &self.rows;
        self.create_there(alloc, path, kind)
    }

    fn set(
        &mut self,
        alloc: Global,
        path: &Path,
        index: u32,
        item: &Item,
    ) -> Result<u32, OdbRefusal> {
        let _ = &self.rows;
        self.set_there(alloc, path, index, item)
    }

    fn set_all(&mut self, alloc: Global, path: &Path, value: &Value) -> Result<u32, OdbRefusal> {
        let _ = &self.rows;
        self.set_all_there(alloc, path, value)
    }

    fn put(&mut self, alloc: Global, path: &Path, value: &Value) -> Result<u32, OdbRefusal> {
        let _ = &self.rows;
        self.set_all_there(alloc, path, value)
    }

    fn get(&self, alloc: Global, path: &Path) -> Result<Value, OdbRefusal> {
        let _ = &self.rows;
        self.get_there(alloc, path)
    }

    fn raw(&self, alloc: Global, path: &Path) -> Result<Value, OdbRefusal> {
        let _ = &self.rows;
        self.get_there(alloc, path)
    }

    fn find(&self, _alloc: Global, path: &Path) -> Result<u32, OdbRefusal> {
        let _ = &self.rows;
        self.find_there(path)
    }

    fn list(&self, alloc: Global, path: &Path) -> Result<Children, OdbRefusal> {
        let _ = &self.rows;
        self.list_there(alloc, path)
    }

    fn delete(&mut self, path: &Path) -> Result<u32, OdbRefusal> {
        let names = path.names();
        check_there(self.rows.as_slice(), names)?;
        let gone = remove_at(&mut self.rows, names);
        Ok(gone as u32)
    }

    fn resize(&mut self, alloc: Global, path: &Path, len: u32) -> Result<u32, OdbRefusal> {
        let _ = &self.rows;
        self.resize_there(alloc, path, len)
    }

    fn keeps_links(&self) -> bool
        ensures rows { result ≡ self.now.links }
        ensures never { result ≡ false }
    {
        let _ = &self.rows;
        false
    }

    fn walk(&self, path: &Path, numbers: &mut [u32; 32]) -> u32 {
        let _ = &self.rows;
        number_rows(self.rows.as_slice(), path.names(), numbers)
    }

    fn path_of(&self, alloc: Global, row: u32) -> Result<Option<Path>, NoMemory> {
        match path_with(self.rows.as_slice(), row) {
            Some(names) => {
                let path = Path::of(alloc, names)?;
                Ok(Some(path))
            }
            None => Ok(None),
        }
    }

    fn is_below(&self, row: u32, above: u32) -> bool {
        let rows = self.rows.as_slice();
        let Some(names) = path_with(rows, row) else {
            return false;
        };
        match path_with(rows, above) {
            Some(front) => is_front(front, names),
            None => false,
        }
    }

    fn copy(&self, alloc: Global) -> Result<PlainTree, NoMemory> {
        let rows = copy_rows(self.rows.as_slice(), alloc)?;
        Ok(PlainTree {
            rows,
            next: self.next,
        })
    }
}
