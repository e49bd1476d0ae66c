ghost use Rattle.std.specs.Prelude.{◌≡◌, ◌≢◌, ◌⊎◌, true, false, drop, length, [], ◌++◌, Err, IfOk};
ghost use Rattle.daq_types.specs.declared.types.Tid.{Tid};
ghost use Rattle.odb_value.specs.Items.{tid_of};
ghost use Rattle.odb_value.specs.LinkValues.{is_link_type};
ghost use Rattle.odb_tree.specs.declared.refusals.OdbRefusal.TheVariants.{NoMemory as no_memory};
ghost use Rattle.odb_tree.specs.declared.entry.DatabaseEntry.TheVariants.{Create, Set, SetAll, Get, Find, ListDir, Delete, Resize, PathOf};
ghost use Rattle.odb_tree.specs.Databases.{IsDatabase};
ghost use Rattle.odb_tree.specs.Links.{meets_link, numbers_along};
ghost use Rattle.odb_tree.specs.Calls.{Gives, GivesTaking, IsRowsReply, rows_after, raw_reply, put_reply, after_put, is_row_below};
ghost use Rattle.odb_tree.specs.Noting.{changes_of, changes_of_put, all_noted};

use crate::leading::{goal, lead};
use crate::links::{Link, copy_links, forget};
use crate::making::{make_link, put_value, read_raw};
use daq_types::NoMemory;
use odb_tree::{Children, Database, NewKey, OdbRefusal};
use odb_value::{Item, Path, Value};
use std::alloc::Global;
use std::marker::Model;

/// A database that keeps links, over one that keeps none. A call whose path meets no link goes to the database below at
/// the path as it is, and takes no more memory than that call; but `create` and `put` of a link take some for the link
/// itself, and `copy` for all of them.
#[derive(Drop)]
pub struct LinkTree<D: Database> {
    tree: D,
    links: Vec<Link>,
}

impl<D: Database> Model for LinkTree<D> {
    ghost use Rattle.odb_tree.specs.Noting.{Watched};
    ghost use Rattle.odb_links.specs.Seen.{AreLinks, seen};

    ghost Value = { Watched };

    ghost view = { λ t. record {
      rows = seen t.links.items (D.rows t.tree);
      slots = D.watches t.tree;
    } };

    ghost invariant = { λ t. AreLinks t.links.items (D.rows t.tree) };
}

impl<D: Database> LinkTree<D> {
    /// This database, which keeps no links yet, as one that does. Takes no memory.
    pub fn new(alloc: Global, tree: D) -> LinkTree<D>
        requires { (D.rows tree).links ≡ false }
        ensures rows { result.rows ≡ record (D.rows tree) { links = true } }
        ensures watches { result.slots ≡ D.watches tree }
    {
        // That its rows are those of a database is what `find` tells.
        let _root = tree.find(alloc, &Path::root(alloc));
        LinkTree {
            tree,
            links: Vec::new(alloc),
        }
    }
}

impl<D: Database> Database for LinkTree<D> {
    ghost rows = { λ t. t.rows };

    ghost watches = { λ t. t.slots };

    fn create(&mut self, alloc: Global, path: &Path, kind: &NewKey) -> Result<u32, OdbRefusal>
        ensures reply { IsRowsReply self.old.rows (Create path.now kind.now result) }
        ensures after { self.new.rows ≡ rows_after self.old.rows (Create path.now kind.now result) }
        ensures notes { self.new.slots ≡ all_noted (changes_of self.old.rows
            (Create path.now kind.now result)) self.old.slots }
    {
        let led = lead(&self.tree, self.links.as_slice(), alloc, path, false)?;
        let path = goal(&led, path);
        match kind {
            NewKey::Dir | NewKey::Keys { .. } => self.tree.create(alloc, path, kind),
            NewKey::Link { target } => {
                make_link(&mut self.tree, &mut self.links, alloc, path, target)
            }
        }
    }

    fn set(
        &mut self,
        alloc: Global,
        path: &Path,
        index: u32,
        item: &Item,
    ) -> Result<u32, OdbRefusal>
        ensures reply { IsRowsReply self.old.rows (Set path.now index item.now result) }
        ensures memory { result ≡ Err no_memory → (tid_of item.now ≡ Tid.Text)
            ⊎ (meets_link self.old.rows path.now true ≡ true) }
        ensures after { self.new.rows ≡ rows_after self.old.rows
            (Set path.now index item.now result) }
        ensures notes { self.new.slots ≡ all_noted (changes_of self.old.rows
            (Set path.now index item.now result)) self.old.slots }
    {
        let _ = item.tid();
        let led = lead(&self.tree, self.links.as_slice(), alloc, path, true)?;
        self.tree.set(alloc, goal(&led, path), index, item)
    }

    fn set_all(&mut self, alloc: Global, path: &Path, value: &Value) -> Result<u32, OdbRefusal>
        ensures reply { IsRowsReply self.old.rows (SetAll path.now value.now result) }
        ensures after { self.new.rows ≡ rows_after self.old.rows
            (SetAll path.now value.now result) }
        ensures notes { self.new.slots ≡ all_noted (changes_of self.old.rows
            (SetAll path.now value.now result)) self.old.slots }
    {
        let _ = value.tid();
        let led = lead(&self.tree, self.links.as_slice(), alloc, path, true)?;
        self.tree.set_all(alloc, goal(&led, path), value)
    }

    fn put(&mut self, alloc: Global, path: &Path, value: &Value) -> Result<u32, OdbRefusal>
        ensures reply { GivesTaking (is_link_type value.now.tid) result
            (put_reply self.old.rows path.now value.now) }
        ensures after { self.new.rows ≡ after_put self.old.rows path.now value.now result }
        ensures notes { self.new.slots ≡ all_noted (changes_of_put self.old.rows path.now value.now
            result) self.old.slots }
    {
        put_value(&mut self.tree, &mut self.links, alloc, path, value)
    }

    fn get(&self, alloc: Global, path: &Path) -> Result<Value, OdbRefusal> {
        let led = lead(&self.tree, self.links.as_slice(), alloc, path, true)?;
        self.tree.get(alloc, goal(&led, path))
    }

    fn raw(&self, alloc: Global, path: &Path) -> Result<Value, OdbRefusal> {
        read_raw(&self.tree, self.links.as_slice(), alloc, path)
    }

    fn find(&self, alloc: Global, path: &Path) -> Result<u32, OdbRefusal> {
        let led = lead(&self.tree, self.links.as_slice(), alloc, path, true)?;
        self.tree.find(alloc, goal(&led, path))
    }

    fn list(&self, alloc: Global, path: &Path) -> Result<Children, OdbRefusal> {
        let led = lead(&self.tree, self.links.as_slice(), alloc, path, true)?;
        self.tree.list(alloc, goal(&led, path))
    }

    fn delete(&mut self, path: &Path) -> Result<u32, OdbRefusal>
        ensures reply { IsRowsReply self.old.rows (Delete path.now result) }
        ensures memory { result ≢ Err no_memory }
        ensures after { self.new.rows ≡ rows_after self.old.rows (Delete path.now result) }
        ensures notes { self.new.slots ≡ self.old.slots }
    {
        let _ = path.names();
        let gone = self.tree.delete(path)?;
        forget(&self.tree, &mut self.links);
        Ok(gone)
    }

    fn resize(&mut self, alloc: Global, path: &Path, len: u32) -> Result<u32, OdbRefusal>
        ensures reply { IsRowsReply self.old.rows (Resize path.now len result) }
        ensures after { self.new.rows ≡ rows_after self.old.rows (Resize path.now len result) }
        ensures notes { self.new.slots ≡ all_noted (changes_of self.old.rows
            (Resize path.now len result)) self.old.slots }
    {
        let led = lead(&self.tree, self.links.as_slice(), alloc, path, true)?;
        self.tree.resize(alloc, goal(&led, path), len)
    }

    fn keeps_links(&self) -> bool {
        let _ = &self.tree;
        true
    }

    fn walk(&self, path: &Path, numbers: &mut [u32; 32]) -> u32 {
        self.tree.walk(path, numbers)
    }

    fn path_of(&self, alloc: Global, row: u32) -> Result<Option<Path>, NoMemory> {
        self.tree.path_of(alloc, row)
    }

    fn is_below(&self, row: u32, above: u32) -> bool {
        self.tree.is_below(row, above)
    }

    fn copy(&self, alloc: Global) -> Result<LinkTree<D>, NoMemory>
        ensures rows { IfOk result (λ copy. copy.rows ≡ self.now.rows) }
        ensures watches { IfOk result (λ copy. copy.slots ≡ self.now.slots) }
    {
        let tree = self.tree.copy(alloc)?;
        let links = copy_links(alloc, self.links.as_slice())?;
        Ok(LinkTree { tree, links })
    }
}
