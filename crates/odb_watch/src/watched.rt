ghost use Rattle.std.specs.Prelude.{◌≡◌, ◌≢◌, ◌≤◌, ◌⊎◌, true, [], length, map, Err, IfOk, OnErr, OnOk};
ghost use Rattle.daq_types.specs.declared.types.Tid.{Tid};
ghost use Rattle.odb_value.specs.Items.{tid_of};
ghost use Rattle.odb_value.specs.LinkValues.{is_link_type};
ghost use Rattle.odb_tree.specs.declared.refusals.OdbRefusal.TheVariants.{NoMemory as no_memory};
ghost use Rattle.odb_tree.specs.declared.entry.DatabaseEntry.TheVariants.{Create, Set, SetAll, Get, Find, ListDir, Delete, Resize, PathOf};
ghost use Rattle.odb_tree.specs.Databases.{IsDatabase};
ghost use Rattle.odb_tree.specs.Links.{meets_link};
ghost use Rattle.odb_tree.specs.Calls.{GivesTaking, IsRowsReply, rows_after, put_reply, after_put, is_row_below};
ghost use Rattle.odb_tree.specs.Noting.{changes_of, changes_of_put, all_noted, notes_limit};
ghost use Rattle.odb_watch.specs.declared.entry.WatchEntry.TheVariants.{Watch as begin_of, Notes as notes_of, Unwatch as end_of};
ghost use Rattle.odb_watch.specs.Steps.{StepsWatched, moved_out};

use crate::copying::copy_slots;
use crate::keeping::note_reply;
use crate::notes::{NoWatch, WatchRefusal};
use crate::slots::{begin, end, take_notes};
use daq_types::NoMemory;
use odb_tree::{Children, Database, NewKey, Notes, OdbRefusal, Watch};
use odb_value::{Item, Path, Value};
use std::alloc::Global;
use std::marker::Model;

/// A database whose rows may be watched. Each call goes to the database inside; the notes of an accepted change are
/// kept in that same call, without memory.
#[derive(Drop)]
pub struct Watches<D: Database> {
    database: D,
    slots: Vec<Option<Watch>>,
}

impl<D: Database> Model for Watches<D> {
    ghost use Rattle.odb_tree.specs.Noting.{Watched};
    ghost use Rattle.odb_watch.specs.Slots.{AreFew};

    ghost Value = { Watched };

    ghost view = { λ w. record { rows = D.rows w.database; slots = w.slots.items } };

    ghost invariant = { λ w. AreFew w.slots.items };
}

impl<D: Database> Watches<D> {
    /// This database, with no watch. Takes no memory.
    #[tactic(auto, using(crate::proofs::Few::few_none))]
    pub fn new(alloc: Global, database: D) -> Watches<D>
        ensures rows { result.rows ≡ D.rows database }
        ensures slots { result.slots ≡ [] }
    {
        Watches {
            database,
            slots: Vec::new(alloc),
        }
    }

    /// Begins to watch a row, 0 for the root, and what is below it. Answers the least number that no living watch has.
    #[tactic(auto, using(crate::proofs::StepLemmas::watch_step, crate::proofs::Few::few_begun))]
    pub fn watch(&mut self, alloc: Global, row: u32) -> Result<u32, WatchRefusal>
        ensures { StepsWatched self.old (begin_of row result) self.new }
    {
        begin(alloc, &mut self.slots, row)
    }

    /// Moves out all notes that a watch has kept, at most 256, in the place of those that `into` has, and answers how many
    /// were lost since the last call. Takes no memory.
    #[tactic(auto, using(crate::proofs::StepLemmas::notes_step, crate::proofs::Few::few_read, crate::proofs::Few::few_taken))]
    pub fn notes(&mut self, watch: u32, into: &mut Notes) -> Result<u64, NoWatch>
        ensures step { StepsWatched self.old (notes_of watch (moved_out into.new result)) self.new }
        ensures few { OnOk result (length into.new ≤ notes_limit) }
        ensures kept { OnErr result (into.new ≡ into.old) }
    {
        take_notes(&mut self.slots, watch, into)
    }

    /// Ends a watch. Takes no memory.
    #[tactic(auto, using(crate::proofs::StepLemmas::unwatch_step, crate::proofs::Few::few_ended))]
    pub fn unwatch(&mut self, watch: u32) -> Result<(), NoWatch>
        ensures { StepsWatched self.old (end_of watch result) self.new }
    {
        end(&mut self.slots, watch)
    }

    /// The database inside, without its watches.
    pub fn into_database(self) -> D
        ensures { D.rows result ≡ self.rows }
    {
        self.database
    }
}

impl<D: Database> Database for Watches<D> {
    ghost rows = { λ w. w.rows };

    ghost watches = { λ w. w.slots };

    fn create(&mut self, alloc: Global, path: &Path, kind: &NewKey) -> Result<u32, OdbRefusal>
        ensures reply { IsRowsReply self.old.rows (Create path.now kind.now result) }
        ensures after { self.new.rows ≡ rows_after self.old.rows (Create path.now kind.now result) }
        ensures notes { self.new.slots ≡ all_noted (changes_of self.old.rows
            (Create path.now kind.now result)) self.old.slots }
    {
        let reply = self.database.create(alloc, path, kind);
        match kind {
            NewKey::Dir => {}
            NewKey::Keys { .. } | NewKey::Link { .. } => {
                note_reply(&self.database, &mut self.slots, reply, 0, 1);
            }
        }
        reply
    }

    fn set(
        &mut self,
        alloc: Global,
        path: &Path,
        index: u32,
        item: &Item,
    ) -> Result<u32, OdbRefusal>
        ensures reply { IsRowsReply self.old.rows (Set path.now index item.now result) }
        ensures memory { result ≡ Err no_memory → (tid_of item.now ≡ Tid.Text)
            ⊎ (meets_link self.old.rows path.now true ≡ true) }
        ensures after { self.new.rows ≡ rows_after self.old.rows
            (Set path.now index item.now result) }
        ensures notes { self.new.slots ≡ all_noted (changes_of self.old.rows
            (Set path.now index item.now result)) self.old.slots }
    {
        let reply = self.database.set(alloc, path, index, item);
        note_reply(&self.database, &mut self.slots, reply, index, 1);
        reply
    }

    fn set_all(&mut self, alloc: Global, path: &Path, value: &Value) -> Result<u32, OdbRefusal>
        ensures reply { IsRowsReply self.old.rows (SetAll path.now value.now result) }
        ensures after { self.new.rows ≡ rows_after self.old.rows
            (SetAll path.now value.now result) }
        ensures notes { self.new.slots ≡ all_noted (changes_of self.old.rows
            (SetAll path.now value.now result)) self.old.slots }
    {
        let reply = self.database.set_all(alloc, path, value);
        note_reply(
            &self.database,
            &mut self.slots,
            reply,
            0,
            value.items().len() as u32,
        );
        reply
    }

    fn put(&mut self, alloc: Global, path: &Path, value: &Value) -> Result<u32, OdbRefusal>
        ensures reply { GivesTaking (is_link_type value.now.tid) result
            (put_reply self.old.rows path.now value.now) }
        ensures after { self.new.rows ≡ after_put self.old.rows path.now value.now result }
        ensures notes { self.new.slots ≡ all_noted (changes_of_put self.old.rows path.now value.now
            result) self.old.slots }
    {
        let reply = self.database.put(alloc, path, value);
        note_reply(
            &self.database,
            &mut self.slots,
            reply,
            0,
            value.items().len() as u32,
        );
        reply
    }

    fn get(&self, alloc: Global, path: &Path) -> Result<Value, OdbRefusal> {
        self.database.get(alloc, path)
    }

    fn raw(&self, alloc: Global, path: &Path) -> Result<Value, OdbRefusal> {
        self.database.raw(alloc, path)
    }

    fn find(&self, alloc: Global, path: &Path) -> Result<u32, OdbRefusal> {
        self.database.find(alloc, path)
    }

    fn list(&self, alloc: Global, path: &Path) -> Result<Children, OdbRefusal> {
        self.database.list(alloc, path)
    }

    fn delete(&mut self, path: &Path) -> Result<u32, OdbRefusal>
        ensures reply { IsRowsReply self.old.rows (Delete path.now result) }
        ensures memory { result ≢ Err no_memory }
        ensures after { self.new.rows ≡ rows_after self.old.rows (Delete path.now result) }
        ensures notes { self.new.slots ≡ self.old.slots }
    {
        self.database.delete(path)
    }

    fn resize(&mut self, alloc: Global, path: &Path, len: u32) -> Result<u32, OdbRefusal>
        ensures reply { IsRowsReply self.old.rows (Resize path.now len result) }
        ensures after { self.new.rows ≡ rows_after self.old.rows (Resize path.now len result) }
        ensures notes { self.new.slots ≡ all_noted (changes_of self.old.rows
            (Resize path.now len result)) self.old.slots }
    {
        let reply = self.database.resize(alloc, path, len);
        note_reply(
            &self.database,
            &mut self.slots,
            reply,
            len.saturating_sub(1),
            1,
        );
        reply
    }

    fn keeps_links(&self) -> bool {
        self.database.keeps_links()
    }

    fn walk(&self, path: &Path, numbers: &mut [u32; 32]) -> u32 {
        self.database.walk(path, numbers)
    }

    fn path_of(&self, alloc: Global, row: u32) -> Result<Option<Path>, NoMemory> {
        self.database.path_of(alloc, row)
    }

    fn is_below(&self, row: u32, above: u32) -> bool {
        self.database.is_below(row, above)
    }

    /// A database with the same rows, of the same numbers, and the same watches.
    #[tactic(auto, using(crate::proofs::Few::few_copied))]
    fn copy(&self, alloc: Global) -> Result<Watches<D>, NoMemory>
        ensures rows { IfOk result (λ copy. copy.rows ≡ self.now.rows) }
        ensures watches { IfOk result (λ copy. copy.slots ≡ self.now.slots) }
    {
        let database = self.database.copy(alloc)?;
        let slots = copy_slots(alloc, self.slots.as_slice())?;
        Ok(Watches { database, slots })
    }
}
