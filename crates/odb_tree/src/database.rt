ghost use Rattle.std.specs.Prelude.{◌≡◌, ◌≢◌, ◌++◌, ◌⊎◌, [], true, drop, length, Err, IfOk};
ghost use Rattle.daq_types.specs.declared.types.Tid.{Tid};
ghost use Rattle.odb_value.specs.Items.{tid_of};
ghost use Rattle.odb_value.specs.LinkValues.{is_link_type};
ghost use Rattle.odb_tree.specs.declared.refusals.OdbRefusal.TheVariants.{NoMemory as no_memory};
ghost use Rattle.odb_tree.specs.Databases.{IsDatabase};
ghost use Rattle.odb_tree.specs.declared.entry.DatabaseEntry.TheVariants.{Create, Set, SetAll, Get, Find, ListDir, Delete, Resize, PathOf};
ghost use Rattle.odb_tree.specs.Links.{meets_link, numbers_along};
ghost use Rattle.odb_tree.specs.Calls.{Gives, GivesTaking, IsRowsReply, rows_after, raw_reply, put_reply, after_put, is_row_below};
ghost use Rattle.odb_tree.specs.Noting.{changes_of, changes_of_put, all_noted};

use crate::children::Children;
use crate::refusals::OdbRefusal;
use crate::rows::NewKey;
use daq_types::NoMemory;
use odb_value::{Item, Path, Value};
use std::alloc::Global;

/// An online database, seen as a list of rows. Each call replies what `IsRowsReply` says of the rows before it, and leaves
/// `rows_after` of them. Want of memory leaves them as they were. It excuses no refusal: where the rows refuse a call, that
/// refusal is answered. Only to follow a link, and to write one, takes memory before the rows are asked.
/// The rows are always those of a database, which `find` and `list` tell.
///
/// A database may keep links: keys of type LINK with the text of a path. Each call but `delete`, `raw`, `put`, `walk`,
/// `path_of`, `is_below` and `copy` goes to the path after its links. It follows a link with names behind it, and all but
/// `create` one at the path's end too. In `delete`, `raw` and `put` a link within the path is a key where a directory is
/// needed.
///
/// A database may keep watches beside its rows. Each call that writes an item leaves all of them with a note of it,
/// which `changes_of` tells, and no other call touches them. A database that has none has none after each call.
pub trait Database: Drop {
    ghost use Rattle.std.specs.Prelude.{List, Option};
    ghost use Rattle.odb_tree.specs.Rows.{Rows};
    ghost use Rattle.odb_tree.specs.declared.notes.Watch.{Watch as a_watch};

    ghost rows: { Self → Rows };

    ghost watches: { Self → List (Option a_watch) };

    /// Makes a key or a directory, and the missing directories of its path, and answers the number of its row.
    fn create(&mut self, alloc: Global, path: &Path, kind: &NewKey) -> Result<u32, OdbRefusal>
        ensures reply { IsRowsReply (rows self.old) (Create path.now kind.now result) }
        ensures after { rows self.new ≡ rows_after (rows self.old) (Create path.now kind.now result) }
        ensures notes { watches self.new ≡ all_noted (changes_of (rows self.old)
            (Create path.now kind.now result)) (watches self.old) };

    /// Writes one item of a key, and answers the number of its row. A text as long as the item size or longer raises
    /// that to its length plus 1. Takes memory for a text, and else only where a link is met.
    fn set(
        &mut self,
        alloc: Global,
        path: &Path,
        index: u32,
        item: &Item,
    ) -> Result<u32, OdbRefusal>
        ensures reply { IsRowsReply (rows self.old) (Set path.now index item.now result) }
        ensures memory { result ≡ Err no_memory → (tid_of item.now ≡ Tid.Text)
            ⊎ (meets_link (rows self.old) path.now true ≡ true) }
        ensures after { rows self.new ≡ rows_after (rows self.old)
            (Set path.now index item.now result) }
        ensures notes { watches self.new ≡ all_noted (changes_of (rows self.old)
            (Set path.now index item.now result)) (watches self.old) };

    /// Replaces the value of a key by one of the same type, or makes the key with it, and answers the number of its row.
    fn set_all(&mut self, alloc: Global, path: &Path, value: &Value) -> Result<u32, OdbRefusal>
        ensures reply { IsRowsReply (rows self.old) (SetAll path.now value.now result) }
        ensures after { rows self.new ≡ rows_after (rows self.old)
            (SetAll path.now value.now result) }
        ensures notes { watches self.new ≡ all_noted (changes_of (rows self.old)
            (SetAll path.now value.now result)) (watches self.old) };

    /// What `set_all` does, but at the path as it is: a link at its end is itself the key. A value of type LINK is
    /// written where the database keeps links; for that alone memory is taken before the rows are asked.
    fn put(&mut self, alloc: Global, path: &Path, value: &Value) -> Result<u32, OdbRefusal>
        ensures reply { GivesTaking (is_link_type value.now.tid) result
            (put_reply (rows self.old) path.now value.now) }
        ensures after { rows self.new ≡ after_put (rows self.old) path.now value.now result }
        ensures notes { watches self.new ≡ all_noted (changes_of_put (rows self.old) path.now
            value.now result) (watches self.old) };

    /// The value of a key.
    fn get(&self, alloc: Global, path: &Path) -> Result<Value, OdbRefusal>
        ensures { IsRowsReply (rows self.now) (Get path.now result) };

    /// What `get` does, but at the path as it is: a link at its end is itself the key, with a value of type LINK.
    fn raw(&self, alloc: Global, path: &Path) -> Result<Value, OdbRefusal>
        ensures { Gives result (raw_reply (rows self.now) path.now) };

    /// The number of the row of a key or a directory; 0 for the root. Takes memory only where a link is met.
    fn find(&self, alloc: Global, path: &Path) -> Result<u32, OdbRefusal>
        ensures reply { IsRowsReply (rows self.now) (Find path.now result) }
        ensures memory { result ≡ Err no_memory → meets_link (rows self.now) path.now true ≡ true }
        ensures database { IsDatabase (rows self.now) };

    /// What stands in a directory: its keys, and then its directories, each in order of making.
    fn list(&self, alloc: Global, path: &Path) -> Result<Children, OdbRefusal>
        ensures reply { IsRowsReply (rows self.now) (ListDir path.now result) }
        ensures database { IsDatabase (rows self.now) };

    /// Removes a row and all below it, and answers how many rows went. For the root all rows go. Takes no memory.
    fn delete(&mut self, path: &Path) -> Result<u32, OdbRefusal>
        ensures reply { IsRowsReply (rows self.old) (Delete path.now result) }
        ensures memory { result ≢ Err no_memory }
        ensures after { rows self.new ≡ rows_after (rows self.old) (Delete path.now result) }
        ensures notes { watches self.new ≡ watches self.old };

    /// Gives a key so many items: cuts at the end, or adds items of a new key. Answers the number of its row.
    fn resize(&mut self, alloc: Global, path: &Path, len: u32) -> Result<u32, OdbRefusal>
        ensures reply { IsRowsReply (rows self.old) (Resize path.now len result) }
        ensures after { rows self.new ≡ rows_after (rows self.old) (Resize path.now len result) }
        ensures notes { watches self.new ≡ all_noted (changes_of (rows self.old)
            (Resize path.now len result)) (watches self.old) };

    /// Whether the database keeps links.
    fn keeps_links(&self) -> bool
        ensures { result ≡ (rows self.now).links };

    /// Writes the numbers of the rows at the first name of the path, the first two and so on, as far as rows are there,
    /// and answers how many. The rest of `numbers` stays. No link is followed. Takes no memory.
    fn walk(&self, path: &Path, numbers: &mut [u32; 32]) -> u32
        ensures count { result ≡ length (numbers_along (rows self.now).rows [] path.now) }
        ensures numbers { numbers.new ≡ numbers_along (rows self.now).rows [] path.now
            ++ drop result numbers.old };

    /// The path of the row with this number, and of the root for 0; None exactly where there is none. Takes memory only
    /// where there is one.
    fn path_of(&self, alloc: Global, row: u32) -> Result<Option<Path>, NoMemory>
        ensures { IsRowsReply (rows self.now) (PathOf row result) };

    /// Whether both numbers are those of rows that are there, or 0 for the root, and the first is the second or lies
    /// below it. Takes no memory.
    fn is_below(&self, row: u32, above: u32) -> bool
        ensures { result ≡ is_row_below (rows self.now) row above };

    /// A database with the same rows, of the same numbers, and the same watches.
    fn copy(&self, alloc: Global) -> Result<Self, NoMemory>
    where
        Self: Sized,
        ensures rows { IfOk result (λ copy. rows copy ≡ rows self.now) }
        ensures watches { IfOk result (λ copy. watches copy ≡ watches self.now) };
}
