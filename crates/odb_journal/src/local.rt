ghost use Rattle.std.specs.Prelude.{◌≡◌, ◌≢◌, ◌≤◌, [], OnOk, OnErr, IfOk, IfErr, IsSome, Ok, Err};
ghost use Rattle.daq_types.specs.Callers.{main_caller};
ghost use Rattle.daq_types.specs.declared.types.Tid.{Tid};
ghost use Rattle.odb_value.specs.Items.{tid_of};
ghost use Rattle.odb_tree.specs.declared.refusals.OdbRefusal.TheVariants.{NoMemory as no_memory};
ghost use Rattle.odb_tree.specs.declared.entry.DatabaseEntry.TheVariants.{Create, Set, SetAll, Get, Find, ListDir, Delete, Resize, PathOf};
ghost use Rattle.odb_tree.specs.Calls.{IsRowsReply};
ghost use Rattle.odb_tree.specs.Databases.{IsDatabase};
ghost use Rattle.odb_tree.specs.Histories.{IsLegalRows, rows_replay};
ghost use Rattle.odb_journal.specs.Noted.{NotesCall, KeepsCalls};

use daq_types::{Caller, Journal, NoMemory};
use odb_tree::{Children, Database, DatabaseEntry, NewKey, OdbRefusal};
use odb_value::{Item, Path, Value};
use std::alloc::Global;
use std::marker::Model;
use std::snapshot::Snapshot;

/// A database of one thread with the journal of its calls, by whichever caller. Each call is that of the database, and
/// is noted with its reply, once. There has to be room for it in the journal, so that no call is made that is not
/// noted. The calls that may make, remove or resize a row are those of the main thread.
#[derive(Drop)]
pub struct LocalDatabase<D: Database> {
    start: Snapshot<D>,
    database: D,
    entries: Vec<(Caller, DatabaseEntry)>,
}

impl<D: Database> Model for LocalDatabase<D> {
    ghost use Rattle.std.specs.Prelude.{◌-◌, vec_len, vec_capacity};
    ghost use Rattle.odb_journal.specs.Noted.{Noted, IsNoted};

    ghost Value = { Noted };

    ghost view = { λ d. record {
      start = D.rows d.start.value;
      rows = D.rows d.database;
      history = d.entries.items;
      room = vec_capacity d.entries - vec_len d.entries;
    } };

    ghost invariant = { λ d. IsNoted (record {
      start = D.rows d.start.value;
      rows = D.rows d.database;
      history = d.entries.items;
      room = vec_capacity d.entries - vec_len d.entries;
    }) };
}

/// The value of a key, twice.
fn get_twice<D: Database>(
    alloc: Global,
    database: &D,
    path: &Path,
) -> Result<(Value, Value), OdbRefusal>
    ensures value { IfOk result (λ values. IsRowsReply (D.rows database.now)
        (Get path.now (Ok values.0))) }
    ensures same { IfOk result (λ values. values.1 ≡ values.0) }
    ensures refused { IfErr result (λ refusal. IsRowsReply (D.rows database.now)
        (Get path.now (Err refusal))) }
{
    let value = database.get(alloc, path)?;
    let copy = value.try_clone(alloc)?;
    Ok((value, copy))
}

/// What stands in a directory, twice.
fn list_twice<D: Database>(
    alloc: Global,
    database: &D,
    path: &Path,
) -> Result<(Children, Children), OdbRefusal>
    ensures children { IfOk result (λ lists. IsRowsReply (D.rows database.now)
        (ListDir path.now (Ok lists.0))) }
    ensures same { IfOk result (λ lists. lists.1 ≡ lists.0) }
    ensures refused { IfErr result (λ refusal. IsRowsReply (D.rows database.now)
        (ListDir path.now (Err refusal))) }
{
    let children = database.list(alloc, path)?;
    let copy = Vec::from_slice(alloc, children.as_slice())?;
    Ok((children, Children::of(copy)))
}

/// A path that may be there once more.
fn clone_path(alloc: Global, path: &Option<Path>) -> Result<Option<Path>, NoMemory>
    ensures copy { IfOk result (λ copy. copy ≡ path.now) }
    ensures memory { OnErr result (IsSome path.now) }
{
    match path {
        None => Ok(None),
        Some(path) => {
            let copy = path.try_clone(alloc)?;
            Ok(Some(copy))
        }
    }
}

/// The path of a row, twice.
fn path_twice<D: Database>(
    alloc: Global,
    database: &D,
    row: u32,
) -> Result<(Option<Path>, Option<Path>), NoMemory>
    ensures path { IfOk result (λ paths. IsRowsReply (D.rows database.now)
        (PathOf row (Ok paths.0))) }
    ensures same { IfOk result (λ paths. paths.1 ≡ paths.0) }
    ensures memory { IfErr result (λ memory. IsRowsReply (D.rows database.now)
        (PathOf row (Err memory))) }
{
    let path = database.path_of(alloc, row)?;
    let copy = clone_path(alloc, &path)?;
    Ok((path, copy))
}

impl<D: Database> LocalDatabase<D> {
    /// This database, with no call noted and no room in the journal. Takes no memory.
    pub fn new(alloc: Global, database: D) -> LocalDatabase<D>
        ensures start { result.start ≡ D.rows database }
        ensures rows { result.rows ≡ D.rows database }
        ensures history { result.history ≡ [] }
    {
        // The look-up tells that the rows are those of a database.
        let _ = database.find(alloc, &Path::root(alloc));
        let start = Snapshot::of(&database);
        LocalDatabase {
            start,
            database,
            entries: Vec::new(alloc),
        }
    }

    /// Room for so many calls more in the journal.
    pub fn reserve(&mut self, calls: u32) -> Result<(), NoMemory>
        ensures same { KeepsCalls self.old self.new }
        ensures room { OnOk result (calls ≤ self.new.room) }
    {
        self.entries.reserve(calls as usize)?;
        Ok(())
    }

    /// Does nothing. Its contract is what holds at any time: the calls noted so far are those of one database.
    pub fn tells_legal(&self)
        ensures { IsLegalRows self.now.start self.now.history }
    {
        // A look at a field tells the invariant.
        let _ = &self.entries;
    }

    /// The database, and the journal of its calls.
    pub fn into_parts(self) -> (D, Journal<(Caller, DatabaseEntry)>)
        ensures rows { D.rows result.0 ≡ self.rows }
        ensures history { result.1 ≡ self.history }
        ensures database { IsDatabase self.start }
        ensures legal { IsLegalRows self.start self.history }
        ensures replayed { self.rows ≡ rows_replay self.start self.history }
    {
        let LocalDatabase {
            start,
            database,
            entries,
        } = self;
        drop(start);
        (database, Journal::of(entries))
    }

    /// As `Database::create`, by the main thread.
    pub fn create(&mut self, alloc: Global, path: Path, kind: NewKey) -> Result<u32, OdbRefusal>
        requires room { 1 ≤ self.old.room }
        ensures did { NotesCall self.old self.new main_caller (Create path kind result) }
    {
        let _ = path.names();
        let _ = kind.target();
        let reply = self.database.create(alloc, &path, &kind);
        let entry = DatabaseEntry::Create { path, kind, reply };
        self.entries.push_reserved((Caller::MAIN, entry));
        reply
    }

    /// As `Database::set`.
    pub fn set(
        &mut self,
        alloc: Global,
        caller: Caller,
        path: Path,
        index: u32,
        item: Item,
    ) -> Result<u32, OdbRefusal>
        requires room { 1 ≤ self.old.room }
        ensures did { NotesCall self.old self.new caller (Set path index item result) }
    {
        let _ = path.names();
        let _ = item.tid();
        let reply = self.database.set(alloc, &path, index, &item);
        let entry = DatabaseEntry::Set {
            path,
            index,
            item,
            reply,
        };
        self.entries.push_reserved((caller, entry));
        reply
    }

    /// As `Database::set_all`, by the main thread.
    pub fn set_all(&mut self, alloc: Global, path: Path, value: Value) -> Result<u32, OdbRefusal>
        requires room { 1 ≤ self.old.room }
        ensures did { NotesCall self.old self.new main_caller (SetAll path value result) }
    {
        let _ = path.names();
        let _ = value.tid();
        let reply = self.database.set_all(alloc, &path, &value);
        let entry = DatabaseEntry::SetAll { path, value, reply };
        self.entries.push_reserved((Caller::MAIN, entry));
        reply
    }

    /// As `Database::get`. Where there is no memory to note the value, the call is refused for that, and so noted.
    pub fn get(&mut self, alloc: Global, caller: Caller, path: Path) -> Result<Value, OdbRefusal>
        requires room { 1 ≤ self.old.room }
        ensures did { NotesCall self.old self.new caller (Get path result) }
    {
        let _ = path.names();
        match get_twice(alloc, &self.database, &path) {
            Ok((value, copy)) => {
                let reply = Ok(copy);
                let entry = DatabaseEntry::Get { path, reply };
                self.entries.push_reserved((caller, entry));
                Ok(value)
            }
            Err(refusal) => {
                let reply = Err(refusal);
                let entry = DatabaseEntry::Get { path, reply };
                self.entries.push_reserved((caller, entry));
                Err(refusal)
            }
        }
    }

    /// As `Database::find`.
    pub fn find(&mut self, alloc: Global, caller: Caller, path: Path) -> Result<u32, OdbRefusal>
        requires room { 1 ≤ self.old.room }
        ensures did { NotesCall self.old self.new caller (Find path result) }
    {
        let _ = path.names();
        let reply = self.database.find(alloc, &path);
        let entry = DatabaseEntry::Find { path, reply };
        self.entries.push_reserved((caller, entry));
        reply
    }

    /// As `Database::list`. Where there is no memory to note the list, the call is refused for that, and so noted.
    pub fn list(
        &mut self,
        alloc: Global,
        caller: Caller,
        path: Path,
    ) -> Result<Children, OdbRefusal>
        requires room { 1 ≤ self.old.room }
        ensures did { NotesCall self.old self.new caller (ListDir path result) }
    {
        let _ = path.names();
        match list_twice(alloc, &self.database, &path) {
            Ok((children, copy)) => {
                let reply = Ok(copy);
                let entry = DatabaseEntry::ListDir { path, reply };
                self.entries.push_reserved((caller, entry));
                Ok(children)
            }
            Err(refusal) => {
                let reply = Err(refusal);
                let entry = DatabaseEntry::ListDir { path, reply };
                self.entries.push_reserved((caller, entry));
                Err(refusal)
            }
        }
    }

    /// As `Database::delete`, by the main thread. Takes no memory.
    pub fn delete(&mut self, path: Path) -> Result<u32, OdbRefusal>
        requires room { 1 ≤ self.old.room }
        ensures did { NotesCall self.old self.new main_caller (Delete path result) }
        ensures memory { result ≢ Err no_memory }
    {
        let _ = path.names();
        let reply = self.database.delete(&path);
        let entry = DatabaseEntry::Delete { path, reply };
        self.entries.push_reserved((Caller::MAIN, entry));
        reply
    }

    /// As `Database::resize`, by the main thread.
    pub fn resize(&mut self, alloc: Global, path: Path, len: u32) -> Result<u32, OdbRefusal>
        requires room { 1 ≤ self.old.room }
        ensures did { NotesCall self.old self.new main_caller (Resize path len result) }
    {
        let _ = path.names();
        let reply = self.database.resize(alloc, &path, len);
        let entry = DatabaseEntry::Resize { path, len, reply };
        self.entries.push_reserved((Caller::MAIN, entry));
        reply
    }

    /// As `Database::path_of`. Where there is no memory to note the path, the call is answered so, and so noted.
    pub fn path_of(
        &mut self,
        alloc: Global,
        caller: Caller,
        row: u32,
    ) -> Result<Option<Path>, NoMemory>
        requires room { 1 ≤ self.old.room }
        ensures did { NotesCall self.old self.new caller (PathOf row result) }
    {
        match path_twice(alloc, &self.database, row) {
            Ok((path, copy)) => {
                let reply = Ok(copy);
                let entry = DatabaseEntry::PathOf { row, reply };
                self.entries.push_reserved((caller, entry));
                Ok(path)
            }
            Err(memory) => {
                let reply = Err(memory);
                let entry = DatabaseEntry::PathOf { row, reply };
                self.entries.push_reserved((caller, entry));
                Err(memory)
            }
        }
    }
}
