// A port that owns its database.
ghost use Rattle.std.specs.Prelude.{◌≡◌, [], None, IfOk};
ghost use Rattle.daq_types.specs.Callers.{main_caller};
ghost use Rattle.turn_lock.specs.Passes.{held_by, IsOf};
ghost use Rattle.odb_lock.specs.SharedOdbs.{odb_lock_of};

use daq_types::NoMemory;
use odb_lock::{LockedDatabase, OdbPass, SharedOdb, WatchedSeen, calls};
use odb_tree::{Children, Database, NewKey, OdbRefusal};
use odb_value::{Item, Path, Value};
use odb_watch::{DatabasePort, WatchEntry};
use std::alloc::Global;
use std::sync::Wait;
use turn_lock::Machine;

/// The port of the one caller of a database, which it owns: the main thread.
#[derive(Drop)]
pub struct OwningAccess<D: Database>
where
    LockedDatabase<D>: Machine<State = WatchedSeen, Entry = WatchEntry>,
{
    database: SharedOdb<D>,
    pass: OdbPass<D>,
    ghost own: { IsOf (odb_lock_of database) pass },
    ghost idle: { held_by pass ≡ None },
}

impl<D: Database + Drop> OwningAccess<D> {
    ghost use Rattle.odb_journal.specs.OwningAccesses.{owned_database};

    /// A port to this database, by which no call was made. Where there is no memory for it the database is dropped.
    pub fn new(alloc: Global, database: D) -> Result<OwningAccess<D>, NoMemory>
        ensures caller { IfOk result (λ port. (owned_database port).caller ≡ main_caller) }
        ensures seen { IfOk result (λ port. (owned_database port).seen ≡ []) }
    {
        let (database, mut passes) = SharedOdb::new(alloc, database, 1)?;
        let Some(pass) = passes.pop() else {
            unreachable!()
        };
        Ok(OwningAccess { database, pass })
    }
}

impl<D: Database> DatabasePort for OwningAccess<D> {
    ghost use Rattle.odb_journal.specs.OwningAccesses.{owned_database};

    ghost access = { owned_database };

    fn create<R: Wait>(
        &mut self,
        rt: &R,
        alloc: Global,
        path: Path,
        kind: NewKey,
    ) -> Result<u32, OdbRefusal> {
        let call = calls::Create {
            alloc,
            path: &path,
            kind: &kind,
        };
        self.database.call(rt, &mut self.pass, call, &mut ())
    }

    fn set<R: Wait>(
        &mut self,
        rt: &R,
        alloc: Global,
        path: Path,
        index: u32,
        item: Item,
    ) -> Result<u32, OdbRefusal> {
        let call = calls::Set {
            alloc,
            path: &path,
            index,
            item: &item,
        };
        self.database.call(rt, &mut self.pass, call, &mut ())
    }

    fn set_all<R: Wait>(
        &mut self,
        rt: &R,
        alloc: Global,
        path: Path,
        value: Value,
    ) -> Result<u32, OdbRefusal> {
        let call = calls::SetAll {
            alloc,
            path: &path,
            value: &value,
        };
        self.database.call(rt, &mut self.pass, call, &mut ())
    }

    fn get<R: Wait>(&mut self, rt: &R, alloc: Global, path: Path) -> Result<Value, OdbRefusal> {
        let call = calls::Get { alloc, path: &path };
        self.database.call(rt, &mut self.pass, call, &mut ())
    }

    fn find<R: Wait>(&mut self, rt: &R, alloc: Global, path: Path) -> Result<u32, OdbRefusal> {
        let call = calls::Find { alloc, path: &path };
        self.database.call(rt, &mut self.pass, call, &mut ())
    }

    fn list<R: Wait>(&mut self, rt: &R, alloc: Global, path: Path) -> Result<Children, OdbRefusal> {
        let call = calls::List { alloc, path: &path };
        self.database.call(rt, &mut self.pass, call, &mut ())
    }

    fn delete<R: Wait>(&mut self, rt: &R, path: Path) -> Result<u32, OdbRefusal> {
        let call = calls::Delete { path: &path };
        self.database.call(rt, &mut self.pass, call, &mut ())
    }

    fn resize<R: Wait>(
        &mut self,
        rt: &R,
        alloc: Global,
        path: Path,
        len: u32,
    ) -> Result<u32, OdbRefusal> {
        let call = calls::Resize {
            alloc,
            path: &path,
            len,
        };
        self.database.call(rt, &mut self.pass, call, &mut ())
    }

    fn path_of<R: Wait>(
        &mut self,
        rt: &R,
        alloc: Global,
        row: u32,
    ) -> Result<Option<Path>, NoMemory> {
        let call = calls::PathOf { alloc, row };
        self.database.call(rt, &mut self.pass, call, &mut ())
    }
}
