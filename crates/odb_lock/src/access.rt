// A port to a shared database.
ghost use Rattle.std.specs.Prelude.{◌≡◌, None};
ghost use Rattle.turn_lock.specs.Passes.{held_by, IsOf};
ghost use Rattle.odb_lock.specs.SharedOdbs.{odb_lock_of};

use crate::calls;
use crate::locked::{LockedDatabase, WatchedSeen};
use crate::shared::{OdbPass, SharedOdb};
use daq_types::{Bytes, NoMemory};
use odb_text::{LoadRefusal, Loaded};
use odb_tree::{Children, Database, NewKey, Notes, OdbRefusal};
use odb_value::{Item, Path, Value};
use odb_watch::{DatabasePort, NoWatch, WatchEntry, WatchPort, WatchRefusal};
use std::alloc::Global;
use std::sync::Wait;
use turn_lock::Machine;
use turn_lock::laws::same_lock;

/// One caller's access to a shared database, by a pass. The caller's number is the pass's, and its own calls are the
/// pass's entries.
#[derive(Drop)]
pub struct SharedAccess<'a, D: Database>
where
    LockedDatabase<D>: Machine<State = WatchedSeen, Entry = WatchEntry>,
{
    shared: &'a SharedOdb<D>,
    pass: OdbPass<D>,
    ghost own: { IsOf (odb_lock_of shared.now) pass },
    ghost idle: { held_by pass ≡ None },
}

impl<'a, D: Database> SharedAccess<'a, D> {
    ghost use Rattle.odb_lock.specs.SharedAccesses.{odb_pass_of, odb_of, access_by_pass, odb_identity};

    /// A port to this database, by a pass of it that holds nothing. Takes no memory.
    pub fn new(database: &'a SharedOdb<D>, pass: OdbPass<D>) -> SharedAccess<'a, D>
        requires own { IsOf (odb_lock_of database.now) pass }
        requires idle { held_by pass ≡ None }
        ensures pass { odb_pass_of result ≡ pass }
        ensures database { odb_of result ≡ database.now }
    {
        SharedAccess {
            shared: database,
            pass,
        }
    }

    /// Gives the pass back. It is one of each database that is the one which the port tells.
    pub fn into_pass(self) -> OdbPass<D>
        ensures pass { result ≡ odb_pass_of self.entry }
        ensures own { IsOf (odb_lock_of (odb_of self.entry)) result }
        ensures told { (shared : _) → (access_by_pass self.entry).database ≡ odb_identity shared
            → IsOf (odb_lock_of shared) result }
        ensures idle { held_by result ≡ None }
    {
        let SharedAccess { shared: _, pass } = self;
        same_lock(&pass);
        pass
    }
}

impl<'a, D: Database> DatabasePort for SharedAccess<'a, D> {
    ghost use Rattle.odb_lock.specs.SharedAccesses.{access_by_pass};

    ghost access = { access_by_pass };

    fn create<R: Wait>(
        &mut self,
        rt: &R,
        alloc: Global,
        path: Path,
        kind: NewKey,
    ) -> Result<u32, OdbRefusal> {
        let call = calls::Create {
            alloc,
            path: &path,
            kind: &kind,
        };
        self.shared.call(rt, &mut self.pass, call, &mut ())
    }

    fn set<R: Wait>(
        &mut self,
        rt: &R,
        alloc: Global,
        path: Path,
        index: u32,
        item: Item,
    ) -> Result<u32, OdbRefusal> {
        let call = calls::Set {
            alloc,
            path: &path,
            index,
            item: &item,
        };
        self.shared.call(rt, &mut self.pass, call, &mut ())
    }

    fn set_all<R: Wait>(
        &mut self,
        rt: &R,
        alloc: Global,
        path: Path,
        value: Value,
    ) -> Result<u32, OdbRefusal> {
        let call = calls::SetAll {
            alloc,
            path: &path,
            value: &value,
        };
        self.shared.call(rt, &mut self.pass, call, &mut ())
    }

    fn get<R: Wait>(&mut self, rt: &R, alloc: Global, path: Path) -> Result<Value, OdbRefusal> {
        let call = calls::Get { alloc, path: &path };
        self.shared.call(rt, &mut self.pass, call, &mut ())
    }

    fn find<R: Wait>(&mut self, rt: &R, alloc: Global, path: Path) -> Result<u32, OdbRefusal> {
        let call = calls::Find { alloc, path: &path };
        self.shared.call(rt, &mut self.pass, call, &mut ())
    }

    fn list<R: Wait>(&mut self, rt: &R, alloc: Global, path: Path) -> Result<Children, OdbRefusal> {
        let call = calls::List { alloc, path: &path };
        self.shared.call(rt, &mut self.pass, call, &mut ())
    }

    fn delete<R: Wait>(&mut self, rt: &R, path: Path) -> Result<u32, OdbRefusal> {
        let call = calls::Delete { path: &path };
        self.shared.call(rt, &mut self.pass, call, &mut ())
    }

    fn resize<R: Wait>(
        &mut self,
        rt: &R,
        alloc: Global,
        path: Path,
        len: u32,
    ) -> Result<u32, OdbRefusal> {
        let call = calls::Resize {
            alloc,
            path: &path,
            len,
        };
        self.shared.call(rt, &mut self.pass, call, &mut ())
    }

    fn path_of<R: Wait>(
        &mut self,
        rt: &R,
        alloc: Global,
        row: u32,
    ) -> Result<Option<Path>, NoMemory> {
        let call = calls::PathOf { alloc, row };
        self.shared.call(rt, &mut self.pass, call, &mut ())
    }
}

impl<'a, D: Database> WatchPort for SharedAccess<'a, D> {
    fn set_lent<R: Wait>(
        &mut self,
        rt: &R,
        alloc: Global,
        path: &Path,
        index: u32,
        item: &Item,
    ) -> Result<u32, OdbRefusal> {
        let call = calls::Set {
            alloc,
            path,
            index,
            item,
        };
        self.shared.call(rt, &mut self.pass, call, &mut ())
    }

    fn watch<R: Wait>(&mut self, rt: &R, alloc: Global, row: u32) -> Result<u32, WatchRefusal> {
        let call = calls::Watch { alloc, row };
        self.shared.call(rt, &mut self.pass, call, &mut ())
    }

    fn notes<R: Wait>(&mut self, rt: &R, watch: u32, into: &mut Notes) -> Result<u64, NoWatch> {
        let call = calls::TakeNotes { watch };
        self.shared.call(rt, &mut self.pass, call, into)
    }

    fn unwatch<R: Wait>(&mut self, rt: &R, watch: u32) -> Result<(), NoWatch> {
        let call = calls::Unwatch { watch };
        self.shared.call(rt, &mut self.pass, call, &mut ())
    }

    fn save<R: Wait>(&mut self, rt: &R, alloc: Global) -> Result<Bytes, NoMemory> {
        let call = calls::Save { alloc };
        self.shared.call(rt, &mut self.pass, call, &mut ())
    }

    fn load<R: Wait>(&mut self, rt: &R, alloc: Global, text: &[u8]) -> Result<Loaded, LoadRefusal> {
        let call = calls::Load { alloc, text };
        self.shared.call(rt, &mut self.pass, call, &mut ())
    }
}
