//! The calls on a shared database, each with its arguments. Each is the call of that name of `Database`, `Watches` or
//! `odb_text`. The main thread alone makes those that may make, remove or resize a row.
ghost use Rattle.std.specs.Prelude.{◌≡◌, ◌≢◌, ◌≤◌, length, IfOk, OnOk, OnErr, Err};
ghost use Rattle.daq_types.specs.Callers.{main_caller};
ghost use Rattle.odb_tree.specs.declared.refusals.OdbRefusal.TheVariants.{NoMemory as no_memory};
ghost use Rattle.odb_tree.specs.declared.entry.DatabaseEntry.TheVariants.{Create as create_of, Set as set_of, SetAll as set_all_of, Get as get_of, Find as find_of, ListDir as list_of, Delete as delete_of, Resize as resize_of, PathOf as path_of};
ghost use Rattle.odb_tree.specs.Noting.{notes_limit};
ghost use Rattle.odb_text.specs.Dumps.{dump_limit};
ghost use Rattle.odb_watch.specs.declared.entry.WatchEntry.TheVariants.{Call as call_of, Watch as watch_of, Notes as notes_of, Unwatch as unwatch_of, Save as save_of, Load as load_of};
ghost use Rattle.odb_watch.specs.Steps.{moved_out};

use crate::locked::LockedDatabase;
use daq_types::{Bytes, NoMemory};
use odb_text::{LoadRefusal, Loaded, load, save};
use odb_tree::{Children, Database, NewKey, Notes, OdbRefusal};
use odb_value::{Item, Path, Value};
use odb_watch::{NoWatch, WatchRefusal};
use std::alloc::Global;
use turn_lock::Call;

/// By the main thread.
#[derive(Drop)]
pub struct Create<'a> {
    pub alloc: Global,
    pub path: &'a Path,
    pub kind: &'a NewKey,
}

impl<'a, D: Database> Call<LockedDatabase<D>> for Create<'a> {
    type Reply = Result<u32, OdbRefusal>;

    type Into = ();

    ghost may = { λ _ _ number. number ≡ main_caller };

    ghost entry = { λ call _ reply _. call_of (create_of call.path.now call.kind.now reply) };

    #[tactic(auto, using(crate::proofs::SharedLaws::call_step))]
    fn make(self, value: &mut LockedDatabase<D>, _into: &mut ()) -> Result<u32, OdbRefusal> {
        let _ = self.path.names();
        let _ = self.kind.target();
        value.database.create(self.alloc, self.path, self.kind)
    }
}

#[derive(Drop)]
pub struct Set<'a> {
    pub alloc: Global,
    pub path: &'a Path,
    pub index: u32,
    pub item: &'a Item,
}

impl<'a, D: Database> Call<LockedDatabase<D>> for Set<'a> {
    type Reply = Result<u32, OdbRefusal>;

    type Into = ();

    ghost entry = { λ call _ reply _. call_of (set_of call.path.now call.index call.item.now
        reply) };

    #[tactic(auto, using(crate::proofs::SharedLaws::call_step))]
    fn make(self, value: &mut LockedDatabase<D>, _into: &mut ()) -> Result<u32, OdbRefusal> {
        let _ = self.path.names();
        let _ = self.item.tid();
        value
            .database
            .set(self.alloc, self.path, self.index, self.item)
    }
}

/// By the main thread.
#[derive(Drop)]
pub struct SetAll<'a> {
    pub alloc: Global,
    pub path: &'a Path,
    pub value: &'a Value,
}

impl<'a, D: Database> Call<LockedDatabase<D>> for SetAll<'a> {
    type Reply = Result<u32, OdbRefusal>;

    type Into = ();

    ghost may = { λ _ _ number. number ≡ main_caller };

    ghost entry = { λ call _ reply _. call_of (set_all_of call.path.now call.value.now reply) };

    #[tactic(auto, using(crate::proofs::SharedLaws::call_step))]
    fn make(self, value: &mut LockedDatabase<D>, _into: &mut ()) -> Result<u32, OdbRefusal> {
        let _ = self.path.names();
        let _ = self.value.tid();
        value.database.set_all(self.alloc, self.path, self.value)
    }
}

#[derive(Drop)]
pub struct Get<'a> {
    pub alloc: Global,
    pub path: &'a Path,
}

impl<'a, D: Database> Call<LockedDatabase<D>> for Get<'a> {
    type Reply = Result<Value, OdbRefusal>;

    type Into = ();

    ghost entry = { λ call _ reply _. call_of (get_of call.path.now reply) };

    fn make(self, value: &mut LockedDatabase<D>, _into: &mut ()) -> Result<Value, OdbRefusal> {
        let _ = self.path.names();
        value.database.get(self.alloc, self.path)
    }
}

#[derive(Drop)]
pub struct Find<'a> {
    pub alloc: Global,
    pub path: &'a Path,
}

impl<'a, D: Database> Call<LockedDatabase<D>> for Find<'a> {
    type Reply = Result<u32, OdbRefusal>;

    type Into = ();

    ghost entry = { λ call _ reply _. call_of (find_of call.path.now reply) };

    fn make(self, value: &mut LockedDatabase<D>, _into: &mut ()) -> Result<u32, OdbRefusal> {
        let _ = self.path.names();
        value.database.find(self.alloc, self.path)
    }
}

#[derive(Drop)]
pub struct List<'a> {
    pub alloc: Global,
    pub path: &'a Path,
}

impl<'a, D: Database> Call<LockedDatabase<D>> for List<'a> {
    type Reply = Result<Children, OdbRefusal>;

    type Into = ();

    ghost entry = { λ call _ reply _. call_of (list_of call.path.now reply) };

    fn make(self, value: &mut LockedDatabase<D>, _into: &mut ()) -> Result<Children, OdbRefusal> {
        let _ = self.path.names();
        value.database.list(self.alloc, self.path)
    }
}

/// By the main thread. It takes no memory.
#[derive(Drop)]
pub struct Delete<'a> {
    pub path: &'a Path,
}

impl<'a, D: Database> Call<LockedDatabase<D>> for Delete<'a> {
    type Reply = Result<u32, OdbRefusal>;

    type Into = ();

    ghost may = { λ _ _ number. number ≡ main_caller };

    ghost entry = { λ call _ reply _. call_of (delete_of call.path.now reply) };

    ghost tells = { λ _ _ reply _ _. reply ≢ Err no_memory };

    fn make(self, value: &mut LockedDatabase<D>, _into: &mut ()) -> Result<u32, OdbRefusal> {
        let _ = self.path.names();
        value.database.delete(self.path)
    }
}

/// By the main thread.
#[derive(Drop)]
pub struct Resize<'a> {
    pub alloc: Global,
    pub path: &'a Path,
    pub len: u32,
}

impl<'a, D: Database> Call<LockedDatabase<D>> for Resize<'a> {
    type Reply = Result<u32, OdbRefusal>;

    type Into = ();

    ghost may = { λ _ _ number. number ≡ main_caller };

    ghost entry = { λ call _ reply _. call_of (resize_of call.path.now call.len reply) };

    #[tactic(auto, using(crate::proofs::SharedLaws::call_step))]
    fn make(self, value: &mut LockedDatabase<D>, _into: &mut ()) -> Result<u32, OdbRefusal> {
        let _ = self.path.names();
        value.database.resize(self.alloc, self.path, self.len)
    }
}

#[derive(Drop)]
pub struct PathOf {
    pub alloc: Global,
    pub row: u32,
}

impl<D: Database> Call<LockedDatabase<D>> for PathOf {
    type Reply = Result<Option<Path>, NoMemory>;

    type Into = ();

    ghost entry = { λ call _ reply _. call_of (path_of call.row reply) };

    fn make(self, value: &mut LockedDatabase<D>, _into: &mut ()) -> Result<Option<Path>, NoMemory> {
        value.database.path_of(self.alloc, self.row)
    }
}

#[derive(Drop)]
pub struct Watch {
    pub alloc: Global,
    pub row: u32,
}

impl<D: Database> Call<LockedDatabase<D>> for Watch {
    type Reply = Result<u32, WatchRefusal>;

    type Into = ();

    ghost entry = { λ call _ reply _. watch_of call.row reply };

    fn make(self, value: &mut LockedDatabase<D>, _into: &mut ()) -> Result<u32, WatchRefusal> {
        value.database.watch(self.alloc, self.row)
    }
}

/// It writes the notes that are moved out, and takes no memory.
#[derive(Drop)]
pub struct TakeNotes {
    pub watch: u32,
}

impl<D: Database> Call<LockedDatabase<D>> for TakeNotes {
    type Reply = Result<u64, NoWatch>;

    type Into = Notes;

    ghost entry = { λ call _ reply after. notes_of call.watch (moved_out after reply) };

    ghost tells = { λ _ before reply after _. OnOk reply (length after ≤ notes_limit)
        × OnErr reply (after ≡ before) };

    fn make(self, value: &mut LockedDatabase<D>, into: &mut Notes) -> Result<u64, NoWatch> {
        value.database.notes(self.watch, into)
    }
}

/// It takes no memory.
#[derive(Drop)]
pub struct Unwatch {
    pub watch: u32,
}

impl<D: Database> Call<LockedDatabase<D>> for Unwatch {
    type Reply = Result<(), NoWatch>;

    type Into = ();

    ghost entry = { λ call _ reply _. unwatch_of call.watch reply };

    fn make(self, value: &mut LockedDatabase<D>, _into: &mut ()) -> Result<(), NoWatch> {
        value.database.unwatch(self.watch)
    }
}

#[derive(Drop)]
pub struct Save {
    pub alloc: Global,
}

impl<D: Database> Call<LockedDatabase<D>> for Save {
    type Reply = Result<Bytes, NoMemory>;

    type Into = ();

    ghost entry = { λ _ _ reply _. save_of reply };

    ghost tells = { λ _ _ reply _ _. IfOk reply (λ text. length text ≤ dump_limit) };

    #[tactic(auto, using(crate::proofs::SharedLaws::save_step))]
    fn make(self, value: &mut LockedDatabase<D>, _into: &mut ()) -> Result<Bytes, NoMemory> {
        save(self.alloc, &value.database)
    }
}

/// By the main thread.
#[derive(Drop)]
pub struct Load<'a> {
    pub alloc: Global,
    pub text: &'a [u8],
}

impl<'a, D: Database> Call<LockedDatabase<D>> for Load<'a> {
    type Reply = Result<Loaded, LoadRefusal>;

    type Into = ();

    ghost may = { λ call _ number. (number ≡ main_caller)
        × (length call.text.now ≤ dump_limit) };

    ghost entry = { λ call _ reply _. load_of call.text.now reply };

    #[tactic(auto, using(crate::proofs::SharedLaws::load_step))]
    fn make(self, value: &mut LockedDatabase<D>, _into: &mut ()) -> Result<Loaded, LoadRefusal> {
        load(self.alloc, &mut value.database, self.text)
    }
}
