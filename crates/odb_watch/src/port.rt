ghost use Rattle.std.specs.Prelude.{◌≡◌, ◌≢◌, Err};
ghost use Rattle.daq_types.specs.Callers.{main_caller};
ghost use Rattle.odb_tree.specs.declared.refusals.OdbRefusal.TheVariants.{NoMemory as no_memory};
ghost use Rattle.odb_tree.specs.declared.entry.DatabaseEntry.TheVariants.{Create, Set, SetAll, Get, Find, ListDir, Delete, Resize, PathOf};
ghost use Rattle.odb_watch.specs.DatabasePorts.{AddsCall};

use daq_types::NoMemory;
use odb_tree::{Children, NewKey, OdbRefusal};
use odb_value::{Item, Path, Value};
use std::alloc::Global;
use std::sync::Wait;

/// One caller's access to an online database, by the calls of `Database`. Each is one call of the caller in the one history
/// of that database, with its reply: what the caller has seen of that history, its own calls among it, is legal after each
/// call, as the history of a watched database is. The calls that may make, remove or resize a row are the main thread's.
pub trait DatabasePort {
    ghost use Rattle.odb_watch.specs.DatabasePorts.{DatabaseAccess};

    ghost access: { Self → DatabaseAccess };

    /// As `Database::create`, by the main thread.
    fn create<R: Wait>(
        &mut self,
        rt: &R,
        alloc: Global,
        path: Path,
        kind: NewKey,
    ) -> Result<u32, OdbRefusal>
        requires main { (access self.old).caller ≡ main_caller }
        ensures { AddsCall (access self.old) (access self.new) (Create path kind result) };

    /// As `Database::set`.
    fn set<R: Wait>(
        &mut self,
        rt: &R,
        alloc: Global,
        path: Path,
        index: u32,
        item: Item,
    ) -> Result<u32, OdbRefusal>
        ensures called { AddsCall (access self.old) (access self.new) (Set path index item result) };

    /// As `Database::set_all`, by the main thread.
    fn set_all<R: Wait>(
        &mut self,
        rt: &R,
        alloc: Global,
        path: Path,
        value: Value,
    ) -> Result<u32, OdbRefusal>
        requires main { (access self.old).caller ≡ main_caller }
        ensures { AddsCall (access self.old) (access self.new) (SetAll path value result) };

    /// As `Database::get`. Where there is no memory to note the value, the call is refused for that, and so noted.
    fn get<R: Wait>(&mut self, rt: &R, alloc: Global, path: Path) -> Result<Value, OdbRefusal>
        ensures { AddsCall (access self.old) (access self.new) (Get path result) };

    /// As `Database::find`.
    fn find<R: Wait>(&mut self, rt: &R, alloc: Global, path: Path) -> Result<u32, OdbRefusal>
        ensures called { AddsCall (access self.old) (access self.new) (Find path result) };

    /// As `Database::list`. Where there is no memory to note the list, the call is refused for that, and so noted.
    fn list<R: Wait>(&mut self, rt: &R, alloc: Global, path: Path) -> Result<Children, OdbRefusal>
        ensures { AddsCall (access self.old) (access self.new) (ListDir path result) };

    /// As `Database::delete`, by the main thread. Takes no memory.
    fn delete<R: Wait>(&mut self, rt: &R, path: Path) -> Result<u32, OdbRefusal>
        requires main { (access self.old).caller ≡ main_caller }
        ensures called { AddsCall (access self.old) (access self.new) (Delete path result) }
        ensures memory { result ≢ Err no_memory };

    /// As `Database::resize`, by the main thread.
    fn resize<R: Wait>(
        &mut self,
        rt: &R,
        alloc: Global,
        path: Path,
        len: u32,
    ) -> Result<u32, OdbRefusal>
        requires main { (access self.old).caller ≡ main_caller }
        ensures { AddsCall (access self.old) (access self.new) (Resize path len result) };

    /// As `Database::path_of`. Where there is no memory to note the path, the call is answered so, and so noted.
    fn path_of<R: Wait>(
        &mut self,
        rt: &R,
        alloc: Global,
        row: u32,
    ) -> Result<Option<Path>, NoMemory>
        ensures { AddsCall (access self.old) (access self.new) (PathOf row result) };
}
