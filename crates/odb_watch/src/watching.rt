ghost use Rattle.std.specs.Prelude.{◌≡◌, ◌≤◌, length, IfOk, OnErr, OnOk};
ghost use Rattle.daq_types.specs.Callers.{main_caller};
ghost use Rattle.odb_tree.specs.declared.entry.DatabaseEntry.TheVariants.{Set};
ghost use Rattle.odb_tree.specs.Noting.{notes_limit};
ghost use Rattle.odb_text.specs.Dumps.{dump_limit};
ghost use Rattle.odb_watch.specs.declared.entry.WatchEntry.TheVariants.{Watch, Notes as taken_notes, Unwatch, Save, Load};
ghost use Rattle.odb_watch.specs.Steps.{moved_out};
ghost use Rattle.odb_watch.specs.DatabasePorts.{AddsCall, AddsEntry};

use crate::port::DatabasePort;
use crate::{NoWatch, WatchRefusal};
use daq_types::{Bytes, NoMemory};
use odb_text::{LoadRefusal, Loaded};
use odb_tree::{Notes, OdbRefusal};
use odb_value::{Item, Path};
use std::alloc::Global;
use std::sync::Wait;

/// A port to a database that is watched, dumped and loaded too.
pub trait WatchPort: DatabasePort {
    /// As `DatabasePort::set`, with the path and the item lent.
    fn set_lent<R: Wait>(
        &mut self,
        rt: &R,
        alloc: Global,
        path: &Path,
        index: u32,
        item: &Item,
    ) -> Result<u32, OdbRefusal>
        ensures called { AddsCall (Self.access self.old) (Self.access self.new)
            (Set path.now index item.now result) };

    /// Begins to watch a row, 0 for the root, and what is below it, as `Watches::watch`.
    fn watch<R: Wait>(&mut self, rt: &R, alloc: Global, row: u32) -> Result<u32, WatchRefusal>
        ensures called { AddsEntry (Self.access self.old) (Self.access self.new)
            (Watch row result) };

    /// Moves out all notes that a watch has kept, at most 256, as `Watches::notes`. Takes no memory.
    fn notes<R: Wait>(&mut self, rt: &R, watch: u32, into: &mut Notes) -> Result<u64, NoWatch>
        ensures called { AddsEntry (Self.access self.old) (Self.access self.new)
            (taken_notes watch (moved_out into.new result)) }
        ensures few { OnOk result (length into.new ≤ notes_limit) }
        ensures kept { OnErr result (into.new ≡ into.old) };

    /// Ends a watch, as `Watches::unwatch`. Takes no memory.
    fn unwatch<R: Wait>(&mut self, rt: &R, watch: u32) -> Result<(), NoWatch>
        ensures called { AddsEntry (Self.access self.old) (Self.access self.new)
            (Unwatch watch result) };

    /// The text of the database, as `odb_text::save`.
    fn save<R: Wait>(&mut self, rt: &R, alloc: Global) -> Result<Bytes, NoMemory>
        ensures called { AddsEntry (Self.access self.old) (Self.access self.new) (Save result) }
        ensures small { IfOk result (λ text. length text ≤ dump_limit) };

    /// Does what a text asks for, as `odb_text::load`, by the main thread.
    fn load<R: Wait>(&mut self, rt: &R, alloc: Global, text: &[u8]) -> Result<Loaded, LoadRefusal>
        requires main { (Self.access self.old).caller ≡ main_caller }
        requires small { length text.now ≤ dump_limit }
        ensures called { AddsEntry (Self.access self.old) (Self.access self.new)
            (Load text.now result) };
}
