// What the main thread sets of the run's parameters, by paths that were made before. No set takes memory where no link is
// met.
ghost use Rattle.std.specs.Prelude.{◌≡◌, ◌≤◌, ◌<◌, ◌^◌, ◌∷◌, []};
ghost use Rattle.odb_runinfo.specs.RunSets.{SetsNumbers, refused_sets, start_sets, state_item, state_set, stop_sets};

use crate::paths::KeyPaths;
use daq_types::RunState;
use odb_value::{Item, Path};
use odb_watch::WatchPort;
use std::alloc::Global;
use std::sync::Wait;

/// The run state, as it stands in the database.
fn state_item(state: RunState) -> Item
    ensures { result ≡ state_item state }
{
    match state {
        RunState::Stopped => Item::Int32(1),
        RunState::Paused => Item::Int32(2),
        RunState::Running => Item::Int32(3),
    }
}

/// Sets a number in item 0 of the key at a path. A refusal changes nothing.
fn assign_at<R: Wait, D: WatchPort>(
    rt: &R,
    alloc: Global,
    database: &mut D,
    path: &Path,
    item: Item,
)
    ensures { SetsNumbers (D.access database.old) (D.access database.new)
        (record { path = path.now; item = item } ∷ []) }
{
    let _ = database.set_lent(rt, alloc, path, 0, &item);
}

impl KeyPaths {
    /// Sets the state of the run.
    pub fn set_state<R: Wait, D: WatchPort>(
        &self,
        rt: &R,
        alloc: Global,
        database: &mut D,
        state: RunState,
    )
        ensures { SetsNumbers (D.access database.old) (D.access database.new) (state_set state) }
    {
        assign_at(rt, alloc, database, &self.state, state_item(state));
    }

    /// Sets what a start sets before its run begins: the state stopped, the run's number, the time of its start, and no
    /// time of its stop.
    pub fn set_starting<R: Wait, D: WatchPort>(
        &self,
        rt: &R,
        alloc: Global,
        database: &mut D,
        run: u32,
        time: u32,
    )
        requires { run < 2 ^ 31 }
        ensures { SetsNumbers (D.access database.old) (D.access database.new)
            (start_sets run time) }
    {
        assign_at(
            rt,
            alloc,
            database,
            &self.state,
            state_item(RunState::Stopped),
        );
        assign_at(
            rt,
            alloc,
            database,
            &self.run_number,
            Item::Int32(run as i32),
        );
        assign_at(rt, alloc, database, &self.start_time, Item::UInt32(time));
        assign_at(rt, alloc, database, &self.stop_time, Item::UInt32(0));
    }

    /// Sets the run's number back by one, as a start that was refused does at its end.
    pub fn set_back<R: Wait, D: WatchPort>(&self, rt: &R, alloc: Global, database: &mut D, run: u32)
        requires first { 1 ≤ run }
        requires small { run < 2 ^ 31 }
        ensures { SetsNumbers (D.access database.old) (D.access database.new)
            (refused_sets run) }
    {
        assign_at(
            rt,
            alloc,
            database,
            &self.run_number,
            Item::Int32((run - 1) as i32),
        );
    }

    /// Sets what a stop sets as it begins: the state of the run as it is, and the time of the stop.
    pub fn set_stopping<R: Wait, D: WatchPort>(
        &self,
        rt: &R,
        alloc: Global,
        database: &mut D,
        state: RunState,
        time: u32,
    )
        ensures { SetsNumbers (D.access database.old) (D.access database.new)
            (stop_sets state time) }
    {
        assign_at(rt, alloc, database, &self.state, state_item(state));
        assign_at(rt, alloc, database, &self.stop_time, Item::UInt32(time));
    }
}
