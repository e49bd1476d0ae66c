// What the main thread sets of a run's parameters, by what its own calls on the engine tell.
ghost use Rattle.std.specs.Prelude.{◌≡◌, ◌≤◌, ◌<◌, ◌^◌};
ghost use Rattle.odb_runinfo.specs.RunSets.{SetsNumbers, refused_sets, start_sets, state_set, stop_sets};
ghost use Rattle.session_runs.specs.MainKnowledge.{known_from};

use crate::MainSeat;
use daq_types::NoMemory;
use odb_runinfo::KeyPaths;
use odb_watch::WatchPort;
use std::alloc::Global;
use std::sync::Wait;

/// The keys of the run's parameters. The state that it sets is the one that the main thread's calls on the engine tell by then, so the
/// state to which a transition leads is set behind the transition's end and not before.
#[derive(Drop)]
pub(crate) struct RunKeys {
    paths: KeyPaths,
}

impl RunKeys {
    /// The keys, whose paths take the memory.
    pub fn new(alloc: Global) -> Result<RunKeys, NoMemory> {
        let paths = KeyPaths::new(alloc)?;
        Ok(RunKeys { paths })
    }

    /// Sets the state of the run, as the main thread knows it.
    pub fn set_state<R: Wait, D: WatchPort>(
        &self,
        rt: &R,
        alloc: Global,
        database: &mut D,
        seat: &MainSeat<'_>,
    )
        ensures { SetsNumbers (D.access database.old) (D.access database.new)
            (state_set (known_from seat.now.own).state) }
    {
        let state = seat.state();
        self.paths.set_state(rt, alloc, database, state);
    }

    /// Sets what a start sets before its run begins.
    pub fn set_starting<R: Wait, D: WatchPort>(
        &self,
        rt: &R,
        alloc: Global,
        database: &mut D,
        run: u32,
        time: u32,
    )
        requires { run < 2 ^ 31 }
        ensures { SetsNumbers (D.access database.old) (D.access database.new)
            (start_sets run time) }
    {
        self.paths.set_starting(rt, alloc, database, run, time);
    }

    /// Sets the run's number back by one, as a start that was refused does at its end.
    pub fn set_back<R: Wait, D: WatchPort>(&self, rt: &R, alloc: Global, database: &mut D, run: u32)
        requires first { 1 ≤ run }
        requires small { run < 2 ^ 31 }
        ensures { SetsNumbers (D.access database.old) (D.access database.new)
            (refused_sets run) }
    {
        self.paths.set_back(rt, alloc, database, run);
    }

    /// Sets what a stop sets as it begins: the state of the run, as the main thread knows it, and the time of the stop.
    pub fn set_stopping<R: Wait, D: WatchPort>(
        &self,
        rt: &R,
        alloc: Global,
        database: &mut D,
        seat: &MainSeat<'_>,
        time: u32,
    )
        ensures { SetsNumbers (D.access database.old) (D.access database.new)
            (stop_sets (known_from seat.now.own).state time) }
    {
        let state = seat.state();
        self.paths.set_stopping(rt, alloc, database, state, time);
    }
}
