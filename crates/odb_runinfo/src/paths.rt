ghost use Rattle.std.specs.Prelude.{◌≡◌};
ghost use Rattle.odb_runinfo.specs.declared.keys.RunKey.TheVariants.{State, RunNumber, StartTime, StopTime};
ghost use Rattle.odb_runinfo.specs.RunKeys.{key_path};

use crate::keys::RunKey;
use daq_types::NoMemory;
use odb_value::Path;
use std::alloc::Global;

/// The paths of the run's parameters. They are made before a run begins, so that what is set until its end takes no memory
/// where no link is met.
#[derive(Drop)]
pub struct KeyPaths {
    pub state: Path,
    pub run_number: Path,
    pub start_time: Path,
    pub stop_time: Path,
    ghost state_is: { state ≡ key_path State },
    ghost run_number_is: { run_number ≡ key_path RunNumber },
    ghost start_time_is: { start_time ≡ key_path StartTime },
    ghost stop_time_is: { stop_time ≡ key_path StopTime },
}

impl KeyPaths {
    /// These paths.
    pub fn new(alloc: Global) -> Result<KeyPaths, NoMemory> {
        let state = RunKey::State.path(alloc)?;
        let run_number = RunKey::RunNumber.path(alloc)?;
        let start_time = RunKey::StartTime.path(alloc)?;
        let stop_time = RunKey::StopTime.path(alloc)?;
        Ok(KeyPaths {
            state,
            run_number,
            start_time,
            stop_time,
        })
    }
}
