// The run that is on, with all that its end needs.
ghost use Rattle.std.specs.Prelude.{◌≡◌, [], IfOk};

use crate::run_keys::RunKeys;
use crate::{FileRecords, FrontTallies, ReportTallies};
use daq_types::{BoundedList, NoMemory};
use std::alloc::Global;

/// The run that is on.
#[derive(Clone, Copy, Debug, PartialEq, Eq)]
pub struct CurrentRun {
    /// The run number.
    pub run: u32,
    /// The start number.
    pub start: u32,
    /// When it was started, in seconds since 1970.
    pub time: u32,
    /// How many events each front-end has to send.
    pub quota: u32,
}

/// What a run needs that takes memory, made before it begins: the lists of its record, and the keys that are set.
#[derive(Drop)]
pub(crate) struct RunRooms {
    pub fronts: FrontTallies,
    pub files: FileRecords,
    pub reports: ReportTallies,
    pub keys: RunKeys,
    ghost no_fronts: { fronts ≡ [] },
    ghost no_files: { files ≡ [] },
    ghost no_reports: { reports ≡ [] },
}

/// The run that is on, with these.
#[derive(Drop)]
pub(crate) struct OpenRun {
    pub run: CurrentRun,
    pub rooms: RunRooms,
}

impl RunRooms {
    /// These rooms.
    pub fn new(alloc: Global) -> Result<RunRooms, NoMemory> {
        let fronts = BoundedList::new(alloc)?;
        let files = BoundedList::new(alloc)?;
        let reports = BoundedList::new(alloc)?;
        let keys = RunKeys::new(alloc)?;
        Ok(RunRooms {
            fronts,
            files,
            reports,
            keys,
        })
    }
}
