//! Laws of what is read back of a session: each function does nothing, and its contract is the law.
ghost use Rattle.session_objects.specs.Members.{members_told};
ghost use Rattle.read_back.specs.FilesBack.{FilesReadBack};
ghost use Rattle.read_back.specs.ReportsBack.{ReportsReadBack, SessionReadsBack};

use daq_io::{Files, Pick};
use midas_tools::laws::analysis_printed;
use odb_lock::{LockedDatabase, WatchedSeen};
use odb_tree::Database;
use odb_watch::WatchEntry;
use session_objects::SessionRecord;
use turn_lock::Machine;

/// What `analyze` prints of all the files of a run that were closed, in order, is the number of the run and the report over all
/// its events, however these were cut into files.
pub fn files_read_back()
    ensures { FilesReadBack }
{
    analysis_printed();
}

/// What the record of a run has of an analyzer that saw the run through is what `analyze` prints of all files of a channel that
/// ended and asks for the same events, in order, behind the number of the run.
pub fn reports_read_back()
    ensures { ReportsReadBack }
{
    files_read_back();
}

/// So it is with each run that came about of a session of which a record is kept, and with its run files as the session left them.
pub fn sessions_read_back<D: Database, F: Files, K: Pick>(kept: &SessionRecord<D>)
where
    LockedDatabase<D>: Machine<State = WatchedSeen, Entry = WatchEntry>,
    ensures { SessionReadsBack (members_told F.told) kept.now }
{
    reports_read_back();
}
