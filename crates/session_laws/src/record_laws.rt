//! The laws of a session's end: each function does nothing, and its contract is the law.
ghost use Rattle.session_laws.specs.EndedSessions.{ClosedEndsSo, HoldsSo};
ghost use Rattle.session_laws.specs.EndedRecords.{CountsSo, RecordsSo, StartsOverSo, NamesSo, RefusalsSo, OneAnswerSo, RisesToldSo};

use crate::laws as closed;
use buffer_lock::laws as buffers;
use daq_io::Files;
use odb_lock::{LockedDatabase, WatchedSeen};
use odb_tree::Database;
use odb_watch::WatchEntry;
use session_objects::SessionRecord;
use session_runs::laws as runs;
use turn_lock::Machine;

/// What is known of a session once its objects are closed is what the laws of closed sessions ask for: each history is legal,
/// and each caller's calls are those of a member that keeps its contract, or of the main thread.
pub fn members_end<D: Database, F: Files>(_kept: &SessionRecord<D>)
where
    LockedDatabase<D>: Machine<State = WatchedSeen, Entry = WatchEntry>,
    ensures { ClosedEndsSo F.told _kept.now }
{
    buffers::got_all();
    runs::members_counted();
}

/// So each run that the main thread made holds what its members told, and the files of other names are as they were.
pub fn session_ended<D: Database, F: Files>(kept: &SessionRecord<D>)
where
    LockedDatabase<D>: Machine<State = WatchedSeen, Entry = WatchEntry>,
    ensures { HoldsSo F.told kept.now }
{
    members_end::<D, F>(kept);
    closed::session_holds();
}

/// What the counts of run files tell of starts, channels and names is so.
pub fn counts_end<D: Database, F: Files>(_kept: &SessionRecord<D>)
where
    LockedDatabase<D>: Machine<State = WatchedSeen, Entry = WatchEntry>,
    ensures { CountsSo F.told _kept.now }
{
    buffers::got_all();
    runs::members_counted();
    closed::counts_tell();
}

/// The record of each completed start holds what it has of the run.
pub fn records_end<D: Database, F: Files>(_kept: &SessionRecord<D>)
where
    LockedDatabase<D>: Machine<State = WatchedSeen, Entry = WatchEntry>,
    ensures { RecordsSo F.told _kept.now }
{
    closed::records_hold();
    closed::channels_agree();
}

/// Where there is a record for each start, each start was refused, or its run was stopped.
pub fn starts_end<D: Database, F: Files>(kept: &SessionRecord<D>)
where
    LockedDatabase<D>: Machine<State = WatchedSeen, Entry = WatchEntry>,
    ensures { StartsOverSo F.told kept.now }
{
    session_ended::<D, F>(kept);
    records_end::<D, F>(kept);
}

/// Where there is a record for each start, each name that is in no record is as it was, but for one of a refused start where more faults
/// of the run files were counted than the logger told.
pub fn names_end<D: Database, F: Files>(kept: &SessionRecord<D>)
where
    LockedDatabase<D>: Machine<State = WatchedSeen, Entry = WatchEntry>,
    ensures { NamesSo F.told kept.now }
{
    session_ended::<D, F>(kept);
    counts_end::<D, F>(kept);
    records_end::<D, F>(kept);
}

/// The start of each record that was refused was refused by a front-end or by the logger, for a cause that the counts of the run
/// files tell.
pub fn refusals_end<D: Database, F: Files>(kept: &SessionRecord<D>)
where
    LockedDatabase<D>: Machine<State = WatchedSeen, Entry = WatchEntry>,
    ensures { RefusalsSo F.told kept.now }
{
    counts_end::<D, F>(kept);
    closed::records_refused();
    closed::channels_agree();
}

/// One fault of the run files gives one answer, and so does one clash of their names: each start that was refused for one, and each
/// channel that broke off, had its own, which was counted.
pub fn one_answer_end<D: Database, F: Files>(_kept: &SessionRecord<D>)
where
    LockedDatabase<D>: Machine<State = WatchedSeen, Entry = WatchEntry>,
    ensures { OneAnswerSo F.told _kept.now }
{
    buffers::got_all();
    runs::members_counted();
    closed::one_answer();
    closed::channels_agree();
}

/// And none is counted without an answer: where there is a record for each start, each rise of a count of the run files is told, but
/// for clashes of next files' names, where a channel has a limit.
pub fn rises_end<D: Database, F: Files>(_kept: &SessionRecord<D>)
where
    LockedDatabase<D>: Machine<State = WatchedSeen, Entry = WatchEntry>,
    ensures { RisesToldSo F.told _kept.now }
{
    buffers::got_all();
    runs::members_counted();
    closed::rises_told();
    closed::channels_agree();
}
