//! What the record of a session says. The function does nothing, and its contract is the law.
ghost use Rattle.session_objects.specs.Members.{members_told};
ghost use Rattle.daq_session.specs.Played.{RecordsKeep};

use daq_io::Files;
use history_laws::callers::sent_by;
use odb_commands::watch_laws::run_number_stays_watched;
use odb_lock::{LockedDatabase, WatchedSeen};
use odb_runinfo::laws::{own_calls_spare, run_number_given, run_number_opens};
use odb_tree::Database;
use odb_watch::WatchEntry;
use session_laws::laws::{members_listed, starts_differ};
use session_laws::record_laws::{
    counts_end, members_end, names_end, one_answer_end, records_end, refusals_end, rises_end,
    session_ended, starts_end,
};
use session_objects::SessionRecord;
use session_runs::laws::members_counted;
use turn_lock::Machine;

/// Of a session of which a record is kept, all laws of closed sessions hold, and the record tells what they say.
pub fn sessions_hold<D: Database, F: Files>(kept: &SessionRecord<D>)
where
    LockedDatabase<D>: Machine<State = WatchedSeen, Entry = WatchEntry>,
    ensures { RecordsKeep (members_told F.told) kept.now }
{
    run_number_stays_watched();
    run_number_given();
    run_number_opens();
    own_calls_spare();
    sent_by();
    members_listed();
    members_counted();
    starts_differ();
    members_end::<D, F>(kept);
    session_ended::<D, F>(kept);
    starts_end::<D, F>(kept);
    counts_end::<D, F>(kept);
    one_answer_end::<D, F>(kept);
    rises_end::<D, F>(kept);
    refusals_end::<D, F>(kept);
    names_end::<D, F>(kept);
    records_end::<D, F>(kept);
}
