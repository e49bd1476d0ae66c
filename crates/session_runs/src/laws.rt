//! How the records of runs stand to the main thread's own calls: each function does nothing, and its contract is the law.
ghost use Rattle.daq_io.specs.Told.{AheadTold};
ghost use Rattle.std.specs.Prelude.{◌≡◌, ◌++◌, [], ℕ, List, None};
ghost use Rattle.odb_watch.specs.DatabasePorts.{own_watched};
ghost use Rattle.odb_watch.specs.declared.entry.WatchEntry.{WatchEntry};
ghost use Rattle.session_runs.specs.declared.opening.MemberName.{MemberName};
ghost use Rattle.session_runs.specs.Members.{MembersCounted, registrations};
ghost use Rattle.session_runs.specs.declared.replies.RunReply.{RunReply};
ghost use Rattle.session_runs.specs.FileRows.{ChannelsEnd};
ghost use Rattle.session_runs.specs.KeptRuns.{RunsSeen};
ghost use Rattle.session_runs.specs.RunAnswers.{AnswersPause, AnswersResume, AnswersStart, AnswersStop, CommandPoint, CutsStart, StopsUnsaved};
ghost use Rattle.session_runs.specs.RunsFit.{run_clients, RecordsFit, RunsFit, starts_begun};

use member_crew::Rounds;
use odb_watch::port_laws::{calls_add_up, entries_add_up};

/// Each run command keeps it that the records and the run that is on fit the main thread's own calls on the engine and on
/// the database.
pub fn commands_fit<M: Rounds>()
    ensures start { (reply : RunReply) (before after : AheadTold) (old new : CommandPoint M)
        → AnswersStart M.round reply before after old new
        → RunsFit old.runs (own_watched old.database)
        → RunsFit new.runs (own_watched new.database) }
    ensures stop { (reply : RunReply) (before after : AheadTold) (old new : CommandPoint M)
        → AnswersStop M.round reply before after old new
        → RunsFit old.runs (own_watched old.database)
        → RunsFit new.runs (own_watched new.database) }
    ensures unsaved { (before after : AheadTold) (old new : CommandPoint M)
        → StopsUnsaved M.round before after old new
        → RunsFit old.runs (own_watched old.database)
        → RunsFit new.runs (own_watched new.database) }
    ensures pause { (reply : RunReply) (old new : CommandPoint M)
        → AnswersPause M.round reply old new
        → RunsFit old.runs (own_watched old.database)
        → RunsFit new.runs (own_watched new.database) }
    ensures resume { (reply : RunReply) (old new : CommandPoint M)
        → AnswersResume M.round reply old new
        → RunsFit old.runs (own_watched old.database)
        → RunsFit new.runs (own_watched new.database) }
{
    calls_add_up();
    entries_add_up();
}

/// Before the first start all fits, and registrations begin none. Calls of other commands on the database, behind these, change
/// nothing of what fits. Where no run is on, the records alone fit.
pub fn runs_fit()
    ensures opening { (s : RunsSeen) (own : List WatchEntry) → s.runs ≡ [] → s.on ≡ None
        → starts_begun s.main.own ≡ [] → RunsFit s own }
    ensures registered { (first : ℕ) (members : List MemberName)
        → starts_begun (registrations first members) ≡ [] }
    ensures more { (s : RunsSeen) (own more : List WatchEntry) → RunsFit s own
        → RunsFit s (own ++ more) }
    ensures records { (s : RunsSeen) (own : List WatchEntry) → RunsFit s own → s.on ≡ None
        → RecordsFit (run_clients s)
        (record { engine = s.main.own; database = own }) s.runs }
{}

/// How many members of a session send events, and how many count in reports.
pub fn members_counted()
    ensures { MembersCounted }
{}

/// A channel ended in a run exactly where each of its files in the record did.
pub fn channels_end()
    ensures { ChannelsEnd }
{}
