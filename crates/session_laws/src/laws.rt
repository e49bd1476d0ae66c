//! Laws of closed sessions: each function does nothing, and its contract is the law.

ghost use Rattle.session_laws.specs.CountedFaults.{CountsTell};
ghost use Rattle.session_laws.specs.OneAnswer.{OneAnswerEach, RisesToldEach};
ghost use Rattle.session_laws.specs.RecordedRuns.{ChannelsAgree, RecordsHold};
ghost use Rattle.session_laws.specs.RefusedRecords.{RecordsRefused};
ghost use Rattle.session_laws.specs.EndLaws.{EndsKeep, EndsComposed, MembersListed, MadeAreStopped, StoppedHold, StartsDiffer, OtherNamesStay, EndsMark, EndsHold};

use crate::blank_laws as blanks;
use buffer_lock::laws as buffers;
use composition::laws as sessions;
use daq_members::{analyzer_laws as seats, laws as members};
use event_report::Report;
use history_laws::{callers, engines as turns};
use loggers::laws as loggers_laws;
use transitions::laws as engine;

/// What is known when a session's objects are closed is all that the law of composition asks for: every history is legal, and
/// each caller's calls are those of a member that keeps its contract, where the main thread registered the members first and
/// called on no buffer.
pub fn members_keep()
    ensures { EndsKeep }
{
    callers::port_tells();
    callers::gives_once();
    buffers::got_all();
    loggers_laws::logger_keeps();
    members::front_keeps();
    seats::analyzers_keep();
}

/// So all that the law of composition says is so of a closed session.
pub fn ends_composed()
    ensures { EndsComposed }
{
    members_keep();
    sessions::composed();
}

/// The front-ends and the analyzers of a closed session stand in the session that the law of composition sees, each under its
/// client number.
pub fn members_listed()
    ensures { MembersListed }
{}

/// A run that the main thread's own calls on the engine tell, by its start and its stop with their replies, is one of the
/// session that was not refused and was stopped.
pub fn made_are_stopped()
    ensures { MadeAreStopped }
{
    turns::main_has_transition();
}

/// Of a run that was not refused and was stopped: each front-end sent what it told at the stop, the first events of its
/// equipment, and set that number in the database; what was told of each channel is so: the files of one that ended hold all
/// events of the run that it asks for, cut into pieces, those of one that broke off a part of that; and each analyzer told a report,
/// which is that of the events of the run that its client got.
pub fn stopped_hold()
    ensures { StoppedHold }
{}

/// Each run file whose name no channel gives in a run that the main thread began, to a file of whatever number, is as it was at
/// first: it is there where it was there, with the same bytes.
pub fn other_names_stay()
    ensures { OtherNamesStay }
{
    turns::turns_begun();
    callers::gives_once();
}

/// In each buffer the logger called for a mark of each pause and each resume of the runs whose starts it accepted, in order, and for no
/// others. Whatever these calls were replied, the run was paused there behind each pause, and not behind a resume; and no event of it
/// was accepted behind a pause before the logger resumed or ended it.
pub fn marks_end()
    ensures { EndsMark }
{
    turns::gives_turns();
    callers::gives_once();
    callers::keeps_pauses();
    callers::ends_runs();
    members_keep();
}

/// A closed session holds all that, of each run that the main thread made, of its run files and of the marks in its buffers.
pub fn session_holds()
    ensures { EndsHold }
{
    marks_end();
    ends_composed();
    made_are_stopped();
    stopped_hold();
    other_names_stay();
}

/// Where the logger's channels are those that were declared, the records of its runs name them in order of number.
pub fn channels_agree()
    ensures { ChannelsAgree }
{}

/// Of a closed session, by the counts of its run files: a start was refused by a front-end as NotReady, whose equipment takes
/// no part in the run; by the logger, for a name only where a clash was counted, and for a fault only where one was; or by an
/// analyzer as NotReady, only where the sheet had fewer blank reports than there are analyzers. No start was refused for a
/// buffer. Each front-end's equipment takes part in a run that was started; and where no fault was counted each channel of each
/// run ended, or the stop's sheet had no dump. Whatever failed, each file that was there stays, and each name that no file of a run has
/// that came about is as it was, but for one of a refused start where more faults were counted than the logger told; a start is refused
/// for a name only where that is taken, and the names of a run that came about were free. Where no fault was named at first, a start is
/// refused for a fault of the channel whose file the first fault names, unless that is a file of an earlier start.
pub fn counts_tell()
    ensures { CountsTell }
{
    turns::main_has_transition();
    turns::gives_turns();
    turns::turns_begun();
    turns::tallies_answered();
    turns::called_told();
    turns::called_off();
    turns::runs_over();
    engine::start_numbers_rise::<Report>();
    loggers_laws::names_kept();
    loggers_laws::reasons_given();
    callers::refuses_for_cause();
    callers::fits_members();
    callers::ends_runs();
    callers::gives_once();
    blanks::blanks_suffice();
    members_keep();
    ends_composed();
    made_are_stopped();
}

/// The record of each run that was not refused, where it fits the main thread's own calls, has the numbers and the times of a
/// run of the session, what each front-end told at the stop, which is what it sent, and what the logger told of each channel: the
/// files of one that ended hold all events of the run that it asks for, cut into pieces.
pub fn records_hold()
    ensures { RecordsHold }
{}

/// The start of each record that was refused was refused by a front-end as NotReady, whose equipment takes no part in the run, or
/// by the logger, for a name only where a clash of names was counted, and for a fault only where one was: each start is begun
/// with a blank report for each analyzer, so none refused.
pub fn records_refused()
    ensures { RecordsRefused }
{}

/// One fault gives one answer: the count of faults of the run files rose by at least as many as the starts that were refused for
/// one and the channels that broke off, and that of clashes by at least as many as the starts that were refused for a name.
pub fn one_answer()
    ensures { OneAnswerEach }
{
    turns::main_has_transition();
    turns::tallies_answered();
    engine::start_numbers_rise::<Report>();
    callers::gives_once();
    counts_tell();
}

/// And none is counted without an answer: no clash, where no record tells of one and no channel has a limit; and no fault, where no
/// start was refused and no channel broke off. The file of the first fault is one of a channel that a record calls Broken, or of a run
/// whose start a record calls refused.
pub fn rises_told()
    ensures { RisesToldEach }
{
    turns::main_has_transition();
    turns::gives_turns();
    turns::turns_begun();
    turns::tallies_answered();
    turns::called_told();
    turns::called_off();
    engine::start_numbers_rise::<Report>();
    loggers_laws::names_kept();
    loggers_laws::reasons_given();
    callers::gives_once();
    members_keep();
}

/// No two starts that the main thread begins have one start number.
pub fn starts_differ()
    ensures { StartsDiffer }
{
    engine::start_numbers_rise::<Report>();
}
