//! Laws of a session's members together: each function does nothing but call other laws, and its contract is the law.

ghost use Rattle.composition.specs.CompositionLaws.{FrontsTell, FrontsSent, FrontsStand, FrontsSet, StopsSet, PausesSet, OnlyFrontsSent, SegmentsAreMade, ChannelsTold, EndsTold, RunsAreEnded, NoEndRefused, FilesHoldRuns, FilesHoldParts, ReportsTold, ReportsSo, ReportsWhole, GotWhole, StopsComplete, EndsSo, FrontsRefuse, FrontsTakePart, IsComposed};
ghost use Rattle.composition.specs.Sessions.{Session, MembersKeep};
ghost use Rattle.composition.specs.SessionRuns.{IsStoppedRun, ToldChannel, ReportsRun, SawThrough};
ghost use Rattle.composition.specs.SessionSamples.{sample_session, sample_run, sample_channel, whole_file};
ghost use Rattle.composition.specs.PausedSamples.{paused_session, pausing_run, paused_channel, early_pause};
ghost use Rattle.composition.specs.CountedSamples.{counted_history, counted_session, counted_run, counted_analyzer, counted_report, asked_twice};
ghost use Rattle.buffer_core.specs.Samples.{sample_event, longer_event};
ghost use Rattle.composition.specs.NeededSamples.{SessionPremise, LegalBuffers, LegalEngine, OwnNames, MemberCalls, KeptFronts, FrontMoments, FrontNumbers, KeptLogger, LoggerEvents, KeptAnalyzers, AnalyzerEvents, FrontsThere, AnalyzersThere, LoggerThere, OneDump, MeetsSession, FailsSession, unmarked_session, made_up, spoken_for, unknown_sender, other_made, early_session, nothing_set, watching_front, nothing_stored, other_told, front_for_analyzer, unknown_front, unknown_analyzer, unknown_logger, no_dump};

use event_report::Report;
use front_ends::laws as fronts_keep;
use history_laws::{callers, engines as turns};
use sub_files::laws::files_of_run;
use transitions::laws as engine;

/// In a run that was not refused and was stopped each front-end told in the Done of the stop what it sent, and that is what
/// it sent: the first events of its equipment, in order. They all stand between the marks of the run. Each event between the
/// marks of a run was sent in that run by a front-end of that buffer, and is one of those that this told.
pub fn fronts()
    ensures tell { (s : Session) → MembersKeep s → FrontsTell s }
    ensures sent { (s : Session) → MembersKeep s → FrontsSent s }
    ensures stand { (s : Session) → MembersKeep s → FrontsStand s }
    ensures only { (s : Session) → MembersKeep s → OnlyFrontsSent s }
    ensures made { (s : Session) → MembersKeep s → SegmentsAreMade s }
{
    callers::sent_by();
    callers::fits_members();
    turns::gives_turns();
    turns::turns_begun();
    turns::tallies_answered();
    turns::called_told();
    engine::start_numbers_rise::<Report>();
}

/// Each front-end set in the database, in its own key alone, 0 at each start, and at each pause and each stop how many
/// events it had sent in the run by then, and made no other call there; what it sets at a latest turn that it has not answered may
/// be to come. Its set at the stop of a run that was not refused stands there, and is what it told in the Done. Its set at a pause
/// stands there, and is also how many it had sent when it answered its next turn.
pub fn sets()
    ensures set { (s : Session) → MembersKeep s → FrontsSet s }
    ensures stop { (s : Session) → MembersKeep s → StopsSet s }
    ensures pause { (s : Session) → MembersKeep s → PausesSet s }
{
    fronts_keep::sent_at_pauses();
    turns::gives_turns();
    turns::turns_begun();
    turns::tallies_answered();
    turns::called_told();
    engine::start_numbers_rise::<Report>();
}

/// In a run that was not refused and was stopped the logger told in the Done of the stop what became of each channel: that it
/// ended or broke off, or that the stop had no dump. It ended the run in the buffer of each channel: never was that refused.
/// The files of each channel that the logger told to have ended, as many as it told, are the run files of the pieces into which
/// the channel's limit cuts all events between the marks of the run that it asks for, with the dumps of the two sheets, and
/// each has at most 2^62 bytes; the files of one that was told to be broken hold a first part of these events so, where the stop's
/// sheet has a dump.
pub fn files()
    ensures told { (s : Session) → MembersKeep s → ChannelsTold s }
    ensures ends { (s : Session) → MembersKeep s → EndsTold s }
    ensures so { (s : Session) → MembersKeep s → EndsSo s }
    ensures ended { (s : Session) → MembersKeep s → RunsAreEnded s }
    ensures unrefused { (s : Session) → MembersKeep s → NoEndRefused s }
    ensures hold { (s : Session) → MembersKeep s → FilesHoldRuns s }
    ensures parts { (s : Session) → MembersKeep s → FilesHoldParts s }
{
    callers::reads_places();
    callers::reads_events();
    callers::cut_short();
    callers::file_fits();
    callers::fits_members();
    callers::ends_runs();
    files_of_run();
    turns::gives_turns();
    turns::turns_begun();
    turns::tallies_answered();
    turns::called_told();
    engine::start_numbers_rise::<Report>();
}

/// In a run that was not refused and was stopped each analyzer told in the Done of the stop the report of the events of the run
/// that its client got. Where it saw the run through, these are all events between the marks of the run that it asks for, each
/// once and in order; and its client got no other events of the run.
pub fn reports()
    ensures told { (s : Session) → MembersKeep s → ReportsTold s }
    ensures so { (s : Session) → MembersKeep s → ReportsSo s }
    ensures whole { (s : Session) → MembersKeep s → ReportsWhole s }
    ensures got { (s : Session) → MembersKeep s → GotWhole s }
{
    callers::sees_events();
    callers::sees_since();
    callers::fits_members();
    turns::gives_turns();
    turns::turns_begun();
    turns::tallies_answered();
    turns::called_told();
    engine::start_numbers_rise::<Report>();
}

/// Only a start is refused: the Done of a stop says that it was completed.
pub fn stops()
    ensures { (s : Session) → MembersKeep s → StopsComplete s }
{
    turns::tallies_answered();
}

/// A start that a front-end refused was refused as NotReady, where its equipment takes no part in the run; and each
/// front-end's equipment takes part in a run whose start was not refused.
pub fn starts()
    ensures refused { (s : Session) → MembersKeep s → FrontsRefuse s }
    ensures taken { (s : Session) → MembersKeep s → FrontsTakePart s }
{
    turns::turns_begun();
    turns::tallies_answered();
    turns::called_told();
}

/// All of these laws: what the histories of a session's objects and its run files tell where each member keeps its contract.
pub fn composed()
    ensures { (s : Session) → MembersKeep s → IsComposed s }
{
    stops();
    starts();
    fronts();
    sets();
    files();
    reports();
}

/// What these laws ask is met by a session with a run, a front-end that sends an event, and a channel that ended.
pub fn is_met()
    ensures session { MembersKeep sample_session }
    ensures run { IsStoppedRun sample_session sample_run }
    ensures channel { ToldChannel sample_session sample_run sample_channel whole_file }
{}

/// The sample session meets all that these laws ask; and there are sessions each of which meets all but one of these things, and
/// for which one of the laws is false.
pub fn needs_each_premise()
    ensures met { (premise : SessionPremise) → MeetsSession premise sample_session }
    ensures buffers { FailsSession LegalBuffers unmarked_session FrontsStand }
    ensures engine { FailsSession LegalEngine made_up FilesHoldRuns }
    ensures names { FailsSession OwnNames spoken_for FilesHoldRuns }
    ensures members { FailsSession MemberCalls unknown_sender OnlyFrontsSent }
    ensures fronts { FailsSession KeptFronts other_made FrontsSent }
    ensures moments { FailsSession FrontMoments early_session StopsSet }
    ensures pauses { FailsSession FrontMoments early_pause PausesSet }
    ensures sets { FailsSession FrontNumbers nothing_set FrontsSet }
    ensures sets_alone { FailsSession FrontNumbers watching_front FrontsSet }
    ensures logger { FailsSession KeptLogger nothing_stored FilesHoldRuns }
    ensures events { FailsSession LoggerEvents other_told FilesHoldRuns }
    ensures analyzers { FailsSession KeptAnalyzers front_for_analyzer ReportsTold }
    ensures asked { FailsSession KeptAnalyzers asked_twice ReportsSo }
    ensures counted { FailsSession AnalyzerEvents (counted_session longer_event) ReportsWhole }
    ensures got { FailsSession AnalyzerEvents (counted_session longer_event) GotWhole }
    ensures fronts_there { FailsSession FrontsThere unknown_front FrontsTell }
    ensures analyzers_there { FailsSession AnalyzersThere unknown_analyzer ReportsTold }
    ensures logger_there { FailsSession LoggerThere unknown_logger ChannelsTold }
    ensures dump { FailsSession OneDump no_dump ChannelsTold }
{}

/// So does a session with two front-ends, two buffers with a channel each, a run that is paused and then stopped, and a start that
/// a front-end refuses.
pub fn is_met_paused()
    ensures session { MembersKeep paused_session }
    ensures run { IsStoppedRun paused_session pausing_run }
    ensures first { ToldChannel paused_session pausing_run (paused_channel 0) whole_file }
    ensures second { ToldChannel paused_session pausing_run (paused_channel 1) whole_file }
{}

/// So does a session with an analyzer, which sees its run through.
pub fn is_met_counted()
    ensures session { MembersKeep (counted_session sample_event) }
    ensures run { IsStoppedRun (counted_session sample_event) (counted_run sample_event) }
    ensures through { (told : ReportsRun (counted_session sample_event) (counted_run sample_event)
        (counted_analyzer sample_event) (counted_report sample_event)) ×
        SawThrough (counted_history 0) 3 told }
{}
