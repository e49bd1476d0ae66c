//! Laws of the calls of one caller on a buffer: each function does nothing, and its contract is the law.

ghost use Rattle.history_laws.specs.BufferLaws.{BufferLaws};
ghost use Rattle.std.specs.Prelude.{[]};
ghost use Rattle.daq_types.specs.Callers.{entries_by};
ghost use Rattle.buffer_core.specs.Window.{opening};
ghost use Rattle.buffer_core.specs.Histories.{IsLegal};
ghost use Rattle.history_laws.specs.OneCaller.{HaveRunSends, IsCallersPart, MarksAlone};
ghost use Rattle.history_laws.specs.CallerSamples.{ReadPremise, LegalHistory, OwnClients, CallersEntries, SentEvents, RunIsRead, MeetsPremise, IsReadRight, FailsWithout, IsUnsent, read_whole, found_nothing, got_by_other, call_left_out, other_event_told, not_drained, sent_in_none, sent_in_other, asked_level, IsNotEnded, ended_by_other, end_refused};
ghost use Rattle.history_laws.specs.SeenSamples.{SeenPremise, SeenLegal, SeenClients, SeenSends, SeenEntries, SeenPlaces, SeenGiven, SeenThrough, MeetsSeen, IsSeenRight, FailsToSee, got_of_none, event_not_told};
ghost use Rattle.history_laws.specs.RefusedCalls.{AttachesRefused, AttachesAdd, RequestsRefused, BeginsRefused};
ghost use Rattle.history_laws.specs.PausedRuns.{PausesAreSet, ResumesAreSet, PausesAreKept};
ghost use Rattle.history_laws.specs.CallerLaws.{ReadPlaces, ReadEvents, CutEvents, RunFileFits, SeenEvents, SeenSince, SentByCaller, SendIsAmong, SendStands, SendsStandInOrder, PartGoesOn, ReadGoesOn, CutGoesOn, OwnGoOn, PortTells, AttachesGiveOnce, SenderHasOwn, SenderSendsInRuns, SilentSendsInRuns, MembersFit, BegunIsEnded, SenderMakesNoMark};

use buffer_core::laws;

/// What the laws of buffers say.
fn of_buffers()
    ensures { BufferLaws }
{
    laws::delivers();
    laws::ordered();
    laws::goes_on();
    laws::numbers_free();
    laws::cancels();
    laws::sends_in_runs();
    laws::counts();
    laws::gives();
    laws::has_read();
    laws::reads_all();
}

/// A client that asked alone for all events of an id and mask before a run was begun, and was drained behind its end, got of
/// the places between the marks just those of the events that it asked for, in order.
pub fn reads_places()
    ensures { ReadPlaces }
{
    of_buffers();
}

/// And the events that it got at places between the marks are those events.
pub fn reads_events()
    ensures { ReadEvents }
{
    of_buffers();
}

/// A client that broke off before it was drained got a first part of them.
pub fn cut_short()
    ensures { CutEvents }
{
    of_buffers();
}

/// What a client gets in its life is so little that the run file of a run that it read has at most 2^62 bytes.
pub fn file_fits()
    ensures { RunFileFits }
{
    of_buffers();
}

/// A client that sees a run through, which another caller may begin and end, got under the run's start number just the
/// events between the marks that it asked for, where no caller sends but in runs.
pub fn sees_events()
    ensures { SeenEvents }
{
    of_buffers();
}

/// And just these events it got from the request on by which it saw the run through.
pub fn sees_since()
    ensures { SeenSince }
{
    of_buffers();
}

/// Where no caller sends but in runs, each event between the marks of a run is one that a caller sent in that run, and
/// stands among the events that this caller sent in it. And each event that a caller sent in a run stands between its marks,
/// at the place that was replied; so the events at these places are what it sent, in its order.
pub fn sent_by()
    ensures sent { SentByCaller }
    ensures among { SendIsAmong }
    ensures stands { SendStands }
    ensures order { SendsStandInOrder }
{
    of_buffers();
}

/// What these laws ask of each caller holds of one that only sends in runs, as a front-end, and of one that sends nothing
/// and whose clients are its own, as a logger.
pub fn fits_members()
    ensures own { SenderHasOwn }
    ensures sends { SenderSendsInRuns }
    ensures silent { SilentSendsInRuns }
    ensures all { MembersFit }
{}

/// What is one caller's part of a history stays it when calls of others follow; and what was read or cut stays so, and own
/// calls stay own, when the caller makes more calls.
pub fn goes_on()
    ensures part { PartGoesOn }
    ensures read { ReadGoesOn }
    ensures cut { CutGoesOn }
    ensures own { OwnGoOn }
{
    of_buffers();
}

/// Where one caller alone makes marks of runs in a buffer, a run that it began and then called to end was ended by it,
/// whatever that call was replied. Who only sends in runs makes no mark.
pub fn ends_runs()
    ensures ended { BegunIsEnded }
    ensures senders { SenderMakesNoMark }
{}

/// A buffer refuses a call of a caller only for a cause: an attach where 64 clients were attached; a request where its client
/// has one, where each caller's clients are its own; and a begin, where one caller alone makes marks, for its number or
/// where that caller left a run open. The clients that all callers attached are those that each of them did.
pub fn refuses_for_cause()
    ensures attaches { AttachesRefused }
    ensures sum { AttachesAdd }
    ensures requests { RequestsRefused }
    ensures begins { BeginsRefused }
{
    of_buffers();
}

/// Where one caller alone makes marks, a run that it left open is paused behind its call to pause it, whatever that was replied, and
/// no event of the run is accepted then before the caller resumes or ends it. No run is paused behind a call to resume it.
pub fn keeps_pauses()
    ensures pauses { PausesAreSet }
    ensures resumes { ResumesAreSet }
    ensures kept { PausesAreKept }
{
    of_buffers();
}

/// What a port tells its caller is the caller's part of the history.
pub fn port_tells()
    ensures { PortTells }
{
    of_buffers();
}

/// No attach gives a caller a client that it has, where no other caller detached one of it.
pub fn gives_once()
    ensures { AttachesGiveOnce }
{
    of_buffers();
}

/// What the law of a run that was read asks is met by a history; and each of its premises is needed: without it, there are
/// others of which what the law says is false.
pub fn needs_each_premise()
    ensures met { (premise : ReadPremise) → MeetsPremise premise read_whole }
    ensures right { IsReadRight read_whole }
    ensures legal { FailsWithout LegalHistory found_nothing }
    ensures clients { FailsWithout OwnClients got_by_other }
    ensures calls { FailsWithout CallersEntries call_left_out }
    ensures events { FailsWithout SentEvents other_event_told }
    ensures drained { FailsWithout RunIsRead not_drained }
{}

/// So it is with the law of a run that was seen through.
pub fn needs_each_to_see()
    ensures met { (premise : SeenPremise) → MeetsSeen premise read_whole }
    ensures right { IsSeenRight read_whole }
    ensures legal { FailsToSee SeenLegal found_nothing }
    ensures clients { FailsToSee SeenClients got_by_other }
    ensures sends { FailsToSee SeenSends got_of_none }
    ensures calls { FailsToSee SeenEntries call_left_out }
    ensures places { FailsToSee SeenPlaces other_event_told }
    ensures given { FailsToSee SeenGiven event_not_told }
    ensures through { FailsToSee SeenThrough not_drained }
{}

/// And with the law of who sent an event: an event that was sent in no run, and one of another run, stand between the
/// marks of a run in which no caller sent them; and a caller's part is none any more when the caller makes a call.
/// And with the law of ends: a run that a caller began and called to end was not ended by it where another caller ended it,
/// or where the replies are no buffer's.
pub fn needs_runs()
    ensures sends { IsLegal (opening 48) sent_in_none × IsUnsent sent_in_none }
    ensures legal { HaveRunSends sent_in_other × IsUnsent sent_in_other }
    ensures silent { IsCallersPart [] 1 [] [] × ¬ (IsCallersPart asked_level 1 [] []) }
    ensures alone { IsLegal (opening 48) ended_by_other × IsNotEnded (entries_by 1 ended_by_other) }
    ensures gate { MarksAlone end_refused 1 × IsNotEnded (entries_by 1 end_refused) }
{}
