//! Laws of the histories of a buffer: each function does nothing, and its contract is the law. They hold of every list
//! of calls, whoever made them, whose replies are those of a buffer that opened empty.

ghost use Rattle.std.specs.Prelude.{◌≡◌, ◌≢◌, ◌+◌, ◌^◌, ◌<◌, ◌++◌, ◌∷◌, ℕ, List, [], length, Some, None, Ok, Err};
ghost use Rattle.daq_types.specs.declared.events.Event.{Event};
ghost use Rattle.event.specs.Events.{slot_size};
ghost use Rattle.buffer_core.specs.declared.gate.RunGate.{RunGate};
ghost use Rattle.buffer_core.specs.declared.replies.Received.TheVariants.{Got, Empty};
ghost use Rattle.buffer_core.specs.declared.entry.BufferEntry.{BufferEntry};
ghost use Rattle.buffer_core.specs.declared.replies.RequestRefusal.{RequestRefusal};
ghost use Rattle.buffer_core.specs.declared.entry.BufferEntry.TheVariants.{Attach, Detach, Cancel, SendInRun, Receive};
ghost use Rattle.buffer_core.specs.Window.{opening};
ghost use Rattle.buffer_core.specs.Histories.{History, IsLegal, replay};
ghost use Rattle.buffer_core.specs.Points.{Life, sent, count_at, life_at, request_at, past_of};
ghost use Rattle.buffer_core.specs.Delivered.{Delivers, FailsAlone, InOrder, Complete, HeldBack, Bounded};
ghost use Rattle.buffer_core.specs.Runs.{KeepsRuns, begun_at, ended_at, segment, events_between};
ghost use Rattle.buffer_core.specs.Continued.{sent_in, RepliesCount, GivesSent};
ghost use Rattle.buffer_core.specs.Readers.{KeepsLife, HasReadBelow, ReadsAll, places_got, places_of, among, wanted};
ghost use Rattle.buffer_core.specs.Ports.{Access, GotEvent, PortCalled, IsGivenAt, IsNewNumber, knowing};
ghost use Rattle.buffer_core.specs.Searches.{FoundIsFirst, FirstIsFound, NotFoundIsNone, NoneIsNotFound, OwedIsLeast, LeastIsOwed, NotOwedIsNone, NoneIsNotOwed, DropIsLeast, LeastIsDrop};
ghost use Rattle.buffer_core.specs.Samples.{refused_once, got_twice, left_out, reached_back, refused_for_nobody, got_too_much, got_too_much_together, got_with_other_start, got_of_cancelled, missed, refused_for_optional, refused_at_second, refused_for_second, dropped, refused_for_size, refused_for_id, refused_as_too_large, refused_as_spent, refused_with_other_total, refused_in_run, refused_with_other_gate, refused_without_run, sent_behind, sent_between, sent_in_pause, begun_twice, access_after, given_once, given_and_detached, given_twice};

/// Each client gets only what its requests want, in order and once, and all of what its requests for all events want;
/// a send is refused for its cause, which its reply names, and as full exactly where such an event is still to be got.
pub fn delivers()
    ensures { (size : ℕ) → (history : History) → IsLegal (opening size) history
        → Delivers size history }
{}

/// The events of a run stand between its begin and its end, none was sent while it was paused, and no other run's
/// stands there.
pub fn ordered()
    ensures { (size : ℕ) → (history : History) → IsLegal (opening size) history
        → KeepsRuns history }
{}

/// What was sent stays when a history goes on, and so do the events between the marks of a run that ended.
pub fn goes_on()
    ensures events { (history more : History) → sent (past_of (history ++ more))
        ≡ sent (past_of history) ++ sent_in more }
    ensures run { (size : ℕ) → (history more : History) → (start place : ℕ) →
        IsLegal (opening size) (history ++ more) →
        ended_at (past_of history) start ≡ Some place →
        segment (history ++ more) start ≡ segment history start }
{}

/// The number that an attach gives is none of a client that lives: none that an attach gave and no detach took back since,
/// of whichever caller.
pub fn numbers_free()
    ensures { (size : ℕ) → (before after : History) → (caller : ℕ) → (name : List ℕ) →
        (client : ℕ) →
        IsLegal (opening size) (before ++ (caller, Attach name (Ok client)) ∷ after) →
        life_at (past_of before) client ≡ None }
{}

/// A cancel that is refused, at a client that lives, finds no request of that number.
pub fn cancels()
    ensures { (size : ℕ) → (before after : History) → (caller client number : ℕ) →
        (refusal : RequestRefusal) → (life : Life) →
        IsLegal (opening size) (before ++ (caller, Cancel client number (Err refusal)) ∷ after) →
        life_at (past_of before) client ≡ Some life →
        request_at (past_of before) client number ≡ None }
{}

/// No run has the start number 0, under which the events stand that were sent in no run.
pub fn sends_in_runs()
    ensures { (size : ℕ) → (before after : History) → (caller start stated place : ℕ) →
        (event : Event) →
        IsLegal (opening size)
        (before ++ (caller, SendInRun start stated event (Ok place)) ∷ after) →
        start ≢ 0 }
{}

/// Where a reply tells how many events were accepted, so many were sent before.
pub fn counts()
    ensures { (size : ℕ) → (before after : History) → (caller : ℕ) → (entry : BufferEntry) →
        IsLegal (opening size) (before ++ (caller, entry) ∷ after) →
        RepliesCount (count_at (past_of before)) entry }
{}

/// A client that gets a place gets the event that was sent there, with its start number.
pub fn gives()
    ensures { (size : ℕ) → (before after : History) → (caller client room place start : ℕ) →
        IsLegal (opening size) (before ++ (caller, Receive client room (Got place start)) ∷ after) →
        GivesSent (replay (opening size) before) (sent (past_of before)) place start }
{}

/// A client that got a place has read so far, and one that found nothing has read all; it never goes back.
pub fn has_read()
    ensures got { (size : ℕ) → (before after : History) → (caller client room place start : ℕ) →
        IsLegal (opening size) (before ++ (caller, Receive client room (Got place start)) ∷ after) →
        KeepsLife client after →
        HasReadBelow (before ++ (caller, Receive client room (Got place start)) ∷ after) client
        (place + 1) }
    ensures drained { (size : ℕ) → (before after : History) → (caller client room : ℕ) →
        (gate : RunGate) → (last : ℕ) →
        IsLegal (opening size) (before ++ (caller, Receive client room (Empty gate last)) ∷ after) →
        KeepsLife client after →
        HasReadBelow (before ++ (caller, Receive client room (Empty gate last)) ∷ after) client
        (count_at (past_of before)) }
{}

/// A client that reads by one request for all events gets, of the places from the request on that it has read, just
/// those of the events that the request wants, in order; so too of the places between the marks of a run.
pub fn reads_all()
    ensures between { (size : ℕ) → (history : History) → (client id mask from to : ℕ) →
        IsLegal (opening size) history →
        ReadsAll history client id mask from to →
        among (events_between (Some from) (Some to) (sent (past_of history)))
        (places_got history client)
        ≡ places_of (wanted id mask
        (events_between (Some from) (Some to) (sent (past_of history)))) }
    ensures run { (size : ℕ) → (history : History) → (client id mask start from to : ℕ) →
        IsLegal (opening size) history →
        ReadsAll history client id mask from to →
        begun_at (past_of history) start ≡ Some from →
        ended_at (past_of history) start ≡ Some to →
        among (segment history start) (places_got history client)
        ≡ places_of (wanted id mask (segment history start)) }
{}

/// A receive finds the event of the least kept place, from the one on at which the client goes on, that a living request of
/// the client asks for, of whichever kind; and where it finds none, there is none.
pub fn finds_first()
    ensures found { FoundIsFirst }
    ensures first { FirstIsFound }
    ensures none { NotFoundIsNone }
    ensures empty { NoneIsNotFound }
{}

/// What stands in the way of a send is the least place that is owed, of those that would have to go, and there the least
/// client that it is owed to.
pub fn owes_least()
    ensures owed { OwedIsLeast }
    ensures least { LeastIsOwed }
    ensures none { NotOwedIsNone }
    ensures empty { NoneIsNotOwed }
{}

/// As few events go for a new one as have to, so that its slot fits.
pub fn drops_least()
    ensures dropped { DropIsLeast }
    ensures least { LeastIsDrop }
{}

/// What the laws ask is more than nothing: a history in which a send is refused as full is legal, and of each part of
/// the law of runs one is ruled out: an event of a run sent behind its end, one of another run sent between its marks,
/// one sent in a pause, and a run that begins twice.
pub fn tells_apart()
    ensures refusal { IsLegal (opening 48) refused_once }
    ensures behind { KeepsRuns sent_behind → ⊥ }
    ensures between { KeepsRuns sent_between → ⊥ }
    ensures pause { KeepsRuns sent_in_pause → ⊥ }
    ensures twice { KeepsRuns begun_twice → ⊥ }
{}

/// Of each part of what a buffer delivers, histories that fail that part alone.
pub fn fails_alone()
    // What is got: twice, from before its request, by a request that was cancelled, with another
    // start number.
    ensures twice { (size : ℕ) → FailsAlone InOrder size got_twice }
    ensures before { (size : ℕ) → FailsAlone InOrder size reached_back }
    ensures cancelled { (size : ℕ) → FailsAlone InOrder size got_of_cancelled }
    ensures start { (size : ℕ) → FailsAlone InOrder size got_with_other_start }

    // What is not got: passed over for a later event, and for none.
    ensures less { FailsAlone Complete 48 left_out }
    ensures missed { (size : ℕ) → FailsAlone Complete size missed }

    // Who is waited for: nobody, one who need not get all, not the first event in the way, not the
    // first client; and an event that goes in place of a refusal.
    ensures nobody { (size : ℕ) → FailsAlone HeldBack size refused_for_nobody }
    ensures optional { (size : ℕ) → FailsAlone HeldBack size refused_for_optional }
    ensures place { FailsAlone HeldBack 48 refused_at_second }
    ensures client { FailsAlone HeldBack 24 refused_for_second }
    ensures owed { FailsAlone HeldBack 24 dropped }

    // Why a send is refused: for its header, its id, its length or the room of all, which are right,
    // with another room than that of all, for a run that is on, with another gate, and in no run.
    ensures size { (size : ℕ) → FailsAlone HeldBack size refused_for_size }
    ensures id { (size : ℕ) → FailsAlone HeldBack size refused_for_id }
    ensures large { (size : ℕ) → FailsAlone HeldBack size refused_as_too_large }
    ensures spent { (size : ℕ) → FailsAlone HeldBack size refused_as_spent }
    ensures total { (size : ℕ) → FailsAlone HeldBack size refused_with_other_total }
    ensures run { (size : ℕ) → FailsAlone HeldBack size refused_in_run }
    ensures gate { (size : ℕ) → FailsAlone HeldBack size refused_with_other_gate }
    ensures no_run { (size : ℕ) → FailsAlone HeldBack size refused_without_run }

    // How much is got: by one event, and by two together.
    ensures much { (size : ℕ) → (event : Event) →
        2 ^ 62 < slot_size event →
        FailsAlone Bounded size (got_too_much event) }
    ensures together { (size : ℕ) → (first second : Event) →
        2 ^ 62 < slot_size first + slot_size second →
        FailsAlone Bounded size (got_too_much_together first second) }
{}

/// What a port tells of the numbers that it gives is more than nothing: a caller that has a client
/// is not given its number again, nor a third time where another caller detached it once; but it
/// may be where each such client was detached.
pub fn tells_numbers_apart()
    ensures again { IsNewNumber (access_after given_once []) 0 → ⊥ }
    ensures third { IsNewNumber (access_after given_twice (0 ∷ [])) 0 → ⊥ }
    ensures other { IsNewNumber (access_after given_once []) 1 }
    ensures detached { IsNewNumber (access_after given_and_detached []) 0 }
    ensures taken_back { IsNewNumber (access_after given_once (0 ∷ [])) 0 }
{}

/// What a port's calls tell of the caller's clients: an attach gives one, which the caller has until
/// it detaches it. Where no client of the caller is known to be detached by another, each attach
/// gives a number that none of the caller's clients has.
pub fn keeps_numbers()
    ensures given { (before after : Access) → (name : List ℕ) → (client : ℕ) →
        (got : List GotEvent) →
        PortCalled before after (Attach name (Ok client)) got →
        IsGivenAt after.own (length before.own) client }
    ensures stays { (before after : Access) → (entry : BufferEntry) → (got : List GotEvent) →
        (call client : ℕ) →
        PortCalled before after entry got →
        (entry ≡ Detach client (Ok tt) → ⊥) →
        IsGivenAt before.own call client →
        IsGivenAt after.own call client }
    ensures differ { (before after : Access) → (number call client : ℕ) →
        IsNewNumber (knowing before after) number →
        after.taken_back ≡ [] →
        IsGivenAt before.own call client →
        client ≢ number }
{}
