//! Laws of the histories of an engine: each function does nothing, and its contract is the law. They hold of every list of
//! calls whose replies are those of an engine that opened stopped and without clients.

ghost use Rattle.std.specs.Prelude.{◌++◌, ◌∷◌, ℕ, [], Ok, Err, None};
ghost use Rattle.daq_types.specs.declared.runs.RunState.TheVariants.{Stopped, Running};
ghost use Rattle.daq_types.specs.declared.runs.Transition.TheVariants.{Start, Pause, StartAbort};
ghost use Rattle.transitions.specs.declared.replies.BeginRefusal.TheVariants.{WrongState};
ghost use Rattle.transitions.specs.declared.replies.Polled.TheVariants.{Idle};
ghost use Rattle.transitions.specs.declared.replies.Progress.TheVariants.{Done};
ghost use Rattle.transitions.specs.declared.entry.EngineEntry.TheVariants.{Begin, Poll};
ghost use Rattle.transitions.specs.Engines.{engine_opening};
ghost use Rattle.transitions.specs.EngineHistories.{EngineHistory, IsLegalEngine};
ghost use Rattle.transitions.specs.TurnOrder.{TurnsInOrder};
ghost use Rattle.transitions.specs.EngineLaws.{CalledInOrder, StartNumbersRise, TurnsRepeat, TurnsAreBegun, AnswersCloseTurns, TalliesBelong};
ghost use Rattle.transitions.specs.EngineSamples.{second_refuser, second_counted, is_none, sheet_with, turn_for, yes_by, plain, with_dump, refused_by_second, out_of_order, before_the_answer, after_the_refusal, dump_given, both_answered, started, with_blank, blank_given, abort_answered, joins, dump_waits, called_off_by, done_with, stop_answered_no, refused_in_group, before_the_group, one_refused, refused_twice, one_turned};

use crate::report::ClientReport;

/// Turns are given in groups of equal sequence number, in rising number, each behind the answers of all groups before it.
/// Behind the first No to a start no client gets its first turn of it, and once each that had one has answered, all are
/// called for start-abort in the same way. The dump and each blank report are given once; Done names the first No and gives
/// the answers in order; the start numbers rise by one, and the states that are told are those that the transitions lead to.
pub fn follows<R: ClientReport>()
    ensures { (history : EngineHistory R) →
        IsLegalEngine R.is_blank engine_opening history → TurnsInOrder history }
{}

/// The called list has the clients that are registered for the transition, each once, by rising sequence number, and equal
/// ones in order of registration.
pub fn called_in_order()
    ensures { CalledInOrder }
{}

/// The start number of a start is above that of each start before it, so each number begins once.
pub fn start_numbers_rise<R: ClientReport>()
    ensures { StartNumbersRise R.is_blank }
{}

/// Where a client has a turn open, a poll gives the same turn again, without dump and blank report: no turn of another
/// transition comes before its answer.
pub fn turn_repeats<R: ClientReport>()
    ensures { TurnsRepeat R.is_blank }
{}

/// Each turn is one of the transition in progress, or of start-abort once its start was refused. It has the order of the begin
/// of that transition, and the dump, if it has one, is the one that this was begun with.
pub fn turn_begun<R: ClientReport>()
    ensures { TurnsAreBegun R.is_blank }
{}

/// An answer that is accepted is the one to the client's open turn, which is one of the transition in progress and has its
/// order.
pub fn answer_closes<R: ClientReport>()
    ensures { AnswersCloseTurns R.is_blank }
{}

/// Where Done is told, the transition's begin stands before it with no other begin and no other Done between, and the
/// tallies are the answers since.
pub fn tallies_belong<R: ClientReport>()
    ensures { TalliesBelong R.is_blank }
{}

/// What the law asks is more than nothing: histories with a refused start, with a dump, a report and a stop that was answered
/// by No, with a No in a group and with two of them, and one of each kind that it rules out.
pub fn tells_apart()
    ensures refusal { IsLegalEngine is_none engine_opening refused_by_second }
    ensures stop { IsLegalEngine is_none engine_opening stop_answered_no }
    ensures group { IsLegalEngine is_none engine_opening refused_in_group }
    ensures twice { IsLegalEngine is_none engine_opening refused_twice }
    ensures client { TurnsInOrder {R = ℕ} (joins 0 1 ∷ joins 0 2 ∷ []) → ⊥ }
    ensures order { TurnsInOrder {R = ℕ} (out_of_order ++ turn_for 1 Start ∷ []) → ⊥ }
    ensures unanswered { TurnsInOrder {R = ℕ} (before_the_answer ++ turn_for 1 Start ∷ []) → ⊥ }
    ensures refused { TurnsInOrder {R = ℕ} (after_the_refusal ++ turn_for 1 Start ∷ []) → ⊥ }
    ensures call_off { TurnsInOrder {R = ℕ} (after_the_refusal ++ turn_for 1 StartAbort ∷ []) → ⊥ }
    ensures dump { TurnsInOrder {R = ℕ} (dump_given ++ with_dump 1 ∷ []) → ⊥ }
    ensures withheld { TurnsInOrder {R = ℕ} (dump_waits ++ turn_for 0 Start ∷ []) → ⊥ }
    ensures blank { (report : ℕ) →
        TurnsInOrder {R = ℕ} (blank_given report ++ with_blank report ∷ []) → ⊥ }
    ensures outcome { TurnsInOrder {R = ℕ} (abort_answered ++ done_with (plain 0 ∷ plain 1 ∷ []) ∷ []) → ⊥ }
    ensures refuser { TurnsInOrder {R = ℕ}
        (abort_answered ++ called_off_by 1 (plain 0 ∷ plain 1 ∷ []) ∷ []) → ⊥ }
    ensures end { TurnsInOrder {R = ℕ} (before_the_answer ++ done_with [] ∷ []) → ⊥ }
    ensures tallies { TurnsInOrder {R = ℕ} (both_answered ++ done_with (plain 1 ∷ plain 0 ∷ []) ∷ []) → ⊥ }
    ensures counted { TurnsInOrder {R = ℕ}
        (abort_answered ++ called_off_by 0 (plain 0 ∷ plain 0 ∷ plain 1 ∷ []) ∷ []) → ⊥ }
    ensures state { TurnsInOrder {R = ℕ} (started ++ (1, Poll 0 (Idle Stopped)) ∷ []) → ⊥ }
    ensures allowed { TurnsInOrder {R = ℕ} ((0, Begin Pause (sheet_with None) (Ok 0)) ∷ []) → ⊥ }
    ensures other { TurnsInOrder {R = ℕ}
        ((0, Begin Pause (sheet_with None) (Err (WrongState Running))) ∷ []) → ⊥ }
    ensures number { TurnsInOrder {R = ℕ}
        (refused_by_second ++ (0, Begin Start (sheet_with None) (Ok 1)) ∷ []) → ⊥ }
    ensures second_group { TurnsInOrder {R = ℕ} (before_the_group ++ turn_for 0 Start ∷ []) → ⊥ }
    ensures late_turn { TurnsInOrder {R = ℕ} (one_refused ++ turn_for 2 Start ∷ []) → ⊥ }
    ensures early_abort { TurnsInOrder {R = ℕ} (one_refused ++ turn_for 0 StartAbort ∷ []) → ⊥ }
    ensures second_refuser { TurnsInOrder second_refuser → ⊥ }
    ensures second_counted { TurnsInOrder second_counted → ⊥ }
    ensures answered { TurnsInOrder {R = ℕ} (one_turned ++ yes_by 0 ∷ yes_by 0 ∷ []) → ⊥ }
    ensures unasked { TurnsInOrder {R = ℕ} (one_turned ++ yes_by 1 ∷ []) → ⊥ }
{}
