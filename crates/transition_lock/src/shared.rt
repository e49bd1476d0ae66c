// An engine that threads share.
ghost use Rattle.std.specs.Prelude.{◌≡◌, ◌<◌, ◌≤◌, ℕ, [], None, length, All, IfOk, IfErr};
ghost use Rattle.daq_types.specs.Callers.{entries_by, main_caller};
ghost use Rattle.transitions.specs.declared.entry.EngineEntry.TheVariants.{Register as register_of, Begin as begin_of, Poll as poll_of, Answer as answer_of, Check as check_of, Close as close_of};
ghost use Rattle.transitions.specs.EngineCalls.{without_return};
ghost use Rattle.transitions.specs.EngineHistories.{engine_replay};
ghost use Rattle.member_model.specs.RunEngines.{IsSheet, IsFairTurn, IsLegalEngine};
ghost use Rattle.turn_lock.specs.Passes.{passes_of, number_of, seen_by, held_by, IsOf};
ghost use Rattle.turn_lock.specs.History.{IsPartOf, entries_below};
ghost use Rattle.turn_lock.specs.Closing.{AreComplete, IsLeastMissing, opened_with, history_of};
ghost use Rattle.turn_lock.specs.Roster.{items_of, numbers_of, numbers_below, ArePassesOf, AreIdle, AreFresh};
ghost use Rattle.turn_lock.specs.Entered.{Enters};

use crate::calls::{AnswerTurn, Begin, Check, Close, Poll, Register};
use crate::locked::LockedEngine;
use daq_types::{Name, NoMemory, Transition};
use member_model::{Answer, Engine, Polled, Sheet, Tallies};
use std::alloc::Global;
use std::sync::Wait;
use transitions::{BeginRefusal, InProgress, NotYourTurn, Progress, RegisterRefusal, Sequences};
use turn_lock::{Call, Closed, MissingPass, Pass, Passes, Turns};

/// One caller's place at a shared engine, with its number. Number 0 is the main thread's.
pub type EnginePass = Pass<LockedEngine>;

/// Passes of one shared engine.
pub type EnginePasses = Passes<LockedEngine>;

/// A shared engine that has ended: the engine, and for contracts the whole history of its calls.
pub type EngineClosed = Closed<LockedEngine>;

/// An engine that threads share, each with a pass. A call takes the turn, waits for it where it must, makes the call of
/// `Engine` of that name, and appends the call with its reply to the one history. The main thread alone registers clients,
/// begins transitions, checks them and closes the engine.
#[derive(Drop)]
pub struct SharedEngine {
    turns: Turns<LockedEngine>,
}

impl SharedEngine {
    ghost use Rattle.transition_lock.specs.SharedEngines.{engine_lock_of, first_engine};

    /// Shares the engine among this many passes, 1 to 256, which are numbered from 0 on. The lock's memory is taken here, and
    /// by no other call. Where there is none the engine is dropped.
    pub fn new(
        alloc: Global,
        engine: Engine,
        passes: u32,
    ) -> Result<(SharedEngine, EnginePasses), NoMemory>
        requires some { 0 < passes }
        requires few { passes ≤ 256 }
        ensures first { IfOk result (λ made. first_engine made.0 ≡ engine) }
        ensures count { IfOk result (λ made. passes_of (engine_lock_of made.0) ≡ passes) }
        ensures own { IfOk result (λ made. ArePassesOf (engine_lock_of made.0) made.1) }
        ensures numbers { IfOk result (λ made. numbers_of made.1 ≡ numbers_below passes) }
        ensures fresh { IfOk result (λ made. AreFresh made.1) }
    {
        let (turns, passes) = Turns::new(alloc, LockedEngine { engine }, passes)?;
        Ok((SharedEngine { turns }, passes))
    }

    /// Makes a call on the engine in one turn.
    #[inline(always)]
    fn call<R: Wait, C: Call<LockedEngine>>(
        &self,
        rt: &R,
        pass: &mut EnginePass,
        call: C,
        into: &mut C::Into,
    ) -> C::Reply
        requires own { IsOf (engine_lock_of self.now) pass.old }
        requires idle { held_by pass.old ≡ None }
        requires may { C.may call into.old (number_of pass.old) }
        ensures entered { Enters (engine_lock_of self.now) (C.entry call into.old result into.new)
            pass.old pass.new }
        ensures legal { IsLegalEngine (first_engine self.now) (seen_by pass.new) }
        ensures tells { (last : _) × C.tells call into.old result into.new last }
    {
        self.turns.call(rt, pass, call, into)
    }

    /// As `Engine::register`, by the main thread.
    pub fn register<R: Wait>(
        &self,
        rt: &R,
        pass: &mut EnginePass,
        name: Name,
        sequences: Sequences,
        wants_dump: bool,
        wants_report: bool,
    ) -> Result<u32, RegisterRefusal>
        requires main { number_of pass.old ≡ main_caller }
        requires own { IsOf (engine_lock_of self.now) pass.old }
        requires idle { held_by pass.old ≡ None }
        ensures entered { Enters (engine_lock_of self.now)
            (register_of name sequences wants_dump wants_report result) pass.old pass.new }
        ensures legal { IsLegalEngine (first_engine self.now) (seen_by pass.new) }
    {
        let call = Register {
            name,
            sequences,
            wants_dump,
            wants_report,
        };
        self.call(rt, pass, call, &mut ())
    }

    /// As `Engine::begin`, by the main thread.
    pub fn begin<R: Wait>(
        &self,
        rt: &R,
        pass: &mut EnginePass,
        transition: Transition,
        sheet: Sheet,
    ) -> Result<u32, (BeginRefusal, Sheet)>
        requires main { number_of pass.old ≡ main_caller }
        requires own { IsOf (engine_lock_of self.now) pass.old }
        requires idle { held_by pass.old ≡ None }
        requires sheet { IsSheet sheet }
        ensures entered { Enters (engine_lock_of self.now)
            (begin_of transition sheet (without_return result)) pass.old pass.new }
        ensures legal { IsLegalEngine (first_engine self.now) (seen_by pass.new) }
        ensures back { IfErr result (λ refused. refused.1 ≡ sheet) }
    {
        self.call(rt, pass, Begin { transition, sheet }, &mut ())
    }

    /// As `Engine::poll`.
    pub fn poll<R: Wait>(&self, rt: &R, pass: &mut EnginePass, client: u32) -> Polled
        requires own { IsOf (engine_lock_of self.now) pass.old }
        requires idle { held_by pass.old ≡ None }
        ensures entered { Enters (engine_lock_of self.now) (poll_of client result) pass.old pass.new }
        ensures legal { IsLegalEngine (first_engine self.now) (seen_by pass.new) }
        ensures fair { IsFairTurn result }
    {
        self.call(rt, pass, Poll { client }, &mut ())
    }

    /// As `Engine::answer`.
    pub fn answer<R: Wait>(
        &self,
        rt: &R,
        pass: &mut EnginePass,
        client: u32,
        answer: Answer,
    ) -> Result<(), (NotYourTurn, Answer)>
        requires own { IsOf (engine_lock_of self.now) pass.old }
        requires idle { held_by pass.old ≡ None }
        ensures entered { Enters (engine_lock_of self.now)
            (answer_of client answer (without_return result)) pass.old pass.new }
        ensures legal { IsLegalEngine (first_engine self.now) (seen_by pass.new) }
        ensures back { IfErr result (λ refused. refused.1 ≡ answer) }
    {
        self.call(rt, pass, AnswerTurn { client, answer }, &mut ())
    }

    /// As `Engine::check`, by the main thread.
    pub fn check<R: Wait>(&self, rt: &R, pass: &mut EnginePass, tallies: &mut Tallies) -> Progress
        requires main { number_of pass.old ≡ main_caller }
        requires own { IsOf (engine_lock_of self.now) pass.old }
        requires idle { held_by pass.old ≡ None }
        requires empty { tallies.old ≡ [] }
        ensures entered { Enters (engine_lock_of self.now)
            (check_of result tallies.new) pass.old pass.new }
        ensures legal { IsLegalEngine (first_engine self.now) (seen_by pass.new) }
    {
        self.call(rt, pass, Check, tallies)
    }

    /// As `Engine::close`, by the main thread.
    pub fn close<R: Wait>(&self, rt: &R, pass: &mut EnginePass) -> Result<(), InProgress>
        requires main { number_of pass.old ≡ main_caller }
        requires own { IsOf (engine_lock_of self.now) pass.old }
        requires idle { held_by pass.old ≡ None }
        ensures entered { Enters (engine_lock_of self.now) (close_of result) pass.old pass.new }
        ensures legal { IsLegalEngine (first_engine self.now) (seen_by pass.new) }
    {
        self.call(rt, pass, Close, &mut ())
    }

    /// The lock, by which a pass can meet what another has seen.
    pub fn lock(&self) -> &Turns<LockedEngine>
        ensures { result.now ≡ engine_lock_of self.now }
    {
        &self.turns
    }

    /// Ends the sharing, for which all passes are given back. Where one is missing, all comes back.
    pub fn close_lock(
        self,
        passes: EnginePasses,
    ) -> Result<EngineClosed, (MissingPass, SharedEngine, EnginePasses)>
        requires own { ArePassesOf (engine_lock_of self) passes }
        requires idle { AreIdle passes }

        // Each reply in the history is the one that the engine gave at that point, from the one that was shared on, and the
        // engine is what it was left as.
        ensures opened { IfOk result (λ closed. (opened_with closed).engine ≡ first_engine self) }
        ensures legal { IfOk result (λ closed. IsLegalEngine (opened_with closed).engine
            (history_of closed)) }
        ensures replayed { IfOk result (λ closed. closed.value.engine
            ≡ engine_replay (opened_with closed).engine (history_of closed)) }

        // What each pass has seen is a beginning of it, and the entries with a pass's number are its own.
        ensures parts { IfOk result (λ closed. All (λ pass. IsPartOf (history_of closed)
            (number_of pass) (seen_by pass)) (items_of passes)) }
        ensures known { IfOk result (λ closed. (n : ℕ) → passes_of (engine_lock_of self) ≤ n
            → entries_by n (history_of closed) ≡ []) }
        ensures length { IfOk result (λ closed. length (history_of closed)
            ≡ entries_below (passes_of (engine_lock_of self)) (history_of closed)) }

        ensures complete { IfOk result (λ closed. AreComplete (numbers_of passes)
            (passes_of (engine_lock_of self))) }
        ensures missing { IfErr result (λ refusal. IsLeastMissing (numbers_of passes)
            (passes_of (engine_lock_of self)) refusal.0.number) }
        ensures same { IfErr result (λ refusal. (refusal.1 ≡ self) × (refusal.2 ≡ passes)) }
    {
        let SharedEngine { turns } = self;
        match turns.close(passes) {
            Ok(closed) => Ok(closed),
            Err((missing, turns, passes)) => Err((missing, SharedEngine { turns }, passes)),
        }
    }
}
