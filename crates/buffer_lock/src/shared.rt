// A buffer that threads share.
ghost use Rattle.std.specs.Prelude.{◌≡◌, ◌<◌, ◌≤◌, ℕ, [], None, length, All, IfOk, IfErr, OnOk, OnErr};
ghost use Rattle.daq_types.specs.Callers.{entries_by};
ghost use Rattle.buffer_core.specs.Window.{IsWindow, opening};
ghost use Rattle.buffer_core.specs.Delivered.{Delivers};
ghost use Rattle.buffer_core.specs.Runs.{KeepsRuns};
ghost use Rattle.buffer_core.specs.Histories.{IsLegal, replay};
ghost use Rattle.turn_lock.specs.Passes.{passes_of, number_of, seen_by, held_by, found_by, IsOf};
ghost use Rattle.turn_lock.specs.History.{IsPartOf, HadTurnThen, entries_below};
ghost use Rattle.turn_lock.specs.Closing.{AreComplete, IsLeastMissing, opened_with, history_of};
ghost use Rattle.turn_lock.specs.Roster.{items_of, numbers_of, numbers_below, ArePassesOf, AreIdle, AreFresh};
ghost use Rattle.turn_lock.specs.Entered.{Enters, FindsTaken};

use crate::locked::Locked;
use buffer_core::EventBuffer;
use buffer_core::laws::{delivers, ordered};
use daq_types::NoMemory;
use std::alloc::Global;
use std::sync::Wait;
use turn_lock::{Call, Closed, MissingPass, Pass, Passes, Taken, Turns};

/// One caller's place at a shared buffer, with its number.
pub type BufferPass<B> = Pass<Locked<B>>;

/// Passes of one shared buffer.
pub type BufferPasses<B> = Passes<Locked<B>>;

/// A shared buffer that has ended: the buffer, and for contracts the whole history of its calls.
pub type BufferClosed<B> = Closed<Locked<B>>;

/// An event buffer that threads share, each with a pass. A call takes the turn, waits for it where it must, makes the
/// call of `EventBuffer` of that name, and appends the call with its reply to the one history. The calls stand in `calls`.
#[derive(Drop)]
pub struct SharedBuffer<B: EventBuffer> {
    turns: Turns<Locked<B>>,
}

impl<B: EventBuffer + Drop> SharedBuffer<B> {
    ghost use Rattle.buffer_lock.specs.SharedBuffers.{lock_of, first_buffer};

    /// Shares the buffer among this many passes, 1 to 256, which are numbered from 0 on. The lock's memory is taken
    /// here, and by no other call. Where there is none the buffer is dropped.
    pub fn new(
        alloc: Global,
        buffer: B,
        passes: u32,
    ) -> Result<(SharedBuffer<B>, BufferPasses<B>), NoMemory>
        requires some { 0 < passes }
        requires few { passes ≤ 256 }
        ensures buffer { IfOk result (λ made. first_buffer made.0 ≡ buffer) }
        ensures count { IfOk result (λ made. passes_of (lock_of made.0) ≡ passes) }
        ensures own { IfOk result (λ made. ArePassesOf (lock_of made.0) made.1) }
        ensures numbers { IfOk result (λ made. numbers_of made.1 ≡ numbers_below passes) }
        ensures fresh { IfOk result (λ made. AreFresh made.1) }
    {
        let (turns, passes) = Turns::new(alloc, Locked { buffer }, passes)?;
        Ok((SharedBuffer { turns }, passes))
    }
}

impl<B: EventBuffer> SharedBuffer<B> {
    ghost use Rattle.buffer_lock.specs.SharedBuffers.{lock_of, first_buffer};

    /// Makes a call on the buffer in one turn, one of `calls`, and waits for the turn where it must.
    pub fn call<R: Wait, C: Call<Locked<B>>>(
        &self,
        rt: &R,
        pass: &mut BufferPass<B>,
        call: C,
        into: &mut C::Into,
    ) -> C::Reply
        requires own { IsOf (lock_of self.now) pass.old }
        requires idle { held_by pass.old ≡ None }
        requires may { C.may call into.old (number_of pass.old) }
        ensures entered { Enters (lock_of self.now) (C.entry call into.old result into.new)
            pass.old pass.new }
        ensures opens { IsWindow (B.window (first_buffer self.now)) }
        ensures legal { IsLegal (B.window (first_buffer self.now)) (seen_by pass.new) }
        ensures tells { C.tells call into.old result into.new
            (replay (B.window (first_buffer self.now)) (seen_by pass.new)) }
    {
        self.turns.call(rt, pass, call, into)
    }

    /// As `call`, in one try for the turn. Where that is another pass's, the buffer is not called, and there is no entry.
    pub fn try_call<C: Call<Locked<B>> + Drop>(
        &self,
        pass: &mut BufferPass<B>,
        call: C,
        into: &mut C::Into,
    ) -> Result<C::Reply, Taken>
        requires own { IsOf (lock_of self.now) pass.old }
        requires idle { held_by pass.old ≡ None }
        requires may { C.may call into.old (number_of pass.old) }
        ensures entered { IfOk result (λ reply. Enters (lock_of self.now)
            (C.entry call into.old reply into.new) pass.old pass.new) }
        ensures once { OnOk result (found_by pass.new ≡ found_by pass.old) }
        ensures opens { OnOk result (IsWindow (B.window (first_buffer self.now))) }
        ensures legal { OnOk result (IsLegal (B.window (first_buffer self.now))
            (seen_by pass.new)) }
        ensures tells { IfOk result (λ reply. C.tells call into.old reply into.new
            (replay (B.window (first_buffer self.now)) (seen_by pass.new))) }
        ensures taken { IfErr result (λ taken. FindsTaken (lock_of self.now) taken.holder
            pass.old pass.new) }
        ensures untouched { OnErr result (into.new ≡ into.old) }
    {
        match self.turns.try_call(pass, call, into) {
            Ok(reply) => Ok(reply),
            Err(taken) => Err(taken),
        }
    }

    /// The lock, by which a pass can meet what another has seen.
    pub fn lock(&self) -> &Turns<Locked<B>>
        ensures { result.now ≡ lock_of self.now }
    {
        &self.turns
    }

    /// Ends the sharing, for which all passes are given back. Where one is missing, all comes back.
    pub fn close(
        self,
        passes: BufferPasses<B>,
    ) -> Result<BufferClosed<B>, (MissingPass, SharedBuffer<B>, BufferPasses<B>)>
        requires own { ArePassesOf (lock_of self) passes }
        requires idle { AreIdle passes }

        // Each reply in the history is the one that the buffer gave at that point, from the one that was shared on, and the
        // buffer is what it was left as.
        ensures opened { IfOk result (λ closed. (opened_with closed).buffer
            ≡ first_buffer self) }
        ensures legal { IfOk result (λ closed. IsLegal (B.window (opened_with closed).buffer)
            (history_of closed)) }
        ensures replayed { IfOk result (λ closed. B.window closed.value.buffer
            ≡ replay (B.window (opened_with closed).buffer) (history_of closed)) }

        // Where it was shared as it opened, what holds of each history of a buffer holds of this one.
        ensures delivers { IfOk result (λ closed. (size : ℕ) →
            B.window (opened_with closed).buffer ≡ opening size
            → Delivers size (history_of closed)) }
        ensures runs { IfOk result (λ closed. (size : ℕ) →
            B.window (opened_with closed).buffer ≡ opening size
            → KeepsRuns (history_of closed)) }

        // What each pass has seen is a beginning of it, and the entries with a pass's number are its own.
        ensures parts { IfOk result (λ closed. All (λ pass. IsPartOf (history_of closed)
            (number_of pass) (seen_by pass)) (items_of passes)) }
        ensures known { IfOk result (λ closed. (n : ℕ) → passes_of (lock_of self) ≤ n
            → entries_by n (history_of closed) ≡ []) }
        ensures length { IfOk result (λ closed. length (history_of closed)
            ≡ entries_below (passes_of (lock_of self)) (history_of closed)) }

        // Each number that a failed try of a pass found had the turn at that moment of it.
        ensures found { IfOk result (λ closed. All (λ pass. All (HadTurnThen (history_of closed))
            (found_by pass)) (items_of passes)) }

        ensures complete { IfOk result (λ closed. AreComplete (numbers_of passes)
            (passes_of (lock_of self))) }
        ensures missing { IfErr result (λ refusal. IsLeastMissing (numbers_of passes)
            (passes_of (lock_of self)) refusal.0.number) }
        ensures same { IfErr result (λ refusal. (refusal.1 ≡ self) × (refusal.2 ≡ passes)) }
    {
        delivers();
        ordered();
        let SharedBuffer { turns } = self;
        match turns.close(passes) {
            Ok(closed) => Ok(closed),
            Err((missing, turns, passes)) => Err((missing, SharedBuffer { turns }, passes)),
        }
    }
}
