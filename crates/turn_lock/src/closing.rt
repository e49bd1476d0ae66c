// The end of a lock.
ghost use Rattle.std.specs.Prelude.{◌≡◌, ℕ, ◌<◌, ◌≤◌, [], length, All, Contains, IfOk, IfErr, IfSome, IfNone, None, IsTrue, ◌↔◌, ◌==◌};
ghost use Rattle.std.specs.List.{list_any};

use crate::lock::{Pass, Turns};
use crate::object::Machine;
use crate::roster::Passes;
use std::snapshot::Snapshot;

/// A lock that has ended: the last value, and for contracts the first value and the whole history.
#[derive(Drop)]
pub struct Closed<M: Machine> {
    pub value: M,
    first: Snapshot<M>,
    last: Snapshot<Pass<M>>,
}

/// The least number whose pass was not there as a lock was to end.
#[derive(Clone, Copy, Debug, PartialEq, Eq)]
pub struct MissingPass {
    pub number: u32,
}

impl<M: Machine> Passes<M> {
    ghost use Rattle.turn_lock.specs.Passes.{number_of};
    ghost use Rattle.turn_lock.specs.Roster.{items_of, numbers_of};
    ghost use Rattle.turn_lock.specs.Closing.{AreComplete, IsLeastMissing};

    /// Whether the pass with this number is in the list.
    pub fn contains(&self, number: u32) -> bool
        ensures { IsTrue result ↔ Contains (numbers_of self.now) number }
    {
        self.any_numbered(number)
    }

    fn any_numbered(&self, number: u32) -> bool
        ensures { result ≡ list_any (λ pass. number_of pass == number) (items_of self.now) }
    {
        self.items.iter().any(|pass| pass.number == number)
    }

    /// The least number below the count whose pass is not in the list.
    fn first_missing(&self, count: u32) -> Option<u32>
        ensures some { IfSome result (IsLeastMissing (numbers_of self.now) count) }
        ensures none { IfNone result (AreComplete (numbers_of self.now) count) }
    {
        for number in 0..count {
            if !self.contains(number) {
                return Some(number);
            }
        }
        None
    }
}

impl<M: Machine> Turns<M> {
    ghost use mathlib.Core.List.{IsPrefix};
    ghost use Rattle.turn_lock.specs.History.{Leads, IsPartOf, HadTurnThen, entries_below};
    ghost use Rattle.daq_types.specs.Callers.{entries_by};
    ghost use Rattle.turn_lock.specs.Protocol.{IsPaired};
    ghost use Rattle.turn_lock.specs.Views.{Settles};
    ghost use Rattle.turn_lock.specs.Passes.{first_value, passes_of, number_of, seen_by, own_entries, found_by, held_by, IsOf};
    ghost use Rattle.turn_lock.specs.Roster.{items_of, numbers_of, ArePassesOf, AreIdle};
    ghost use Rattle.turn_lock.specs.Closing.{AreComplete, IsLeastMissing, opened_with, history_of, Absorbs};

    /// Joins the passes into number 0, one after another.
    fn absorb(&self, zero: &mut Pass<M>, mut items: Vec<Pass<M>>)
        requires own { IsOf self.now zero.old }
        requires zero { number_of zero.old ≡ 0 }
        requires idle { held_by zero.old ≡ None }
        requires all_own { All (IsOf self.now) items.items }
        requires all_idle { All (λ pass. held_by pass ≡ None) items.items }

        ensures own { IsOf self.now zero.new }
        ensures zero { number_of zero.new ≡ 0 }
        ensures idle { held_by zero.new ≡ None }
        ensures seen { IsPrefix (seen_by zero.old) (seen_by zero.new) }
        ensures mine { own_entries zero.new ≡ own_entries zero.old }
        ensures found { IsPrefix (found_by zero.old) (found_by zero.new) }
        ensures absorbed { All (Absorbs zero.new) items.items }
    {
        while let Some(pass) = items.pop() {
            self.join(zero, pass.seat);
        }
    }

    /// Ends the lock with the one seat that is left.
    fn finish(self, zero: Pass<M>) -> M
        requires own { IsOf self zero }
        requires zero { number_of zero ≡ 0 }
        requires idle { held_by zero ≡ None }
        requires paired { (n : ℕ) → 0 < n → n < passes_of self → IsPaired n zero.seat.me.0.pairs }
        ensures { Settles M.step (M.state (first_value self)) (M.state result) (passes_of self)
            zero.seat.me.0 }
    {
        let Turns { table, count: _ } = self;
        let mut closed = table.close_with(zero.seat);
        let value = closed.take(0);
        closed.free();
        let Some(value) = value else { unreachable!() };
        Box::into_inner(value)
    }

    /// Ends the lock, to which all its passes are given back. Where one is missing, all comes back.
    pub fn close(self, passes: Passes<M>) -> Result<Closed<M>, (MissingPass, Turns<M>, Passes<M>)>
        requires own { ArePassesOf self passes }
        requires idle { AreIdle passes }

        // The history leads from the first value to the last.
        ensures opened { IfOk result (λ closed. opened_with closed ≡ first_value self) }
        ensures legal { IfOk result (λ closed. Leads M.step (M.state (opened_with closed))
            (history_of closed) (M.state closed.value)) }

        // What each pass has seen is a beginning of it, and the entries with a pass's number are its own.
        ensures parts { IfOk result (λ closed. All (λ pass. IsPartOf (history_of closed)
            (number_of pass) (seen_by pass)) (items_of passes)) }
        ensures known { IfOk result (λ closed. (n : ℕ) → passes_of self ≤ n
            → entries_by n (history_of closed) ≡ []) }
        ensures length { IfOk result (λ closed. length (history_of closed)
            ≡ entries_below (passes_of self) (history_of closed)) }

        // Each number that a failed try of a pass found had the turn at that moment of the history.
        ensures found { IfOk result (λ closed. All (λ pass. All (HadTurnThen (history_of closed))
            (found_by pass)) (items_of passes)) }

        ensures complete { IfOk result (λ closed. AreComplete (numbers_of passes)
            (passes_of self)) }
        ensures missing { IfErr result (λ refusal. IsLeastMissing (numbers_of passes)
            (passes_of self) refusal.0.number) }
        ensures same { IfErr result (λ refusal. (refusal.1 ≡ self) × (refusal.2 ≡ passes)) }
    {
        if let Some(number) = passes.first_missing(self.count) {
            return Err((MissingPass { number }, self, passes));
        }
        let Passes {
            mut items,
            room: _,
            first,
        } = passes;
        let mut zero = Pass::take_numbered(&mut items, 0);
        self.absorb(&mut zero, items);
        let last = Snapshot::of(&zero);
        let value = self.finish(zero);
        Ok(Closed { value, first, last })
    }
}
