// The passes of a lock, as a list.
ghost use Rattle.std.specs.Prelude.{◌≡◌, ◌+◌, ◌<◌, ◌≤◌, ◌++◌, ◌∷◌, [], length, map, vec_capacity, Contains, None, IsTrue, ◌↔◌, IfSome, IfNone};

use crate::lock::Pass;
use crate::object::Machine;
use std::snapshot::Snapshot;

/// Passes of one lock. `Turns::new` makes the list with all of them; they are taken out and put back.
#[derive(Drop)]
pub struct Passes<M: Machine> {
    pub(crate) items: Vec<Pass<M>>,
    pub(crate) room: u32,
    pub(crate) first: Snapshot<M>,
    ghost roomy: { room ≤ vec_capacity items },
    ghost narrow: { room ≤ 256 },
}

impl<M: Machine> Pass<M> {
    ghost use Rattle.turn_lock.specs.Passes.{number_of};
    ghost use Rattle.turn_lock.specs.Closing.{TakesOut};

    /// Takes the first pass with this number out of the list.
    pub(crate) fn take_numbered(items: &mut Vec<Pass<M>>, number: u32) -> Pass<M>
        requires { Contains (map number_of items.old.items) number }
        ensures number { number_of result ≡ number }
        ensures out { TakesOut items.old.items result items.new.items }
        ensures room { vec_capacity items.new ≡ vec_capacity items.old }
    {
        for index in 0..items.len() {
            if items[index].number == number {
                return items.remove(index);
            }
        }
        unreachable!()
    }
}

impl<M: Machine> Passes<M> {
    ghost use Rattle.turn_lock.specs.Passes.{number_of, held_by, IsOf};
    ghost use Rattle.turn_lock.specs.Closing.{TakesOut};
    ghost use Rattle.turn_lock.specs.Roster.{items_of, numbers_of, room_of, made_with, ArePassesOf, AreIdle, AreFresh, IsFresh};

    /// The number of passes in the list.
    pub fn len(&self) -> usize
        ensures { result ≡ length (items_of self.now) }
    {
        self.items.len()
    }

    pub fn is_empty(&self) -> bool
        ensures { IsTrue result ↔ (items_of self.now ≡ []) }
    {
        self.items.is_empty()
    }

    /// Takes the last pass out of the list.
    pub fn pop(&mut self) -> Option<Pass<M>>
        ensures some { IfSome result (λ pass. items_of self.old ≡ items_of self.new ++ pass ∷ []) }
        ensures none { IfNone result ((items_of self.old ≡ []) × (items_of self.new ≡ [])) }
        ensures numbers { IfSome result (λ pass. numbers_of self.old
            ≡ numbers_of self.new ++ number_of pass ∷ []) }

        // What holds of all passes holds of those that are left, and of the one that was taken out.
        ensures own { (lock : _) → ArePassesOf lock self.old → ArePassesOf lock self.new }
        ensures idle { AreIdle self.old → AreIdle self.new }
        ensures fresh { AreFresh self.old → AreFresh self.new }
        ensures taken_own { IfSome result (λ pass. (lock : _) → ArePassesOf lock self.old
            → IsOf lock pass) }
        ensures taken_idle { IfSome result (λ pass. AreIdle self.old → held_by pass ≡ None) }
        ensures taken_fresh { IfSome result (λ pass. AreFresh self.old → IsFresh pass) }
        ensures room { room_of self.new ≡ room_of self.old }
        ensures first { made_with self.new ≡ made_with self.old }
    {
        self.items.pop()
    }

    /// Takes the pass with this number out of the list, in which it stands.
    pub fn take(&mut self, number: u32) -> Pass<M>
        requires { Contains (numbers_of self.old) number }
        ensures number { number_of result ≡ number }
        ensures out { TakesOut (items_of self.old) result (items_of self.new) }
        ensures numbers { TakesOut (numbers_of self.old) number (numbers_of self.new) }

        // What holds of all passes holds of those that are left, and of the one that was taken out.
        ensures own { (lock : _) → ArePassesOf lock self.old → ArePassesOf lock self.new }
        ensures idle { AreIdle self.old → AreIdle self.new }
        ensures fresh { AreFresh self.old → AreFresh self.new }
        ensures taken_own { (lock : _) → ArePassesOf lock self.old → IsOf lock result }
        ensures taken_idle { AreIdle self.old → held_by result ≡ None }
        ensures taken_fresh { AreFresh self.old → IsFresh result }
        ensures room { room_of self.new ≡ room_of self.old }
        ensures first { made_with self.new ≡ made_with self.old }
    {
        Pass::take_numbered(&mut self.items, number)
    }

    /// Puts a pass at the end of the list. It takes no memory: there is room for as many passes as the lock has.
    pub fn push(&mut self, pass: Pass<M>)
        requires { length (items_of self.old) < room_of self.old }
        ensures items { items_of self.new ≡ items_of self.old ++ pass ∷ [] }
        ensures numbers { numbers_of self.new ≡ numbers_of self.old ++ number_of pass ∷ [] }
        ensures own { (lock : _) → ArePassesOf lock self.old → IsOf lock pass
            → ArePassesOf lock self.new }
        ensures idle { AreIdle self.old → held_by pass ≡ None → AreIdle self.new }
        ensures fresh { AreFresh self.old → IsFresh pass → AreFresh self.new }
        ensures room { room_of self.new ≡ room_of self.old }
        ensures first { made_with self.new ≡ made_with self.old }
    {
        let Ok(()) = self.items.push(pass) else {
            unreachable!()
        };
    }
}
