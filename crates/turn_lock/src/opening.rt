// Making a lock with its passes.
ghost use Rattle.std.specs.Prelude.{◌≡◌, ◌+◌, ◌<◌, ◌≤◌, ◌∷◌, [], length, map, vec_capacity, All, IfOk};
ghost use Rattle.turn_lock.specs.Views.{dealt_view};

use crate::lock::{FREE, Pass, Turns};
use crate::object::Machine;
use crate::roster::Passes;
use crate::rule::{LockKey, View};
use crate::steps::SplitsPass;
use atomic_table::{Seat, Table};
use std::alloc::{AllocError, Global};
use std::snapshot::Snapshot;

impl<M: Machine> Turns<M> {
    ghost use Rattle.turn_lock.specs.Passes.{first_value, passes_of, number_of, IsOf};
    ghost use Rattle.turn_lock.specs.Roster.{numbers_below, IsFresh};

    /// Splits the pass with the next number from number 0.
    fn split(
        &self,
        zero: &mut Seat<Option<Box<M>>, View<M::State, M::Entry>>,
        number: u32,
    ) -> Pass<M>
        requires seat { zero.old.table_id ≡ self.now.table.shared.table_id }
        requires view { zero.old.me ≡ (
          dealt_view (M.state (first_value self.now))
              (passes_of self.now) number,
          [],
        ) }
        requires some { 0 < number }
        requires room { number < passes_of self.now }

        ensures seat { zero.new.table_id ≡ zero.old.table_id }
        ensures view { zero.new.me ≡ (
          dealt_view (M.state (first_value self.now))
              (passes_of self.now) (number + 1),
          [],
        ) }
        ensures own { IsOf self.now result }
        ensures number { number_of result ≡ number }
        ensures fresh { IsFresh result }
    {
        Pass {
            number,
            count: self.count,
            seat: self.table.shared.split_seat::<SplitsPass>(zero),
        }
    }

    /// Splits all numbers but 0, in order, and puts the passes behind one another.
    fn deal(
        &self,
        zero: &mut Seat<Option<Box<M>>, View<M::State, M::Entry>>,
        items: &mut Vec<Pass<M>>,
    )
        requires seat { zero.old.table_id ≡ self.now.table.shared.table_id }
        requires view { zero.old.me ≡ (
          dealt_view (M.state (first_value self.now))
              (passes_of self.now) 1,
          [],
        ) }
        requires empty { items.old.items ≡ [] }
        requires room { passes_of self.now ≤ vec_capacity items.old }

        ensures seat { zero.new.table_id ≡ zero.old.table_id }
        ensures view { zero.new.me ≡ (
          dealt_view (M.state (first_value self.now))
              (passes_of self.now) (passes_of self.now),
          [],
        ) }
        ensures own { All (IsOf self.now) items.new.items }
        ensures fresh { All IsFresh items.new.items }
        ensures count { length items.new.items + 1 ≡ passes_of self.now }
        ensures numbers { 0 ∷ map number_of items.new.items ≡ numbers_below (passes_of self.now) }
        ensures room { passes_of self.now ≤ vec_capacity items.new }
    {
        for number in 1..self.count {
            let pass = self.split(zero, number);
            let Ok(()) = items.push(pass) else {
                unreachable!()
            };
        }
    }
}

impl<M: Machine + Drop> Turns<M> {
    ghost use Rattle.turn_lock.specs.Passes.{first_value, passes_of};
    ghost use Rattle.turn_lock.specs.Roster.{numbers_of, numbers_below, ArePassesOf, AreFresh};

    /// A lock round the value with this many passes, 1 to 256, which are numbered from 0 on. The lock's memory is taken
    /// here, and by no other call. Where there is none the value is dropped.
    pub fn new(alloc: Global, value: M, passes: u32) -> Result<(Turns<M>, Passes<M>), AllocError>
        requires some { 0 < passes }
        requires few { passes ≤ 256 }

        ensures value { IfOk result (λ made. first_value made.0 ≡ value) }
        ensures count { IfOk result (λ made. passes_of made.0 ≡ passes) }
        ensures own { IfOk result (λ made. ArePassesOf made.0 made.1) }
        ensures numbers { IfOk result (λ made. numbers_of made.1 ≡ numbers_below passes) }
        ensures fresh { IfOk result (λ made. AreFresh made.1) }
    {
        let key = LockKey {
            first: Snapshot::of(&value),
            passes,
        };
        let mut items = Vec::with_capacity(alloc, passes as usize)?;
        let mut slots = Vec::with_capacity(alloc, 1)?;
        let boxed = Box::new(alloc, value)?;
        let Ok(()) = slots.push(Some(boxed)) else {
            unreachable!()
        };
        let Ok((table, mut zero)) = Table::new(alloc, &[FREE, 0], slots, &key) else {
            return Err(AllocError);
        };
        let lock = Turns {
            table,
            count: passes,
        };
        lock.deal(&mut zero, &mut items);
        let zero = Pass {
            number: 0,
            count: passes,
            seat: zero,
        };
        let Ok(()) = items.insert(0, zero) else {
            unreachable!()
        };
        Ok((
            lock,
            Passes {
                items,
                room: passes,
                first: key.first,
            },
        ))
    }
}
