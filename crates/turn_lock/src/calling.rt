// Calls, each one turn of a pass.
ghost use Rattle.std.specs.Prelude.{◌≡◌, None, Some, IfOk, IfErr, OnOk, OnErr};

use crate::lock::{Held, Pass, Taken, Turns};
use crate::object::{Call, Machine, MadeCall};
use std::snapshot::Snapshot;
use std::sync::Wait;

/// A call with all that its entry reads.
struct Made<'a, C, I, O> {
    call: Snapshot<C>,
    before: Snapshot<I>,
    into: &'a I,
    reply: &'a O,
}

impl<'a, M: Machine, C: Call<M>> MadeCall<M> for Made<'a, C, C::Into, C::Reply> {
    ghost entry = { λ made. C.entry made.call.value made.before.value made.reply.now
        made.into.now };
}

impl<M: Machine> Turns<M> {
    ghost use Rattle.turn_lock.specs.History.{Leads};
    ghost use Rattle.turn_lock.specs.Passes.{first_value, number_of, seen_by, found_by, held_by, IsOf};
    ghost use Rattle.turn_lock.specs.Entered.{Enters, FindsTaken};

    /// Makes the call while the turn is held, and frees the turn.
    #[inline(always)]
    fn make<C: Call<M>>(
        &self,
        pass: &mut Pass<M>,
        held: Held<M>,
        call: C,
        into: &mut C::Into,
    ) -> C::Reply
        requires own { IsOf self.now pass.old }
        requires held { held_by pass.old ≡ Some (M.state held.value.value) }
        requires may { C.may call into.old (number_of pass.old) }

        ensures entered { Enters self.now (C.entry call into.old result into.new) pass.old pass.new }
        ensures found { found_by pass.new ≡ found_by pass.old }
        ensures told { (last : _) × Leads M.step (M.state (first_value self.now)) (seen_by pass.new) last
            × C.tells call into.old result into.new last }
    {
        let mut held = held;
        held.value.known();
        let asked = Snapshot::of(&call);
        let before = Snapshot::of(&*into);
        let reply = call.make(&mut held.value, into);
        let made = Made {
            call: asked,
            before,
            into: &*into,
            reply: &reply,
        };
        self.put(pass, held, &made);
        let Made {
            call: _,
            before: _,
            into: _,
            reply: _,
        } = made;
        reply
    }

    /// Makes the call, in one turn: takes the turn and waits for it where it must, makes the call on the value, appends its
    /// entry to the history, puts the value back and frees the turn.
    pub fn call<R: Wait, C: Call<M>>(
        &self,
        rt: &R,
        pass: &mut Pass<M>,
        call: C,
        into: &mut C::Into,
    ) -> C::Reply
        requires own { IsOf self.now pass.old }
        requires idle { held_by pass.old ≡ None }
        requires may { C.may call into.old (number_of pass.old) }

        ensures entered { Enters self.now (C.entry call into.old result into.new) pass.old pass.new }
        ensures told { (last : _) × Leads M.step (M.state (first_value self.now)) (seen_by pass.new) last
            × C.tells call into.old result into.new last }
    {
        let held = self.take(rt, pass);
        self.make(pass, held, call, into)
    }

    /// As `call`, in one try for the turn. Where that is another pass's, the call is not made, and there is no entry.
    pub fn try_call<C: Call<M> + Drop>(
        &self,
        pass: &mut Pass<M>,
        call: C,
        into: &mut C::Into,
    ) -> Result<C::Reply, Taken>
        requires own { IsOf self.now pass.old }
        requires idle { held_by pass.old ≡ None }
        requires may { C.may call into.old (number_of pass.old) }

        ensures entered { IfOk result (λ reply. Enters self.now
            (C.entry call into.old reply into.new) pass.old pass.new) }
        ensures once { OnOk result (found_by pass.new ≡ found_by pass.old) }
        ensures told { IfOk result (λ reply. (last : _)
            × Leads M.step (M.state (first_value self.now)) (seen_by pass.new) last
            × C.tells call into.old reply into.new last) }
        ensures taken { IfErr result (λ taken. FindsTaken self.now taken.holder
            pass.old pass.new) }
        ensures untouched { OnErr result (into.new ≡ into.old) }
    {
        match self.try_take(pass) {
            Ok(held) => Ok(self.make(pass, held, call, into)),
            Err(taken) => Err(taken),
        }
    }
}
