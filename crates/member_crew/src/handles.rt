// Members that were sent away, one beside the other.
ghost use Rattle.std.specs.Prelude.{◌≡◌, ◌<◌, ◌≤◌, [], length};
ghost use Rattle.std.specs.List.{AllZip};
ghost use Rattle.member_crew.specs.Turns.{ChangesPlace};
ghost use Rattle.member_crew.specs.MemberHandles.{TurnsIfHere, WentAway};

use crate::context::TurnContext;
use crate::handle::{MemberHandle, finish, send};
use crate::{MemberList, Rounds, TakesTurns};
use daq_io::Gate;
use daq_types::BoundedList;
use std::marker::Model;
use std::sync::Wait;
use std::thread::{Scope, Threads};

/// Members that were sent away, each at its number. There is room for as many as an engine has clients.
pub(crate) type HandleList<M> = BoundedList<MemberHandle<M>, 64>;

/// Sends these members away, each with its place as its number. The handles stand in this room, which is empty.
pub(crate) fn send_all<
    's,
    'a,
    E,
    R: Threads + Wait + Sync,
    M: TakesTurns + Drop + Send,
    G: Gate + Sync,
>(
    scope: &'s Scope<'s, E>,
    rt: &'s R,
    context: &'s TurnContext<'a, G>,
    mut members: MemberList<M>,
    mut handles: HandleList<M>,
) -> MemberHandles<'s, 'a, M, G>
where
    R: 's,
    M: 's,
    G: 's,
    requires few { length members ≤ 64 }
    requires empty { handles ≡ [] }
    ensures { AllZip (WentAway M.turns) members result }
{
    while let Some(member) = members.take_first() {
        let number = handles.len();
        handles.push(send(scope, rt, context, number, member));
    }
    MemberHandles {
        handles,
        context,
        still: 0,
    }
}

/// Members that are away, with what they go by in their turns. There are at most 64. They have rounds as far as they are here.
/// Contracts see them as `MemberHandle` shows each.
#[derive(Drop)]
pub(crate) struct MemberHandles<'s, 'a, M: TakesTurns, G: Gate> {
    handles: HandleList<M>,
    context: &'s TurnContext<'a, G>,
    /// How many rounds in a row saw nobody at work.
    still: u32,
}

impl<'s, 'a, M: TakesTurns, G: Gate> Model for MemberHandles<'s, 'a, M, G> {
    ghost use Rattle.std.specs.Prelude.{List, ◌≤◌, length};
    ghost use Rattle.member_crew.specs.MemberHandles.{HandleSeen};

    ghost Value = { List (HandleSeen M) };

    ghost view = { λ m. m.handles };

    ghost invariant = { λ m. length m.handles ≤ 64 };
}

impl<'s, 'a, M: TakesTurns + Drop, G: Gate> MemberHandles<'s, 'a, M, G> {
    ghost use Rattle.member_crew.specs.MemberHandles.{CameFrom};

    /// One turn of the member at this place, if it is here and has not ended. Says whether it worked.
    fn turn_at<R: Wait>(&mut self, rt: &R, place: usize) -> bool
        requires { place < length self.old }
        ensures { ChangesPlace (TurnsIfHere M.turns) place self.old self.new }
    {
        let Some(handle) = self.handles.get_mut(place) else {
            unreachable!()
        };
        handle.turn(rt, self.context.gate)
    }

    /// One turn of each member that is here and has not ended, and of no other, in order. Those that worked are counted. Says
    /// whether one did.
    fn turn_all<R: Wait>(&mut self, rt: &R) -> bool
        ensures { AllZip (TurnsIfHere M.turns) self.old self.new }
    {
        let mut worked = false;
        for place in 0..self.handles.len() {
            if self.turn_at(rt, place) {
                self.context.activity.add(1);
                worked = true;
            }
        }
        worked
    }

    /// The members come back in order, each behind its last turn: one that ended while it was away has none more. They stand in
    /// this room, which is empty.
    pub(crate) fn call_back<R: Threads + Wait>(&mut self, rt: &R, back: &mut MemberList<M>)
        requires { back.old ≡ [] }
        ensures { AllZip (CameFrom M.turns) self.old back.new }
    {
        self.context.activity.call();
        while let Some(handle) = self.handles.take_first() {
            let MemberHandle { thread } = handle;
            let came = match thread {
                Ok(thread) => thread.join(rt),
                Err(here) => here,
            };
            back.push(finish(rt, self.context, came));
        }
    }
}

impl<'s, 'a, M: TakesTurns + Drop, G: Gate> Rounds for MemberHandles<'s, 'a, M, G> {
    ghost use Rattle.std.specs.List.{AllZip};
    ghost use Rattle.member_crew.specs.MemberHandles.{TurnsIfHere};

    ghost round = { AllZip (TurnsIfHere M.turns) };

    /// One turn of each member that is here and has not ended, and of no other, in order. Where none of them worked, the main
    /// thread waits for the others.
    fn round<R: Wait>(&mut self, rt: &R) {
        if self.turn_all(rt) {
            self.still = 0;
        } else {
            self.still = self.context.activity.wait_on(self.still);
        }
    }
}
