// A member that was sent away.
ghost use Rattle.member_crew.specs.Turns.{EndsFrom, IsSoFar};
ghost use Rattle.member_crew.specs.MemberHandles.{TurnsIfHere, WentAway};

use crate::context::TurnContext;
use crate::member::{end_from, turn_on, until_ended};
use crate::{TakesTurns, Turned};
use daq_io::Gate;
use std::marker::Model;
use std::snapshot::Snapshot;
use std::sync::Wait;
use std::thread::{Promise, PromisedHandle, Scope, Threads};

/// A member, and whether a turn of it came to `Ended`.
#[derive(Drop)]
pub(crate) struct MemberBack<M> {
    pub(crate) member: M,
    pub(crate) ended: bool,
}

/// The promise that a member comes back behind turns of its own, until one came to `Ended`, or none of which did.
#[derive(Drop)]
pub(crate) struct Went<M> {
    was: Snapshot<M>,
}

impl<M: TakesTurns> Promise<MemberBack<M>> for Went<M> {
    ghost use Rattle.member_crew.specs.Turns.{IsSoFar};

    ghost kept_by = { λ went back. IsSoFar M.turns back.ended went.was.value back.member };
}

/// A member that was sent away: its thread, or itself, where no thread could be had. Contracts see which of the two it is, and
/// the member as far as it is known here: as it was when its thread began, or as it is.
#[derive(Drop)]
pub(crate) struct MemberHandle<M: TakesTurns> {
    pub(crate) thread: Result<PromisedHandle<MemberBack<M>, Went<M>>, MemberBack<M>>,
}

impl<M: TakesTurns> Model for MemberHandle<M> {
    ghost use Rattle.member_crew.specs.Turns.{so_far};
    ghost use Rattle.member_crew.specs.MemberHandles.{HandleSeen, handle_seen};

    ghost Value = { HandleSeen M };

    ghost view = { λ h. handle_seen (λ thread. thread.promise.was.value)
        (λ back. so_far back.member back.ended) h.thread };
}

/// What a member's thread does: the member has its turns until it ends, where it isn't called back before. Says which of the two
/// it was.
fn go<R: Wait, M: TakesTurns, G: Gate>(
    rt: &R,
    context: &TurnContext<G>,
    number: usize,
    mut member: M,
) -> MemberBack<M>
    ensures { IsSoFar M.turns result.ended member result.member }
{
    if context.return_flag.is_for(number) {
        return MemberBack {
            member,
            ended: false,
        };
    }
    until_ended(rt, context, &mut member);
    MemberBack {
        member,
        ended: true,
    }
}

/// The last turns of a member that came back: none where one came to `Ended` before.
pub(crate) fn finish<R: Wait, M: TakesTurns, G: Gate>(
    rt: &R,
    context: &TurnContext<G>,
    back: MemberBack<M>,
) -> M
    ensures { EndsFrom M.turns back.ended back.member result }
{
    let MemberBack { mut member, ended } = back;
    end_from(rt, context, &mut member, ended);
    member
}

/// Sends a member away into a thread of its own. Where none can be had it stays here.
pub(crate) fn send<
    's,
    'a,
    E,
    R: Threads + Wait + Sync,
    M: TakesTurns + Drop + Send,
    G: Gate + Sync,
>(
    scope: &'s Scope<'s, E>,
    rt: &'s R,
    context: &'s TurnContext<'a, G>,
    number: usize,
    member: M,
) -> MemberHandle<M>
where
    R: 's,
    M: 's,
    G: 's,
    ensures { WentAway M.turns member result }
{
    let was = Snapshot::of(&member);
    let goes = move || go(rt, context, number, member);
    match scope.spawn_with(Went { was }, goes) {
        Ok(thread) => MemberHandle { thread: Ok(thread) },
        Err(refused) => {
            context.return_flag.call(number);
            MemberHandle {
                thread: Err((refused.value)()),
            }
        }
    }
}

impl<M: TakesTurns> MemberHandle<M> {
    /// One turn, if the member is here and none came to `Ended` before, and none otherwise. Says whether it worked.
    pub(crate) fn turn<R: Wait, G: Gate>(&mut self, rt: &R, gate: &G) -> bool
        ensures { TurnsIfHere M.turns self.old self.new }
    {
        if let Err(back) = &mut self.thread {
            let turned = turn_on(rt, gate, &mut back.member, &mut back.ended);
            return matches!(turned, Turned::Worked);
        }
        false
    }
}
