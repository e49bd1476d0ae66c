// A member that has turns, and has them until it ends.
ghost use Rattle.member_crew.specs.Turns.{EndsFrom, TurnsOn, TurnsToEnd, so_far};

use crate::Turned;
use crate::backoff::Backoff;
use crate::context::TurnContext;
use daq_io::Gate;
use daq_types::BoundedList;
use std::sync::Wait;

/// A member of a session.
pub trait TakesTurns {
    ghost use Rattle.member_crew.specs.declared.turned.Turned.{Turned};

    // What one turn does, and what it came to.
    ghost turns: { Self → Self → Turned → Type 0 };

    /// One turn.
    fn turn<R: Wait, G: Gate>(&mut self, rt: &R, gate: &G) -> Turned
        ensures { turns self.old self.new result };
}

/// Members, each at its number. There is room for as many as an engine has clients.
pub type MemberList<M> = BoundedList<M, 64>;

/// One turn of this member, but none where one came to `Ended` before.
pub(crate) fn turn_on<R: Wait, M: TakesTurns, G: Gate>(
    rt: &R,
    gate: &G,
    member: &mut M,
    ended: &mut bool,
) -> Turned
    ensures { TurnsOn M.turns (so_far member.old ended.old) (so_far member.new ended.new) result }
{
    if *ended {
        return Turned::Ended;
    }
    let turned = member.turn(rt, gate);
    *ended = matches!(turned, Turned::Ended);
    turned
}

/// Turns of this member, until one comes to `Ended`. Between them it heeds what others do.
pub(crate) fn until_ended<R: Wait, M: TakesTurns, G: Gate>(
    rt: &R,
    context: &TurnContext<G>,
    member: &mut M,
)
    ensures { TurnsToEnd M.turns member.old member.new }
{
    let mut backoff = Backoff::new(&context.activity);
    for _ in rt.forever() {
        match member.turn(rt, context.gate) {
            Turned::Ended => {
                backoff.end();
                return;
            }
            Turned::Worked => backoff.worked(),
            Turned::Idle => backoff.idle(),
        }
    }
    unreachable!()
}

/// Turns of this member, until one comes to `Ended`, but none where one did before.
pub(crate) fn end_from<R: Wait, M: TakesTurns, G: Gate>(
    rt: &R,
    context: &TurnContext<G>,
    member: &mut M,
    ended: bool,
)
    ensures { EndsFrom M.turns ended member.old member.new }
{
    if !ended {
        until_ended(rt, context, member);
    }
}
