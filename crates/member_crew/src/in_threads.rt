// A session whose members have their turns in threads of their own.
ghost use Rattle.std.specs.Prelude.{◌≡◌, ◌≤◌, [], length};
ghost use Rattle.member_crew.specs.Turns.{CameBack};

use crate::context::TurnContext;
use crate::handles::{HandleList, send_all};
use crate::{CrewParts, MemberList, Playing, TakesTurns};
use daq_io::{Gate, Pick};
use daq_types::{BoundedList, NoMemory};
use std::alloc::Global;
use std::sync::Wait;
use std::thread;
use std::thread::{Scope, Threads};

/// Room for the members of a session while they have threads of their own, and for them as they come back.
#[derive(Drop)]
pub struct ThreadRoom<M: TakesTurns> {
    handles: HandleList<M>,
    back: MemberList<M>,
    ghost nobody_away: { handles ≡ [] },
    ghost nobody_back: { back ≡ [] },
}

impl<M: TakesTurns + Drop> ThreadRoom<M> {
    /// Room for as many members as an engine has clients.
    pub fn new(alloc: Global) -> Result<ThreadRoom<M>, NoMemory> {
        let handles = BoundedList::new(alloc)?;
        let back = BoundedList::new(alloc)?;
        Ok(ThreadRoom { handles, back })
    }
}

/// Sends the members away, plays the main thread's part, and calls them back.
fn play_in<
    's,
    'a,
    E,
    R: Threads + Wait + Sync,
    M: TakesTurns + Drop + Send,
    G: Gate + Sync,
    B: Playing,
>(
    scope: &'s Scope<'s, E>,
    rt: &'s R,
    context: &'s TurnContext<'a, G>,
    room: ThreadRoom<M>,
    members: MemberList<M>,
    main: B,
) -> (B::Played, MemberList<M>)
where
    R: 's,
    M: 's,
    G: 's,
    requires few { length members ≤ 64 }
    ensures played { B.plays main result.0 }
    ensures back { CameBack M.turns members result.1 }
{
    let ThreadRoom { handles, mut back } = room;
    let handles = send_all(scope, rt, context, members, handles);
    let (played, mut handles) = main.play(rt, handles);
    handles.call_back(rt, &mut back);
    (played, back)
}

/// Plays the main thread's part while each member has its turns in a thread of its own, or here, where no thread could be had
/// for it, until its turn comes to `Ended`, and none behind that. The pick stays as it is, since there are no rounds of all
/// members. Takes no memory but what threads take.
pub fn play_in_threads<
    'a,
    R: Threads + Wait + Sync,
    M: TakesTurns + Drop + Send,
    K: Pick + Drop,
    G: Gate + Sync,
    B: Playing + Drop,
>(
    rt: &R,
    room: ThreadRoom<M>,
    parts: CrewParts<M, K>,
    gate: &'a G,
    main: B,
) -> (B::Played, CrewParts<M, K>)
    requires few { length parts.members ≤ 64 }
    ensures played { B.plays main result.0 }
    ensures back { CameBack M.turns parts.members result.1.members }
    ensures pick { result.1.pick ≡ parts.pick }
{
    let context = TurnContext::new(gate);
    let context = &context;
    let CrewParts { members, pick } = parts;
    let (played, members) = thread::scope(
        thread::scope_env(),
        rt,
        move |scope| -> (B::Played, MemberList<M>)
            requires { length members ≤ 64 }
            ensures played { B.plays main result.0 }
            ensures back { CameBack M.turns members result.1 }
        { play_in(scope, rt, context, room, members, main) },
    );
    (played, CrewParts { members, pick })
}
