// A session whose main thread plays its part while its members have their turns.
ghost use Rattle.std.specs.Prelude.{◌<◌, ◌≤◌, length};
ghost use Rattle.member_crew.specs.Turns.{CameBack};
ghost use Rattle.daq_members.specs.Members.{TurnsMember, member_told};
ghost use Rattle.daq_members.specs.Stay.{StayMembers};

use crate::member::{Member, ask_all};
use crate::member_laws::members_stay;
use buffer_core::BufferPort;
use daq_io::{Files, Gate, Pick};
use daq_types::NoMemory;
use front_ends::Equipment;
use member_crew::{CrewParts, MemberList, Playing, TakesTurns, ThreadRoom, play};
use odb_watch::WatchPort;
use std::alloc::Global;
use std::sync::Wait;
use std::thread::Threads;

/// The members of a session, each by its client number: the front-ends, the logger and the analyzers. There is room for 64.
pub type Members<'a, X, P, D, F> = MemberList<Member<'a, X, P, D, F>>;

/// Room for the threads of a session's members, where they are to have threads of their own.
#[derive(Drop)]
pub struct MemberRoom<'a, X: Equipment, P: BufferPort, D: WatchPort, F: Files> {
    pub threads: Option<ThreadRoom<Member<'a, X, P, D, F>>>,
}

impl<
    'a,
    X: Equipment + Drop,
    P: BufferPort + Drop,
    D: WatchPort + Drop,
    F: Files + Drop,
> MemberRoom<'a, X, P, D, F> {
    /// Room for the threads of as many members as an engine has clients, but where the main thread gives them their turns.
    pub fn new(alloc: Global, cooperative: bool) -> Result<MemberRoom<'a, X, P, D, F>, NoMemory> {
        let threads = thread_room(alloc, cooperative)?;
        Ok(MemberRoom { threads })
    }
}

/// Room for threads of members, but where the main thread gives them their turns.
fn thread_room<M: TakesTurns + Drop>(
    alloc: Global,
    cooperative: bool,
) -> Result<Option<ThreadRoom<M>>, NoMemory> {
    if cooperative {
        return Ok(None);
    }
    let room = ThreadRoom::new(alloc)?;
    Ok(Some(room))
}

/// Plays the main thread's part with these members, each by its client number: each in a thread of its own where there is room
/// for that, else all in rounds of the main thread. Each comes back behind turns of its own, of which the last came to `Ended`, and
/// no other, is the same one and keeps its contract.
pub fn play_members<
    'a,
    R: Threads + Wait + Sync,
    X: Equipment + Drop + Send,
    P: BufferPort + Drop + Send,
    D: WatchPort + Drop + Send,
    F: Files + Drop + Send,
    K: Pick + Drop,
    G: Gate + Sync,
    Y: Playing + Drop,
>(
    rt: &R,
    room: MemberRoom<'a, X, P, D, F>,
    members: Members<'a, X, P, D, F>,
    pick: K,
    gate: &'a G,
    main: Y,
) -> (Y::Played, Members<'a, X, P, D, F>, K)
    requires some { 0 < length members }
    requires few { length members ≤ 64 }
    ensures played { Y.plays main result.0 }
    ensures back { CameBack (TurnsMember
        (member_told X.takes X.makes F.told)) members.entry result.1 }
    ensures stay { StayMembers (member_told X.takes X.makes F.told) members.entry result.1 }
{
    let parts = CrewParts { members, pick };
    let (played, parts) = play(rt, room.threads, parts, gate, main);
    let CrewParts { members, pick } = parts;
    ask_all(members.as_slice());
    members_stay(members.as_slice());
    (played, members, pick)
}
