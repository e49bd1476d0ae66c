// A session whose members have their turns while the main thread plays its part.
ghost use Rattle.std.specs.Prelude.{◌<◌, ◌≤◌, length};
ghost use Rattle.member_crew.specs.Turns.{CameBack};

use crate::{CrewParts, Playing, TakesTurns, ThreadRoom, play_in_threads, play_in_turns};
use daq_io::{Gate, Pick};
use std::sync::Wait;
use std::thread::Threads;

/// Plays the main thread's part with these members: each in a thread of its own where there is room for that, else all in rounds
/// of the main thread. They come back behind their last turns: each had turns until one came to `Ended`, and none behind that.
pub fn play<
    'a,
    R: Threads + Wait + Sync,
    M: TakesTurns + Drop + Send,
    K: Pick + Drop,
    G: Gate + Sync,
    B: Playing + Drop,
>(
    rt: &R,
    room: Option<ThreadRoom<M>>,
    parts: CrewParts<M, K>,
    gate: &'a G,
    main: B,
) -> (B::Played, CrewParts<M, K>)
    requires some { 0 < length parts.members }
    requires few { length parts.members ≤ 64 }
    ensures played { B.plays main result.0 }
    ensures back { CameBack M.turns parts.members result.1.members }
{
    match room {
        Some(room) => play_in_threads(rt, room, parts, gate, main),
        None => play_in_turns(rt, parts, gate, main),
    }
}
