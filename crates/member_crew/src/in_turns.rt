// A session whose members have their turns in rounds of the main thread.
ghost use Rattle.std.specs.Prelude.{◌<◌, ◌≤◌, ℕ, length};
ghost use Rattle.member_crew.specs.Turns.{CameBack};
ghost use Rattle.member_crew.specs.Crews.{ReadsPick};

use crate::crew::Crew;
use crate::{CrewParts, Playing, TakesTurns};
use daq_io::{Gate, Pick};
use std::sync::Wait;

/// Plays the main thread's part, in whose rounds the members have their turns; the pick is read in these rounds alone. Behind it
/// each has turns until one comes to `Ended`, if none did yet.
pub fn play_in_turns<'a, R: Wait, M: TakesTurns, K: Pick, G: Gate, B: Playing>(
    rt: &R,
    parts: CrewParts<M, K>,
    gate: &'a G,
    main: B,
) -> (B::Played, CrewParts<M, K>)
    requires some { 0 < length parts.members }
    requires few { length parts.members ≤ 64 }
    ensures played { B.plays main result.0 }
    ensures back { CameBack M.turns parts.members result.1.members }
    ensures pick { (rounds : ℕ) × ReadsPick K.told rounds parts.pick result.1.pick }
{
    let (played, crew) = main.play(rt, Crew::new(parts, gate));
    (played, crew.into_ended(rt))
}
