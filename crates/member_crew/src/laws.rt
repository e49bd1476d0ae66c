//! What the members of a session keep, however many rounds they have. Each function does nothing, and its contract is the law.
ghost use Rattle.std.specs.Prelude.{ℕ};
ghost use Rattle.member_crew.specs.Rounds.{HadRounds};
ghost use Rattle.member_crew.specs.Turns.{MemberSoFar, TurnsOn};
ghost use Rattle.member_crew.specs.Crews.{CrewInRounds, KeptByRounds, TakesRound};

use crate::TakesTurns;
use daq_io::Pick;

/// A crew that had so many rounds has the same members, each behind as many turns of its own, or as many as it took until one came
/// to `Ended`, and so many choices of its pick were read.
pub fn rounds_keep<M: TakesTurns, K: Pick>()
    ensures { (count : ℕ) (before after : CrewInRounds (MemberSoFar M) K)
        → HadRounds (TakesRound (TurnsOn M.turns) K.told) count before after
        → KeptByRounds (TurnsOn M.turns) K.told count before after }
{}
