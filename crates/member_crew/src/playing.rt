use crate::Rounds;
use std::sync::Wait;

/// What the main thread plays while the members of a session have their turns.
pub trait Playing {
    ghost use Rattle.std.specs.Prelude.{ℕ};
    ghost use Rattle.member_crew.specs.Rounds.{HadRounds};

    /// What it comes to.
    type Played;

    // What it does, from the beginning to what it came to.
    ghost plays: { Self → Self.Played → Type 0 };

    /// Plays with these members, which have their rounds meanwhile, and gives them back.
    fn play<R: Wait, M: Rounds>(self, rt: &R, members: M) -> (Self::Played, M)
        ensures plays { plays self result.0 }
        ensures rounds { (count : ℕ) × HadRounds M.round count members result.1 };
}
