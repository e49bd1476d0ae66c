use std::sync::Wait;

/// Members that have their turns round by round.
pub trait Rounds {
    // What one round does.
    ghost round: { Self → Self → Type 0 };

    /// One turn of each member.
    fn round<R: Wait>(&mut self, rt: &R)
        ensures { round self.old self.new };
}
