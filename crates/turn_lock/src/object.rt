// What a lock is generic in.
ghost use Rattle.std.specs.Prelude.{ℕ};

/// A value that passes take turns at, as contracts see it.
pub trait Machine {
    /// The plain data that the value stands for. No value of this type is made.
    type State;
    /// One call with its arguments and its reply. No value of this type is made.
    type Entry;

    ghost state: { Self → Self.State };

    // The data before, the number of the pass, the call with its reply, and the data after.
    ghost step: { Self.State → ℕ → Self.Entry → Self.State → Type 0 };

    // What the data meet whenever a pass takes the turn, of itself.
    ghost sound: { Self.State → Type 0 } = { λ _. Unit {0} };

    /// Tells what the data meet, and does nothing.
    fn known(&self)
        ensures { sound (state self.now) };
}

/// A call that was made, with its arguments and its reply, lent to `Turns::put`, which appends the entry that it stands for.
pub trait MadeCall<M: Machine> {
    ghost entry: { Self → M.Entry };
}

/// A call on the value, with its arguments, which `Turns::call` makes. Each of the members below reads the call, what it
/// writes into before it, the reply and what it wrote into behind it.
pub trait Call<M: Machine> {
    type Reply;
    /// What the call writes into beside the value: `()` where there is nothing.
    type Into;

    // The pass with this number may make the call.
    ghost may: { Self → Self.Into → ℕ → Type 0 } = { λ _ _ _. Unit {0} };

    // The entry that the call stands for, once it was made.
    ghost entry: { Self → Self.Into → Self.Reply → Self.Into → M.Entry };

    // What else is told of the reply and of what was written, by the data that the call left.
    ghost tells: { Self → Self.Into → Self.Reply → Self.Into → M.State → Type 0 } = { λ _ _ _ _ _.
        Unit {0} };

    /// Makes the call on the value. Whichever pass may make it, the data step by its entry.
    fn make(self, value: &mut M, into: &mut Self::Into) -> Self::Reply
        requires sound { M.sound (M.state value.old) }
        requires may { (number : ℕ) × may self into.old number }
        ensures step { (number : ℕ) → may self into.old number
            → M.step (M.state value.old) number (entry self into.old result into.new)
            (M.state value.new) }
        ensures tells { tells self into.old result into.new (M.state value.new) };
}
