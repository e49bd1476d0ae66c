/// What a member's turn came to.
#[derive(Clone, Copy, Debug, PartialEq, Eq)]
pub enum Turned {
    /// The engine gave a new turn, a turn was answered, or an event was sent or got.
    Worked,
    /// None of these.
    Idle,
    /// The engine is closed.
    Ended,
}
