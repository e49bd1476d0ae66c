/// What a channel got from its buffer.
#[derive(Clone, Copy, PartialEq, Eq)]
pub enum Pulled {
    /// The event of this place, which was written.
    Wrote { place: u64 },
    /// The event of this place, which is none of the run.
    Dropped { place: u64 },
    /// Nothing.
    Nothing,
    /// An event that could not be written: a call on the file failed.
    Broke,
    /// There is no such channel.
    NoChannel,
}
