use crate::endings::Ending;

/// Where the lines of a script stand once they are not answered on.
#[derive(Clone, Copy, Debug, PartialEq, Eq)]
pub enum PlayEnd {
    /// They ended.
    Ended { ending: Ending },
    /// The line that was read is left to another.
    Opens,
}
