/// Whether a script goes on behind a line.
#[derive(Clone, Copy, Debug, PartialEq, Eq)]
pub enum Going {
    /// It goes on.
    On,
    /// The line was `exit`, or the last one.
    End,
    /// The line is left to another, which answers this and the lines behind it.
    Opens,
}
