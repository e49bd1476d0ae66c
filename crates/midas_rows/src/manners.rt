//! The ways in which a script is played.
use crate::rows::Row;

/// Where the members of a session have their turns.
#[derive(Clone, Copy)]
pub enum Manner {
    /// In rounds of the main thread. Each of the picks names the member whose turn is first in a round.
    InTurns { picks: &'static [u32] },
    /// In threads of their own.
    InThreads,
}

/// The first member is the first one in each round.
pub const FIRST_FIRST: Manner = Manner::InTurns { picks: &[] };

/// The others. What comes of a script must not rest on them.
pub static OTHERS: [Manner; 3] = [
    Manner::InTurns {
        picks: &[0, 1, 0, 1],
    },
    Manner::InTurns {
        picks: &[3, 2, 1, 0, 2, 3],
    },
    Manner::InThreads,
];

impl Manner {
    /// The words by which a script is played so.
    pub fn words(self) -> &'static [&'static str] {
        match self {
            Manner::InTurns { .. } => &["run", "--cooperative"],
            Manner::InThreads => &["run"],
        }
    }

    /// Which members are first.
    pub fn picks(self) -> &'static [u32] {
        match self {
            Manner::InTurns { picks } => picks,
            Manner::InThreads => &[],
        }
    }

    /// Whether it is told what a row came to that was played so: not in threads where that rests on their order.
    pub fn tells(self, row: &Row) -> bool {
        match self {
            Manner::InTurns { .. } => true,
            Manner::InThreads => !row.scheduled,
        }
    }

    /// The line in front of what came of it.
    pub fn title(self) -> &'static str {
        match self {
            Manner::InTurns { .. } => "With other members first:\n",
            Manner::InThreads => "In threads:\n",
        }
    }
}
