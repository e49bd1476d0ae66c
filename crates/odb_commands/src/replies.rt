ghost use Rattle.std.specs.Prelude.{◌≡◌};
ghost use Rattle.odb_commands.specs.Texts.{is_refusal};

use odb_tree::{Children, OdbRefusal};
use odb_value::{Item, ItemRefusal, Path, PathRefusal, Value};

/// Why a command of the database was refused.
#[derive(Clone, Copy, Debug, PartialEq, Eq)]
pub enum CommandRefusal {
    /// The text is no path.
    Path { why: PathRefusal },
    /// The root, `/Runinfo` and all below it are not removed.
    Protected,
    /// The text is no item of the key's type.
    Item { why: ItemRefusal },
    /// The database refused the call.
    Database { why: OdbRefusal },
}

/// What a command of the database is answered.
#[derive(Drop)]
pub enum CommandReply {
    /// Done, and nothing is printed.
    Done,
    /// The value of the key at this path, which is spelled as in the database.
    Key { path: Path, value: Value },
    /// One item of a key.
    One { item: Item },
    /// What stands in a directory.
    Listed { children: Children },
    /// Nothing was done.
    Refused { why: CommandRefusal },
}

impl CommandReply {
    /// Whether the command was refused.
    pub fn is_refusal(&self) -> bool
        ensures { result ≡ is_refusal self.now }
    {
        match self {
            CommandReply::Refused { .. } => true,
            CommandReply::Done
            | CommandReply::Key { .. }
            | CommandReply::One { .. }
            | CommandReply::Listed { .. } => false,
        }
    }
}
