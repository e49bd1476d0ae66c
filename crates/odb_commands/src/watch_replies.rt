ghost use Rattle.std.specs.Prelude.{◌≡◌};
ghost use Rattle.odb_commands.specs.WatchTexts.{is_watch_refusal};

use crate::FileReply;
use daq_types::BoundedList;
use odb_text::{LoadRefusal, Loaded};
use odb_tree::{Note, OdbRefusal};
use odb_value::{Path, PathRefusal};
use odb_watch::WatchRefusal;

/// Why a command for watches or dumps was refused.
#[derive(Clone, Copy, Debug, PartialEq, Eq)]
pub enum WatchCommandRefusal {
    /// The text is no path.
    Path { why: PathRefusal },
    /// The database did not find the path.
    Database { why: OdbRefusal },
    /// No watch was begun.
    Watch { why: WatchRefusal },
    /// No watch of this number lives.
    NoWatch,
    /// The text is no name of a file.
    BadFileName,
    /// There is no file of this name to be loaded.
    Missing,
    /// There is a file of this name already.
    Exists,
    /// A call on the files failed.
    FileFault,
    /// The file has more bytes than a text that is loaded.
    TooLong,
    /// The text of the file was not loaded.
    Load { why: LoadRefusal },
}

/// A note that was read, with the path of its row where that is still there.
#[derive(Drop)]
pub struct ToldNote {
    pub note: Note,
    pub path: Option<Path>,
}

/// The notes of a watch that were read.
pub type ToldNotes = BoundedList<ToldNote, 256>;

/// What a command for watches or dumps is answered.
#[derive(Drop)]
pub enum WatchReply {
    /// The watch ended, and nothing is printed.
    Ended,
    /// A dump was loaded.
    Loaded { loaded: Loaded },
    /// A dump of so many bytes was saved.
    Saved { bytes: u64 },
    /// The number of the watch that was begun.
    Watching { watch: u32 },
    /// The notes that a watch had kept, and how many others were lost.
    Told { notes: ToldNotes, lost: u64 },
    /// Nothing was done; but where a dump could not be written whole, a first part of it may stand in the file.
    Refused { why: WatchCommandRefusal },
}

/// What came of a command: its reply, and where it called the files of the database, what came of those calls.
#[derive(Drop)]
pub struct WatchAnswer {
    pub reply: WatchReply,
    pub file: Option<FileReply>,
}

impl WatchReply {
    /// Whether the command was refused.
    pub fn is_refusal(&self) -> bool
        ensures { result ≡ is_watch_refusal self.now }
    {
        match self {
            WatchReply::Refused { .. } => true,
            WatchReply::Ended
            | WatchReply::Loaded { .. }
            | WatchReply::Saved { .. }
            | WatchReply::Watching { .. }
            | WatchReply::Told { .. } => false,
        }
    }
}
