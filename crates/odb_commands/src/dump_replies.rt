ghost use Rattle.std.specs.Prelude.{◌≡◌};
ghost use Rattle.odb_commands.specs.FileReplies.{reply_of};

use daq_types::Bytes;

/// What a command's calls on the database files came to.
#[derive(Clone, Copy, Debug, PartialEq, Eq)]
pub enum FileReply {
    /// The file was read to its end, or written whole, and closed.
    Done,
    /// There is no file of that name to be read, or there is one where it was to be made.
    Clash,
    /// A call on the files failed.
    Fault,
    /// The file has more bytes than one that is read.
    TooLong,
}

/// What came of reading a file.
#[derive(Drop)]
pub enum FileRead {
    /// These are its bytes.
    Whole { text: Bytes },
    /// There is no file of that name.
    Missing,
    /// A call on the files failed.
    Fault,
    /// The file has more bytes than one that is read.
    TooLong,
}

impl FileRead {
    /// The reply to the command.
    pub fn reply(&self) -> FileReply
        ensures { result ≡ reply_of self.now }
    {
        match self {
            FileRead::Whole { .. } => FileReply::Done,
            FileRead::Missing => FileReply::Clash,
            FileRead::Fault => FileReply::Fault,
            FileRead::TooLong => FileReply::TooLong,
        }
    }
}
