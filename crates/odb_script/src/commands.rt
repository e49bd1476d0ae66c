//! The commands of a script, cut by who answers them. Their texts are words of the line, without quotes; paths and values are read
//! later, by the database.
ghost use Rattle.std.specs.Prelude.{◌≡◌, Ok};
ghost use Rattle.odb_script.specs.Exits.{is_exit};
ghost use Rattle.odb_script.specs.Forms.{on_rows, on_watches};

use crate::line_text::LineText;
use daq_types::{Kind, Tid};

/// A command of the script.
#[derive(Drop)]
pub enum Command<'a> {
    /// An empty line, a line of blanks or a comment, which is passed over but counted.
    Nothing,
    /// `exit`: ends the script.
    Exit,
    /// A declaration of what the session has.
    Declare { declaration: Declaration<'a> },
    /// A command for runs.
    Run { command: RunCommand },
    /// A command for the online database.
    Database { command: DatabaseCommand<'a> },
}

/// What a session has, which is declared before its first start.
#[derive(Drop)]
pub enum Declaration<'a> {
    /// `buffer NAME SIZE`: adds an event buffer of so many bytes, or sets the size of SYSTEM.
    Buffer {
        name: LineText<'a>,
        size: u32,
    },
    /// `equip NAME ID MASK BUFFER [LIMIT]`: adds a front-end, which sends at most so many events in a run, 4,294,967,295
    /// if not given.
    Equip {
        name: LineText<'a>,
        id: u32,
        mask: u16,
        buffer: LineText<'a>,
        limit: u32,
    },
    /// `channel N PATTERN BUFFER ID MASK [SUBBYTES]`: adds a channel of the logger, whose files are cut at so many bytes; at
    /// none if 0 or not given.
    Channel {
        number: u32,
        pattern: LineText<'a>,
        buffer: LineText<'a>,
        id: u16,
        mask: u16,
        sub_bytes: u32,
    },
    /// `analyzer NAME BUFFER ID MASK all`: adds an analyzer, for which senders wait; or `some` in the place of `all`, for
    /// which they do not.
    Analyzer {
        name: LineText<'a>,
        buffer: LineText<'a>,
        id: u16,
        mask: u16,
        kind: Kind,
    },
}

/// What is asked of the runs of a session.
#[derive(Clone, Copy, Debug, PartialEq, Eq)]
pub enum RunCommand {
    /// `events N`: how many events each front-end sends in the runs that are started from here on.
    Events { count: u32 },
    /// `start`: begins a run.
    Start,
    /// `stop`: ends the run.
    Stop,
    /// `pause`: stops the front-ends of the run, which goes on.
    Pause,
    /// `resume`: lets the front-ends of a paused run go on.
    Resume,
}

/// What is asked of the online database.
#[derive(Drop)]
pub enum DatabaseCommand<'a> {
    /// A command on its rows.
    Rows { command: RowCommand<'a> },
    /// A command for its watches or for dumps.
    Watches { command: WatchCommand<'a> },
}

/// What is asked of the rows of the database.
#[derive(Drop)]
pub enum RowCommand<'a> {
    /// `create TYPE PATH [LEN]`: makes a key with so many items, 1 if not given.
    Create {
        tid: Tid,
        path: LineText<'a>,
        len: u32,
    },
    /// `create DIR PATH`: makes a directory.
    CreateDir {
        path: LineText<'a>,
    },
    /// `link PATH TARGET`: makes a link to the path TARGET.
    Link {
        path: LineText<'a>,
        target: LineText<'a>,
    },
    /// `set PATH [INDEX] VALUE`: sets an item of a key, item 0 if not given.
    Set {
        path: LineText<'a>,
        index: u32,
        value: LineText<'a>,
    },
    /// `get PATH [INDEX]`: prints a key, or one item of it.
    Get {
        path: LineText<'a>,
        index: Option<u32>,
    },
    /// `ls PATH`: lists a directory.
    List {
        path: LineText<'a>,
    },
    /// `rm PATH`: deletes a key or a directory.
    Remove {
        path: LineText<'a>,
    },
}

/// What is asked of the watches of the database, or of the files of its dumps.
#[derive(Drop)]
pub enum WatchCommand<'a> {
    /// `load FILE`: reads a dump of the database from a file.
    Load { file: LineText<'a> },
    /// `save FILE`: writes a dump of the database into a new file.
    Save { file: LineText<'a> },
    /// `watch PATH`: begins a watch of a key or a directory.
    Watch { path: LineText<'a> },
    /// `notes W`: prints what the watch of this number noted.
    Notes { watch: u32 },
    /// `unwatch W`: ends the watch of this number.
    Unwatch { watch: u32 },
}

impl<'a> Command<'a> {
    /// Whether the command ends the script: it is `exit`.
    pub fn is_exit(&self) -> bool
        ensures { result ≡ is_exit (Ok self.now) }
    {
        matches!(self, Command::Exit)
    }
}

/// The command that asks this of the rows of the database.
pub(crate) fn on_rows<'a>(command: RowCommand<'a>) -> Command<'a>
    ensures { result ≡ on_rows command.entry }
{
    Command::Database {
        command: DatabaseCommand::Rows { command },
    }
}

/// The command that asks this of the watches of the database, or of its dumps.
pub(crate) fn on_watches<'a>(command: WatchCommand<'a>) -> Command<'a>
    ensures { result ≡ on_watches command.entry }
{
    Command::Database {
        command: DatabaseCommand::Watches { command },
    }
}
