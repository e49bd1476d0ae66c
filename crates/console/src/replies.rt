use daq_types::{Name, RunState, Why};
use odb_commands::{CommandReply, WatchReply};
use session_runs::{FileRecords, ReportLines, SentLines};
use session_setup::SetupRefusal;

/// What a line of the script is answered.
#[derive(Drop)]
pub enum Reply {
    /// Nothing is printed.
    Silent,
    /// Refused: the line is no command; `at` is the place of the first word that no form allows.
    BadCommand {
        at: u32,
    },
    /// Refused: the session declares nothing so.
    Setup {
        refusal: SetupRefusal,
    },
    /// Refused: the command does not go with the state of the run.
    WrongState {
        state: RunState,
    },
    /// Refused: there is no start number any more.
    LastStart,
    /// Refused: the database's run number has no next one.
    RunNumber {
        have: i32,
    },
    /// Refused: the member of this name refused the start.
    StartRefused {
        client: Name,
        why: Why,
    },
    /// The run of this number began.
    Started {
        run: u32,
    },
    /// The run of this number was paused.
    Paused {
        run: u32,
    },
    /// The run of this number goes on.
    Resumed {
        run: u32,
    },
    /// The run of this number ended: what the front-ends sent, which files the channels wrote, and what the analyzers counted.
    Stopped {
        run: u32,
        fronts: SentLines,
        files: FileRecords,
        reports: ReportLines,
    },
    /// The answer of a command on the rows of the database.
    Database {
        reply: CommandReply,
    },
    /// The answer of a command for watches or dumps of the database.
    Watch {
        reply: WatchReply,
    },
}
