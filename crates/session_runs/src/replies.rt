use daq_types::{RunState, Why};

/// What a run command is answered.
#[derive(Clone, Copy, Debug, PartialEq, Eq)]
pub enum RunReply {
    /// The state of the run does not allow the command.
    WrongState { state: RunState },
    /// The last start number was given.
    LastStart,
    /// The database's run number has no next one: it is below 0, or is 2,147,483,647.
    RunNumber { have: i32 },
    /// The client of this number refused the start.
    StartRefused { client: u32, why: Why },
    /// The run of this number is on.
    Started { run: u32 },
    /// It is paused.
    Paused { run: u32 },
    /// It goes on.
    Resumed { run: u32 },
    /// It ended.
    Stopped { run: u32 },
}
