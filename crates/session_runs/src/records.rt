// What is kept of a session's runs.
ghost use Rattle.std.specs.Prelude.{◌≡◌, ◌<◌, ◌≤◌};
ghost use Rattle.sub_files.specs.Patterns.{piece_name_by};
ghost use Rattle.session_runs.specs.FileRows.{row_count, state_of_file};

use daq_types::{
    BoundedList, Bytes, ChannelEnd, ChannelState, FileName, FrontEnded, Name, StartOutcome,
};
use event_report::Report;
use mid_logger::Pattern;

/// What the front-ends of a session sent in a run, in the order of their client numbers.
pub type FrontTallies = BoundedList<FrontTally, 32>;

/// What the channels of a session's logger wrote in a run, in the order of their numbers.
pub type FileRecords = BoundedList<ChannelFiles, 16>;

/// What the analyzers of a session counted in a run, in the order of their client numbers.
pub type ReportTallies = BoundedList<ReportTally, 8>;

/// What the console tells of the front-ends as a run ends, in the order of their declaration.
pub type SentLines = BoundedList<SentLine, 32>;

/// What the console tells of the analyzers as a run ends, in the order of their declaration.
pub type ReportLines = BoundedList<ReportLine, 8>;

/// The files of a run and channel have the numbers below this one.
const FILE_NUMBERS: u32 = 10_000;

/// What is kept of a start and of the run that it began.
#[derive(Drop)]
pub struct RunRecord {
    /// The run number. It is used again after a refused start.
    pub run: u32,
    /// The start number. It is never used again.
    pub start: u32,
    /// When the run was started, in seconds since 1970.
    pub time0: u32,
    /// When it was stopped; 0 for a refused start.
    pub time1: u32,
    /// Whether the run came about.
    pub outcome: StartOutcome,
    /// What the front-ends sent; nothing for a refused start.
    pub fronts: FrontTallies,
    /// What the logger wrote; nothing for a refused start.
    pub files: FileRecords,
    /// What the analyzers counted; nothing for a refused start.
    pub reports: ReportTallies,
}

/// What a front-end sent in a run.
#[derive(Clone, Copy, Debug, PartialEq, Eq)]
pub struct FrontTally {
    /// Its client number.
    pub client: u32,
    /// How many events it sent.
    pub sent: u64,
    /// Why it sent no more.
    pub ended: FrontEnded,
}

/// The files that a channel of the logger wrote in a run, which have the numbers from 0 on.
#[derive(Drop)]
pub struct ChannelFiles {
    /// The channel number.
    pub channel: u32,
    /// The names of its files.
    pub pattern: Pattern,
    /// What became of the channel, how many files it made, and how many of these, the first ones, are whole.
    pub told: ChannelEnd,
}

impl ChannelFiles {
    /// The same again. Takes no memory.
    pub fn copy(&self) -> ChannelFiles
        ensures { result ≡ self.now }
    {
        ChannelFiles {
            channel: self.channel,
            pattern: self.pattern.copy(),
            told: self.told,
        }
    }

    /// How many files it tells of.
    pub fn count(&self) -> u32
        ensures { result ≡ row_count self.now }
    {
        self.told.files.min(FILE_NUMBERS)
    }

    /// The name of the file of this number in the run of this number.
    pub fn name_of(&self, run: u32, number: u32) -> FileName
        requires { number < row_count self.now }
        ensures { result ≡ piece_name_by self.now.pattern run number }
    {
        self.pattern.name(run, number)
    }

    /// What became of the file of this number.
    pub fn state_of(&self, number: u32) -> ChannelState
        ensures { result ≡ state_of_file self.now.told number }
    {
        if number < self.told.framed {
            ChannelState::Ended
        } else {
            self.told.state
        }
    }
}

/// What an analyzer counted in a run.
#[derive(Drop)]
pub struct ReportTally {
    /// Its client number.
    pub client: u32,
    /// What it counted.
    pub report: Report,
}

/// What the console tells of a front-end as a run ends.
#[derive(Clone, Copy, Debug)]
pub struct SentLine {
    /// Its name.
    pub name: Name,
    /// How many events it sent.
    pub sent: u64,
}

/// What the console tells of an analyzer as a run ends.
#[derive(Drop)]
pub struct ReportLine {
    /// What stands before each line of the report: the analyzer's name and a blank.
    pub start: Bytes,
    /// What it counted.
    pub report: Report,
}
