//! The runs of a session: the main thread at the engine, where it registers the members, makes transitions, in which it gives
//! the members their rounds until all have answered, and closes the engine; the run commands, a start, a stop, a pause and a
//! resume, each by the transition that it makes and by what it sets in the online database; and what is kept of a run.
#![tactic(auto)]

mod channels;
mod engine_making;
pub mod laws;
mod making;
mod on;
mod opening;
mod pausing;
mod records;
mod refusing;
mod replies;
mod run_keys;
mod runs;
mod seat;
mod starting;
mod stopping;
mod tallied;

pub use channels::{RunChannel, RunChannels};
pub use engine_making::Made;
pub use on::CurrentRun;
pub use opening::MemberName;
pub use records::{
    ChannelFiles, FileRecords, FrontTallies, FrontTally, ReportLine, ReportLines, ReportTallies,
    ReportTally, RunRecord, SentLine, SentLines,
};
pub use replies::RunReply;
pub use runs::Runs;
pub use seat::MainSeat;
