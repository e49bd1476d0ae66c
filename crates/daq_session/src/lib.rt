//! The session: it opens what a script declares with the first start, plays the script over that, closes it, and keeps a record of
//! all that was called.
#![tactic(auto)]

mod ends;
mod laws;
mod left;
mod opening;
mod places;
mod played;
mod run;

pub use daq_types::{FrontEnded, StartOutcome, Why};
pub use ends::ScriptEnd;
pub use odb_commands::{FileReplies, FileReply};
pub use opening::SessionTree;
pub use run::run_script;
pub use session_objects::{BufferRecord, SessionRecord};
pub use session_runs::{ChannelFiles, FrontTally, ReportTally, RunRecord};
