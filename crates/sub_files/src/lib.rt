//! A channel's run files: the patterns for their names, the records at the two ends of each, and a run's events in files of
//! bounded size.
#![tactic(auto)]

pub mod laws;
mod open_file;
mod pattern;
mod record_files;

pub use open_file::{Fallen, OpenFile, RunHead, remove_files};
pub use pattern::{BadPattern, Pattern};
pub use record_files::{append_record, begin_file, drop_file, end_file};
