//! The outside for real: standard input and output, the files of a folder, the clock of the system. Told is what the system took by
//! its writes, and which files it was asked to put on the disk or to remove and did; nothing is told of what the system gives.
#![tactic(auto)]

mod again;
mod ahead;
mod blocks;
mod choices;
mod faults;
mod files;
mod folder;
pub mod laws;
mod opening;
mod standard;
mod streams;
mod system;
mod table;
mod words;

pub use choices::{NoGate, RoundPick, StdClock};
pub use files::StdFiles;
pub use standard::StandardTaken;
pub use streams::{StdSink, StdSource};
pub use words::given_words;
