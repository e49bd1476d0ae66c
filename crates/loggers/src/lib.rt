//! The logger: it takes part in runs by its turns, and its channels write the events of each run into run files.
#![tactic(auto)]

mod endings;
pub mod laws;
mod logged_run;
mod logger;
mod marks;
mod slots;
mod starting;
mod steps;

pub use logged_run::{LoggedRun, RunDumps, RunPart};
pub use logger::Logger;
pub use slots::{ChannelSpecs, Ports, Slots};
