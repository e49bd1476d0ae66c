//! The run's parameters in the online database: the keys of `/Runinfo`, with which a session's database opens, the
//! number of the next run, and what a start and a stop of a run set, for which no memory is taken once the run begins,
//! but for a link on the way.
#![tactic(auto)]

mod keys;
pub mod laws;
mod opening;
mod parameters;
mod paths;
mod sets;

pub use keys::{RunKey, sent_path};
pub use opening::open;
pub use paths::KeyPaths;
pub use sets::{RunNumber, next_run, open_front};
