//! Event builders: each takes the k-th event of each of several front-ends, and sends one event with all their banks to a
//! buffer of its own.
#![tactic(auto)]

mod answers;
mod asking;
mod build_run;
mod builder;
mod ending;
mod faults;
mod front_ids;
mod inputs;
mod joining;
mod receiving;

pub use answers::{BuildPull, BuildStep};
pub use build_run::{BuildFault, BuildRun, BuiltEnd, BuiltRun};
pub use builder::{Builder, BuilderSpec};
pub use front_ids::FrontIds;
pub use inputs::{BuilderInput, InputRequest, InputStop, Inputs, Ports};
