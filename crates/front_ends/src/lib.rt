//! Front-ends: each takes part in runs by its turns, and sends the events of its equipment into a buffer. The equipment may
//! be any; the generator of `frontend_kit` is one.
#![tactic(auto)]

mod equipment;
mod front_end;
mod front_run;
mod front_step;
mod generator;
pub mod laws;

pub use equipment::Equipment;
pub use front_end::FrontEnd;
pub use front_run::FrontRun;
pub use front_step::FrontStep;
