//! What the histories of an engine tell of the turns of one client, and what the calls of one caller on a buffer tell of the
//! history of all callers: definitions in `specs/`, and the laws on them.
#![tactic(auto)]

pub mod callers;
pub mod engines;
