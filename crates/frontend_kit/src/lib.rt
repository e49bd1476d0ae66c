//! A front-end that generates its data: the events of a run, each made in room taken once.
#![tactic(auto)]

mod generator;

pub use generator::{EVENT_ROOM, Generator};
