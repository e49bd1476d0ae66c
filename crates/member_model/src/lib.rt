//! What the crates of the members of a run speak of: the engine of a session and the values at its calls, and, in `specs/`, the
//! turns that a member was given and what a caller's own calls on a buffer tell.
#![tactic(auto)]

mod engine;

pub use engine::{
    Answer, ClientTally, Engine, EngineEntry, Polled, Reports, Sheet, Tallies, Tally,
};
