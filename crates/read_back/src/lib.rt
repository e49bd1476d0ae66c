//! What is read back of a session: `analyze` prints of the files of a run what an analyzer told of it. Definitions in `specs/`, and
//! the laws on them.
#![tactic(auto)]

pub mod laws;
