//! What the contracts of the members, and the histories of the engine and of all buffers, tell together: definitions in
//! `specs/`, and the laws on them. The definitions cite no code.
#![tactic(auto)]

pub mod laws;
