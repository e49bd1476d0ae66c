//! Run states, and the engine of their transitions: which transition is allowed in which state, the state behind it, and by
//! which sequence numbers the members of a session are called for it. The engine calls the clients that take part by these
//! numbers, those of equal number at once; each is given its turn, and answers; a start can be refused, and is then called off.
#![tactic(auto)]

mod answers;
mod called;
mod client;
mod engine;
mod entry;
pub mod laws;
mod replies;
mod report;
mod sequences;
mod sheet;
mod states;

pub use answers::{Answer, ClientTally, TALLIES, Tallies, Tally};
pub use called::Called;
pub use client::{ENGINE_CLIENTS, Registered};
pub use engine::{Engine, Refusal};
pub use entry::EngineEntry;
pub use replies::{BeginRefusal, InProgress, NotYourTurn, Polled, Progress, RegisterRefusal};
pub use report::ClientReport;
pub use sequences::{Role, Sequences};
pub use sheet::{Reports, Sheet};
pub use states::{after, allowed};
