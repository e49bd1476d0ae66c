//! The objects that the members of a session share, and the members themselves: how they open for what a script declared,
//! and what is kept of them once the session has ended.
#![tactic(auto)]

mod closing;
pub mod laws;
mod members;
mod membership;
mod names;
mod objects;
mod opening;
mod passes;
mod record;
mod returning;
mod seats;

pub use membership::Membership;
pub use names::member_names;
pub use objects::{SessionBuffer, SessionObjects};
pub use opening::OpenedObjects;
pub use passes::{SessionPasses, take_main};
pub use record::{BufferRecord, BufferRecords, RunRecords, SessionRecord};
pub use returning::{LoggerEnd, Returned};
pub use seats::{SessionAnalyzer, SessionFront, SessionLogger, SessionMember, SessionMembers};
