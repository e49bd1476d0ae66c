//! One engine of run transitions for many threads: an engine under the counting lock.
#![tactic(auto)]

mod calls;
mod locked;
mod shared;

pub use locked::{EngineSeen, LockedEngine};
pub use shared::{EngineClosed, EnginePass, EnginePasses, SharedEngine};
