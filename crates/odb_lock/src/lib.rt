//! One online database for many threads: a watched database under the counting lock, and ports to it.
//!
//! A `let _ =` of a field or of `names`, `tid` or `as_slice` tells the prover what the type keeps of that value, and does
//! nothing.
#![tactic(auto)]

mod access;
pub mod calls;
mod locked;
mod shared;

pub use access::SharedAccess;
pub use locked::{LockedDatabase, WatchedSeen};
pub use shared::{OdbClosed, OdbPass, OdbPasses, SharedOdb};
