//! One event buffer for many threads: a buffer under the counting lock.
#![tactic(auto)]

pub mod calls;
pub mod laws;
mod locked;
mod port;
mod shared;

pub use locked::{Locked, WindowSeen};
pub use port::SharedPort;
pub use shared::{BufferClosed, BufferPass, BufferPasses, SharedBuffer};
