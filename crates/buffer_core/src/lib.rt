//! Event buffers: a window of kept events that many clients read by their requests, with a run gate that lets
//! events of one run in.
#![tactic(auto)]

mod buffer;
mod client;
mod entry;
mod gate;
pub mod laws;
mod limits;
mod port;
mod replies;

pub use buffer::EventBuffer;
pub use client::{CLIENTS, Client, REQUESTS, Request, free_number};
pub use entry::BufferEntry;
pub use gate::RunGate;
pub use limits::slot_for;
pub use port::BufferPort;
pub use replies::{MarkRefusal, NoClient, NoSlot, Received, RequestRefusal, SendRefusal};
