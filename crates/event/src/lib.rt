//! An event: its header and data, its encoding and slot, the room that one is received into, which events a request
//! matches, what a run file is, and the events of the generator.
#![tactic(auto)]

mod event_buf;
mod head;
mod matching;
mod pieces;
mod room;
mod writer;

pub use event_buf::{EventBuf, TooSmall};
pub use head::{HEADER_BYTES, Header, MAX_DATA, Short, read_header, slot_len, write_header};
pub use matching::matches;
pub use pieces::read_full;
pub use room::append_within;
pub use writer::DataWriter;
