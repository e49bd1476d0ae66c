//! Event buffers of one thread, for tests: the plain implementation of `EventBuffer` over a list of rows; one whose calls are
//! noted in a journal, each with its caller and its reply; and the port of the one caller of a buffer.
#![tactic(auto)]

mod clients;
mod journal;
mod local;
mod owning;
mod plain;
mod rows;

pub use journal::{BufferJournal, NotedCall};
pub use local::LocalPort;
pub use owning::OwningPort;
pub use plain::PlainBuffer;
