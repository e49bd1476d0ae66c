//! The outside of the system: where bytes come from and go to, files, the clock, the choice of a turn. Each is a trait
//! with what it tells to contracts. With them stand what any object with files keeps: its numbers in use, its counts,
//! and room for bytes.
#![tactic(auto)]

mod faults;
mod file_source;
mod folder;
mod objects;
mod readings;
mod rooms;
mod streams;
mod tallies;
mod traces;
mod uses;

pub use faults::Failed;
pub use file_source::FileSource;
pub use folder::{FileState, Files, NameRefused};
pub use objects::Outside;
pub use readings::{Clock, Gate, Pick, Point};
pub use rooms::ByteRoom;
pub use streams::{Sink, Source, copy_front, write_all};
pub use tallies::Tally;
pub use traces::{ByteTrace, ByteTraces, FileTrace};
pub use uses::{Usage, UseTable};
