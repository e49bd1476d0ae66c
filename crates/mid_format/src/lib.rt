//! MIDAS run files: the records at their two ends, and a reader of their events.
#![tactic(auto)]

mod blocks;
mod faults;
pub mod laws;
mod parts;
mod progress;
mod reader;
mod records;
mod steps;
mod taker;
mod whole;

pub use blocks::{Ahead, BlockSource};
pub use faults::MidFault;
pub use progress::Progress;
pub use reader::MidReader;
pub use records::{begin_record, end_record};
pub use taker::EventTaker;
