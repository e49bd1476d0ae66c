//! The outside in memory: objects that tell all of their bytes, names and numbers, and fail at the calls that are listed.
#![tactic(auto)]

mod choices;
mod files;
mod planned;
mod plans;
mod readers;
mod slots;
mod streams;

pub use choices::{MemClock, MemPick};
pub use files::MemFiles;
pub use plans::{FileFail, FileOp};
pub use streams::{MemSink, MemSource};
