//! The script of a session: its lines, and the commands that they are.
#![tactic(auto)]

mod commands;
mod forms;
mod key_forms;
pub mod laws;
mod line_text;
mod pieces;
mod reading;
mod refusals;
mod words;

pub use commands::{Command, DatabaseCommand, Declaration, RowCommand, RunCommand, WatchCommand};
pub use line_text::LineText;
pub use reading::{LineReader, NextLine, SCRIPT_BYTES};
pub use refusals::{LINE_BYTES, LineRefusal};
