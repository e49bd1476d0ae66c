//! The words of the command line: which forms they may have, and their reading.
#![tactic(auto)]

mod direct;
mod files;
mod forms;
pub mod laws;
mod reader;

pub use files::file_names;
pub use forms::{Form, Tool};
pub use reader::form_of;
