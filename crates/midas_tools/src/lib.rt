//! The tools: `check`, `dump` and `analyze`, which read run files, and `gen`, which makes a large script from a number, to try a
//! session with several front-ends, an analyzer and two runs.
#![tactic(auto)]

mod analyze;
mod areas;
mod blocks;
mod check;
mod closing;
mod dump;
mod ends;
mod extents;
mod gathering;
mod halts;
pub mod laws;
mod line;
mod lines;
mod opening;
mod page;
mod script;
mod summary;
mod telling;
mod wrong;

pub use analyze::analyze_file;
pub use check::check_file;
pub use dump::dump_file;
pub use ends::{InputFault, ToolEnd};
pub use script::{Unwritten, write_script};
