//! The report of an analysis: how many events there were, of which ids, and what their banks of integers held.
#![tactic(auto)]

mod banks;
mod figures;
mod ids;
mod integers;
pub mod laws;
mod report;
mod rows;
mod texts;

pub use integers::IntegerType;
pub use report::Report;
pub use rows::{BankRow, Figures, IdRow};
pub use texts::visible_name;
