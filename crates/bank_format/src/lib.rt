//! Banks: the data of an event as a list of named arrays, read and written exactly.
#![tactic(auto)]

mod area;
mod banks;
mod bytes;
mod faults;
mod formats;
pub mod laws;
mod places;
mod writer;

pub use banks::{Bank, Banks};
pub use faults::{BankFault, BankRefusal};
pub use formats::Format;
pub use writer::{BankWriter, MAX_AREA};
