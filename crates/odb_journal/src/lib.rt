//! Databases of one thread: one whose calls are noted in a journal, each with its caller and its reply, so that the history of
//! the database stands beside its rows; and the port of the one caller of a database.
//!
//! A `let _ =` of a field or of `names`, `tid` or `as_slice` tells the prover what the type keeps of that value, and does
//! nothing.
#![tactic(auto)]

mod local;
mod owning;

pub use local::LocalDatabase;
pub use owning::OwningAccess;
