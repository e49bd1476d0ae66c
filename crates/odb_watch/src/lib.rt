//! Watches of an online database, the notes that each keeps of the changes of its row and below; and ports to a database, one
//! caller's access to it, behind which a lock may stand.
#![tactic(auto)]

mod copying;
mod entry;
mod keeping;
pub mod laws;
mod notes;
mod port;
pub mod port_laws;
mod slots;
mod watched;
mod watching;

pub use entry::WatchEntry;
pub use notes::{NoWatch, WatchRefusal};
pub use port::DatabasePort;
pub use watched::Watches;
pub use watching::WatchPort;
