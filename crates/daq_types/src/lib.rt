//! Names, identifiers, run states and the other small types that every crate of the system shares.
#![tactic(auto)]

mod bounded_list;
mod byte_list;
mod callers;
mod events;
mod file_names;
mod memory;
mod names;
mod padding;
mod runs;
mod steps;
mod types;
mod word_list;

pub use bounded_list::{BoundedList, Journal};
pub use byte_list::Bytes;
pub use callers::Caller;
pub use events::Event;
pub use file_names::{BadFileName, FileName};
pub use memory::NoMemory;
pub use names::{Name, NameRefusal};
pub use runs::{
    ChannelEnd, ChannelState, FrontEnded, Kind, Order, RunState, StartOutcome, Transition, Why,
};
pub use steps::Steps;
pub use types::Tid;
pub use word_list::Words;
