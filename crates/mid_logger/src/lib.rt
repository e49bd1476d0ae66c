//! A logger's channels: each writes the events of runs into run files.
#![tactic(auto)]

mod channel;
mod channel_spec;
mod ending;
pub mod laws;
mod opening;
mod pulled;
mod stage;

pub use channel::Channel;
pub use channel_spec::ChannelSpec;
pub use pulled::Pulled;
pub use stage::{BegunRun, ChannelRun, ChannelStage};
pub use sub_files::{BadPattern, Fallen, OpenFile, Pattern};
