//! The lines of a script in a session: what each does, by the main thread's own calls and the replies that they got; before the
//! first start, where they declare what the session has, and behind it, where its members have their turns; and what a whole script
//! keeps.
#![tactic(auto)]

pub mod command_laws;
mod commands;
mod declaring;
mod first;
mod keys;
pub mod laws;
mod main_play;
mod opened;
mod passed_over;
mod replying;
mod script;
mod side;
mod unopened;

pub use first::play_first;
pub use keys::make_keys;
pub use main_play::{MainEnd, MainPlay};
pub use passed_over::PassedOver;
pub use script::Script;
pub use side::MainSide;
pub use unopened::Unopened;
