//! The online database as a text: its lines, each for itself, the dump that is made of it, and what is done by such a text as it
//! is loaded.
#![tactic(auto)]

mod acts;
mod arrays;
mod blocks;
mod children;
mod directories;
mod dump;
mod faults;
mod items;
mod keys;
pub mod laws;
mod lines;
mod links;
mod loading;
mod passed;
mod saving;
mod skips;
mod words;

pub use acts::{Act, LoadRefusal, Loaded};
pub use directories::read_dir_line;
pub use items::{ReadItem, is_string, item_alone, item_line};
pub use keys::{array, key_line, single};
pub use lines::split_line;
pub use loading::load;
pub use passed::is_passed;
pub use saving::save;
pub use words::bracketed;
