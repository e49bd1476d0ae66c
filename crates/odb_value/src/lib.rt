//! Paths and values of the online database: lists of key names, which are equal without the case of their letters; items and
//! arrays of them; and the texts of a path and of an item, both ways.
#![tactic(auto)]

mod compare;
mod forms;
mod items;
mod key_texts;
pub mod laws;
mod parts;
mod path_refusals;
mod path_texts;
mod paths;
mod refusals;
mod texts;
mod values;

pub use compare::{is_front, is_same};
pub use items::Item;
pub use key_texts::print_key;
pub use parts::{CharByte, TextBytes};
pub use path_refusals::PathRefusal;
pub use path_texts::print_path;
pub use paths::{MAX_DEPTH, Path, path_fault};
pub use refusals::ItemRefusal;
pub use texts::{parse_item, print_item};
pub use values::{Items, Value};
