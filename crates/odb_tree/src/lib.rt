//! The online database: a tree of directories and keys with values, seen as a list of rows, and each call as a step of
//! that list.
#![tactic(auto)]

mod changes;
mod children;
mod database;
mod entry;
mod faults;
pub mod laws;
mod limits;
mod listing;
mod lookups;
mod new_rows;
mod notes;
mod plain;
mod refusals;
mod rows;

pub use changes::{copy_row, put_row, replace_row, resize_row};
pub use children::{Child, Children};
pub use database::Database;
pub use entry::DatabaseEntry;
pub use faults::{
    bytes_of_new, index_fault, is_kept, items_fault, kept_fault, new_value, replace_fault,
    tid_fault, type_fault,
};
pub use limits::{bytes_of, bytes_with, len_fault, limit_fault, raised_size, text_fault};
pub use lookups::{Key, parent};
pub use notes::{Note, Notes, Watch};
pub use plain::PlainTree;
pub use refusals::{OdbRefusal, What};
pub use rows::{NewKey, Row};
