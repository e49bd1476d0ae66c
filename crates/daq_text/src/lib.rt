//! Texts: one that grows at its end, and the rule by which blanks and numbers are read.
#![tactic(auto)]

mod numbers;
mod text_buffer;

pub use numbers::{behind_blanks, digits, ended, is_blank, number, unsigned};
pub use text_buffer::TextBuffer;
