//! The online database in an arena: the nodes of its rows by their numbers, and in each directory the names of what
//! stands there, hashed without the case of their letters.
//!
//! A `let _ =` of a field or of `names`, `tid` or `as_slice` tells the prover what the type keeps of that value, and does
//! nothing.
#![tactic(auto)]

mod directory;
mod folded;
mod node;
mod reaching;
mod tree;

pub use tree::ArenaTree;
