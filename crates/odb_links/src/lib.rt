//! An online database that keeps links, over one that keeps none: a link is a STRING key of the database below, whose row's
//! number stands beside it with the path that the link goes to.
//!
//! A `let _ =` of a field or of `names` or `tid` tells the prover what the type keeps of that value, and does nothing.
#![tactic(auto)]

mod leading;
mod links;
mod making;
mod tree;

pub use tree::LinkTree;
