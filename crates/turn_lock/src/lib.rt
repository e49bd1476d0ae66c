//! A lock that counts: passes take turns at one value, and each turn that ends appends one entry to one history.
//!
//! The history exists for contracts alone and takes no memory: what threads share is one word with the number of the pass
//! that holds the turn, one word that counts the entries modulo 2^64, and one slot with the value. A `Machine` says what
//! data the value stands for and which entries may lead from which data to which. `Turns::new` makes a lock with its
//! passes. A `Call` is a call on the value, which `call` or `try_call` makes in one turn of a pass. They take the turn by
//! `take` or `try_take`, and put the value back by `put`, which appends the entry that a `MadeCall` names. A pass knows a
//! beginning of the history, its own entries in it, and what its failed tries found: numbers, each with the history as it
//! was then. `note` and `meet` carry what one pass has seen to another. `close` takes all passes back and gives the first
//! value, the whole history and the last value; and each number that a try found had the turn then.
//!
//! `specs::Protocol` has the rule that holds between any two atomic steps. There are eight kinds of step: take (compare
//! and exchange of the turn), lift (exchange of the slot, the value out), count (`fetch_add` of 1), lay (exchange of the
//! slot, the value in), free (swap of the turn), split, join and look (loads). No call but `new` takes memory.
#![tactic(auto)]

mod calling;
mod closing;
pub mod laws;
mod lock;
mod object;
mod opening;
mod roster;
mod rule;
mod steps;

pub use closing::{Closed, MissingPass};
pub use lock::{Held, Note, Pass, Taken, Turns};
pub use object::{Call, Machine, MadeCall};
pub use roster::Passes;
