//! What the program `midas` does: the words of its command line, the top call, and the real objects that it runs over.
#![tactic(auto)]

mod causes;
mod generating;
mod outcome;
mod real;
mod tools;
mod top;
mod usage;

pub use causes::Cause;
pub use outcome::{Outcome, Summary};
pub use real::{Called, NotCalled, run_program};
pub use top::midas;
