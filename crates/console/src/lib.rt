//! The lines of a script and what they are answered: each line is read, answered by whatever answers it, and its reply
//! written; the text of the replies, and the lines that were refused; the online database as the lines command it. Where the
//! lines end, a run that is still on is stopped.
#![tactic(auto)]

mod answerer;
mod closing;
mod console;
mod database_console;
mod endings;
mod going;
mod halts;
pub mod laws;
mod line_loop;
mod noting;
mod play_end;
mod playing;
mod refusals;
mod replies;
mod reply_console;
pub mod script_laws;

pub use answerer::Answerer;
pub use closing::{close_lines, play_out};
pub use database_console::DatabaseConsole;
pub use endings::Ending;
pub use going::Going;
pub use halts::Halt;
pub use line_loop::LineLoop;
pub use play_end::PlayEnd;
pub use playing::{play_on, play_script};
pub use refusals::Refusals;
pub use replies::Reply;
