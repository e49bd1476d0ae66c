//! The script's commands of the online database, on its rows, its watches and its dumps: which calls on the database and its
//! files each makes, what it is answered, and the text that the console shows. A file of the database is read whole, or
//! written whole and closed; what came of it is told with the counts of faults and of clashes.
#![tactic(auto)]

mod commands;
mod dump_replies;
mod dump_texts;
mod dumps;
mod file_reading;
mod file_replies;
pub mod laws;
mod reading;
mod replies;
mod texts;
mod watch_commands;
pub mod watch_laws;
mod watch_replies;
mod watches;
mod writing;

pub use commands::run_command;
pub use dump_replies::{FileRead, FileReply};
pub use file_reading::read_file;
pub use file_replies::FileReplies;
pub use reading::{read_path, settled};
pub use replies::{CommandRefusal, CommandReply};
pub use texts::begin_refusal;
pub use watch_commands::run_watch_command;
pub use watch_replies::{ToldNote, ToldNotes, WatchAnswer, WatchCommandRefusal, WatchReply};
pub use writing::write_file;
