//! The members of a session and their turns, whatever kinds of member there are. They stand in one list, each at its number, and
//! have their turns in rounds of the main thread, in which a pick names the first, or in threads of their own, while the main
//! thread plays its part. A member for which no thread could be had stays with the main thread, and has its turns in its rounds.
//! At the end each has turns until one comes to `Ended`; behind that it has none. Nothing of a member is lost on the way: what
//! comes back is what went, behind some turns of its own.
//!
//! `Playing` is the main thread's part, over any `Rounds`: so one code plays it with members in threads and with members that
//! have their turns in rounds.
#![tactic(auto)]

mod activity;
mod backoff;
mod context;
mod crew;
mod handle;
mod handles;
mod in_either;
mod in_threads;
mod in_turns;
pub mod laws;
mod member;
mod playing;
mod return_flag;
mod rounds;
mod turned;

pub use crew::{Crew, CrewParts};
pub use in_either::play;
pub use in_threads::{ThreadRoom, play_in_threads};
pub use in_turns::play_in_turns;
pub use member::{MemberList, TakesTurns};
pub use playing::Playing;
pub use rounds::Rounds;
pub use turned::Turned;
