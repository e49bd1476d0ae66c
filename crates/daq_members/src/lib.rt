//! Members of a session. Each has its place at the engine, where it asks for its turns and answers them, and goes on with its
//! work by what it hears there: a front-end sends its events and says in the database how many it sent, the logger writes the
//! run files, and an analyzer reads the events that it asks for and tells at the stop of a run what it counted. A `Member` is one
//! of these: it keeps its contract over its own calls, and has one kind of turn.
#![tactic(auto)]

pub mod analyzer_laws;
mod analyzer_member;
mod connected_logger;
mod engine_client;
mod front_member;
pub mod laws;
mod logger_member;
mod member;
pub mod member_laws;
mod play;
mod sent_key;
mod traced_port;

pub use analyzer_member::{AnalyzerMember, AnalyzerParts};
pub use engine_client::EngineClient;
pub use front_member::{FrontMember, FrontParts, turned_by};
pub use logger_member::{LoggerMember, LoggerParts};
pub use member::{Member, MemberKind, ask_all};
pub use play::{MemberRoom, Members, play_members};
pub use sent_key::SentKey;
