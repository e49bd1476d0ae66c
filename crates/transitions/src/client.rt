use crate::Sequences;
use daq_types::Name;

/// How many clients an engine has room for.
pub const ENGINE_CLIENTS: usize = 64;

/// A client that takes part in transitions. Its number is its place in the order of registration.
#[derive(Clone, Copy, Debug)]
pub struct Registered {
    pub name: Name,
    pub sequences: Sequences,
    /// Whether it is to be given the dump of the database.
    pub wants_dump: bool,
    /// Whether it is to be given a blank report at a start.
    pub wants_report: bool,
}
