use crate::faults::MidFault;
use event::Header;

/// How far a run file was read.
#[derive(Clone, Copy, Debug, PartialEq, Eq)]
pub struct Progress {
    /// The header of the begin record, where that was read.
    pub begin: Option<Header>,
    /// The header of the end record, where that was read.
    pub last: Option<Header>,
    /// The bytes of the records and events that were read, with those of the files before.
    pub at: u64,
    /// The fault that was met.
    pub fault: Option<MidFault>,
}
