use daq_types::{BoundedList, Bytes};

/// What a transition is begun with.
#[derive(Drop)]
pub struct Sheet<R> {
    pub run: u32,
    /// When the transition is ordered, in seconds since 1970.
    pub time: u32,
    /// How many events each front-end has to send.
    pub quota: u32,
    /// The text of the database, for the client that writes it.
    pub dump: Option<Bytes>,
    /// Blank reports, one for each client that makes a report.
    pub blanks: Reports<R>,
}

/// Reports in a list, given out from its front.
pub type Reports<R> = BoundedList<R, 0>;
