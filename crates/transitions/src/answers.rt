use daq_types::{BoundedList, ChannelEnd, FrontEnded, Why};

/// How many tallies a transition has at most: a refused start has turns of start and of start-abort.
pub const TALLIES: usize = 128;

/// What a client answers to its turn.
#[derive(Drop)]
pub enum Answer<R> {
    Yes(Tally<R>),
    /// The client refuses. Only a start can be refused.
    No(Why),
}

/// What a client has to tell of a transition.
#[derive(Drop)]
pub enum Tally<R> {
    Plain,
    /// What a front-end sent, and why it sends no more.
    Front { sent: u64, ended: FrontEnded },
    /// What became of the files of the logger's channels.
    Channels([ChannelEnd; 16]),
    /// What a client made of the run.
    Report(R),
}

/// What this client told.
#[derive(Drop)]
pub struct ClientTally<R> {
    pub client: u32,
    pub tally: Tally<R>,
}

/// What clients told, in the order of their answers, in room that was taken once.
pub type Tallies<R> = BoundedList<ClientTally<R>, TALLIES>;
