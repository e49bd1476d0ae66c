use daq_types::{BoundedList, Kind, Name};
use mid_logger::ChannelSpec;

/// A buffer of a session.
#[derive(Clone, Copy, Debug)]
pub struct BufferDeclared {
    /// Its name.
    pub name: Name,
    /// Its size in bytes, a multiple of 8 from 256 to 268,435,456.
    pub size: u32,
}

/// A front-end of a session, which generates its events.
#[derive(Clone, Copy, Debug)]
pub struct FrontDeclared {
    /// Its name.
    pub name: Name,
    /// The id of its events, 1 to 32,767.
    pub id: u16,
    /// The trigger mask of its events.
    pub mask: u16,
    /// The number of the buffer that it sends into.
    pub buffer: u32,
    /// The most events of a run that it can send.
    pub limit: u32,
}

/// An analyzer of a session, which counts what it asks for.
#[derive(Clone, Copy, Debug)]
pub struct AnalyzerDeclared {
    /// Its name.
    pub name: Name,
    /// The number of the buffer that it reads.
    pub buffer: u32,
    /// The id of the events that it asks for, 65,535 for those of any.
    pub id: u16,
    /// Their trigger mask, 65,535 for any.
    pub mask: u16,
    /// Whether senders wait for it.
    pub kind: Kind,
}

/// The lists of a session's declarations, each in its order and in room for as many as there may be.
#[derive(Drop)]
pub struct DeclaredLists {
    /// The buffers. A buffer's number is its place.
    pub buffers: BoundedList<BufferDeclared, 8>,
    /// The front-ends.
    pub fronts: BoundedList<FrontDeclared, 32>,
    /// The channels of the logger.
    pub channels: BoundedList<ChannelSpec, 16>,
    /// The analyzers.
    pub analyzers: BoundedList<AnalyzerDeclared, 8>,
}
