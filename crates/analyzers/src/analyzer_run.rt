use daq_types::Kind;
use event_report::Report;

/// Which events an analyzer asks for.
#[derive(Clone, Copy)]
pub struct EventRequest {
    /// The id of the events; 65,535 for those of any.
    pub id: u16,
    /// The mask of the triggers; 65,535 for any.
    pub mask: u16,
    /// Whether senders wait for it.
    pub kind: Kind,
}

/// How far an analyzer has read a run.
#[derive(Clone, Copy)]
pub enum AnalyzerStage {
    /// The run is on.
    Counting,
    /// The run was stopped, when the buffer had taken so many events.
    Draining { accepted: u64 },
    /// The client was drained, and its request cancelled.
    Drained,
}

/// A run of which an analyzer counts the events.
#[derive(Drop)]
pub struct AnalyzerRun {
    /// The start number.
    pub start: u32,
    /// The client that reads the buffer.
    pub client: u32,
    /// The number of its request.
    pub request: u32,
    /// How far it was read.
    pub stage: AnalyzerStage,
    /// What was counted.
    pub report: Report,
}
