use daq_types::BoundedList;
use event::EventBuf;

/// The request by which a builder reads an input.
#[derive(Clone, Copy)]
pub struct InputRequest {
    /// The client.
    pub client: u32,
    /// The number of its request.
    pub number: u32,
}

/// How far an input has been read of a run.
#[derive(Clone, Copy)]
pub enum InputStop {
    /// The run was not stopped.
    Open,
    /// The run was stopped, when the buffer had taken so many events.
    Stopped { accepted: u64 },
    /// All that the buffer had taken by then was read.
    Drained,
}

/// One of the front-ends of a builder, and what the builder has of it.
#[derive(Drop)]
pub struct BuilderInput {
    /// The id of the front-end's events.
    pub front: u16,
    /// The client that reads the front-end's buffer, once it was attached.
    pub client: Option<u32>,
    /// Its request, while that lives.
    pub request: Option<InputRequest>,
    /// Whether an event is held that is to be built with.
    pub held: bool,
    /// How far the run was read.
    pub stop: InputStop,
    /// The event that was got last.
    pub event: EventBuf,
}

/// The inputs of a builder, in the order of its front-ends.
pub type Inputs = BoundedList<BuilderInput, 8>;

/// The ports of a builder's inputs, in the same order.
pub type Ports<P> = BoundedList<P, 8>;
