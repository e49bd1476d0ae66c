use daq_types::Order;

/// A run that a front-end takes part in.
#[derive(Clone, Copy)]
pub struct FrontRun {
    /// The order of its start.
    pub order: Order,
    /// Whether it is paused.
    pub paused: bool,
    /// How many events were sent.
    pub sent: u32,
    /// What the buffer took in all, where it told that it takes no more.
    pub spent: Option<u64>,
    /// The order of its stop, where that is not answered yet.
    pub stop: Option<Order>,
}
