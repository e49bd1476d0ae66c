/// What a client makes of a run. The engine gives it a blank one with its turn of a start, and takes it back, filled, with
/// its answer to the stop; what it counts is the client's affair.
pub trait ClientReport {
    // It tells of nothing yet.
    ghost is_blank: { Self → Type 0 };
}
