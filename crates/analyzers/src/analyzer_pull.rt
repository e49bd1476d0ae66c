/// What an analyzer got from its buffer.
#[derive(Clone, Copy, PartialEq, Eq)]
pub enum AnalyzerPull {
    /// The event of this place, which is one of the run and was counted.
    Folded { place: u64 },
    /// The event of this place, which has another start number than the run.
    Dropped { place: u64 },
    /// Nothing.
    Nothing,
}
