/// How far the files of a run were read.
#[derive(Clone, Copy)]
pub struct Extent {
    /// How many files.
    pub files: u32,
    /// The number of the run, once a file was read.
    pub run: Option<u32>,
    /// How many bytes the files have together.
    pub bytes: u64,
}
