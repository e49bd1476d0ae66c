/// All that the program touches outside itself. It is handed in by value and handed back.
#[derive(Drop)]
pub struct Outside<S, O, F, E, C, K> {
    /// The script.
    pub src: S,
    /// The console text.
    pub out: O,
    /// The run files.
    pub run_files: F,
    /// The files of the database: its dumps.
    pub odb_files: E,
    /// The clock of run starts and stops.
    pub clock: C,
    /// Whose turn comes first in a round of a cooperative run.
    pub pick: K,
}
