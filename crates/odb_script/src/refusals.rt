/// The longest line of a script, in bytes without its end. A longer one is no command.
pub const LINE_BYTES: usize = 4096;

/// Why a line is no command.
#[derive(Clone, Copy, Debug, PartialEq, Eq)]
pub enum LineRefusal {
    /// The line has no form; `at` is the place of the first word that no form allows.
    BadCommand { at: u32 },
}
