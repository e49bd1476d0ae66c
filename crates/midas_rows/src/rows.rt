//! A script of the table, and what is shown of it.
use daq_mem::FileFail;

/// A line that stands so often, and what stands behind it.
#[derive(Clone, Copy)]
pub struct Repeated {
    pub line: &'static str,
    pub times: u32,
    pub behind: &'static str,
}

/// An order of the events of two front-ends: the id and the serial number of each.
pub type Order = &'static [(u32, u32)];

/// A script, the outside that it meets, and what is shown behind it.
#[derive(Clone, Copy)]
pub struct Row {
    pub title: &'static str,
    pub script: &'static str,
    /// What the script ends with.
    pub repeated: Option<Repeated>,
    /// Run files that are there already: the name of each, and the parts of its bytes.
    pub old_files: &'static [(&'static str, &'static [&'static [u8]])],
    /// A file of the database: name and text.
    pub dump: Option<(&'static str, &'static str)>,
    /// How many bytes a file may have.
    pub room: u64,
    /// Which calls fail: reads of the script and writes of the console, counted from 0, and calls on the files.
    pub source_fails: &'static [u64],
    pub sink_fails: &'static [u64],
    pub run_fails: &'static [FileFail],
    pub dump_fails: &'static [FileFail],
    /// Which run files and which files of the database are shown.
    pub run_files: &'static [&'static str],
    pub dumps: &'static [&'static str],
    /// The words of tools that are called then.
    pub tools: &'static [&'static [&'static str]],
    /// The orders in one of which the events of the first run stand, where that is looked at.
    pub orders: &'static [Order],
    /// Whether what comes of it rests on the order in which threads have their turns.
    pub scheduled: bool,
}

/// A row of which nothing but the text is shown.
pub const PLAIN: Row = Row {
    title: "",
    script: "",
    repeated: None,
    old_files: &[],
    dump: None,
    room: 2000,
    source_fails: &[],
    sink_fails: &[],
    run_fails: &[],
    dump_fails: &[],
    run_files: &[],
    dumps: &[],
    tools: &[],
    orders: &[],
    scheduled: false,
};

/// The tools on the file of run 1.
pub const TOOLS: &[&[&str]] = &[
    &["check", "run00001.mid"],
    &["dump", "run00001.mid"],
    &["analyze", "run00001.mid"],
];
