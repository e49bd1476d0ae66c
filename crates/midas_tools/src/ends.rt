use mid_format::MidFault;

/// What is wrong with what a tool or a session was given to read.
#[derive(Clone, Copy, Debug, PartialEq, Eq)]
pub enum InputFault {
    /// The file is no run file. The fault is the first in the file, at its place there, and never `ReadFault`. Of the files of
    /// one run it is `TooLong` where they would have more than 2^62 bytes together.
    Mid(MidFault),
    /// The name of the file ends as those of compressed files do.
    Compressed,
    /// There is no file of that name.
    Missing,
    /// The script has more than 16,777,216 bytes.
    ScriptTooLong,
    /// This file of those that were named, counted from 0, is of this run, and the first is of another.
    OtherRun { file: u32, run: u32 },
}

/// How a call of a tool ended.
#[derive(Clone, Copy, Debug, PartialEq, Eq)]
pub enum ToolEnd {
    /// The files are those of one run, and all of the text was written.
    Done,
    /// One of them is not, or is not there; all of the text was written.
    Input(InputFault),
    /// A call on the files failed.
    FileFault,
    /// A call on the sink failed.
    SinkFault,
    /// There was no memory.
    NoMemory,
}
