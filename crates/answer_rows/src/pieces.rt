//! Files that are read together as those of one run: worked rows over pieces that are made by hand.
use command_words::Tool;
use daq_mem::{FileFail, FileOp, MemFiles, MemSink};
use daq_types::{FileName, NoMemory};
use mid_format::MidFault;
use midas_tools::{InputFault, ToolEnd, analyze_file, check_file};
use std::alloc::Global;
use worked_dumps::{BEGIN, END, EVENT};

/// The end record of a piece of run 1 behind which another piece follows: at the time of the start, with an empty dump.
const PIECE_END: &[u8] = b"\x01\x80\x4D\x49\x01\x00\x00\x00\xE8\x03\x00\x00\x00\x00\x00\x00";

/// The two records of run 2, with empty dumps.
const OTHER_BEGIN: &[u8] = b"\x00\x80\x4D\x49\x02\x00\x00\x00\xF2\x03\x00\x00\x00\x00\x00\x00";

const OTHER_END: &[u8] = b"\x01\x80\x4D\x49\x02\x00\x00\x00\xFC\x03\x00\x00\x00\x00\x00\x00";

/// The files that are there, and their parts.
const FILES: &[(&str, &[&[u8]])] = &[
    // Two events, in 285 bytes.
    ("a0", &[BEGIN, EVENT, EVENT, PIECE_END]),
    // One event, in 421 bytes.
    ("a1", &[BEGIN, EVENT, END]),
    // No event, in 205 bytes.
    ("a2", &[BEGIN, PIECE_END]),
    ("b0", &[OTHER_BEGIN, OTHER_END]),
    // A begin record of run 2, and the end record of run 1.
    ("b1", &[OTHER_BEGIN, PIECE_END]),
    // A file of run 1 that is cut within its event, and one within its begin record.
    ("cut", &[BEGIN, b"\x01\x00\x00\x00"]),
    ("head", &[b"\x00\x80\x4D\x49\x02\x00"]),
];

/// A tool, the names of files, and the end and the text that it comes to.
type Row = (Tool, &'static [&'static str], ToolEnd, &'static str);

/// What the tools print of several files.
const ROWS: &[Row] = &[
    (
        Tool::Check,
        &["a0", "a1"],
        ToolEnd::Done,
        "ok run 1 events 3 bytes 706\n",
    ),
    (
        Tool::Check,
        &["a1", "a2", "a0"],
        ToolEnd::Done,
        "ok run 1 events 3 bytes 911\n",
    ),
    (
        Tool::Analyze,
        &["a0", "a1"],
        ToolEnd::Done,
        "run 1\nevents 3\nid 1 count 3\n\
         bank GEN0 UINT32 count 3 sum 5453008644 least 1817669548 greatest 1817669548\n\
         rest ids 0 banks 0 bad 0\n",
    ),
    // One that is named twice counts twice.
    (
        Tool::Check,
        &["b0", "b0"],
        ToolEnd::Done,
        "ok run 2 events 0 bytes 64\n",
    ),
    // A file of another run, whatever else is wrong with it behind its begin record, and where it stands.
    (
        Tool::Check,
        &["a0", "b0"],
        ToolEnd::Input(InputFault::OtherRun { file: 1, run: 2 }),
        "bad OtherRun 1 2 in b0\n",
    ),
    (
        Tool::Analyze,
        &["a0", "a1", "b1"],
        ToolEnd::Input(InputFault::OtherRun { file: 2, run: 2 }),
        "bad OtherRun 2 2 in b1\n",
    ),
    (
        Tool::Check,
        &["b0", "cut"],
        ToolEnd::Input(InputFault::OtherRun { file: 1, run: 1 }),
        "bad OtherRun 1 1 in cut\n",
    ),
    // A fault has its place in its own file.
    (
        Tool::Check,
        &["a0", "cut", "a1"],
        ToolEnd::Input(InputFault::Mid(MidFault::Truncated { at: 193 })),
        "bad Truncated 193 in cut\n",
    ),
    (
        Tool::Check,
        &["a0", "head"],
        ToolEnd::Input(InputFault::Mid(MidFault::Truncated { at: 6 })),
        "bad Truncated 6 in head\n",
    ),
    (
        Tool::Analyze,
        &["b1", "b0"],
        ToolEnd::Input(InputFault::Mid(MidFault::BadRecord { at: 16 })),
        "bad BadRecord 16 in b1\n",
    ),
    // The first name that is wrong is told.
    (
        Tool::Check,
        &["a0", "no", "b0"],
        ToolEnd::Input(InputFault::Missing),
        "bad Missing in no\n",
    ),
    (
        Tool::Check,
        &["a0", "a1.gz", "no"],
        ToolEnd::Input(InputFault::Compressed),
        "bad Compressed in a1.gz\n",
    ),
];

/// The files, of which these calls fail.
fn files_of(alloc: Global, fails: &[FileFail]) -> Result<MemFiles, NoMemory> {
    let mut files = MemFiles::new(alloc, 8, 1000, fails.to_vec(alloc)?)?;
    for (text, parts) in FILES {
        let mut bytes = Vec::new(alloc);
        for part in *parts {
            bytes.extend_from_slice(part)?;
        }
        if let Ok(name) = FileName::new(text) {
            files.add(name, bytes)?;
        }
    }
    Ok(files)
}

/// The names of these files.
fn names_of(alloc: Global, texts: &[&str]) -> Result<Vec<FileName>, NoMemory> {
    let mut names = Vec::new(alloc);
    for text in texts {
        if let Ok(name) = FileName::new(text) {
            names.push(name)?;
        }
    }
    Ok(names)
}

/// How a tool ends over the files of these names, where there are some.
fn end_of(
    alloc: Global,
    tool: Tool,
    files: MemFiles,
    names: &[FileName],
    out: &mut MemSink,
) -> Option<ToolEnd> {
    if names.is_empty() || names.len() > 10_000 {
        return None;
    }
    let (end, _files) = match tool {
        Tool::Analyze => analyze_file(alloc, files, names, out),
        _ => check_file(alloc, files, names, out),
    };
    Some(end)
}

/// Whether a tool ends so over the files of these names, of which these calls fail, and prints this.
fn ends_so(alloc: Global, row: &Row, fails: &[FileFail]) -> Result<bool, NoMemory> {
    let (tool, texts, end, text) = row;
    let files = files_of(alloc, fails)?;
    let names = names_of(alloc, texts)?;
    let mut out = MemSink::new(alloc, 1000, Vec::new(alloc))?;
    let found = end_of(alloc, *tool, files, names.as_slice(), &mut out);
    Ok(found == Some(*end) && out.bytes() == text.as_bytes())
}

#[test]
fn files_of_one_run(rt: HostRuntime) {
    for row in ROWS {
        let is_right = ends_so(rt.alloc(), row, &[]);
        assert!(rt; matches!(is_right, Ok(true)), "{row:?}");
    }
}

/// Calls on the second of two files that fail, each by itself.
const FAILS: &[FileFail] = &[
    FileFail {
        op: FileOp::OpenRead,
        call: 1,
    },
    FileFail {
        op: FileOp::Read,
        call: 2,
    },
    FileFail {
        op: FileOp::Close,
        call: 1,
    },
];

#[test]
fn a_call_on_a_later_file_that_fails(rt: HostRuntime) {
    let row = (Tool::Check, ["a0", "a1"].as_slice(), ToolEnd::FileFault, "");
    for fail in FAILS {
        let is_right = ends_so(rt.alloc(), &row, &[*fail]);
        assert!(rt; matches!(is_right, Ok(true)), "{fail:?}");
    }
}
