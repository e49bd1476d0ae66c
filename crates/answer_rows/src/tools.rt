//! The tools over files in memory: worked rows.
use command_words::Tool;
use daq_mem::{FileFail, FileOp, MemFiles, MemSink};
use daq_types::{FileName, NoMemory};
use midas_tools::{InputFault, ToolEnd, analyze_file, check_file, dump_file};
use std::alloc::{AllocError, Global};
use worked_dumps::{BEGIN, END, EVENT};

/// A file that is made from that of a run of one event, which has 421 bytes.
#[derive(Clone, Copy)]
enum Made {
    /// Its first so many bytes. Behind its end stands one byte.
    Front(usize),
    /// All of it and the byte behind its end, but with these bytes from this place on.
    With(usize, &'static [u8]),
    /// Its front up to the end of the event, and a second event, whose data are longer than what is
    /// read at a time.
    Long,
}

/// A tool over a file, the calls that fail, and the text that is printed.
type Row = (Tool, Made, &'static [FileFail], &'static str);

/// No call fails.
const NONE: &[FileFail] = &[];

/// What the tools print.
const ROWS: &[Row] = &[
    // What is cut, whole, or goes on behind its end.
    (Tool::Check, Made::Front(0), NONE, "bad NoBegin 0\n"),
    (Tool::Check, Made::Front(10), NONE, "bad Truncated 10\n"),
    (Tool::Check, Made::Front(229), NONE, "bad NoEnd 229\n"),
    (
        Tool::Check,
        Made::Front(421),
        NONE,
        "ok run 1 events 1 bytes 421\n",
    ),
    (Tool::Check, Made::Front(422), NONE, "bad AfterEnd 421\n"),
    (Tool::Dump, Made::Front(100), NONE, "bad Truncated 100\n"),
    (
        Tool::Dump,
        Made::Front(189),
        NONE,
        "begin 1 1000 173\nbad NoEnd 189\n",
    ),
    (
        Tool::Dump,
        Made::Front(229),
        NONE,
        "begin 1 1000 173\nevent 1 0 1 1000 24\n  bank GEN0 UINT32 4\nbad NoEnd 229\n",
    ),
    (
        Tool::Dump,
        Made::Front(421),
        NONE,
        "begin 1 1000 173\nevent 1 0 1 1000 24\n  bank GEN0 UINT32 4\nend 1 1010 176\n",
    ),
    (
        Tool::Dump,
        Made::Front(422),
        NONE,
        "begin 1 1000 173\nevent 1 0 1 1000 24\n  bank GEN0 UINT32 4\nend 1 1010 176\n\
         bad AfterEnd 421\n",
    ),
    (Tool::Analyze, Made::Front(0), NONE, "bad NoBegin 0\n"),
    (Tool::Analyze, Made::Front(205), NONE, "bad Truncated 205\n"),
    (Tool::Analyze, Made::Front(229), NONE, "bad NoEnd 229\n"),
    (
        Tool::Analyze,
        Made::Front(421),
        NONE,
        "run 1\nevents 1\nid 1 count 1\n\
         bank GEN0 UINT32 count 1 sum 1817669548 least 1817669548 greatest 1817669548\n\
         rest ids 0 banks 0 bad 0\n",
    ),
    (Tool::Analyze, Made::Front(422), NONE, "bad AfterEnd 421\n"),
    // A second record at the begin, one at the end of another run, and an event that is too long.
    (
        Tool::Check,
        Made::With(229, &[0, 0x80]),
        NONE,
        "bad BadRecord 229\n",
    ),
    (
        Tool::Check,
        Made::With(233, &[2]),
        NONE,
        "bad BadRecord 229\n",
    ),
    (
        Tool::Check,
        Made::With(201, &[1, 0, 0x40, 0]),
        NONE,
        "bad TooBig 189 4194305\n",
    ),
    // Banks that are wrong or have odd names.
    (
        Tool::Dump,
        Made::With(205, &[0x0F]),
        NONE,
        "begin 1 1000 173\nevent 1 0 1 1000 24\n  no banks BadSize 0\nend 1 1010 176\n\
         bad AfterEnd 421\n",
    ),
    (
        Tool::Dump,
        Made::With(205, &[0x11]),
        NONE,
        "begin 1 1000 173\nevent 1 0 1 1000 24\n  no banks Short 24\nend 1 1010 176\n\
         bad AfterEnd 421\n",
    ),
    (
        Tool::Dump,
        Made::With(209, &[2]),
        NONE,
        "begin 1 1000 173\nevent 1 0 1 1000 24\n  no banks BadFlags 2\nend 1 1010 176\n\
         bad AfterEnd 421\n",
    ),
    (
        Tool::Dump,
        Made::With(213, &[0x20]),
        NONE,
        "begin 1 1000 173\nevent 1 0 1 1000 24\n  bank .EN0 UINT32 4\nend 1 1010 176\n\
         bad AfterEnd 421\n",
    ),
    (
        Tool::Dump,
        Made::With(217, &[99]),
        NONE,
        "begin 1 1000 173\nevent 1 0 1 1000 24\n  bank GEN0 99 4\nend 1 1010 176\n\
         bad AfterEnd 421\n",
    ),
    (
        Tool::Dump,
        Made::With(219, &[9]),
        NONE,
        "begin 1 1000 173\nevent 1 0 1 1000 24\n  no banks BadSize 8\nend 1 1010 176\n\
         bad AfterEnd 421\n",
    ),
    // Calls that fail. What `dump` read before is printed.
    (
        Tool::Check,
        Made::Front(421),
        &[FileFail {
            op: FileOp::OpenRead,
            call: 0,
        }],
        "",
    ),
    (
        Tool::Check,
        Made::Front(421),
        &[FileFail {
            op: FileOp::Read,
            call: 1,
        }],
        "",
    ),
    (
        Tool::Check,
        Made::Front(421),
        &[FileFail {
            op: FileOp::Close,
            call: 0,
        }],
        "",
    ),
    (
        Tool::Dump,
        Made::Front(421),
        &[FileFail {
            op: FileOp::Read,
            call: 0,
        }],
        "",
    ),
    (
        Tool::Dump,
        Made::Long,
        &[FileFail {
            op: FileOp::Read,
            call: 1,
        }],
        "begin 1 1000 173\nevent 1 0 1 1000 24\n  bank GEN0 UINT32 4\n",
    ),
    (
        Tool::Dump,
        Made::Front(421),
        &[FileFail {
            op: FileOp::Read,
            call: 1,
        }],
        "begin 1 1000 173\nevent 1 0 1 1000 24\n  bank GEN0 UINT32 4\nend 1 1010 176\n",
    ),
];

/// Names of no file, and what each tool says of them.
const NO_FILES: &[(Tool, &str, InputFault, &str)] = &[
    (
        Tool::Check,
        "run00001.mid.gz",
        InputFault::Compressed,
        "bad Compressed\n",
    ),
    (
        Tool::Dump,
        "run00001.mid.gz",
        InputFault::Compressed,
        "bad Compressed\n",
    ),
    (
        Tool::Analyze,
        "run00001.mid.gz",
        InputFault::Compressed,
        "bad Compressed\n",
    ),
    (Tool::Check, "no.mid", InputFault::Missing, "bad Missing\n"),
    (Tool::Dump, "no.mid", InputFault::Missing, "bad Missing\n"),
    (
        Tool::Analyze,
        "no.mid",
        InputFault::Missing,
        "bad Missing\n",
    ),
];

/// The file of a run of one event, and a byte behind its end.
fn one_event(alloc: Global) -> Result<Vec<u8>, AllocError> {
    let mut file = BEGIN.to_vec(alloc)?;
    file.extend_from_slice(EVENT)?;
    file.extend_from_slice(END)?;
    file.push(b'x')?;
    Ok(file)
}

/// The bytes of a file that is made so.
fn bytes_of(alloc: Global, made: Made) -> Result<Vec<u8>, AllocError> {
    let mut file = one_event(alloc)?;
    match made {
        Made::Front(len) => file.truncate(len),
        Made::With(place, bytes) => {
            for (target, byte) in file.as_mut_slice().iter_mut().skip(place).zip(bytes) {
                *target = *byte;
            }
        }
        Made::Long => {
            file.truncate(229);
            file.extend_from_slice(&[1, 0, 0, 0, 2, 0, 0, 0, 0xE8, 3, 0, 0, 0, 0, 2, 0])?;
            file.resize(131_317, b'x')?;
        }
    }
    Ok(file)
}

/// Files with one of this name, which is made so, where these calls fail.
fn files_with(
    alloc: Global,
    name: FileName,
    made: Made,
    fails: &[FileFail],
) -> Result<MemFiles, NoMemory> {
    let mut files = MemFiles::new(alloc, 1, 150_000, fails.to_vec(alloc)?)?;
    files.add(name, bytes_of(alloc, made)?)?;
    Ok(files)
}

/// How a tool ends over the file of this name, and the files behind it.
fn run_tool(
    alloc: Global,
    tool: Tool,
    files: MemFiles,
    name: &FileName,
    out: &mut MemSink,
) -> (ToolEnd, MemFiles) {
    match tool {
        Tool::Check => check_file(alloc, files, &[*name], out),
        Tool::Dump => dump_file(alloc, files, name, out),
        Tool::Analyze => analyze_file(alloc, files, &[*name], out),
    }
}

/// Whether a tool over these files prints the row's text, ends by a fault of theirs exactly where
/// calls fail, and leaves the file there.
fn is_right_over(
    alloc: Global,
    files: MemFiles,
    name: &FileName,
    row: &Row,
    out: &mut MemSink,
) -> bool {
    let (tool, _, fails, text) = row;
    let (end, files) = run_tool(alloc, *tool, files, name, out);
    let is_faulty = end == ToolEnd::FileFault;
    let is_there = files.find(name).is_some();
    is_there && is_faulty != fails.is_empty() && out.bytes() == text.as_bytes()
}

/// Whether that holds of the files of a row.
fn is_right(alloc: Global, name: FileName, row: &Row) -> Result<bool, NoMemory> {
    let (_, made, fails, _) = row;
    let mut out = MemSink::new(alloc, 1000, Vec::new(alloc))?;
    let files = files_with(alloc, name, *made, fails)?;
    Ok(is_right_over(alloc, files, &name, row, &mut out))
}

#[test]
fn tools_over_made_files(rt: HostRuntime) {
    let name = FileName::new("run00001.mid").expect(&rt, "a name");
    for (place, row) in ROWS.iter().enumerate() {
        let is_right = is_right(rt.alloc(), name, row);
        assert!(rt; matches!(is_right, Ok(true)), "row {place}");
    }
}

/// Whether a tool says this of the name where there are no files.
fn says(
    alloc: Global,
    tool: Tool,
    name: &FileName,
    fault: InputFault,
    line: &str,
    out: &mut MemSink,
) -> Result<bool, NoMemory> {
    let files = MemFiles::new(alloc, 1, 1000, Vec::new(alloc))?;
    let (end, _) = run_tool(alloc, tool, files, name, out);
    Ok(end == ToolEnd::Input(fault) && out.bytes() == line.as_bytes())
}

/// Whether the text is a name of which a tool says so.
fn finds_none(
    alloc: Global,
    tool: Tool,
    text: &str,
    fault: InputFault,
    line: &str,
) -> Result<bool, NoMemory> {
    let Ok(name) = FileName::new(text) else {
        return Ok(false);
    };
    let mut out = MemSink::new(alloc, 1000, Vec::new(alloc))?;
    says(alloc, tool, &name, fault, line, &mut out)
}

#[test]
fn names_that_are_no_file(rt: HostRuntime) {
    for (tool, text, fault, line) in NO_FILES {
        let is_right = finds_none(rt.alloc(), *tool, text, *fault, line);
        assert!(rt; matches!(is_right, Ok(true)), "{text}");
    }
}

/// Whether of the tools, one behind the other over these files, the first alone ends by a fault of the sink.
fn ends_first(alloc: Global, files: MemFiles, name: &FileName, out: &mut MemSink) -> bool {
    let (checked, files) = check_file(alloc, files, &[*name], out);
    let (dumped, files) = dump_file(alloc, files, name, out);
    let (analyzed, _files) = analyze_file(alloc, files, &[*name], out);
    checked == ToolEnd::SinkFault && dumped == ToolEnd::Done && analyzed == ToolEnd::Done
}

/// Whether they do so over a good file, where the first call on their sink fails.
fn ends_after_a_sink_fault(alloc: Global, name: FileName) -> Result<bool, NoMemory> {
    let mut out = MemSink::new(alloc, 1000, [0].to_vec(alloc)?)?;
    let files = files_with(alloc, name, Made::Front(421), NONE)?;
    Ok(ends_first(alloc, files, &name, &mut out))
}

#[test]
fn a_call_on_the_sink_that_fails(rt: HostRuntime) {
    let name = FileName::new("run00001.mid").expect(&rt, "a name");
    let is_right = ends_after_a_sink_fault(rt.alloc(), name);
    assert!(rt; matches!(is_right, Ok(true)));
}
