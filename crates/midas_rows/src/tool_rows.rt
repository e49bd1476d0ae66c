//! Words that run no session: tools on files that are there, with calls that fail, and words of no form.
use crate::rows::{PLAIN, Row};
use daq_mem::{FileFail, FileOp};
use worked_dumps::{BEGIN, END, EVENT};

/// The second and the third event of the front-end, of 40 and 48 bytes.
const SECOND_EVENT: &[u8] = b"\
    \x01\x00\x00\x00\x02\x00\x00\x00\xE8\x03\x00\x00\x18\x00\x00\x00\
    \x10\x00\x00\x00\x01\x00\x00\x00\x47\x45\x4E\x30\x06\x00\x08\x00\
    \xD9\x63\xA9\xC4\x55\x1F\xC8\xEA";

const THIRD_EVENT: &[u8] = b"\
    \x01\x00\x00\x00\x03\x00\x00\x00\xE8\x03\x00\x00\x20\x00\x00\x00\
    \x18\x00\x00\x00\x01\x00\x00\x00\x47\x45\x4E\x30\x06\x00\x0C\x00\
    \x06\x58\xFB\x1C\xF7\xB7\x27\x53\x87\xB4\x03\xBC\x00\x00\x00\x00";

/// The end record of a piece of run 1 behind which another piece follows: at the time of the start, with an empty dump.
const PIECE_END: &[u8] = b"\x01\x80\x4D\x49\x01\x00\x00\x00\xE8\x03\x00\x00\x00\x00\x00\x00";

/// The file of run 2, which has no events and empty dumps.
const OTHER_RUN: &[u8] = b"\
    \x00\x80\x4D\x49\x02\x00\x00\x00\xF2\x03\x00\x00\x00\x00\x00\x00\
    \x01\x80\x4D\x49\x02\x00\x00\x00\xFC\x03\x00\x00\x00\x00\x00\x00";

/// The rows.
pub static TOOL_ROWS: [Row; 6] = [
    Row {
        title: "An empty run file",
        script: "",
        old_files: &[("run00001.mid", &[])],
        tools: &[&["check", "run00001.mid"]],
        ..PLAIN
    },
    Row {
        title: "The first bytes of a run file",
        old_files: &[(
            "run00001.mid",
            &[b"\x00\x80\x4D\x49\x01\x00\x00\x00\xE8\x03"],
        )],
        tools: &[&["check", "run00001.mid"]],
        ..PLAIN
    },
    Row {
        title: "A run file without its end record",
        old_files: &[("run00001.mid", &[BEGIN, EVENT])],
        tools: &[&["check", "run00001.mid"]],
        ..PLAIN
    },
    Row {
        title: "A run file with a byte behind its end",
        old_files: &[("run00001.mid", &[BEGIN, EVENT, END, b"\n"])],
        tools: &[&["check", "run00001.mid"]],
        ..PLAIN
    },
    Row {
        title: "Words that run no script",
        script: "",
        tools: &[
            &["check", "run00001.mid.gz"],
            &["check", "no.mid"],
            &["dump", "-"],
            &["analyze", "no.mid"],
            &["gen", "0"],
            &["gen", "000"],
            &[],
            &["check"],
            &["run", "--"],
            &["run", "--cooperative", "--cooperative"],
            &["check", "-v"],
            &["--help"],
            &["gen", "4294967296"],
        ],
        ..PLAIN
    },
    Row {
        title: "Pieces of one run, and a file of another",
        old_files: &[
            (
                "run00001sub0000.mid",
                &[BEGIN, EVENT, SECOND_EVENT, PIECE_END],
            ),
            ("run00001sub0001.mid", &[BEGIN, THIRD_EVENT, END]),
            ("run00002sub0000.mid", &[OTHER_RUN]),
        ],
        tools: &[
            &["check", "run00001sub0000.mid", "run00001sub0001.mid"],
            &["analyze", "run00001sub0000.mid", "run00001sub0001.mid"],
            &["check", "run00001sub0000.mid"],
            &["check", "run00001sub0000.mid", "run00002sub0000.mid"],
            &[
                "analyze",
                "run00001sub0000.mid",
                "run00001sub0001.mid",
                "no.mid",
            ],
            &["check", "no.mid", "run00001sub0000.mid"],
            &["check", "run00002sub0000.mid", "run00002sub0000.mid.gz"],
            &["dump", "run00001sub0000.mid", "run00001sub0001.mid"],
        ],
        ..PLAIN
    },
];

/// Tools of which the first cannot open the file, the second cannot read it, and the third closes it in vain.
const TOOL_FAILS: &[FileFail] = &[
    FileFail {
        op: FileOp::OpenRead,
        call: 0,
    },
    FileFail {
        op: FileOp::Read,
        call: 0,
    },
    FileFail {
        op: FileOp::Close,
        call: 1,
    },
];

/// Each tool four times over such a file.
pub static TOOL_FAULT_ROWS: [Row; 3] = [
    Row {
        title: "Calls of `check` on a file that fail",
        old_files: &[("run00001.mid", &[BEGIN, EVENT, END])],
        run_fails: TOOL_FAILS,
        tools: &[
            &["check", "run00001.mid"],
            &["check", "run00001.mid"],
            &["check", "run00001.mid"],
            &["check", "run00001.mid"],
        ],
        ..PLAIN
    },
    Row {
        title: "Calls of `dump` on a file that fail",
        old_files: &[("run00001.mid", &[BEGIN, EVENT, END])],
        run_fails: TOOL_FAILS,
        tools: &[
            &["dump", "run00001.mid"],
            &["dump", "run00001.mid"],
            &["dump", "run00001.mid"],
            &["dump", "run00001.mid"],
        ],
        ..PLAIN
    },
    Row {
        title: "Calls of `analyze` on a file that fail",
        old_files: &[("run00001.mid", &[BEGIN, EVENT, END])],
        run_fails: TOOL_FAILS,
        tools: &[
            &["analyze", "run00001.mid"],
            &["analyze", "run00001.mid"],
            &["analyze", "run00001.mid"],
            &["analyze", "run00001.mid"],
        ],
        ..PLAIN
    },
];
