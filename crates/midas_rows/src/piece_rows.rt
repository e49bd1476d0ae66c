//! Runs whose channels write several files each.
use crate::rows::{PLAIN, Row};
use daq_mem::{FileFail, FileOp};

/// The first two files of run 1.
const FIRST_FILES: &[&str] = &["run00001sub0000.mid", "run00001sub0001.mid"];

/// Three events of 40, 40 and 48 bytes, of which the first two fit into a file behind its begin record, and the third does not.
const THREE_EVENTS: &str = "channel 0 run%05dsub%04d.mid SYSTEM 65535 65535 300\n\
    events 3\nstart\nstop\n";

/// The rows.
pub static PIECE_ROWS: [Row; 8] = [
    Row {
        title: "A run in two files, and a later one",
        script: "channel 0 run%05dsub%04d.mid SYSTEM 65535 65535 300\n\
            events 3\nstart\nstop\nevents 0\nstart\nstop\n",
        run_files: FIRST_FILES,
        tools: &[
            &["check", "run00001sub0000.mid", "run00001sub0001.mid"],
            &["analyze", "run00001sub0000.mid", "run00001sub0001.mid"],
            &["check", "run00001sub0000.mid", "run00002sub0000.mid"],
        ],
        ..PLAIN
    },
    Row {
        title: "A run whose second file has a name that is taken",
        script: THREE_EVENTS,
        old_files: &[("run00001sub0001.mid", &[b"as it was"])],
        run_files: FIRST_FILES,
        tools: &[&["check", "run00001sub0000.mid"]],
        ..PLAIN
    },
    Row {
        title: "A run without events, whose file has a limit",
        script: "channel 0 run%05dsub%04d.mid SYSTEM 65535 65535 300\nstart\nstop\n",
        run_files: FIRST_FILES,
        tools: &[&["check", "run00001sub0000.mid"]],
        ..PLAIN
    },
    Row {
        title: "Limits one byte below what a begin record and two events have, at it, and above it",
        script: "channel 0 a%05dsub%04d.mid SYSTEM 65535 65535 268\n\
            channel 1 b%05dsub%04d.mid SYSTEM 65535 65535 269\n\
            channel 2 c%05dsub%04d.mid SYSTEM 65535 65535 270\nevents 3\nstart\nstop\n",
        tools: &[
            &["check", "a00001sub0000.mid"],
            &["check", "a00001sub0001.mid"],
            &["check", "a00001sub0002.mid"],
            &["check", "b00001sub0000.mid"],
            &["check", "b00001sub0001.mid"],
            &["check", "c00001sub0000.mid"],
            &["check", "c00001sub0001.mid"],
            &[
                "analyze",
                "a00001sub0000.mid",
                "a00001sub0001.mid",
                "a00001sub0002.mid",
            ],
        ],
        ..PLAIN
    },
    Row {
        title: "A limit that no event fits in",
        script: "channel 0 run%05dsub%04d.mid SYSTEM 65535 65535 1\nevents 3\nstart\nstop\n",
        tools: &[&[
            "check",
            "run00001sub0000.mid",
            "run00001sub0001.mid",
            "run00001sub0002.mid",
        ]],
        ..PLAIN
    },
    Row {
        title: "Two channels, of which one has the name of the other's second file",
        script: "channel 0 x%05d%04d.mid SYSTEM 65535 65535 300\n\
            channel 1 x%05d0001.mid SYSTEM 65535 65535\nevents 3\nstart\nstop\n",
        tools: &[&["check", "x000010000.mid"], &["check", "x000010001.mid"]],
        ..PLAIN
    },
    Row {
        title: "A start that is refused behind the making of a first file",
        script: "equip FE 1 0 SYSTEM 2\nchannel 0 run%05dsub%04d.mid SYSTEM 65535 65535 300\n\
            events 3\nstart\n",
        run_files: FIRST_FILES,
        ..PLAIN
    },
    Row {
        title: "Channels whose pattern does not go with their limit",
        script: "channel 0 run%05d.mid SYSTEM 65535 65535 300\n\
            channel 0 run%05dsub%04d.mid SYSTEM 65535 65535\n\
            channel 0 run%05dsub%04d.mid SYSTEM 65535 65535 0\n\
            channel 0 sub%04drun%05d.mid SYSTEM 65535 65535 300\n\
            channel 0 run%05dsub%04d%04d.mid SYSTEM 65535 65535 300\n\
            channel 0 run%05dsub%04d.mid SYSTEM 65535 65535 4294967296\n\
            channel 0 run%05dsub%04d.mid SYSTEM 65535 65535 300 300\n\
            channel 0 run%05dsub%04d.mid SYSTEM 65535 65535 4294967295\n\
            channel 1 run%05d.mid SYSTEM 65535 65535 0\nevents 3\nstart\nstop\n",
        tools: &[
            &["check", "run00001sub0000.mid"],
            &["check", "run00001.mid"],
        ],
        ..PLAIN
    },
];

/// The rows with a call on a run file that fails where the second file is begun.
pub static PIECE_FAULT_ROWS: [Row; 4] = [
    Row {
        title: "A second file that cannot be made",
        script: THREE_EVENTS,
        run_fails: &[FileFail {
            op: FileOp::Create,
            call: 1,
        }],
        tools: &[&["check", "run00001sub0000.mid"]],
        ..PLAIN
    },
    Row {
        title: "A first file that is closed in vain once the second is made",
        script: THREE_EVENTS,
        run_fails: &[FileFail {
            op: FileOp::Close,
            call: 0,
        }],
        tools: &[
            &["check", "run00001sub0000.mid"],
            &["check", "run00001sub0001.mid"],
        ],
        ..PLAIN
    },
    Row {
        title: "The dump of a second begin record that cannot be written",
        script: THREE_EVENTS,
        run_fails: &[FileFail {
            op: FileOp::Append,
            call: 7,
        }],
        tools: &[
            &["check", "run00001sub0000.mid"],
            &["check", "run00001sub0001.mid"],
        ],
        ..PLAIN
    },
    Row {
        title: "An event that cannot be written into a second file",
        script: THREE_EVENTS,
        run_fails: &[FileFail {
            op: FileOp::Append,
            call: 8,
        }],
        tools: &[
            &["check", "run00001sub0000.mid"],
            &["check", "run00001sub0001.mid"],
        ],
        ..PLAIN
    },
];
