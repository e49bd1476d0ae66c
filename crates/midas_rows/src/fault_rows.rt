//! Sessions with a call on a stream or on a run file that fails.
use crate::rows::{PLAIN, Row};
use daq_mem::{FileFail, FileOp};

/// The rows.
pub static FAULT_ROWS: [Row; 19] = [
    Row {
        title: "A read of the script that fails",
        script: "events 3\nstart\nstop\n",
        source_fails: &[0],
        ..PLAIN
    },
    Row {
        title: "A write of the console that fails",
        script: "events 0\nstart\nstop\n",
        sink_fails: &[0],
        tools: &[&["check", "run00001.mid"]],
        ..PLAIN
    },
    Row {
        title: "A read of the script that fails within a line",
        script: "stop\nsto",
        source_fails: &[1],
        ..PLAIN
    },
    Row {
        title: "A read of the script that fails in a run",
        script: "events 3\nstart\n",
        source_fails: &[1],
        tools: &[&["check", "run00001.mid"]],
        ..PLAIN
    },
    Row {
        title: "A write of the console that fails at a stop",
        script: "events 3\nstart\nstop\nstart\n",
        sink_fails: &[1],
        tools: &[&["check", "run00001.mid"]],
        ..PLAIN
    },
    Row {
        title: "A write of the console that fails at the stop of a script that ends in a run",
        script: "events 3\nstart\n",
        sink_fails: &[1],
        tools: &[&["check", "run00001.mid"]],
        ..PLAIN
    },
    Row {
        title: "An append to a run file that fails",
        script: "events 3\nstart\nstop\n",
        run_fails: &[FileFail {
            op: FileOp::Append,
            call: 2,
        }],
        run_files: &["run00001.mid"],
        ..PLAIN
    },
    Row {
        title: "A run file that cannot be made",
        script: "events 3\nstart\nstop\n",
        run_fails: &[FileFail {
            op: FileOp::Create,
            call: 0,
        }],
        run_files: &["run00001.mid"],
        ..PLAIN
    },
    Row {
        title: "The header of a begin record that cannot be written",
        script: "events 3\nstart\nstop\n",
        run_fails: &[FileFail {
            op: FileOp::Append,
            call: 0,
        }],
        run_files: &["run00001.mid"],
        ..PLAIN
    },
    Row {
        title: "The dump of a begin record that cannot be written",
        script: "events 3\nstart\nstop\n",
        run_fails: &[FileFail {
            op: FileOp::Append,
            call: 1,
        }],
        run_files: &["run00001.mid"],
        ..PLAIN
    },
    Row {
        title: "The header of an end record that cannot be written",
        script: "events 3\nstart\nstop\n",
        run_fails: &[FileFail {
            op: FileOp::Append,
            call: 5,
        }],
        tools: &[&["check", "run00001.mid"]],
        ..PLAIN
    },
    Row {
        title: "The dump of an end record that cannot be written",
        script: "events 3\nstart\nstop\n",
        run_fails: &[FileFail {
            op: FileOp::Append,
            call: 6,
        }],
        tools: &[&["check", "run00001.mid"]],
        ..PLAIN
    },
    Row {
        title: "A run file that is closed in vain",
        script: "events 3\nstart\nstop\n",
        run_fails: &[FileFail {
            op: FileOp::Close,
            call: 0,
        }],
        tools: &[&["check", "run00001.mid"]],
        ..PLAIN
    },
    Row {
        title: "A file of a refused start that cannot be removed",
        script: "equip FE 1 0 SYSTEM 10\nevents 11\nstart\nevents 10\nstart\nstop\n",
        run_fails: &[FileFail {
            op: FileOp::Remove,
            call: 0,
        }],
        run_files: &["run00001.mid"],
        ..PLAIN
    },
    Row {
        title: "A file of a refused start that is closed in vain",
        script: "equip FE 1 0 SYSTEM 10\nevents 11\nstart\nevents 10\nstart\nstop\n",
        run_fails: &[FileFail {
            op: FileOp::Close,
            call: 0,
        }],
        ..PLAIN
    },
    Row {
        title: "A channel that breaks off, and holds up no front-end",
        script: "buffer SYSTEM 256\nevents 100\nstart\nstop\n",
        run_fails: &[FileFail {
            op: FileOp::Append,
            call: 2,
        }],
        tools: &[&["check", "run00001.mid"]],
        ..PLAIN
    },
    Row {
        title: "Two channels, the second of whose files cannot be made",
        script: "channel 0 a%05d.mid SYSTEM 65535 65535\nchannel 1 b%05d.mid SYSTEM 65535 65535\n\
            start\n",
        run_fails: &[FileFail {
            op: FileOp::Create,
            call: 1,
        }],
        run_files: &["a00001.mid"],
        ..PLAIN
    },
    Row {
        title: "Two channels, of which the first breaks off at its end record",
        script: "channel 0 a%05d.mid SYSTEM 65535 65535\nchannel 1 b%05d.mid SYSTEM 65535 65535\n\
            events 3\nstart\nstop\n",
        run_fails: &[FileFail {
            op: FileOp::Append,
            call: 10,
        }],
        tools: &[&["check", "a00001.mid"], &["check", "b00001.mid"]],
        ..PLAIN
    },
    Row {
        title: "Two channels, both of whose files are closed in vain",
        script: "channel 0 a%05d.mid SYSTEM 65535 65535\nchannel 1 b%05d.mid SYSTEM 65535 65535\n\
            events 3\nstart\nstop\n",
        run_fails: &[
            FileFail {
                op: FileOp::Close,
                call: 0,
            },
            FileFail {
                op: FileOp::Close,
                call: 1,
            },
        ],
        tools: &[&["check", "a00001.mid"], &["check", "b00001.mid"]],
        ..PLAIN
    },
];
