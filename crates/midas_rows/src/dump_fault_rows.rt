//! Sessions with a call on a file of the database that fails.
use crate::rows::{PLAIN, Row};
use daq_mem::{FileFail, FileOp};

/// The rows.
pub static DUMP_FAULT_ROWS: [Row; 7] = [
    Row {
        title: "A dump that cannot be written",
        script: "save a.odb\nls /\n",
        dump_fails: &[FileFail {
            op: FileOp::Append,
            call: 0,
        }],
        dumps: &["a.odb"],
        ..PLAIN
    },
    Row {
        title: "A dump that cannot be made",
        script: "save a.odb\nls /\n",
        dump_fails: &[FileFail {
            op: FileOp::Create,
            call: 0,
        }],
        dumps: &["a.odb"],
        ..PLAIN
    },
    Row {
        title: "A dump that is closed in vain",
        script: "save a.odb\nsave a.odb\n",
        dump_fails: &[FileFail {
            op: FileOp::Close,
            call: 0,
        }],
        dumps: &["a.odb"],
        ..PLAIN
    },
    Row {
        title: "A dump that cannot be opened",
        script: "load a.odb\nls /\nload a.odb\n",
        dump: Some(("a.odb", "[/A]\nx = INT : 5\n")),
        dump_fails: &[FileFail {
            op: FileOp::OpenRead,
            call: 0,
        }],
        ..PLAIN
    },
    Row {
        title: "A dump that cannot be read",
        script: "load a.odb\nls /\nload a.odb\n",
        dump: Some(("a.odb", "[/A]\nx = INT : 5\n")),
        dump_fails: &[FileFail {
            op: FileOp::Read,
            call: 0,
        }],
        ..PLAIN
    },
    Row {
        title: "A dump that is closed in vain once it is read",
        script: "load a.odb\nls /\nload a.odb\n",
        dump: Some(("a.odb", "[/A]\nx = INT : 5\n")),
        dump_fails: &[FileFail {
            op: FileOp::Close,
            call: 0,
        }],
        ..PLAIN
    },
    Row {
        title: "A dump and a run file that cannot be written",
        script: "save a.odb\nevents 3\nstart\nstop\n",
        run_fails: &[FileFail {
            op: FileOp::Append,
            call: 2,
        }],
        dump_fails: &[FileFail {
            op: FileOp::Append,
            call: 0,
        }],
        ..PLAIN
    },
];
