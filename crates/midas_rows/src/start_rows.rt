//! Starts that are refused, pauses, and lines that come in the wrong state.
use crate::rows::{PLAIN, Repeated, Row};

/// The rows.
pub static START_ROWS: [Row; 16] = [
    Row {
        title: "A start that is refused for a taken name",
        script: "start\nget \"/Runinfo/Run number\"\n",
        old_files: &[("run00001.mid", &[b"as it was"])],
        run_files: &["run00001.mid"],
        ..PLAIN
    },
    Row {
        title: "A front-end that gets no turn of a start that is refused for a taken name",
        script: "start\nwatch /Equipment\nstart\nnotes 0\nset \"/Runinfo/Run number\" 1\nstart\n\
            notes 0\nstop\n",
        old_files: &[("run00001.mid", &[b"as it was"])],
        run_files: &["run00001.mid"],
        ..PLAIN
    },
    Row {
        title: "Two channels whose patterns give one name",
        script: "channel 0 run%05d.mid SYSTEM 65535 65535\n\
            channel 1 run%05d.mid SYSTEM 65535 65535\nstart\n",
        run_files: &["run00001.mid"],
        ..PLAIN
    },
    Row {
        title: "A start that is refused for a limit",
        script: "equip FE 1 0 SYSTEM 10\nevents 11\nstart\nevents 10\nstart\nstop\n",
        ..PLAIN
    },
    Row {
        title: "A start that is refused beside an analyzer",
        script: "equip FE 1 0 SYSTEM 10\nanalyzer ANA SYSTEM 65535 65535 all\nevents 11\nstart\n\
            events 10\nstart\nstop\n",
        ..PLAIN
    },
    Row {
        title: "A run that is paused and goes on",
        script: "events 3\nstart\npause\npause\nget /Runinfo/State\nresume\nstop\n",
        ..PLAIN
    },
    Row {
        title: "A watch on all, over a run that is paused and goes on",
        script: "watch /\nevents 2\nstart\npause\nnotes 0\nresume\nstop\nnotes 0\n",
        ..PLAIN
    },
    Row {
        title: "A run that is stopped from a pause",
        script: "events 5\nstart\npause\nstop\n",
        run_files: &["run00001.mid"],
        scheduled: true,
        ..PLAIN
    },
    Row {
        title: "A pause without a run",
        script: "pause\n",
        ..PLAIN
    },
    Row {
        title: "A stop without a run",
        script: "stop\n",
        ..PLAIN
    },
    Row {
        title: "A line that is no command",
        script: "frob\n",
        ..PLAIN
    },
    Row {
        title: "A quote that is not closed, a line that is too long, and the lines behind it",
        script: "set \"/A\n",
        repeated: Some(Repeated {
            line: " ",
            times: 4097,
            behind: "\nls /\nfrob\n",
        }),
        ..PLAIN
    },
    Row {
        title: "Lines without a run, and one that is no command",
        script: "stop\npause\nresume\n\nfrob\n",
        ..PLAIN
    },
    Row {
        title: "Declarations behind a start that is no command, and behind one that is refused",
        script: "set \"/Runinfo/Run number\" -1\nstart now\nbuffer X 256\nstart\nbuffer Y 256\n",
        ..PLAIN
    },
    Row {
        title: "A second start, and a run that is still on at the end",
        script: "start\r\nstart\r\n",
        ..PLAIN
    },
    Row {
        title: "A script that ends in a run",
        script: "start\nexit\nfrob\n",
        ..PLAIN
    },
];
