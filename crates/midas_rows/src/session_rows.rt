//! Sessions with their members.
use crate::rows::{Order, PLAIN, Row, TOOLS};

/// The orders of one event of each of two front-ends.
const ONE_EACH: &[Order] = &[&[(1, 1), (2, 1)], &[(2, 1), (1, 1)]];

/// Those of two events of each.
const TWO_EACH: &[Order] = &[
    &[(1, 1), (1, 2), (2, 1), (2, 2)],
    &[(1, 1), (2, 1), (1, 2), (2, 2)],
    &[(1, 1), (2, 1), (2, 2), (1, 2)],
    &[(2, 1), (1, 1), (1, 2), (2, 2)],
    &[(2, 1), (1, 1), (2, 2), (1, 2)],
    &[(2, 1), (2, 2), (1, 1), (1, 2)],
];

/// The rows.
pub static SESSION_ROWS: [Row; 15] = [
    Row {
        title: "An empty script",
        script: "",
        ..PLAIN
    },
    Row {
        title: "A run of no event",
        script: "events 0\nstart\nstop\n",
        run_files: &["run00001.mid"],
        ..PLAIN
    },
    Row {
        title: "A run of one event, and what the tools say of its file",
        script: "events 1\nstart\nstop\n",
        tools: TOOLS,
        ..PLAIN
    },
    Row {
        title: "A run of three events",
        script: "events 3\nstart\nstop\n",
        run_files: &["run00001.mid"],
        tools: TOOLS,
        ..PLAIN
    },
    Row {
        title: "Two runs, and the number that the front-end sets",
        script: "events 1\nstart\nstop\nget \"/Equipment/FE/Events sent\"\nstart\nstop\n",
        ..PLAIN
    },
    Row {
        title: "A run number that is set within a run",
        script: "start\nset \"/Runinfo/Run number\" 5\nstop\nstart\nstop\n",
        ..PLAIN
    },
    Row {
        title: "A watch on the run's parameters",
        script: "watch /Runinfo\nstart\nnotes 0\nstop\nnotes 0\n",
        ..PLAIN
    },
    Row {
        title: "Two front-ends and an analyzer",
        script: "equip A 1 0 SYSTEM\nequip B 2 0 SYSTEM\n\
            analyzer ANA SYSTEM 65535 65535 all\nevents 1\nstart\nstop\n",
        tools: &[&["check", "run00001.mid"], &["analyze", "run00001.mid"]],
        orders: ONE_EACH,
        ..PLAIN
    },
    Row {
        title: "Two events of two front-ends, and an analyzer",
        script: "equip A 1 0 SYSTEM\nequip B 2 0 SYSTEM\n\
            analyzer ANA SYSTEM 65535 65535 all\nevents 2\nstart\nstop\n",
        tools: &[&["check", "run00001.mid"], &["analyze", "run00001.mid"]],
        orders: TWO_EACH,
        ..PLAIN
    },
    Row {
        title: "Two detectors with a file for each, and declarations that are refused",
        script: "buffer BUF 4096\nequip A 1 0 SYSTEM\nequip B 2 0 BUF\nequip C 2 0 BUF\n\
            channel 3 b%05d.mid BUF 65535 65535\nchannel 0 run%05d.mid SYSTEM 65535 65535\n\
            events 4\nstart\nstop\nbuffer X 256\n",
        tools: &[&["analyze", "b00001.mid"]],
        ..PLAIN
    },
    Row {
        title: "Analyzers by id and by mask",
        script: "buffer SMALL 256\nequip A 1 1 SMALL\nequip B 2 2 SMALL\n\
            channel 0 run%05d.mid SMALL 65535 65535\nchannel 1 a%05d.mid SMALL 1 65535\n\
            analyzer ALL SMALL 65535 65535 all\nanalyzer IDS SMALL 1 65535 some\n\
            analyzer MASKS SMALL 65535 2 all\nevents 9\nstart\nstop\nstart\npause\nresume\n\
            stop\n",
        tools: &[
            &["analyze", "run00001.mid"],
            &["analyze", "a00001.mid"],
            &["check", "run00002.mid"],
            &["analyze", "a00002.mid"],
        ],
        scheduled: true,
        ..PLAIN
    },
    Row {
        title: "An analyzer that misses events",
        script: "buffer SMALL 256\nequip A 1 1 SMALL\nequip B 2 2 SMALL\n\
            channel 0 a%05d.mid SMALL 1 65535\nchannel 1 b%05d.mid SMALL 65535 2\n\
            analyzer SLOW SMALL 65535 65535 some\nevents 8\nstart\nstop\n",
        tools: &[&["check", "a00001.mid"], &["check", "b00001.mid"]],
        scheduled: true,
        ..PLAIN
    },
    Row {
        title: "Analyzers that are refused",
        script: "analyzer \"\" NONE 1 1 all\n\
            analyzer 01234567890123456789012345678901 NONE 1 1 all\nanalyzer A/B NONE 1 1 some\n\
            equip FE 1 0 SYSTEM\nanalyzer fe NONE 1 1 all\nanalyzer LOGGER SYSTEM 1 1 all\n\
            analyzer A NONE 1 1 all\nanalyzer A system 1 65535 some\nanalyzer a SYSTEM 1 1 all\n\
            equip A 2 0 SYSTEM\nanalyzer B SYSTEM 65536 1 all\nanalyzer B SYSTEM 1 1\n\
            analyzer B SYSTEM 1 1 none\nanalyzer B SYSTEM 1 1 all\nanalyzer C SYSTEM 1 1 all\n\
            analyzer D SYSTEM 1 1 all\nanalyzer E SYSTEM 1 1 all\nanalyzer F SYSTEM 1 1 all\n\
            analyzer G SYSTEM 1 1 all\nanalyzer H SYSTEM 1 1 all\nanalyzer I NONE 1 1 all\n\
            analyzer I SYSTEM 1 1 all\nstart\nanalyzer \"\" NONE 1 1 all\nstop\n",
        ..PLAIN
    },
    Row {
        title: "An analyzer with the name of the front-end that is taken where none is declared",
        script: "analyzer FE SYSTEM 65535 65535 all\nstart\nstop\n",
        ..PLAIN
    },
    Row {
        title: "A script that was generated",
        script: "buffer SYSTEM 65536\nequip FE1 1 1 SYSTEM\n\
            analyzer ANA SYSTEM 65535 65535 all\nevents 1000\nstart\nstop\nstart\npause\n\
            resume\nstop\nexit\n",
        room: 70_000,
        tools: &[
            &["check", "run00001.mid"],
            &["analyze", "run00001.mid"],
            &["analyze", "run00002.mid"],
        ],
        ..PLAIN
    },
];
