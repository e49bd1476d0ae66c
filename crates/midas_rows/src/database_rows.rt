//! The online database, its dumps and its watches.
use crate::rows::{PLAIN, Repeated, Row};
use worked_dumps::{OLDER, SAVED};

/// Settings that were saved.
const SETTINGS: &str =
    "[/Runinfo]\nState = INT32 : 1\nRun number = INT32 : 0\nStart time binary = UINT32 : 0\n\
    Stop time binary = UINT32 : 0\n\n[/Settings]\nName = STRING : [32] Muon decay\n\
    Thresholds = UINT16[3] :\n[0] 0\n[1] 500\n[2] 0\n\n";

/// A key, and a link to its directory.
const LINKED: &str =
    "[/]\nL = LINK : [3] /A\n\n[/Runinfo]\nState = INT32 : 1\nRun number = INT32 : 0\n\
    Start time binary = UINT32 : 0\nStop time binary = UINT32 : 0\n\n[/A]\nx = UINT32 : 0\n\n";

/// The rows.
pub static DATABASE_ROWS: [Row; 16] = [
    Row {
        title: "Settings",
        script: "set \"/runinfo/RUN NUMBER\" 7\nget \"/Runinfo/Run number\"\n\
            get /Runinfo/State 1\nset /Runinfo/State x\nget /Runinfo\nstart\n",
        ..PLAIN
    },
    Row {
        title: "Keys",
        script: "create UINT8 /A/b 2\nset /A/b 1 0xff\nget /A/b\nset /A/b 2 1\nset /A/b 0 256\n\
            create DIR /A\nrm /Runinfo/State\nfrob\n",
        ..PLAIN
    },
    Row {
        title: "Names",
        script: "create STRING /0123456789012345678901234567890\n\
            create STRING /01234567890123456789012345678901\nls /A//B\nls\nls /\n",
        ..PLAIN
    },
    Row {
        title: "The run's parameters",
        script: "start\nget /Runinfo/State\nget \"/Runinfo/Start time binary\"\nstop\n\
            get /Runinfo/State\nget \"/Runinfo/Stop time binary\"\n\
            set \"/Runinfo/Run number\" 2147483647\nstart\nset \"/Runinfo/Run number\" -1\n\
            start\n",
        ..PLAIN
    },
    Row {
        title: "A key where the number of events would stand",
        script: "create UINT32 /Equipment/FE\nevents 1\nstart\nstop\nget /Equipment/FE\n\
            rm /Equipment\nls /\n",
        ..PLAIN
    },
    Row {
        title: "A watch",
        script: "watch /B\ncreate UINT32 /A/x\nwatch /A\nset /A/x 1\nnotes 0\nset /A/x 2\n\
            rm /A/x\nnotes 0\nunwatch 0\nnotes 0\n",
        ..PLAIN
    },
    Row {
        title: "More notes than a watch keeps",
        script: "create UINT32 /A/x\nwatch /A\n",
        repeated: Some(Repeated {
            line: "set /A/x 1\n",
            times: 257,
            behind: "notes 0\nnotes 0\n",
        }),
        ..PLAIN
    },
    Row {
        title: "A new session that is saved twice",
        script: "save a.odb\nsave a.odb\n",
        dumps: &["a.odb"],
        ..PLAIN
    },
    Row {
        title: "A dump with older names of types",
        script: "load a.odb\nsave b.odb\nsave b.odb\n",
        dump: Some(("a.odb", OLDER)),
        dumps: &["b.odb"],
        ..PLAIN
    },
    Row {
        title: "A dump that was saved",
        script: "load a.odb\nsave b.odb\n",
        dump: Some(("a.odb", SAVED)),
        dumps: &["b.odb"],
        ..PLAIN
    },
    Row {
        title: "A dump with a line at fault, and one that is missing",
        script: "load a.odb\nls /\nload c.odb\n",
        dump: Some(("a.odb", "[/A]\nx = INT : 5\ny = INT : five\n")),
        ..PLAIN
    },
    Row {
        title: "Settings that are saved",
        script: "# Settings of an experiment, saved for the sessions to come\n\
            create STRING /Settings/Name\nset /Settings/Name \"Muon decay\"\n\
            create UINT16 /Settings/Thresholds 3\nset /Settings/Thresholds 1 500\n\
            save settings.odb\n",
        dumps: &["settings.odb"],
        ..PLAIN
    },
    Row {
        title: "Settings that are loaded and watched",
        script: "# A new session with the settings of save_settings.script, and a watch on them\n\
            load settings.odb\nwatch /Settings\nset /Settings/Thresholds 2 0x2BC\nnotes 0\n\
            load settings.odb\nnotes 0\nget /Settings/Thresholds\nunwatch 0\n",
        dump: Some(("settings.odb", SETTINGS)),
        ..PLAIN
    },
    Row {
        title: "Links",
        script: "create UINT32 /A/x\nlink /L /A\nset /L/x 5\nget /A/x\nrm /L/x\nlink /C /C\n\
            get /C\nrm /L\nget /A/x\n",
        ..PLAIN
    },
    Row {
        title: "A link that is saved",
        script: "create UINT32 /A/x\nlink /L /A\nsave a.odb\n",
        dumps: &["a.odb"],
        ..PLAIN
    },
    Row {
        title: "A link that is loaded",
        script: "load a.odb\nls /\nlink /M /L/x\nget /M\nrm /M\nsave b.odb\n",
        dump: Some(("a.odb", LINKED)),
        dumps: &["b.odb"],
        ..PLAIN
    },
];
