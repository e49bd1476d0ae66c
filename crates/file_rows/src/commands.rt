//! Worked lines of the script with their commands, and the places at which lines are refused.
use daq_types::Kind;
use odb_script::{
    Command, DatabaseCommand, Declaration, LineRefusal, LineText, RowCommand, RunCommand,
    WatchCommand,
};
use std::alloc::{AllocError, Global};
use std::process::Abort;
use std::test::Fail;

/// A command with all its parts.
#[derive(Clone, Copy, PartialEq)]
struct Parts<'a> {
    form: &'static str,
    /// The word for its type or its kind, if it has one.
    said: &'static str,
    texts: [&'a [u8]; 2],
    numbers: [u32; 4],
}

/// A command with its form alone.
fn of_form(form: &'static str) -> Parts<'static> {
    Parts {
        form,
        said: "",
        texts: [b"".as_slice(); 2],
        numbers: [0; 4],
    }
}

/// A command with one number.
fn of_number(form: &'static str, number: u32) -> Parts<'static> {
    Parts {
        numbers: [number, 0, 0, 0],
        ..of_form(form)
    }
}

/// A command with one text and a number.
fn of_text<'a>(form: &'static str, text: LineText<'a>, number: u32) -> Parts<'a> {
    Parts {
        form,
        said: "",
        texts: [text.as_slice(), b"".as_slice()],
        numbers: [number, 0, 0, 0],
    }
}

/// The word for a kind of request.
fn kind_word(kind: Kind) -> &'static str {
    match kind {
        Kind::All => "all",
        Kind::NonBlocking => "some",
    }
}

/// The parts of a declaration.
fn parts_of_declared(declaration: Declaration<'_>) -> Parts<'_> {
    match declaration {
        Declaration::Buffer { name, size } => of_text("buffer", name, size),
        Declaration::Equip {
            name,
            id,
            mask,
            buffer,
            limit,
        } => Parts {
            form: "equip",
            said: "",
            texts: [name.as_slice(), buffer.as_slice()],
            numbers: [id, mask as u32, limit, 0],
        },
        Declaration::Channel {
            number,
            pattern,
            buffer,
            id,
            mask,
            sub_bytes,
        } => Parts {
            form: "channel",
            said: "",
            texts: [pattern.as_slice(), buffer.as_slice()],
            numbers: [number, id as u32, mask as u32, sub_bytes],
        },
        Declaration::Analyzer {
            name,
            buffer,
            id,
            mask,
            kind,
        } => Parts {
            form: "analyzer",
            said: kind_word(kind),
            texts: [name.as_slice(), buffer.as_slice()],
            numbers: [id as u32, mask as u32, 0, 0],
        },
    }
}

/// The parts of a command on the rows of the database.
fn parts_of_rows(command: RowCommand<'_>) -> Parts<'_> {
    match command {
        RowCommand::Create { tid, path, len } => Parts {
            said: tid.name(),
            ..of_text("create", path, len)
        },
        RowCommand::CreateDir { path } => of_text("directory", path, 0),
        RowCommand::Link { path, target } => Parts {
            form: "link",
            said: "",
            texts: [path.as_slice(), target.as_slice()],
            numbers: [0; 4],
        },
        RowCommand::Set { path, index, value } => Parts {
            form: "set",
            said: "",
            texts: [path.as_slice(), value.as_slice()],
            numbers: [index, 0, 0, 0],
        },
        RowCommand::Get { path, index } => match index {
            None => of_text("get", path, 0),
            Some(index) => Parts {
                said: "one",
                ..of_text("get", path, index)
            },
        },
        RowCommand::List { path } => of_text("list", path, 0),
        RowCommand::Remove { path } => of_text("remove", path, 0),
    }
}

/// The parts of a command for watches or dumps.
fn parts_of_watches(command: WatchCommand<'_>) -> Parts<'_> {
    match command {
        WatchCommand::Load { file } => of_text("load", file, 0),
        WatchCommand::Save { file } => of_text("save", file, 0),
        WatchCommand::Watch { path } => of_text("watch", path, 0),
        WatchCommand::Notes { watch } => of_number("notes", watch),
        WatchCommand::Unwatch { watch } => of_number("unwatch", watch),
    }
}

/// The parts of a command for runs.
fn parts_of_run(command: RunCommand) -> Parts<'static> {
    match command {
        RunCommand::Events { count } => of_number("events", count),
        RunCommand::Start => of_form("start"),
        RunCommand::Stop => of_form("stop"),
        RunCommand::Pause => of_form("pause"),
        RunCommand::Resume => of_form("resume"),
    }
}

/// The parts of a command.
fn parts_of(command: Command<'_>) -> Parts<'_> {
    match command {
        Command::Nothing => of_form("nothing"),
        Command::Exit => of_form("exit"),
        Command::Declare { declaration } => parts_of_declared(declaration),
        Command::Run { command } => parts_of_run(command),
        Command::Database { command } => match command {
            DatabaseCommand::Rows { command } => parts_of_rows(command),
            DatabaseCommand::Watches { command } => parts_of_watches(command),
        },
    }
}

/// A line, and the parts of its command.
struct Row {
    line: &'static str,
    form: &'static str,
    said: &'static str,
    texts: [&'static str; 2],
    numbers: [u32; 4],
}

/// A row with no words and no numbers.
const PLAIN: Row = Row {
    line: "",
    form: "",
    said: "",
    texts: ["", ""],
    numbers: [0, 0, 0, 0],
};

const COMMANDS: &[Row] = &[
    Row {
        line: "",
        form: "nothing",
        ..PLAIN
    },
    Row {
        line: " \t ",
        form: "nothing",
        ..PLAIN
    },
    Row {
        line: "# any \" text",
        form: "nothing",
        ..PLAIN
    },
    Row {
        line: "events 3",
        form: "events",
        numbers: [3, 0, 0, 0],
        ..PLAIN
    },
    Row {
        line: "\tevents \t 007 ",
        form: "events",
        numbers: [7, 0, 0, 0],
        ..PLAIN
    },
    Row {
        line: "events 4294967295",
        form: "events",
        numbers: [4294967295, 0, 0, 0],
        ..PLAIN
    },
    Row {
        line: "events 0x000aBcDeF",
        form: "events",
        numbers: [11259375, 0, 0, 0],
        ..PLAIN
    },
    Row {
        line: "events 0xFFFFFFFF",
        form: "events",
        numbers: [4294967295, 0, 0, 0],
        ..PLAIN
    },
    Row {
        line: "events \"5\"",
        form: "events",
        numbers: [5, 0, 0, 0],
        ..PLAIN
    },
    Row {
        line: "start",
        form: "start",
        ..PLAIN
    },
    Row {
        line: "\"start\"",
        form: "start",
        ..PLAIN
    },
    Row {
        line: " stop ",
        form: "stop",
        ..PLAIN
    },
    Row {
        line: "exit",
        form: "exit",
        ..PLAIN
    },
    Row {
        line: " \"exit\"\t",
        form: "exit",
        ..PLAIN
    },
    Row {
        line: "pause",
        form: "pause",
        ..PLAIN
    },
    Row {
        line: "resume\t",
        form: "resume",
        ..PLAIN
    },
    Row {
        line: "load a.odb",
        form: "load",
        texts: ["a.odb", ""],
        ..PLAIN
    },
    Row {
        line: "save \"\"",
        form: "save",
        ..PLAIN
    },
    Row {
        line: "watch /A",
        form: "watch",
        texts: ["/A", ""],
        ..PLAIN
    },
    Row {
        line: "notes 0",
        form: "notes",
        ..PLAIN
    },
    Row {
        line: "unwatch 63",
        form: "unwatch",
        numbers: [63, 0, 0, 0],
        ..PLAIN
    },
    Row {
        line: "create UINT8 /A/b 2",
        form: "create",
        said: "UINT8",
        texts: ["/A/b", ""],
        numbers: [2, 0, 0, 0],
        ..PLAIN
    },
    Row {
        line: "create WORD A",
        form: "create",
        said: "UINT16",
        texts: ["A", ""],
        numbers: [1, 0, 0, 0],
        ..PLAIN
    },
    Row {
        line: "create STRING \"/A/b c\" 0",
        form: "create",
        said: "STRING",
        texts: ["/A/b c", ""],
        ..PLAIN
    },
    Row {
        line: "create LINK /A",
        form: "create",
        said: "LINK",
        texts: ["/A", ""],
        numbers: [1, 0, 0, 0],
        ..PLAIN
    },
    Row {
        line: "create DIR /A",
        form: "directory",
        texts: ["/A", ""],
        ..PLAIN
    },
    Row {
        line: "create \"DIR\" \"\"",
        form: "directory",
        ..PLAIN
    },
    Row {
        line: "link /L /A/b",
        form: "link",
        texts: ["/L", "/A/b"],
        ..PLAIN
    },
    Row {
        line: "link \"/L l\" \"\"",
        form: "link",
        texts: ["/L l", ""],
        ..PLAIN
    },
    Row {
        line: "set /A/b 1 0xff",
        form: "set",
        texts: ["/A/b", "0xff"],
        numbers: [1, 0, 0, 0],
        ..PLAIN
    },
    Row {
        line: "set /A 0x10",
        form: "set",
        texts: ["/A", "0x10"],
        ..PLAIN
    },
    Row {
        line: "set /A \"\"",
        form: "set",
        texts: ["/A", ""],
        ..PLAIN
    },
    Row {
        line: "set /A \"2\" \" x \"",
        form: "set",
        texts: ["/A", " x "],
        numbers: [2, 0, 0, 0],
        ..PLAIN
    },
    Row {
        line: "set /A x",
        form: "set",
        texts: ["/A", "x"],
        ..PLAIN
    },
    Row {
        line: "get /A/b",
        form: "get",
        texts: ["/A/b", ""],
        ..PLAIN
    },
    Row {
        line: "get \"/A b\" 4294967295",
        form: "get",
        said: "one",
        texts: ["/A b", ""],
        numbers: [4294967295, 0, 0, 0],
        ..PLAIN
    },
    Row {
        line: "ls /",
        form: "list",
        texts: ["/", ""],
        ..PLAIN
    },
    Row {
        line: "rm /Runinfo/State",
        form: "remove",
        texts: ["/Runinfo/State", ""],
        ..PLAIN
    },
    Row {
        line: "buffer B 1024",
        form: "buffer",
        texts: ["B", ""],
        numbers: [1024, 0, 0, 0],
        ..PLAIN
    },
    Row {
        line: "buffer \"\" 0xffffffff",
        form: "buffer",
        numbers: [4294967295, 0, 0, 0],
        ..PLAIN
    },
    Row {
        line: "equip FE 1 0 SYSTEM",
        form: "equip",
        texts: ["FE", "SYSTEM"],
        numbers: [1, 0, 4294967295, 0],
        ..PLAIN
    },
    Row {
        line: "equip F 4294967295 0xffff \"a b\" 7",
        form: "equip",
        texts: ["F", "a b"],
        numbers: [4294967295, 65535, 7, 0],
        ..PLAIN
    },
    Row {
        line: "channel 0 run%05d.mid SYSTEM 65535 65535",
        form: "channel",
        texts: ["run%05d.mid", "SYSTEM"],
        numbers: [0, 65535, 65535, 0],
        ..PLAIN
    },
    Row {
        line: "channel 16 \"\" b 0 1",
        form: "channel",
        texts: ["", "b"],
        numbers: [16, 0, 1, 0],
        ..PLAIN
    },
    Row {
        line: "channel 0 a%05db%04d.mid SYSTEM 1 2 0",
        form: "channel",
        texts: ["a%05db%04d.mid", "SYSTEM"],
        numbers: [0, 1, 2, 0],
        ..PLAIN
    },
    Row {
        line: "channel 15 a%05db%04d.mid SYSTEM 1 2 1",
        form: "channel",
        texts: ["a%05db%04d.mid", "SYSTEM"],
        numbers: [15, 1, 2, 1],
        ..PLAIN
    },
    Row {
        line: "channel 15 p SYSTEM 1 2 4294967295",
        form: "channel",
        texts: ["p", "SYSTEM"],
        numbers: [15, 1, 2, 4294967295],
        ..PLAIN
    },
    Row {
        line: "channel 15 p SYSTEM 1 2 \"0x12C\" ",
        form: "channel",
        texts: ["p", "SYSTEM"],
        numbers: [15, 1, 2, 300],
        ..PLAIN
    },
    Row {
        line: "analyzer ANA SYSTEM 65535 0 all",
        form: "analyzer",
        said: "all",
        texts: ["ANA", "SYSTEM"],
        numbers: [65535, 0, 0, 0],
        ..PLAIN
    },
    Row {
        line: "analyzer A \"b c\" 1 0xffff some",
        form: "analyzer",
        said: "some",
        texts: ["A", "b c"],
        numbers: [1, 65535, 0, 0],
        ..PLAIN
    },
];

/// The place at which a line is refused.
fn refused_at(line: &[u8]) -> Option<u32> {
    match Command::read(line) {
        Ok(_) => None,
        Err(LineRefusal::BadCommand { at }) => Some(at),
    }
}

/// Whether the line is a command with these parts, and the end of the script if it is `exit`.
fn is_command(row: &Row) -> bool {
    let Ok(command) = Command::read(row.line.as_bytes()) else {
        return false;
    };
    let [first, second] = row.texts;
    let parts = Parts {
        form: row.form,
        said: row.said,
        texts: [first.as_bytes(), second.as_bytes()],
        numbers: row.numbers,
    };
    command.is_exit() == (row.form == "exit") && parts_of(command) == parts
}

#[test]
fn lines_that_are_commands(rt: HostRuntime) {
    for row in COMMANDS {
        assert!(rt; is_command(row), "{}", row.line);
    }
}

/// Lines with a word that is none, and the place at which each is refused.
const FAULTY_WORDS: &[(&str, u32)] = &[
    ("frob", 0),
    ("Start", 0),
    (" # x", 1),
    ("stop\r", 0),
    ("\"\"", 0),
    ("se\"t /A 1", 0),
    ("get /A\"b\"", 4),
    ("get \"/A\"x", 4),
    ("get \"a\"\"b\"", 4),
    ("\"a\"\"b\"", 0),
    ("\"", 1),
    ("frob \"x", 0),
    ("stop \"x", 7),
    ("stop \"", 6),
    ("stop a\"b", 5),
    ("set \"/A", 7),
    ("set /A \"x y", 11),
    ("set /A x \"y", 11),
    ("set /A x y\"z", 9),
    ("create FOO \"x", 7),
    ("link /L \"/A", 11),
    ("link /L /A \"x", 13),
    ("link /L /A\"", 8),
];

/// Lines with which no form goes on from a place.
const NO_FORM: &[(&str, u32)] = &[
    ("start now", 6),
    ("stop  1", 6),
    ("exit 0", 5),
    ("events", 6),
    ("events  ", 8),
    ("events -1", 7),
    ("events 4294967296", 7),
    ("events 0x100000000", 7),
    ("events 0X10", 7),
    ("events 0x", 7),
    ("events 0xg", 7),
    ("events 1f", 7),
    ("events \"\"", 7),
    ("events 3 4", 9),
    ("create", 6),
    ("create uint8 /A", 7),
    ("create dir /A", 7),
    ("create UINT8", 12),
    ("create UINT8 /A x", 16),
    ("create UINT8 /A 1 2", 18),
    ("create DIR", 10),
    ("create DIR /A 3", 14),
    ("link", 4),
    ("link /L", 7),
    ("link /L  ", 9),
    ("link /L /A /B", 11),
    ("Link /L /A", 0),
    ("set", 3),
    ("set /A  ", 8),
    ("set /A x y", 9),
    ("set /A 4294967296 y", 18),
    ("set /A 1 x y", 11),
    ("get", 3),
    ("get /A x", 7),
    ("get /A 1 2", 9),
    ("ls", 2),
    ("ls /A /B", 6),
    ("rm", 2),
    ("rm /A /B", 6),
];

/// Lines of a session's declarations and files with which no form goes on from a place.
const NO_FORM_OF_A_SESSION: &[(&str, u32)] = &[
    ("buffer B", 8),
    ("buffer B x", 9),
    ("buffer B 4294967296", 9),
    ("buffer B 8 8", 11),
    ("equip FE x", 9),
    ("equip FE 1 65536 SYSTEM", 11),
    ("equip FE 1 0", 12),
    ("equip FE 1 0 SYSTEM x", 20),
    ("equip FE 1 0 SYSTEM 1 2", 22),
    ("channel 0 p B 65536 0", 14),
    ("channel 0 p B 1 65536", 16),
    ("channel 0 p B 1", 15),
    ("channel 0 p B 1 1 x", 18),
    ("channel 0 p B 1 1 4294967296", 18),
    ("channel 0 p B 1 1 \"\"", 18),
    ("channel 0 p B 1 1 300 x", 22),
    ("analyzer A", 10),
    ("analyzer A B 65536 1 all", 13),
    ("analyzer A B 1 1", 16),
    ("analyzer A B 1 1 none", 17),
    ("analyzer A B 1 1 all 1", 21),
    ("pause 1", 6),
    ("resume x", 7),
    ("load", 4),
    ("save a b", 7),
    ("watch", 5),
    ("notes x", 6),
    ("unwatch 1 2", 10),
];

/// Looks at the places at which these lines are refused.
fn look_at_places(rt: &impl Abort, rows: &[(&str, u32)]) {
    for (line, place) in rows {
        assert!(rt; refused_at(line.as_bytes()) == Some(*place), "{line}");
    }
}

#[test]
fn places_at_which_lines_are_refused(rt: HostRuntime) {
    look_at_places(&rt, FAULTY_WORDS);
    look_at_places(&rt, NO_FORM);
    look_at_places(&rt, NO_FORM_OF_A_SESSION);
}

/// The place at which a line of so many of these bytes is refused.
fn refused_line_of(alloc: Global, byte: u8, len: usize) -> Result<Option<u32>, AllocError> {
    let line = vec![in alloc; byte; len]?;
    Ok(refused_at(line.as_slice()))
}

#[test]
fn lines_at_the_limit(rt: HostRuntime) -> Result<(), Fail> {
    for (byte, len, place) in &[
        (b' ', 4096, None),
        (b' ', 4097, Some(4096)),
        (b'#', 4097, Some(4096)),
        (b'x', 4096, Some(0)),
    ] {
        let refused = refused_line_of(rt.alloc(), *byte, *len)?;
        assert!(rt; refused == *place, "{len} bytes {byte}");
    }
    Ok(())
}
