//! Lines of a script in a row, with what each prints.
ghost use Rattle.std.specs.Prelude.{◌≡◌, [], ◌∷◌, None, IfOk};
ghost use Rattle.daq_types.specs.Callers.{main_caller};
ghost use Rattle.turn_lock.specs.Passes.{number_of, held_by, IsOf};
ghost use Rattle.turn_lock.specs.Roster.{numbers_of, ArePassesOf, AreFresh};
ghost use Rattle.odb_lock.specs.SharedOdbs.{odb_lock_of};

use daq_mem::{FileFail, FileOp, MemFiles};
use daq_text::TextBuffer;
use daq_types::{FileName, NoMemory};
use odb_arena::ArenaTree;
use odb_commands::{run_command, run_watch_command};
use odb_links::LinkTree;
use odb_lock::{OdbPass, OdbPasses, SharedAccess, SharedOdb};
use odb_script::{Command, DatabaseCommand};
use odb_text::load;
use odb_tree::{Database, PlainTree};
use odb_watch::WatchPort;
use std::alloc::Global;
use std::process::Abort;
use std::sync::Wait;
use std::test::Fail;
use worked_dumps::{OLDER, SAVED};

/// The dump of a new session: 114 bytes.
const NEW: &str =
    "[/Runinfo]\nState = INT32 : 1\nRun number = INT32 : 0\nStart time binary = UINT32 : 0\n\
    Stop time binary = UINT32 : 0\n\n";

/// The one pass of a shared database.
fn main_pass<D: Database>(shared: &SharedOdb<D>, passes: &mut OdbPasses<D>) -> OdbPass<D>
    requires own { ArePassesOf (odb_lock_of shared.now) passes.old }
    requires fresh { AreFresh passes.old }
    requires numbers { numbers_of passes.old ≡ 0 ∷ [] }
    ensures own { IsOf (odb_lock_of shared.now) result }
    ensures idle { held_by result ≡ None }
    ensures number { number_of result ≡ 0 }
{
    let Some(main) = passes.pop() else {
        unreachable!()
    };
    main
}

/// This database with the keys of a new session, as it is shared, and its pass.
fn new_session<D: Database>(
    alloc: Global,
    mut database: D,
) -> Result<(SharedOdb<D>, OdbPasses<D>), Fail>
    ensures own { IfOk result (λ made. ArePassesOf (odb_lock_of made.0) made.1) }
    ensures fresh { IfOk result (λ made. AreFresh made.1) }
    ensures numbers { IfOk result (λ made. numbers_of made.1 ≡ 0 ∷ []) }
{
    let _ = load(alloc, &mut database, NEW.as_bytes())?;
    let made = SharedOdb::new(alloc, database, 1)?;
    Ok(made)
}

/// A line, and what it prints.
type Line<'a> = (&'a str, &'a [u8]);

/// Performs a command of the main thread's on the database, and adds what it prints.
fn perform<R: Wait, P: WatchPort>(
    rt: &R,
    alloc: Global,
    port: &mut P,
    files: &mut MemFiles,
    number: u64,
    command: &DatabaseCommand<'_>,
    text: &mut TextBuffer,
) -> Result<(), NoMemory>
    requires main { (P.access port.old).caller ≡ main_caller }
    ensures main { (P.access port.new).caller ≡ main_caller }
{
    match command {
        DatabaseCommand::Rows { command } => {
            run_command(rt, alloc, port, command)?.print(number, text)
        }
        DatabaseCommand::Watches { command } => {
            run_watch_command(rt, alloc, port, files, command)?
                .reply
                .print(number, text)
        }
    }
}

/// Whether a line of the main thread's prints this. The command and the text end here: each place where a function may
/// end is proved with all that it holds there.
fn prints<R: Wait, P: WatchPort>(
    rt: &R,
    alloc: Global,
    port: &mut P,
    files: &mut MemFiles,
    number: u64,
    line: Line<'_>,
) -> Result<bool, NoMemory>
    requires main { (P.access port.old).caller ≡ main_caller }
    ensures main { (P.access port.new).caller ≡ main_caller }
{
    let mut text = TextBuffer::new(alloc);
    if let Ok(Command::Database { command }) = Command::read(line.0.as_bytes()) {
        perform(rt, alloc, port, files, number, &command, &mut text)?;
    }
    Ok(text.as_slice() == line.1)
}

/// What these lines of the main thread print, line by line.
fn check_lines<R: Wait + Abort, P: WatchPort>(
    rt: &R,
    alloc: Global,
    port: &mut P,
    files: &mut MemFiles,
    lines: &[Line<'_>],
) -> Result<(), Fail>
    requires main { (P.access port.old).caller ≡ main_caller }
{
    for place in 0..lines.len() {
        let line = lines[place];
        let right = prints(rt, alloc, port, files, place as u64 + 1, line)?;
        assert!(rt; right, "{}", line.0);
    }
    Ok(())
}

/// The same of lines by a pass of a shared database.
fn check_shared<R: Wait + Abort, D: Database>(
    rt: &R,
    alloc: Global,
    shared: &SharedOdb<D>,
    main: OdbPass<D>,
    files: &mut MemFiles,
    lines: &[Line<'_>],
) -> Result<(), Fail>
    requires own { IsOf (odb_lock_of shared.now) main }
    requires idle { held_by main ≡ None }
    requires main { number_of main ≡ main_caller }
{
    let mut port = SharedAccess::new(shared, main);
    check_lines(rt, alloc, &mut port, files, lines)
}

/// A file: its name and its bytes.
type File = (&'static str, &'static str);

/// A session that begins with a file, if one is given: its lines with what each prints, and the file that is there behind
/// them and is looked at, if one is.
struct Row {
    given: Option<File>,
    lines: &'static [Line<'static>],
    left: Option<File>,
}

const ROWS: &[Row] = &[
    Row {
        given: None,
        lines: &[
            ("save a.odb", b"saved 114\n"),
            ("save a.odb", b"refused 2: Exists\n"),
            ("save \"a b\"", b"refused 3: BadFileName\n"),
            ("load b.odb", b"refused 4: Missing\n"),
            ("load \"\"", b"refused 5: BadFileName\n"),
            ("load a.odb", b"loaded 4 skipped 0\n"),
        ],
        left: Some(("a.odb", NEW)),
    },
    Row {
        given: Some(("old.odb", OLDER)),
        lines: &[
            ("load old.odb", b"loaded 20 skipped 2\n"),
            ("save new.odb", b"saved 677\n"),
        ],
        left: Some(("new.odb", SAVED)),
    },
    Row {
        given: Some(("new.odb", SAVED)),
        lines: &[
            ("load new.odb", b"loaded 20 skipped 0\n"),
            ("save again.odb", b"saved 677\n"),
        ],
        left: Some(("again.odb", SAVED)),
    },
    // Keys, their items and the parameters of the run; lines that are refused; a key of texts, and directories.
    Row {
        given: None,
        lines: &[
            ("create UINT8 /A/b 2", b""),
            ("set /A/b 1 0xff", b""),
            ("get /A/b", b"b = UINT8[2] :\n[0] 0\n[1] 255\n"),
            ("set /A/b 2 1", b"refused 4: BadIndex 2\n"),
            ("set /A/b 0 256", b"refused 5: OutOfRange\n"),
            ("create DIR /A", b"refused 6: Exists\n"),
            ("rm /Runinfo/State", b"refused 7: Protected\n"),
            ("set \"/runinfo/RUN NUMBER\" 7", b""),
            ("get \"/runinfo/RUN NUMBER\"", b"Run number = INT32 : 7\n"),
            ("get \"/Runinfo/Run number\" 1", b"refused 10: BadIndex 1\n"),
            ("set \"/Runinfo/Run number\" x", b"refused 11: BadText 0\n"),
            ("get /Runinfo", b"refused 12: NotValue\n"),
            ("get /A//B", b"refused 13: EmptyName\n"),
            ("ls /A/[x]", b"refused 14: BadByte 3\n"),
            ("create FLOAT /f", b"refused 15: NotKept FLOAT\n"),
            ("create UINT8 /x 0", b"refused 16: Limit Items\n"),
            ("create STRING /s 2", b""),
            ("set /s 1 \"a b\"", b""),
            ("get /s", b"s = STRING[2] :\n[32] \n[32] a b\n"),
            ("get /s 1", b"a b\n"),
            ("ls /", b"s\nRuninfo/\nA/\n"),
            ("ls /s", b"refused 22: NotDir\n"),
            ("rm /s", b""),
            ("get /s", b"refused 24: NoKey\n"),
            ("create STRING /s", b""),
            ("get /s", b"s = STRING : [32] \n"),
            ("rm /", b"refused 27: Protected\n"),
        ],
        left: None,
    },
    // Nothing stays of a text at fault.
    Row {
        given: Some(("bad.odb", "[/A]\nx = INT : 5\ny = INT : five\n")),
        lines: &[
            ("load bad.odb", b"refused 1: BadLine 3\n"),
            ("ls /", b"Runinfo/\n"),
        ],
        left: None,
    },
    Row {
        given: Some(("long.odb", "[/A]\nx = STRING : [1025] a\n")),
        lines: &[("load long.odb", b"refused 1: KeyRefused 2 Limit Size\n")],
        left: None,
    },
    Row {
        given: None,
        lines: &[
            ("create UINT32 /A/x 2", b""),
            ("watch /A", b"watch 0\n"),
            ("set /A/x 1 7", b""),
            ("notes 0", b"/A/x[1]\nlost 0\n"),
            ("set /A/x 8", b""),
            ("rm /A", b""),
            ("notes 0", b"gone 7[0]\nlost 0\n"),
            ("watch /", b"watch 1\n"),
            ("unwatch 0", b""),
            ("notes 0", b"refused 10: NoWatch\n"),
            ("unwatch 0", b"refused 11: NoWatch\n"),
            ("watch /A", b"refused 12: NoKey\n"),
            ("watch /Runinfo/State/x", b"refused 13: NotDir\n"),
            ("watch /A//B", b"refused 14: EmptyName\n"),
            ("notes 1", b"lost 0\n"),
        ],
        left: None,
    },
];

/// Lines over files of which the first append fails.
const FAILING: &[Line] = &[
    ("save a.odb", b"refused 1: FileFault\n"),
    ("save a.odb", b"refused 2: Exists\n"),
    ("load a.odb", b"loaded 0 skipped 0\n"),
];

/// Lines on a database that keeps links.
const KEPT_LINKS: &[Line] = &[
    ("create UINT32 /A/x", b""),
    ("link /L /A", b""),
    ("set /L/x 5", b""),
    ("get /A/x", b"x = UINT32 : 5\n"),
    ("rm /L/x", b"refused 5: NotDir\n"),
    ("link /C /C", b""),
    ("get /C", b"refused 7: BadLink 16\n"),
    ("rm /L", b""),
    ("get /A/x", b"x = UINT32 : 5\n"),
    ("link /W /A", b""),
    ("watch /W/x", b"watch 0\n"),
    ("set /W/x 6", b""),
    ("notes 0", b"/A/x[0]\nlost 0\n"),
];

/// Lines on a database that keeps no links. What is wrong with the first path comes before what is wrong with the second.
const LINKS: &[Line] = &[
    ("create UINT32 /A/x", b""),
    ("link /L//M /A]", b"refused 2: EmptyName\n"),
    ("link /L[ /A", b"refused 3: BadByte 2\n"),
    ("link /L /A]", b"refused 4: BadByte 2\n"),
    ("link /L /A//x", b"refused 5: EmptyName\n"),
    (
        "link /L /01234567890123456789012345678901",
        b"refused 6: LongName\n",
    ),
    ("link /A/x/y /A]", b"refused 7: BadByte 2\n"),
    ("link /A/x/y /A", b"refused 8: NotDir\n"),
    ("link /a/X /A", b"refused 9: Exists\n"),
    ("link / /A", b"refused 10: Exists\n"),
    ("link /L /A", b"refused 11: NotKept LINK\n"),
    ("link /L \"\"", b"refused 12: NotKept LINK\n"),
    ("get /L", b"refused 13: NoKey\n"),
    ("ls /", b"Runinfo/\nA/\n"),
];

/// Files in memory, of which these calls fail.
fn new_files(alloc: Global, fails: Vec<FileFail>) -> Result<MemFiles, NoMemory> {
    MemFiles::new(alloc, 4, 100_000, fails)
}

/// Adds a file of this name and text.
fn add_file(alloc: Global, files: &mut MemFiles, (name, text): File) -> Result<(), Fail> {
    let name = FileName::new(name)?;
    files.add(name, text.as_bytes().to_vec(alloc)?)?;
    Ok(())
}

/// Whether there is a file of this name and text.
fn is_there(files: &MemFiles, (name, text): File) -> bool {
    match FileName::new(name) {
        Ok(name) => files.find(&name) == Some(text.as_bytes()),
        Err(_) => false,
    }
}

/// What these lines print in a new session over this database and these files.
fn check_session<R: Wait + Abort, D: Database>(
    rt: &R,
    alloc: Global,
    database: D,
    files: &mut MemFiles,
    lines: &[Line<'_>],
) -> Result<(), Fail> {
    let (shared, mut passes) = new_session(alloc, database)?;
    let main = main_pass(&shared, &mut passes);
    check_shared(rt, alloc, &shared, main, files, lines)
}

/// The same over new files, of which these calls fail.
fn check_alone<R: Wait + Abort>(
    rt: &R,
    alloc: Global,
    fails: Vec<FileFail>,
    lines: &[Line<'_>],
) -> Result<(), Fail> {
    let mut files = new_files(alloc, fails)?;
    check_session(rt, alloc, PlainTree::new(alloc), &mut files, lines)
}

/// New files: this one, if one is given.
fn given_files(alloc: Global, given: Option<File>) -> Result<MemFiles, Fail> {
    let mut files = new_files(alloc, Vec::new(alloc))?;
    if let Some(file) = given {
        add_file(alloc, &mut files, file)?;
    }
    Ok(files)
}

/// Goes through a session. Says whether the file that is looked at is there behind it, if one is. The files end here.
fn leaves_file<R: Wait + Abort>(rt: &R, alloc: Global, row: &Row) -> Result<bool, Fail> {
    let mut files = given_files(alloc, row.given)?;
    check_session(rt, alloc, PlainTree::new(alloc), &mut files, row.lines)?;
    match row.left {
        Some(left) => Ok(is_there(&files, left)),
        None => Ok(true),
    }
}

/// What each session comes to.
fn check_rows<R: Wait + Abort>(rt: &R, alloc: Global) -> Result<(), Fail> {
    for row in ROWS {
        let right = leaves_file(rt, alloc, row)?;
        if let Some(left) = row.left {
            assert!(rt; right, "{}", left.0);
        }
    }
    Ok(())
}

#[test]
fn sessions_of_lines(rt: HostRuntime) -> Result<(), Fail> {
    check_rows(&rt, rt.alloc())
}

#[test]
fn links_that_are_not_kept(rt: HostRuntime) -> Result<(), Fail> {
    let alloc = rt.alloc();
    let mut files = new_files(alloc, Vec::new(alloc))?;
    check_session(&rt, alloc, ArenaTree::new(alloc), &mut files, LINKS)
}

#[test]
fn links_that_are_kept(rt: HostRuntime) -> Result<(), Fail> {
    let alloc = rt.alloc();
    let mut files = new_files(alloc, Vec::new(alloc))?;
    let database = LinkTree::new(alloc, ArenaTree::new(alloc));
    check_session(&rt, alloc, database, &mut files, KEPT_LINKS)
}

#[test]
fn file_that_fails(rt: HostRuntime) -> Result<(), Fail> {
    let op = FileOp::Append;
    let fails = vec![in rt.alloc(); FileFail { op, call: 0 }]?;
    check_alone(&rt, rt.alloc(), fails, FAILING)
}

/// The notes of an item that was set once more than notes are kept.
fn most_notes(alloc: Global) -> Result<TextBuffer, NoMemory> {
    let mut wanted = TextBuffer::new(alloc);
    for _ in 0..256 {
        wanted.text(b"/A/x[0]\n")?;
    }
    wanted.text(b"lost 1\n")?;
    Ok(wanted)
}

/// Lines that set an item so often, and then read the watch of its directory twice.
fn sets_and_notes<'a>(
    alloc: Global,
    times: u32,
    notes: &'a [u8],
) -> Result<Vec<Line<'a>>, NoMemory> {
    let mut lines: Vec<Line<'a>> = Vec::new(alloc);
    lines.push(("create UINT32 /A/x", b""))?;
    lines.push(("watch /A", b"watch 0\n"))?;
    for _ in 0..times {
        lines.push(("set /A/x 1", b""))?;
    }
    lines.push(("notes 0", notes))?;
    lines.push(("notes 0", b"lost 0\n"))?;
    Ok(lines)
}

/// What the main thread reads of an item that it set once more than notes are kept.
fn check_most_notes<R: Wait + Abort>(rt: &R, alloc: Global) -> Result<(), Fail> {
    let notes = most_notes(alloc)?;
    let lines = sets_and_notes(alloc, 257, notes.as_slice())?;
    check_alone(rt, alloc, Vec::new(alloc), &lines)
}

#[test]
fn more_notes_than_are_kept(rt: HostRuntime) -> Result<(), Fail> {
    check_most_notes(&rt, rt.alloc())
}
