// A whole script.
ghost use Rattle.std.specs.Prelude.{◌≡◌, ◌≢◌, ◌∷◌, ◌≤◌, ◌+◌, [], IfSome};
ghost use Rattle.daq_types.specs.Callers.{main_caller};
ghost use Rattle.turn_lock.specs.Passes.{passes_of, number_of, IsOf};
ghost use Rattle.turn_lock.specs.Roster.{IsFresh};
ghost use Rattle.odb_lock.specs.SharedAccesses.{access_by_pass, odb_identity};
ghost use Rattle.odb_lock.specs.SharedOdbs.{odb_lock_of};
ghost use Rattle.session_setup.specs.Setup.{AreSound, declared_by, nothing_declared};
ghost use Rattle.session_setup.specs.SetupLines.{opened_with_defaults};
ghost use Rattle.session_objects.specs.Rosters.{KeepsFresh};
ghost use Rattle.console.specs.LineLoops.{IsUnreadScript};
ghost use Rattle.daq_session.specs.declared.ends.ScriptEnd.TheVariants.{NoMemory};
ghost use Rattle.daq_session.specs.Environments.{environment, outside_told};
ghost use Rattle.daq_session.specs.NewDatabases.{IsNewDatabase, IsNewSession, IsUnopenedSession, database_passes};
ghost use Rattle.daq_session.specs.Played.{PlaysAll, PlaysSession};
ghost use Rattle.daq_session.specs.DeclaredLines.{ForSession};
ghost use Rattle.daq_session.specs.Promises.{AnswerOnce, DeliverOwed, EndAll, EndsWell, FitCalls, FrontEndsSend, HasOneDatabase, HaveOneHistory, HaveReports, HaveRunFiles, NothingFailed, OthersStay, WroteReplies};
ghost use Rattle.daq_session.specs.Sessions.{RunsScript};

use crate::ends::{ScriptEnd, end_of};
use crate::left::{EndedObjects, LeftBehind, close_left, leave_unopened};
use crate::opening::{OpenDatabase, SessionTree, open_database};
use crate::places::{MemberSide, OpenedPasses, Places, Scene};
use crate::played::{LinesEnd, NO_MEMORY, OpenedEnd, play_objects};
use console::{DatabaseConsole, LineLoop, PlayEnd};
use daq_io::{Clock, Files, Gate, Outside, Pick, Sink, Source};
use odb_commands::FileReplies;
use odb_lock::{LockedDatabase, OdbPass, OdbPasses, SharedAccess, SharedOdb, WatchedSeen};
use odb_tree::Database;
use odb_watch::WatchEntry;
use session_commands::laws::{first_start_opens, scripts_keep};
use session_commands::{MainSide, Script, Unopened, play_first};
use session_objects::laws::members_suit;
use session_objects::{SessionObjects, SessionRecord};
use session_setup::{Declarations, DeclaredLists};
use std::alloc::Global;
use std::sync::Wait;
use std::thread::Threads;
use turn_lock::Machine;

/// The declarations with which a session opens, in lists for themselves.
fn open_lists(mut declarations: Declarations) -> DeclaredLists
    ensures are { opened_with_defaults declarations ≡ declared_by result }
    ensures sound { AreSound (declared_by result) }
{
    declarations.open();
    declarations.into_lists()
}

/// Opens a session with the first start of its script, and plays it to the script's end.
fn open_and_play<
    'a,
    R: Threads + Wait + Sync,
    S: Source + Drop,
    O: Sink + Drop,
    D: Database + Send,
    E: Files + Drop,
    C: Clock + Drop,
    F: Files + Drop + Send,
    K: Pick + Drop,
    G: Gate + Sync,
>(
    rt: &R,
    alloc: Global,
    shared: &'a SharedOdb<D>,
    passes: OdbPasses<D>,
    setup: Unopened<SharedAccess<'a, D>, E, C>,
    scene: Scene<'a, S, O, F, K, G>,
) -> (LinesEnd<S, O, E, C, F, K>, LeftBehind<D>)
    requires fits { scene.script.line_loop.number + 1 ≤ scene.script.line_loop.reader.taken }
    requires database { (access_by_pass setup.side.database.access).database ≡ odb_identity shared.now }
    requires callers { passes_of (odb_lock_of shared.now) ≡ database_passes }
    requires others { KeepsFresh (main_caller ∷ []) (odb_lock_of shared.now) passes }
    ensures { PlaysSession (outside_told S.told O.told F.told E.told C.told) shared.now setup.entry scene.entry result }
{
    first_start_opens::<D, E, C>(shared);
    let Unopened {
        quota,
        declarations,
        side,
    } = setup;
    let lists = open_lists(declarations);
    let opened = match SessionObjects::open(alloc, &lists, passes) {
        Ok(opened) => opened,
        Err(passes) => {
            let (lines, passes) = leave_unopened(shared, side, passes, NO_MEMORY, scene);
            return (lines, LeftBehind::Unopened { passes });
        }
    };
    let objects = opened.objects;
    members_suit(&lists, &objects, shared);
    let places = Places {
        shared,
        objects: &objects,
        lists: &lists,
        gate: scene.members.gate,
        quota,
    };
    let passes = OpenedPasses {
        main: opened.main,
        others: opened.passes,
    };
    let OpenedEnd { lines, session } = play_objects(rt, alloc, &places, passes, side, scene);
    match session {
        Err(passes) => (lines, LeftBehind::Unopened { passes }),
        Ok((passes, runs)) => {
            let ended = EndedObjects {
                objects,
                passes,
                runs,
            };
            (lines, LeftBehind::Session { ended })
        }
    }
}

/// Plays a whole script.
fn play_all<
    'a,
    R: Threads + Wait + Sync,
    S: Source + Drop,
    O: Sink + Drop,
    D: Database + Send,
    E: Files + Drop,
    C: Clock + Drop,
    F: Files + Drop + Send,
    K: Pick + Drop,
    G: Gate + Sync,
>(
    rt: &R,
    alloc: Global,
    shared: &'a SharedOdb<D>,
    passes: OdbPasses<D>,
    mut setup: Unopened<SharedAccess<'a, D>, E, C>,
    mut scene: Scene<'a, S, O, F, K, G>,
) -> (LinesEnd<S, O, E, C, F, K>, LeftBehind<D>)
    requires session { IsNewSession shared.now passes setup }
    requires unread { IsUnreadScript scene.script.line_loop }
    ensures { PlaysAll (outside_told S.told O.told F.told E.told C.told) shared.now setup.entry scene.entry result }
{
    first_start_opens::<D, E, C>(shared);
    match play_first(rt, alloc, &mut setup, &mut scene.script) {
        PlayEnd::Ended { ending } => {
            let (lines, passes) = leave_unopened(shared, setup.side, passes, ending, scene);
            (lines, LeftBehind::Unopened { passes })
        }
        PlayEnd::Opens => open_and_play(rt, alloc, shared, passes, setup, scene),
    }
}

/// A session in which nothing was declared, over its database.
fn new_session<'a, D: Database, E: Files, C: Clock>(
    alloc: Global,
    shared: &'a SharedOdb<D>,
    main: OdbPass<D>,
    declarations: Declarations,
    odb_files: E,
    clock: C,
) -> Unopened<SharedAccess<'a, D>, E, C>
    requires main { number_of main ≡ main_caller }
    requires own { IsOf (odb_lock_of shared.now) main }
    requires fresh { IsFresh main }
    requires nothing { declarations ≡ nothing_declared }
    ensures unopened { IsUnopenedSession shared.now odb_files clock result }
{
    let database = DatabaseConsole {
        access: SharedAccess::new(shared, main),
        files: odb_files,
        replies: FileReplies::empty(alloc),
    };
    Unopened {
        quota: 0,
        declarations,
        side: MainSide { database, clock },
    }
}

/// What a session has before its script is read: its database, room for the lines, and room for what they declare.
#[derive(Drop)]
struct NewSession<D: Database>
where
    LockedDatabase<D>: Machine<State = WatchedSeen, Entry = WatchEntry>,
{
    database: OpenDatabase<D>,
    line_loop: LineLoop,
    declarations: Declarations,
}

/// Plays a whole script over the database of its session, and closes this.
fn run_session<
    R: Threads + Wait + Sync,
    S: Source + Drop,
    O: Sink + Drop,
    D: Database + Send,
    F: Files + Drop + Send,
    E: Files + Drop,
    C: Clock + Drop,
    K: Pick + Drop,
    G: Gate + Sync,
>(
    rt: &R,
    alloc: Global,
    session: NewSession<D>,
    outside: Outside<S, O, F, E, C, K>,
    gate: &G,
    cooperative: bool,
) -> (
    ScriptEnd,
    Option<SessionRecord<D>>,
    FileReplies,
    Outside<S, O, F, E, C, K>,
)
    requires database { IsNewDatabase session.database.shared session.database.main
        session.database.passes }
    requires nothing { session.declarations ≡ nothing_declared }
    requires unread { IsUnreadScript session.line_loop }
    ensures ran { RunsScript (outside_told S.told O.told F.told E.told C.told)
        outside result.3 result.0 result.2.replies result.1 }
{
    let NewSession {
        database,
        line_loop,
        declarations,
    } = session;
    let OpenDatabase {
        shared,
        main,
        passes,
    } = database;
    let Outside {
        src,
        out,
        run_files,
        odb_files,
        clock,
        pick,
    } = outside;
    let members = MemberSide {
        run_files,
        pick,
        gate,
        cooperative,
    };
    let script = Script {
        line_loop,
        src,
        out,
    };
    let setup = new_session(alloc, &shared, main, declarations, odb_files, clock);
    let scene = Scene { script, members };
    let (lines, left) = play_all(rt, alloc, &shared, passes, setup, scene);
    scripts_keep();
    let end = end_of(&lines);
    let record = close_left::<D, F>(shared, left);
    let (replies, outside) = lines.into_outside();
    (end, record, replies, outside)
}

/// Reads a script and runs the session that it commands. Answers why that ended, the session's record, what came of the lines that
/// called the files of the database, and the outside as it is then. Where it is cooperative the main thread gives the members their
/// turns, round by round. Else each has its turns in a thread of its own, or in the main thread's rounds where no thread could be
/// had for it.
pub fn run_script<
    R: Threads + Wait + Sync,
    S: Source + Drop,
    O: Sink + Drop,
    F: Files + Drop + Send,
    E: Files + Drop,
    C: Clock + Drop,
    K: Pick + Drop,
    G: Gate + Sync,
>(
    rt: &R,
    alloc: Global,
    cooperative: bool,
    outside: Outside<S, O, F, E, C, K>,
    gate: &G,
) -> (
    ScriptEnd,
    Option<SessionRecord<SessionTree>>,
    FileReplies,
    Outside<S, O, F, E, C, K>,
)
    ensures ran { RunsScript (outside_told S.told O.told F.told E.told C.told)
        outside result.3 result.0 result.2.replies result.1 }
    // The promises, each by itself, of the session that was opened, if one was.
    ensures one_history { IfSome result.1 (λ session. HaveOneHistory session) }
    ensures delivery { IfSome result.1 (λ session. DeliverOwed session) }
    ensures front_end_sends { ForSession result.1 (S.told outside.src) (S.told result.3.src)
        (λ declared session. FrontEndsSend declared session) }
    ensures run_files { ForSession result.1 (S.told outside.src) (S.told result.3.src)
        (λ declared session. HaveRunFiles (F.told result.3.run_files).seen declared session) }
    ensures reports { ForSession result.1 (S.told outside.src) (S.told result.3.src)
        (λ declared session. HaveReports declared session) }
    ensures records { ForSession result.1 (S.told outside.src) (S.told result.3.src)
        (λ declared session. FitCalls declared session) }
    ensures database { ForSession result.1 (S.told outside.src) (S.told result.3.src)
        (λ declared session. HasOneDatabase declared session) }
    ensures other_files { ForSession result.1 (S.told outside.src) (S.told result.3.src)
        (λ declared session. OthersStay (F.told outside.run_files) (F.told result.3.run_files)
        declared session) }
    ensures one_answer { IfSome result.1 (λ session. AnswerOnce
        (F.told outside.run_files) (F.told result.3.run_files) session) }
    ensures completeness { result.0 ≢ NoMemory → IfSome result.1 (λ session. EndAll
        (F.told outside.run_files) (F.told result.3.run_files) session) }
    ensures console { WroteReplies
        (environment (outside_told S.told O.told F.told E.told C.told) outside)
        (environment (outside_told S.told O.told F.told E.told C.told) result.3) result.0 }
    ensures well { result.0 ≢ NoMemory → NothingFailed
        (environment (outside_told S.told O.told F.told E.told C.told) outside)
        (environment (outside_told S.told O.told F.told E.told C.told) result.3)
        → EndsWell result.0 }
{
    let (Ok(line_loop), Ok(declarations), Ok(database)) = (
        LineLoop::new(alloc),
        Declarations::new(alloc),
        open_database(alloc),
    ) else {
        return (
            ScriptEnd::NoMemory,
            None,
            FileReplies::empty(alloc),
            outside,
        );
    };
    let session = NewSession {
        database,
        line_loop,
        declarations,
    };
    run_session(rt, alloc, session, outside, gate, cooperative)
}
