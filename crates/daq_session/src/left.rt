// What is left behind a script, and what is kept of it.
ghost use Rattle.std.specs.Prelude.{◌≡◌, ◌<◌, Some};
ghost use Rattle.daq_types.specs.Callers.{main_caller};
ghost use Rattle.turn_lock.specs.Passes.{passes_of};
ghost use Rattle.odb_lock.specs.SharedAccesses.{access_by_pass, odb_identity};
ghost use Rattle.odb_lock.specs.SharedOdbs.{odb_lock_of};
ghost use Rattle.session_objects.specs.Kept.{OthersSawNothing};
ghost use Rattle.session_objects.specs.Members.{members_told};
ghost use Rattle.session_objects.specs.Records.{AreAllPasses};
ghost use Rattle.daq_session.specs.Played.{IsBack, IsMainAlone, KeepsLeft, MainCalledAlone, unopened_lines};

use crate::laws::sessions_hold;
use crate::places::Scene;
use crate::played::LinesEnd;
use console::{DatabaseConsole, Ending};
use daq_io::{Clock, Files, Gate, Pick, Sink, Source};
use odb_lock::{LockedDatabase, OdbPasses, SharedAccess, SharedOdb, WatchedSeen};
use odb_tree::Database;
use odb_watch::WatchEntry;
use session_commands::MainSide;
use session_objects::{RunRecords, SessionObjects, SessionPasses, SessionRecord};
use turn_lock::Machine;

/// The objects of a session that was open, with all their passes, and the records of its runs.
#[derive(Drop)]
pub struct EndedObjects<D: Database>
where
    LockedDatabase<D>: Machine<State = WatchedSeen, Entry = WatchEntry>,
{
    pub objects: SessionObjects,
    pub passes: SessionPasses<D>,
    pub runs: RunRecords,
}

/// What is left behind a script, to be closed.
#[derive(Drop)]
pub enum LeftBehind<D: Database>
where
    LockedDatabase<D>: Machine<State = WatchedSeen, Entry = WatchEntry>,
{
    /// A session was open.
    Session { ended: EndedObjects<D> },
    /// None was opened: the passes of the database are all here.
    Unopened { passes: OdbPasses<D> },
}

/// All passes of the database, with the main thread's, by which alone calls were made.
fn all_passes<'a, D: Database>(
    _shared: &SharedOdb<D>,
    access: SharedAccess<'a, D>,
    mut passes: OdbPasses<D>,
) -> OdbPasses<D>
    requires caller { (access_by_pass access).caller ≡ main_caller }
    requires database { (access_by_pass access).database ≡ odb_identity _shared.now }
    requires others { OthersSawNothing _shared.now passes }
    ensures { IsMainAlone _shared.now (access_by_pass access.entry).seen result }
{
    let pass = access.into_pass();
    passes.push(pass);
    passes
}

/// What a script came to that opened no session, and all passes of its database.
pub fn leave_unopened<
    'a,
    S: Source,
    O: Sink,
    D: Database,
    E: Files,
    C: Clock,
    F: Files,
    K: Pick,
    G: Gate,
>(
    shared: &SharedOdb<D>,
    side: MainSide<SharedAccess<'a, D>, E, C>,
    passes: OdbPasses<D>,
    ending: Ending,
    scene: Scene<'a, S, O, F, K, G>,
) -> (LinesEnd<S, O, E, C, F, K>, OdbPasses<D>)
    requires database { (access_by_pass side.database.access).database ≡ odb_identity shared.now }
    requires others { OthersSawNothing shared.now passes }
    ensures lines { result.0 ≡ unopened_lines ending side.entry scene.entry }
    ensures alone { IsMainAlone shared.now (access_by_pass side.entry.database.access).seen result.1 }
{
    let MainSide { database, clock } = side;
    let Scene { script, members } = scene;
    let DatabaseConsole {
        access,
        files: odb_files,
        replies,
    } = database;
    let passes = all_passes(shared, access, passes);
    let lines = LinesEnd {
        ending,
        closing: None,
        failed: false,
        replies,
        odb_files,
        clock,
        run_files: members.run_files,
        pick: members.pick,
        script,
    };
    (lines, passes)
}

/// Closes the database of a script that opened no session. All calls that were made on it are the main thread's.
fn close_database<D: Database>(shared: SharedOdb<D>, passes: OdbPasses<D>)
    requires some { 0 < passes_of (odb_lock_of shared) }
    requires all { AreAllPasses (odb_lock_of shared) passes }
    ensures alone { MainCalledAlone shared passes }
{
    let Ok(_) = shared.close(passes) else {
        unreachable!()
    };
}

/// Closes the objects of a session that was open, whose passes are all here, and keeps their record.
fn close_objects<D: Database, F: Files>(
    shared: SharedOdb<D>,
    ended: EndedObjects<D>,
) -> SessionRecord<D>
    requires back { IsBack shared (LeftBehind.Session ended) }
    ensures kept { KeepsLeft (members_told F.told) shared (LeftBehind.Session ended) (Some result) }
{
    let EndedObjects {
        objects,
        passes,
        runs,
    } = ended;
    let record = objects.close(shared, passes, runs);
    sessions_hold::<D, F>(&record);
    record
}

/// What is kept of a script, whose passes are all here: the record of its session, if it opened one.
pub fn close_left<D: Database, F: Files>(
    shared: SharedOdb<D>,
    left: LeftBehind<D>,
) -> Option<SessionRecord<D>>
    requires some { 0 < passes_of (odb_lock_of shared) }
    requires back { IsBack shared left }
    ensures kept { KeepsLeft (members_told F.told) shared left result }
{
    match left {
        LeftBehind::Session { ended } => Some(close_objects::<D, F>(shared, ended)),
        LeftBehind::Unopened { passes } => {
            close_database(shared, passes);
            None
        }
    }
}
