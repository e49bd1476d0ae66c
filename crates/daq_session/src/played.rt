// An open session over its objects, from its first start to the end of its script.
ghost use Rattle.std.specs.Prelude.{◌≡◌, ◌<◌, ◌≤◌, ◌+◌, length};
ghost use Rattle.odb_lock.specs.SharedAccesses.{access_by_pass, odb_identity};
ghost use Rattle.daq_members.specs.Members.{member_told};
ghost use Rattle.daq_members.specs.Stay.{StayMembers};
ghost use Rattle.session_commands.specs.Finishing.{side_told};
ghost use Rattle.daq_session.specs.Environments.{outside_told};
ghost use Rattle.daq_session.specs.LinesEnded.{outside_left};
ghost use Rattle.daq_session.specs.Opened.{AreOpenFor, HasMembersAt, IsMainOf, PlaysMain};
ghost use Rattle.daq_session.specs.Played.{PlaysObjects, PlaysOpened};

use crate::left::leave_unopened;
use crate::opening::{SessionRoom, let_go, open_keys, open_members};
use crate::places::{OpenedPasses, Places, Scene};
use buffer_core::BufferPort;
use console::{DatabaseConsole, Ending, Halt};
use daq_io::{Clock, Files, Gate, Outside, Pick, Sink, Source};
use daq_members::{MemberRoom, Members, play_members};
use front_ends::Equipment;
use odb_commands::FileReplies;
use odb_lock::{LockedDatabase, OdbPasses, SharedAccess, WatchedSeen};
use odb_tree::Database;
use odb_watch::{WatchEntry, WatchPort};
use session_commands::laws::first_start_opens;
use session_commands::{MainEnd, MainPlay, MainSide, Script};
use session_objects::laws::members_stay;
use session_objects::{LoggerEnd, Membership, Returned, RunRecords, SessionMembers, SessionPasses};
use std::alloc::Global;
use std::sync::Wait;
use std::thread::Threads;
use turn_lock::Machine;

/// What the lines of a script came to, the script as it is then, and the rest of the outside.
#[derive(Drop)]
pub struct LinesEnd<S, O, E, C, F, K> {
    pub ending: Ending,
    /// What failed behind the lines.
    pub closing: Option<Halt>,
    /// Whether a call on the run files failed.
    pub failed: bool,
    pub replies: FileReplies,
    pub odb_files: E,
    pub clock: C,
    pub run_files: F,
    pub pick: K,
    pub script: Script<S, O>,
}

impl<S, O, E, C, F, K> LinesEnd<S, O, E, C, F, K> {
    /// The replies of the lines that called the files of the database, and the outside as the script leaves it.
    pub fn into_outside(self) -> (FileReplies, Outside<S, O, F, E, C, K>)
        ensures replies { result.0 ≡ self.replies }
        ensures outside { result.1 ≡ outside_left self }
    {
        let LinesEnd {
            replies,
            odb_files,
            clock,
            run_files,
            pick,
            script,
            ..
        } = self;
        let Script { src, out, .. } = script;
        let outside = Outside {
            src,
            out,
            run_files,
            odb_files,
            clock,
            pick,
        };
        (replies, outside)
    }
}

/// What is left of a session that was open, to be closed.
#[derive(Drop)]
pub struct OpenedEnd<D: Database, S, O, E, C, F, K>
where
    LockedDatabase<D>: Machine<State = WatchedSeen, Entry = WatchEntry>,
{
    pub lines: LinesEnd<S, O, E, C, F, K>,
    /// All passes of the objects, and the records of the runs; or those of the database, where there was no memory to open the
    /// session.
    pub session: Result<(SessionPasses<D>, RunRecords), OdbPasses<D>>,
}

/// Where there is no memory to open a session.
pub const NO_MEMORY: Ending = Ending::Halted {
    halt: Halt::NoMemory,
};

/// Plays the main thread's part of an open session with these members. At a session's own types a call with `MainPlay` would have its
/// laws stated once more, so this is over any types.
fn play_main<
    'a,
    R: Threads + Wait + Sync,
    X: Equipment + Drop + Send,
    P: BufferPort + Drop + Send,
    S: Source + Drop,
    O: Sink + Drop,
    D: WatchPort + Drop + Send,
    E: Files + Drop,
    C: Clock + Drop,
    F: Files + Drop + Send,
    K: Pick + Drop,
    G: Gate + Sync,
>(
    rt: &R,
    room: MemberRoom<'a, X, P, D, F>,
    members: Members<'a, X, P, D, F>,
    pick: K,
    gate: &'a G,
    main: MainPlay<'a, S, O, D, E, C>,
) -> (MainEnd<S, O, D, E, C>, Members<'a, X, P, D, F>, K)
    requires some { 0 < length members }
    requires few { length members ≤ 64 }
    ensures played { PlaysMain S.told O.told (side_told D.access E.told C.told) main.entry result.0 }
    ensures stay { StayMembers (member_told X.takes X.makes F.told) members.entry result.1 }
{
    play_members(rt, room, members, pick, gate, main)
}

/// Plays an open session to the end of its script, and takes back what its members called by.
fn play_opened<
    'a,
    R: Threads + Wait + Sync,
    S: Source + Drop,
    O: Sink + Drop,
    D: Database + Send,
    E: Files + Drop,
    C: Clock + Drop,
    F: Files + Drop + Send,
    K: Pick + Drop,
    G: Gate + Sync,
>(
    rt: &R,
    places: &Places<'a, D, G>,
    room: SessionRoom<'a, D, F>,
    members: SessionMembers<'a, D, F>,
    pick: K,
    passes: SessionPasses<D>,
    main: MainPlay<'a, S, O, SharedAccess<'a, D>, E, C>,
) -> OpenedEnd<D, S, O, E, C, F, K>
    requires main { IsMainOf places.now main }
    requires members { (files : F) × HasMembersAt places.now files members passes }
    ensures { PlaysOpened (outside_told S.told O.told F.told E.told C.told) places.now members.entry main.entry result }
{
    members_stay(members.as_slice());
    let (end, members, pick) = play_main(rt, room, members, pick, places.gate, main);
    let MainEnd {
        ending,
        closing,
        main,
        records,
        side,
        script,
    } = end;
    let MainSide { database, clock } = side;
    let DatabaseConsole {
        access,
        files: odb_files,
        replies,
    } = database;
    let membership = Membership {
        objects: places.objects,
        database: places.shared,
        lists: places.lists,
    };
    let pass = access.into_pass();
    let Returned { passes, logger } = membership.take_back(passes, members, main, pass);
    let LoggerEnd {
        files: run_files,
        failed,
    } = logger;
    OpenedEnd {
        lines: LinesEnd {
            ending,
            closing,
            failed,
            replies,
            odb_files,
            clock,
            run_files,
            pick,
            script,
        },
        session: Ok((passes, records)),
    }
}

/// Opens a session over its objects, and plays it to the end of its script.
pub fn play_objects<
    'a,
    R: Threads + Wait + Sync,
    S: Source + Drop,
    O: Sink + Drop,
    D: Database + Send,
    E: Files + Drop,
    C: Clock + Drop,
    F: Files + Drop + Send,
    K: Pick + Drop,
    G: Gate + Sync,
>(
    rt: &R,
    alloc: Global,
    places: &Places<'a, D, G>,
    passes: OpenedPasses<D>,
    mut side: MainSide<SharedAccess<'a, D>, E, C>,
    scene: Scene<'a, S, O, F, K, G>,
) -> OpenedEnd<D, S, O, E, C, F, K>
    requires fits { scene.script.line_loop.number + 1 ≤ scene.script.line_loop.reader.taken }
    requires database { (access_by_pass side.database.access).database ≡ odb_identity places.now.shared.now }
    requires open { AreOpenFor places.now passes.main passes.others }
    ensures { PlaysObjects (outside_told S.told O.told F.told E.told C.told) places.now side.entry scene.entry result }
{
    first_start_opens::<D, E, C>(places.shared);
    let OpenedPasses {
        main,
        others: mut passes,
    } = passes;
    let database = &mut side.database;
    let access = &mut database.access;
    let Ok(room) = open_keys(rt, alloc, scene.members.cooperative, access, places.lists) else {
        let passes = passes.database;
        let (lines, passes) = leave_unopened(places.shared, side, passes, NO_MEMORY, scene);
        return OpenedEnd {
            lines,
            session: Err(passes),
        };
    };
    let Scene { script, members } = scene;
    match open_members(rt, alloc, places, main, &mut passes, members) {
        Ok((runs, members, pick)) => {
            let main = MainPlay {
                alloc,
                lists: places.lists,
                runs,
                side,
                script,
            };
            play_opened(rt, places, room, members, pick, passes, main)
        }
        Err(members) => {
            let_go(room);
            let scene = Scene { script, members };
            let passes = passes.database;
            let (lines, passes) = leave_unopened(places.shared, side, passes, NO_MEMORY, scene);
            OpenedEnd {
                lines,
                session: Err(passes),
            }
        }
    }
}
