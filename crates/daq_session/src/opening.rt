// The opening of a session, with its first start.
ghost use Rattle.std.specs.Prelude.{◌≡◌, ◌≤◌, IfErr, IfOk, OnErr, OnOk, length};
ghost use Rattle.daq_types.specs.Callers.{main_caller};
ghost use Rattle.turn_lock.specs.Passes.{number_of, IsOf};
ghost use Rattle.turn_lock.specs.Roster.{IsFresh};
ghost use Rattle.odb_watch.specs.DatabasePorts.{IsSamePort};
ghost use Rattle.odb_lock.specs.SharedAccesses.{access_by_pass};
ghost use Rattle.transitions.specs.Engines.{engine_opening};
ghost use Rattle.transition_lock.specs.SharedEngines.{engine_lock_of, first_engine};
ghost use Rattle.session_commands.specs.Stages.{front_names, opened_runs};
ghost use Rattle.session_setup.specs.Setup.{declared_by};
ghost use Rattle.session_objects.specs.Kept.{OthersSawNothing};
ghost use Rattle.daq_session.specs.NewDatabases.{IsNewDatabase};
ghost use Rattle.daq_session.specs.Opened.{AreOpenFor, FrontKeysCut, FrontKeysMade, OpensMembers};

use crate::places::{MemberSide, Places};
use buffer_core::BufferPort;
use buffer_lock::SharedPort;
use daq_io::{Files, Gate, Pick};
use daq_members::MemberRoom;
use daq_types::{BoundedList, Name, NoMemory};
use front_ends::Equipment;
use frontend_kit::Generator;
use odb_arena::ArenaTree;
use odb_links::LinkTree;
use odb_lock::{LockedDatabase, OdbPass, OdbPasses, SharedAccess, SharedOdb, WatchedSeen};
use odb_runinfo::open;
use odb_tree::Database;
use odb_watch::{WatchEntry, WatchPort};
use ring_buffer::RingBuffer;
use session_commands::make_keys;
use session_objects::{
    Membership, SessionMembers, SessionObjects, SessionPasses, member_names, take_main,
};
use session_runs::laws::members_counted;
use session_runs::{MainSeat, Runs};
use session_setup::DeclaredLists;
use std::alloc::Global;
use std::sync::Wait;
use transition_lock::EnginePass;
use turn_lock::Machine;

/// How many passes a session's database has: one for the main thread, and one for each front-end that may be declared.
const DATABASE_PASSES: u32 = 33;

/// What a session keeps its settings in: a database that keeps links.
pub type SessionTree = LinkTree<ArenaTree>;

/// The online database of a session, which all that may be declared can call.
#[derive(Drop)]
pub struct OpenDatabase<D: Database>
where
    LockedDatabase<D>: Machine<State = WatchedSeen, Entry = WatchEntry>,
{
    pub shared: SharedOdb<D>,
    /// The main thread's pass.
    pub main: OdbPass<D>,
    /// The others.
    pub passes: OdbPasses<D>,
}

/// The online database of a session that is not open: it has the run's parameters.
pub fn open_database(alloc: Global) -> Result<OpenDatabase<SessionTree>, NoMemory>
    ensures { IfOk result (λ d. IsNewDatabase d.shared d.main d.passes) }
{
    let mut tree = LinkTree::new(alloc, ArenaTree::new(alloc));
    open(alloc, &mut tree)?;
    let (shared, mut passes) = SharedOdb::new(alloc, tree, DATABASE_PASSES)?;
    let main = take_main(&mut passes);
    Ok(OpenDatabase {
        shared,
        main,
        passes,
    })
}

/// The names of the front-ends.
fn front_names(alloc: Global, lists: &DeclaredLists) -> Result<BoundedList<Name, 32>, NoMemory>
    ensures { IfOk result (λ names. names ≡ front_names (declared_by lists.now)) }
{
    let fronts = lists.fronts.as_slice();
    let mut names = BoundedList::new(alloc)?;
    for front in fronts {
        names.try_push(front.name)?;
    }
    Ok(names)
}

/// Makes the keys of these front-ends.
fn front_keys<'a, R: Wait, D: Database>(
    rt: &R,
    alloc: Global,
    access: &mut SharedAccess<'a, D>,
    lists: &DeclaredLists,
) -> Result<(), NoMemory>
    requires main { (access_by_pass access.old).caller ≡ main_caller }
    ensures made { OnOk result (FrontKeysMade lists.now (access_by_pass access.old) (access_by_pass access.new)) }
    ensures cut { OnErr result (FrontKeysCut lists.now (access_by_pass access.old) (access_by_pass access.new)) }
    ensures same { IsSamePort (access_by_pass access.old) (access_by_pass access.new) }
{
    let names = front_names(alloc, lists)?;
    make_keys(rt, alloc, access, names.as_slice())
}

/// Room for the threads of a session's members.
pub type SessionRoom<'a, D, F> = MemberRoom<
    'a,
    Generator,
    SharedPort<'a, RingBuffer>,
    SharedAccess<'a, D>,
    F,
>;

/// Lets room for threads of members go. Dropped at the session's own types it would have all their laws proved at each place.
pub fn let_go<'a, X: Equipment + Drop, P: BufferPort + Drop, D: WatchPort + Drop, F: Files + Drop>(
    _room: MemberRoom<'a, X, P, D, F>,
) {}

/// Takes room for the threads of the members, but where the main thread gives them their turns; and makes the keys of the front-ends.
pub fn open_keys<'a, R: Wait, D: Database, F: Files + Drop>(
    rt: &R,
    alloc: Global,
    cooperative: bool,
    access: &mut SharedAccess<'a, D>,
    lists: &DeclaredLists,
) -> Result<SessionRoom<'a, D, F>, NoMemory>
    requires main { (access_by_pass access.old).caller ≡ main_caller }
    ensures made { OnOk result (FrontKeysMade lists.now (access_by_pass access.old) (access_by_pass access.new)) }
    ensures cut { OnErr result (FrontKeysCut lists.now (access_by_pass access.old) (access_by_pass access.new)) }
    ensures same { IsSamePort (access_by_pass access.old) (access_by_pass access.new) }
{
    let room = MemberRoom::new(alloc, cooperative)?;
    match front_keys(rt, alloc, access, lists) {
        Ok(()) => Ok(room),
        Err(NoMemory) => {
            let_go(room);
            Err(NoMemory)
        }
    }
}

/// What the main thread keeps of the runs of a session that opens: it registers the members.
fn open_runs<'a, R: Wait>(
    rt: &R,
    alloc: Global,
    objects: &'a SessionObjects,
    main: EnginePass,
    lists: &DeclaredLists,
    quota: u32,
) -> Result<Runs<'a>, NoMemory>
    requires few { length lists.now.fronts ≤ 32 }
    requires few_analyzers { length lists.now.analyzers ≤ 8 }
    requires main { number_of main ≡ main_caller }
    requires own { IsOf (engine_lock_of objects.now.engine) main }
    requires fresh { IsFresh main }
    requires opening { first_engine objects.now.engine ≡ engine_opening }
    ensures { IfOk result (λ runs. runs ≡ opened_runs quota (declared_by lists.now)
        objects.now.engine) }
{
    let members = member_names(alloc, lists)?;
    members_counted();
    let mut seat = MainSeat::new(&objects.engine, main);
    seat.register_all(rt, &members);
    Runs::new(alloc, seat, quota, members, lists.channels.as_slice())
}

/// What the main thread keeps of the runs of a session that opens, its members, and their pick; or what the members were to meet
/// outside, where there is no memory for them: then the passes of the database are all here but the main thread's.
pub fn open_members<'a, R: Wait, D: Database, F: Files + Drop, K: Pick, G: Gate>(
    rt: &R,
    alloc: Global,
    places: &Places<'a, D, G>,
    main: EnginePass,
    passes: &mut SessionPasses<D>,
    side: MemberSide<'a, F, K, G>,
) -> Result<(Runs<'a>, SessionMembers<'a, D, F>, K), MemberSide<'a, F, K, G>>
    requires { AreOpenFor places.now main passes.old }
    ensures opened { IfOk result (λ opened. OpensMembers places.now side.entry passes.new opened) }
    ensures files { IfErr result (λ back. back.run_files ≡ side.entry.run_files) }
    ensures pick { IfErr result (λ back. back.pick ≡ side.entry.pick) }
    ensures back { OnErr result (OthersSawNothing places.now.shared.now passes.new.database) }
{
    let (objects, lists) = (places.objects, places.lists);
    let Ok(runs) = open_runs(rt, alloc, objects, main, lists, places.quota) else {
        return Err(side);
    };
    let membership = Membership {
        objects,
        database: places.shared,
        lists,
    };
    let MemberSide {
        run_files,
        pick,
        gate,
        cooperative,
    } = side;
    match membership.members(alloc, passes, run_files) {
        Ok(members) => Ok((runs, members, pick)),
        Err(run_files) => Err(MemberSide {
            run_files,
            pick,
            gate,
            cooperative,
        }),
    }
}
