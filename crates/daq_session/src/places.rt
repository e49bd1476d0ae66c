use daq_io::Gate;
use odb_lock::{LockedDatabase, SharedOdb, WatchedSeen};
use odb_tree::Database;
use odb_watch::WatchEntry;
use session_commands::Script;
use session_objects::{SessionObjects, SessionPasses};
use session_setup::DeclaredLists;
use transition_lock::EnginePass;
use turn_lock::Machine;

/// The objects that the members of a session call, what was declared, the gate that they pass, and how many events each front-end has
/// to send in the first run.
#[derive(Drop)]
pub struct Places<'a, D: Database, G: Gate> {
    pub shared: &'a SharedOdb<D>,
    pub objects: &'a SessionObjects,
    pub lists: &'a DeclaredLists,
    pub gate: &'a G,
    pub quota: u32,
}

/// The passes of a session's objects, of which none is given out.
#[derive(Drop)]
pub struct OpenedPasses<D: Database>
where
    LockedDatabase<D>: Machine<State = WatchedSeen, Entry = WatchEntry>,
{
    /// The main thread's pass of the engine.
    pub main: EnginePass,
    pub others: SessionPasses<D>,
}

/// What the members of a session meet outside, and where they have their turns.
#[derive(Drop)]
pub struct MemberSide<'a, F, K, G> {
    pub run_files: F,
    pub pick: K,
    pub gate: &'a G,
    /// Whether the main thread gives all members their turns.
    pub cooperative: bool,
}

/// A script that is played, and what the members of its session meet outside.
#[derive(Drop)]
pub struct Scene<'a, S, O, F, K, G> {
    pub script: Script<S, O>,
    pub members: MemberSide<'a, F, K, G>,
}
