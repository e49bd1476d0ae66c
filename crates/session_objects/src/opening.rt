// Opening the objects of a session.
ghost use Rattle.std.specs.Prelude.{◌≡◌, ◌≤◌, ◌<◌, ◌∷◌, [], ℕ, All, IsTrue, length, slice_get, Some, IfErr, IfOk};
ghost use Rattle.daq_types.specs.Callers.{main_caller};
ghost use Rattle.turn_lock.specs.Passes.{number_of, passes_of, IsOf};
ghost use Rattle.turn_lock.specs.Roster.{IsFresh};
ghost use Rattle.buffer_lock.specs.SharedBuffers.{lock_of};
ghost use Rattle.transitions.specs.Engines.{engine_opening};
ghost use Rattle.transition_lock.specs.SharedEngines.{engine_lock_of, first_engine};
ghost use Rattle.odb_lock.specs.declared.shared.SharedOdb.{SharedOdb as DatabaseShared};
ghost use Rattle.odb_lock.specs.SharedOdbs.{odb_lock_of};
ghost use Rattle.session_setup.specs.Setup.{declared_by, is_buffer_size, AreSound};
ghost use Rattle.session_objects.specs.Rosters.{KeepsFresh};
ghost use Rattle.session_objects.specs.Objects.{IsBufferOf, AreBuffersOf, AreObjectsOf};
ghost use Rattle.session_objects.specs.Kept.{out_to, HasFreshBut};

use crate::objects::{SessionBuffer, SessionObjects};
use crate::passes::{SessionPasses, take_main};
use buffer_lock::{BufferPasses, SharedBuffer};
use daq_types::{BoundedList, NoMemory};
use member_model::Engine;
use odb_lock::{LockedDatabase, OdbPasses, WatchedSeen};
use odb_tree::Database;
use odb_watch::WatchEntry;
use ring_buffer::{Ring, RingBuffer};
use session_setup::{BufferDeclared, DeclaredLists};
use std::alloc::Global;
use transition_lock::{EnginePass, EnginePasses, SharedEngine};
use turn_lock::Machine;

/// How many callers an object has besides the front-ends and the analyzers: the main thread and the logger.
const OTHER_CALLERS: u32 = 2;

/// The objects of a session, as they open.
#[derive(Drop)]
pub struct OpenedObjects<D: Database>
where
    LockedDatabase<D>: Machine<State = WatchedSeen, Entry = WatchEntry>,
{
    pub objects: SessionObjects,
    /// All passes of the objects but the main thread's.
    pub passes: SessionPasses<D>,
    /// The main thread's pass of the engine.
    pub main: EnginePass,
}

/// Buffers with their passes.
#[derive(Drop)]
struct OpenedBuffers {
    buffers: Vec<SessionBuffer>,
    passes: Vec<BufferPasses<RingBuffer>>,
}

/// An engine with its passes: the main thread's, and the others.
#[derive(Drop)]
struct OpenedEngine {
    engine: SharedEngine,
    main: EnginePass,
    passes: EnginePasses,
}

/// A buffer as it was declared, which so many callers share, with their passes.
fn open_buffer(
    alloc: Global,
    declared: &BufferDeclared,
    callers: u32,
) -> Result<(SessionBuffer, BufferPasses<RingBuffer>), NoMemory>
    requires size { IsTrue (is_buffer_size declared.now.size) }
    requires some { 0 < callers }
    requires few { callers ≤ 256 }
    ensures buffer { IfOk result (λ opened. IsBufferOf declared.now callers opened.0) }
    ensures passes { IfOk result (λ opened. KeepsFresh [] (lock_of opened.0.shared) opened.1) }
{
    let ring = Ring::new(alloc, declared.size)?;
    let (shared, passes) = SharedBuffer::new(alloc, RingBuffer::over(ring), callers)?;
    let buffer = SessionBuffer {
        name: declared.name,
        size: declared.size,
        shared,
    };
    Ok((buffer, passes))
}

/// The buffers as they were declared, which so many callers share, with their passes.
fn open_buffers(
    alloc: Global,
    declared: &[BufferDeclared],
    callers: u32,
) -> Result<OpenedBuffers, NoMemory>
    requires sizes { All (λ buffer. IsTrue (is_buffer_size buffer.size)) declared.now }
    requires some { 0 < callers }
    requires few { callers ≤ 256 }
    ensures buffers { IfOk result (λ opened. AreBuffersOf declared.now callers
        opened.buffers.items) }
    ensures many { IfOk result (λ opened. length opened.passes.items ≡ length declared.now) }
    ensures passes { IfOk result (λ opened. (number : ℕ) → (buffer roster : _) →
        slice_get opened.buffers.items number ≡ Some buffer →
        slice_get opened.passes.items number ≡ Some roster →
        KeepsFresh [] (lock_of buffer.shared) roster) }
{
    let mut buffers = Vec::new(alloc);
    let mut passes = Vec::new(alloc);
    for wanted in declared {
        let (buffer, roster) = open_buffer(alloc, wanted, callers)?;
        buffers.push(buffer)?;
        passes.push(roster)?;
    }
    Ok(OpenedBuffers { buffers, passes })
}

/// An engine that is new, which so many callers share, with their passes.
fn open_engine(alloc: Global, callers: u32) -> Result<OpenedEngine, NoMemory>
    requires some { 0 < callers }
    requires few { callers ≤ 256 }
    ensures first { IfOk result (λ opened. first_engine opened.engine ≡ engine_opening) }
    ensures count { IfOk result (λ opened. passes_of (engine_lock_of opened.engine) ≡ callers) }
    ensures passes { IfOk result (λ opened. KeepsFresh (main_caller ∷ [])
        (engine_lock_of opened.engine) opened.passes) }
    ensures main { IfOk result (λ opened. number_of opened.main ≡ main_caller) }
    ensures own { IfOk result (λ opened. IsOf (engine_lock_of opened.engine) opened.main) }
    ensures fresh { IfOk result (λ opened. IsFresh opened.main) }
{
    let (engine, mut passes) = SharedEngine::new(alloc, Engine::new(alloc)?, callers)?;
    let main = take_main(&mut passes);
    Ok(OpenedEngine {
        engine,
        main,
        passes,
    })
}

impl SessionObjects {
    /// The objects of a session of these declarations, which its main thread and its members call. All memory that they need
    /// is taken here. The passes of the database, of which the main thread has its own, are kept with the others; they come back
    /// where memory is wanting for the objects.
    pub fn open<D: Database>(
        alloc: Global,
        lists: &DeclaredLists,
        database: OdbPasses<D>,
    ) -> Result<OpenedObjects<D>, OdbPasses<D>>
        requires { AreSound (declared_by lists.now) }
        ensures objects { IfOk result (λ opened. AreObjectsOf lists.now opened.objects) }
        ensures passes { IfOk result (λ opened. (shared : DatabaseShared D) →
            KeepsFresh (main_caller ∷ []) (odb_lock_of shared) database →
            HasFreshBut (out_to lists.now 0) opened.objects shared opened.passes) }

        // The main thread has its pass of the engine, by which no call was made.
        ensures main { IfOk result (λ opened. number_of opened.main ≡ main_caller) }
        ensures own { IfOk result (λ opened. IsOf (engine_lock_of opened.objects.engine)
            opened.main) }
        ensures fresh { IfOk result (λ opened. IsFresh opened.main) }
        ensures back { IfErr result (λ back. back ≡ database) }
    {
        let callers = lists.fronts.len() as u32 + OTHER_CALLERS + lists.analyzers.len() as u32;
        let (Ok(buffers), Ok(engine), Ok(records)) = (
            open_buffers(alloc, lists.buffers.as_slice(), callers),
            open_engine(alloc, callers),
            BoundedList::new(alloc),
        ) else {
            return Err(database);
        };
        Ok(OpenedObjects {
            objects: SessionObjects {
                buffers: buffers.buffers,
                engine: engine.engine,
                records,
            },
            passes: SessionPasses {
                buffers: buffers.passes,
                engine: engine.passes,
                database,
            },
            main: engine.main,
        })
    }
}
