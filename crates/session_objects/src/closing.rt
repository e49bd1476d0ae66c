// Closing the objects of a session, once all their passes are back.
ghost use Rattle.std.specs.Prelude.{◌≡◌, ◌≤◌, [], ℕ, List, length, slice_get, Some};
ghost use Rattle.daq_types.specs.Callers.{entries_by};
ghost use Rattle.turn_lock.specs.History.{IsPartOf};
ghost use Rattle.turn_lock.specs.Passes.{number_of, seen_by, passes_of};
ghost use Rattle.turn_lock.specs.Roster.{items_of};
ghost use Rattle.turn_lock.specs.Closing.{history_of};
ghost use Rattle.buffer_lock.specs.SharedBuffers.{lock_of};
ghost use Rattle.transitions.specs.EngineHistories.{engine_replay};
ghost use Rattle.member_model.specs.RunEngines.{IsLegalEngine};
ghost use Rattle.transition_lock.specs.SharedEngines.{engine_lock_of, first_engine};
ghost use Rattle.odb_watch.specs.Steps.{LeadsDatabase};
ghost use Rattle.odb_lock.specs.SharedOdbs.{odb_lock_of, first_database};
ghost use Rattle.session_objects.specs.Calls.{SessionCalls};
ghost use Rattle.session_objects.specs.Records.{AreAllPasses, IsRecordOf, HoldsAllOf, HasCalls, HoldsHistories, HoldsCalls};

use crate::objects::{SessionBuffer, SessionObjects};
use crate::passes::SessionPasses;
use crate::record::{BufferRecord, BufferRecords, RunRecords, SessionRecord};
use buffer_lock::BufferPasses;
use event_report::Report;
use odb_lock::{OdbClosed, OdbPasses, SharedOdb};
use odb_tree::Database;
use odb_watch::laws::notes_are_due;
use ring_buffer::RingBuffer;
use transition_lock::{EngineClosed, EnginePasses, SharedEngine};
use transitions::laws::follows;

/// Closes a buffer, whose passes are all here.
fn close_buffer(buffer: SessionBuffer, passes: BufferPasses<RingBuffer>) -> BufferRecord
    requires { AreAllPasses (lock_of buffer.shared) passes }
    ensures record { IsRecordOf buffer result }
    ensures parts { HoldsAllOf (items_of passes) (passes_of (lock_of buffer.shared))
        (history_of result.closed) }
{
    let SessionBuffer { name, size, shared } = buffer;
    let Ok(closed) = shared.close(passes) else {
        unreachable!()
    };
    BufferRecord { name, size, closed }
}

/// Closes the engine, whose passes are all here.
fn close_engine(engine: SharedEngine, passes: EnginePasses) -> EngineClosed
    requires { AreAllPasses (engine_lock_of engine) passes }
    ensures legal { IsLegalEngine (first_engine engine) (history_of result) }
    ensures left { result.value.engine ≡ engine_replay (first_engine engine)
        (history_of result) }
    ensures parts { HoldsAllOf (items_of passes) (passes_of (engine_lock_of engine))
        (history_of result) }
{
    let Ok(closed) = engine.close_lock(passes) else {
        unreachable!()
    };
    closed
}

/// Closes the database, whose passes are all here.
fn close_database<D: Database>(database: SharedOdb<D>, passes: OdbPasses<D>) -> OdbClosed<D>
    requires { AreAllPasses (odb_lock_of database) passes }
    ensures leads { LeadsDatabase (first_database database) (history_of result)
        result.value.database }
    ensures parts { HoldsAllOf (items_of passes) (passes_of (odb_lock_of database))
        (history_of result) }
{
    let Ok(closed) = database.close(passes) else {
        unreachable!()
    };
    closed
}

/// Closes the buffers, whose passes are all here, each at its buffer's number. The records come into the empty list.
fn close_buffers(
    mut buffers: Vec<SessionBuffer>,
    mut passes: Vec<BufferPasses<RingBuffer>>,
    records: &mut BufferRecords,
)
    requires few { length buffers.items ≤ 8 }
    requires many { length passes.items ≡ length buffers.items }
    requires all { (number : ℕ) → (buffer roster : _) →
        slice_get buffers.items number ≡ Some buffer →
        slice_get passes.items number ≡ Some roster →
        AreAllPasses (lock_of buffer.shared) roster }
    requires empty { records.old ≡ [] }
    ensures many { length records.new ≡ length buffers.items }
    ensures records { (number : ℕ) → (buffer closed : _) →
        slice_get buffers.items number ≡ Some buffer →
        slice_get records.new number ≡ Some closed →
        IsRecordOf buffer closed }
    ensures parts { (number : ℕ) → (buffer roster closed : _) →
        slice_get buffers.items number ≡ Some buffer →
        slice_get passes.items number ≡ Some roster →
        slice_get records.new number ≡ Some closed →
        HoldsAllOf (items_of roster) (passes_of (lock_of buffer.shared))
        (history_of closed.closed) }
{
    for _ in 0..buffers.len() {
        let buffer = buffers.remove(0);
        let roster = passes.remove(0);
        records.push(close_buffer(buffer, roster));
    }
}

impl SessionObjects {
    /// Ends the session, once the passes of all its objects are back: what is kept of it. No pass is missing. Takes no memory.
    pub fn close<D: Database>(
        self,
        database: SharedOdb<D>,
        passes: SessionPasses<D>,
        runs: RunRecords,
    ) -> SessionRecord<D>
        requires { (calls : SessionCalls) × HasCalls calls self database passes }
        ensures histories { HoldsHistories self database result }
        ensures calls { (calls : SessionCalls) → HasCalls calls self database passes →
            HoldsCalls calls self database result }
        ensures runs { result.runs ≡ runs }
    {
        follows::<Report>();
        notes_are_due();
        let SessionObjects {
            buffers,
            engine,
            mut records,
        } = self;
        let SessionPasses {
            buffers: buffer_passes,
            engine: engine_passes,
            database: database_passes,
        } = passes;
        close_buffers(buffers, buffer_passes, &mut records);
        SessionRecord {
            buffers: records,
            database: close_database(database, database_passes),
            engine: close_engine(engine, engine_passes),
            runs,
        }
    }
}
