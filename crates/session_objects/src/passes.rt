// The passes of a session's objects.
ghost use Rattle.std.specs.Prelude.{◌≡◌, ◌<◌, ◌∷◌, [], ℕ, List, length, slice_get, Some, Contains};
ghost use Rattle.daq_types.specs.Callers.{main_caller};
ghost use Rattle.turn_lock.specs.Passes.{passes_of, number_of, IsOf};
ghost use Rattle.turn_lock.specs.Roster.{items_of, numbers_of, numbers_below, room_of, ArePassesOf, AreFresh, IsFresh};
ghost use Rattle.session_objects.specs.Rosters.{KeepsFresh, TakesFresh, PutsBack, ChangesAt};

use buffer_lock::{BufferPass, BufferPasses};
use odb_lock::{LockedDatabase, OdbPass, OdbPasses, WatchedSeen};
use odb_tree::Database;
use odb_watch::WatchEntry;
use ring_buffer::RingBuffer;
use transition_lock::{EnginePass, EnginePasses};
use turn_lock::{Machine, Pass, Passes};

/// The main thread's caller number.
const MAIN: u32 = 0;

/// The passes of a session's objects that are not with those that call by them. The main thread keeps them, and gets the
/// others back as the session ends.
#[derive(Drop)]
pub struct SessionPasses<D: Database>
where
    LockedDatabase<D>: Machine<State = WatchedSeen, Entry = WatchEntry>,
{
    /// The passes of each buffer, at the buffer's number.
    pub buffers: Vec<BufferPasses<RingBuffer>>,
    pub engine: EnginePasses,
    pub database: OdbPasses<D>,
}

/// The pass of the main thread, taken out of those with which a lock was made.
pub fn take_main<M: Machine>(passes: &mut Passes<M>) -> Pass<M>
    requires { Contains (numbers_of passes.old) main_caller }
    ensures number { number_of result ≡ main_caller }
    ensures own { (lock : _) → ArePassesOf lock passes.old → IsOf lock result }
    ensures fresh { AreFresh passes.old → IsFresh result }
    ensures left { (lock : _) → ArePassesOf lock passes.old → AreFresh passes.old →
        numbers_of passes.old ≡ numbers_below (passes_of lock) →
        KeepsFresh (main_caller ∷ []) lock passes.new }
{
    passes.take(MAIN)
}

/// Takes the pass with this number out, which made no call.
pub(crate) fn take_fresh<M: Machine>(passes: &mut Passes<M>, number: u32) -> Pass<M>
    requires { Contains (numbers_of passes.old) number }
    ensures { TakesFresh number passes.old result passes.new }
{
    passes.take(number)
}

/// Puts a pass back to the others.
fn put_back<M: Machine>(passes: &mut Passes<M>, pass: Pass<M>)
    requires { length (items_of passes.old) < room_of passes.old }
    ensures { PutsBack passes.old pass passes.new }
{
    passes.push(pass);
}

impl<D: Database> SessionPasses<D> {
    /// Takes the pass of this caller out of those of this buffer.
    pub(crate) fn take_of_buffer(&mut self, buffer: usize, caller: u32) -> BufferPass<RingBuffer>
        requires within { buffer < length self.old.buffers.items }
        requires there { (roster : _) → slice_get self.old.buffers.items buffer ≡ Some roster →
            Contains (numbers_of roster) caller }
        ensures taken { ChangesAt (λ before after. TakesFresh caller before result after) buffer
            self.old.buffers.items self.new.buffers.items }
        ensures engine { self.new.engine ≡ self.old.engine }
        ensures database { self.new.database ≡ self.old.database }
    {
        take_fresh(&mut self.buffers[buffer], caller)
    }

    /// Puts a pass back to those of this buffer.
    pub(crate) fn put_to_buffer(&mut self, buffer: usize, pass: BufferPass<RingBuffer>)
        requires within { buffer < length self.old.buffers.items }
        requires room { (roster : _) → slice_get self.old.buffers.items buffer ≡ Some roster →
            length (items_of roster) < room_of roster }
        ensures put { ChangesAt (λ before after. PutsBack before pass after) buffer
            self.old.buffers.items self.new.buffers.items }
        ensures engine { self.new.engine ≡ self.old.engine }
        ensures database { self.new.database ≡ self.old.database }
    {
        put_back(&mut self.buffers[buffer], pass);
    }

    /// Puts a pass back to those of the engine.
    pub(crate) fn put_to_engine(&mut self, pass: EnginePass)
        requires { length (items_of self.old.engine) < room_of self.old.engine }
        ensures put { PutsBack self.old.engine pass self.new.engine }
        ensures buffers { self.new.buffers ≡ self.old.buffers }
        ensures database { self.new.database ≡ self.old.database }
    {
        put_back(&mut self.engine, pass);
    }

    /// Puts a pass back to those of the database.
    pub(crate) fn put_to_database(&mut self, pass: OdbPass<D>)
        requires { length (items_of self.old.database) < room_of self.old.database }
        ensures put { PutsBack self.old.database pass self.new.database }
        ensures buffers { self.new.buffers ≡ self.old.buffers }
        ensures engine { self.new.engine ≡ self.old.engine }
    {
        put_back(&mut self.database, pass);
    }
}
