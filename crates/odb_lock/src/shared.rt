// A database that threads share.
ghost use Rattle.std.specs.Prelude.{◌≡◌, ◌<◌, ◌≤◌, ℕ, [], None, length, All, IfOk, IfErr};
ghost use Rattle.daq_types.specs.Callers.{entries_by};
ghost use Rattle.odb_tree.specs.Databases.{IsDatabase};
ghost use Rattle.odb_watch.specs.Steps.{LeadsDatabase, IsLegalDatabase, unwatched};
ghost use Rattle.turn_lock.specs.Passes.{passes_of, number_of, seen_by, held_by, IsOf};
ghost use Rattle.turn_lock.specs.History.{IsPartOf, entries_below};
ghost use Rattle.turn_lock.specs.Closing.{AreComplete, IsLeastMissing, opened_with, history_of};
ghost use Rattle.turn_lock.specs.Roster.{items_of, numbers_of, numbers_below, ArePassesOf, AreIdle, AreFresh};
ghost use Rattle.turn_lock.specs.Entered.{Enters};

use crate::locked::LockedDatabase;
use daq_types::NoMemory;
use odb_tree::Database;
use odb_value::Path;
use odb_watch::Watches;
use std::alloc::Global;
use std::sync::Wait;
use turn_lock::{Call, Closed, MissingPass, Pass, Passes, Turns};

/// One caller's place at a shared database, with its number. Number 0 is the main thread's.
pub type OdbPass<D> = Pass<LockedDatabase<D>>;

/// Passes of one shared database.
pub type OdbPasses<D> = Passes<LockedDatabase<D>>;

/// A shared database that has ended: the database, and for contracts the whole history of its calls.
pub type OdbClosed<D> = Closed<LockedDatabase<D>>;

/// A watched database that threads share, each with a pass. A call takes the turn, waits for it where it must, makes the
/// call of that name of `Database`, `Watches` or `odb_text`, and appends the call with its reply to the one history. The
/// calls that may make, remove or resize a row are the main thread's.
#[derive(Drop)]
pub struct SharedOdb<D: Database> {
    turns: Turns<LockedDatabase<D>>,
}

impl<D: Database> SharedOdb<D> {
    ghost use Rattle.odb_lock.specs.SharedOdbs.{odb_lock_of, first_database};

    /// Shares the database, with no watch, among this many passes, 1 to 256, which are numbered from 0 on. The lock's
    /// memory is taken here, and by no other call. Where there is none the database is dropped.
    #[tactic(auto, using(crate::proofs::SharedLaws::opens_unwatched))]
    pub fn new(
        alloc: Global,
        database: D,
        passes: u32,
    ) -> Result<(SharedOdb<D>, OdbPasses<D>), NoMemory>
        requires some { 0 < passes }
        requires few { passes ≤ 256 }
        ensures first { IfOk result (λ made. first_database made.0 ≡ unwatched (D.rows database)) }
        ensures database { IfOk result (λ made. IsDatabase (first_database made.0).rows) }
        ensures count { IfOk result (λ made. passes_of (odb_lock_of made.0) ≡ passes) }
        ensures own { IfOk result (λ made. ArePassesOf (odb_lock_of made.0) made.1) }
        ensures numbers { IfOk result (λ made. numbers_of made.1 ≡ numbers_below passes) }
        ensures fresh { IfOk result (λ made. AreFresh made.1) }
    {
        // The look-up tells that the rows are those of a database.
        let _ = database.find(alloc, &Path::root(alloc));
        let database = Watches::new(alloc, database);
        let (turns, passes) = Turns::new(alloc, LockedDatabase { database }, passes)?;
        Ok((SharedOdb { turns }, passes))
    }

    /// Makes a call on the database in one turn, one of `calls`, and waits for the turn where it must.
    pub fn call<R: Wait, C: Call<LockedDatabase<D>>>(
        &self,
        rt: &R,
        pass: &mut OdbPass<D>,
        call: C,
        into: &mut C::Into,
    ) -> C::Reply
        requires own { IsOf (odb_lock_of self.now) pass.old }
        requires idle { held_by pass.old ≡ None }
        requires may { C.may call into.old (number_of pass.old) }
        ensures entered { Enters (odb_lock_of self.now) (C.entry call into.old result into.new)
            pass.old pass.new }
        ensures legal { IsLegalDatabase (first_database self.now) (seen_by pass.new) }
        ensures tells { (last : _) × C.tells call into.old result into.new last }
    {
        self.turns.call(rt, pass, call, into)
    }

    /// The lock, by which a pass can meet what another has seen.
    pub fn lock(&self) -> &Turns<LockedDatabase<D>>
        ensures { result.now ≡ odb_lock_of self.now }
    {
        &self.turns
    }

    /// Ends the sharing, for which all passes are given back. Where one is missing, all comes back.
    pub fn close(
        self,
        passes: OdbPasses<D>,
    ) -> Result<OdbClosed<D>, (MissingPass, SharedOdb<D>, OdbPasses<D>)>
        requires own { ArePassesOf (odb_lock_of self) passes }
        requires idle { AreIdle passes }

        // Each call in the history is legal at its point, from the database that was shared on, and they lead to the
        // database as it was left.
        ensures opened { IfOk result (λ closed. (opened_with closed).database
            ≡ first_database self) }
        ensures leads { IfOk result (λ closed. LeadsDatabase (opened_with closed).database
            (history_of closed) closed.value.database) }

        // What each pass has seen is a beginning of it, and the entries with a pass's number are its own.
        ensures parts { IfOk result (λ closed. All (λ pass. IsPartOf (history_of closed)
            (number_of pass) (seen_by pass)) (items_of passes)) }
        ensures known { IfOk result (λ closed. (n : ℕ) → passes_of (odb_lock_of self) ≤ n
            → entries_by n (history_of closed) ≡ []) }
        ensures length { IfOk result (λ closed. length (history_of closed)
            ≡ entries_below (passes_of (odb_lock_of self)) (history_of closed)) }

        ensures complete { IfOk result (λ closed. AreComplete (numbers_of passes)
            (passes_of (odb_lock_of self))) }
        ensures missing { IfErr result (λ refusal. IsLeastMissing (numbers_of passes)
            (passes_of (odb_lock_of self)) refusal.0.number) }
        ensures same { IfErr result (λ refusal. (refusal.1 ≡ self) × (refusal.2 ≡ passes)) }
    {
        let SharedOdb { turns } = self;
        match turns.close(passes) {
            Ok(closed) => Ok(closed),
            Err((missing, turns, passes)) => Err((missing, SharedOdb { turns }, passes)),
        }
    }
}
