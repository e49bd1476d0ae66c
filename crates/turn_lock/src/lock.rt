// The lock, its passes, and what they do.
ghost use Rattle.std.specs.Prelude.{◌≡◌, ◌+◌, ◌<◌, ◌≤◌, ◌⊎◌, ◌++◌, ◌∷◌, [], Some, None, true, IfOk, IfErr, OnOk, IfSome, IfNone};
ghost use Rattle.turn_lock.specs.Views.{carried};

use crate::object::{Machine, MadeCall};
use crate::rule::{LockKey, LockRule, View};
use crate::steps::{Counts, Frees, Joins, Looks, Says, SplitsNote, TakesFreeTurn};
use atomic_table::{Seat, Table};
use std::alloc::Global;
use std::hint::spin_loop;
use std::marker::Brand;
use std::sync::Wait;
use std::thread::yield_now;

/// The word with the number of the pass that holds the turn, or `FREE`.
const TURN: usize = 0;

/// The word that counts the entries, modulo 2^64.
const COUNT: usize = 1;

/// The slot with the value.
const VALUE: usize = 0;

/// No pass has this number.
pub(crate) const FREE: u64 = 256;

/// How often a pass looks whether the turn is free before it gives the processor away.
const TRIES: u32 = 64;

/// A lock round a value of type `M`, at which its passes take turns.
#[derive(Drop)]
pub struct Turns<M: Machine> {
    pub(crate) table: Table<
        Option<Box<M>>,
        View<M::State, M::Entry>,
        LockKey<M>,
        LockRule<M>,
        Global,
    >,
    pub(crate) count: u32,
    ghost some: { 0 < count },
    ghost few: { count ≤ 256 },
    ghost told: { table.shared.key.passes ≡ count },
    ghost two_words: { table.shared.table_id.words ≡ 2 },
    ghost one_slot: { table.shared.table_id.slots ≡ 1 },
}

/// One caller's place at one lock, with its number. It has no bytes but these numbers.
#[derive(Drop)]
pub struct Pass<M: Machine> {
    pub(crate) number: u32,
    pub(crate) count: u32,
    pub(crate) seat: Seat<Option<Box<M>>, View<M::State, M::Entry>>,
    ghost in_range: { number < count },
    ghost is: { seat.me.0.number ≡ Some number },
    ghost carries: { seat.me.1 ≡ carried seat.me.0.kept },
    ghost next: { number ≡ 0 → seat.me.0.next ≡ count },
}

/// What a pass had seen of the history when the note was made.
#[derive(Drop)]
pub struct Note<M: Machine> {
    pub(crate) seat: Seat<Option<Box<M>>, View<M::State, M::Entry>>,
    ghost bare: { seat.me.1 ≡ [] },
    ghost unnumbered: { seat.me.0.number ≡ None },
    ghost idle: { seat.me.0.kept ≡ None },
    ghost fresh: { seat.me.0.found ≡ [] },
}

/// The value, while a pass holds the turn. It has to be put back: it cannot be dropped, nor taken apart outside. The value
/// stays where it is on the heap, so a turn moves a pointer, however large the value is.
pub struct Held<M> {
    pub value: Box<M>,
    owed: Owed,
}

/// That a value is to be put back.
struct Owed;

/// The turn was another pass's.
#[derive(Clone, Copy, Debug, PartialEq, Eq)]
pub struct Taken {
    pub holder: u32,
}

impl<M: Machine> Pass<M> {
    ghost use Rattle.turn_lock.specs.Passes.{number_of};

    /// The number under which the pass's entries stand in the history.
    pub fn number(&self) -> u32
        ensures { result ≡ number_of self.now }
    {
        self.number
    }
}

impl<M: Machine> Turns<M> {
    ghost use mathlib.Core.List.{IsPrefix};
    ghost use Rattle.turn_lock.specs.History.{Leads, EndsInStep, Appends};
    ghost use Rattle.turn_lock.specs.Views.{longer, pair_of};
    ghost use Rattle.turn_lock.specs.Passes.{first_value, number_of, seen_by, own_entries, found_by, held_by, noted, IsOf, IsNoteOf, IsUnchanged};
    ghost use Rattle.turn_lock.specs.Entered.{Enters, FindsTaken};

    /// Takes the turn if it is free, in one try.
    pub fn try_take(&self, pass: &mut Pass<M>) -> Result<Held<M>, Taken>
        requires own { IsOf self.now pass.old }
        requires idle { held_by pass.old ≡ None }

        ensures own { IsOf self.now pass.new }
        ensures number { number_of pass.new ≡ number_of pass.old }
        ensures seen { seen_by pass.new ≡ seen_by pass.old }
        ensures held { IfOk result (λ held. held_by pass.new ≡ Some (M.state held.value.value)) }
        ensures found { OnOk result (found_by pass.new ≡ found_by pass.old) }

        ensures taken { IfErr result (λ taken. FindsTaken self.now taken.holder
            pass.old pass.new) }
    {
        let number = u64::from(pass.number);
        let found = self
            .table
            .shared
            .compare_exchange::<TakesFreeTurn<M>>(&mut pass.seat, TURN, FREE, number);
        if found == FREE {
            let value = self
                .table
                .shared
                .exchange(&mut pass.seat, VALUE, None)
                .unwrap();
            Ok(Held { value, owed: Owed })
        } else {
            Err(Taken {
                holder: found as u32,
            })
        }
    }

    /// Looks some times in a row whether the turn is free, and tries for it then, without giving the processor away.
    fn spin(&self, pass: &mut Pass<M>) -> Option<Held<M>>
        requires own { IsOf self.now pass.old }
        requires idle { held_by pass.old ≡ None }

        ensures own { IsOf self.now pass.new }
        ensures number { number_of pass.new ≡ number_of pass.old }
        ensures seen { seen_by pass.new ≡ seen_by pass.old }
        ensures found { IsPrefix (found_by pass.old) (found_by pass.new) }
        ensures held { IfSome result (λ held. held_by pass.new ≡ Some (M.state held.value.value)) }
        ensures idle { IfNone result (held_by pass.new ≡ None) }
    {
        for _ in 0..TRIES {
            // A look does not take the words from the processor of who holds the turn, as a compare and exchange does.
            if self.table.shared.peek(TURN) == FREE {
                if let Ok(held) = self.try_take(pass) {
                    return Some(held);
                }
            }
            spin_loop();
        }
        None
    }

    /// Takes the turn. It tries, looks some times, then gives the processor away and looks again, until the turn is free.
    pub fn take<R: Wait>(&self, rt: &R, pass: &mut Pass<M>) -> Held<M>
        requires own { IsOf self.now pass.old }
        requires idle { held_by pass.old ≡ None }

        ensures own { IsOf self.now pass.new }
        ensures number { number_of pass.new ≡ number_of pass.old }
        ensures seen { seen_by pass.new ≡ seen_by pass.old }
        ensures held { held_by pass.new ≡ Some (M.state result.value.value) }
        ensures found { IsPrefix (found_by pass.old) (found_by pass.new) }
    {
        match self.try_take(pass) {
            Ok(held) => held,
            Err(_) => self.take_when_free(rt, pass),
        }
    }

    /// Takes the turn, which another pass had a moment ago.
    #[cold]
    #[inline(never)]
    fn take_when_free<R: Wait>(&self, rt: &R, pass: &mut Pass<M>) -> Held<M>
        requires own { IsOf self.now pass.old }
        requires idle { held_by pass.old ≡ None }

        ensures own { IsOf self.now pass.new }
        ensures number { number_of pass.new ≡ number_of pass.old }
        ensures seen { seen_by pass.new ≡ seen_by pass.old }
        ensures held { held_by pass.new ≡ Some (M.state result.value.value) }
        ensures found { IsPrefix (found_by pass.old) (found_by pass.new) }
    {
        for _ in rt.forever() {
            if let Some(held) = self.spin(pass) {
                return held;
            }
            yield_now();
        }
        unreachable!()
    }

    /// The one step that appends an entry, as `call` names it. The turn is still held, and `value` is to be laid back.
    fn count<W: Says<M::State, M::Entry>, C: MadeCall<M>>(
        &self,
        pass: &mut Pass<M>,
        value: &M,
        call: &C,
    )
        requires own { IsOf self.now pass.old }
        requires said { (W.entry ≡ Some (C.entry call.now)) × (W.after ≡ Some (M.state value.now)) }
        requires step { (before : _) × (held_by pass.old ≡ Some before)
            × M.step before (number_of pass.old) (C.entry call.now) (M.state value.now) }

        ensures own { IsOf self.now pass.new }
        ensures number { number_of pass.new ≡ number_of pass.old }
        ensures held { held_by pass.new ≡ Some (M.state value.now) }
        ensures counted { pass.new.seat.me.0.counted ≡ true }
        ensures found { found_by pass.new ≡ found_by pass.old }
        ensures appends { Appends (number_of pass.old) (C.entry call.now) (seen_by pass.old)
            (seen_by pass.new) }
        ensures led { (before : _) × (held_by pass.old ≡ Some before)
            × EndsInStep M.step (M.state (first_value self.now)) before (number_of pass.old)
            (C.entry call.now) (M.state value.now) (seen_by pass.new) }
        ensures legal { Leads M.step (M.state (first_value self.now)) (seen_by pass.new)
            (M.state value.now) }
    {
        self.table
            .shared
            .fetch_add::<Counts<M, W>>(&mut pass.seat, COUNT, 1);
    }

    /// Counts the entry that `call` stands for, lays the value back and frees the turn.
    fn lay_back<C: MadeCall<M>>(&self, pass: &mut Pass<M>, held: Held<M>, call: &C)
        requires own { IsOf self.now pass.old }
        requires step { (before : _) × (held_by pass.old ≡ Some before)
            × M.step before (number_of pass.old) (C.entry call.now) (M.state held.value.value) }

        ensures own { IsOf self.now pass.new }
        ensures number { number_of pass.new ≡ number_of pass.old }
        ensures idle { held_by pass.new ≡ None }
        ensures found { found_by pass.new ≡ found_by pass.old }
        ensures appends { Appends (number_of pass.old) (C.entry call.now) (seen_by pass.old)
            (seen_by pass.new) }
        ensures mine { own_entries pass.new ≡ own_entries pass.old ++ C.entry call.now ∷ [] }
        ensures led { (before : _) × (held_by pass.old ≡ Some before)
            × EndsInStep M.step (M.state (first_value self.now)) before (number_of pass.old)
            (C.entry call.now) (M.state held.value.value) (seen_by pass.new) }
        ensures legal { Leads M.step (M.state (first_value self.now)) (seen_by pass.new)
            (M.state held.value.value) }
    {
        let Held { value, owed: Owed } = held;
        self.count::<Brand, C>(pass, value.as_ref(), call);
        let empty = self
            .table
            .shared
            .exchange(&mut pass.seat, VALUE, Some(value));
        let None = empty else { unreachable!() };
        self.table.shared.swap::<Frees>(&mut pass.seat, TURN, FREE);
    }

    /// Puts the value back and frees the turn. The entry that `call` stands for is appended to the history.
    pub fn put<C: MadeCall<M>>(&self, pass: &mut Pass<M>, held: Held<M>, call: &C)
        requires own { IsOf self.now pass.old }
        requires step { (before : _) × (held_by pass.old ≡ Some before)
            × M.step before (number_of pass.old) (C.entry call.now) (M.state held.value.value) }

        ensures entered { Enters self.now (C.entry call.now) pass.old pass.new }
        ensures found { found_by pass.new ≡ found_by pass.old }

        // All that came before it leads to what was held, and the entry leads from there to what is laid back.
        ensures led { (before : _) × (held_by pass.old ≡ Some before)
            × EndsInStep M.step (M.state (first_value self.now)) before (number_of pass.old)
            (C.entry call.now) (M.state held.value.value) (seen_by pass.new) }
        ensures legal { Leads M.step (M.state (first_value self.now)) (seen_by pass.new)
            (M.state held.value.value) }
    {
        self.lay_back(pass, held, call);
    }

    /// Copies what the pass has seen, so that another pass can meet it.
    pub fn note(&self, pass: &mut Pass<M>) -> Note<M>
        requires { IsOf self.now pass.old }

        ensures own { IsOf self.now pass.new }
        ensures unchanged { IsUnchanged pass.old pass.new }
        ensures note { IsNoteOf self.now result }
        ensures noted { noted result ≡ seen_by pass.old }
    {
        Note {
            seat: self.table.shared.split_seat::<SplitsNote>(&mut pass.seat),
        }
    }

    /// The pass has then seen what the note has seen too: the longer of the two lists, which begins with both.
    pub fn meet(&self, pass: &mut Pass<M>, note: Note<M>)
        requires own { IsOf self.now pass.old }
        requires note { IsNoteOf self.now note }

        ensures own { IsOf self.now pass.new }
        ensures number { number_of pass.new ≡ number_of pass.old }
        ensures found { found_by pass.new ≡ found_by pass.old }
        ensures held { held_by pass.new ≡ held_by pass.old }
        ensures seen { IsPrefix (seen_by pass.old) (seen_by pass.new) }
        ensures noted { IsPrefix (noted note) (seen_by pass.new) }
        ensures longer { seen_by pass.new ≡ longer (seen_by pass.old) (noted note) }
        ensures mine { own_entries pass.new ≡ own_entries pass.old }
    {
        self.join(pass, note.seat);
    }

    /// Joins a seat into the pass. Where the seat has a number, the pass is number 0 and keeps that number's entries.
    pub(crate) fn join(
        &self,
        pass: &mut Pass<M>,
        other: Seat<Option<Box<M>>, View<M::State, M::Entry>>,
    )
        requires own { IsOf self.now pass.old }
        requires table { other.table_id ≡ self.now.table.shared.table_id }
        requires idle { (other.me.0.kept ≡ None) × (other.me.1 ≡ []) }
        requires asked { (other.me.0.number ≡ None) ⊎ (number_of pass.old ≡ 0) }

        ensures own { IsOf self.now pass.new }
        ensures number { number_of pass.new ≡ number_of pass.old }
        ensures found { found_by pass.new ≡ found_by pass.old ++ other.me.0.found }
        ensures held { held_by pass.new ≡ held_by pass.old }
        ensures seen { IsPrefix (seen_by pass.old) (seen_by pass.new) }
        ensures met { IsPrefix other.me.0.seen (seen_by pass.new) }
        ensures longer { seen_by pass.new ≡ longer (seen_by pass.old) other.me.0.seen }
        ensures mine { own_entries pass.new ≡ own_entries pass.old }
        ensures pairs { pass.new.seat.me.0.pairs ≡ pass.old.seat.me.0.pairs ++ pair_of
            other.me.0.number other.me.0.seen }
    {
        self.table.shared.join_seat::<Joins>(&mut pass.seat, other);
        self.table.shared.load::<Looks>(&mut pass.seat, COUNT);
    }
}
