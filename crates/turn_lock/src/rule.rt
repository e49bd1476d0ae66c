// What a seat at the lock's table knows, and the rule that holds between any two steps.
use crate::object::Machine;
use atomic_table::TableRule;
use std::collections::LinkedList;
use std::marker::PhantomData;
use std::snapshot::Snapshot;

/// What one seat knows. It exists in proofs alone: no value of it is made, and it takes no memory.
pub struct View<D, E> {
    /// The first data of the lock; none once the seat is spent.
    pub start: Option<D>,
    /// How many passes the lock has; none once the seat is spent.
    pub passes: Option<u64>,
    /// The number of the pass; a note and a spent seat have none.
    pub number: Option<u64>,
    /// Of number 0 alone: the next number that it gives.
    pub next: u64,
    /// While the seat holds the turn: the data of the value taken, and from the count step on those that will be laid back.
    pub kept: Option<D>,
    /// It has the turn, and has counted since it took it.
    pub counted: bool,
    /// A beginning of the history.
    pub seen: LinkedList<(u64, E)>,
    /// Further beginnings of the history, met by joining.
    pub met: LinkedList<LinkedList<(u64, E)>>,
    /// What was seen before the last join, where no count step came since.
    pub whole: Option<LinkedList<(u64, E)>>,
    /// What failed tries found: the number, each with the history as it was then.
    pub found: LinkedList<(u64, LinkedList<(u64, E)>)>,
    /// Of number 0 alone: the numbers of the passes joined into it, each with that pass's own entries.
    pub pairs: LinkedList<(u64, LinkedList<E>)>,
}

/// What the rule reads of the lock: the first value, and how many passes there are.
#[derive(Drop)]
pub struct LockKey<M> {
    pub first: Snapshot<M>,
    pub passes: u32,
}

/// The rule on the lock's table.
pub struct LockRule<M> {
    machine: PhantomData<M>,
}

impl<M: Machine> TableRule<Option<Box<M>>, View<M::State, M::Entry>, LockKey<M>> for LockRule<M> {
    ghost use Rattle.turn_lock.specs.Views.{first_view};
    ghost use Rattle.turn_lock.specs.Protocol.{IsLock};

    ghost holds = { λ key. IsLock (λ boxed. M.state boxed.value) M.step
        (M.state key.first.value) key.passes };

    ghost first = { λ key. first_view (M.state key.first.value) key.passes };
}
