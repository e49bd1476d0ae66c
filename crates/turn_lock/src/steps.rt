// What each kind of step tells its caller. These types are for the proofs alone.
ghost use Rattle.std.specs.Prelude.{Option, None};
ghost use Rattle.turn_lock.specs.Views.{takes_turn, counts, frees, looks, giver_view, given_view, note_view, joined_view, spent_view};

use crate::object::Machine;
use crate::rule::View;
use atomic_table::{Join, Play, Split};
use std::marker::{Brand, PhantomData};

/// The compare and exchange of the turn from free to the pass's number.
pub(crate) struct TakesFreeTurn<M> {
    machine: PhantomData<M>,
}

impl<M: Machine> Play<Option<Box<M>>, View<M::State, M::Entry>> for TakesFreeTurn<M> {
    ghost then = { takes_turn (λ boxed. M.state boxed.value) };
}

// What a count step appends, and the data that will be laid back, for the proof alone. A call at `Brand` picks them.
pub(crate) trait Says<D, E> {
    ghost entry: { Option E };

    ghost after: { Option D };
}

impl<D, E> Says<D, E> for Brand {
    ghost entry = { None };

    ghost after = { None };
}

/// The one `fetch_add` on the count.
pub(crate) struct Counts<M, W> {
    machine: PhantomData<(M, W)>,
}

impl<M: Machine, W: Says<M::State, M::Entry>> Play<Option<Box<M>>, View<M::State, M::Entry>>
    for Counts<M, W> {
    ghost then = { counts M.step W.entry W.after };
}

/// The swap that frees the turn.
pub(crate) struct Frees;

impl<S, D, E> Play<Option<S>, View<D, E>> for Frees {
    ghost then = { frees };
}

/// A load of the count.
pub(crate) struct Looks;

impl<S, D, E> Play<Option<S>, View<D, E>> for Looks {
    ghost then = { looks };
}

/// A pass is split from number 0.
pub(crate) struct SplitsPass;

impl<D, E> Split<View<D, E>> for SplitsPass {
    ghost left = { giver_view };

    ghost right = { given_view };
}

/// A note is split from a pass.
pub(crate) struct SplitsNote;

impl<D, E> Split<View<D, E>> for SplitsNote {
    ghost left = { λ v. v };

    ghost right = { note_view };
}

/// A pass or a note is joined into a pass.
pub(crate) struct Joins;

impl<D, E> Join<View<D, E>> for Joins {
    ghost both = { joined_view };

    ghost spent = { spent_view };
}
