// A watched database as the counting lock sees it.
use odb_tree::Database;
use odb_watch::{WatchEntry, Watches};
use std::marker::Model;
use turn_lock::Machine;

/// A watched database under the lock. Its data are the rows and the watches, and its entries the calls with their
/// replies.
#[derive(Drop)]
pub struct LockedDatabase<D: Database> {
    pub database: Watches<D>,
}

/// The rows and the watches of a database, for contracts alone: no value of this type is made.
pub struct WatchedSeen {
    nothing: (),
}

impl Model for WatchedSeen {
    ghost use Rattle.odb_tree.specs.Rows.{no_rows};
    ghost use Rattle.odb_tree.specs.Noting.{Watched};
    ghost use Rattle.odb_watch.specs.Steps.{unwatched};

    ghost Value = { Watched };

    ghost view = { λ _. unwatched no_rows };
}

impl<D: Database> Machine for LockedDatabase<D> {
    type State = WatchedSeen;

    type Entry = WatchEntry;

    ghost use Rattle.odb_watch.specs.Steps.{StepsDatabase};

    ghost state = { λ locked. locked.database };

    ghost step = { StepsDatabase };

    fn known(&self) {}
}
