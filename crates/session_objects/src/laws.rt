//! What holds of the members of a session. Each function does nothing, and its contract is the law.
ghost use Rattle.std.specs.Prelude.{◌<◌, length};
ghost use Rattle.turn_lock.specs.Passes.{passes_of};
ghost use Rattle.odb_lock.specs.SharedOdbs.{odb_lock_of};
ghost use Rattle.session_setup.specs.Setup.{declared_by, AreSound};
ghost use Rattle.session_objects.specs.Objects.{AreObjectsOf, SuitMembers};
ghost use Rattle.session_objects.specs.Members.{members_told, KeepsMembers};

use crate::objects::SessionObjects;
use crate::seats::SessionMember;
use daq_io::Files;
use odb_lock::SharedOdb;
use odb_tree::Database;
use session_setup::DeclaredLists;

/// The members that were declared can be had for the objects that opened for the same declarations, and a database that has
/// as many passes.
pub fn members_suit<D: Database>(
    _lists: &DeclaredLists,
    _objects: &SessionObjects,
    _database: &SharedOdb<D>,
)
    requires sound { AreSound (declared_by _lists.now) }
    requires objects { AreObjectsOf _lists.now _objects.now }
    requires callers { length _lists.now.fronts < passes_of (odb_lock_of _database.now) }
    ensures { SuitMembers _lists.now _objects.now _database.now }
{}

/// The members of a session stay those of its declarations and objects, as long as each stays the same one; and one of them is the
/// logger, with the channels that were declared.
pub fn members_stay<'a, D: Database, F: Files>(_members: &[SessionMember<'a, D, F>])
    ensures { KeepsMembers D (members_told F.told) }
{}
