//! What tells locks apart. The function does nothing, and its contract is the law.
ghost use Rattle.turn_lock.specs.Passes.{IsOf, IsSameLock};

use crate::lock::Pass;
use crate::object::Machine;

/// A pass of a lock is one of each lock that is the same: so who does not know to which lock a port leads, but that it
/// is the same as before, knows whose pass comes back from it.
pub fn same_lock<M: Machine>(pass: &Pass<M>)
    ensures { (one other : _) → IsOf one pass.now → IsSameLock M.state one other
        → IsOf other pass.now }
{}
