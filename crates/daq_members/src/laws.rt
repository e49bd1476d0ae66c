//! What a front-end of a session keeps, as the session's law asks for it. The function does nothing, and its contract is
//! the law.
ghost use Rattle.daq_members.specs.FrontTaken.{FrontKeeps};

/// A front-end as a member has the front-end's contract over its own calls, with moments of its turns, and all its
/// calls on the database are the sets of its turns.
pub fn front_keeps()
    ensures { FrontKeeps }
{}
