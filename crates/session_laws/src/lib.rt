//! What follows once a session's objects are closed: from the one history of each object, each member's contract and the main
//! thread's own calls to the law of composition, and to what each run of the session holds; and what the blank reports of a
//! start's sheet suffice for; and, from the record of the objects and from the members' seats, what these laws ask for. Definitions in `specs/`, and the laws on them.
#![tactic(auto)]

pub mod blank_laws;
pub mod laws;
pub mod record_laws;
