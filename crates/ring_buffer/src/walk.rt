use crate::slot::Front;

/// A place, and the offset of the event there.
#[derive(Clone, Copy)]
pub struct Position {
    pub off: u64,
    pub place: u64,
}

/// A client that has yet to get the event of a place.
#[derive(Clone, Copy)]
pub struct Owed {
    pub client: u32,
    pub place: u64,
}

/// A kept event that was found.
#[derive(Clone, Copy)]
pub struct Found {
    pub front: Front,
    pub at: Position,
}
