use std::sync::atomic::{AtomicUsize, Ordering};

/// No member has this number.
const NOBODY: usize = usize::MAX;

/// Where a member in its thread looks whether it is to come back at once. A member's number is written here only while no thread
/// has this member, so none in a thread reads its own.
#[derive(Drop)]
pub(crate) struct ReturnFlag {
    number: AtomicUsize,
}

impl ReturnFlag {
    /// Nobody is to come back.
    pub(crate) fn new() -> ReturnFlag {
        ReturnFlag {
            number: AtomicUsize::new(NOBODY),
        }
    }

    /// The member of this number is to come back.
    pub(crate) fn call(&self, number: usize) {
        self.number.store(number, Ordering::SeqCst);
    }

    /// Whether the member of this number is to come back.
    pub(crate) fn is_for(&self, number: usize) -> bool {
        self.number.load(Ordering::SeqCst) == number
    }
}
