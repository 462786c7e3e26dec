//! How many processors of a run have yet to decide.

use std::sync::atomic::{AtomicU64, Ordering};

/// How many processors have yet to decide, as their threads count it.
#[derive(Drop)]
pub(crate) struct Undecided {
    left: AtomicU64,
}

impl Undecided {
    /// All `n` processors.
    pub(crate) fn new(n: u64) -> Self {
        Undecided {
            left: AtomicU64::new(n),
        }
    }

    /// Counts that one processor more has decided. For each processor once.
    pub(crate) fn decide(&self) {
        self.left.fetch_sub(1, Ordering::SeqCst);
    }

    /// Whether all have decided.
    pub(crate) fn is_none(&self) -> bool {
        self.left.load(Ordering::SeqCst) == 0
    }
}
