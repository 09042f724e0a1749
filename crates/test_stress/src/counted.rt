//! Values that count how often they are made and dropped.

use std::alloc::{AllocError, Global};
use std::sync::Arc;
use std::sync::atomic::{AtomicU64, Ordering};

/// How many values were made, and how many were dropped.
#[derive(Drop)]
pub struct Counts {
    made: AtomicU64,
    dropped: AtomicU64,
}

impl Counts {
    /// Returns counts of 0, or an error if memory is refused.
    pub(crate) fn new(alloc: Global) -> Result<Arc<Counts>, AllocError> {
        let counts = Counts {
            made: AtomicU64::new(0),
            dropped: AtomicU64::new(0),
        };
        Ok(Arc::new(alloc, counts)?)
    }

    /// Returns whether as many values were dropped as were made.
    pub(crate) fn are_equal(&self) -> bool {
        self.made.load(Ordering::SeqCst) == self.dropped.load(Ordering::SeqCst)
    }
}

/// A value whose drop is counted.
pub struct Counted {
    counts: Option<Arc<Counts>>,
}

impl Counted {
    /// Returns a new value, and counts it. The value isn't counted if `counts` has as many owners as can be.
    pub(crate) fn new(counts: &Arc<Counts>) -> Counted {
        match counts.clone() {
            Ok(owner) => {
                owner.made.fetch_add(1, Ordering::SeqCst);
                Counted {
                    counts: Some(owner),
                }
            }
            Err(_) => Counted { counts: None },
        }
    }
}

impl Drop for Counted {
    fn drop(self) {
        let Counted { counts } = self;
        if let Some(counts) = counts {
            counts.dropped.fetch_add(1, Ordering::SeqCst);
        }
    }
}
