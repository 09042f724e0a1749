//! Flags by which threads tell each other what they do. A thread stops looking for another after a limit, so a wrong
//! lock fails a test and doesn't hang it.
use std::sync::atomic::{AtomicU64, Ordering};
use std::thread::yield_now;

/// How often a thread looks for another thread. All looks together take two seconds of a processor.
const LOOKS: u32 = 10_000_000;

/// Three flags, none of them raised.
#[derive(Drop)]
pub struct Flags {
    pub first: AtomicU64,
    pub second: AtomicU64,
    pub third: AtomicU64,
}

impl Flags {
    pub fn new() -> Flags {
        Flags {
            first: AtomicU64::new(0),
            second: AtomicU64::new(0),
            third: AtomicU64::new(0),
        }
    }
}

/// Raises a flag by one.
pub fn raise(flag: &AtomicU64) {
    flag.fetch_add(1, Ordering::SeqCst);
}

/// Returns how often a flag was raised.
pub fn height(flag: &AtomicU64) -> u64 {
    flag.load(Ordering::SeqCst)
}

/// Returns whether a flag is raised before the last look.
pub fn sees(flag: &AtomicU64) -> bool {
    for _ in 0..LOOKS {
        if height(flag) > 0 {
            return true;
        }
        yield_now();
    }
    false
}
