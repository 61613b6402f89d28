//! Which wishes of workers the flusher has granted.

use std::sync::atomic::{AtomicU64, Ordering};

/// Counts the wishes that were made, and up to which of them all were granted.
#[derive(Drop)]
pub struct Grants {
    made: AtomicU64,
    granted: AtomicU64,
}

impl Grants {
    /// No wish was made.
    pub fn new() -> Self {
        Grants {
            made: AtomicU64::new(0),
            granted: AtomicU64::new(0),
        }
    }

    /// One more wish was made.
    pub fn make(&self) {
        self.made.fetch_add(1, Ordering::SeqCst);
    }

    /// How many wishes were made.
    pub fn made(&self) -> u64 {
        self.made.load(Ordering::SeqCst)
    }

    /// All of the first so many wishes were granted. Whether some of them weren't before.
    pub fn grant(&self, made: u64) -> bool {
        self.granted.swap(made, Ordering::SeqCst) < made
    }

    /// Whether all of the first so many wishes were granted.
    pub fn has(&self, made: u64) -> bool {
        self.granted.load(Ordering::SeqCst) >= made
    }
}
