//! How many there are of something at once.

use std::sync::atomic::{AtomicU64, Ordering};

/// Counts places, of which there are so many.
#[derive(Drop)]
pub struct Places {
    taken: AtomicU64,
    most: u64,
}

impl Places {
    /// Each is free.
    pub fn new(most: u64) -> Self {
        Places {
            taken: AtomicU64::new(0),
            most,
        }
    }

    /// Takes a place. Whether there was one.
    pub fn enter(&self) -> bool {
        let before = self.taken.fetch_add(1, Ordering::SeqCst);
        if before >= self.most {
            self.leave();
        }
        before < self.most
    }

    /// Gives a place back.
    pub fn leave(&self) {
        self.taken.fetch_sub(1, Ordering::SeqCst);
    }
}
