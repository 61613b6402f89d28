//! Hooks that hold a sync, and count all.

use cc_intake::Hooks;
use std::sync::atomic::{AtomicU64, Ordering};
use std::thread;

// For how many turns of a thread something is held at most.
const TURNS: u64 = 20_000_000;

/// Holds the first sync that begins after an accept began, until a second accept was answered. The second accept is held
/// until that sync began. It notes a wait that was too long, and counts the syncs that were made.
#[derive(Drop)]
pub(crate) struct Hold {
    begun: AtomicU64,
    answered: AtomicU64,
    held: AtomicU64,
    late: AtomicU64,
    synced: AtomicU64,
}

impl Hold {
    pub(crate) fn new() -> Hold {
        Hold {
            begun: AtomicU64::new(0),
            answered: AtomicU64::new(0),
            held: AtomicU64::new(0),
            late: AtomicU64::new(0),
            synced: AtomicU64::new(0),
        }
    }

    /// Whether a sync was held, and nothing for too long.
    pub(crate) fn has_held(&self) -> bool {
        self.held.load(Ordering::SeqCst) > 0 && self.late.load(Ordering::SeqCst) == 0
    }

    /// How many syncs were made.
    pub(crate) fn syncs(&self) -> u64 {
        self.synced.load(Ordering::SeqCst)
    }

    // Waits for a count, and notes it where that takes too long.
    fn await_count(&self, count: &AtomicU64, least: u64) {
        for _ in 0..TURNS {
            if count.load(Ordering::SeqCst) >= least {
                return;
            }
            thread::yield_now();
        }
        self.late.store(1, Ordering::SeqCst);
    }
}

impl Hooks for Hold {
    fn before_accept(&self) {
        if self.begun.fetch_add(1, Ordering::SeqCst) == 1 {
            self.await_count(&self.held, 1);
        }
    }

    fn after_accept(&self) {
        self.answered.fetch_add(1, Ordering::SeqCst);
    }

    fn before_sync(&self) {
        if self.begun.load(Ordering::SeqCst) == 0 {
            return;
        }
        if self.held.fetch_add(1, Ordering::SeqCst) == 0 {
            self.await_count(&self.answered, 2);
        }
    }

    fn after_sync(&self) {
        self.synced.fetch_add(1, Ordering::SeqCst);
    }
}
