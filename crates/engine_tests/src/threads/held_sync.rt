//! Hooks that count accepts and syncs, and hold syncs.

use cc_intake::Hooks;
use std::sync::atomic::{AtomicU64, Ordering};
use std::thread;

/// For how many turns of a thread a sync is held at most.
pub(crate) const TURNS: u64 = 1_000_000;

// How long a short wait is at most.
const SHORT: u64 = 1000;

/// Which syncs are held.
#[derive(Clone, Copy, PartialEq, Eq)]
pub(crate) enum Holding {
    /// None of them.
    Nothing,
    /// The first one that begins after an accept began, until a second accept was answered. The second accept is held until
    /// that sync began.
    FirstSync,
    /// Each of them, until one more accept was answered, for a short while.
    EachSync,
}

/// Counts accepts and syncs, and holds syncs. It notes a wait that was too long, and that the engine has ended.
#[derive(Drop)]
pub(crate) struct Hold {
    holding: Holding,
    begun: AtomicU64,
    answered: AtomicU64,
    held: AtomicU64,
    pub(crate) syncs: AtomicU64,
    pub(crate) late: AtomicU64,
    pub(crate) ended: AtomicU64,
}

impl Hold {
    pub(crate) fn new(holding: Holding) -> Hold {
        Hold {
            holding,
            begun: AtomicU64::new(0),
            answered: AtomicU64::new(0),
            held: AtomicU64::new(0),
            syncs: AtomicU64::new(0),
            late: AtomicU64::new(0),
            ended: AtomicU64::new(0),
        }
    }

    // Waits for a count, and notes it where that takes too long.
    fn await_count(&self, count: &AtomicU64, least: u64) {
        if !comes(count, least, TURNS) {
            self.late.store(1, Ordering::SeqCst);
        }
    }
}

// Whether the count comes to that within so many turns.
fn comes(count: &AtomicU64, least: u64, turns: u64) -> bool {
    for _ in 0..turns {
        if count.load(Ordering::SeqCst) >= least {
            return true;
        }
        thread::yield_now();
    }
    false
}

impl Hooks for Hold {
    fn before_accept(&self) {
        let begun = self.begun.fetch_add(1, Ordering::SeqCst);
        if self.holding == Holding::FirstSync && begun == 1 {
            self.await_count(&self.held, 1);
        }
    }

    fn after_accept(&self) {
        self.answered.fetch_add(1, Ordering::SeqCst);
    }

    fn before_sync(&self) {
        self.syncs.fetch_add(1, Ordering::SeqCst);
        if self.begun.load(Ordering::SeqCst) == 0 {
            return;
        }
        let held = self.held.fetch_add(1, Ordering::SeqCst);
        match self.holding {
            Holding::Nothing => {}
            Holding::FirstSync => {
                if held == 0 {
                    self.await_count(&self.answered, 2);
                }
            }
            Holding::EachSync => {
                let answered = self.answered.load(Ordering::SeqCst);
                comes(&self.answered, answered.saturating_add(1), SHORT);
            }
        }
    }

    fn after_sync(&self) {}
}
