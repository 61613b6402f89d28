//! Flags that threads share.

use std::sync::atomic::{AtomicU64, Ordering};

/// A flag that threads share.
#[derive(Drop)]
pub struct Flag {
    word: AtomicU64,
}

impl Flag {
    /// A flag that isn't set.
    pub fn new() -> Self {
        Flag {
            word: AtomicU64::new(0),
        }
    }

    /// Sets it.
    pub fn set(&self) {
        self.word.store(1, Ordering::SeqCst);
    }

    /// Whether it is set.
    pub fn is_set(&self) -> bool {
        self.word.load(Ordering::SeqCst) != 0
    }

    /// Sets it back, and tells whether it was set.
    pub fn take(&self) -> bool {
        self.word.swap(0, Ordering::SeqCst) != 0
    }

    /// Sets it so.
    pub fn put(&self, is_set: bool) {
        self.word.store(u64::from(is_set), Ordering::SeqCst);
    }
}

/// By which a node is told to end.
#[derive(Drop)]
pub struct Stop {
    flag: Flag,
}

impl Stop {
    /// Nobody has told it yet.
    pub fn new() -> Self {
        Stop { flag: Flag::new() }
    }

    /// Tells it: a node ends within a second or two then.
    pub fn set(&self) {
        self.flag.set();
    }

    /// Whether it was told.
    pub fn is_set(&self) -> bool {
        self.flag.is_set()
    }
}
