//! How workers wake the flusher.

use cc_connections::Flag;
use crossbeam_utils::sync::Unparker;
use std::sync::atomic::{AtomicU64, Ordering};

// How many events may wait for the next turn before the flusher is woken: a batch.
const MOST_DEFERRED: u64 = 64;

/// Wakes the flusher.
#[derive(Drop)]
pub struct Waker {
    unparker: Unparker,
    // How many events were accepted since the flusher looked last, and didn't wake it.
    deferred: AtomicU64,
    // A peer was connected to since the flusher looked last.
    has_connected: Flag,
}

impl Waker {
    pub fn new(unparker: Unparker) -> Self {
        Waker {
            unparker,
            deferred: AtomicU64::new(0),
            has_connected: Flag::new(),
        }
    }

    /// Wakes the flusher, which looks once more even where it doesn't sleep.
    pub fn wake(&self) {
        self.unparker.unpark();
    }

    /// An event was accepted that makes no post and no answer: it wakes the flusher where it fills a batch.
    pub fn defer(&self) {
        let before = self.deferred.fetch_add(1, Ordering::SeqCst);
        if before.saturating_add(1) >= MOST_DEFERRED {
            self.wake();
        }
    }

    /// A peer was connected to: it wakes the flusher, which sends it again what it hasn't acknowledged.
    pub fn connect(&self) {
        self.has_connected.set();
        self.wake();
    }

    /// Whether a peer was connected to since the last call.
    pub fn take_connected(&self) -> bool {
        self.has_connected.take()
    }

    /// The flusher looks.
    pub fn look(&self) {
        self.deferred.store(0, Ordering::SeqCst);
    }
}
