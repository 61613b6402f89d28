//! What a node and a peer have of each other's posts.

use std::sync::atomic::{AtomicU64, Ordering};

/// Up to which number a node has posted to a peer, and up to which it has taken in what the peer posted, both as the disk has it.
/// They only rise.
#[derive(Drop)]
pub struct Marks {
    // One more than the last number that was put for the peer. 0 where the node's state wasn't looked at yet.
    after_posted: AtomicU64,
    heard: AtomicU64,
}

impl Marks {
    /// The node's state wasn't looked at yet.
    pub fn new() -> Self {
        Marks {
            after_posted: AtomicU64::new(0),
            heard: AtomicU64::new(0),
        }
    }

    /// The node's state has these numbers.
    pub fn learn(&self, posted: u64, heard: u64) {
        self.after_posted
            .fetch_max(posted.saturating_add(1), Ordering::SeqCst);
        self.heard.fetch_max(heard, Ordering::SeqCst);
    }

    /// A post is put for the peer under that number, which may be one that was put before.
    pub fn post(&self, number: u64) {
        if self.after_posted.load(Ordering::SeqCst) > 0 {
            self.after_posted
                .fetch_max(number.saturating_add(1), Ordering::SeqCst);
        }
    }

    /// What the peer posted is taken in up to that number.
    pub fn hear(&self, number: u64) {
        self.heard.fetch_max(number, Ordering::SeqCst);
    }

    /// The last number that was put for the peer. The greatest number where that isn't known.
    pub fn posted(&self) -> u64 {
        self.after_posted.load(Ordering::SeqCst).wrapping_sub(1)
    }

    /// The last number of the peer's posts that is taken in.
    pub fn heard(&self) -> u64 {
        self.heard.load(Ordering::SeqCst)
    }
}
