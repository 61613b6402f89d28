//! What the flusher lays out for those who look.

use crate::live::{DiskShown, Live, PeerNote, Shown};
use cc_connections::Counted;
use std::alloc::Global;
use std::sync::{Arc, Mutex, Wait};

/// A node as it was at one moment, and what was known of it beside its state.
#[derive(Drop)]
pub struct Laid {
    pub shown: Shown,
    /// In milliseconds since 1970.
    pub now: u64,
    pub round_since: u64,
    pub disk: DiskShown,
    pub peers: Vec<PeerNote>,
    pub counted: Counted,
}

/// What was laid out last. Neither the flusher nor those who look wait for more than a pointer to be copied, and the flusher not
/// even for that.
#[derive(Drop)]
pub struct Board {
    version: String,
    // In milliseconds since 1970.
    started: u64,
    laid: Mutex<Option<Arc<Laid>>>,
}

impl Board {
    /// A board on which nothing is laid out yet.
    pub fn new(version: String, started: u64) -> Self {
        Board {
            version,
            started,
            laid: Mutex::new(None),
        }
    }

    /// Lays something out in place of what was there. Where somebody just looks, or memory is refused, what was there stays.
    pub fn lay(&self, alloc: Global, laid: Laid) {
        match Arc::new(alloc, laid) {
            Ok(laid) => self.replace(laid),
            Err(failed) => drop(failed),
        }
    }

    fn replace(&self, laid: Arc<Laid>) {
        match self.laid.try_lock() {
            Some(mut place) => drop(place.replace(laid)),
            None => drop(laid),
        }
    }

    /// What was laid out last.
    pub fn look<R: Wait>(&self, rt: &R) -> Option<Arc<Laid>> {
        let place = self.laid.lock(rt);
        match &*place {
            Some(laid) => Arc::try_clone(laid).ok(),
            None => None,
        }
    }

    /// What is known of the node beside its state.
    pub fn live<'a>(&'a self, laid: &'a Laid) -> Live<'a> {
        Live {
            version: &self.version,
            started: self.started,
            now: laid.now,
            round_since: laid.round_since,
            disk: laid.disk,
            peers: &laid.peers,
            counted: &laid.counted,
        }
    }
}
