//! Messages that are to be carried.

use std::alloc::{AllocFailed, Global};
use std::collections::BTreeSet;

/// What one node sent to another under a number. The order is that in which messages are carried where a line doesn't
/// name them: by receiver, and then by sender.
#[derive(Clone, Copy, PartialEq, Eq, PartialOrd, Ord)]
pub struct Delivery {
    pub to: u32,
    pub from: u32,
    pub number: u64,
}

/// The next messages of the links of a cluster, but for those that were refused.
#[derive(Drop)]
pub struct Waiting {
    next: BTreeSet<Delivery>,
    refused: BTreeSet<Delivery>,
}

impl Waiting {
    pub fn new(alloc: Global) -> Self {
        Waiting {
            next: BTreeSet::new(alloc),
            refused: BTreeSet::new(alloc),
        }
    }

    /// Notes that a message is the next one of its link.
    pub fn add(&mut self, delivery: Delivery) -> Result<(), AllocFailed<Delivery>> {
        if !self.refused.contains(&delivery) {
            self.next.insert(delivery)?;
        }
        Ok(())
    }

    /// Takes the first one out.
    pub fn take_first(&mut self) -> Option<Delivery> {
        self.next.pop_first()
    }

    /// Leaves a message out from now on. It stays the next one of its link, since it wasn't heard.
    pub fn refuse(&mut self, delivery: Delivery) -> Result<(), AllocFailed<Delivery>> {
        self.refused.insert(delivery)?;
        Ok(())
    }
}
