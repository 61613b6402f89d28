//! Which nodes are taken that greet.

use cc_connections::{Hello, Reason};
use cc_policies::{Greeted, Greetings, Recipient};
use cc_views::{NoMemory, NodeId};
use std::alloc::Global;
use std::collections::BTreeMap;
use std::sync::{Mutex, OnceLock, Wait};

// Of how many nodes it is known at most what was noted.
const MOST_NOTED: usize = 256;

// What was noted of a node's greetings.
#[derive(Clone, Copy, PartialEq, Eq)]
enum Remark {
    // It isn't taken, for that reason.
    Refused(Reason),
    // Two processes greet in turn under its id.
    Doubled,
}

/// Which nodes are taken that greet, and which weren't.
#[derive(Drop)]
pub struct Reception {
    // What greetings are compared with. None before the folder was read: then nobody is taken.
    me: OnceLock<Recipient>,
    greetings: Mutex<Greetings>,
    // The nodes that have left, by their numbers, as far as the disk tells.
    left: Mutex<BTreeMap<u32, ()>>,
    // What was noted last of nodes, by their numbers.
    noted: Mutex<BTreeMap<u32, Remark>>,
}

impl Reception {
    /// Nobody has greeted. NoMemory where a growth was refused.
    pub fn new(alloc: Global) -> Result<Self, NoMemory> {
        let greetings = Greetings::new(alloc)?;
        Ok(Reception {
            me: OnceLock::new(),
            greetings: Mutex::new(greetings),
            left: Mutex::new(BTreeMap::new(alloc)),
            noted: Mutex::new(BTreeMap::new(alloc)),
        })
    }

    /// Greetings are compared with that from now on.
    pub fn begin(&self, me: Recipient) {
        let _ = self.me.try_set(me);
    }

    /// These nodes have left. One for which there is no memory is remembered at a later call.
    pub fn learn_left<R: Wait>(&self, rt: &R, nodes: &[NodeId]) {
        let mut left = self.left.lock(rt);
        if left.len() < nodes.len() {
            for node in nodes {
                drop(left.insert(node.number(), ()));
            }
        }
    }

    /// A node greets. None where the folder wasn't read yet.
    pub fn greet<R: Wait>(&self, rt: &R, hello: &Hello) -> Option<Greeted> {
        let me = self.me.get()?;
        let has_left = self.left.lock(rt).contains_key(&hello.from.number());
        Some(self.greetings.lock(rt).greet(me, hello, has_left))
    }

    /// A node wasn't taken for that reason. Whether it is to be noted: it wasn't noted since it was taken last.
    pub fn refuse<R: Wait>(&self, rt: &R, node: NodeId, reason: Reason) -> bool {
        self.is_news(rt, node, Remark::Refused(reason))
    }

    /// A node was taken, as whose id two processes greet in turn. Whether it is to be noted, as above.
    pub fn double<R: Wait>(&self, rt: &R, node: NodeId) -> bool {
        self.is_news(rt, node, Remark::Doubled)
    }

    // Whether that wasn't the last that was noted of a node. It is from now on.
    fn is_news<R: Wait>(&self, rt: &R, node: NodeId, remark: Remark) -> bool {
        let mut noted = self.noted.lock(rt);
        if noted.get(&node.number()) == Some(&remark) {
            return false;
        }
        if noted.len() >= MOST_NOTED {
            noted.clear();
        }
        drop(noted.insert(node.number(), remark));
        true
    }

    /// A node was taken, as whose id one process greets.
    pub fn take<R: Wait>(&self, rt: &R, node: NodeId) {
        drop(self.noted.lock(rt).remove(&node.number()));
    }
}
