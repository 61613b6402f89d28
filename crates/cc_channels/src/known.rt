//! The nodes that a node has heard of.

use cc_node::Core;
use cc_views::NodeId;
use std::alloc::Global;
use std::collections::BTreeMap;
use std::net::SocketAddr;
use std::sync::{Mutex, Wait};

// After so many seconds a node that is none of the peers yet is a stranger: its line in their file may be new.
const STRANGE_SECONDS: u64 = 5;

/// A node that was heard of, and isn't one of the peers.
#[derive(Clone, Copy)]
pub struct Stranger {
    pub node: NodeId,
    /// Where it was heard of from.
    pub from: SocketAddr,
    // From which second on it is one.
    due: u64,
}

/// The nodes that were heard of, by their numbers, and those that may be strangers.
#[derive(Drop)]
pub struct Known {
    numbers: Mutex<BTreeMap<u32, ()>>,
    strangers: Mutex<Vec<Stranger>>,
}

impl Known {
    /// None yet.
    pub fn new(alloc: Global) -> Self {
        Known {
            numbers: Mutex::new(BTreeMap::new(alloc)),
            strangers: Mutex::new(Vec::new(alloc)),
        }
    }

    /// A node was heard of. Whether it wasn't before.
    pub fn learn<R: Wait>(&self, rt: &R, node: NodeId) -> bool {
        let mut numbers = self.numbers.lock(rt);
        matches!(numbers.insert(node.number(), ()), Ok(None))
    }

    /// All nodes that were heard of.
    pub fn learn_all<R: Wait>(&self, rt: &R, nodes: &[NodeId]) {
        for node in nodes {
            self.learn(rt, *node);
        }
    }

    /// All nodes to which one has a link.
    pub fn learn_links<R: Wait>(&self, rt: &R, core: &Core) {
        for link in core.links().rows() {
            self.learn(rt, link.peer);
        }
    }

    /// At that second a node was heard of, for the first time, that isn't one of the peers. Where there is no memory nobody is told of
    /// it.
    pub fn suspect<R: Wait>(&self, rt: &R, node: NodeId, from: SocketAddr, second: u64) {
        let due = second.saturating_add(STRANGE_SECONDS);
        drop(self.strangers.lock(rt).push(Stranger { node, from, due }));
    }

    /// One that is a stranger by that second, if it still isn't one of the peers. Each is given once.
    pub fn next_stranger<R: Wait>(&self, rt: &R, second: u64) -> Option<Stranger> {
        let mut strangers = self.strangers.lock(rt);
        let first = strangers.first().copied()?;
        if first.due > second {
            return None;
        }
        drop(strangers.remove(0));
        Some(first)
    }
}
