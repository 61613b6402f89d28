//! Whom a worker hears of.

use crate::known::Known;
use crate::peer_channels::PeerChannels;
use cc_changes::Changes;
use cc_messages::Message;
use cc_views::NodeId;
use std::net::SocketAddr;
use std::sync::Wait;

/// Notes whom a worker hears of over its connection.
#[derive(Drop)]
pub struct HeardNodes<'a> {
    pub me: NodeId,
    pub channels: &'a PeerChannels,
    pub known: &'a Known,
    /// Where the connection comes from.
    pub address: SocketAddr,
    /// How many seconds have passed since the start.
    pub second: u64,
}

impl HeardNodes<'_> {
    /// A message of that node was accepted. A node that it is of or tells of, that isn't one of the peers and that none of
    /// them told of, may be a stranger.
    pub fn hear<R: Wait>(&self, rt: &R, from: NodeId, message: &Message) {
        self.hear_of(rt, from, from);
        if let Some(node) = subject_of(message) {
            self.hear_of(rt, from, node);
        }
        if let Some(changes) = told_by(message) {
            self.learn_of(rt, from, changes);
        }
    }

    // A peer tells who entered, joined and left.
    fn learn_of<R: Wait>(&self, rt: &R, from: NodeId, changes: &Changes) {
        if self.is_peer(from) {
            self.known.learn_all(rt, changes.entered());
            self.known.learn_all(rt, changes.joined());
            self.known.learn_all(rt, changes.left());
        }
    }

    fn hear_of<R: Wait>(&self, rt: &R, from: NodeId, node: NodeId) {
        if node == self.me || self.is_peer(node) || !self.known.learn(rt, node) {
            return;
        }
        if !self.is_peer(from) {
            self.known.suspect(rt, node, self.address, self.second);
        }
    }

    fn is_peer(&self, node: NodeId) -> bool {
        self.channels.to(node).is_some()
    }
}

// The node that comes or goes, or whose operation it is. A snapshot is about none.
fn subject_of(message: &Message) -> Option<NodeId> {
    match message {
        Message::Enter { node }
        | Message::EnterEcho { node, .. }
        | Message::Join { node }
        | Message::JoinEcho { node }
        | Message::Leave { node }
        | Message::LeaveEcho { node }
        | Message::Query { node, .. }
        | Message::QueryReply { node, .. }
        | Message::Store { node, .. }
        | Message::StoreAck { node, .. } => Some(*node),
        Message::Snapshot { .. } => None,
    }
}

// Who entered, joined and left, as a message tells it.
fn told_by(message: &Message) -> Option<&Changes> {
    match message {
        Message::EnterEcho { changes, .. } => Some(changes),
        Message::Snapshot { changes, .. } => Some(changes),
        _ => None,
    }
}
