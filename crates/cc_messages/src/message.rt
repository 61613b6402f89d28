//! Messages between nodes.

ghost use Rattle.std.specs.Prelude.{◌≡◌, IfOk};
ghost use Rattle.cc_messages.specs.Messages.{is_snapshot, is_for};
ghost use Rattle.cc_messages.specs.declared.message.Message.TheVariants as variants;

use cc_changes::Changes;
use cc_views::{NoMemory, NodeId, View};
use std::alloc::Global;

/// What nodes send to one another (CCC's messages). The node is the one that comes or goes, or that began the operation.
#[derive(Drop)]
pub enum Message {
    /// The node enters.
    Enter {
        node: NodeId,
    },
    /// What the sender knows, for a node that enters, and whether the sender has joined.
    EnterEcho {
        changes: Changes,
        view: View,
        is_joined: bool,
        node: NodeId,
    },
    /// The node has joined.
    Join {
        node: NodeId,
    },
    /// The sender heard that the node has joined.
    JoinEcho {
        node: NodeId,
    },
    /// The node leaves.
    Leave {
        node: NodeId,
    },
    /// The sender heard that the node leaves.
    LeaveEcho {
        node: NodeId,
    },
    /// Asks for the views of others. The tag tells the phases of the node's operations apart.
    Query {
        tag: u64,
        node: NodeId,
    },
    /// The sender's view, for the query with this tag.
    QueryReply {
        view: View,
        tag: u64,
        node: NodeId,
    },
    /// A view to be merged by others.
    Store {
        view: View,
        tag: u64,
        node: NodeId,
    },
    /// The sender has merged the view with this tag.
    StoreAck {
        tag: u64,
        node: NodeId,
    },
    /// What the sender knows, for nodes that missed what it sent before.
    Snapshot {
        changes: Changes,
        view: View,
    },
}

impl Message {
    /// The same message in memory of its own.
    pub fn copy(&self, alloc: Global) -> Result<Self, NoMemory>
        ensures { IfOk result (λ m. m ≡ self.now) }
    {
        match self {
            Message::Enter { node } => Ok(Message::Enter { node: *node }),
            Message::EnterEcho {
                changes,
                view,
                is_joined,
                node,
            } => copy_echo(alloc, changes, view, *is_joined, *node),
            Message::Join { node } => Ok(Message::Join { node: *node }),
            Message::JoinEcho { node } => Ok(Message::JoinEcho { node: *node }),
            Message::Leave { node } => Ok(Message::Leave { node: *node }),
            Message::LeaveEcho { node } => Ok(Message::LeaveEcho { node: *node }),
            Message::Query { tag, node } => Ok(Message::Query {
                tag: *tag,
                node: *node,
            }),
            Message::QueryReply { view, tag, node } => Ok(Message::QueryReply {
                view: view.copy(alloc)?,
                tag: *tag,
                node: *node,
            }),
            Message::Store { view, tag, node } => Ok(Message::Store {
                view: view.copy(alloc)?,
                tag: *tag,
                node: *node,
            }),
            Message::StoreAck { tag, node } => Ok(Message::StoreAck {
                tag: *tag,
                node: *node,
            }),
            Message::Snapshot { changes, view } => {
                let (changes, view) = copy_both(alloc, changes, view)?;
                Ok(Message::Snapshot { changes, view })
            }
        }
    }

    /// Whether it is a snapshot, which is taken under any number above the last that was heard.
    pub fn is_snapshot(&self) -> bool
        ensures { result ≡ is_snapshot self.now }
    {
        matches!(self, Message::Snapshot { .. })
    }

    /// Whether the peer is one of those that it is for: an answer is for the node that asked, each other message for all.
    pub fn is_for(&self, peer: NodeId) -> bool
        ensures { result ≡ is_for self.now peer }
    {
        match self {
            Message::QueryReply { node, .. } | Message::StoreAck { node, .. } => *node == peer,
            Message::Enter { .. }
            | Message::EnterEcho { .. }
            | Message::Join { .. }
            | Message::JoinEcho { .. }
            | Message::Leave { .. }
            | Message::LeaveEcho { .. }
            | Message::Query { .. }
            | Message::Store { .. }
            | Message::Snapshot { .. } => true,
        }
    }
}

fn copy_echo(
    alloc: Global,
    changes: &Changes,
    view: &View,
    is_joined: bool,
    node: NodeId,
) -> Result<Message, NoMemory>
    ensures { IfOk result (λ m. m ≡ variants.EnterEcho changes.now view.now is_joined node) }
{
    let (changes, view) = copy_both(alloc, changes, view)?;
    Ok(Message::EnterEcho {
        changes,
        view,
        is_joined,
        node,
    })
}

fn copy_both(alloc: Global, changes: &Changes, view: &View) -> Result<(Changes, View), NoMemory>
    ensures { IfOk result (λ copies. copies ≡ (changes.now, view.now)) }
{
    let changes = changes.copy(alloc)?;
    let Ok(view) = view.copy(alloc) else {
        drop(changes);
        return Err(NoMemory);
    };
    Ok((changes, view))
}
