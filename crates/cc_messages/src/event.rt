//! Events: what happens to a node.

ghost use Rattle.std.specs.Prelude.{◌≡◌, IfOk};

use crate::command::Command;
use crate::message::Message;
use crate::post_range::PostRange;
use crate::share::Share;
use cc_views::{NoMemory, NodeId};
use std::alloc::Global;

/// What happens to a node.
#[derive(Drop)]
pub enum Event {
    /// The node enters the cluster.
    Enter,
    /// The node leaves the cluster for good.
    Leave,
    /// A message came over the link from a node, as the one with this number.
    Deliver {
        from: NodeId,
        number: u64,
        message: Message,
    },
    /// A node has what was sent to it up to this number.
    Acked {
        peer: NodeId,
        number: u64,
    },
    /// A client asks for something: the request with this number in its session.
    Ask {
        session: u64,
        request: u64,
        command: Command,
    },
    /// The operator tells that a node, maybe this one, is dead for good: from now on it counts as one that left.
    Retire {
        node: NodeId,
    },
    /// What is kept for a node that stays away lapses: it counts as acknowledged.
    Lapse {
        node: NodeId,
    },
    /// The node posts what it knows, for nodes that missed what lapsed.
    Snapshot,
    /// The posts of a node under these numbers are for others, so it sends none of them.
    Skip {
        from: NodeId,
        posts: PostRange,
    },
    /// The operator tells how many asks may begin together from the next round on.
    Share {
        share: Share,
    },
}

impl Event {
    /// The same event in memory of its own.
    pub fn copy(&self, alloc: Global) -> Result<Self, NoMemory>
        ensures { IfOk result (λ e. e ≡ self.now) }
    {
        match self {
            Event::Enter => Ok(Event::Enter),
            Event::Leave => Ok(Event::Leave),
            Event::Deliver {
                from,
                number,
                message,
            } => Ok(Event::Deliver {
                from: *from,
                number: *number,
                message: message.copy(alloc)?,
            }),
            Event::Acked { peer, number } => Ok(Event::Acked {
                peer: *peer,
                number: *number,
            }),
            Event::Ask {
                session,
                request,
                command,
            } => Ok(Event::Ask {
                session: *session,
                request: *request,
                command: *command,
            }),
            Event::Retire { node } => Ok(Event::Retire { node: *node }),
            Event::Lapse { node } => Ok(Event::Lapse { node: *node }),
            Event::Snapshot => Ok(Event::Snapshot),
            Event::Skip { from, posts } => Ok(Event::Skip {
                from: *from,
                posts: *posts,
            }),
            Event::Share { share } => Ok(Event::Share { share: *share }),
        }
    }
}
