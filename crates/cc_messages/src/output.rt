//! Outputs: what leaves a node.

use crate::answer::Answer;
use crate::message::Message;
use cc_views::NodeId;

/// What leaves a node.
#[derive(Drop)]
pub enum Output {
    /// A message for a node, the one with this number on the link to it.
    Send {
        to: NodeId,
        number: u64,
        message: Message,
    },
    /// This node has what that node sent it up to this number.
    Ack {
        to: NodeId,
        number: u64,
    },
    /// The answer to the request with this number of a session.
    Reply {
        session: u64,
        request: u64,
        answer: Answer,
    },
}
