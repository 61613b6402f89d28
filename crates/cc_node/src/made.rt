//! What an event makes.

ghost use Rattle.std.specs.Prelude.{◌≡◌, Some, None, []};

use cc_messages::Message;
use cc_ops::Replies;
use cc_views::NodeId;

/// The acknowledgement of a delivered message.
#[derive(Clone, Copy, PartialEq, Eq)]
pub struct LinkAck {
    pub to: NodeId,
    pub number: u64,
}

/// What an event makes beside the next state: at most one acknowledgement and one post, and its answers.
#[derive(Drop)]
pub struct Made {
    pub ack: Option<LinkAck>,
    pub post: Option<Message>,
    pub answers: Replies,
}

impl Made {
    // A post alone.
    pub(crate) fn posted(post: Message) -> Self
        ensures { result ≡ record { ack = None; post = Some post; answers = [] } }
    {
        Made {
            ack: None,
            post: Some(post),
            answers: Replies::none(),
        }
    }

    // An acknowledgement alone.
    pub(crate) fn acknowledged(to: NodeId, number: u64) -> Self
        ensures { result ≡ record { ack = Some (record { to = to; number = number }); post = None; answers = [] } }
    {
        Made {
            ack: Some(LinkAck { to, number }),
            post: None,
            answers: Replies::none(),
        }
    }

    pub(crate) fn nothing() -> Self
        ensures { result ≡ record { ack = None; post = None; answers = [] } }
    {
        Made {
            ack: None,
            post: None,
            answers: Replies::none(),
        }
    }
}
