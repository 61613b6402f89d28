//! What is put, as tests compare it.

use cc_messages::{Answer, Message, Output};

/// What is put: a message to a peer under its number, an acknowledgement to a peer up to a number, or the reply to a
/// session's request, and whether that is Stored.
#[derive(Clone, Copy, PartialEq, Eq)]
pub enum Put {
    Send(u32, u64, Kind),
    Ack(u32, u64),
    Reply(u64, u64, bool),
}

/// Which message it is. An Enter has the node that enters.
#[derive(Clone, Copy, PartialEq, Eq)]
pub enum Kind {
    Enter(u32),
    Store,
    StoreAck,
    Query,
    Snapshot,
    Other,
}

fn kind_of(message: &Message) -> Kind {
    match message {
        Message::Enter { node } => Kind::Enter(node.number()),
        Message::Store { .. } => Kind::Store,
        Message::StoreAck { .. } => Kind::StoreAck,
        Message::Query { .. } => Kind::Query,
        Message::Snapshot { .. } => Kind::Snapshot,
        _ => Kind::Other,
    }
}

/// What an output puts.
pub fn put_of(output: &Output) -> Put {
    match output {
        Output::Send {
            to,
            number,
            message,
        } => Put::Send(to.number(), *number, kind_of(message)),
        Output::Ack { to, number } => Put::Ack(to.number(), *number),
        Output::Reply {
            session,
            request,
            answer,
        } => Put::Reply(*session, *request, matches!(answer, Answer::Stored)),
    }
}

/// Whether this is put, in this order, and nothing else.
pub fn are_put(outputs: &[Output], puts: &[Put]) -> bool {
    for (output, put) in outputs.iter().zip(puts.iter()) {
        if put_of(output) != *put {
            return false;
        }
    }
    outputs.len() == puts.len()
}
