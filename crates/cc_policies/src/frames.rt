//! Which event a frame brings, and which frame an output or a refusal is.

ghost use Rattle.std.specs.Prelude.{◌≡◌, ◌++◌, ℕ, Some, IfOk, IfSome, OnOk};
ghost use Rattle.cc_wire.specs.Messages.{message_spelling};
ghost use Rattle.cc_connections.specs.Frames.{frame_spelling};
ghost use Rattle.cc_messages.specs.declared.output.Output.TheVariants as output;
ghost use Rattle.cc_policies.specs.Frames.{event_in, output_frame, refusing, refusal_frame, skip_spelling, due_spelling};

use crate::withheld::Due;
use cc_connections::{Frame, encode_frame, encode_post, encode_reply};
use cc_messages::{Answer, Event, Message, PostRange, Refusal};
use cc_views::{NoMemory, NodeId};
use cc_wire::encode_message;
use std::alloc::Global;

/// The event that a frame brings. None for a frame that a node only sends, and for a greeting: then the connection is to be
/// closed.
pub fn event_of(frame: Frame) -> Option<Event>
    ensures { result ≡ event_in frame }
{
    match frame {
        Frame::Post {
            from,
            number,
            message,
        } => Some(Event::Deliver {
            from,
            number,
            message,
        }),
        Frame::Ack { from, number } => Some(Event::Acked { peer: from, number }),
        Frame::Ask {
            session,
            request,
            command,
        } => Some(Event::Ask {
            session,
            request,
            command,
        }),
        Frame::Reply { .. } | Frame::Refused { .. } => None,
        Frame::Hello(_) | Frame::Welcome { .. } | Frame::Doubled { .. } => None,
        Frame::Unwelcome { .. } => None,
        Frame::Leave => Some(Event::Leave),
        Frame::Retire { node } | Frame::RetireIfSilent { node } => Some(Event::Retire { node }),
        Frame::Skip { from, posts } => Some(Event::Skip { from, posts }),
        Frame::Share { share } => Some(Event::Share { share }),
    }
}

/// The bytes that tell a peer that these posts of the node `me` are for others.
pub fn skip_bytes(alloc: Global, me: NodeId, posts: PostRange) -> Result<Vec<u8>, NoMemory>
    ensures { IfOk result (λ v. v.items ≡ skip_spelling me (Some posts)) }
{
    let mut bytes = Vec::new(alloc);
    put_skip(&mut bytes, me, Some(posts))?;
    Ok(bytes)
}

/// The bytes of a message, which `due_bytes` takes for each peer that it goes to.
pub fn message_bytes(alloc: Global, message: &Message) -> Result<Vec<u8>, NoMemory>
    ensures { IfOk result (λ v. v.items ≡ message_spelling message.now) }
{
    let mut bytes = Vec::new(alloc);
    encode_message(message, &mut bytes)?;
    Ok(bytes)
}

/// The bytes of what is due to a peer once a message of the node `me` was put for it, under this number of its link. The
/// message isn't copied, and it is spelled only where it is due and its bytes aren't at hand.
pub fn due_bytes(
    alloc: Global,
    me: NodeId,
    due: &Due,
    number: u64,
    message: &Message,
    spelled: Option<&[u8]>,
) -> Result<Vec<u8>, NoMemory>
    requires { IfSome spelled (λ bytes. bytes.now ≡ message_spelling message.now) }
    ensures { IfOk result (λ v. v.items ≡ due_spelling me due.now number message.now) }
{
    let mut bytes = Vec::new(alloc);
    put_skip(&mut bytes, me, due.skip)?;
    if due.has_post {
        encode_post(me, number, message, spelled, &mut bytes)?;
    }
    Ok(bytes)
}

// Appends what tells that posts are for others, where there are any.
fn put_skip(bytes: &mut Vec<u8>, me: NodeId, posts: Option<PostRange>) -> Result<(), NoMemory>
    ensures { OnOk result (bytes.new.items ≡ bytes.old.items ++ skip_spelling me posts) }
{
    match posts {
        Some(posts) => encode_frame(&Frame::Skip { from: me, posts }, bytes),
        None => Ok(()),
    }
}

/// What tells a peer that the node `me` has all that it sent up to this number.
pub fn ack_frame(me: NodeId, number: u64) -> Frame
    ensures { (to : ℕ) → result ≡ output_frame me (output.Ack to number) }
{
    Frame::Ack { from: me, number }
}

/// The bytes of the answer to a request.
pub fn reply_bytes(
    alloc: Global,
    session: u64,
    request: u64,
    answer: &Answer,
) -> Result<Vec<u8>, NoMemory>
    ensures { IfOk result (λ v. (me : ℕ) → v.items ≡ frame_spelling (output_frame me (output.Reply session request answer.now))) }
{
    let mut bytes = Vec::new(alloc);
    encode_reply(session, request, answer, &mut bytes)?;
    Ok(bytes)
}

/// What a connection is told of an event that it brought and that was refused. None for what no client asked for.
/// A request of the operator has neither session nor number: both are told as 0.
pub fn refused_frame(event: &Event, refusal: Refusal) -> Option<Frame>
    ensures { result ≡ refusal_frame event.now refusal }
{
    match event {
        Event::Ask {
            session,
            request,
            ..
        } => Some(refusing(*session, *request, refusal)),
        Event::Leave | Event::Retire { .. } | Event::Share { .. } => {
            Some(refusing(0, 0, refusal))
        }
        Event::Enter
        | Event::Deliver { .. }
        | Event::Acked { .. }
        | Event::Lapse { .. }
        | Event::Snapshot
        | Event::Skip { .. } => None,
    }
}

// What tells that a request is refused, and why.
fn refusing(session: u64, request: u64, refusal: Refusal) -> Frame
    ensures { result ≡ refusing session request refusal }
{
    Frame::Refused {
        session,
        request,
        refusal: refusal.number(),
        value: refusal.value(),
    }
}
