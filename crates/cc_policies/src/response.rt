//! What a worker does once it has the answer to an event that it brought.

ghost use Rattle.std.specs.Prelude.{◌≡◌};
ghost use Rattle.cc_policies.specs.Responses.{heed_undelivered, heed_unasked, heed_refused, told_of, told, heed_unstirred, heed_of};

use crate::frames::refused_frame;
use cc_connections::Frame;
use cc_messages::{Event, Refusal};
use cc_views::NodeId;

/// What an answer asks of the worker that brought the event.
#[derive(Drop)]
pub enum Duty {
    /// Nothing: what was refused is sent again by its link.
    Nothing,
    /// Wake the flusher: a post or an answer waits for it.
    Wake,
    /// Let the event defer with the next batch: it made no post and no answer.
    Defer,
    /// Have the flusher tell this peer again what was heard from it.
    Reack(NodeId),
    /// Have the flusher put out the answer of this session's last request again.
    Again(u64),
    /// Send this over the connection that the event came from.
    Refuse(Frame),
    /// Bring the event again after a while: the queue was full.
    BringAgain,
}

/// What the answer to an event asks: of one that was accepted it tells whether it stirs, which is whether it made a post or
/// an answer. `differs` tells whether the event repeats its session's last request with another command.
pub fn heed(event: &Event, answer: Result<bool, Refusal>, differs: bool) -> Duty
    ensures { result ≡ heed_of event.now answer differs }
{
    match answer {
        Ok(true) => Duty::Wake,
        Ok(false) => heed_unstirred(event),
        Err(refusal) => heed_refused(event, refusal, differs),
    }
}

// An accepted lapse makes the room that others wait for, though it makes no post.
fn heed_unstirred(event: &Event) -> Duty
    ensures { result ≡ heed_unstirred event.now }
{
    match event {
        Event::Lapse { .. } => Duty::Wake,
        _ => Duty::Defer,
    }
}

fn heed_refused(event: &Event, refusal: Refusal, differs: bool) -> Duty
    ensures { result ≡ heed_refused event.now refusal differs }
{
    match event {
        Event::Deliver { from, .. } | Event::Skip { from, .. } => heed_undelivered(*from, refusal),
        Event::Ask {
            session,
            request,
            ..
        } => heed_unasked(*session, event, told_of(*request, differs, refusal)),
        _ => told(event, refusal),
    }
}

fn heed_undelivered(from: NodeId, refusal: Refusal) -> Duty
    ensures { result ≡ heed_undelivered from refusal }
{
    match refusal {
        Refusal::Old(_) => Duty::Reack(from),
        Refusal::QueueFull => Duty::BringAgain,
        _ => Duty::Nothing,
    }
}

// A repeat with another command isn't answered: it is told the session's last request, which has its own number.
fn told_of(request: u64, differs: bool, refusal: Refusal) -> Refusal
    ensures { result ≡ told_of request differs refusal }
{
    match refusal {
        Refusal::Repeat if differs => Refusal::Stale(request),
        _ => refusal,
    }
}

fn heed_unasked(session: u64, event: &Event, refusal: Refusal) -> Duty
    ensures { result ≡ heed_unasked session event.now refusal }
{
    match refusal {
        Refusal::Repeat => Duty::Again(session),
        _ => told(event, refusal),
    }
}

// Who asked is told why, and nobody else is told anything.
fn told(event: &Event, refusal: Refusal) -> Duty
    ensures { result ≡ told event.now refusal }
{
    match refused_frame(event, refusal) {
        Some(frame) => Duty::Refuse(frame),
        None => Duty::Nothing,
    }
}
