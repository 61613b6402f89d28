//! Events as bytes.

ghost use Rattle.std.specs.Prelude.{◌≡◌, ◌≤◌, ◌+◌, ℕ, List, [], ◌∷◌, ◌++◌, length, IfOk, OnOk, OnErr, IsOk, Ok, vec_len};
ghost use Rattle.std.specs.Int.{w64, to_be_bytes};
ghost use Rattle.std.specs.Vec.{vec_capacity};
ghost use Rattle.cc_messages.specs.Shares.{IsAskShare};
ghost use Rattle.cc_wire.specs.Writers.{Writes};
ghost use Rattle.cc_wire.specs.Readers.{Gives, whole};
ghost use Rattle.cc_wire.specs.Events.{numbered_spelling, IsNumbered, delivery_spelling, IsDelivery, asked_spelling, IsAsked, place_spelling};
ghost use Rattle.cc_wire.specs.Events.{IsPlace, event_at, event_fields, numbered_at, delivery_at, place_at, asked_at, event_spelling, IsEvent};
ghost use Rattle.cc_wire.specs.Events.{SpellsEvent, skip_spelling, IsSkip, skip_at};

use crate::changes_bytes::put_id;
use crate::command::put_command;
use crate::fault::WireFault;
use crate::message::{put_message, put_news};
use crate::reader::Reader;
use crate::writer::{put_u8, put_u64, settled};
use cc_messages::{Command, Event, Message, PostRange, Share};
use cc_views::{NoMemory, NodeId};
use std::alloc::{AllocError, Global};

impl<'a> Reader<'a> {
    /// A node and a number on the link to it.
    pub fn numbered(&mut self) -> Result<(NodeId, u64), WireFault>
        ensures { Gives (λ x. (x, self.new)) result (numbered_at self.old) }
    {
        let node = self.id(1)?;
        let number = self.u64()?;
        Ok((node, number))
    }

    /// A message that came from a node under a number.
    pub fn delivery(&mut self, alloc: Global) -> Result<((NodeId, u64), Message), WireFault>
        ensures { Gives (λ x. (x, self.new)) result (delivery_at self.old) }
    {
        let numbered = self.numbered()?;
        let message = self.message(alloc)?;
        Ok((numbered, message))
    }

    /// The place of a command: a session, and the number of the request in it.
    pub fn place(&mut self) -> Result<(u64, u64), WireFault>
        ensures { Gives (λ x. (x, self.new)) result (place_at self.old) }
    {
        let session = self.u64()?;
        let request = self.u64()?;
        Ok((session, request))
    }

    /// A command at its place.
    pub fn asked(&mut self) -> Result<((u64, u64), Command), WireFault>
        ensures { Gives (λ x. (x, self.new)) result (asked_at self.old) }
    {
        let place = self.place()?;
        let command = self.command()?;
        Ok((place, command))
    }

    /// A node, and the first and the last of its posts that are for others.
    pub fn skip(&mut self) -> Result<(NodeId, PostRange), WireFault>
        ensures { Gives (λ x. (x, self.new)) result (skip_at self.old) }
    {
        let from = self.id(1)?;
        let posts = self.range()?;
        Ok((from, posts))
    }

    // The fields of an event of that kind.
    fn event_fields(&mut self, alloc: Global, kind: u8) -> Result<Event, WireFault>
        ensures { Gives (λ x. (x, self.new)) result (event_fields kind self.old) }
    {
        match kind {
            1 => Ok(Event::Enter),
            2 => Ok(Event::Leave),
            3 => {
                let ((from, number), message) = self.delivery(alloc)?;
                Ok(Event::Deliver {
                    from,
                    number,
                    message,
                })
            }
            4 => {
                let (peer, number) = self.numbered()?;
                Ok(Event::Acked { peer, number })
            }
            5 => {
                let ((session, request), command) = self.asked()?;
                Ok(Event::Ask {
                    session,
                    request,
                    command,
                })
            }
            6 => {
                let node = self.id(1)?;
                Ok(Event::Retire { node })
            }
            32 => {
                let node = self.id(1)?;
                Ok(Event::Lapse { node })
            }
            33 => Ok(Event::Snapshot),
            34 => {
                let (from, posts) = self.skip()?;
                Ok(Event::Skip { from, posts })
            }
            35 => {
                let share = self.share()?;
                Ok(Event::Share { share })
            }
            kind => Err(WireFault::BadKind(kind)),
        }
    }

    #[tactic(auto, unfolding(crate::specs::Events::event_at))]
    pub(crate) fn event(&mut self, alloc: Global) -> Result<Event, WireFault>
        ensures { Gives (λ x. (x, self.new)) result (event_at self.old) }
    {
        let kind = self.u8()?;
        self.event_fields(alloc, kind)
    }
}

/// Appends a node and a number on the link to it. On an `Err` a part may stand at the end.
pub fn put_numbered(out: &mut Vec<u8>, node: NodeId, number: u64) -> Result<(), AllocError>
    ensures writes { Writes out.old out.new (numbered_spelling node number) result }
    ensures fits { OnOk result (IsNumbered node number) }
{
    put_id(out, node)?;
    put_u64(out, number)
}

/// Appends a message that came from a node under a number. On an `Err` a part may stand at the end.
pub fn put_delivery(
    out: &mut Vec<u8>,
    from: NodeId,
    number: u64,
    message: &Message,
) -> Result<(), AllocError>
    ensures writes { Writes out.old out.new (delivery_spelling from number message.now) result }
    ensures fits { OnOk result (IsDelivery from number message.now) }
{
    put_numbered(out, from, number)?;
    put_message(out, message)
}

/// Appends a session, and the number of a request in it. On an `Err` a part may stand at the end.
pub fn put_place(out: &mut Vec<u8>, session: u64, request: u64) -> Result<(), AllocError>
    ensures writes { Writes out.old out.new (place_spelling session request) result }
    ensures fits { IsPlace session request }
{
    put_u64(out, session)?;
    put_u64(out, request)
}

/// Appends a command under its session and its request. On an `Err` a part may stand at the end.
pub fn put_asked(
    out: &mut Vec<u8>,
    session: u64,
    request: u64,
    command: &Command,
) -> Result<(), AllocError>
    ensures writes { Writes out.old out.new (asked_spelling session request command.now) result }
    ensures fits { OnOk result (IsAsked session request command.now) }
{
    put_place(out, session, request)?;
    put_command(out, command)
}

/// Appends a node, and the first and the last of its posts that are for others. On an `Err` a part may stand at the end.
pub fn put_skip(out: &mut Vec<u8>, from: NodeId, posts: PostRange) -> Result<(), AllocError>
    ensures writes { Writes out.old out.new (skip_spelling from posts) result }
    ensures fits { OnOk result (IsSkip from posts) }
{
    put_id(out, from)?;
    put_ends(out, posts.first(), posts.last())
}

/// Appends how many asks may begin together.
pub fn put_share(out: &mut Vec<u8>, share: Share) -> Result<(), AllocError>
    ensures writes { Writes out.old out.new (share ∷ []) result }
    ensures fits { IsAskShare share }
{
    put_u8(out, share.asks())
}

// Appends the first and the last of some numbers.
fn put_ends(out: &mut Vec<u8>, first: u64, last: u64) -> Result<(), AllocError>
    ensures { Writes out.old out.new (to_be_bytes w64 first ++ to_be_bytes w64 last) result }
{
    put_u64(out, first)?;
    put_u64(out, last)
}

pub(crate) fn put_event(out: &mut Vec<u8>, event: &Event) -> Result<(), AllocError>
    ensures writes { Writes out.old out.new (event_spelling event.now) result }
    ensures fits { OnOk result (IsEvent event.now) }
{
    match event {
        Event::Enter => put_u8(out, 1),
        Event::Leave => put_u8(out, 2),
        Event::Deliver {
            from,
            number,
            message,
        } => {
            put_u8(out, 3)?;
            put_delivery(out, *from, *number, message)
        }
        Event::Acked { peer, number } => {
            put_u8(out, 4)?;
            put_numbered(out, *peer, *number)
        }
        Event::Ask {
            session,
            request,
            command,
        } => {
            put_u8(out, 5)?;
            put_asked(out, *session, *request, command)
        }
        Event::Retire { node } => put_news(out, 6, *node),
        Event::Lapse { node } => put_news(out, 32, *node),
        Event::Snapshot => put_u8(out, 33),
        Event::Skip { from, posts } => {
            put_u8(out, 34)?;
            put_skip(out, *from, *posts)
        }
        Event::Share { share } => {
            put_u8(out, 35)?;
            put_share(out, *share)
        }
    }
}

#[tactic(auto, unfolding(crate::specs::Readers::whole))]
fn decode_all(alloc: Global, bytes: &[u8]) -> Result<Event, WireFault>
    ensures { Gives (λ x. x) result (whole event_at bytes.now) }
{
    let mut reader = Reader::new(bytes);
    let event = reader.event(alloc)?;
    if let Err(fault) = reader.end() {
        drop(event);
        return Err(fault);
    }
    Ok(event)
}

/// The event that the bytes spell, all of the bytes.
/// The fault is that of the first field, from left to right, that can't be read.
pub fn decode_event(alloc: Global, bytes: &[u8]) -> Result<Event, WireFault>
    // What is read is spelled so.
    ensures found { IfOk result (λ x. SpellsEvent bytes.now x) }
    // What is spelled so is read, unless memory runs out.
    ensures only { (x : Event) → SpellsEvent bytes.now x → Gives (λ x. x) result (Ok x) }
    // Which fault it is.
    ensures exact { Gives (λ x. x) result (whole event_at bytes.now) }
{
    decode_all(alloc, bytes)
}

/// Appends the spelling of an event. On an `Err` nothing has changed.
pub fn encode_event(event: &Event, out: &mut Vec<u8>) -> Result<(), NoMemory>
    ensures spelled { OnOk result (SpellsEvent (event_spelling event.now) event.now) }
    ensures ok { OnOk result (out.new.items ≡ out.old.items ++ event_spelling event.now) }
    ensures err { OnErr result (out.new.items ≡ out.old.items) }
    ensures room { vec_len out.old + length (event_spelling event.now) ≤ vec_capacity out.old → IsOk result }
    ensures grows { vec_capacity out.old ≤ vec_capacity out.new }
{
    let start = out.len();
    let put = put_event(out, event);
    settled(out, start, put)
}

/// Each event has one spelling, and none begins another.
pub fn one_spelling_of_events()
    ensures one { (a b u w : List ℕ) (x y : Event) → SpellsEvent a x → SpellsEvent b y → a ++ u ≡ b ++ w → (x ≡ y) × (a ≡ b) }
    ensures same { (a b : List ℕ) (x : Event) → SpellsEvent a x → SpellsEvent b x → a ≡ b }
{}
