//! What may be handed to a node, so that there is room left for what others need of it.

ghost use Rattle.std.specs.Prelude.{◌≡◌, ◌-◌, ℕ, nat_le, false, [], None};
ghost use Rattle.cc_messages.specs.declared.event.Event.TheVariants as event;
ghost use Rattle.cc_messages.specs.declared.message.Message.{Message};
ghost use Rattle.cc_node.specs.Core as machine;
ghost use Rattle.cc_node.specs.Core.{Core};
ghost use Rattle.cc_policies.specs.Admission.{free_posts, may_stir, may_hand_over, is_given_up, is_furthest_behind};

use crate::limits::{HELD_ASK_SECONDS, HELD_MESSAGE_SECONDS};
use cc_messages::{Event, Message};
use cc_node::Core;
use cc_outbox::Outbox;
use cc_views::NodeId;

// How many posts a node keeps at most.
const MAX_POSTS: u64 = Outbox::MAX_POSTS as u64;

// How many posts an ask leaves room for, unless it asks under number 0, which is always refused.
const ROOM_BESIDE_ASKS: u64 = 384;

// How many posts a message leaves room for.
const ROOM_BESIDE_MESSAGES: u64 = 256;

/// Whether an event may be handed to the node `me` now, which keeps so many posts. `is_furthest` tells whether what
/// brings it is one of the peers that are furthest behind, and `waited` for how many seconds it has been held back.
pub fn may_hand_over(me: NodeId, event: &Event, kept: u64, is_furthest: bool, waited: u64) -> bool
    ensures { result ≡ may_hand_over me event.now kept is_furthest waited }
{
    match event {
        Event::Ask { request, .. } => {
            *request == 0 || waited >= HELD_ASK_SECONDS || leaves_room(kept, ROOM_BESIDE_ASKS)
        }
        Event::Deliver { message, .. } => {
            !may_stir(me, message) || is_furthest || leaves_room(kept, ROOM_BESIDE_MESSAGES)
        }
        Event::Enter
        | Event::Leave
        | Event::Acked { .. }
        | Event::Retire { .. }
        | Event::Lapse { .. }
        | Event::Snapshot
        | Event::Skip { .. }
        | Event::Share { .. } => true,
    }
}

/// Whether an event that has been held back for so many seconds is given up: a message is, since its link sends it again,
/// and what waits behind it could make room.
pub fn is_given_up(event: &Event, waited: u64) -> bool
    ensures { result ≡ is_given_up event.now waited }
{
    matches!(event, Event::Deliver { .. }) && waited >= HELD_MESSAGE_SECONDS
}

// Whether the node `me` may make a post or an answer of a message, in one state or another.
fn may_stir(me: NodeId, message: &Message) -> bool
    ensures { result ≡ may_stir me message.now }
{
    match message {
        Message::JoinEcho { .. } | Message::LeaveEcho { .. } => false,
        Message::QueryReply { node, .. } => *node == me,
        Message::StoreAck { node, .. } => *node == me,
        _ => true,
    }
}

fn leaves_room(kept: u64, room: u64) -> bool
    ensures { result ≡ nat_le room (free_posts kept) }
{
    MAX_POSTS.saturating_sub(kept) >= room
}

/// Whether a peer is one of those that are furthest behind: no peer that hasn't left has acknowledged less of the node's
/// posts. `least` is what these have acknowledged, which is the same for all peers: `core.lowest()`.
pub fn is_furthest_behind(core: &Core, least: u64, peer: NodeId) -> bool
    requires { least ≡ machine.lowest core.now }
    ensures { result ≡ is_furthest_behind core.now peer }
{
    if !core.is_live(peer) {
        return false;
    }
    match core.links().get(peer) {
        Some(row) => row.start.checked_add(row.acked) == Some(least),
        None => false,
    }
}

/// A message that is handed over whatever room there is, and whoever sent it, makes no post and no answer, in any state of
/// a node.
pub fn what_needs_no_room_makes_no_post()
    ensures { (c : Core) (from number : ℕ) (m : Message) → may_stir c.me m ≡ false → machine.made c (event.Deliver from number m)
        ≡ record { ack = machine.ack (event.Deliver from number m); post = None; answers = [] } }
{}
