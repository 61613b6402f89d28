//! What the flusher does for peers that stay away: it looks how each of them stands, and hands in what lapses and snapshots.

use cc_channels::{Note, PeerChannel, Shared, Waiting};
use cc_links::LinkRow;
use cc_messages::Event;
use cc_node::Core;
use cc_ops::{Pending, Stage};
use cc_policies::{AskName, Calls, Parcel, Passed, SlowOperation, skip_bytes};
use cc_views::NodeId;
use std::alloc::Global;
use std::sync::Wait;

/// What the flusher remembers of the seconds before. Begun anew, it finds the same in the state within three seconds.
#[derive(Drop)]
pub struct Looks {
    calls: Calls,
    lasting: SlowOperation,
    // How many seconds had passed at the last tick that it saw.
    seconds: u64,
}

impl Looks {
    /// No second has passed yet.
    pub fn new() -> Self {
        Looks {
            calls: Calls::new(),
            lasting: SlowOperation::new(),
            seconds: 0,
        }
    }
}

/// Looks at a node as it was flushed: at each tick how its peers stand, and whether it posts a snapshot; and always what
/// lapses. It hands events in on the node's own channel, and waits for none of them.
pub fn look<R: Wait>(rt: &R, core: &Core, shared: &Shared, looks: &mut Looks, is_tick: bool) {
    if is_tick {
        let seconds = shared.seconds();
        let passed = seconds.saturating_sub(looks.seconds);
        looks.seconds = seconds;
        let is_back = pass_second(rt, core, shared, passed);
        note_lasting(rt, shared, looks, wait_of(core.phase()), passed);
        let is_held = shared.any_absent.is_set() || looks.lasting.is_long();
        if looks
            .calls
            .after_second(is_back, core.needs_anew(), is_held)
        {
            shared.own.put(rt, Event::Snapshot);
        }
    }
    if shared.any_absent.is_set() {
        hand_lapses(rt, core, shared, is_tick);
    }
}

/// Tells each peer, and the node itself, which of the last posts are for others: what was withheld until now. Those whose channel is
/// muted it tells later.
pub fn tell_withheld<R: Wait>(rt: &R, alloc: Global, core: &Core, shared: &Shared) {
    let me = core.me();
    for link in core.links().rows() {
        if let Some(channel) = shared.channel_to(link.peer) {
            tell_peer(rt, alloc, me, channel, shared);
        }
    }
    if shared.own.is_muted() {
        return;
    }
    if let Some(posts) = shared.own.take_withheld(rt) {
        shared.gauges.send_skip();
        shared.own.put(rt, Event::Skip { from: me, posts });
    }
}

fn tell_peer<R: Wait>(rt: &R, alloc: Global, me: NodeId, channel: &PeerChannel, shared: &Shared) {
    if channel.is_muted() {
        return;
    }
    let Some(posts) = channel.take_withheld(rt) else {
        return;
    };
    if let Ok(bytes) = skip_bytes(alloc, me, posts) {
        shared.gauges.send_skip();
        channel.put(rt, me, Parcel::Post(bytes));
    }
}

// So many seconds have passed for all peers, of which each is told that the node is there. Whether one that is absent was heard.
fn pass_second<R: Wait>(rt: &R, core: &Core, shared: &Shared, seconds: u64) -> bool {
    let mut is_back = false;
    for link in core.links().rows() {
        if link.peer != core.me() {
            let passed = pass_link(rt, core, shared, link);
            note_passed(rt, core.me(), shared, link, passed, seconds);
            is_back |= passed.is_back;
        }
    }
    let has_absent = shared.health.lock(rt).has_absent();
    shared.any_absent.put(has_absent);
    is_back
}

fn pass_link<R: Wait>(rt: &R, core: &Core, shared: &Shared, link: &LinkRow) -> Passed {
    let sent = sent_to(rt, core, shared, link);
    let is_live = core.is_live(link.peer);
    let mut health = shared.health.lock(rt);
    health.pass_second(link.peer, link.acked, sent, is_live)
}

// How many posts a peer was sent: what is withheld from it isn't sent yet.
fn sent_to<R: Wait>(rt: &R, core: &Core, shared: &Shared, link: &LinkRow) -> u64 {
    let withheld = match shared.channel_to(link.peer) {
        Some(channel) => channel.withheld(rt),
        None => 0,
    };
    let posts = core.posts().saturating_sub(link.start);
    posts.saturating_sub(withheld)
}

// Has a peer hear a sign of life, tells the channel to it whether it is behind, and notes that it is taken for absent. A peer that
// was heard once and is silent is behind: its connection may be one that waits long until it sends again.
fn note_passed<R: Wait>(
    rt: &R,
    me: NodeId,
    shared: &Shared,
    link: &LinkRow,
    passed: Passed,
    seconds: u64,
) {
    let peer = link.peer;
    if let Some(channel) = shared.channel_to(peer) {
        channel.beat(rt, me, link.heard);
        let is_lost = channel.last_heard().is_some() && shared.is_silent(rt, peer);
        channel.note_progress(passed.standing.is_late() || is_lost, seconds);
        if passed.is_taken {
            channel.put_absent(shared.now());
        }
    }
    if passed.is_taken {
        shared.notes.put(rt, Note::Absent(peer));
    }
}

// So many seconds have passed for the operation that pends, if one does: what has been pending for long is noted, once.
fn note_lasting<R: Wait>(
    rt: &R,
    shared: &Shared,
    looks: &mut Looks,
    pending: Option<Waiting>,
    seconds: u64,
) {
    let before = looks.lasting;
    for _ in 0..seconds.min(SlowOperation::LONG_SECONDS) {
        looks.lasting = looks.lasting.after_second(name_of(pending));
    }
    if let Some(waiting) = pending {
        if looks.lasting.is_long() && !before.is_long() {
            shared.notes.put(rt, Note::Pending(waiting));
        }
    }
}

fn name_of(pending: Option<Waiting>) -> Option<AskName> {
    match pending {
        None => None,
        Some(waiting) => Some(waiting.asked),
    }
}

/// The operation that pends, if one does, and what it waits for.
pub fn wait_of(stage: Stage) -> Option<Waiting> {
    match stage {
        Stage::Idle => None,
        Stage::Storing(pending) | Stage::Querying(pending) | Stage::StoringBack(pending) => {
            Some(waiting(&pending))
        }
    }
}

fn waiting(pending: &Pending) -> Waiting {
    Waiting {
        asked: AskName {
            session: pending.asked.session,
            request: pending.asked.request,
        },
        count: pending.count,
        need: pending.need,
    }
}

// Hands in what lapses.
fn hand_lapses<R: Wait>(rt: &R, core: &Core, shared: &Shared, is_tick: bool) {
    for link in core.links().rows() {
        if lapses(rt, core, shared, link, is_tick) {
            shared.own.put(rt, Event::Lapse { node: link.peer });
        }
    }
}

fn lapses<R: Wait>(rt: &R, core: &Core, shared: &Shared, link: &LinkRow, is_tick: bool) -> bool {
    let reach = link.start.saturating_add(link.acked);
    let mut health = shared.health.lock(rt);
    health.lapse(link.peer, reach, core.posts(), is_tick)
}
