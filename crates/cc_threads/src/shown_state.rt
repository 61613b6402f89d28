//! What the flusher counts, and what it lays out of its node for those who look at it.

use crate::absent_peers::wait_of;
use crate::flusher_thread::Watch;
use cc_channels::{Note, PeerChannel, Shared, Stranger};
use cc_connections::{BATCH_BOUNDS, Counted};
use cc_links::LinkRow;
use cc_node::{Core, Node};
use cc_policies::AskName;
use cc_site::Side;
use cc_status::{Board, DiskShown, Laid, PeerNote, Shown};
use cc_views::{NoMemory, NodeId, Text};
use std::alloc::Global;
use std::sync::Wait;

// How many sessions a node serves when it is noted that few are left, and that none is.
const MANY_SESSIONS: usize = 200;

const ALL_SESSIONS: usize = 256;

// From how many microseconds on a sync is noted.
const SLOW_US: u64 = 1_000_000;

// How many strangers are noted in a second at most.
const MOST_STRANGERS: u64 = 64;

/// What the flusher has counted since the start, and what it saw last.
#[derive(Drop)]
pub struct Tally {
    commits: u64,
    events: u64,
    // How many batches had so many events, by their bucket.
    batches: [u64; 7],
    checkpoints: u64,
    // How many records count behind the state, and how many events they hold.
    side_records: u64,
    side_events: u64,
    // The round under way, and since when.
    round: Option<AskName>,
    round_since: u64,
    is_joined: bool,
    has_left: bool,
    sessions: usize,
}

impl Tally {
    /// What an engine begins with that was opened with so many records behind its state, which hold so many events.
    pub fn new(side_records: u64, side_events: u64, core: &Core) -> Self {
        Tally {
            commits: 0,
            events: 0,
            batches: [0; 7],
            checkpoints: 0,
            side_records,
            side_events,
            round: None,
            round_since: 0,
            is_joined: core.is_joined(),
            has_left: core.churn().has_left(core.me()),
            sessions: core.sessions().rows().len(),
        }
    }

    /// A batch of so many events was made durable.
    pub fn commit(&mut self, events: u64) {
        self.commits = self.commits.saturating_add(1);
        self.events = self.events.saturating_add(events);
        self.side_records = self.side_records.saturating_add(1);
        self.side_events = self.side_events.saturating_add(events);
        let bucket = BATCH_BOUNDS.iter().take_while(|bound| **bound < events);
        if let Some(count) = self.batches.get_mut(bucket.count()) {
            *count = count.saturating_add(1);
        }
    }

    /// The node was moved to the other side.
    pub fn move_over(&mut self) {
        self.checkpoints = self.checkpoints.saturating_add(1);
        self.side_records = 0;
        self.side_events = 0;
    }

    /// How the side in use stands that has this generation and so many bytes.
    pub fn disk(&self, side: Side, generation: u64, bytes: u64) -> DiskShown {
        DiskShown {
            side,
            generation,
            bytes,
            records: self.side_records,
            events: self.side_events,
        }
    }

    // A second has passed: what has changed in the node's standing, and that few sessions are left, is noted.
    fn pass_second<R: Wait>(&mut self, rt: &R, core: &Core, shared: &Shared) {
        let round = wait_of(core.phase()).map(|waiting| waiting.asked);
        if round != self.round {
            self.round = round;
            self.round_since = shared.now();
        }
        self.note_standing(rt, core, shared);
        let sessions = core.sessions().rows().len();
        for most in [MANY_SESSIONS, ALL_SESSIONS] {
            if self.sessions < most && sessions >= most {
                shared.notes.put(rt, Note::Sessions(most));
            }
        }
        self.sessions = sessions;
    }

    fn note_standing<R: Wait>(&mut self, rt: &R, core: &Core, shared: &Shared) {
        let has_left = core.churn().has_left(core.me());
        if core.is_joined() && !self.is_joined {
            shared.notes.put(rt, Note::Joined);
        }
        if has_left && !self.has_left {
            shared.notes.put(rt, Note::Left);
        }
        self.is_joined = core.is_joined();
        self.has_left = has_left;
    }

    fn counted(&self, shared: &Shared) -> Counted {
        let mut counted = Counted {
            commits: self.commits,
            events: self.events,
            batches: self.batches,
            checkpoints: self.checkpoints,
            ..Counted::default()
        };
        shared.gauges.read(&mut counted);
        counted
    }
}

/// A second has passed: what is seen of it is noted, and the node is laid out for those who look at it, as it stands on the
/// disk.
pub fn pass_second<R: Wait>(
    rt: &R,
    node: &Node,
    disk: DiskShown,
    tally: &mut Tally,
    watch: &Watch<'_>,
) {
    let shared = watch.shared;
    let slowest = shared.gauges.take_slowest();
    if slowest >= SLOW_US {
        shared.notes.put(rt, Note::SlowSync(slowest));
    }
    note_strangers(rt, shared);
    shared.learn_marks(node.core());
    shared
        .reception
        .learn_left(rt, node.core().churn().changes().left());
    tally.pass_second(rt, node.core(), shared);
    if let Some(board) = watch.board {
        show(rt, watch.alloc, node, disk, tally, shared, board);
    }
}

// Notes which nodes were heard of that still aren't among the peers.
fn note_strangers<R: Wait>(rt: &R, shared: &Shared) {
    for _ in 0..MOST_STRANGERS {
        let Some(stranger) = shared.known.next_stranger(rt, shared.seconds()) else {
            return;
        };
        if shared.channel_to(stranger.node).is_none() {
            let Stranger { node, from, .. } = stranger;
            shared.notes.put(rt, Note::Stranger(node, from));
        }
    }
}

// Lays out the node for those who look at it. Where memory is refused, what was laid out before stays.
fn show<R: Wait>(
    rt: &R,
    alloc: Global,
    node: &Node,
    disk: DiskShown,
    tally: &Tally,
    shared: &Shared,
    board: &Board,
) {
    if let Ok(laid) = laid(rt, alloc, node, disk, tally, shared) {
        board.lay(alloc, laid);
    }
}

fn laid<R: Wait>(
    rt: &R,
    alloc: Global,
    node: &Node,
    disk: DiskShown,
    tally: &Tally,
    shared: &Shared,
) -> Result<Laid, NoMemory> {
    let peers = peer_notes(rt, alloc, node.core(), shared)?;
    Ok(Laid {
        shown: Shown::of(alloc, node)?,
        now: shared.now(),
        round_since: tally.round_since,
        disk,
        peers,
        counted: tally.counted(shared),
    })
}

fn peer_notes<R: Wait>(
    rt: &R,
    alloc: Global,
    core: &Core,
    shared: &Shared,
) -> Result<Vec<PeerNote>, NoMemory> {
    let mut notes = Vec::new(alloc);
    for link in core.links().rows() {
        notes.extend_from_slice(&[peer_note(rt, shared, core.me(), link)])?;
    }
    Ok(notes)
}

fn peer_note<R: Wait>(rt: &R, shared: &Shared, me: NodeId, link: &LinkRow) -> PeerNote {
    let is_absent = shared.health.lock(rt).standing(link.peer).is_absent();
    let channel = shared.channel_to(link.peer);
    let since = channel.and_then(PeerChannel::absent_since);
    PeerNote {
        peer: link.peer,
        address: channel.map(|channel| channel.address(rt)),
        connected_since: channel.and_then(PeerChannel::connected_since),
        absent_since: if is_absent {
            Some(since.unwrap_or(0))
        } else {
            None
        },
        last_heard: channel
            .and_then(PeerChannel::last_heard)
            .map(|heard| shared.since_1970(heard)),
        is_silent: link.peer != me && shared.is_silent(rt, link.peer),
        trouble: trouble_with(rt, channel),
    }
}

// Why the node and a peer don't take each other, in words. No byte where they do.
fn trouble_with<R: Wait>(rt: &R, channel: Option<&PeerChannel>) -> Text {
    let words = match channel {
        Some(channel) => channel.trouble(rt).unwrap_or(""),
        None => "",
    };
    Text::new(words.as_bytes()).unwrap_or(Text::empty())
}
