//! What is known of a running node beside its state.

ghost use Rattle.std.specs.Prelude.{◌≡◌, IfOk, length};
ghost use Rattle.std.specs.List.{filter, list_any};
ghost use Rattle.std.specs.FinMap as table;
ghost use Rattle.cc_churn.specs.Churn as churn;
ghost use Rattle.cc_status.specs.Readiness.{says_heard, is_away};

use cc_connections::{Address, Counted};
use cc_node::{Core, Node};
use cc_site::Side;
use cc_views::{NoMemory, NodeId, Text};
use std::alloc::Global;

/// A node as it was flushed at one moment: its core, how many posts it kept, and how many answers an operation needs that
/// begins then.
#[derive(Drop)]
pub struct Shown {
    pub core: Core,
    pub kept: u64,
    pub need: u64,
}

impl Shown {
    /// What is shown of a node. The only error is a refused growth.
    pub fn of(alloc: Global, node: &Node) -> Result<Self, NoMemory>
        ensures core { IfOk result (λ s. s.core ≡ node.now.core) }
        ensures kept { IfOk result (λ s. s.kept ≡ table.len node.now.outbox.posts) }
        ensures need { IfOk result (λ s. s.need ≡ churn.quorum node.now.core.beta node.now.core.churn) }
    {
        let core = node.core();
        let need = core.churn().quorum(core.beta());
        match core.copy(alloc) {
            Ok(core) => Ok(Shown {
                core,
                kept: node.kept() as u64,
                need,
            }),
            Err(NoMemory) => Err(NoMemory),
        }
    }
}

/// The side in use, how long it is, and what counts on it behind the state.
#[derive(Clone, Copy)]
pub struct DiskShown {
    pub side: Side,
    pub generation: u64,
    pub bytes: u64,
    pub records: u64,
    pub events: u64,
}

/// What is known of a peer beside its link. Moments are milliseconds since 1970.
#[derive(Clone, Copy)]
pub struct PeerNote {
    pub peer: NodeId,
    pub address: Option<Address>,
    pub connected_since: Option<u64>,
    pub absent_since: Option<u64>,
    pub last_heard: Option<u64>,
    /// Whether no open connection brings its frames, or none has come for three seconds.
    pub is_silent: bool,
    /// Why the node and the peer don't take each other, in words behind the peer's name. No byte where they do.
    pub trouble: Text,
}

impl PeerNote {
    // Whether it says of that node that it is neither silent nor absent.
    fn says_heard(&self, id: u32) -> bool
        ensures { result ≡ says_heard id self.now }
    {
        self.peer.number() == id && !self.is_silent && self.absent_since.is_none()
    }
}

/// What is known of a running node beside its state.
#[derive(Clone, Copy)]
pub struct Live<'a> {
    pub version: &'a str,
    pub started: u64,
    pub now: u64,
    /// Since when the round has been under way, if one is.
    pub round_since: u64,
    pub disk: DiskShown,
    pub peers: &'a [PeerNote],
    pub counted: &'a Counted,
}

impl Live<'_> {
    /// What is known of that peer.
    pub fn note_of(&self, peer: NodeId) -> Option<&PeerNote> {
        self.peers.iter().find(|note| note.peer == peer)
    }
}

/// How many of the members are away: neither the node itself, nor heard by what is known of the peers.
pub(crate) fn count_away(members: &[u32], me: NodeId, notes: &[PeerNote]) -> u64
    ensures { result ≡ length (filter (is_away me notes.now) members.now) }
{
    let away = members.iter().filter(|id| is_away(**id, me, notes));
    away.count() as u64
}

fn is_away(id: u32, me: NodeId, notes: &[PeerNote]) -> bool
    ensures { result ≡ is_away me notes.now id }
{
    id != me.number() && !is_heard(id, notes)
}

fn is_heard(id: u32, notes: &[PeerNote]) -> bool
    ensures { result ≡ list_any (says_heard id) notes.now }
{
    notes.iter().any(|note| note.says_heard(id))
}
