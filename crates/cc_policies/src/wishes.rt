//! What workers ask of the flusher, each wish once.

ghost use Rattle.std.specs.Prelude.{◌≡◌, ◌==◌, ◌||◌, nat_le, length, drop, slice_get, IfOk, if◌then◌else◌};
ghost use Rattle.std.specs.Vec.{vec_capacity};
ghost use Rattle.cc_policies.specs.Wishes.{no_wishes, is_wished, wished, wish_limit};

use cc_views::{NoMemory, NodeId};
use std::alloc::Global;
use std::marker::Model;

/// The peers that wait for what was heard from them, and the sessions that wait for their last answer: each of them once,
/// however often it was asked for. Once made it takes no memory.
#[derive(Drop)]
pub struct Wishes {
    peers: Vec<NodeId>,
    sessions: Vec<u64>,
}

impl Model for Wishes {
    ghost use Rattle.std.specs.Vec.{vec_capacity};
    ghost use Rattle.cc_policies.specs.Wishes.{Wishing, IsWishing};

    ghost Value = { Wishing };

    ghost view = { λ w. record { peers = w.peers.items; sessions = w.sessions.items } };

    ghost invariant = { λ w. IsWishing (record { peers = w.peers.items; sessions = w.sessions.items }) (vec_capacity w.peers) (vec_capacity w.sessions) };
}

impl Wishes {
    /// How many peers wait at most, and how many sessions.
    pub const MAX_WAITING: usize = 256;

    /// No wish. NoMemory where a growth was refused.
    pub fn new(alloc: Global) -> Result<Self, NoMemory>
        ensures { IfOk result (λ w. w ≡ no_wishes) }
    {
        Ok(Wishes {
            peers: Vec::with_capacity(alloc, Self::MAX_WAITING)?,
            sessions: Vec::with_capacity(alloc, Self::MAX_WAITING)?,
        })
    }

    /// This peer is to be told again what was heard from it, unless 256 wait for that.
    pub fn reack(&mut self, peer: NodeId)
        ensures { self.new ≡ record { peers = wished peer self.old.peers; sessions = self.old.sessions } }
    {
        if !has_peer(&self.peers, peer) && self.peers.len() < Self::MAX_WAITING {
            self.peers.push(peer).unwrap();
        }
    }

    /// The last answer of this session is to be put out again, unless 256 wait for that.
    pub fn again(&mut self, session: u64)
        ensures { self.new ≡ record { peers = self.old.peers; sessions = wished session self.old.sessions } }
    {
        if !has_session(&self.sessions, session) && self.sessions.len() < Self::MAX_WAITING {
            self.sessions.push(session).unwrap();
        }
    }

    /// Takes the peer that has waited longest.
    pub fn next_peer(&mut self) -> Option<NodeId>
        ensures peer { result ≡ slice_get self.old.peers 0 }
        ensures rest { self.new ≡ record { peers = drop 1 self.old.peers; sessions = self.old.sessions } }
    {
        if self.peers.is_empty() {
            return None;
        }
        Some(self.peers.remove(0))
    }

    /// Takes the session that has waited longest.
    pub fn next_session(&mut self) -> Option<u64>
        ensures session { result ≡ slice_get self.old.sessions 0 }
        ensures rest { self.new ≡ record { peers = self.old.peers; sessions = drop 1 self.old.sessions } }
    {
        if self.sessions.is_empty() {
            return None;
        }
        Some(self.sessions.remove(0))
    }
}

fn has_peer(peers: &[NodeId], peer: NodeId) -> bool
    ensures { result ≡ is_wished peer peers.now }
{
    peers.iter().any(|other| *other == peer)
}

fn has_session(sessions: &[u64], session: u64) -> bool
    ensures { result ≡ is_wished session sessions.now }
{
    sessions.iter().any(|other| *other == session)
}
