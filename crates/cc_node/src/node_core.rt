//! The core of a node: a composition of its parts.

ghost use Rattle.std.specs.Prelude.{◌≡◌, ◌-◌, ◌<◌, ◌&&◌, ◌↔◌, None, Some, IfOk, IfSome, IsTrue, is_some, slice_get};
ghost use Rattle.std.specs.FinMap as table;
ghost use Rattle.cc_churn.specs.Churn as churn;
ghost use Rattle.cc_links.specs.Links as links;
ghost use Rattle.cc_links.specs.Rows.{rows_of};
ghost use Rattle.cc_ops.specs.Stages.{stage_of};
ghost use Rattle.cc_node.specs.Core as machine;
ghost use Rattle.cc_node.specs.Lawful.{IsLawfulCore};
ghost use Rattle.cc_node.specs.Openings.{told, fresh, IsOpening};
ghost use Rattle.cc_node.specs.Parts.{core_of};

use crate::core_parts::CoreParts;
use crate::opening::Opening;
use cc_changes::Fraction;
use cc_churn::Churn;
use cc_links::{LinkRow, Links};
use cc_ops::{Ops, Stage};
use cc_sessions::Sessions;
use cc_views::{NoMemory, NodeId, View};
use std::alloc::Global;
use std::marker::Model;

/// The state of a node, up to what it keeps to put out again.
#[derive(Drop)]
pub struct Core {
    pub(crate) me: NodeId,
    pub(crate) beta: Fraction,
    pub(crate) gamma: Fraction,
    pub(crate) churn: Churn,
    pub(crate) ops: Ops,
    // How many posts were ever made.
    pub(crate) posts: u64,
    pub(crate) links: Links,
    pub(crate) sessions: Sessions,
}

impl Model for Core {
    ghost use Rattle.cc_node.specs.Core.{Core as State};
    ghost use Rattle.cc_node.specs.Codes.{core_code};
    ghost use Rattle.cc_node.specs.Lawful.{IsLawfulCore};

    ghost Value = { State };

    ghost coded = { core_code };

    ghost view = { λ a. record {
      me = a.me;
      beta = a.beta;
      gamma = a.gamma;
      churn = a.churn;
      ops = a.ops;
      posts = a.posts;
      links = a.links;
      sessions = a.sessions;
    } };

    ghost invariant = { λ a. IsLawfulCore (record {
      me = a.me;
      beta = a.beta;
      gamma = a.gamma;
      churn = a.churn;
      ops = a.ops;
      posts = a.posts;
      links = a.links;
      sessions = a.sessions;
    }) };
}

impl Core {
    // The core of a node that begins so.
    pub(crate) fn begun(alloc: Global, opening: &Opening<'_>) -> Result<Self, NoMemory>
        requires { IsOpening (told opening.now) }
        ensures { IfOk result (λ c. c ≡ (fresh (told opening.now)).core) }
    {
        let me = NodeId::new(opening.me).unwrap();
        let changes = opening.changes(alloc)?;
        let Ok(ops) = Ops::new(alloc, opening.share) else {
            drop(changes);
            return Err(NoMemory);
        };
        let Ok(links) = opening.links(alloc) else {
            drop((changes, ops));
            return Err(NoMemory);
        };
        let Ok(sessions) = Sessions::new(alloc) else {
            drop((changes, ops, links));
            return Err(NoMemory);
        };
        Ok(Core {
            me,
            beta: opening.beta,
            gamma: opening.gamma,
            churn: Churn::from_parts(changes, 0, 0),
            ops,
            posts: 0,
            links,
            sessions,
        })
    }

    // The core of these parts. None where they make no lawful one.
    pub(crate) fn restored(parts: CoreParts) -> Option<Self>
        ensures lawful { IsTrue (is_some result) ↔ IsLawfulCore (core_of parts) }
        ensures core { IfSome result (λ c. c ≡ core_of parts) }
    {
        if !parts.are_lawful() {
            drop(parts);
            return None;
        }
        Some(Core {
            me: parts.me,
            beta: parts.beta,
            gamma: parts.gamma,
            churn: parts.churn,
            ops: parts.ops,
            posts: parts.posts,
            links: parts.links,
            sessions: parts.sessions,
        })
    }

    /// The same in memory of its own. The only error is a refused growth.
    pub fn copy(&self, alloc: Global) -> Result<Self, NoMemory>
        ensures { IfOk result (λ c. c ≡ self.now) }
    {
        let churn = self.churn.copy(alloc)?;
        let Ok(ops) = self.ops.copy(alloc) else {
            drop(churn);
            return Err(NoMemory);
        };
        let Ok(links) = self.links.copy(alloc) else {
            drop((churn, ops));
            return Err(NoMemory);
        };
        let Ok(sessions) = self.sessions.copy(alloc) else {
            drop((churn, ops, links));
            return Err(NoMemory);
        };
        Ok(Core {
            me: self.me,
            beta: self.beta,
            gamma: self.gamma,
            churn,
            ops,
            posts: self.posts,
            links,
            sessions,
        })
    }

    /// Its own name.
    pub fn me(&self) -> NodeId
        ensures { result ≡ self.now.me }
    {
        self.me
    }

    /// The share of the members whose answers an operation waits for.
    pub fn beta(&self) -> Fraction
        ensures { result ≡ self.now.beta }
    {
        self.beta
    }

    /// The share of those present whose echoes an entering node waits for.
    pub fn gamma(&self) -> Fraction
        ensures { result ≡ self.now.gamma }
    {
        self.gamma
    }

    /// Who entered, joined and left, and how far the own entering has come.
    pub fn churn(&self) -> &Churn
        ensures { result.now ≡ self.now.churn }
    {
        &self.churn
    }

    /// The view, the own value and the pending operation.
    pub fn ops(&self) -> &Ops
        ensures { result.now ≡ self.now.ops }
    {
        &self.ops
    }

    /// What each node stored last, as far as this node has seen.
    pub fn view(&self) -> &View
        ensures { result.now ≡ self.now.ops.view }
    {
        self.ops.view()
    }

    /// How far the pending operation has come.
    pub fn phase(&self) -> Stage
        ensures { result ≡ stage_of self.now.ops.phase }
    {
        self.ops.stage()
    }

    /// Whether the node has joined.
    pub fn is_joined(&self) -> bool
        ensures { result ≡ churn.has_joined self.now.me self.now.churn }
    {
        self.churn.has_joined(self.me)
    }

    /// How many posts were ever made.
    pub fn posts(&self) -> u64
        ensures { result ≡ self.now.posts }
    {
        self.posts
    }

    /// The last message that came from a node, 0 for none.
    pub fn heard(&self, from: NodeId) -> u64
        ensures { result ≡ links.heard_from from self.now.links }
    {
        self.links.heard(from)
    }

    /// The links, by ascending peer.
    pub fn links(&self) -> &Links
        ensures { result.now ≡ self.now.links }
    {
        &self.links
    }

    /// The last request of each session.
    pub fn sessions(&self) -> &Sessions
        ensures { result.now ≡ self.now.sessions }
    {
        &self.sessions
    }

    /// The link of the `i`-th peer in ascending order.
    pub fn link(&self, i: usize) -> Option<LinkRow>
        ensures { result ≡ slice_get (rows_of self.now.links) i }
    {
        self.links.rows().get(i).copied()
    }

    /// Whether the peer has a link and hasn't left.
    pub fn is_live(&self, peer: NodeId) -> bool
        ensures { result ≡ table.contains_key (machine.live_links self.now) peer }
    {
        self.links.get(peer).is_some() && !self.churn.has_left(peer)
    }

    /// The last post that every live link has acknowledged, and the last of all posts where no link is live. The posts
    /// above it are kept.
    pub fn lowest(&self) -> u64
        ensures { result ≡ machine.lowest self.now }
    {
        self.links
            .lowest_needed(self.churn.changes().left(), self.posts)
    }

    // How many answers an operation needs that begins now.
    pub(crate) fn quorum(&self) -> u64
        ensures { result ≡ machine.quorum self.now }
    {
        self.churn.quorum(self.beta)
    }
}
