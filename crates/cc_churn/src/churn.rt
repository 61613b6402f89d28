//! Who entered, joined and left, and how far the own entering has come.

ghost use Rattle.std.specs.Prelude.{◌≡◌, ◌+◌, ◌≤◌, ◌<◌, [], ◌∷◌, IfOk, is_some};
ghost use Rattle.cc_views.specs.Limits.{counter_limit, overruns};
ghost use Rattle.cc_views.specs.Rows.{ViewMap};
ghost use Rattle.cc_changes.specs.ChangeSets.{FitsRoom};
ghost use Rattle.cc_churn.specs.Churn as churn;
ghost use Rattle.cc_churn.specs.Refusals.{left, already_entered, not_entered, not_joined};
ghost use Rattle.cc_messages.specs.Refusals.{first_of, decided};

use cc_changes::{Changes, Fraction, need};
use cc_messages::{Message, Refusal};
use cc_views::{COUNTER_LIMIT, NoMemory, NodeId, View};
use std::alloc::Global;
use std::marker::Model;

/// Who entered, joined and left, as far as a node knows, and the echoes to its own Enter (CCC, churn management).
#[derive(Drop)]
pub struct Churn {
    changes: Changes,
    echoes: u64,
    // How many echoes are needed to join, 0 as long as that isn't known.
    need: u64,
}

impl Model for Churn {
    ghost use Rattle.std.specs.Prelude.{◌≤◌};
    ghost use Rattle.cc_views.specs.Limits.{counter_limit};
    ghost use Rattle.cc_churn.specs.Churn.{Churn as State, churn_code};

    ghost Value = { State };

    ghost coded = { churn_code };

    ghost view = { λ a. record { changes = a.changes; echoes = a.echoes; need = a.need } };

    ghost invariant = { λ a. a.echoes ≤ counter_limit };
}

impl Churn {
    /// Nobody entered, joined or left, and no echo came. The only error is a refused growth.
    pub fn new(alloc: Global) -> Result<Self, NoMemory>
        ensures { IfOk result (λ c. c ≡ churn.nobody) }
    {
        Ok(Churn {
            changes: Changes::new(alloc)?,
            echoes: 0,
            need: 0,
        })
    }

    /// With these changes, so many echoes, and so many needed to join (0 where that isn't known): for a decoder of
    /// states.
    pub fn from_parts(changes: Changes, echoes: u64, need: u64) -> Self
        requires { echoes ≤ counter_limit }
        ensures { result ≡ record { changes = changes; echoes = echoes; need = need } }
    {
        Churn {
            changes,
            echoes,
            need,
        }
    }

    /// The same in memory of its own. The only error is a refused growth.
    pub fn copy(&self, alloc: Global) -> Result<Self, NoMemory>
        ensures { IfOk result (λ c. c ≡ self.now) }
    {
        Ok(Churn {
            changes: self.changes.copy(alloc)?,
            echoes: self.echoes,
            need: self.need,
        })
    }

    /// Who entered, joined and left, as far as the node knows.
    pub fn changes(&self) -> &Changes
        ensures { result.now ≡ self.now.changes }
    {
        &self.changes
    }

    /// How many echoes to its own Enter the node has counted.
    pub fn echoes(&self) -> u64
        ensures echoes { result ≡ self.now.echoes }
        ensures limit { result ≤ counter_limit }
    {
        self.echoes
    }

    /// How many echoes are needed to join, 0 as long as that isn't known.
    pub fn need(&self) -> u64
        ensures { result ≡ self.now.need }
    {
        self.need
    }

    /// Whether the node is known to have entered.
    pub fn has_entered(&self, id: NodeId) -> bool
        ensures { result ≡ churn.has_entered id self.now }
    {
        self.changes.has_entered(id)
    }

    /// Whether the node is known to have joined.
    pub fn has_joined(&self, id: NodeId) -> bool
        ensures { result ≡ churn.has_joined id self.now }
    {
        self.changes.has_joined(id)
    }

    /// Whether the node is known to have left.
    pub fn has_left(&self, id: NodeId) -> bool
        ensures { result ≡ churn.has_left id self.now }
    {
        self.changes.has_left(id)
    }

    /// How many answers an operation needs that begins now: that share of the members, rounded up, and at least 1
    /// (CCC, client).
    pub fn quorum(&self, beta: Fraction) -> u64
        requires positive { 0 < beta.num }
        requires share { beta.num ≤ beta.den }
        ensures { result ≡ churn.quorum beta self.now }
    {
        need(beta, self.changes.member_count())
    }

    /// The node is known to have entered: how a node's own entering begins, and the first members are told of one
    /// another (CCC, churn management).
    pub fn enter(&mut self, id: NodeId)
        requires { FitsRoom (churn.with_entered id self.old).changes }
        ensures { self.new ≡ churn.with_entered id self.old }
    {
        self.changes.add_enter(id);
    }

    /// The node is known to have left: a node's own leaving (CCC, churn management), or the retiring of one that is
    /// dead.
    pub fn leave(&mut self, id: NodeId)
        requires { FitsRoom (churn.with_left id self.old).changes }
        ensures { self.new ≡ churn.with_left id self.old }
    {
        self.changes.add_leave(id);
    }

    /// Takes a message of the node `me`: what it tells is added, and an echo to the own Enter is counted until `me` has
    /// joined. The first such echo of a joined node fixes how many are needed, the share `gamma` of those present, and
    /// with the last of them `me` joins (CCC, churn management).
    pub fn apply(&mut self, me: NodeId, gamma: Fraction, message: &Message)
        requires positive { 0 < gamma.num }
        requires share { gamma.num ≤ gamma.den }
        requires fits { FitsRoom (churn.after_message me gamma message.now self.old).changes }
        requires echoes { (churn.after_message me gamma message.now self.old).echoes ≤ counter_limit }
        ensures { self.new ≡ churn.after_message me gamma message.now self.old }
    {
        match message {
            Message::Enter { node } => self.changes.add_enter(*node),
            Message::EnterEcho {
                changes,
                is_joined,
                node,
                ..
            } => {
                self.changes.union(changes);
                if *node == me && !self.changes.has_joined(me) {
                    self.count_echo(me, gamma, *is_joined);
                }
            }
            Message::Join { node } => self.changes.add_join(*node),
            Message::JoinEcho { node } => self.changes.add_join(*node),
            Message::Leave { node } => self.changes.add_leave(*node),
            Message::LeaveEcho { node } => self.changes.add_leave(*node),
            Message::Query { .. }
            | Message::QueryReply { .. }
            | Message::Store { .. }
            | Message::StoreAck { .. } => {}
            Message::Snapshot { changes, .. } => self.changes.union(changes),
        }
    }

    /// A snapshot, already taken, told what a lapsed echo to the own Enter told: it counts as that echo, of a joined node.
    /// With the last that is needed `me` joins.
    pub fn count_told(&mut self, me: NodeId, gamma: Fraction)
        requires positive { 0 < gamma.num }
        requires share { gamma.num ≤ gamma.den }
        requires fits { FitsRoom (churn.told me gamma self.old).changes }
        requires echoes { self.old.echoes + 1 ≤ counter_limit }
        ensures { self.new ≡ churn.told me gamma self.old }
    {
        self.count_echo(me, gamma, true);
    }

    // One more echo to the own Enter. The first of a joined node says how many are needed.
    fn count_echo(&mut self, me: NodeId, gamma: Fraction, from_joined: bool)
        requires positive { 0 < gamma.num }
        requires share { gamma.num ≤ gamma.den }
        requires fits { FitsRoom (churn.echoed me gamma from_joined self.old).changes }
        requires echoes { self.old.echoes + 1 ≤ counter_limit }
        ensures { self.new ≡ churn.echoed me gamma from_joined self.old }
    {
        if from_joined && self.need == 0 {
            self.need = need(gamma, self.changes.present_count());
        }
        self.echoes += 1;
        if self.need != 0 && self.need <= self.echoes {
            self.changes.add_join(me);
        }
    }

    /// What a message is answered with: an Enter, a Join and a Leave with an echo, and the echo with which `me` joins
    /// with its Join; `view` is what the node has seen (CCC, churn management). The only error is a refused growth.
    #[tactic(auto, using(crate::proofs::Joins::join_posted))]
    pub fn post(
        &self,
        alloc: Global,
        me: NodeId,
        gamma: Fraction,
        view: &View,
        message: &Message,
    ) -> Result<Option<Message>, NoMemory>
        requires positive { 0 < gamma.num }
        requires share { gamma.num ≤ gamma.den }
        requires fits { FitsRoom (churn.after_message me gamma message.now self.now).changes }
        ensures { IfOk result (λ p. p ≡ churn.post_of me view.now message.now self.now (churn.after_message me gamma message.now self.now)) }
    {
        match message {
            Message::Enter { node } => {
                let mut changes = self.changes.copy(alloc)?;
                changes.add_enter(*node);
                let is_joined = changes.has_joined(me);
                let Ok(view) = view.copy(alloc) else {
                    drop(changes);
                    return Err(NoMemory);
                };
                Ok(Some(Message::EnterEcho {
                    changes,
                    view,
                    is_joined,
                    node: *node,
                }))
            }
            Message::EnterEcho {
                changes,
                is_joined,
                node,
                ..
            } => {
                if *node == me && self.joins_by(me, gamma, changes, *is_joined) {
                    return Ok(Some(Message::Join { node: me }));
                }
                Ok(None)
            }
            Message::Join { node } => Ok(Some(Message::JoinEcho { node: *node })),
            Message::Leave { node } => Ok(Some(Message::LeaveEcho { node: *node })),
            _ => Ok(None),
        }
    }

    /// Whether a message is answered with a post; needs no memory.
    #[tactic(auto, using(crate::proofs::Joins::posts_join))]
    pub fn makes_post(&self, me: NodeId, gamma: Fraction, message: &Message) -> bool
        requires positive { 0 < gamma.num }
        requires share { gamma.num ≤ gamma.den }
        ensures { (view : ViewMap) → result ≡ is_some (churn.post_of me view message.now self.now (churn.after_message me gamma message.now self.now)) }
    {
        match message {
            Message::Enter { .. } | Message::Join { .. } | Message::Leave { .. } => true,
            Message::EnterEcho {
                changes,
                is_joined,
                node,
                ..
            } => *node == me && self.joins_by(me, gamma, changes, *is_joined),
            _ => false,
        }
    }

    // Whether the node joins with an echo to its Enter that tells these changes.
    fn joins_by(&self, me: NodeId, gamma: Fraction, told: &Changes, from_joined: bool) -> bool
        requires positive { 0 < gamma.num }
        requires share { gamma.num ≤ gamma.den }
        ensures { result ≡ churn.joins_by me gamma told.now from_joined self.now }
    {
        if self.knows_join(me, told) {
            return false;
        }
        self.is_answered_by(gamma, told, from_joined)
    }

    /// Whether the node joins with a snapshot that tells these changes and counts as an echo; needs no memory.
    pub fn joins_told(&self, gamma: Fraction, told: &Changes) -> bool
        requires positive { 0 < gamma.num }
        requires share { gamma.num ≤ gamma.den }
        ensures { result ≡ churn.joins_told gamma (churn.united told.now self.now) }
    {
        self.is_answered_by(gamma, told, true)
    }

    // Whether enough echoes came, with one more that tells these changes.
    fn is_answered_by(&self, gamma: Fraction, told: &Changes, from_joined: bool) -> bool
        requires positive { 0 < gamma.num }
        requires share { gamma.num ≤ gamma.den }
        ensures { result ≡ churn.is_answered (churn.with_echo (churn.with_need gamma from_joined (churn.united told.now self.now))) }
    {
        let mut needed = self.need;
        if from_joined && needed == 0 {
            needed = need(gamma, self.changes.present_count_with(told));
        }
        needed != 0 && needed <= self.echoes + 1
    }

    /// Whether the message would raise the count of echoes past its limit, `2 ^ 62`.
    pub fn is_spent(&self, me: NodeId, gamma: Fraction, message: &Message) -> bool
        ensures { result ≡ overruns self.now.echoes (churn.after_message me gamma message.now self.now).echoes }
    {
        match message {
            Message::EnterEcho { changes, node, .. } => {
                self.echoes == COUNTER_LIMIT && *node == me && !self.knows_join(me, changes)
            }
            _ => false,
        }
    }

    /// Why the node can't enter, if it can't: it has left, or entered before.
    pub fn decide_enter(&self, me: NodeId) -> Result<(), Refusal>
        ensures { result ≡ decided (first_of (left me self.now ∷ already_entered me self.now ∷ [])) }
    {
        if self.has_left(me) {
            return Err(Refusal::Left);
        }
        if self.has_entered(me) {
            return Err(Refusal::AlreadyEntered);
        }
        Ok(())
    }

    /// Why the node can't leave, if it can't: it has left, or hasn't entered.
    pub fn decide_leave(&self, me: NodeId) -> Result<(), Refusal>
        ensures { result ≡ decided (first_of (left me self.now ∷ not_entered me self.now ∷ [])) }
    {
        self.decide_inside(me)
    }

    /// Why the node `me` can't retire a node, itself maybe, if it can't: one of them has left, or `me` hasn't entered.
    pub fn decide_retire(&self, me: NodeId, node: NodeId) -> Result<(), Refusal>
        ensures { result ≡ decided (first_of (left me self.now ∷ left node self.now ∷ not_entered me self.now ∷ [])) }
    {
        if self.has_left(me) || self.has_left(node) {
            return Err(Refusal::Left);
        }
        self.decide_inside(me)
    }

    /// Why the node can't take a message, if it can't: it has left, or hasn't entered.
    pub fn decide_delivery(&self, me: NodeId) -> Result<(), Refusal>
        ensures { result ≡ decided (first_of (left me self.now ∷ not_entered me self.now ∷ [])) }
    {
        self.decide_inside(me)
    }

    /// Why the node can't be asked, if it can't: it has left, hasn't entered, or hasn't joined.
    pub fn decide_ask(&self, me: NodeId) -> Result<(), Refusal>
        ensures { result ≡ decided (first_of (left me self.now ∷ not_entered me self.now ∷ not_joined me self.now ∷ [])) }
    {
        self.decide_inside(me)?;
        if !self.has_joined(me) {
            return Err(Refusal::NotJoined);
        }
        Ok(())
    }

    // Why the node isn't between its entering and its leaving, if it isn't.
    fn decide_inside(&self, me: NodeId) -> Result<(), Refusal>
        ensures { result ≡ decided (first_of (left me self.now ∷ not_entered me self.now ∷ [])) }
    {
        if self.has_left(me) {
            return Err(Refusal::Left);
        }
        if !self.has_entered(me) {
            return Err(Refusal::NotEntered);
        }
        Ok(())
    }

    /// Whether the node has joined, as far as it and the sender of these changes know.
    #[tactic(auto, using(crate::proofs::Fits::has_joined_united))]
    pub fn knows_join(&self, me: NodeId, changes: &Changes) -> bool
        ensures { result ≡ churn.has_joined me (churn.united changes.now self.now) }
    {
        self.has_joined(me) || changes.has_joined(me)
    }
}
