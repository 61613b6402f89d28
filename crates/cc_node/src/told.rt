//! What a snapshot makes of a node beside a union and a merge: it may count as an echo, and the pending phase may begin
//! anew.

ghost use Rattle.std.specs.Prelude.{◌≡◌, ◌+◌, ◌<◌, ◌≤◌, ◌==◌, ◌&&◌, ℕ, None, IfOk, true, is_some};
ghost use Rattle.std.specs.FinMap as table;
ghost use Rattle.cc_views.specs.Limits.{counter_limit, known_limit};
ghost use Rattle.cc_views.specs.Rows.{ViewMap};
ghost use Rattle.cc_changes.specs.ChangeSets.{FitsRoom};
ghost use Rattle.cc_churn.specs.Churn as churn;
ghost use Rattle.cc_ops.specs.Ops as ops;
ghost use Rattle.cc_links.specs.Links as links;
ghost use Rattle.cc_messages.specs.Messages.{is_snapshot};
ghost use Rattle.cc_messages.specs.declared.event.Event.TheVariants as event;
ghost use Rattle.cc_messages.specs.declared.message.Message.{Message};
ghost use Rattle.cc_messages.specs.declared.message.Message.TheVariants as message;
ghost use Rattle.cc_node.specs.Core as machine;
ghost use Rattle.cc_node.specs.Refusals.{decides, any_overruns};

use crate::made::{LinkAck, Made};
use crate::node_core::Core;
use cc_changes::{Changes, Fraction};
use cc_churn::Churn;
use cc_messages::Message;
use cc_ops::{Ops, Replies};
use cc_views::{COUNTER_LIMIT, NoMemory, NodeId, View};
use std::alloc::Global;

impl Core {
    // Whether a number leaves out some that were sent before it.
    fn skips(&self, from: NodeId, number: u64) -> bool
        ensures { result ≡ machine.skips self.now from number }
    {
        number.saturating_sub(self.heard(from)) > 1
    }

    // From how many peers something was heard, once something is from this one.
    fn heard_with(&self, from: NodeId) -> u64
        ensures { (n : ℕ) (m : Message) → 0 < n → result ≡ links.heard_of (machine.links_heard self.now from n m) }
    {
        let heard = self.links.heard_of() as u64;
        if self.heard(from) == 0 {
            heard + 1
        } else {
            heard
        }
    }

    // Whether fewer echoes were counted than nodes were heard of, this one among them, and the node hasn't joined.
    fn lacks_echo(&self, from: NodeId, told: &Changes) -> bool
        ensures { (n : ℕ) (view : ViewMap) → 0 < n
            → result ≡ machine.lacks_echo self.now from n (message.Snapshot told.now view) }
    {
        if self.churn.knows_join(self.me, told) {
            return false;
        }
        self.churn.echoes() < self.heard_with(from)
    }

    // Whether a snapshot that tells these changes counts as an echo to the own Enter.
    fn is_told_by(&self, from: NodeId, number: u64, told: &Changes) -> bool
        requires { links.heard_from from self.now.links < number }
        ensures { (view : ViewMap) → result ≡ machine.tells self.now from number (message.Snapshot told.now view) }
    {
        if !told.has_entered(self.me) {
            return false;
        }
        if !self.skips(from, number) {
            return false;
        }
        self.lacks_echo(from, told)
    }

    // Whether the message is a snapshot that counts as an echo to the own Enter.
    pub(crate) fn tells(&self, from: NodeId, number: u64, message: &Message) -> bool
        requires { links.heard_from from self.now.links < number }
        ensures { result ≡ machine.tells self.now from number message.now }
    {
        match message {
            Message::Snapshot { changes, .. } => self.is_told_by(from, number, changes),
            _ => false,
        }
    }

    // Whether the pending phase begins anew with the message: the own snapshot, or one that skips.
    pub(crate) fn asks_anew(&self, from: NodeId, number: u64, message: &Message) -> bool
        ensures { result ≡ machine.asks_anew self.now from number message.now }
    {
        if !message.is_snapshot() {
            return false;
        }
        if self.ops.is_idle() {
            return false;
        }
        from == self.me || self.skips(from, number)
    }

    // Whether the node joins with a snapshot that tells these changes.
    fn joins_told(&self, from: NodeId, number: u64, told: &Changes) -> bool
        requires { links.heard_from from self.now.links < number }
        ensures { (view : ViewMap) → result
            ≡ is_some (machine.join_told self.now from number (message.Snapshot told.now view)) }
    {
        if !self.is_told_by(from, number, told) {
            return false;
        }
        self.churn.joins_told(self.gamma, told)
    }

    // Whether a snapshot is answered with a post.
    pub(crate) fn makes_told(&self, from: NodeId, number: u64, message: &Message) -> bool
        requires snapshot { is_snapshot message.now ≡ true }
        requires above { links.heard_from from self.now.links < number }
        ensures { result ≡ is_some (machine.post self.now (event.Deliver from number message.now)) }
    {
        match message {
            Message::Snapshot { changes, .. } => {
                if self.joins_told(from, number, changes) {
                    return true;
                }
                self.asks_anew(from, number, message)
            }
            _ => false,
        }
    }

    // Whether a counter stands at its limit that a snapshot would raise, or the number is past it.
    pub(crate) fn told_is_spent(
        &self,
        from: NodeId,
        number: u64,
        message: &Message,
        makes_post: bool,
    ) -> bool
        requires snapshot { is_snapshot message.now ≡ true }
        requires above { links.heard_from from self.now.links < number }
        requires posts { makes_post ≡ is_some (machine.post self.now (event.Deliver from number message.now)) }
        ensures { result ≡ any_overruns self.now (machine.next self.now (event.Deliver from number message.now))
            (event.Deliver from number message.now) }
    {
        if self.anew_is_spent(from, number, message) {
            return true;
        }
        if self.posts_are_spent(makes_post) {
            return true;
        }
        if self.echo_is_spent(from, number, message) {
            return true;
        }
        number > COUNTER_LIMIT
    }

    // Whether a phase begins anew with the message, and the tag stands at its limit.
    fn anew_is_spent(&self, from: NodeId, number: u64, message: &Message) -> bool
        ensures { result ≡ (machine.asks_anew self.now from number message.now && (self.now.ops.tag == counter_limit)) }
    {
        self.asks_anew(from, number, message) && self.ops.anew_is_spent()
    }

    // Whether the message counts as an echo, and their count stands at its limit.
    fn echo_is_spent(&self, from: NodeId, number: u64, message: &Message) -> bool
        requires { links.heard_from from self.now.links < number }
        ensures { result ≡ (machine.tells self.now from number message.now
            && (self.now.churn.echoes == counter_limit)) }
    {
        self.tells(from, number, message) && self.churn.echoes() == COUNTER_LIMIT
    }

    // What the phase asks that begins anew with a snapshot of this view, if one does.
    fn question(
        &self,
        alloc: Global,
        from: NodeId,
        number: u64,
        message: &Message,
        told: &View,
    ) -> Result<Option<Message>, NoMemory>
        requires fits { table.len (ops.merged told.now self.now.ops).view ≤ known_limit }
        requires tag { machine.asks_anew self.now from number message.now ≡ true
            → self.now.ops.tag + 1 ≤ counter_limit }
        ensures { (quorum : ℕ) → IfOk result
            (λ p. p ≡ machine.question_if (machine.asks_anew self.now from number message.now)
            self.now.me quorum (ops.merged told.now self.now.ops)) }
    {
        if !self.asks_anew(from, number, message) {
            return Ok(None);
        }
        self.ops.question(alloc, self.me, told)
    }

    // What a snapshot is answered with. The only error is a refused growth.
    fn post_of_snapshot(
        &self,
        alloc: Global,
        from: NodeId,
        number: u64,
        message: &Message,
    ) -> Result<Option<Message>, NoMemory>
        requires snapshot { is_snapshot message.now ≡ true }
        requires taken { decides self.now (event.Deliver from number message.now) ≡ None }
        ensures { IfOk result (λ p. p ≡ machine.post_of_snapshot self.now from number message.now) }
    {
        match message {
            Message::Snapshot { changes, view } => {
                if self.joins_told(from, number, changes) {
                    return Ok(Some(Message::Join { node: self.me }));
                }
                self.question(alloc, from, number, message, view)
            }
            _ => Ok(None),
        }
    }

    // What a delivery of a snapshot makes, which isn't refused. The only error is a refused growth.
    pub(crate) fn made_of_told(
        &self,
        alloc: Global,
        from: NodeId,
        number: u64,
        message: &Message,
    ) -> Result<Made, NoMemory>
        requires snapshot { is_snapshot message.now ≡ true }
        requires taken { decides self.now (event.Deliver from number message.now) ≡ None }
        ensures { IfOk result (λ m. m ≡ machine.made self.now (event.Deliver from number message.now)) }
    {
        let post = self.post_of_snapshot(alloc, from, number, message)?;
        Ok(Made {
            ack: Some(LinkAck { to: from, number }),
            post,
            answers: Replies::none(),
        })
    }
}

// A snapshot that counts as an echo is counted.
pub(crate) fn count_told(churn: &mut Churn, told: bool, me: NodeId, gamma: Fraction)
    requires positive { 0 < gamma.num }
    requires share { gamma.num ≤ gamma.den }
    requires fits { FitsRoom (machine.told_if told me gamma churn.old).changes }
    requires echoes { told ≡ true → churn.old.echoes + 1 ≤ counter_limit }
    ensures { churn.new ≡ machine.told_if told me gamma churn.old }
{
    if told {
        churn.count_told(me, gamma);
    }
}

// The pending phase begins anew, where it does.
pub(crate) fn ask_anew(ops: &mut Ops, anew: bool, quorum: u64)
    requires some { 1 ≤ quorum }
    requires few { quorum ≤ known_limit }
    requires tag { anew ≡ true → ops.old.tag + 1 ≤ counter_limit }
    ensures { ops.new ≡ machine.anew_if anew quorum ops.old }
{
    if anew {
        ops.ask_anew(quorum);
    }
}
