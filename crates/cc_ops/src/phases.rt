//! How an operation goes from phase to phase and ends, and what is posted and told on the way.

ghost use Rattle.std.specs.Prelude.{◌≡◌, ℕ, ◌+◌, ◌≤◌, ◌||◌, [], ◌∷◌, map, if◌then◌else◌, Some, IfOk, IsFalse, is_some, option_map};
ghost use Rattle.std.specs.Bool.{then_some};
ghost use Rattle.std.specs.FinMap.{len};
ghost use Rattle.cc_views.specs.Limits.{counter_limit, known_limit, overruns};
ghost use Rattle.cc_messages.specs.declared.message.Message.TheVariants as message;
ghost use Rattle.cc_ops.specs.Ops as ops;
ghost use Rattle.cc_ops.specs.Ops.{IsWaiting};
ghost use Rattle.cc_ops.specs.Refusals.{passes};
ghost use Rattle.cc_ops.specs.WaitingAsks.{first_in};

use crate::commands::{answer_of, is_writing};
use crate::ops::Ops;
use crate::pending_operation::{Asked, Pending, Reply, counted, is_last, round_of};
use crate::replies::Replies;
use crate::round_selection::{take_round, value_of_round, writes_of_round};
use crate::stage::Stage;
use cc_messages::Message;
use cc_views::{COUNTER_LIMIT, NoMemory, NodeId, Row, View};
use std::alloc::Global;

impl Ops {
    /// Takes a message: views that it carries are merged, and an operation goes on only by answers to its own tag. A
    /// read that has its replies needs `quorum` acknowledgements of what it stores back (CCC, client and server). With the
    /// last acknowledgement the first round of the asks that wait begins. It takes no memory.
    pub fn apply(&mut self, me: NodeId, quorum: u64, message: &Message)
        requires some { 1 ≤ quorum }
        requires few { quorum ≤ known_limit }
        requires fits { len (ops.after_message me quorum message.now self.old).view ≤ known_limit }
        requires number { (ops.after_message me quorum message.now self.old).number ≤ counter_limit }
        requires tag { (ops.after_message me quorum message.now self.old).tag ≤ counter_limit }
        ensures { self.new ≡ ops.after_message me quorum message.now self.old }
    {
        match message {
            Message::EnterEcho { view, .. } => self.view.merge(view),
            Message::Store { view, .. } => self.view.merge(view),
            Message::Snapshot { view, .. } => self.view.merge(view),
            Message::QueryReply { view, tag, node } => {
                if self.is_own(me, *tag, *node) {
                    self.take_reply(quorum, view);
                }
            }
            Message::StoreAck { tag, node } => {
                if self.is_own(me, *tag, *node) {
                    self.take_ack(me, quorum);
                }
            }
            Message::Enter { .. }
            | Message::Join { .. }
            | Message::JoinEcho { .. }
            | Message::Leave { .. }
            | Message::LeaveEcho { .. }
            | Message::Query { .. } => {}
        }
    }

    // Whether an answer for that node under that tag is to the pending round.
    fn is_own(&self, me: NodeId, tag: u64, node: NodeId) -> bool
        ensures { result ≡ ops.is_own me tag node self.now }
    {
        node == me && tag == self.tag
    }

    // One more reply to the query. With the last one, what is seen by then is stored back.
    fn take_reply(&mut self, quorum: u64, view: &View)
        requires some { 1 ≤ quorum }
        requires few { quorum ≤ known_limit }
        requires fits { len (ops.after_reply quorum view.now self.old.phase self.old).view ≤ known_limit }
        requires tag { (ops.after_reply quorum view.now self.old.phase self.old).tag ≤ counter_limit }
        ensures { self.new ≡ ops.after_reply quorum view.now self.old.phase self.old }
    {
        let stage = self.stage;
        if let Stage::Querying(pending) = stage {
            self.view.merge(view);
            if is_last(&pending) {
                self.seen.copy_from(&self.view);
                self.tag += 1;
                self.stage = Stage::StoringBack(round_of(&pending.asked, quorum));
            } else {
                self.stage = Stage::Querying(counted(&pending));
            }
        }
    }

    // One more acknowledgement of the store. With the last one the operation is done.
    fn take_ack(&mut self, me: NodeId, quorum: u64)
        requires some { 1 ≤ quorum }
        requires few { quorum ≤ known_limit }
        requires fits { len (ops.after_ack me quorum self.old.phase self.old).view ≤ known_limit }
        requires number { (ops.after_ack me quorum self.old.phase self.old).number ≤ counter_limit }
        requires tag { (ops.after_ack me quorum self.old.phase self.old).tag ≤ counter_limit }
        ensures { self.new ≡ ops.after_ack me quorum self.old.phase self.old }
    {
        let stage = self.stage;
        match stage {
            Stage::Idle | Stage::Querying(_) => {}
            Stage::Storing(pending) if is_last(&pending) => self.begin_first(me, quorum),
            Stage::Storing(pending) => self.stage = Stage::Storing(counted(&pending)),
            Stage::StoringBack(pending) if is_last(&pending) => self.begin_first(me, quorum),
            Stage::StoringBack(pending) => self.stage = Stage::StoringBack(counted(&pending)),
        }
    }

    // The round is done: the first one of the asks that wait begins.
    fn begin_first(&mut self, me: NodeId, quorum: u64)
        requires pending { IsFalse (ops.is_idle self.old.phase) }
        requires some { 1 ≤ quorum }
        requires few { quorum ≤ known_limit }
        requires fits { len (ops.after_last me quorum self.old).view ≤ known_limit }
        requires number { (ops.after_last me quorum self.old).number ≤ counter_limit }
        requires tag { (ops.after_last me quorum self.old).tag ≤ counter_limit }
        ensures { self.new ≡ ops.after_last me quorum self.old }
    {
        let round = take_round(
            &mut self.line,
            self.share,
            &mut self.others,
            &mut self.spare,
        );
        match round {
            Some(asked) => self.begin(me, quorum, &asked),
            None => self.stage = Stage::Idle,
        }
    }

    /// What a message is answered with. A node serves others only once it has joined (CCC, server); the last reply to the
    /// own query is answered with a Store of what is seen by then (CCC, client), and the last acknowledgement with what
    /// the first round of the asks that wait begins with. The only error is a refused growth.
    pub fn post(
        &self,
        alloc: Global,
        me: NodeId,
        quorum: u64,
        is_joined: bool,
        message: &Message,
    ) -> Result<Option<Message>, NoMemory>
        requires fits { len (ops.after_message me quorum message.now self.now).view ≤ known_limit }
        requires number { (ops.after_message me quorum message.now self.now).number ≤ counter_limit }
        requires tag { (ops.after_message me quorum message.now self.now).tag ≤ counter_limit }
        ensures { IfOk result (λ p. p ≡ ops.post_of me is_joined message.now self.now (ops.after_message me quorum message.now self.now)) }
    {
        match message {
            Message::Query { tag, node } if is_joined => Ok(Some(Message::QueryReply {
                view: self.view.copy(alloc)?,
                tag: *tag,
                node: *node,
            })),
            Message::Store { tag, node, .. } if is_joined => Ok(Some(Message::StoreAck {
                tag: *tag,
                node: *node,
            })),
            Message::QueryReply { view, tag, node } if self.is_own(me, *tag, *node) => {
                self.post_of_reply(alloc, me, quorum, view)
            }
            Message::StoreAck { tag, node } if self.is_own(me, *tag, *node) => {
                self.post_of_ack(alloc, me, quorum)
            }
            _ => Ok(None),
        }
    }

    // With the last reply to the query, what is seen by then is stored back.
    fn post_of_reply(
        &self,
        alloc: Global,
        me: NodeId,
        quorum: u64,
        view: &View,
    ) -> Result<Option<Message>, NoMemory>
        requires fits { len (ops.after_reply quorum view.now self.now.phase self.now).view ≤ known_limit }
        requires tag { (ops.after_reply quorum view.now self.now.phase self.now).tag ≤ counter_limit }
        ensures { IfOk result (λ p. p ≡ then_some (ops.ends_query self.now.phase)
            (message.Store (ops.after_reply quorum view.now self.now.phase self.now).view (ops.after_reply quorum view.now self.now.phase self.now).tag me)) }
    {
        let stage = self.stage;
        if let Stage::Querying(pending) = stage {
            if is_last(&pending) {
                let mut seen = self.view.copy(alloc)?;
                seen.merge(view);
                return Ok(Some(Message::Store {
                    view: seen,
                    tag: self.tag + 1,
                    node: me,
                }));
            }
        }
        Ok(None)
    }

    // With the last acknowledgement, what the first round of the asks that wait begins with.
    fn post_of_ack(
        &self,
        alloc: Global,
        me: NodeId,
        quorum: u64,
    ) -> Result<Option<Message>, NoMemory>
        requires fits { len (ops.after_ack me quorum self.now.phase self.now).view ≤ known_limit }
        requires number { (ops.after_ack me quorum self.now.phase self.now).number ≤ counter_limit }
        requires tag { (ops.after_ack me quorum self.now.phase self.now).tag ≤ counter_limit }
        ensures { IfOk result (λ p. p ≡ ops.post_of_round me (ops.begun_in self.now.phase self.now) (ops.after_ack me quorum self.now.phase self.now)) }
    {
        match self.begun_by_ack() {
            Some(asked) => Ok(Some(self.round_post(alloc, me, asked)?)),
            None => Ok(None),
        }
    }

    // What the first round of the line begins with, whose first ask this is: a write with a Store of the view after all of
    // it, a read with a Query.
    fn round_post(&self, alloc: Global, me: NodeId, asked: &Asked) -> Result<Message, NoMemory>
        requires first { Some asked.now ≡ first_in self.now.line }
        requires fits { (quorum : ℕ) → len (ops.after_last me quorum self.now).view ≤ known_limit }
        requires number { (quorum : ℕ) → (ops.after_last me quorum self.now).number ≤ counter_limit }
        requires tag { self.now.tag + 1 ≤ counter_limit }
        ensures { (quorum : ℕ) → IfOk result (λ m. m ≡ ops.first_post me asked.now (ops.after_last me quorum self.now)) }
    {
        let tag = self.tag + 1;
        if !is_writing(&asked.command) {
            return Ok(Message::Query { tag, node: me });
        }
        let mut view = self.view.copy(alloc)?;
        view.merge_row(Row {
            node: me,
            number: self.number + writes_of_round(self.line.asks(), self.share),
            value: value_of_round(self.line.asks(), self.share, &self.mine),
        });
        Ok(Message::Store {
            view,
            tag,
            node: me,
        })
    }

    // The first ask of the round that begins with one more acknowledgement.
    fn begun_by_ack(&self) -> Option<&Asked>
        ensures asked { option_map (λ asked. asked.now) result ≡ first_in (ops.begun_in self.now.phase self.now) }
    {
        if !self.ends_store() {
            return None;
        }
        self.line.first()
    }

    /// What clients are told on a message: the answers of the round, where this is its last acknowledgement. Reads are
    /// answered from the view that was stored back (CCC, client). The only error is a refused growth.
    pub fn replies(&self, alloc: Global, me: NodeId, message: &Message) -> Result<Replies, NoMemory>
        ensures { IfOk result (λ r. r ≡ ops.replies_of me message.now self.now) }
    {
        match message {
            Message::StoreAck { tag, node } if self.is_own(me, *tag, *node) => {
                self.replies_of_ack(alloc)
            }
            _ => Ok(Replies::none()),
        }
    }

    fn replies_of_ack(&self, alloc: Global) -> Result<Replies, NoMemory>
        ensures { IfOk result (λ r. r ≡ ops.replies_in self.now.view self.now.others self.now.phase) }
    {
        let stage = self.stage;
        match stage {
            Stage::Idle | Stage::Querying(_) => Ok(Replies::none()),
            Stage::Storing(pending) => self.told_if_last(alloc, &pending, &self.view),
            Stage::StoringBack(pending) => self.told_if_last(alloc, &pending, &self.seen),
        }
    }

    // The answers of the round, read from that view, where one more acknowledgement ends it.
    fn told_if_last(
        &self,
        alloc: Global,
        pending: &Pending,
        seen: &View,
    ) -> Result<Replies, NoMemory>
        requires { IsWaiting pending.now }
        ensures { IfOk result (λ r. r ≡ (if ops.is_last pending.now then map (ops.told seen.now) (pending.now.asked ∷ self.now.others) else [])) }
    {
        if !is_last(pending) {
            return Ok(Replies::none());
        }
        let first = told(alloc, &pending.asked, seen)?;
        let mut replies = Replies::one(alloc, first)?;
        for asked in self.others.asks() {
            let reply = told(alloc, asked, seen)?;
            replies.push(reply)?;
        }
        Ok(replies)
    }

    /// Whether a message is answered with a post; needs no memory.
    pub fn makes_post(&self, me: NodeId, is_joined: bool, message: &Message) -> bool
        ensures { (quorum : ℕ) → result ≡ is_some (ops.post_of me is_joined message.now self.now (ops.after_message me quorum message.now self.now)) }
    {
        match message {
            Message::Query { .. } | Message::Store { .. } => is_joined,
            Message::QueryReply { tag, node, .. } if self.is_own(me, *tag, *node) => {
                self.ends_query()
            }
            Message::StoreAck { tag, node } if self.is_own(me, *tag, *node) => {
                self.begun_by_ack().is_some()
            }
            _ => false,
        }
    }

    /// Whether the message would raise a counter past its limit, `2 ^ 62`.
    pub fn is_spent(&self, me: NodeId, quorum: u64, message: &Message) -> bool
        ensures { result ≡ (passes self.now.number (ops.after_message me quorum message.now self.now).number
            || overruns self.now.tag (ops.after_message me quorum message.now self.now).tag) }
    {
        match message {
            Message::QueryReply { tag, node, .. } if self.is_own(me, *tag, *node) => {
                self.tag == COUNTER_LIMIT && self.ends_query()
            }
            Message::StoreAck { tag, node } if self.is_own(me, *tag, *node) => {
                self.ack_is_spent()
            }
            _ => false,
        }
    }

    // Whether one more acknowledgement would raise a counter past its limit.
    fn ack_is_spent(&self) -> bool
        ensures { (me quorum : ℕ) → result ≡ (passes self.now.number (ops.after_ack me quorum self.now.phase self.now).number
            || overruns self.now.tag (ops.after_ack me quorum self.now.phase self.now).tag) }
    {
        if self.begun_by_ack().is_none() {
            return false;
        }
        let writes = writes_of_round(self.line.asks(), self.share);
        self.tag == COUNTER_LIMIT || self.number + writes > COUNTER_LIMIT
    }

    // Whether one more reply ends the query.
    fn ends_query(&self) -> bool
        ensures { result ≡ ops.ends_query self.now.phase }
    {
        let stage = self.stage;
        match stage {
            Stage::Querying(pending) => is_last(&pending),
            _ => false,
        }
    }

    // Whether one more acknowledgement ends the operation.
    fn ends_store(&self) -> bool
        ensures { result ≡ ops.ends_store self.now.phase }
    {
        let stage = self.stage;
        match stage {
            Stage::Storing(pending) | Stage::StoringBack(pending) => is_last(&pending),
            Stage::Idle | Stage::Querying(_) => false,
        }
    }
}

fn told(alloc: Global, asked: &Asked, seen: &View) -> Result<Reply, NoMemory>
    ensures { IfOk result (λ r. r ≡ ops.told seen.now asked.now) }
{
    Ok(Reply {
        session: asked.session,
        request: asked.request,
        answer: answer_of(alloc, &asked.command, seen)?,
    })
}
