//! A node: its core, and what it keeps to put out again.

ghost use Rattle.std.specs.Prelude.{◌≡◌, ◌≤◌, ◌<◌, ◌↔◌, ◌&&◌, not, None, IfOk, IfSome, OnOk, IsErrOf, IsTrue, is_some};
ghost use Rattle.std.specs.List.{list_all};
ghost use Rattle.std.specs.FinMap as table;
ghost use Rattle.cc_views.specs.Limits.{counter_limit, session_limit};
ghost use Rattle.cc_churn.specs.Churn as churn;
ghost use Rattle.cc_links.specs.Links as links;
ghost use Rattle.cc_ops.specs.Ops.{unanswered};
ghost use Rattle.cc_ops.specs.Stages.{stage_of};
ghost use Rattle.cc_ops.specs.WaitingAsks.{has_session};
ghost use Rattle.cc_outbox.specs.Outbox.{post_limit};
ghost use Rattle.cc_outbox.specs.OutboxLaws.{KeepsPosts};
ghost use Rattle.cc_node.specs.declared.opening.Fresh.TheVariants as faults;
ghost use Rattle.cc_node.specs.Core as machine;
ghost use Rattle.cc_node.specs.Lawful.{IsLawfulCore, IsLawfulNode, KeepsAnswers};
ghost use Rattle.cc_node.specs.Node.{step, add, keep, forget_asked};
ghost use Rattle.cc_node.specs.Openings.{told, fresh, IsOpening};
ghost use Rattle.cc_node.specs.Parts.{core_of};
ghost use Rattle.cc_node.specs.Refusals.{decides};

use crate::core_parts::CoreParts;
use crate::made::Made;
use crate::node_core::Core;
use crate::opening::{Fresh, Opening};
use cc_messages::{Event, Message};
use cc_ops::{Ops, Replies, Stage};
use cc_outbox::{KeptAnswer, Outbox};
use cc_sessions::Sessions;
use cc_views::{NodeId, View};
use std::alloc::Global;
use std::marker::Model;

/// A core, and the posts and answers that may have to be put out again.
#[derive(Drop)]
pub struct Node {
    core: Core,
    outbox: Outbox,
}

impl Model for Node {
    ghost use Rattle.cc_node.specs.Node.{Node as State};
    ghost use Rattle.cc_node.specs.Codes.{node_code};
    ghost use Rattle.cc_node.specs.Lawful.{IsLawfulNode};

    ghost Value = { State };

    ghost coded = { node_code };

    ghost view = { λ a. record { core = a.core; outbox = a.outbox } };

    ghost invariant = { λ a. IsLawfulNode (record { core = a.core; outbox = a.outbox }) };
}

impl Node {
    /// A node that begins as the opening says: a member of the first hour, or an entrant. BadOpening where no node can
    /// begin so; else the only error is a refused growth.
    pub fn fresh(alloc: Global, opening: &Opening<'_>) -> Result<Self, Fresh>
        ensures node { IfOk result (λ n. n ≡ fresh (told opening.now)) }
        ensures good { OnOk result (IsOpening (told opening.now)) }
        ensures bad { IsErrOf result faults.BadOpening → IsOpening (told opening.now) → ⊥ }
        ensures memory { IsErrOf result faults.NoMemory → IsOpening (told opening.now) }
    {
        if !opening.is_good() {
            return Err(Fresh::BadOpening);
        }
        let core = Core::begun(alloc, opening)?;
        let Ok(outbox) = Outbox::new(alloc) else {
            drop(core);
            return Err(Fresh::NoMemory);
        };
        Ok(Node { core, outbox })
    }

    /// The node of a stored state: its core in parts, and what it keeps to put out again. None where that is no state
    /// that a node can be in. It takes no memory.
    pub fn restored(parts: CoreParts, outbox: Outbox) -> Option<Self>
        ensures lawful { IsTrue (is_some result) ↔ IsLawfulNode (record { core = core_of parts; outbox = outbox }) }
        ensures node { IfSome result (λ n. n ≡ record { core = core_of parts; outbox = outbox }) }
    {
        let Some(core) = Core::restored(parts) else {
            drop(outbox);
            return None;
        };
        if !keeps_all(&outbox, &core) {
            drop((core, outbox));
            return None;
        }
        Some(Node { core, outbox })
    }

    /// Its state, up to what it keeps to put out again. A node is always one that can be.
    pub fn core(&self) -> &Core
        ensures core { result.now ≡ self.now.core }
        ensures lawful { IsLawfulNode self.now }
    {
        &self.core
    }

    /// What it keeps to put out again.
    pub fn outbox(&self) -> &Outbox
        ensures { result.now ≡ self.now.outbox }
    {
        &self.outbox
    }

    /// Its own name.
    pub fn me(&self) -> NodeId
        ensures { result ≡ self.now.core.me }
    {
        self.core.me()
    }

    /// What each node stored last, as far as this node has seen.
    pub fn view(&self) -> &View
        ensures { result.now ≡ self.now.core.ops.view }
    {
        self.core.view()
    }

    /// The last message that came from a node, 0 for none.
    pub fn heard(&self, from: NodeId) -> u64
        ensures { result ≡ links.heard_from from self.now.core.links }
    {
        self.core.heard(from)
    }

    /// How many posts are kept.
    pub fn kept(&self) -> usize
        ensures { result ≡ table.len self.now.outbox.posts }
    {
        self.outbox.post_count()
    }

    /// Whether the node has joined.
    pub fn is_joined(&self) -> bool
        ensures { result ≡ churn.has_joined self.now.core.me self.now.core.churn }
    {
        self.core.is_joined()
    }

    /// How far the pending operation has come.
    pub fn phase(&self) -> Stage
        ensures { result ≡ stage_of self.now.core.ops.phase }
    {
        self.core.phase()
    }

    /// Takes in an event, which isn't refused, and what it made: the post is added to the kept ones, each answer kept
    /// for its session, and what every live link has acknowledged is dropped. It takes no memory.
    pub fn settle(&mut self, event: Event, made: Made)
        requires accepted { decides self.old.core event ≡ None }
        requires made { made ≡ machine.made self.old.core event }
        ensures { self.new ≡ step self.old event }
    {
        forget_asked(&mut self.outbox, &event);
        let Made { post, answers, .. } = made;
        keep_post(&mut self.outbox, post);
        keep_answers(&mut self.outbox, answers);
        self.core.apply(&event);
        drop(event);
        self.outbox.trim(self.core.lowest());
    }
}

// Whether an outbox is that of a lawful node with this core.
fn keeps_all(outbox: &Outbox, core: &Core) -> bool
    requires { IsLawfulCore core.now }
    ensures { IsTrue result ↔ IsLawfulNode (record { core = core.now; outbox = outbox.now }) }
{
    if outbox.last() != core.posts() {
        return false;
    }
    if !keeps_posts(outbox, core.lowest()) {
        return false;
    }
    keeps_answers(outbox, core.sessions(), core.ops())
}

// Whether just the posts above number `lowest` are kept.
fn keeps_posts(outbox: &Outbox, lowest: u64) -> bool
    requires { lowest ≤ outbox.now.last }
    ensures { IsTrue result ↔ KeepsPosts lowest outbox.now.last outbox.now.posts }
{
    outbox.post_count() as u64 == outbox.last() - lowest
}

// Whether the kept answers are of sessions that have a request, and none that isn't answered.
fn keeps_answers(outbox: &Outbox, sessions: &Sessions, ops: &Ops) -> bool
    ensures { IsTrue result ↔ KeepsAnswers sessions.now (unanswered ops.now) outbox.now.answers }
{
    are_finished(outbox.answers(), sessions, ops)
}

fn are_finished(answers: &[KeptAnswer], sessions: &Sessions, ops: &Ops) -> bool
    ensures { result ≡ list_all
        (λ kept. table.contains_key sessions.now kept.session && not (has_session kept.session (unanswered ops.now)))
        answers.now }
{
    answers
        .iter()
        .all(|kept| is_finished(kept.session, sessions, ops))
}

// Whether the session has a request, and none that isn't answered.
fn is_finished(session: u64, sessions: &Sessions, ops: &Ops) -> bool
    ensures { result ≡ (table.contains_key sessions.now session && not (has_session session (unanswered ops.now))) }
{
    sessions.finish(session).is_some() && !ops.is_unanswered(session)
}

// Beginning a request forgets the session's kept answer.
fn forget_asked(outbox: &mut Outbox, event: &Event)
    ensures { outbox.new ≡ forget_asked event.now outbox.old }
{
    match event {
        Event::Ask { session, .. } => outbox.forget(*session),
        Event::Enter
        | Event::Leave
        | Event::Deliver { .. }
        | Event::Acked { .. }
        | Event::Retire { .. }
        | Event::Lapse { .. }
        | Event::Snapshot
        | Event::Skip { .. }
        | Event::Share { .. } => {}
    }
}

// The post of an event, where it has one, is kept under the next number.
fn keep_post(outbox: &mut Outbox, post: Option<Message>)
    requires room { IsTrue (is_some post) → table.len outbox.old.posts < post_limit }
    requires number { outbox.old.last ≤ counter_limit }
    ensures { outbox.new ≡ add post outbox.old }
{
    match post {
        Some(post) => outbox.add(post),
        None => {}
    }
}

// The answers of an event are kept, each for its session.
fn keep_answers(outbox: &mut Outbox, answers: Replies)
    requires { table.len (keep answers outbox.old).answers ≤ session_limit }
    ensures { outbox.new ≡ keep answers outbox.old }
{
    let mut left = answers;
    while let Some(reply) = left.take_first() {
        outbox.keep(reply.session, reply.answer);
    }
}
