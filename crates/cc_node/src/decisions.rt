//! Why an event is refused: each part is asked for its reasons, in their order.

ghost use Rattle.std.specs.Prelude.{◌≡◌, ◌-◌, ◌<◌, ◌==◌, ◌&&◌, [], ◌∷◌, None, Some, OnOk, IfErr};
ghost use Rattle.std.specs.Prelude.{true, false, is_some, ℕ};
ghost use Rattle.std.specs.Bool.{then_some};
ghost use Rattle.cc_views.specs.Limits.{counter_limit};
ghost use Rattle.cc_churn.specs.Churn as churn;
ghost use Rattle.cc_links.specs.Links as links;
ghost use Rattle.cc_outbox.specs.Outbox.{post_limit};
ghost use Rattle.cc_messages.specs.Messages.{is_snapshot};
ghost use Rattle.cc_messages.specs.Refusals.{first_of};
ghost use Rattle.cc_messages.specs.declared.event.Event.TheVariants as event;
ghost use Rattle.cc_messages.specs.declared.refusal.Refusal.TheVariants as refusal;
ghost use Rattle.cc_node.specs.Core as machine;
ghost use Rattle.cc_node.specs.Refusals as reasons;
ghost use Rattle.cc_node.specs.Refusals.{decides, decided};

use crate::named_nodes::mark_named;
use crate::node_core::Core;
use cc_links::{KnownIds, Links};
use cc_messages::{Command, Event, Message, PostRange, Refusal, Share};
use cc_outbox::Outbox;
use cc_sessions::Checked;
use cc_views::{COUNTER_LIMIT, NodeId};

impl Core {
    /// Why the event is refused, if it is. It changes nothing.
    pub fn decide(&self, event: &Event) -> Result<(), Refusal>
        ensures exact { result ≡ decided (decides self.now event.now) }
        ensures accepted { OnOk result (decides self.now event.now ≡ None) }
        ensures refused { IfErr result (λ r. decides self.now event.now ≡ Some r) }
    {
        match event {
            Event::Enter => self.decide_enter(),
            Event::Leave => self.decide_leave(),
            Event::Deliver {
                from,
                number,
                message,
            } => self.decide_delivery(*from, *number, message),
            Event::Acked { peer, number } => self.decide_ack(*peer, *number),
            Event::Ask {
                session,
                request,
                command,
            } => self.decide_ask(*session, *request, command),
            Event::Retire { node } => self.decide_retire(*node),
            Event::Lapse { node } => self.decide_lapse(*node),
            Event::Snapshot => self.decide_snapshot(),
            Event::Skip { from, posts } => self.decide_skip(*from, *posts),
            Event::Share { share } => self.decide_share(*share),
        }
    }

    fn decide_enter(&self) -> Result<(), Refusal>
        ensures { result ≡ decided (decides self.now event.Enter) }
    {
        self.churn.decide_enter(self.me)?;
        self.decide_post()
    }

    fn decide_leave(&self) -> Result<(), Refusal>
        ensures { result ≡ decided (decides self.now event.Leave) }
    {
        self.churn.decide_leave(self.me)?;
        self.decide_post()
    }

    // Why one post more can't be made, if it can't.
    fn decide_post(&self) -> Result<(), Refusal>
        ensures { result ≡ decided
            (first_of (then_some ((self.now.posts - machine.lowest self.now) == post_limit) refusal.OutboxFull
            ∷ then_some (self.now.posts == counter_limit) refusal.Spent ∷ [])) }
    {
        if self.is_outbox_full() {
            return Err(Refusal::OutboxFull);
        }
        if self.posts == COUNTER_LIMIT {
            return Err(Refusal::Spent);
        }
        Ok(())
    }

    // Whether as many posts are kept as may be.
    fn is_outbox_full(&self) -> bool
        ensures { result ≡ ((self.now.posts - machine.lowest self.now) == post_limit) }
    {
        self.posts - self.lowest() == Outbox::MAX_POSTS as u64
    }

    fn decide_delivery(&self, from: NodeId, number: u64, message: &Message) -> Result<(), Refusal>
        ensures { result ≡ decided (decides self.now (event.Deliver from number message.now)) }
    {
        self.churn.decide_delivery(self.me)?;
        self.decide_number(from, number, message)?;
        self.decide_message(from, number, message)
    }

    // Why the message, under a number above what was heard, can't be taken, if it can't.
    fn decide_message(&self, from: NodeId, number: u64, message: &Message) -> Result<(), Refusal>
        requires { links.heard_from from self.now.links < number }
        ensures { result ≡ decided (first_of (reasons.too_many_nodes self.now (from ∷ machine.ids_of message.now)
            ∷ reasons.outbox_full self.now (event.Deliver from number message.now)
            ∷ reasons.spent self.now (event.Deliver from number message.now) ∷ [])) }
    {
        if self.knows_too_many(from, message) {
            return Err(Refusal::TooManyNodes);
        }
        let makes_post = self.makes_post(from, number, message);
        if self.has_no_room(makes_post) {
            return Err(Refusal::OutboxFull);
        }
        if self.delivery_is_spent(from, number, message, makes_post) {
            return Err(Refusal::Spent);
        }
        Ok(())
    }

    // Whether there is a post, and as many are kept as may be.
    fn has_no_room(&self, makes_post: bool) -> bool
        ensures { result ≡ (makes_post && ((self.now.posts - machine.lowest self.now) == post_limit)) }
    {
        makes_post && self.is_outbox_full()
    }

    // Why the number isn't the next one of its link, if it isn't. That of a snapshot may be any above what was heard.
    fn decide_number(&self, from: NodeId, number: u64, message: &Message) -> Result<(), Refusal>
        ensures { result ≡ decided (first_of (reasons.old self.now from number
            ∷ reasons.gap self.now from number message.now ∷ [])) }
    {
        let heard = self.heard(from);
        if number <= heard {
            return Err(Refusal::Old(heard));
        }
        if number - heard > 1 && !message.is_snapshot() {
            return Err(Refusal::Gap(heard));
        }
        Ok(())
    }

    // Whether the sender, the nodes that the message names and the known ones are too many together.
    fn knows_too_many(&self, from: NodeId, message: &Message) -> bool
        ensures { then_some result refusal.TooManyNodes
            ≡ reasons.too_many_nodes self.now (from ∷ machine.ids_of message.now) }
    {
        let mut known = KnownIds::new();
        if !known.add_peers(self.links.rows()) {
            return true;
        }
        if !mark_named(&mut known, message) {
            return true;
        }
        !known.add(from)
    }

    // Whether the message is answered with a post.
    pub(crate) fn makes_post(&self, from: NodeId, number: u64, message: &Message) -> bool
        requires { links.heard_from from self.now.links < number }
        ensures { result ≡ is_some (machine.post self.now (event.Deliver from number message.now)) }
    {
        if message.is_snapshot() {
            return self.makes_told(from, number, message);
        }
        self.is_answered(message)
    }

    // Whether a message that isn't a snapshot is answered with a post.
    fn is_answered(&self, message: &Message) -> bool
        requires { is_snapshot message.now ≡ false }
        ensures { (from n : ℕ) → result ≡ is_some (machine.post self.now (event.Deliver from n message.now)) }
    {
        self.churn.makes_post(self.me, self.gamma, message)
            || self.ops.makes_post(self.me, self.is_joined(), message)
    }

    // Whether a counter stands at its limit that the message would raise, or its number is past the limit.
    fn delivery_is_spent(
        &self,
        from: NodeId,
        number: u64,
        message: &Message,
        makes_post: bool,
    ) -> bool
        requires above { links.heard_from from self.now.links < number }
        requires posts { makes_post ≡ is_some (machine.post self.now (event.Deliver from number message.now)) }
        ensures { result ≡ reasons.any_overruns self.now (machine.next self.now (event.Deliver from number message.now))
            (event.Deliver from number message.now) }
    {
        if message.is_snapshot() {
            return self.told_is_spent(from, number, message, makes_post);
        }
        self.message_is_spent(number, message, makes_post)
    }

    // The same of a message that isn't a snapshot.
    fn message_is_spent(&self, number: u64, message: &Message, makes_post: bool) -> bool
        requires snapshot { is_snapshot message.now ≡ false }
        requires posts { (from : ℕ) → makes_post
            ≡ is_some (machine.post self.now (event.Deliver from number message.now)) }
        ensures { (from : ℕ) → result ≡ reasons.any_overruns self.now
            (machine.next self.now (event.Deliver from number message.now)) (event.Deliver from number message.now) }
    {
        if self.ops.is_spent(self.me, self.quorum(), message) {
            return true;
        }
        if self.posts_are_spent(makes_post) {
            return true;
        }
        if self.churn.is_spent(self.me, self.gamma, message) {
            return true;
        }
        number > COUNTER_LIMIT
    }

    // Whether there is a post, and the count of posts stands at its limit.
    pub(crate) fn posts_are_spent(&self, makes_post: bool) -> bool
        ensures { result ≡ (makes_post && (self.now.posts == counter_limit)) }
    {
        makes_post && self.posts == COUNTER_LIMIT
    }

    fn decide_ack(&self, peer: NodeId, number: u64) -> Result<(), Refusal>
        ensures { result ≡ decided (decides self.now (event.Acked peer number)) }
    {
        if !self.links.awaits_ack(peer, number, self.posts) {
            return Err(Refusal::NothingToAck);
        }
        Ok(())
    }

    fn decide_ask(&self, session: u64, request: u64, command: &Command) -> Result<(), Refusal>
        ensures { result ≡ decided (decides self.now (event.Ask session request command.now)) }
    {
        self.churn.decide_ask(self.me)?;
        self.decide_request(session, request)?;
        self.ops.decide_ask(session, command)?;
        self.decide_command(request, command)
    }

    // Why the request isn't the next one of its session, if it isn't.
    fn decide_request(&self, session: u64, request: u64) -> Result<(), Refusal>
        ensures { result ≡ decided (first_of (reasons.too_many_sessions self.now session
            ∷ reasons.repeat self.now session request
            ∷ reasons.stale self.now session request ∷ reasons.skip self.now session request ∷ [])) }
    {
        match self.sessions.check(session, request) {
            Checked::Full => Err(Refusal::TooManySessions),
            Checked::Repeat => Err(Refusal::Repeat),
            Checked::Stale(last) => Err(Refusal::Stale(last)),
            Checked::Skip(last) => Err(Refusal::Skip(last)),
            Checked::Fresh => Ok(()),
        }
    }

    // Why the command, under the next request of its session, can't begin, if it can't. One that waits needs nothing
    // yet.
    fn decide_command(&self, request: u64, command: &Command) -> Result<(), Refusal>
        ensures { (s : ℕ) → first_of (reasons.stale self.now s request ∷ reasons.skip self.now s request ∷ []) ≡ None
            → result ≡ decided (first_of (reasons.outbox_full self.now (event.Ask s request command.now)
            ∷ reasons.spent self.now (event.Ask s request command.now) ∷ [])) }
    {
        if self.has_no_room(self.ops.is_idle()) {
            return Err(Refusal::OutboxFull);
        }
        if self.ask_is_spent(request, command) {
            return Err(Refusal::Spent);
        }
        Ok(())
    }

    // Whether a counter stands at its limit that the ask, the next of its session, would raise.
    fn ask_is_spent(&self, request: u64, command: &Command) -> bool
        ensures { (s : ℕ) → first_of (reasons.stale self.now s request ∷ reasons.skip self.now s request ∷ []) ≡ None
            → result ≡ reasons.any_overruns self.now (machine.next self.now (event.Ask s request command.now))
            (event.Ask s request command.now) }
    {
        if self.ops.ask_is_spent(command) {
            return true;
        }
        if self.posts_are_spent(self.ops.is_idle()) {
            return true;
        }
        request > COUNTER_LIMIT
    }

    fn decide_retire(&self, node: NodeId) -> Result<(), Refusal>
        ensures { result ≡ decided (decides self.now (event.Retire node)) }
    {
        self.churn.decide_retire(self.me, node)?;
        if self.knows_too_many_with(node) {
            return Err(Refusal::TooManyNodes);
        }
        Ok(())
    }

    fn decide_lapse(&self, node: NodeId) -> Result<(), Refusal>
        ensures { result ≡ decided (decides self.now (event.Lapse node)) }
    {
        self.churn.decide_ask(self.me)?;
        if self.has_nothing_to_lapse(node) {
            return Err(Refusal::NothingToAck);
        }
        Ok(())
    }

    // Whether nothing is kept for the node: it has no link, has left, or has acknowledged all.
    fn has_nothing_to_lapse(&self, node: NodeId) -> bool
        ensures { then_some result refusal.NothingToAck ≡ reasons.nothing_to_lapse self.now node }
    {
        self.churn.has_left(node) || !self.links.awaits_any(node, self.posts)
    }

    fn decide_snapshot(&self) -> Result<(), Refusal>
        ensures { result ≡ decided (decides self.now event.Snapshot) }
    {
        self.churn.decide_ask(self.me)?;
        self.decide_post()
    }

    fn decide_skip(&self, from: NodeId, posts: PostRange) -> Result<(), Refusal>
        ensures { result ≡ decided (decides self.now (event.Skip from posts)) }
    {
        self.churn.decide_delivery(self.me)?;
        self.decide_range(from, posts)?;
        if self.knows_too_many_with(from) {
            return Err(Refusal::TooManyNodes);
        }
        if posts.last() > COUNTER_LIMIT {
            return Err(Refusal::Spent);
        }
        Ok(())
    }

    fn decide_share(&self, share: Share) -> Result<(), Refusal>
        ensures { result ≡ decided (decides self.now (event.Share share)) }
    {
        self.churn.decide_delivery(self.me)?;
        self.ops.decide_share(share)
    }

    // Why the posts aren't the next ones of their link, if they aren't. Some of them may have been heard.
    fn decide_range(&self, from: NodeId, posts: PostRange) -> Result<(), Refusal>
        ensures { result ≡ decided (first_of (reasons.old self.now from posts.last
            ∷ reasons.gap_before self.now from posts.first ∷ [])) }
    {
        let heard = self.heard(from);
        if posts.last() <= heard {
            return Err(Refusal::Old(heard));
        }
        if posts.first().saturating_sub(heard) > 1 {
            return Err(Refusal::Gap(heard));
        }
        Ok(())
    }

    // Whether that node and the known ones are too many together.
    fn knows_too_many_with(&self, node: NodeId) -> bool
        ensures { then_some result refusal.TooManyNodes ≡ reasons.too_many_nodes self.now (node ∷ []) }
    {
        if self.links.get(node).is_some() {
            return false;
        }
        self.links.len() == Links::MAX_ROWS
    }
}
