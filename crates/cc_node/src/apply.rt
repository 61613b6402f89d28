//! What an event makes, and what it leaves: each part is told what came.

ghost use Rattle.std.specs.Prelude.{◌≡◌, ◌+◌, ◌-◌, ◌<◌, ◌⊎◌, None, Some, IfOk, IfErr, false};
ghost use Rattle.cc_churn.specs.Churn as churn;
ghost use Rattle.cc_links.specs.Links as links;
ghost use Rattle.cc_messages.specs.Messages.{is_snapshot};
ghost use Rattle.cc_messages.specs.declared.event.Event.TheVariants as event;
ghost use Rattle.cc_messages.specs.declared.refusal.Refusal.TheVariants as refusal;
ghost use Rattle.cc_node.specs.Core as machine;
ghost use Rattle.cc_node.specs.Refusals.{decides};

use crate::made::{LinkAck, Made};
use crate::named_nodes::link_named;
use crate::node_core::Core;
use crate::told::{ask_anew, count_told};
use cc_messages::{Command, Event, Message, PostRange, Refusal, Share};
use cc_ops::Asked;
use cc_views::{NoMemory, NodeId};
use std::alloc::Global;

impl Core {
    /// What the event makes, which isn't refused: the acknowledgement, the post and the answers. The only error is a
    /// refused growth.
    pub fn made(&self, alloc: Global, event: &Event) -> Result<Made, NoMemory>
        requires { decides self.now event.now ≡ None }
        ensures { IfOk result (λ m. m ≡ machine.made self.now event.now) }
    {
        match event {
            Event::Enter => Ok(Made::posted(Message::Enter { node: self.me })),
            Event::Leave => Ok(Made::posted(Message::Leave { node: self.me })),
            Event::Deliver {
                from,
                number,
                message,
            } => self.made_of_delivery(alloc, *from, *number, message),
            Event::Acked { .. }
            | Event::Retire { .. }
            | Event::Lapse { .. }
            | Event::Share { .. } => Ok(Made::nothing()),
            Event::Snapshot => self.made_of_snapshot(alloc),
            Event::Skip { from, posts } => Ok(Made::acknowledged(*from, posts.last())),
            Event::Ask {
                session,
                request,
                command,
            } => self.made_of_ask(alloc, *session, *request, command),
        }
    }

    /// What the event makes, or why it is refused: the core's reason, else NoMemory where a growth was refused.
    pub fn made_or_refused(&self, alloc: Global, event: &Event) -> Result<Made, Refusal>
        ensures made { IfOk result (λ m. (decides self.now event.now ≡ None) × (m ≡ machine.made self.now event.now)) }
        ensures refused { IfErr result (λ r. (decides self.now event.now ≡ Some r)
            ⊎ ((decides self.now event.now ≡ None) × (r ≡ refusal.NoMemory))) }
    {
        self.decide(event)?;
        match self.made(alloc, event) {
            Ok(made) => Ok(made),
            Err(NoMemory) => Err(Refusal::NoMemory),
        }
    }

    fn made_of_snapshot(&self, alloc: Global) -> Result<Made, NoMemory>
        ensures { IfOk result (λ m. m ≡ machine.made self.now event.Snapshot) }
    {
        let changes = self.churn.changes().copy(alloc)?;
        let Ok(view) = self.ops.view().copy(alloc) else {
            drop(changes);
            return Err(NoMemory);
        };
        Ok(Made::posted(Message::Snapshot { changes, view }))
    }

    fn made_of_delivery(
        &self,
        alloc: Global,
        from: NodeId,
        number: u64,
        message: &Message,
    ) -> Result<Made, NoMemory>
        requires { decides self.now (event.Deliver from number message.now) ≡ None }
        ensures { IfOk result (λ m. m ≡ machine.made self.now (event.Deliver from number message.now)) }
    {
        if message.is_snapshot() {
            return self.made_of_told(alloc, from, number, message);
        }
        self.made_of_message(alloc, from, number, message)
    }

    fn made_of_message(
        &self,
        alloc: Global,
        from: NodeId,
        number: u64,
        message: &Message,
    ) -> Result<Made, NoMemory>
        requires snapshot { is_snapshot message.now ≡ false }
        requires taken { decides self.now (event.Deliver from number message.now) ≡ None }
        ensures { IfOk result (λ m. m ≡ machine.made self.now (event.Deliver from number message.now)) }
    {
        let churned = self
            .churn
            .post(alloc, self.me, self.gamma, self.ops.view(), message)?;
        let (quorum, is_joined) = (self.quorum(), self.is_joined());
        let Ok(served) = self.ops.post(alloc, self.me, quorum, is_joined, message) else {
            drop(churned);
            return Err(NoMemory);
        };
        let Ok(answers) = self.ops.replies(alloc, self.me, message) else {
            drop((churned, served));
            return Err(NoMemory);
        };
        Ok(Made {
            ack: Some(LinkAck { to: from, number }),
            post: churned.or(served),
            answers,
        })
    }

    fn made_of_ask(
        &self,
        alloc: Global,
        session: u64,
        request: u64,
        command: &Command,
    ) -> Result<Made, NoMemory>
        requires { decides self.now (event.Ask session request command.now) ≡ None }
        ensures { IfOk result (λ m. m ≡ machine.made self.now (event.Ask session request command.now)) }
    {
        if !self.ops.is_idle() {
            return Ok(Made::nothing());
        }
        let asked = Asked {
            session,
            request,
            command: *command,
        };
        let post = self.ops.first_post(alloc, self.me, self.quorum(), &asked)?;
        Ok(Made::posted(post))
    }

    /// Takes in the event, which isn't refused. It takes no memory.
    pub fn apply(&mut self, event: &Event)
        requires { decides self.old event.now ≡ None }
        ensures { self.new ≡ machine.next self.old event.now }
    {
        match event {
            Event::Enter => self.enter(),
            Event::Leave => self.leave(),
            Event::Deliver {
                from,
                number,
                message,
            } => self.deliver(*from, *number, message),
            Event::Acked { peer, number } => self.acknowledge(*peer, *number),
            Event::Ask {
                session,
                request,
                command,
            } => self.ask(*session, *request, command),
            Event::Retire { node } => self.retire(*node),
            Event::Lapse { node } => self.lapse(*node),
            Event::Snapshot => self.snapshot(),
            Event::Skip { from, posts } => self.skip(*from, *posts),
            Event::Share { share } => self.change_share(*share),
        }
    }

    fn enter(&mut self)
        requires { decides self.old event.Enter ≡ None }
        ensures { self.new ≡ machine.next self.old event.Enter }
    {
        self.churn.enter(self.me);
        self.posts += 1;
    }

    fn leave(&mut self)
        requires { decides self.old event.Leave ≡ None }
        ensures { self.new ≡ machine.next self.old event.Leave }
    {
        self.churn.leave(self.me);
        self.posts += 1;
    }

    fn deliver(&mut self, from: NodeId, number: u64, message: &Message)
        requires { decides self.old (event.Deliver from number message.now) ≡ None }
        ensures { self.new ≡ machine.next self.old (event.Deliver from number message.now) }
    {
        let made = u64::from(self.makes_post(from, number, message));
        let told = self.tells(from, number, message);
        let anew = self.asks_anew(from, number, message);
        let quorum = self.quorum();
        link_named(&mut self.links, message, self.posts);
        self.links.add(from, self.posts);
        self.links.hear(from, number);
        self.churn.apply(self.me, self.gamma, message);
        count_told(&mut self.churn, told, self.me, self.gamma);
        self.ops.apply(self.me, quorum, message);
        ask_anew(&mut self.ops, anew, self.churn.quorum(self.beta));
        self.posts += made;
    }

    fn acknowledge(&mut self, peer: NodeId, number: u64)
        requires { decides self.old (event.Acked peer number) ≡ None }
        ensures { self.new ≡ machine.next self.old (event.Acked peer number) }
    {
        self.links.ack(peer, number);
    }

    fn ask(&mut self, session: u64, request: u64, command: &Command)
        requires { decides self.old (event.Ask session request command.now) ≡ None }
        ensures { self.new ≡ machine.next self.old (event.Ask session request command.now) }
    {
        let asked = Asked {
            session,
            request,
            command: *command,
        };
        let made = u64::from(self.ops.is_idle());
        self.ops.ask(self.me, self.churn.quorum(self.beta), &asked);
        self.sessions.begin(session, request);
        self.posts += made;
    }

    fn retire(&mut self, node: NodeId)
        requires { decides self.old (event.Retire node) ≡ None }
        ensures { self.new ≡ machine.next self.old (event.Retire node) }
    {
        self.links.add(node, self.posts);
        self.churn.leave(node);
    }

    fn lapse(&mut self, node: NodeId)
        requires { decides self.old (event.Lapse node) ≡ None }
        ensures { self.new ≡ machine.next self.old (event.Lapse node) }
    {
        self.links.lapse(node, self.posts);
    }

    fn snapshot(&mut self)
        requires { decides self.old event.Snapshot ≡ None }
        ensures { self.new ≡ machine.next self.old event.Snapshot }
    {
        self.posts += 1;
    }

    fn skip(&mut self, from: NodeId, posts: PostRange)
        requires { decides self.old (event.Skip from posts) ≡ None }
        ensures { self.new ≡ machine.next self.old (event.Skip from posts) }
    {
        let made = self.posts;
        self.links.add(from, made);
        self.links.hear(from, posts.last());
    }

    fn change_share(&mut self, share: Share)
        requires { decides self.old (event.Share share) ≡ None }
        ensures { self.new ≡ machine.next self.old (event.Share share) }
    {
        self.ops.set_share(share);
    }
}
