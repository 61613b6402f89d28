//! The outlet of a node: the channels to its peers and to itself, and its connections.

ghost use Rattle.std.specs.Prelude.{◌≡◌, ◌≤◌, IfSome};
ghost use Rattle.cc_wire.specs.Messages.{message_spelling};

use cc_channels::{Note, PeerChannel, Shared};
use cc_messages::{Answer, Event, Message};
use cc_policies::{Due, Parcel, due_bytes, message_bytes, reply_bytes};
use cc_site::{Outlet, Side};
use cc_views::NodeId;
use std::alloc::Global;
use std::io;
use std::sync::Wait;

/// Passes outputs on. What finds no room is lost.
#[derive(Drop)]
pub struct ServerOutlet<'a, R: Wait> {
    rt: &'a R,
    alloc: Global,
    shared: &'a Shared,
    answers_to_all: bool,
    // Something was put for a peer since the channels were written last.
    is_due: bool,
}

impl<'a, R: Wait> ServerOutlet<'a, R> {
    /// Where all nodes get the answers to an operation, or that alone which asked.
    pub fn new(rt: &'a R, alloc: Global, shared: &'a Shared, answers_to_all: bool) -> Self {
        ServerOutlet {
            rt,
            alloc,
            shared,
            answers_to_all,
            is_due: false,
        }
    }

    // Hands an event to the worker of the node's own messages.
    fn hear(&self, event: Event) {
        self.shared.own.put(self.rt, event);
    }

    // Whether a peer is to get a message: not the answer to another one's operation, unless all do.
    fn is_for(&self, message: &Message, peer: NodeId) -> bool {
        self.answers_to_all || message.is_for(peer)
    }

    // Whether more than one node may get a message.
    fn goes_to_many(&self, message: &Message) -> bool {
        let is_answer = matches!(
            message,
            Message::QueryReply { .. } | Message::StoreAck { .. }
        );
        self.answers_to_all || !is_answer
    }

    // What the node posts to itself comes as to any peer.
    fn deliver(&self, from: NodeId, number: u64, message: &Message)
        requires { 1 ≤ number }
    {
        let is_for = self.is_for(message, from);
        let due = self.shared.own.due(self.rt, number, is_for);
        self.shared.gauges.put_post(is_for);
        if let Some(posts) = due.skip {
            self.shared.gauges.send_skip();
            self.hear(Event::Skip { from, posts });
        }
        if due.has_post {
            self.hear_message(from, number, message);
        }
    }

    fn hear_message(&self, from: NodeId, number: u64, message: &Message) {
        if let Ok(message) = message.copy(self.alloc) {
            self.hear(Event::Deliver {
                from,
                number,
                message,
            });
        }
    }

    fn post(
        &self,
        me: NodeId,
        channel: &PeerChannel,
        number: u64,
        message: &Message,
        spelled: Option<&[u8]>,
    )
        requires numbered { 1 ≤ number }
        requires spelled { IfSome spelled (λ bytes. bytes.now ≡ message_spelling message.now) }
    {
        channel.marks().post(number);
        if channel.is_muted() {
            return;
        }
        let is_for = self.is_for(message, channel.peer);
        let due = channel.due(self.rt, number, is_for);
        self.shared.gauges.put_post(is_for);
        if due.skip.is_some() {
            self.shared.gauges.send_skip();
        }
        if let Some(bytes) = self.frames(me, &due, number, message, spelled) {
            channel.put(self.rt, me, Parcel::Post(bytes));
        }
    }

    // The bytes of what is due to a peer, if anything is.
    fn frames(
        &self,
        me: NodeId,
        due: &Due,
        number: u64,
        message: &Message,
        spelled: Option<&[u8]>,
    ) -> Option<Vec<u8>>
        requires { IfSome spelled (λ bytes. bytes.now ≡ message_spelling message.now) }
    {
        if due.skip.is_none() && !due.has_post {
            return None;
        }
        due_bytes(self.alloc, me, due, number, message, spelled).ok()
    }

    // The bytes of an answer as its client reads them.
    fn replied(&self, session: u64, request: u64, answer: &Answer) -> Option<Vec<u8>> {
        reply_bytes(self.alloc, session, request, answer).ok()
    }

    // Writes what was put for peers before a reply: they work while clients are told.
    fn write_posts(&mut self) {
        if let (true, Some(me)) = (self.is_due, self.shared.me.get()) {
            self.shared.channels.write(self.rt, *me);
        }
        self.is_due = false;
    }
}

impl<R: Wait> Outlet for ServerOutlet<'_, R> {
    fn spell(&self, message: &Message) -> Option<Vec<u8>> {
        if !self.goes_to_many(message) {
            return None;
        }
        message_bytes(self.alloc, message).ok()
    }

    fn send(&mut self, to: NodeId, number: u64, message: &Message, spelled: Option<&[u8]>) {
        let Some(me) = self.shared.me.get() else {
            return;
        };
        if number == 0 {
            return;
        }
        if to == *me {
            self.deliver(to, number, message);
        } else if let Some(channel) = self.shared.channel_to(to) {
            self.post(*me, channel, number, message, spelled);
            self.is_due = true;
        }
    }

    fn ack(&mut self, to: NodeId, number: u64) {
        let Some(me) = self.shared.me.get() else {
            return;
        };
        if to == *me {
            self.hear(Event::Acked { peer: to, number });
        } else if let Some(channel) = self.shared.channel_to(to) {
            channel.marks().hear(number);
            channel.put(self.rt, *me, Parcel::Ack(number));
            self.is_due = true;
        }
    }

    fn reply(&mut self, session: u64, request: u64, answer: &Answer) {
        self.write_posts();
        match self.replied(session, request, answer) {
            Some(bytes) => self
                .shared
                .connections
                .pass(self.rt, session, request, bytes),
            None => self.shared.connections.give_up(self.rt, session, request),
        }
    }

    fn fail(&mut self, side: Side, why: io::Error) {
        self.shared.notes.put(self.rt, Note::DiskFault(side, why));
    }
}
