//! Where a worker's events wait until the node has room for them.

ghost use Rattle.std.specs.Prelude.{◌≡◌, true, None, OnOk, OnErr, IfErr};
ghost use Rattle.cc_channels.specs.Admissions.{IsWhy, with_greeter};

use crate::admission::{Admission, NotAdmitted};
use crate::connections::{Connection, Connections};
use crate::hello_exchange::HelloExchange;
use crate::waker::Waker;
use cc_messages::Event;
use cc_policies::{Admitted, Objection, Spoken, may_speak, speaker_of};
use cc_site::Flushed;
use cc_views::NodeId;
use std::marker::Model;
use std::sync::Wait;
use std::sync::atomic::{AtomicU64, Ordering};

/// Where an event waits until the node has room for it.
pub trait Admit {
    ghost use Rattle.std.specs.Prelude.{Bool};
    ghost use Rattle.cc_messages.specs.declared.event.Event.{Event};

    /// That an event that waits can be turned away.
    ghost may_turn_away: { Type 0 };

    /// Whether such an event may come over the connection at all.
    ghost comes: { Self → Event → Bool };

    fn may_come(&self, event: &Event) -> bool
        ensures { result ≡ comes self.now event.now };

    /// Waits until the event may be handed over, and takes a permit for it, or says why it got none. One that may not come over the
    /// connection gets none, and one that the server objects to is turned away where one can be.
    fn admit<R: Wait>(
        &self,
        rt: &R,
        event: &Event,
        objection: Option<Objection>,
    ) -> Result<(), NotAdmitted>
        ensures turned_away { OnErr result may_turn_away }
        ensures may_come { OnOk result (comes self.now event.now ≡ true) }
        ensures unobjected { OnOk result (may_turn_away → objection ≡ None) }
        ensures why { IfErr result (λ why. IsWhy (comes self.now event.now) objection why) };
}

/// The permits of a node for what comes over one connection. Contracts see what may come over it.
#[derive(Drop)]
pub struct ConnectionAdmission<'a, F: Flushed> {
    admission: &'a Admission<F>,
    waker: &'a Waker,
    connections: &'a Connections,
    hello_exchange: &'a HelloExchange,
    connection: &'a Connection,
    admitted: Admitted,
    me: NodeId,
    // Whether what nodes send comes only over connections over which they greeted.
    needs_greeting: bool,
    // The node that greeted over the connection, and was taken.
    greeter: Option<NodeId>,
    // For which node it spoke last, by its number, which is never 0.
    speaks_for: AtomicU64,
}

impl<'a, F: Flushed> Model for ConnectionAdmission<'a, F> {
    ghost use Rattle.cc_channels.specs.Admissions.{Rights};

    ghost Value = { Rights };

    ghost view = { λ a. record {
      access = a.admitted.access;
      needs_greeting = a.needs_greeting;
      greeter = a.greeter;
    } };
}

impl<'a, F: Flushed> ConnectionAdmission<'a, F> {
    /// Of a connection over which nobody has greeted.
    pub fn new(
        admission: &'a Admission<F>,
        waker: &'a Waker,
        connections: &'a Connections,
        hello_exchange: &'a HelloExchange,
        connection: &'a Connection,
        admitted: Admitted,
        me: NodeId,
    ) -> Self
        ensures { (result.access ≡ admitted.access) × (result.greeter ≡ None) }
    {
        ConnectionAdmission {
            admission,
            waker,
            connections,
            hello_exchange,
            connection,
            admitted,
            me,
            needs_greeting: hello_exchange.needs_greeting(),
            greeter: None,
            speaks_for: AtomicU64::new(0),
        }
    }

    /// A node greeted over the connection, and was taken: from now on the connection brings of nodes what that one sends alone.
    pub fn greet(&mut self, greeter: NodeId)
        ensures { self.new ≡ with_greeter self.old greeter }
    {
        self.greeter = Some(greeter);
    }

    // Whether a newer connection brings what that node sends. An older one ends.
    fn is_replaced<R: Wait>(&self, rt: &R, node: NodeId) -> bool {
        let number = u64::from(node.number());
        if self.speaks_for.swap(number, Ordering::SeqCst) == number {
            return self.connection.over().is_set();
        }
        self.connections.speak(rt, node, self.admitted.ticket) == Spoken::Replaced
    }
}

impl<F: Flushed> Admit for ConnectionAdmission<'_, F> {
    ghost use Rattle.std.specs.Prelude.{⊤};
    ghost use Rattle.cc_channels.specs.Admissions.{may_come};

    ghost may_turn_away = { ⊤ };

    ghost comes = { may_come };

    fn may_come(&self, event: &Event) -> bool {
        self.admitted.access.allows(event) && may_speak(self.greeter, self.needs_greeting, event)
    }

    fn admit<R: Wait>(
        &self,
        rt: &R,
        event: &Event,
        objection: Option<Objection>,
    ) -> Result<(), NotAdmitted> {
        if !self.may_come(event) {
            return Err(NotAdmitted::Barred);
        }
        if let Some(objection) = objection {
            return Err(NotAdmitted::Objected(objection));
        }
        if let Some(node) = speaker_of(event) {
            if self.is_replaced(rt, node) {
                return Err(NotAdmitted::Replaced);
            }
        }
        if matches!(event, Event::Ask { .. }) {
            self.hello_exchange.wait(rt);
        }
        if self.hello_exchange.old_copy().is_some() {
            return Err(NotAdmitted::Closed);
        }
        self.admission
            .admit(rt, self.waker, self.me, event, self.connection.over())
    }
}
