//! Admission to the queue, for which workers wait until it has room, and the node has room for posts: so none of them finds
//! the queue full.

ghost use Rattle.std.specs.Prelude.{◌≤◌, IfSome, IfErr, true, None};
ghost use Rattle.cc_channels.specs.Admissions.{IsWhy};

use crate::connections::Connections;
use crate::durable::Durable;
use crate::grants::Grants;
use crate::waker::Waker;
use cc_connections::Flag;
use cc_messages::Event;
use cc_node::{Core, Node};
use cc_ops::{Asked, Stage};
use cc_policies::{Objection, is_furthest_behind, is_given_up, may_hand_over};
use cc_site::Flushed;
use cc_views::NodeId;
use std::alloc::{AllocError, Global};
use std::sync::atomic::{AtomicU64, Ordering};
use std::sync::{Condvar, Mutex, Wait};

// How many entries the queue has.
const PERMITS: u64 = 256;

// How many peers that are furthest behind are known by name.
const MOST_FURTHEST: usize = 256;

// How many asks of a node aren't answered at most: the 32 of a round, and the 32 that wait behind it.
const MOST_UNANSWERED: usize = 64;

/// Why an event wasn't admitted.
#[derive(Clone, Copy, PartialEq, Eq)]
pub enum NotAdmitted {
    /// The node takes no further event.
    Closed,
    /// Its connection is over.
    Over,
    /// A newer connection brings what the same node sends.
    Replaced,
    /// It is a message that was held back for so long that its link sends it again.
    Waited,
    /// No such event may come over its connection.
    Barred,
    /// The operator's request isn't brought to the node, for that reason.
    Objected(Objection),
}

/// One permit for each entry of the queue. An event takes one before it is handed over, and gives it back when it is refused
/// or flushed.
#[derive(Drop)]
pub struct Admission<F: Flushed> {
    permits: Mutex<Permits<F>>,
    // A permit may be free, or what waits for one may be let in.
    changed: Condvar,
    // Events were flushed.
    settled: Condvar,
    // How many accepted events were told of.
    accepted: AtomicU64,
}

#[derive(Drop)]
struct Permits<F: Flushed> {
    taken: u64,
    // How many events were flushed since the start.
    flushed: Durable<F>,
    // How many posts the node kept after the last turn, which peers were furthest behind then, and what wasn't answered.
    kept: u64,
    furthest: Vec<NodeId>,
    unanswered: Vec<Asked>,
    // How many seconds have passed.
    ticks: u64,
    is_closed: bool,
}

impl<F: Flushed> Permits<F> {
    // Whether there is a permit for an event that was held back for so long, where so many events were accepted.
    fn has_one_for(&self, me: NodeId, event: &Event, waited: u64, accepted: u64) -> bool {
        let unflushed = accepted.saturating_sub(self.flushed.count());
        let kept = self.kept.saturating_add(unflushed);
        self.taken < PERMITS && may_hand_over(me, event, kept, self.is_furthest(event), waited)
    }

    // Wakes the flusher where something may lie in the queue.
    fn wake(&self, waker: &Waker) {
        if self.taken > 0 {
            waker.wake();
        }
    }

    fn is_furthest(&self, event: &Event) -> bool {
        match event {
            Event::Deliver { from, .. } => self.furthest.iter().any(|peer| peer == from),
            _ => false,
        }
    }

    // Looks who is furthest behind, and what isn't answered.
    fn look(&mut self, node: &Node) {
        self.kept = node.kept() as u64;
        let core = node.core();
        note_furthest(core, &mut self.furthest);
        note_unanswered(core, &mut self.unanswered);
    }
}

fn note_furthest(core: &Core, furthest: &mut Vec<NodeId>) {
    furthest.clear();
    let least = core.lowest();
    for link in core.links().rows() {
        if is_furthest_behind(core, least, link.peer) {
            let _ = furthest.push(link.peer);
        }
    }
}

fn note_unanswered(core: &Core, unanswered: &mut Vec<Asked>) {
    unanswered.clear();
    if let Some(asked) = pending_ask(core.ops().stage()) {
        let _ = unanswered.push(asked);
    }
    push_all(unanswered, core.ops().others().asks());
    push_all(unanswered, core.ops().line().asks());
}

fn push_all(unanswered: &mut Vec<Asked>, asks: &[Asked]) {
    for asked in asks {
        let _ = unanswered.push(*asked);
    }
}

fn pending_ask(stage: Stage) -> Option<Asked> {
    match stage {
        Stage::Idle => None,
        Stage::Storing(pending) | Stage::Querying(pending) | Stage::StoringBack(pending) => {
            Some(pending.asked)
        }
    }
}

impl<F: Flushed> Admission<F> {
    /// Admission to a node that was opened, of which no event is flushed yet.
    pub fn new(alloc: Global, flushed: Durable<F>) -> Result<Self, AllocError> {
        let furthest = Vec::with_capacity(alloc, MOST_FURTHEST)?;
        let Ok(unanswered) = Vec::with_capacity(alloc, MOST_UNANSWERED) else {
            drop(furthest);
            return Err(AllocError);
        };
        Ok(Admission {
            permits: Mutex::new(Permits {
                taken: 0,
                flushed,
                kept: 0,
                furthest,
                unanswered,
                ticks: 0,
                is_closed: false,
            }),
            changed: Condvar::new(),
            settled: Condvar::new(),
            accepted: AtomicU64::new(0),
        })
    }

    /// Waits until the event may be handed to the node `me`, and takes a permit for it. It wakes the flusher, since what would
    /// make room may lie in the queue. It gives up where admission is closed or the connection is over, and of a message that
    /// its link sends again.
    pub fn admit<R: Wait>(
        &self,
        rt: &R,
        waker: &Waker,
        me: NodeId,
        event: &Event,
        over: &Flag,
    ) -> Result<(), NotAdmitted>
        ensures why { IfErr result (λ why. IsWhy true None why) }
    {
        let mut permits = self.permits.lock(rt);
        let since = permits.ticks;
        for _ in rt.forever() {
            if permits.is_closed {
                return Err(NotAdmitted::Closed);
            }
            if over.is_set() {
                return Err(NotAdmitted::Over);
            }
            let waited = permits.ticks.saturating_sub(since);
            if permits.has_one_for(me, event, waited, self.accepted.load(Ordering::SeqCst)) {
                permits.taken = permits.taken.saturating_add(1);
                return Ok(());
            }
            if is_given_up(event, waited) {
                return Err(NotAdmitted::Waited);
            }
            permits.wake(waker);
            permits = self.changed.wait(rt, permits);
        }
        unreachable!()
    }

    /// Waits for a permit, whatever it is for. False where admission is closed.
    pub fn admit_any<R: Wait>(&self, rt: &R, waker: &Waker) -> bool {
        let mut permits = self.permits.lock(rt);
        for _ in rt.forever() {
            if permits.is_closed {
                return false;
            }
            if permits.taken < PERMITS {
                permits.taken = permits.taken.saturating_add(1);
                return true;
            }
            permits.wake(waker);
            permits = self.changed.wait(rt, permits);
        }
        unreachable!()
    }

    /// An event was accepted: others are held back for it until it is flushed.
    pub fn accept(&self) {
        self.accepted.fetch_add(1, Ordering::SeqCst);
    }

    /// An event was refused: its permit is free.
    pub fn release<R: Wait>(&self, rt: &R) {
        let mut permits = self.permits.lock(rt);
        let was_full = permits.taken >= PERMITS;
        permits.taken = permits.taken.saturating_sub(1);
        drop(permits);
        if was_full {
            self.changed.notify_all();
        }
    }

    /// Waits until so many events are durable, and wakes the flusher where they aren't. None where admission is closed before
    /// that.
    pub fn settle<R: Wait>(&self, rt: &R, waker: &Waker, judged: u64) -> Option<Durable<F>>
        ensures { IfSome result (λ durable. judged ≤ durable) }
    {
        let mut permits = self.permits.lock(rt);
        if permits.flushed.count() < judged {
            waker.wake();
        }
        for _ in rt.forever() {
            let durable = permits.flushed.again();
            if durable.count() >= judged {
                return Some(durable);
            }
            if permits.is_closed {
                return None;
            }
            permits = self.settled.wait(rt, permits);
        }
        unreachable!()
    }

    /// Waits until all that was asked over the connection with that ticket is answered, or asked over another one: what was asked
    /// once more is, once the wishes were granted that were made by now.
    pub fn outlast<R: Wait>(
        &self,
        rt: &R,
        waker: &Waker,
        connections: &Connections,
        grants: &Grants,
        ticket: u64,
        over: &Flag,
    ) {
        let accepted = self.accepted.load(Ordering::SeqCst);
        let made = grants.made();
        let mut permits = self.permits.lock(rt);
        if permits.flushed.count() < accepted {
            waker.wake();
        }
        for _ in rt.forever() {
            let is_done = permits.flushed.count() >= accepted && grants.has(made);
            if is_done && !connections.awaits(rt, ticket, &permits.unanswered) {
                return;
            }
            if permits.is_closed || over.is_set() {
                return;
            }
            permits = self.settled.wait(rt, permits);
        }
        unreachable!()
    }

    /// So many of `flushed` events were flushed just now, and left the node like this: their permits are free.
    pub fn turned<R: Wait>(&self, rt: &R, events: u64, flushed: Durable<F>, node: &Node) {
        let mut permits = self.permits.lock(rt);
        permits.taken = permits.taken.saturating_sub(events);
        permits.flushed = flushed;
        permits.look(node);
        drop(permits);
        self.changed.notify_all();
        self.settled.notify_all();
    }

    /// Wishes were granted.
    pub fn granted<R: Wait>(&self, rt: &R) {
        drop(self.permits.lock(rt));
        self.settled.notify_all();
    }

    /// A second has passed.
    pub fn tick<R: Wait>(&self, rt: &R) {
        let mut permits = self.permits.lock(rt);
        permits.ticks = permits.ticks.saturating_add(1);
        drop(permits);
        self.changed.notify_all();
        self.settled.notify_all();
    }

    /// Nobody waits any more.
    pub fn close<R: Wait>(&self, rt: &R) {
        self.permits.lock(rt).is_closed = true;
        self.changed.notify_all();
        self.settled.notify_all();
    }
}
