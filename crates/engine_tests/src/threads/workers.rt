//! Workers that bring events side by side, while one thread takes turns.

use crate::parts::{Part, id};
use crate::puts::{Put, put_of};
use crate::steps::{Step, carry_out, engine};
use crate::threads::held_sync::{Hold, Holding, TURNS};
use crate::threads::lives::{Disk, Story, live};
use cc_intake::{Accepted, Intake, Lane, Life, Queue, Refused, Share, Source, Turner, work};
use cc_messages::{Command, Event, Message, Output, Refusal};
use cc_node::Core;
use cc_site::Choice;
use cc_views::NodeId;
use std::alloc::{AllocError, Global};
use std::process::Abort;
use std::sync::atomic::{AtomicU64, Ordering};
use std::sync::{Mutex, Wait};
use std::test::*;
use std::thread;
use std::thread::{Threads, join};

// How many events a worker brings.
const EVENTS: u64 = 40;

// How many turns that take nothing follow each other at most.
const MOST_IDLE: u64 = 10_000_000;

/// What a worker brings: what it heard from one node, or asks of sessions, each of which asks the same twice.
#[derive(Clone, Copy)]
pub(crate) enum Brings {
    Messages,
    Asks,
}

// Brings events 1 to `last`, each again where the queue was full, and none once the engine has ended or the queue was full
// for too long.
#[derive(Drop)]
struct Peer<'a> {
    hooks: &'a Hold,
    brings: Brings,
    node: NodeId,
    next: u64,
    last: u64,
    full: u64,
    repeats: u64,
    refused: u64,
}

// The session whose ask event `number` of a worker is, for the first time or again.
fn session_of(node: u64, number: u64) -> u64 {
    let place = number.saturating_sub(1) / 2;
    node.wrapping_mul(100).wrapping_add(place)
}

impl Source for Peer<'_> {
    ghost gives = { λ s e t. Unit {0} };

    ghost hears = { λ s e a t. Unit {0} };

    fn next(&mut self) -> Option<Event> {
        let done = self.next > self.last || self.full >= TURNS;
        if done || self.hooks.ended.load(Ordering::SeqCst) == 1 {
            return None;
        }
        let event = match self.brings {
            Brings::Messages => Event::Deliver {
                from: self.node,
                number: self.next,
                message: Message::JoinEcho { node: self.node },
            },
            Brings::Asks => Event::Ask {
                session: session_of(u64::from(self.node.number()), self.next),
                request: 1,
                command: Command::SetFlag,
            },
        };
        Some(event)
    }

    fn told(&mut self, event: Event, answer: Result<Accepted, Refused>) {
        drop(event);
        if let Err(refused) = answer {
            match refused.why {
                Refusal::QueueFull => {
                    self.full = self.full.saturating_add(1);
                    thread::yield_now();
                    return;
                }
                Refusal::Repeat => self.repeats = self.repeats.saturating_add(1),
                _ => self.refused = self.refused.saturating_add(1),
            }
        }
        self.next = self.next.saturating_add(1);
        self.full = 0;
    }
}

// A worker: its share, and where its events come from.
#[derive(Drop)]
struct Worker<'a, L: Life> {
    share: Share<L>,
    peer: Peer<'a>,
}

// Takes turns until nothing is left after the workers have stopped, or the engine has ended; or until nothing came for too
// long: where no thread can be made, no worker begins before that.
fn turn_on<L: Life, Q: Lane, R: Wait>(
    rt: &R,
    hooks: &Hold,
    turner: &mut Turner<Disk<'_>, L, Q>,
    queue: &Queue<L, Q>,
    stop: &AtomicU64,
) {
    let mut idle = 0u64;
    for _ in rt.forever() {
        let stopped = stop.load(Ordering::SeqCst) == 1;
        match turner.turn(rt, queue) {
            Ok(turned) if turned.events > 0 => idle = 0,
            Ok(_) => {
                if stopped || idle >= MOST_IDLE {
                    return;
                }
                idle += 1;
                thread::yield_now();
            }
            Err(_) => {
                hooks.ended.store(1, Ordering::SeqCst);
                return;
            }
        }
    }
}

fn labour<'a, L: Life, Q: Lane, R: Wait>(
    rt: &R,
    alloc: Global,
    lock: &Mutex<Intake<L, Q>>,
    queue: &Queue<L, Q>,
    hooks: &Hold,
    worker: Worker<'a, L>,
) -> Worker<'a, L> {
    let Worker {
        mut share,
        mut peer,
    } = worker;
    work(rt, alloc, lock, queue, &mut share, hooks, &mut peer);
    Worker { share, peer }
}

fn labour_all<'a, L: Life + Send + Sync, Q: Lane + Send + Sync, R: Threads + Wait + Sync>(
    rt: &R,
    alloc: Global,
    lock: &Mutex<Intake<L, Q>>,
    queue: &Queue<L, Q>,
    hooks: &Hold,
    workers: Vec<Worker<'a, L>>,
) -> Result<Vec<Worker<'a, L>>, AllocError> {
    thread::map_vec(
        rt,
        workers,
        &|worker| { labour(rt, alloc, lock, queue, hooks, worker) },
    )
}

// The workers bring their events, while one thread takes turns.
fn labour_with_turns<'a, L: Life + Send + Sync, Q: Lane + Send + Sync, R: Threads + Wait + Sync>(
    rt: &R,
    alloc: Global,
    hooks: &Hold,
    lock: &Mutex<Intake<L, Q>>,
    turner: &mut Turner<Disk<'_>, L, Q>,
    queue: &Queue<L, Q>,
    workers: Vec<Worker<'a, L>>,
) -> Result<Vec<Worker<'a, L>>, AllocError> {
    let stop = AtomicU64::new(0);
    let (workers, ()) = join(
        rt,
        || {
            let done = labour_all(rt, alloc, lock, queue, hooks, workers);
            stop.store(1, Ordering::SeqCst);
            done
        },
        || turn_on(rt, hooks, turner, queue, &stop),
    );
    workers
}

/// So many workers, each of a node or of sessions of its own, bring so many events each, while one thread takes turns. Each
/// event is accepted, or a repeat of one.
pub(crate) fn labour_whole<L: Life + Send + Sync, Q: Lane + Send + Sync, R>(
    rt: &R,
    alloc: Global,
    hooks: &Hold,
    lock: &Mutex<Intake<L, Q>>,
    turner: &mut Turner<Disk<'_>, L, Q>,
    queue: &Queue<L, Q>,
    shares: &mut Vec<Share<L>>,
    brings: Brings,
    count: u32,
    last: u64,
)
where
    R: Abort + Threads + Wait + Sync,
{
    let mut workers = Vec::new(alloc);
    for i in 0..count {
        let peer = Peer {
            hooks,
            brings,
            node: id(i.wrapping_add(2)),
            next: 1,
            last,
            full: 0,
            repeats: 0,
            refused: 0,
        };
        let share = lock.lock(rt).share();
        let share = share.expect(rt, "a share");
        workers.push(Worker { share, peer }).expect(rt, "room");
    }
    let laboured = labour_with_turns(rt, alloc, hooks, lock, turner, queue, workers);
    for worker in laboured.expect(rt, "room") {
        let Worker { share, peer } = worker;
        let is_whole = share.count().wrapping_add(peer.repeats) == last && peer.refused == 0;
        drop(peer);
        shares.push(share).expect(rt, "room");
        assert!(rt; is_whole, "each event of a worker is accepted");
    }
    let late = hooks.late.load(Ordering::SeqCst);
    assert!(rt; late == 0, "no hold gives up");
}

#[test]
fn accepts_are_answered_while_a_sync_is_held(rt: HostRuntime) {
    let story = Story::Workers(Brings::Messages, 2, 1);
    let site = live(&rt, Holding::FirstSync, story, [2, 2, 2, 0]);
    assert!(rt; site.outputs().len() == 2, "both events are acknowledged");
    drop(site);
}

// How many acknowledgements went to the node. None where their numbers don't go up by one.
fn acks(outputs: &[Output], node: NodeId) -> Option<u64> {
    let mut last: u64 = 0;
    for output in outputs {
        match output {
            Output::Ack { to, number } if *to == node => {
                if *number != last.saturating_add(1) {
                    return None;
                }
                last = *number;
            }
            _ => {}
        }
    }
    Some(last)
}

// Whether the outputs acknowledge each event of each worker in its order, and the core heard them all.
fn heard_all(core: &Core, outputs: &[Output], count: u32) -> bool {
    for i in 0..count {
        let node = id(i.wrapping_add(2));
        if acks(outputs, node) != Some(EVENTS) || core.heard(node) != EVENTS {
            return false;
        }
    }
    true
}

// The outlet has each event of each worker once, and the node that is opened again heard them all.
#[test]
fn many_workers_have_one_history(rt: HostRuntime) {
    for &(count, all) in &[(2, 80), (4, 160), (8, 320)] {
        let story = Story::Workers(Brings::Messages, count, EVENTS);
        let site = live(&rt, Holding::EachSync, story, [all, all, all, 0]);
        let image = site
            .image(rt.alloc(), &Choice::Read)
            .expect(&rt, "an image");
        let flusher = engine(&rt, image);
        let outputs = site.outputs();
        let has_all = heard_all(flusher.twin().core(), outputs, count);
        let is_once = outputs.len() as u64 == all;
        drop(flusher.close());
        drop(site);
        assert!(rt;
            is_once && has_all,
            "the disk and the outlet have all events once"
        );
    }
}

// How many replies to the first request of a session there are.
fn replies_to(outputs: &[Output], session: u64) -> u64 {
    let mut count: u64 = 0;
    for output in outputs {
        if put_of(output) == Put::Reply(session, 1, true) {
            count = count.saturating_add(1);
        }
    }
    count
}

// Whether each of 11 sessions of each of three workers is replied to once.
fn are_answered_once(outputs: &[Output]) -> bool {
    for node in 2..5 {
        for number in 0..11 {
            if replies_to(outputs, session_of(node, 2 * number + 1)) != 1 {
                return false;
            }
        }
    }
    true
}

// One ask is pending then, and 32 wait, which begin together once the two posts of the first have come back.
#[test]
fn asks_of_many_workers_are_accepted_and_answered_once(rt: HostRuntime) {
    let story = Story::Workers(Brings::Asks, 3, 22);
    let site = live(&rt, Holding::EachSync, story, [33, 33, 33, 0]);
    let image = site
        .image(rt.alloc(), &Choice::Read)
        .expect(&rt, "an image");
    drop(site);
    let mut flusher = engine(&rt, image);
    for number in 1..5 {
        let came = carry_out(&rt, &mut flusher, Step::Turn(Part::Own(number)));
        assert!(rt; came == Ok(0));
    }
    let is_once = are_answered_once(flusher.site().outputs());
    let posts = flusher.twin().core().posts();
    drop(flusher.close());
    assert!(rt;
        is_once && posts == 4,
        "all asks are answered in two rounds"
    );
}
