//! A node that stores on and on, brings its own messages back to itself, and tells how many of its events stand.

ghost use Rattle.std.specs.Prelude.{◌≡◌, ◌≤◌, false, length, IfOk, OnOk};
ghost use Rattle.cc_journal.specs.Batches.{AreLawful};

use crate::bench_fault::BenchFault;
use cc_flush::{Back, Flusher};
use cc_journal::{Batch, Entry};
use cc_messages::{Command, Event};
use cc_node::{Core, Node};
use cc_site::{FileSite, NoOutlet, Site};
use cc_views::{NodeId, Text};
use std::alloc::Global;
use std::io::Write;

// A checkpoint comes after so many events, and then again.
const BETWEEN_CHECKPOINTS: u64 = 50;

// It ends by itself after so many events.
const MOST_EVENTS: u64 = 1_000_000;

// How many messages the node's own link has acknowledged.
fn acked(core: &Core, me: NodeId) -> u64 {
    let mut acked = 0;
    for link in core.links().rows() {
        if link.peer == me {
            acked = link.acked;
        }
    }
    acked
}

// How many events a node has taken in that was never given anything but these, in this order, again and again: an ask of
// a store, the two messages that it makes, as they come back, and the acknowledgement of both. The first and the fourth
// make or acknowledge what the other two bring back one by one, so each is told by the counts of all three.
fn taken(core: &Core) -> u64 {
    let me = core.me();
    let moved = core
        .posts()
        .saturating_add(core.heard(me))
        .saturating_add(acked(core, me));
    moved / 3 * 2 + moved % 3
}

// The event that comes next.
fn next_event(alloc: Global, node: &Node) -> Result<Event, BenchFault> {
    let core = node.core();
    match taken(core) % 4 {
        0 => next_ask(core),
        3 => Ok(Event::Acked {
            peer: core.me(),
            number: core.posts(),
        }),
        _ => next_delivery(alloc, node),
    }
}

fn next_ask(core: &Core) -> Result<Event, BenchFault> {
    let text = Text::new(b"written").ok_or(BenchFault::Foreign)?;
    Ok(Event::Ask {
        session: 1,
        request: core.ops().number().saturating_add(1),
        command: Command::Store(text),
    })
}

fn next_delivery(alloc: Global, node: &Node) -> Result<Event, BenchFault> {
    let from = node.me();
    let number = node.heard(from).saturating_add(1);
    let post = node.outbox().post(number).ok_or(BenchFault::Foreign)?;
    Ok(Event::Deliver {
        from,
        number,
        message: post.copy(alloc)?,
    })
}

fn next_batch(alloc: Global, node: &Node) -> Result<Batch, BenchFault>
    ensures lawful { IfOk result (AreLawful node.now) }
    ensures some { IfOk result (λ b. 1 ≤ length b) }
{
    let event = next_event(alloc, node)?;
    Ok(Batch::of_one(Entry::of(alloc, node.core(), event)?))
}

// Makes the next event durable. How many have been taken in by then.
fn take_next<S: Site + Drop>(alloc: Global, engine: &mut Flusher<S>) -> Result<u64, BenchFault>
    requires { engine.old.owes ≡ false }
    ensures { OnOk result (engine.new.owes ≡ false) }
{
    if !engine.room() {
        return Err(BenchFault::Full);
    }
    let mut batch = next_batch(alloc, engine.twin())?;
    engine.flush(&mut batch)?;
    Ok(taken(engine.twin().core()))
}

// Tells how many events the node has, and then takes in one after the other, each in a batch of its own. After each it
// tells how many are durable. Now and then comes a checkpoint, behind which the engine goes on on the other side.
fn write_on<S: Site + Drop, W: Write>(
    alloc: Global,
    engine: &mut Flusher<S>,
    output: &mut W,
) -> Result<(), BenchFault>
    requires { engine.old.owes ≡ false }
{
    writeln!(output, "opened {}", taken(engine.twin().core()))?;
    for _ in 0..MOST_EVENTS {
        let count = take_next(alloc, engine)?;
        writeln!(output, "durable {count}")?;
        if count % BETWEEN_CHECKPOINTS == 0 {
            engine.checkpoint()?;
        }
    }
    Ok(())
}

/// Opens the node in a folder and writes on it until it is killed: `make kill-files` does so a thousand times.
pub fn write_on_folder(rt: &HostRuntime, folder: &str) -> Result<(), BenchFault> {
    let mut engine = opened(rt, folder)?;
    let outcome = write_on(rt.alloc(), &mut engine, &mut rt.stdout());
    drop(engine);
    outcome
}

fn opened(rt: &HostRuntime, folder: &str) -> Result<Flusher<FileSite<NoOutlet>>, BenchFault>
    ensures { IfOk result (λ engine. engine.owes ≡ false) }
{
    let site = FileSite::open(rt, rt.alloc(), folder, NoOutlet)?;
    match Flusher::open(rt.alloc(), site) {
        Ok((engine, core)) => {
            drop(core);
            Ok(engine)
        }
        Err(Back { site, fault }) => {
            drop(site);
            Err(BenchFault::Open(fault))
        }
    }
}
