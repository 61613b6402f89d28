//! How long the node in memory takes for an event.

use crate::bench_fault::BenchFault;
use crate::events::{Kind, acknowledgements, delivery, first_of, members};
use cc_messages::{Event, Refusal};
use cc_node::{Core, Node, Opening};
use std::alloc::Global;
use std::time::{Clock, Instant};

// After so many deliveries their posts are acknowledged, so that there is room for more.
const ROUND: u64 = 256;

/// The nanoseconds that a member of so many nodes takes for one of so many events, deciding, making and applying together.
/// It has seen a row of each node.
pub fn event_nanoseconds<C: Clock>(
    clock: &C,
    alloc: Global,
    nodes: u32,
    kind: Kind,
    count: u64,
) -> Result<u128, BenchFault> {
    let mut core = member(alloc, nodes)?;
    let outcome = nanoseconds_of(clock, alloc, &mut core, kind, count);
    drop(core);
    outcome
}

// The first of so many members, as it begins.
fn member(alloc: Global, nodes: u32) -> Result<Core, BenchFault> {
    let ids = members(alloc, nodes)?;
    core_of(alloc, &first_of(&ids))
}

fn core_of(alloc: Global, opening: &Opening<'_>) -> Result<Core, BenchFault> {
    let Ok(fresh) = Node::fresh(alloc, opening) else {
        return Err(BenchFault::NoMemory);
    };
    let core = fresh.core().copy(alloc);
    drop(fresh);
    Ok(core?)
}

fn nanoseconds_of<C: Clock>(
    clock: &C,
    alloc: Global,
    core: &mut Core,
    kind: Kind,
    count: u64,
) -> Result<u128, BenchFault> {
    show_rows(alloc, core)?;
    let mut given = delivery(alloc, core, kind)?;
    let outcome = time_deliveries(clock, alloc, core, &mut given, count);
    drop(given);
    outcome
}

fn show_rows(alloc: Global, core: &mut Core) -> Result<(), BenchFault> {
    let seen = delivery(alloc, core, Kind::Store)?;
    let outcome = take(alloc, core, &seen);
    drop(seen);
    outcome?;
    Ok(())
}

// What one delivery takes.
fn time_deliveries<C: Clock>(
    clock: &C,
    alloc: Global,
    core: &mut Core,
    given: &mut Event,
    count: u64,
) -> Result<u128, BenchFault> {
    let start = Instant::now(clock)?;
    let taken = deliver(alloc, core, given, count)?;
    Ok(start.elapsed(clock)?.as_nanos() / u128::from(taken.max(1)))
}

// Delivers so many messages. How many were accepted.
fn deliver(
    alloc: Global,
    core: &mut Core,
    given: &mut Event,
    count: u64,
) -> Result<u64, BenchFault> {
    let mut taken: u64 = 0;
    for i in 0..count {
        if deliver_next(alloc, core, given)? {
            taken = taken.saturating_add(1);
        }
        if i % ROUND == 0 {
            acknowledge(alloc, core)?;
        }
    }
    Ok(taken)
}

// Delivers the message under the next number. False where it is refused.
fn deliver_next(alloc: Global, core: &mut Core, given: &mut Event) -> Result<bool, BenchFault> {
    let heard = core.heard(core.me());
    if let Event::Deliver { number, .. } = given {
        *number = heard.saturating_add(1);
    }
    take(alloc, core, given)
}

// Each peer acknowledges all posts so far.
fn acknowledge(alloc: Global, core: &mut Core) -> Result<(), BenchFault> {
    let events = acknowledgements(alloc, core)?;
    let outcome = take_all(alloc, core, &events);
    drop(events);
    outcome
}

fn take_all(alloc: Global, core: &mut Core, events: &[Event]) -> Result<(), BenchFault> {
    for event in events {
        take(alloc, core, event)?;
    }
    Ok(())
}

// Decides on the event, makes what it makes, and takes it in. False where it is refused.
fn take(alloc: Global, core: &mut Core, event: &Event) -> Result<bool, BenchFault> {
    match core.made_or_refused(alloc, event) {
        Ok(made) => {
            drop(made);
            core.apply(event);
            Ok(true)
        }
        Err(Refusal::NoMemory) => Err(BenchFault::NoMemory),
        Err(_) => Ok(false),
    }
}
