//! How long the engine takes for an event, from the decision to the outputs.

ghost use Rattle.std.specs.Prelude.{◌≡◌, ◌≤◌, [], false, length, OnOk, IfOk};
ghost use Rattle.cc_node.specs.Node.{after};
ghost use Rattle.cc_journal.specs.Batches.{AreLawful, events_in};

use crate::bench_fault::BenchFault;
use crate::events::{Kind, acknowledgements, copies, delivery, first_of, members};
use cc_flush::{Back, Flusher, format};
use cc_journal::{Batch, Entry};
use cc_messages::Event;
use cc_node::Core;
use cc_site::Site;
use std::alloc::Global;
use std::fmt;
use std::time::{Clock, CpuClock, Duration, Instant};

/// A second, in nanoseconds.
pub const SECOND: u128 = 1_000_000_000;

/// How many stores a round has. Then each peer acknowledges the posts, so that there is room for more.
pub const ROUND: u64 = 256;

// After so many seconds no further round begins.
const LONG_ENOUGH: u64 = 1;

/// What the engine gets.
#[derive(Clone, Copy)]
pub struct EngineLoad {
    /// How many nodes the cluster has. Each store brings a row of each of them.
    pub nodes: u32,
    /// How many events a batch has: 1 to 64.
    pub batch: usize,
    /// How many rounds there are at most.
    pub rounds: u64,
}

/// What a store takes on the average, in nanoseconds.
#[derive(Clone, Copy)]
pub struct EngineTimes {
    /// From its beginning to its end.
    pub elapsed: u128,
    /// Of the processor, for the program and for the system on its behalf.
    pub processor: u128,
}

/// The microseconds of a store, those of the processor, and how many stores a second takes.
impl fmt::Display for EngineTimes {
    fn fmt<W: fmt::Write>(&self, f: &mut fmt::Formatter<W>) -> fmt::Result {
        let elapsed = Hundredths(self.elapsed / 10);
        let processor = Hundredths(self.processor / 10);
        let rate = SECOND / self.elapsed.max(1);
        write!(
            f,
            "{elapsed} us ({processor} us of the processor), {rate} a second"
        )
    }
}

/// A number of hundredths, written as a decimal fraction.
#[derive(Clone, Copy)]
pub struct Hundredths(pub u128);

impl fmt::Display for Hundredths {
    fn fmt<W: fmt::Write>(&self, f: &mut fmt::Formatter<W>) -> fmt::Result {
        let whole = self.0 / 100;
        let rest = self.0 % 100;
        write!(f, "{whole}.{rest:02}")
    }
}

// The time so far, and what the thread has used of the processor.
#[derive(Clone, Copy)]
struct Spent {
    stores: u64,
    elapsed: Duration,
    processor: Duration,
}

impl Spent {
    // Both together.
    fn with(&self, other: &Spent) -> Spent {
        Spent {
            stores: self.stores.saturating_add(other.stores),
            elapsed: self.elapsed.saturating_add(other.elapsed),
            processor: self.processor.saturating_add(other.processor),
        }
    }

    // What one store took. A round is some stores at least.
    fn on_one(&self) -> EngineTimes {
        let stores = u128::from(self.stores.max(1));
        EngineTimes {
            elapsed: self.elapsed.as_nanos() / stores,
            processor: self.processor.as_nanos() / stores,
        }
    }
}

/// What a store takes in an engine over a site, which is formatted first: to decide on it, to make what it makes, to apply
/// it, to make it durable, and to put its outputs. The acknowledgements don't count in.
pub fn engine_times<S: Site + Drop, C: Clock + CpuClock>(
    clock: &C,
    alloc: Global,
    site: S,
    load: EngineLoad,
) -> Result<EngineTimes, BenchFault> {
    let (mut engine, mut live) = opened(alloc, site, load.nodes)?;
    let outcome = first_rounds(clock, alloc, &mut engine, &mut live, load);
    drop(live);
    drop(engine);
    outcome
}

// What a store takes in an engine that nothing was given yet.
fn first_rounds<S: Site + Drop, C: Clock + CpuClock>(
    clock: &C,
    alloc: Global,
    engine: &mut Flusher<S>,
    live: &mut Core,
    load: EngineLoad,
) -> Result<EngineTimes, BenchFault>
    requires owes { engine.old.owes ≡ false }
    requires live { live.old ≡ engine.old.twin.core }
{
    let store = delivery(alloc, live, Kind::Store)?;
    let outcome = rounds(clock, alloc, engine, live, &store, load);
    drop(store);
    outcome
}

fn rounds<S: Site + Drop, C: Clock + CpuClock>(
    clock: &C,
    alloc: Global,
    engine: &mut Flusher<S>,
    live: &mut Core,
    store: &Event,
    load: EngineLoad,
) -> Result<EngineTimes, BenchFault>
    requires owes { engine.old.owes ≡ false }
    requires live { live.old ≡ engine.old.twin.core }
{
    let mut spent = Spent {
        stores: 0,
        elapsed: Duration::ZERO,
        processor: Duration::ZERO,
    };
    for _ in 0..load.rounds {
        let round = round(clock, alloc, engine, live, store, load.batch)?;
        spent = spent.with(&round);
        if spent.elapsed.as_secs() >= LONG_ENOUGH {
            break;
        }
    }
    Ok(spent.on_one())
}

// What it is now by the clock, and what the thread has used of the processor.
fn now<C: Clock + CpuClock>(clock: &C) -> Result<(Instant, Duration), BenchFault> {
    let now = Instant::now(clock)?;
    Ok((now, clock.thread_cpu_time()?))
}

// A round of stores, which is timed, and then the acknowledgements of all posts, which aren't.
fn round<S: Site + Drop, C: Clock + CpuClock>(
    clock: &C,
    alloc: Global,
    engine: &mut Flusher<S>,
    live: &mut Core,
    store: &Event,
    batch: usize,
) -> Result<Spent, BenchFault>
    requires owes { engine.old.owes ≡ false }
    requires live { live.old ≡ engine.old.twin.core }
    ensures owes { OnOk result (engine.new.owes ≡ false) }
    ensures live { OnOk result (live.new ≡ engine.new.twin.core) }
{
    let events = copies(alloc, live, store, ROUND)?;
    let (start, used) = match now(clock) {
        Ok(now) => now,
        Err(fault) => {
            drop(events);
            return Err(fault);
        }
    };
    run(alloc, engine, live, events, batch)?;
    let spent = Spent {
        stores: ROUND,
        processor: clock.thread_cpu_time()?.saturating_sub(used),
        elapsed: start.elapsed(clock)?,
    };
    let events = acknowledgements(alloc, live)?;
    run(alloc, engine, live, events, Batch::MAX_ENTRIES)?;
    Ok(spent)
}

// The engine of the first of so many members, and its core.
fn opened<S: Site + Drop>(
    alloc: Global,
    site: S,
    nodes: u32,
) -> Result<(Flusher<S>, Core), BenchFault>
    ensures owes { IfOk result (λ opened. opened.0.owes ≡ false) }
    ensures live { IfOk result (λ opened. opened.1 ≡ opened.0.twin.core) }
{
    let site = formatted(alloc, site, nodes)?;
    match Flusher::open(alloc, site) {
        Ok(opened) => Ok(opened),
        Err(Back { site, fault }) => {
            drop(site);
            Err(BenchFault::Open(fault))
        }
    }
}

// The site as the first of so many members begins on it.
fn formatted<S: Site + Drop>(alloc: Global, site: S, nodes: u32) -> Result<S, BenchFault> {
    let ids = members(alloc, nodes)?;
    match format(alloc, site, &first_of(&ids)) {
        Ok(site) => Ok(site),
        Err(Back { site, fault }) => {
            drop(site);
            Err(BenchFault::Format(fault))
        }
    }
}

// Takes events in batches of so many, the last of which may be shorter. The live core is a batch ahead of the engine.
fn run<S: Site + Drop>(
    alloc: Global,
    engine: &mut Flusher<S>,
    live: &mut Core,
    events: Vec<Event>,
    full: usize,
) -> Result<(), BenchFault>
    requires owes { engine.old.owes ≡ false }
    requires live { live.old ≡ engine.old.twin.core }
    ensures owes { OnOk result (engine.new.owes ≡ false) }
    ensures live { OnOk result (live.new ≡ engine.new.twin.core) }
{
    let mut batch = Batch::new();
    let outcome = take_all(alloc, engine, live, &mut batch, events, full);
    drop(batch);
    outcome
}

// The same through a batch that is empty.
fn take_all<S: Site + Drop>(
    alloc: Global,
    engine: &mut Flusher<S>,
    live: &mut Core,
    batch: &mut Batch,
    events: Vec<Event>,
    full: usize,
) -> Result<(), BenchFault>
    requires empty { batch.old ≡ [] }
    requires owes { engine.old.owes ≡ false }
    requires live { live.old ≡ engine.old.twin.core }
    ensures owes { OnOk result (engine.new.owes ≡ false) }
    ensures live { OnOk result (live.new ≡ engine.new.twin.core) }
{
    for event in events {
        add(alloc, engine, live, batch, event)?;
        if batch.len() >= full {
            turn(engine, batch)?;
        }
    }
    if batch.len() > 0 {
        turn(engine, batch)?;
    }
    Ok(())
}

// Adds an event to a batch that is lawful from the engine's node on, and to the core that the batch leads to.
fn add<S: Site + Drop>(
    alloc: Global,
    engine: &Flusher<S>,
    live: &mut Core,
    batch: &mut Batch,
    event: Event,
) -> Result<(), BenchFault>
    requires lawful { AreLawful engine.now.twin batch.old }
    requires live { live.old ≡ (after engine.now.twin (events_in batch.old)).core }
    ensures lawful { OnOk result (AreLawful engine.now.twin batch.new) }
    ensures live { OnOk result (live.new ≡ (after engine.now.twin (events_in batch.new)).core) }
    ensures some { OnOk result (1 ≤ length batch.new) }
{
    let entry = Entry::of(alloc, live, event)?;
    live.apply(&entry.event);
    batch.push(entry)?;
    Ok(())
}

// Makes a batch durable, and puts its outputs.
fn turn<S: Site + Drop>(engine: &mut Flusher<S>, batch: &mut Batch) -> Result<(), BenchFault>
    requires owes { engine.old.owes ≡ false }
    requires some { 1 ≤ length batch.old }
    requires lawful { AreLawful engine.old.twin batch.old }
    ensures empties { OnOk result (batch.new ≡ []) }
    ensures owes { OnOk result (engine.new.owes ≡ false) }
    ensures twin { OnOk result (engine.new.twin ≡ after engine.old.twin (events_in batch.old)) }
{
    if !engine.room() {
        return Err(BenchFault::Full);
    }
    engine.flush(batch)?;
    Ok(())
}
