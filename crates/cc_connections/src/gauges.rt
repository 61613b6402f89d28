//! What the threads of a node count.

use crate::counts::{Counted, SYNC_BOUNDS, SyncCounts};
use cc_messages::{Command, Refusal};
use std::alloc::{AllocError, Global};
use std::sync::atomic::{AtomicU64, Ordering};

// How many refusals, buckets of syncs and commands there are.
const REFUSALS: usize = 18;

const BUCKETS: usize = 17;

const COMMANDS: usize = 8;

/// What the threads of a node count, without waiting for each other.
#[derive(Drop)]
pub struct Gauges {
    // How many events were refused, by the refusal's number less one.
    refusals: Vec<AtomicU64>,
    // How many asks were accepted, by the place of their command.
    asks: Vec<AtomicU64>,
    // How many syncs took so long, by their bucket.
    buckets: Vec<AtomicU64>,
    total_us: AtomicU64,
    worst_us: AtomicU64,
    // The longest since it was asked for last.
    slowest_us: AtomicU64,
    connections: AtomicU64,
    // How many posts were withheld, and how many skips went out and came in.
    withheld: AtomicU64,
    skips_sent: AtomicU64,
    skips_heard: AtomicU64,
}

impl Gauges {
    /// Nothing was counted yet.
    pub fn new(alloc: Global) -> Result<Self, AllocError> {
        let refusals = zeros(alloc, REFUSALS)?;
        let Ok(asks) = zeros(alloc, COMMANDS) else {
            drop(refusals);
            return Err(AllocError);
        };
        let Ok(buckets) = zeros(alloc, BUCKETS) else {
            drop((refusals, asks));
            return Err(AllocError);
        };
        Ok(Gauges {
            refusals,
            asks,
            buckets,
            total_us: AtomicU64::new(0),
            worst_us: AtomicU64::new(0),
            slowest_us: AtomicU64::new(0),
            connections: AtomicU64::new(0),
            withheld: AtomicU64::new(0),
            skips_sent: AtomicU64::new(0),
            skips_heard: AtomicU64::new(0),
        })
    }

    /// An event was refused.
    pub fn refuse(&self, why: Refusal) {
        let place = usize::from(why.number()).saturating_sub(1);
        if let Some(count) = self.refusals.get(place) {
            count.fetch_add(1, Ordering::SeqCst);
        }
    }

    /// An ask was accepted.
    pub fn ask(&self, command: &Command) {
        if let Some(count) = self.asks.get(place_of(command)) {
            count.fetch_add(1, Ordering::SeqCst);
        }
    }

    /// A sync took so many microseconds.
    pub fn sync(&self, micros: u64) {
        if let Some(count) = self.buckets.get(bucket_of(micros)) {
            count.fetch_add(1, Ordering::SeqCst);
        }
        self.total_us.fetch_add(micros, Ordering::SeqCst);
        self.worst_us.fetch_max(micros, Ordering::SeqCst);
        self.slowest_us.fetch_max(micros, Ordering::SeqCst);
    }

    /// How many microseconds the longest sync took since this was called last.
    pub fn take_slowest(&self) -> u64 {
        self.slowest_us.swap(0, Ordering::SeqCst)
    }

    /// A connection was opened.
    pub fn open(&self) {
        self.connections.fetch_add(1, Ordering::SeqCst);
    }

    /// A connection was closed.
    pub fn close(&self) {
        self.connections.fetch_sub(1, Ordering::SeqCst);
    }

    /// A post was put for a peer, which is withheld where it isn't for that one.
    pub fn put_post(&self, is_for: bool) {
        if !is_for {
            self.withheld.fetch_add(1, Ordering::SeqCst);
        }
    }

    /// A peer was told which posts are for others.
    pub fn send_skip(&self) {
        self.skips_sent.fetch_add(1, Ordering::SeqCst);
    }

    /// A peer told which posts are for others.
    pub fn hear_skip(&self) {
        self.skips_heard.fetch_add(1, Ordering::SeqCst);
    }

    /// Puts what was counted where it is shown.
    pub fn read(&self, counted: &mut Counted) {
        copy_all(&self.refusals, &mut counted.refusals);
        copy_all(&self.asks, &mut counted.asks);
        counted.connections = self.connections.load(Ordering::SeqCst);
        counted.withheld = self.withheld.load(Ordering::SeqCst);
        counted.skips_sent = self.skips_sent.load(Ordering::SeqCst);
        counted.skips_heard = self.skips_heard.load(Ordering::SeqCst);
        let syncs = &mut counted.syncs;
        copy_all(&self.buckets, &mut syncs.buckets);
        syncs.total_us = self.total_us.load(Ordering::SeqCst);
        syncs.worst_us = self.worst_us.load(Ordering::SeqCst);
    }
}

fn zeros(alloc: Global, count: usize) -> Result<Vec<AtomicU64>, AllocError> {
    let mut zeros = Vec::with_capacity(alloc, count)?;
    for _ in 0..count {
        zeros.push(AtomicU64::new(0))?;
    }
    Ok(zeros)
}

// The bucket of a sync that took so many microseconds: the first whose bound it doesn't pass.
fn bucket_of(micros: u64) -> usize {
    SYNC_BOUNDS
        .iter()
        .take_while(|bound| **bound < micros)
        .count()
}

// The place of a command among the names of commands.
fn place_of(command: &Command) -> usize {
    match command {
        Command::Store(_) => 0,
        Command::Collect => 1,
        Command::WriteMax(_) => 2,
        Command::ReadMax => 3,
        Command::SetFlag => 4,
        Command::ReadFlag => 5,
        Command::AddMember(_) => 6,
        Command::ReadSet => 7,
    }
}

fn copy_all(from: &[AtomicU64], to: &mut [u64]) {
    for (count, place) in from.iter().zip(to.iter_mut()) {
        *place = count.load(Ordering::SeqCst);
    }
}
