//! What the clients of a load count.

use crate::latencies::Latencies;
use crate::silence::Silence;
use cc_messages::Refusal;
use std::alloc::Global;

/// What clients of a load counted.
#[derive(Drop)]
pub struct Tally {
    pub latencies: Latencies,
    /// How many requests were refused as the node was too busy, and were asked again.
    pub again: u64,
    /// How many connections broke, couldn't be made, or brought no last answer.
    pub lost: u64,
    /// How many clients ended before the time was over.
    pub ended: u64,
    /// How many of these ended since another client uses their session.
    pub in_use: u64,
    /// Why a node refused one of these.
    pub refusal: Option<Refusal>,
    /// Why the last connection that was lost brought no answer.
    pub silence: Option<Silence>,
}

impl Tally {
    /// Nothing was counted yet.
    pub fn new(alloc: Global) -> Self {
        Tally {
            latencies: Latencies::new(alloc),
            again: 0,
            lost: 0,
            ended: 0,
            in_use: 0,
            refusal: None,
            silence: None,
        }
    }

    /// Adds what another client counted. Where a growth is refused its answers aren't counted, and it has ended early.
    pub fn add(&mut self, other: &Tally) {
        self.again = self.again.saturating_add(other.again);
        self.lost = self.lost.saturating_add(other.lost);
        self.ended = self.ended.saturating_add(other.ended);
        self.in_use = self.in_use.saturating_add(other.in_use);
        self.refusal = self.refusal.or(other.refusal);
        self.silence = self.silence.or(other.silence);
        if self.latencies.append(&other.latencies).is_err() {
            self.end(None);
        }
    }

    /// A connection is lost.
    pub fn lose(&mut self, why: Silence) {
        self.lost = self.lost.saturating_add(1);
        self.silence = Some(why);
    }

    /// A client ends before the time is over: it was refused, or a growth or a thread for it.
    pub fn end(&mut self, why: Option<Refusal>) {
        self.ended = self.ended.saturating_add(1);
        self.refusal = self.refusal.or(why);
    }
}
