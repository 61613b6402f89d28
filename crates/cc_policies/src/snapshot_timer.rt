//! When a node posts a snapshot, for peers that missed what lapsed and for operations whose answers may be lost.

ghost use Rattle.std.specs.Prelude.{◌≡◌, ◌<◌, ◌*◌, true, List, length, min};
ghost use Rattle.cc_policies.specs.declared.snapshot_timer.Calls.{Calls};
ghost use Rattle.cc_policies.specs.Absence.{period};
ghost use Rattle.cc_policies.specs.SnapshotTimers.{no_calls, ticked, is_called_back, calls, Look, after_look, VoicesGoOn, NoneCalls};

use crate::limits::SNAPSHOT_PERIOD_SECONDS;

/// What is remembered of the last snapshot, and of the voices of absent peers.
#[derive(Clone, Copy, PartialEq, Eq)]
pub struct Calls {
    /// How many seconds have passed since the last snapshot, 8 at most.
    pub since: u64,
    /// How many seconds pass from one to the next that such a voice calls for.
    pub wait: u64,
    /// For how many seconds there was no such voice, 8 at most.
    pub quiet: u64,
}

impl Calls {
    /// No snapshot was posted lately, and no absent peer was heard.
    pub fn new() -> Self
        ensures { result ≡ no_calls }
    {
        Calls {
            since: SNAPSHOT_PERIOD_SECONDS,
            wait: 1,
            quiet: 0,
        }
    }

    // A second has passed.
    fn tick(&mut self, is_back: bool)
        ensures { self.new ≡ ticked is_back self.old }
    {
        self.since = self.since.saturating_add(1).min(SNAPSHOT_PERIOD_SECONDS);
        self.quiet = if is_back {
            0
        } else {
            self.quiet.saturating_add(1).min(SNAPSHOT_PERIOD_SECONDS)
        };
        if self.quiet == SNAPSHOT_PERIOD_SECONDS {
            self.wait = 1;
        }
    }

    /// Whether a snapshot is posted now that a second has passed: since an absent peer was heard in it (`is_back`), since
    /// the pending operation needs more answers than one that begins now (`needs_anew`), or, where a live peer is absent or
    /// an operation has been pending for long (`is_held`), once in eight seconds.
    pub fn after_second(&mut self, is_back: bool, needs_anew: bool, is_held: bool) -> bool
        ensures answer { result ≡ calls (record { is_back = is_back; needs_anew = needs_anew; is_held = is_held }) self.old }
        ensures after { self.new ≡ after_look (record { is_back = is_back; needs_anew = needs_anew; is_held = is_held }) self.old }
    {
        self.tick(is_back);
        if is_back && self.since >= self.wait {
            self.since = 0;
            self.wait = self.wait.saturating_mul(2).min(SNAPSHOT_PERIOD_SECONDS);
            return true;
        }
        if needs_anew || (is_held && self.since >= SNAPSHOT_PERIOD_SECONDS) {
            self.since = 0;
            return true;
        }
        false
    }
}

/// Once the voice of an absent peer was answered by a snapshot, twice as many seconds pass until the next as before it, and
/// eight at most, while such voices go on and nothing else calls for one.
pub fn snapshots_keep_apart()
    ensures { (c : Calls) (look : Look) (looks : List Look) → is_called_back look.is_back (ticked look.is_back c) ≡ true → VoicesGoOn looks
        → length looks < min (2 * (ticked look.is_back c).wait) period → NoneCalls (after_look look c) looks }
{}
