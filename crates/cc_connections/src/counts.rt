//! What a running node counts.

/// Up to how many microseconds the syncs of each bucket took, ascending. Longer ones are in the last bucket.
pub const SYNC_BOUNDS: [u64; 16] = [
    50, 100, 200, 500, 1000, 2000, 5000, 10_000, 20_000, 50_000, 100_000, 200_000, 500_000,
    1_000_000, 2_000_000, 5_000_000,
];

/// How many refusals there are: a refusal's number, from 1 on, is its place.
pub const REFUSALS: [&str; 18] = [
    "Left",
    "NotEntered",
    "AlreadyEntered",
    "NotJoined",
    "Old",
    "Gap",
    "NothingToAck",
    "TooManyNodes",
    "TooManySessions",
    "Repeat",
    "Stale",
    "Skip",
    "Busy",
    "SetFull",
    "OutboxFull",
    "Spent",
    "NoMemory",
    "QueueFull",
];

/// The name of each command, as it is asked for.
pub const COMMANDS: [&str; 8] = [
    "store", "collect", "max", "readmax", "flag", "readflag", "add", "readset",
];

/// Up to how many events the batches of each bucket have, ascending, up to the most that a batch has.
pub const BATCH_BOUNDS: [u64; 7] = [1, 2, 4, 8, 16, 32, 64];

/// What a node counted since its start.
#[derive(Clone, Copy, Default)]
pub struct Counted {
    pub commits: u64,
    pub events: u64,
    pub checkpoints: u64,
    /// How many connections are open.
    pub connections: u64,
    /// How many posts were withheld from peers that they aren't for, how many skips told of such posts, and how many came.
    pub withheld: u64,
    pub skips_sent: u64,
    pub skips_heard: u64,
    /// How many events were refused, by the refusal's place in `REFUSALS`.
    pub refusals: [u64; 18],
    /// How many asks were accepted, by their command's place in `COMMANDS`.
    pub asks: [u64; 8],
    /// How many batches had so many events, by their bucket: those of `BATCH_BOUNDS`.
    pub batches: [u64; 7],
    pub syncs: SyncCounts,
}

/// How long syncs took.
#[derive(Clone, Copy, Default)]
pub struct SyncCounts {
    /// How many took so long, by their bucket: those of `SYNC_BOUNDS`, and one for longer ones.
    pub buckets: [u64; 17],
    /// All of them together, and the longest, in microseconds.
    pub total_us: u64,
    pub worst_us: u64,
}

impl SyncCounts {
    /// How many syncs there were.
    pub fn count(&self) -> u64 {
        let mut count: u64 = 0;
        for bucket in &self.buckets {
            count = count.saturating_add(*bucket);
        }
        count
    }

    /// How long one took in the mean, in microseconds. 0 where there was none.
    pub fn mean_us(&self) -> u64 {
        let count = self.count();
        if count == 0 { 0 } else { self.total_us / count }
    }

    /// A bound in microseconds that so many of a hundred syncs didn't pass: that of a bucket, or the longest one's time.
    pub fn quantile_us(&self, percent: u64) -> u64 {
        let due = u128::from(self.count()) * u128::from(percent);
        let mut seen: u128 = 0;
        for (bound, bucket) in SYNC_BOUNDS.iter().zip(&self.buckets) {
            seen = seen.saturating_add(u128::from(*bucket) * 100);
            if seen >= due {
                return self.worst_us.min(*bound);
            }
        }
        self.worst_us
    }
}
