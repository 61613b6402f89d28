//! Until when a client waits.

use std::time::{Clock, Duration, Instant};

/// So long from its start on.
#[derive(Clone, Copy)]
pub struct Deadline {
    start: Option<Instant>,
    whole: Duration,
}

impl Deadline {
    /// It starts now, and is over in so many seconds.
    pub fn new<R: Clock>(rt: &R, seconds: u64) -> Self {
        Deadline::within(rt, Duration::from_secs(seconds))
    }

    /// It starts now, and is over in so long.
    pub fn within<R: Clock>(rt: &R, whole: Duration) -> Self {
        Deadline {
            start: Instant::now(rt).ok(),
            whole,
        }
    }

    /// What is left of it. None once it is over, and where the clock can't be read.
    pub fn left<R: Clock>(&self, rt: &R) -> Option<Duration> {
        let elapsed = self.start?.elapsed(rt).ok()?;
        let left = self.whole.saturating_sub(elapsed);
        (left > Duration::ZERO).then_some(left)
    }
}
