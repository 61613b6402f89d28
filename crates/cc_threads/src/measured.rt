//! How long syncs take.

use cc_connections::Gauges;
use cc_intake::Hooks;
use std::sync::atomic::{AtomicU64, Ordering};
use std::time::Clock;

/// Hooks that time each sync, and call others round each accept and each sync.
#[derive(Drop)]
pub struct Measured<'a, R, H> {
    rt: &'a R,
    hooks: &'a H,
    gauges: &'a Gauges,
    // When the sync that runs began, by the machine's clock that never goes back, in microseconds.
    begun: AtomicU64,
}

impl<'a, R: Clock, H: Hooks> Measured<'a, R, H> {
    /// Hooks round these.
    pub fn new(rt: &'a R, hooks: &'a H, gauges: &'a Gauges) -> Self {
        Measured {
            rt,
            hooks,
            gauges,
            begun: AtomicU64::new(0),
        }
    }

    fn micros(&self) -> u64 {
        match self.rt.monotonic() {
            Ok(since) => u64::try_from(since.as_micros()).unwrap_or(u64::MAX),
            Err(_) => 0,
        }
    }
}

impl<R: Clock, H: Hooks> Hooks for Measured<'_, R, H> {
    fn before_accept(&self) {
        self.hooks.before_accept();
    }

    fn after_accept(&self) {
        self.hooks.after_accept();
    }

    fn before_sync(&self) {
        self.hooks.before_sync();
        self.begun.store(self.micros(), Ordering::SeqCst);
    }

    fn after_sync(&self) {
        let begun = self.begun.load(Ordering::SeqCst);
        self.gauges.sync(self.micros().saturating_sub(begun));
        self.hooks.after_sync();
    }
}
