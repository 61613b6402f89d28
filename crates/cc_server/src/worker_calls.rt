//! What the workers of a running node call.

use cc_intake::{Hooks, Lane, Life};
use cc_site::Site;
use cc_threads::Turns;
use cc_workers::TakeTurn;
use std::sync::Wait;

/// The hooks of whoever runs the node, and turns of its engine.
#[derive(Drop)]
pub struct WorkerCalls<'h, 't, 'x, S: Site, L: Life, Q: Lane, R: Wait, H: Hooks> {
    pub hooks: &'h H,
    pub turns: &'x Turns<'t, S, L, Q, R>,
}

impl<S: Site, L: Life, Q: Lane, R: Wait, H: Hooks> Hooks
    for WorkerCalls<'_, '_, '_, S, L, Q, R, H> {
    fn before_accept(&self) {
        self.hooks.before_accept();
    }

    fn after_accept(&self) {
        self.hooks.after_accept();
    }

    fn before_sync(&self) {
        self.hooks.before_sync();
    }

    fn after_sync(&self) {
        self.hooks.after_sync();
    }
}

impl<S: Site, L: Life, Q: Lane, R: Wait, H: Hooks> TakeTurn
    for WorkerCalls<'_, '_, '_, S, L, Q, R, H> {
    fn take_turn(&self) {
        self.turns.take();
    }
}
