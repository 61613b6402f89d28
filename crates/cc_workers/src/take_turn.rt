//! Who takes a turn of the engine for a worker.

use cc_intake::Hooks;

/// The calls round each accept of a worker, and the turn behind it.
pub trait TakeTurn: Hooks {
    /// The worker has brought an event that makes a post or an answer: it is to become durable, here or by the flusher.
    fn take_turn(&self);
}
