//! What became of an ask.

use cc_messages::{Answer, Refusal};

/// What became of an ask.
#[derive(Drop)]
pub enum Asked {
    /// It was accepted, and this is its answer.
    Answered(Answer),
    /// It was refused, so that nothing was done. `QueueFull` also where it wasn't handed over in time.
    Refused(Refusal),
    /// It was accepted, and its answer isn't there in time.
    Late,
}
