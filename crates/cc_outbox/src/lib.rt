//! What a node keeps to put out again.
#![tactic(auto)]

mod kept_answer;
mod outbox;

pub use kept_answer::KeptAnswer;
pub use outbox::Outbox;
