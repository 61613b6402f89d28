//! The workers of a node: one for each connection, and one for what the node sends to itself.
#![tactic(auto)]

mod caller;
mod connection;
mod context;
mod duties;
mod own;
mod replies;
mod take_turn;

pub use caller::{Done, serve};
pub use connection::attend;
pub use context::Context;
pub use duties::duty_of;
pub use own::serve_own;
pub use replies::Replies;
pub use take_turn::TakeTurn;
