//! Threads hand events to one flusher through a queue. What they did is the history of one thread, and the flusher's list is
//! a prefix of it.
#![tactic(auto)]

mod ends;
mod hooks;
mod intake;
mod life;
mod of_life;
mod rule;
mod turner;
mod worker;

pub use ends::{Ends, Queue, lane};
pub use hooks::{Hooked, Hooks, NoHooks};
pub use intake::{Accepted, Intake, Refused, Share};
pub use life::{Finished, finish, start};
pub use of_life::OfLife;
pub use rule::{Lane, Life};
pub use turner::{Turned, Turner};
pub use worker::{Source, work};
