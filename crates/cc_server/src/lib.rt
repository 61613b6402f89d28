//! A node over TCP: a worker and a writer for each connection, a dialler for each peer, a worker for what the node sends to
//! itself, one flusher, one ticker, a writer of notes, and one that follows the file of the peers. Here they are started and end.
#![tactic(auto)]

mod config;
mod run;
mod run_fault;
mod threads;
mod worker_calls;

pub use config::Config;
pub use run::{run_node, run_on};
pub use run_fault::RunFault;
