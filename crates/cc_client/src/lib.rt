//! A client of running nodes over TCP: one command, a load of many clients at once, and a look at what a node shows.
#![tactic(auto)]

mod advice;
mod client;
mod command;
mod deadline;
mod fault;
mod fetch;
mod frame_sender;
mod head;
mod json;
mod latencies;
mod load;
mod look;
mod operator_asks;
mod printed;
mod report;
mod silence;
mod snapshot;
mod status;
mod table;
mod tally;

pub use advice::Advice;
pub use command::ask_node;
pub use deadline::Deadline;
pub use fault::LookFault;
pub use frame_sender::{connect, pause, receive, send};
pub use head::{body_of, reason_of};
pub use latencies::Latencies;
pub use load::load_nodes;
pub use look::{Look, look_at, reason_at};
pub use operator_asks::{leave_node, retire_node, share_node};
pub use report::{Bucket, PrintedRefusal, Report};
pub use silence::{Silence, Told};
pub use status::{
    CountPart, DiskPart, PeerPart, PostPart, QuorumPart, RoundPart, RowPart, RowText, SkipPart,
    Status, SyncPart,
};
pub use table::Table;
pub use tally::Tally;
