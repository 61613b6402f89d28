//! What passes between nodes and clients: addresses, and names of clusters; connections, and how many there are at once; the
//! frames that go over them, as bytes, which are this project's own; and flags and counters, which threads share without
//! waiting for each other.
#![tactic(auto)]

mod clusters;
mod connection;
mod counts;
mod flags;
mod frame;
mod frame_reader;
mod gauges;
mod hello;
mod hosts;
mod peer;
mod places;
mod sizes;

pub use clusters::{ClusterName, NameFault};
pub use connection::{ConnectFault, connect};
pub use counts::{BATCH_BOUNDS, COMMANDS, Counted, REFUSALS, SYNC_BOUNDS, SyncCounts};
pub use flags::{Flag, Stop};
pub use frame::{
    Frame, decode_frame, encode_frame, encode_post, encode_reply, one_spelling_of_frames,
};
pub use frame_reader::{Fed, FrameReader, feeds_any_cutting};
pub use gauges::Gauges;
pub use hello::{Hello, Quorum, Reason};
pub use hosts::{Host, HostName};
pub use peer::{Address, Peer};
pub use places::Places;
pub use sizes::largest_body;
