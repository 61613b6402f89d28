//! What the threads of a running node share, and what they pass things on by: channels to its peers and to itself, the
//! connections that are open, admission, notes, whom it knows, and how it greets its peers. No event is decided here, and none
//! is made durable.
#![tactic(auto)]

mod admission;
mod at_once;
mod connections;
mod dialler;
mod durable;
mod event_admission;
mod frame_bytes;
mod grants;
mod heard_nodes;
mod hello_exchange;
mod known;
mod listeners;
mod machine;
mod marks;
mod noted;
mod notes;
mod offer;
mod own;
mod peer_channel;
mod peer_channels;
mod peer_socket;
mod reception;
mod send_buffer;
mod shared;
mod timed_input;
mod trouble;
mod visit;
mod visitor;
mod waker;
mod writer;

pub use admission::{Admission, NotAdmitted};
pub use connections::{Connection, Connections, Verdict};
pub use dialler::{Dialler, dial_peer};
pub use durable::Durable;
pub use event_admission::{Admit, ConnectionAdmission};
pub use frame_bytes::bytes_of;
pub use grants::Grants;
pub use heard_nodes::HeardNodes;
pub use hello_exchange::{FirstTry, HelloExchange, OldCopy};
pub use known::{Known, Stranger};
pub use listeners::{Listeners, Port, knock};
pub use machine::{Machine, ReadText};
pub use marks::Marks;
pub use notes::{Instruction, Note, NoteChannel, Notice, Waiting, give_notice, write_notes};
pub use own::{OwnChannel, own_channel};
pub use peer_channel::{FarEnd, PeerChannel, Way};
pub use peer_channels::{PeerChannels, channels_to};
pub use reception::Reception;
pub use shared::{Inlets, Shared};
pub use timed_input::{Patience, TimedInput};
pub use trouble::{Trouble, words_of};
pub use visit::{Pen, admit, bound_of, connection_over, patience_of, write_out};
pub use visitor::Visitor;
pub use waker::Waker;
pub use writer::{millis, monotonic_millis, write_frames};
