//! What a node shows of itself to an operator: a value that is laid out from the node as it was flushed at one moment and from
//! what was counted, as JSON and as metrics; the page that a request over HTTP asks for, and its bytes; and how the value comes
//! from the flusher to those who look at it.
#![tactic(auto)]

mod answer;
mod board;
mod bytes;
mod changes;
mod event;
mod home_page;
mod laws;
mod listener;
mod live;
mod members;
mod metrics;
mod named_counts;
mod page;
mod pages;
mod peers;
mod readiness;
mod request;
mod rows;
mod status;
mod status_layout;
mod texts;
mod timed;
mod wide;

pub use answer::{Outcome, answer_page, answer_wrong, answers_have_lawful_heads};
pub use board::{Board, Laid};
pub use event::{HEARTBEAT, put_event};
pub use home_page::home;
pub use laws::texts_are_told_apart;
pub use listener::{Visitors, serve_pages};
pub use live::{DiskShown, Live, PeerNote, Shown};
pub use metrics::Metrics;
pub use page::Page;
pub use request::{Asked, MOST_FIELDS, MOST_HEAD, Wrong, read_request};
pub use rows::rows_of;
pub use status::{
    Counts, DiskStatus, PeerStatus, PostStatus, QuorumStatus, RoundStatus, RowStatus,
    SessionStatus, Status, SyncStatus,
};
pub use status_layout::status_of;
pub use wide::Wide;
