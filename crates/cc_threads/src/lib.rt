//! The threads that a node has of its own: the flusher, with what it does for peers that stay away and what it shows; the
//! clock; the status pages; and the file of the peers.
#![tactic(auto)]

mod absent_peers;
mod flusher_thread;
mod measured;
mod opening_notes;
mod outlet;
mod pages;
mod peers_file;
mod shown_state;
mod ticker;
mod turns;

pub use absent_peers::{Looks, look, tell_withheld};
pub use flusher_thread::{Watch, flush_all};
pub use measured::Measured;
pub use opening_notes::note_opened;
pub use outlet::ServerOutlet;
pub use pages::show_until;
pub use peers_file::{Follower, follow_peers};
pub use shown_state::{Tally, pass_second};
pub use ticker::tick_until;
pub use turns::{CountedTurner, Turns};
