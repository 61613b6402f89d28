//! A node that is kept on the two sides of a site, and what it puts out once that is durable.
#![tactic(auto)]

mod actions;
mod back;
mod checkpoint;
mod commit;
mod flusher;
mod format_sides;
mod laws;
mod opened;
mod opening;
mod reopen;
mod resend;

pub use actions::Action;
pub use back::Back;
pub use flusher::{CheckpointFault, Failed, Flusher};
pub use format_sides::{FormatFault, format};
pub use laws::{good_for_more, good_parts, node_or_fault, one_node, rests_with_all, shut_side};
pub use opened::Opened;
pub use reopen::open_anew;
