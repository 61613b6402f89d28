//! What a node is told, what it tells other nodes and clients, and why it refuses to be told. The messages are those of
//! CCC; how all of these are spelled as bytes is another crate's matter.
#![tactic(auto)]

mod answer;
mod command;
mod event;
mod message;
mod number_list;
mod output;
mod post_range;
mod refusal;
mod share;

pub use answer::Answer;
pub use command::Command;
pub use event::Event;
pub use message::Message;
pub use number_list::NumberList;
pub use output::Output;
pub use post_range::PostRange;
pub use refusal::Refusal;
pub use share::Share;
