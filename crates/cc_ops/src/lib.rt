//! The client and the server of the store-collect object (CCC, client and server).
#![tactic(auto)]

mod anew;
mod ask_list;
mod commands;
mod ops;
mod pending_operation;
mod phases;
mod replies;
mod round_selection;
mod share_change;
mod stage;

pub use anew::anew_keeps_the_operation;
pub use ask_list::AskList;
pub use commands::is_writing;
pub use ops::Ops;
pub use pending_operation::{Asked, Pending, Reply};
pub use replies::Replies;
pub use round_selection::MAX_SHARE;
pub use stage::Stage;
