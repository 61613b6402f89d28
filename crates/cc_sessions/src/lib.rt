//! The sessions of a node's clients, by which each request runs once.
#![tactic(auto)]

mod checked;
mod session_row;
mod sessions;

pub use checked::Checked;
pub use session_row::SessionRow;
pub use sessions::Sessions;
