//! The numbered links of a node to its peers.
#![tactic(auto)]

mod known_ids;
mod link_row;
mod links;

pub use known_ids::KnownIds;
pub use link_row::LinkRow;
pub use links::Links;
