//! The two sides that hold a node's state: how they are written and chosen, and how a state is read off one of them.
#![tactic(auto)]

mod checkpoint;
mod elements;
mod head;
mod image;
mod open_fault;
mod piece;
mod pieces;
mod read_fault;
mod side_choice;
mod side_reader;
mod unread;
mod window;

pub use cc_node_state::{
    StateFault, decode_state, each_node_has_one_layout, encode_state, largest_node,
    lawful_states_are_of_nodes, one_spelling_of_nodes, one_spelling_of_states,
};
pub use checkpoint::{arm, fill, retire};
pub use head::read_state;
pub use image::encode_image;
pub use open_fault::OpenFault;
pub use piece::Piece;
pub use pieces::{Pieces, state_length};
pub use side_choice::{InUse, Peeked, choose, peek};
