//! The state of a node as bytes: what two sides of a disk stand for (definitions), the parts that a state is written in, the
//! elements that it is read by, and which node they are. The formats are this project's own.
#![tactic(auto)]

mod fault;
mod field_reader;
mod fields;
mod laws;
mod layout;
mod parts;
mod record_laws;
mod restored_node;
mod source;
mod source_fault;
mod spellable;
mod state;
mod state_reader;
mod state_writer;

pub use fault::StateFault;
pub use field_reader::read_whole;
pub use fields::{Entering, Fields, Membership, Own, Round, Tables, Work};
pub use laws::{
    each_node_has_one_layout, largest_node, lawful_states_are_of_nodes, one_spelling_of_nodes,
    one_spelling_of_states,
};
pub use layout::Layout;
pub use parts::{
    COUNT_LEN, FRACTION_LEN, ID_LEN, LINK_LEN, NUMBER_LEN, SESSION_LEN, line_len, others_len,
    part_count, part_len, pending_len, put_part,
};
pub use record_laws::one_spelling_of_records;
pub use restored_node::restore;
pub use source::Source;
pub use source_fault::SourceFault;
pub use spellable::node_is_spellable;
pub use state::{decode_state, encode_state};
pub use state_reader::{
    read_entering, read_kept_answer, read_link, read_membership, read_own, read_round,
    read_session_table,
};
