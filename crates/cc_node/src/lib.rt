//! The state of a node, and what each event makes of it.
#![tactic(auto)]

mod apply;
mod core_parts;
mod decisions;
mod laws;
mod made;
mod named_nodes;
mod needs;
mod node;
mod node_core;
mod opening;
mod told;

pub use core_parts::CoreParts;
pub use laws::{
    answers_to_others_are_skipped, asks_anew_alone, asks_begin_in_order,
    lapse_is_an_acknowledgement, lawful_kept, lines_add_nothing, lines_may_grow, no_output_twice,
    others_stay, own_number_counts_writes, ranges_are_skipped_in_turn, rounds_are_fair,
    share_changes_alone, share_one, standing_made, view_only_grows,
};
pub use made::{LinkAck, Made};
pub use node::Node;
pub use node_core::Core;
pub use opening::{Fresh, Opening, OpeningRule};
