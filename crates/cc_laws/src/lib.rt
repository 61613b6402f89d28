//! The laws of a node's whole life, crashes included, and of a cluster. Each is a function whose contract is the law; and a
//! first life in calls of the engine, where the code meets them.
#![tactic(auto)]

mod clusters;
mod double_collects;
mod first_life;
mod histories;
mod lives;
mod regular;
mod rounds;

pub use clusters::cluster_agrees;
pub use double_collects::{
    clients_of_a_round_take_snapshots, equal_collects_are_a_snapshot, readings_of_double_collects,
    shared_nodes_tell_double_collects, two_nodes_take_snapshots,
};
pub use first_life::{Stopped, live_once, live_once_in_memory};
pub use histories::{one_line, outputs_have_events, views_follow};
pub use lives::{
    crashes_end_lives, history_is_accepted, lives_hold, lives_join, moments_end_lives,
};
pub use regular::{
    an_entrant_shares_a_node, collects_are_regular, members_collect_regularly, objects_are_regular,
    quorums_meet, shared_nodes_tell, shared_nodes_tell_readings, two_nodes_collect,
};
pub use rounds::rounds_are_shown;
