//! Values of nodes, and views: what each node stored last (CCC, views and their merge).
#![tactic(auto)]

mod limits;
mod no_memory;
mod node_id;
mod number_set;
mod row;
mod text;
mod value;
mod view;

pub use limits::{COUNTER_LIMIT, limit_of_counters};
pub use no_memory::NoMemory;
pub use node_id::NodeId;
pub use number_set::NumberSet;
pub use row::Row;
pub use text::Text;
pub use value::Value;
pub use view::{View, merge_joins, merges_at_each_node, size_of_a_merge};
