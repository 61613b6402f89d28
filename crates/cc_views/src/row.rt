use crate::node_id::NodeId;
use crate::value::Value;

/// A row of a view: a node, the number of its last store, and what it stored.
#[derive(Clone, Copy, PartialEq, Eq)]
pub struct Row {
    pub node: NodeId,
    /// The node's own number for what it stored: its later stores have greater ones.
    pub number: u64,
    pub value: Value,
}
