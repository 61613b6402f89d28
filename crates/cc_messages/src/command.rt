//! Commands: what a client asks of a node.

use cc_views::Text;

/// What a client asks of a node.
#[derive(Clone, Copy, PartialEq, Eq)]
pub enum Command {
    /// Store this text as the node's own.
    Store(Text),
    /// Tell what each node stored last.
    Collect,
    /// Raise the node's own maximum to this number, where it is below.
    WriteMax(u64),
    /// Tell the greatest maximum of all nodes.
    ReadMax,
    /// Set the node's own flag.
    SetFlag,
    /// Tell whether a node's flag is set.
    ReadFlag,
    /// Add this number to the node's own set.
    AddMember(u32),
    /// Tell the union of all nodes' sets.
    ReadSet,
}
