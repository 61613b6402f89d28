//! Ids, and changes of a few nodes.

use cc_changes::{Changes, IdSet};
use cc_views::NodeId;
use std::process::Abort;

/// The id of this number, which is at least 1.
pub fn id(number: u32) -> NodeId {
    NodeId::new(number.max(1)).unwrap()
}

// The set of one id, and of none for 0.
fn ids<R: Abort + AllocGlobal>(rt: &R, number: u32) -> IdSet {
    let mut set = IdSet::new(rt.alloc()).expect(rt, "a set");
    if let Some(id) = NodeId::new(number) {
        set.push(id);
    }
    set
}

/// Who entered and who joined, with 0 for nobody.
pub fn changes_of<R: Abort + AllocGlobal>(rt: &R, entered: u32, joined: u32) -> Changes {
    let entered = ids(rt, entered);
    let joined = ids(rt, joined);
    let left = ids(rt, 0);
    Changes::from_sets(entered, joined, left)
}
