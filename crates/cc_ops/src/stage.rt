//! How far an operation has come.

use crate::pending_operation::Pending;

/// How far the client's operation has come. A store has one round, a collect two: a query, and a store of what was
/// seen (CCC, client).
#[derive(Clone, Copy, PartialEq, Eq)]
pub enum Stage {
    /// No operation is pending.
    Idle,
    /// A write waits for the acknowledgements of its store.
    Storing(Pending),
    /// A read waits for the replies to its query.
    Querying(Pending),
    /// A read waits for the acknowledgements of what it stores back.
    StoringBack(Pending),
}
