//! What opening found.

use cc_site::Side;

/// What two sides held as their node was opened.
#[derive(Clone, Copy, PartialEq, Eq)]
pub struct Opened {
    /// The side that was in use.
    pub side: Side,
    /// How many records counted on it, and how many events they held.
    pub records: u64,
    pub events: u64,
}
