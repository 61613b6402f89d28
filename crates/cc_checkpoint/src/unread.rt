//! Which bytes of a side are still to be read.

ghost use Rattle.std.specs.Prelude.{◌≤◌};

use cc_site::Side;

/// The bytes of a side from a place on, up to an end. Both are in bytes from the start of the side.
#[derive(Drop)]
pub(crate) struct Unread {
    pub side: Side,
    pub place: u64,
    pub end: u64,
    ghost ordered: { place ≤ end },
}
