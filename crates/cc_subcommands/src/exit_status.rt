//! The statuses that commands end with.

/// What was asked for was done.
pub const GOOD: u8 = 0;

/// A fault was printed.
pub const REFUSED: u8 = 1;
