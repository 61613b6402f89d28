//! The byte of a gate, open or closed.

/// The byte of an open gate; every other byte is a closed one.
pub const OPEN_GATE: u8 = 0xA5;

/// What is written for a closed gate.
pub const CLOSED_GATE: u8 = 0;
