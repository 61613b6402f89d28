//! Why bytes are refused.

ghost use Rattle.std.specs.Prelude.{◌≡◌};
ghost use Rattle.cc_wire.specs.declared.fault.WireFault.TheVariants as faults;

use cc_views::NoMemory;
use std::alloc::AllocError;
use std::error::Error;
use std::fmt;

/// The first thing, from left to right, that keeps bytes from being read.
#[derive(Clone, Copy, Debug, PartialEq, Eq)]
pub enum WireFault {
    /// The bytes end inside a field.
    Short,
    /// A kind or a flag without a meaning.
    BadKind(u8),
    /// A number of a list, or a row's node, isn't above the one before it, or an id is 0.
    NotAscending,
    /// A length or a count is above its limit.
    TooLarge,
    /// Bytes are left after the last field.
    Trailing,
    /// A growth was refused.
    NoMemory,
    /// The stream was refused before.
    Broken,
}

impl fmt::Display for WireFault {
    fn fmt<W: fmt::Write>(&self, f: &mut fmt::Formatter<W>) -> fmt::Result {
        match self {
            WireFault::Short => f.write_str("the bytes end inside a field"),
            WireFault::BadKind(byte) => write!(f, "{byte} is no kind or flag"),
            WireFault::NotAscending => f.write_str("a list isn't ascending, or an id is 0"),
            WireFault::TooLarge => f.write_str("a length is above its limit"),
            WireFault::Trailing => f.write_str("bytes are left"),
            WireFault::NoMemory => f.write_str("out of memory"),
            WireFault::Broken => f.write_str("the stream was refused before"),
        }
    }
}

impl Error for WireFault {}

impl From<NoMemory> for WireFault {
    ghost from_gives = { λ _ e. e ≡ faults.NoMemory };

    fn from(_e: NoMemory) -> WireFault {
        WireFault::NoMemory
    }
}

impl From<AllocError> for WireFault {
    ghost from_gives = { λ _ e. e ≡ faults.NoMemory };

    fn from(_e: AllocError) -> WireFault {
        WireFault::NoMemory
    }
}
