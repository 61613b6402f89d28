//! Why bytes are no node's state.

ghost use Rattle.std.specs.Prelude.{◌≡◌};
ghost use Rattle.cc_wire.specs.declared.fault.WireFault.TheVariants as wire;
ghost use Rattle.cc_node_state.specs.declared.fault.StateFault.TheVariants as faults;

use cc_views::NoMemory;
use cc_wire::WireFault;
use std::error::Error;
use std::fmt;

/// Why bytes are no node's state.
#[derive(Clone, Copy, Debug, PartialEq, Eq)]
pub enum StateFault {
    /// They spell no state: the first thing that keeps them from being read, or that a growth was refused.
    Wire(WireFault),
    /// They spell a state in which no node can be.
    Unlawful,
}

impl fmt::Display for StateFault {
    fn fmt<W: fmt::Write>(&self, f: &mut fmt::Formatter<W>) -> fmt::Result {
        match self {
            StateFault::Wire(fault) => write!(f, "{fault}"),
            StateFault::Unlawful => f.write_str("no node can be in that state"),
        }
    }
}

impl Error for StateFault {}

impl From<WireFault> for StateFault {
    ghost from_gives = { λ fault e. e ≡ faults.Wire fault };

    fn from(fault: WireFault) -> StateFault {
        StateFault::Wire(fault)
    }
}

impl From<NoMemory> for StateFault {
    ghost from_gives = { λ _ e. e ≡ faults.Wire wire.NoMemory };

    fn from(_e: NoMemory) -> StateFault {
        StateFault::Wire(WireFault::NoMemory)
    }
}
