//! Why nothing is read off a source of bytes.

ghost use Rattle.std.specs.Prelude.{◌≡◌};
ghost use Rattle.cc_wire.specs.declared.fault.WireFault.TheVariants as wire;
ghost use Rattle.cc_node_state.specs.declared.source_fault.SourceFault.TheVariants as faults;

use cc_wire::WireFault;
use std::alloc::AllocFailed;

/// Why nothing is read off a source of bytes.
#[derive(Clone, Copy, Debug, PartialEq, Eq)]
pub enum SourceFault<F> {
    /// The source failed.
    Failed(F),
    /// What the bytes are isn't what was to be read, or a growth was refused.
    Wire(WireFault),
}

impl<F, T: Drop> From<AllocFailed<T>> for SourceFault<F> {
    ghost from_gives = { λ _ fault. fault ≡ faults.Wire wire.NoMemory };

    fn from(_: AllocFailed<T>) -> Self {
        SourceFault::Wire(WireFault::NoMemory)
    }
}
