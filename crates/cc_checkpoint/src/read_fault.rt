//! Why no state is read off a side.

ghost use Rattle.std.specs.Prelude.{◌≡◌};
ghost use Rattle.cc_checkpoint.specs.declared.read_fault.ReadFault.TheVariants as faults;
ghost use Rattle.cc_checkpoint.specs.Windows.{of_wire};

use cc_site::DeviceFault;
use cc_views::NoMemory;
use cc_wire::WireFault;
use std::alloc::{AllocError, AllocFailed};

/// Why no state is read off a side.
#[derive(Clone, Copy, Debug, PartialEq, Eq)]
pub(crate) enum ReadFault {
    /// A disk call failed.
    Device(DeviceFault),
    /// A growth was refused.
    NoMemory,
    /// The bytes spell no state in which a node can be.
    NoState,
}

impl From<DeviceFault> for ReadFault {
    ghost from_gives = { λ fault read_fault. read_fault ≡ faults.Device fault };

    fn from(fault: DeviceFault) -> Self {
        ReadFault::Device(fault)
    }
}

/// Which fault of the wire it is doesn't matter, since a side has one place for all of them.
impl From<WireFault> for ReadFault {
    ghost from_gives = { λ fault read_fault. read_fault ≡ of_wire fault };

    fn from(fault: WireFault) -> Self {
        match fault {
            WireFault::NoMemory => ReadFault::NoMemory,
            _ => ReadFault::NoState,
        }
    }
}

impl From<NoMemory> for ReadFault {
    ghost from_gives = { λ _ fault. fault ≡ faults.NoMemory };

    fn from(_: NoMemory) -> Self {
        ReadFault::NoMemory
    }
}

impl From<AllocError> for ReadFault {
    ghost from_gives = { λ _ fault. fault ≡ faults.NoMemory };

    fn from(_: AllocError) -> Self {
        ReadFault::NoMemory
    }
}

impl<T: Drop> From<AllocFailed<T>> for ReadFault {
    ghost from_gives = { λ _ fault. fault ≡ faults.NoMemory };

    fn from(_: AllocFailed<T>) -> Self {
        ReadFault::NoMemory
    }
}
