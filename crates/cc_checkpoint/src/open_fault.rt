//! Why two sides can't be opened.

ghost use Rattle.std.specs.Prelude.{◌≡◌};
ghost use Rattle.cc_checkpoint.specs.declared.open_fault.OpenFault.TheVariants as faults;

use cc_site::{DeviceFault, Side};
use cc_views::NoMemory;
use std::alloc::AllocError;
use std::error::Error;
use std::fmt;

/// Why two sides can't be opened. Places are in bytes from the start of the side.
#[derive(Clone, Copy, Debug, PartialEq, Eq)]
pub enum OpenFault {
    /// No side is armed.
    NotFormatted,
    /// What stands at this place isn't what has to stand there.
    Damaged(Side, u64),
    /// The side in use has a version that isn't known.
    Version(u8),
    /// A disk call failed.
    Device(DeviceFault),
    /// A growth was refused.
    NoMemory,
}

/// Its name and what it carries: `Damaged A 153`, or `Device A Read`.
impl fmt::Display for OpenFault {
    fn fmt<W: fmt::Write>(&self, f: &mut fmt::Formatter<W>) -> fmt::Result {
        match self {
            OpenFault::NotFormatted => write!(f, "NotFormatted"),
            OpenFault::Damaged(side, place) => write!(f, "Damaged {side} {place}"),
            OpenFault::Version(version) => write!(f, "Version {version}"),
            OpenFault::Device(fault) => write!(f, "Device {fault}"),
            OpenFault::NoMemory => write!(f, "NoMemory"),
        }
    }
}

impl Error for OpenFault {}

impl From<DeviceFault> for OpenFault {
    ghost from_gives = { λ fault open_fault. open_fault ≡ faults.Device fault };

    fn from(fault: DeviceFault) -> Self {
        OpenFault::Device(fault)
    }
}

impl From<NoMemory> for OpenFault {
    ghost from_gives = { λ _ fault. fault ≡ faults.NoMemory };

    fn from(_: NoMemory) -> Self {
        OpenFault::NoMemory
    }
}

impl From<AllocError> for OpenFault {
    ghost from_gives = { λ _ fault. fault ≡ faults.NoMemory };

    fn from(_: AllocError) -> Self {
        OpenFault::NoMemory
    }
}
