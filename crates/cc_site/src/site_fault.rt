//! Why a folder can't be a site.

use crate::site::DeviceFault;
use std::alloc::AllocError;
use std::error::Error;
use std::fmt;

/// Why the files of a folder weren't opened.
#[derive(Clone, Copy, Debug, PartialEq, Eq)]
pub enum SiteFault {
    /// A file can't be opened or made, or another program holds the folder. There is no site yet, so no site counts it.
    Device(DeviceFault),
    /// A growth was refused.
    NoMemory,
}

/// `Device`, the side and the call, or `NoMemory`: as the faults of opening a node.
impl fmt::Display for SiteFault {
    fn fmt<W: fmt::Write>(&self, f: &mut fmt::Formatter<W>) -> fmt::Result {
        match self {
            SiteFault::Device(fault) => write!(f, "Device {fault}"),
            SiteFault::NoMemory => write!(f, "NoMemory"),
        }
    }
}

impl Error for SiteFault {}

impl From<AllocError> for SiteFault {
    fn from(_: AllocError) -> Self {
        SiteFault::NoMemory
    }
}
