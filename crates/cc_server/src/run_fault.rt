//! Why a node doesn't run.

ghost use Rattle.std.specs.Prelude.{◌≡◌};
ghost use Rattle.cc_server.specs.declared.run_fault.RunFault.TheVariants as faults;
ghost use Rattle.cc_server.specs.Faults.{of_site};

use cc_checkpoint::OpenFault;
use cc_flush::Failed;
use cc_site::SiteFault;
use cc_views::NoMemory;
use std::alloc::{AllocError, AllocFailed};
use std::error::Error;
use std::fmt;

/// Why a node doesn't run, or has ended.
#[derive(Clone, Copy, Debug, PartialEq, Eq)]
pub enum RunFault {
    /// Its folder can't be opened.
    Open(OpenFault),
    /// A disk call failed.
    Failed(Failed),
    /// It can't listen at its address.
    Listen,
    /// It is named among its own peers.
    OwnPeer,
    /// Its folder is behind what was told of it: the peer with this id has taken in its posts up to `heard`, and up to `posted` it
    /// ever posted to that one.
    OldCopy { peer: u32, heard: u64, posted: u64 },
    /// A growth was refused, or a thread.
    NoMemory,
}

/// The fault of opening, `Failed` and the disk call, `Listen`, `OwnPeer`, `OldCopy PEER HEARD POSTED` or `NoMemory`.
impl fmt::Display for RunFault {
    fn fmt<W: fmt::Write>(&self, f: &mut fmt::Formatter<W>) -> fmt::Result {
        match self {
            RunFault::Open(fault) => write!(f, "{fault}"),
            RunFault::Failed(failed) => write!(f, "{failed}"),
            RunFault::Listen => f.write_str("Listen"),
            RunFault::OwnPeer => f.write_str("OwnPeer"),
            RunFault::OldCopy {
                peer,
                heard,
                posted,
            } => write!(f, "OldCopy {peer} {heard} {posted}"),
            RunFault::NoMemory => f.write_str("NoMemory"),
        }
    }
}

impl Error for RunFault {}

impl From<AllocError> for RunFault {
    ghost from_gives = { λ _ fault. fault ≡ faults.NoMemory };

    fn from(_: AllocError) -> Self {
        RunFault::NoMemory
    }
}

impl<T: Drop> From<AllocFailed<T>> for RunFault {
    ghost from_gives = { λ _ fault. fault ≡ faults.NoMemory };

    fn from(_: AllocFailed<T>) -> Self {
        RunFault::NoMemory
    }
}

impl From<NoMemory> for RunFault {
    ghost from_gives = { λ _ fault. fault ≡ faults.NoMemory };

    fn from(_: NoMemory) -> Self {
        RunFault::NoMemory
    }
}

impl From<OpenFault> for RunFault {
    ghost from_gives = { λ fault run_fault. run_fault ≡ faults.Open fault };

    fn from(fault: OpenFault) -> Self {
        RunFault::Open(fault)
    }
}

/// A file that can't be opened is told like a disk call that fails while the folder is opened.
impl From<SiteFault> for RunFault {
    ghost from_gives = { λ fault run_fault. run_fault ≡ of_site fault };

    fn from(fault: SiteFault) -> Self {
        match fault {
            SiteFault::Device(fault) => RunFault::Open(OpenFault::Device(fault)),
            SiteFault::NoMemory => RunFault::NoMemory,
        }
    }
}
