use cc_checkpoint::OpenFault;
use cc_flush::{CheckpointFault, Failed, FormatFault};
use cc_journal::Entry;
use cc_messages::Refusal;
use cc_site::{DeviceFault, SiteFault};
use cc_views::NoMemory;
use std::alloc::{AllocError, AllocFailed};
use std::io;
use thiserror::Error;

/// What ends a timing, or the writer before it is killed.
#[derive(Debug, Drop, Error)]
pub enum BenchFault {
    #[error("the site can't be formatted: {0}")]
    Format(FormatFault),
    #[error("the site can't be opened: {0}")]
    Open(OpenFault),
    #[error("the engine can't go on: {0}")]
    Engine(Failed),
    #[error("the node can't be moved: {0}")]
    Checkpoint(CheckpointFault),
    #[error("the node refuses an event")]
    Refused,
    #[error("the node isn't one that this program has written")]
    Foreign,
    #[error("a batch or a side is full")]
    Full,
    #[error("the clock or a file can't be used")]
    System,
    #[error("out of memory")]
    NoMemory,
}

impl From<Failed> for BenchFault {
    fn from(failed: Failed) -> BenchFault {
        BenchFault::Engine(failed)
    }
}

impl From<CheckpointFault> for BenchFault {
    fn from(fault: CheckpointFault) -> BenchFault {
        BenchFault::Checkpoint(fault)
    }
}

/// A disk call of the bench itself, with no engine.
impl From<DeviceFault> for BenchFault {
    fn from(_e: DeviceFault) -> BenchFault {
        BenchFault::System
    }
}

/// The files of the bench.
impl From<SiteFault> for BenchFault {
    fn from(fault: SiteFault) -> BenchFault {
        match fault {
            SiteFault::Device(_) => BenchFault::System,
            SiteFault::NoMemory => BenchFault::NoMemory,
        }
    }
}

impl From<Refusal> for BenchFault {
    fn from(_e: Refusal) -> BenchFault {
        BenchFault::Refused
    }
}

/// An entry that a batch gives back.
impl From<Entry> for BenchFault {
    fn from(entry: Entry) -> BenchFault {
        drop(entry);
        BenchFault::Full
    }
}

impl From<io::Error> for BenchFault {
    fn from(_e: io::Error) -> BenchFault {
        BenchFault::System
    }
}

impl From<NoMemory> for BenchFault {
    fn from(_e: NoMemory) -> BenchFault {
        BenchFault::NoMemory
    }
}

impl From<AllocError> for BenchFault {
    fn from(_e: AllocError) -> BenchFault {
        BenchFault::NoMemory
    }
}

impl<T: Drop> From<AllocFailed<T>> for BenchFault {
    fn from(_e: AllocFailed<T>) -> BenchFault {
        BenchFault::NoMemory
    }
}
