use cc_views::NoMemory;
use std::alloc::{AllocError, AllocFailed};
use std::io;
use thiserror::Error;

/// What ends a script before its end, apart from a bad line.
#[derive(Debug, Drop, Error)]
pub enum PlayFault {
    #[error("the script can't be read")]
    Read,
    #[error("the output can't be written")]
    Write,
    #[error("out of memory")]
    NoMemory,
}

/// A fault of the output. The one call that reads names its own fault.
impl From<io::Error> for PlayFault {
    fn from(_e: io::Error) -> PlayFault {
        PlayFault::Write
    }
}

impl From<NoMemory> for PlayFault {
    fn from(_e: NoMemory) -> PlayFault {
        PlayFault::NoMemory
    }
}

impl From<AllocError> for PlayFault {
    fn from(_e: AllocError) -> PlayFault {
        PlayFault::NoMemory
    }
}

impl<T: Drop> From<AllocFailed<T>> for PlayFault {
    fn from(_e: AllocFailed<T>) -> PlayFault {
        PlayFault::NoMemory
    }
}
