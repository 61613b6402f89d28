//! Why a node's status isn't known.

use cc_connections::Address;
use std::alloc::AllocError;
use std::error::Error;
use std::fmt;

/// Why the status of the node at an address isn't known.
#[derive(Clone, Copy, Debug, PartialEq, Eq)]
pub enum LookFault {
    /// Its name wasn't found.
    Unknown(Address),
    /// Nothing listens there.
    Closed(Address),
    /// No connection could be made there, or no whole answer came over one in five seconds.
    Mute(Address),
    /// The node has just been started, and tells its status within a second.
    Starting(Address),
    /// What came isn't the status of a node.
    Other(Address),
    /// More than 4 MiB came.
    TooLong(Address),
    /// A growth was refused.
    NoMemory,
}

impl fmt::Display for LookFault {
    fn fmt<W: fmt::Write>(&self, f: &mut fmt::Formatter<W>) -> fmt::Result {
        match self {
            LookFault::Unknown(address) => write!(f, "the name in {address} isn't found"),
            LookFault::Closed(address) => write!(f, "nothing listens at {address}"),
            LookFault::Mute(address) => write!(f, "{address} doesn't answer"),
            LookFault::Starting(address) => write!(
                f,
                "the node at {address} has just been started: ask again in a second"
            ),
            LookFault::Other(address) => {
                write!(
                    f,
                    "{address} isn't where a node tells its status: see run --status"
                )
            }
            LookFault::TooLong(address) => write!(f, "{address} answers more than 4 MiB"),
            LookFault::NoMemory => write!(f, "out of memory"),
        }
    }
}

impl Error for LookFault {}

impl From<AllocError> for LookFault {
    fn from(_: AllocError) -> Self {
        LookFault::NoMemory
    }
}
