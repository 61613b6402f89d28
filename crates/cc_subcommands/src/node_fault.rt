//! What ends a script at one node.

use cc_checkpoint::OpenFault;
use cc_flush::{CheckpointFault, Failed, FormatFault};
use cc_views::NoMemory;
use std::fmt;

/// Why a node can't begin, or can't go on.
#[derive(Clone, Copy, Debug, PartialEq, Eq)]
pub enum NodeFault {
    /// Its site can't be formatted.
    Format(FormatFault),
    /// Its site can't be opened.
    Open(OpenFault),
    /// A disk call failed, which ended its engine.
    Engine(Failed),
    /// The generation that its site is in use under is the last one.
    Spent,
    /// Its site lost an output.
    Outlet,
    /// A growth was refused.
    NoMemory,
}

/// The fault's own text: `Damaged A 153`, or `Outlet`.
impl fmt::Display for NodeFault {
    fn fmt<W: fmt::Write>(&self, f: &mut fmt::Formatter<W>) -> fmt::Result {
        match self {
            NodeFault::Format(fault) => write!(f, "{fault}"),
            NodeFault::Open(fault) => write!(f, "{fault}"),
            NodeFault::Engine(failed) => write!(f, "{failed}"),
            NodeFault::Spent => write!(f, "Spent"),
            NodeFault::Outlet => write!(f, "Outlet"),
            NodeFault::NoMemory => write!(f, "NoMemory"),
        }
    }
}

impl From<NoMemory> for NodeFault {
    fn from(_e: NoMemory) -> NodeFault {
        NodeFault::NoMemory
    }
}

impl From<CheckpointFault> for NodeFault {
    fn from(fault: CheckpointFault) -> NodeFault {
        match fault {
            CheckpointFault::Failed(failed) => NodeFault::Engine(failed),
            CheckpointFault::Spent => NodeFault::Spent,
        }
    }
}
