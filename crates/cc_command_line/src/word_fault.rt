//! Words of another form.

use crate::peer_lines::LineFault;
use std::alloc::AllocError;
use std::error::Error;
use std::fmt;

/// Which word of a command line isn't of its form.
#[derive(Clone, Copy, Debug, PartialEq, Eq)]
pub enum WordFault {
    Id,
    Initial,
    Contacts,
    Beta,
    Gamma,
    Share,
    Cluster,
    Address,
    Listen,
    ListenClients,
    Operators,
    Speaks,
    Peers,
    PeerTwice,
    PeerItself,
    PeersTwice,
    /// The line with this number, of the file behind `--peers-file`.
    Line(usize),
    /// A node stands twice in that file.
    LineTwice,
    Status,
    Http,
    HttpSessions,
    HttpOrigin,
    Log,
    Session,
    Command,
    Request,
    /// A command that isn't a reading is to be of a snapshot, or it has a number.
    Snapshot,
    Timeout,
    Addresses,
    AddressTwice,
    Clients,
    Seconds,
    SessionsFrom,
    Node,
    Retirement,
    /// The share that a node is to have.
    NewShare,
    /// An address stands twice in the file behind `--peers-file`.
    LineAddressTwice,
    /// That file names no node but the one to retire.
    NobodyElse,
    /// A growth was refused.
    NoMemory,
}

impl WordFault {
    // Which word it is, and what it isn't.
    fn text(self) -> &'static str {
        match self {
            WordFault::Id => "ID isn't a number, such as 4",
            WordFault::Initial => "--initial isn't a list of numbers, such as 1,2,3",
            WordFault::Contacts => "--contacts isn't a list of numbers, such as 1,2,3",
            WordFault::Beta => "--beta isn't a fraction, such as 4/5",
            WordFault::Gamma => "--gamma isn't a fraction, such as 4/5",
            WordFault::Share => "--share isn't a number, such as 32",
            WordFault::Cluster => {
                "--cluster isn't a name of 1 to 64 letters, digits, `-`, `.` and `_`, such as blue"
            }
            WordFault::Address => "ADDR isn't an address and a port, such as 127.0.0.1:7001",
            WordFault::Listen => "--listen isn't an address and a port, such as 127.0.0.1:7001",
            WordFault::ListenClients => {
                "--listen-clients isn't an address and a port, such as 127.0.0.1:7501"
            }
            WordFault::Operators => "--operators isn't one of: on, off",
            WordFault::Speaks => "--speaks isn't one of: now, 0.1",
            WordFault::Peers => {
                "--peers isn't a list of peers, such as 2=127.0.0.1:7002,3=127.0.0.1:7003"
            }
            WordFault::PeerTwice => "--peers names a node twice",
            WordFault::PeerItself => "--peers names the node itself",
            WordFault::PeersTwice => {
                "--peers and --peers-file are both given; one of them names the peers"
            }
            WordFault::Line(_) => "isn't ID=ADDR, such as 2=127.0.0.1:7002",
            WordFault::LineTwice => "names a node twice",
            WordFault::Status => "--status isn't an address and a port, such as 127.0.0.1:8001",
            WordFault::Http => "--http isn't an address and a port, such as 127.0.0.1:8080",
            WordFault::HttpSessions => "--http-sessions isn't a number from 0 to 256",
            WordFault::HttpOrigin => "--http-origin isn't an origin, such as http://localhost:3000",
            WordFault::Log => "--log isn't one of: error, warn, info, debug",
            WordFault::Session => "SESSION isn't a number, such as 7",
            WordFault::Command => {
                "COMMAND isn't one of: store WORD, collect, snapshot, max N, readmax, flag, readflag, add N, readset"
            }
            WordFault::Request => "--request isn't a number from 1 on, such as 12",
            WordFault::Snapshot => {
                "--snapshot is for collect, readmax, readflag and readset, without --request"
            }
            WordFault::Timeout => "--timeout isn't a number of seconds, such as 10",
            WordFault::Addresses => {
                "ADDRS isn't a list of addresses and ports, such as 127.0.0.1:7001,127.0.0.1:7002"
            }
            WordFault::AddressTwice => "ADDRS names an address twice",
            WordFault::Clients => "--clients isn't a number from 1 to 256, such as 8",
            WordFault::Seconds => "--seconds isn't a number from 1 to 3600, such as 10",
            WordFault::SessionsFrom => "--sessions-from isn't a number, such as 9000",
            WordFault::Node => "ID isn't the id of a node, such as 3",
            WordFault::Retirement => "retire takes ADDRS and ID, or --peers-file FILE and ID",
            WordFault::NewShare => "N isn't a number from 1 to 32, such as 8",
            WordFault::LineAddressTwice => "names an address twice",
            WordFault::NobodyElse => "names no node but the one to retire",
            WordFault::NoMemory => "out of memory",
        }
    }
}

impl fmt::Display for WordFault {
    fn fmt<W: fmt::Write>(&self, f: &mut fmt::Formatter<W>) -> fmt::Result {
        if let WordFault::Line(number) = self {
            write!(f, "line {number} ")?;
        }
        f.write_str(self.text())
    }
}

impl Error for WordFault {}

impl From<AllocError> for WordFault {
    fn from(_: AllocError) -> Self {
        WordFault::NoMemory
    }
}

impl From<LineFault> for WordFault {
    fn from(fault: LineFault) -> Self {
        match fault {
            LineFault::NoPeer(number) => WordFault::Line(number),
            LineFault::NoMemory => WordFault::NoMemory,
        }
    }
}
