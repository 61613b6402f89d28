//! Connections to addresses.

use crate::hosts::Host;
use crate::peer::Address;
use std::io;
use std::io::ErrorKind;
use std::net::{HostAddrs, Net, SocketAddr, TcpStream, ToSocketAddrs};
use std::time::Duration;

/// Why there is no connection to an address.
#[derive(Clone, Copy, Debug, PartialEq, Eq)]
pub enum ConnectFault {
    /// Its name wasn't found.
    Unknown,
    /// Nothing listens there: each try to connect was refused.
    Refused,
    /// No connection was made in time, or none could be.
    Mute,
}

/// What `bind` takes as an address, which listens at the first place that it can. A name is looked up each time.
impl ToSocketAddrs for Address {
    type Iter = HostAddrs;

    fn to_socket_addrs<N: Net>(&self, net: &N) -> io::Result<HostAddrs> {
        match &self.host {
            Host::Ip(ip) => Ok([SocketAddr::new(*ip, self.port); 32].into_iter().take(1)),
            Host::Name(name) => (name.as_str(), self.port).to_socket_addrs(net),
        }
    }
}

/// Connects to an address. A name is looked up first, which takes as long as the system's resolver does; then the places that
/// were found are tried in turn, each for this time at most.
pub fn connect<R: Net<Stream = TcpStream>>(
    rt: &R,
    address: &Address,
    timeout: Duration,
) -> Result<TcpStream, ConnectFault> {
    let Ok(places) = address.to_socket_addrs(rt) else {
        return Err(ConnectFault::Unknown);
    };
    let mut fault = ConnectFault::Unknown;
    for place in places {
        match TcpStream::connect_timeout(rt, &place, timeout) {
            Ok(stream) => return Ok(stream),
            Err(error) => fault = fault.and(&error),
        }
    }
    Err(fault)
}

impl ConnectFault {
    // After one more place wasn't connected to.
    fn and(self, error: &io::Error) -> Self {
        if self != ConnectFault::Mute && error.kind() == ErrorKind::ConnectionRefused {
            ConnectFault::Refused
        } else {
            ConnectFault::Mute
        }
    }
}
