//! Where nodes listen.

use crate::hosts::Host;
use cc_views::NodeId;
use std::fmt;
use std::net::{IpAddr, SocketAddr};

/// Where a node listens: a port of a machine.
#[derive(Clone, Copy, Debug, PartialEq, Eq)]
pub struct Address {
    pub host: Host,
    pub port: u16,
}

/// Another node, and where it listens.
#[derive(Clone, Copy, PartialEq, Eq)]
pub struct Peer {
    pub id: NodeId,
    pub address: Address,
}

impl Address {
    /// The IP of its machine, where it isn't written by a name.
    pub fn ip(&self) -> Option<IpAddr> {
        match self.host {
            Host::Ip(ip) => Some(ip),
            Host::Name(_) => None,
        }
    }
}

impl From<SocketAddr> for Address {
    fn from(address: SocketAddr) -> Self {
        Address {
            host: Host::Ip(address.ip()),
            port: address.port(),
        }
    }
}

impl fmt::Display for Address {
    fn fmt<W: fmt::Write>(&self, f: &mut fmt::Formatter<W>) -> fmt::Result {
        match &self.host {
            Host::Ip(ip) => write!(f, "{}", SocketAddr::new(*ip, self.port)),
            Host::Name(name) => write!(f, "{}:{}", name, self.port),
        }
    }
}
