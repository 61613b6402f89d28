//! Where a node listens.

use std::net::{Net, SocketAddr, TcpListener, TcpStream};
use std::time::Duration;

/// Where a node listens: for all, for clients alone, and for those who look at it, if they may.
#[derive(Drop)]
pub struct Listeners {
    pub node: TcpListener,
    pub clients: Option<TcpListener>,
    pub pages: Option<TcpListener>,
}

/// Which port of a node somebody connects to.
#[derive(Clone, Copy)]
pub enum Port {
    /// The one that nodes, clients and the operator connect to.
    Nodes,
    /// The one for clients alone.
    Clients,
}

/// Wakes the acceptor of a listener, which then looks at the flags.
pub fn knock<R: Net<Stream = TcpStream>>(rt: &R, listener: &TcpListener) {
    if let Ok(address) = listener.local_addr() {
        let _ = TcpStream::connect_timeout(rt, &address, Duration::from_secs(1));
    }
}
