//! A connection that somebody opens to a node, before and beside its worker.

use crate::connections::Connection;
use crate::listeners::Port;
use crate::shared::Shared;
use crate::timed_input::Patience;
use crate::writer::write_frames;
use cc_policies::{Access, Admitted, CLIENT_WRITE_MS, Origin};
use crossbeam_channel::{Receiver, bounded};
use std::alloc::Global;
use std::net::{Shutdown, SocketAddr, TcpStream};
use std::sync::atomic::AtomicU64;
use std::sync::{Arc, Wait};
use std::time::Duration;

// How many frames wait for a connection's writer at most.
const CONNECTION_ROOM: usize = 256;

// How long a connection may say nothing, in seconds: it may lead to a machine that vanished.
const SILENCE_S: u64 = 3600;

// How long a whole frame may take, in seconds.
const FRAME_S: u64 = 60;

// How long the first frame of a connection may take, in seconds: until then it isn't known who is there.
const FIRST_FRAME_S: u64 = 5;

// How long one that is kept for the operator may say nothing, and how long a frame may take there, in seconds.
const OPERATOR_S: u64 = 5;

/// What a connection's writer has.
#[derive(Drop)]
pub struct Pen {
    stream: Arc<TcpStream>,
    from: Receiver<Vec<u8>>,
    waiting: Arc<AtomicU64>,
}

/// The writer's end of a connection over a stream, and the connection. None where memory is refused.
pub fn connection_over(alloc: Global, stream: TcpStream) -> Option<(Pen, Arc<Connection>)> {
    let _ = stream.set_nodelay(true);
    let _ = stream.set_write_timeout(Some(Duration::from_millis(CLIENT_WRITE_MS)));
    let stream = Arc::new(alloc, stream).ok()?;
    let waiting = Arc::new(alloc, AtomicU64::new(0)).ok()?;
    let (to, from) = bounded(alloc, CONNECTION_ROOM).ok()?;
    let pen = Pen {
        stream: Arc::try_clone(&stream).ok()?,
        from,
        waiting: Arc::try_clone(&waiting).ok()?,
    };
    let connection = Arc::new(alloc, Connection::new(stream, to, waiting)).ok()?;
    Some((pen, connection))
}

/// Lets a connection in that comes from an address to a port. None where there are too many.
pub fn admit<R: Wait>(
    rt: &R,
    shared: &Shared,
    connection: &Arc<Connection>,
    from: SocketAddr,
    port: Port,
    remote_operators: bool,
) -> Option<Admitted> {
    let known = Arc::try_clone(connection).ok()?;
    let origin = origin_of(rt, shared, from, port);
    let access = Access::of(origin, remote_operators);
    shared.connections.enter(rt, known, origin, access)
}

fn origin_of<R: Wait>(rt: &R, shared: &Shared, from: SocketAddr, port: Port) -> Origin {
    // An IPv4 address comes to an IPv6 listener as one that is mapped.
    let address = from.ip().to_canonical();
    if matches!(port, Port::Clients) {
        Origin::Client
    } else if address.is_loopback() {
        Origin::Loopback
    } else if shared.channels.has_host(rt, address) {
        Origin::Peer
    } else {
        Origin::Stranger
    }
}

/// How long a connection may say nothing, and a frame of it may take.
pub fn patience_of(admitted: Admitted) -> Patience {
    let (silence, frame) = if admitted.access.asks {
        (SILENCE_S, FRAME_S)
    } else {
        (OPERATOR_S, OPERATOR_S)
    };
    Patience {
        silence: Duration::from_secs(silence),
        first_frame: Duration::from_secs(FIRST_FRAME_S),
        frame: Duration::from_secs(frame),
    }
}

/// Writes what is for a connection, and closes it where a write fails.
pub fn write_out<R: Wait>(rt: &R, pen: Pen) {
    let to: &TcpStream = &pen.stream;
    write_frames(rt, &pen.from, to, &pen.waiting);
    let _ = pen.stream.shutdown(Shutdown::Both);
    drop(pen);
}

/// What binds a connection that may not bring all.
pub fn bound_of(access: Access) -> &'static str {
    if access.nodes {
        "since the operator's requests aren't taken over the network"
    } else if access.asks {
        "since its port is for what clients ask alone"
    } else {
        "which is kept for the operator's requests"
    }
}
