//! The seconds of a node.

use cc_channels::{Admission, Listeners, Shared, knock, millis, monotonic_millis};
use cc_connections::Stop;
use cc_site::Flushed;
use std::net::{Net, TcpStream};
use std::sync::Wait;
use std::thread;
use std::time::{Clock, Duration};

// How long a tick takes, in milliseconds.
const TICK_MS: u64 = 1000;

/// Ticks until all is done, whatever the flusher waits for: so seconds are those of the clock. Once the node is to end, each
/// tick wakes the acceptors too.
pub fn tick_until<R: Wait + Clock + Net<Stream = TcpStream>, F: Flushed>(
    rt: &R,
    shared: &Shared,
    admission: &Admission<F>,
    listeners: &Listeners,
    stop: &Stop,
) {
    for _ in rt.forever() {
        thread::sleep(rt, Duration::from_millis(TICK_MS));
        shared.tick(rt, millis(rt), monotonic_millis(rt));
        admission.tick(rt);
        if shared.done.is_set() {
            if let Some(pages) = &listeners.pages {
                knock(rt, pages);
            }
            return;
        }
        if stop.is_set() || shared.has_ended() {
            knock(rt, &listeners.node);
            if let Some(clients) = &listeners.clients {
                knock(rt, clients);
            }
        }
    }
    unreachable!()
}
