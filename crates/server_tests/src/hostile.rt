//! Hostile connections.

use crate::clients::{FIRST_ASK, FIRST_REPLY, THIRD_REFUSED, check_closed, connected, sent};
use std::io::Write;
use std::net::{Net, SocketAddr, TcpStream};
use std::process::Abort;

// How many requests come in one write.
const REQUESTS: usize = 10_000;

/// Session 9 asks under number 3, and never asked before.
pub(crate) const OUT_OF_TURN: [u8; 24] = [
    0, 0, 0, 20, 3, 0, 0, 0, 0, 0, 0, 0, 9, 0, 0, 0, 0, 0, 0, 0, 3, 1, 1, 97,
];

// What isn't read as a frame of a client or of another node.
const STRANGE: [(&[u8], &str); 5] = [
    (&[0, 1, 0, 1], "a length of 65,537"),
    (&[0, 0, 0, 1, 0], "kind 0"),
    (&[0, 0, 0, 1, 8], "kind 8"),
    (&FIRST_REPLY, "kind 4"),
    (&THIRD_REFUSED, "kind 5"),
];

/// What such connections send: the beginnings of a request, each on a connection that is closed then; what isn't read; the same
/// bytes again and again, whose answers nobody reads, until the node has closed the connection; and many requests out of turn
/// in one write, each of which is refused, and nobody reads why.
pub(crate) fn attack<R: Abort + AllocGlobal + Net<Stream = TcpStream>>(rt: &R, to: SocketAddr) {
    for cut in 0..FIRST_ASK.len() {
        let beginning = FIRST_ASK.get(..cut).expect(rt, "a beginning");
        drop(sent(rt, to, beginning));
    }
    check_closed(rt, to, &STRANGE);
    check_cut_off(rt, to, &[0; 4096]);
    let mut requests = Vec::with_capacity(rt.alloc(), REQUESTS * OUT_OF_TURN.len()).expect(
        rt, "room",
    );
    for _ in 0..REQUESTS {
        requests.extend_from_slice(&OUT_OF_TURN).expect(rt, "room");
    }
    drop(sent(rt, to, requests.as_slice()));
}

// These bytes without an end are cut off.
fn check_cut_off<R: Abort + Net<Stream = TcpStream>>(rt: &R, to: SocketAddr, bytes: &[u8]) {
    let mut stream = connected(rt, to);
    for _ in 0..100_000u32 {
        if stream.write_all(bytes).is_err() {
            return;
        }
    }
    panic!(rt; "bytes without an end")
}
