//! Clients: what they send, and what they read.

use std::io::{Read, Write};
use std::net::{Net, SocketAddr, TcpStream};
use std::process::Abort;
use std::time::Duration;

/// Session 7 asks under number 1: store `a`.
pub(crate) const FIRST_ASK: [u8; 24] = [
    0, 0, 0, 20, 3, 0, 0, 0, 0, 0, 0, 0, 7, 0, 0, 0, 0, 0, 0, 0, 1, 1, 1, 97,
];

/// Its answer.
pub(crate) const FIRST_REPLY: [u8; 22] = [
    0, 0, 0, 18, 4, 0, 0, 0, 0, 0, 0, 0, 7, 0, 0, 0, 0, 0, 0, 0, 1, 1,
];

/// Session 7 asks under number 3, and never asked under 2.
pub(crate) const THIRD_ASK: [u8; 24] = [
    0, 0, 0, 20, 3, 0, 0, 0, 0, 0, 0, 0, 7, 0, 0, 0, 0, 0, 0, 0, 3, 1, 1, 97,
];

/// It is refused: Skip, since the session's last request is 1.
pub(crate) const THIRD_REFUSED: [u8; 30] = [
    0, 0, 0, 26, 5, 0, 0, 0, 0, 0, 0, 0, 7, 0, 0, 0, 0, 0, 0, 0, 3, 12, 0, 0, 0, 0, 0, 0, 0, 1,
];

/// Session 8 asks under number 1: store `a`.
pub(crate) const OTHER_ASK: [u8; 24] = [
    0, 0, 0, 20, 3, 0, 0, 0, 0, 0, 0, 0, 8, 0, 0, 0, 0, 0, 0, 0, 1, 1, 1, 97,
];

/// Its answer.
pub(crate) const OTHER_REPLY: [u8; 22] = [
    0, 0, 0, 18, 4, 0, 0, 0, 0, 0, 0, 0, 8, 0, 0, 0, 0, 0, 0, 0, 1, 1,
];

/// A connection on which a read or a write takes ten seconds at most.
pub(crate) fn connected<R: Abort + Net<Stream = TcpStream>>(rt: &R, to: SocketAddr) -> TcpStream {
    let stream = TcpStream::connect(rt, to).expect(rt, "a connection");
    stream.set_nodelay(true).expect(rt, "no delay");
    stream
        .set_read_timeout(Some(Duration::from_secs(10)))
        .expect(rt, "a limit of reads");
    stream
        .set_write_timeout(Some(Duration::from_secs(10)))
        .expect(rt, "a limit of writes");
    stream
}

/// A connection over which these bytes were sent.
pub(crate) fn sent<R: Abort + Net<Stream = TcpStream>>(
    rt: &R,
    to: SocketAddr,
    bytes: &[u8],
) -> TcpStream {
    let mut stream = connected(rt, to);
    stream.write_all(bytes).expect(rt, "the bytes are sent");
    stream
}

/// Sends bytes, and reads these.
pub(crate) fn exchange<R: Abort + AllocGlobal + Net<Stream = TcpStream>>(
    rt: &R,
    to: SocketAddr,
    bytes: &[u8],
    wanted: &[u8],
) {
    let mut stream = sent(rt, to, bytes);
    reads(rt, &mut stream, wanted);
}

/// Reads these bytes.
pub(crate) fn reads<R: Abort + AllocGlobal>(rt: &R, stream: &mut TcpStream, wanted: &[u8]) {
    let mut read = vec![in rt.alloc(); 0u8; wanted.len()].expect(rt, "room");
    stream
        .read_exact(read.as_mut_slice())
        .expect(rt, "so many bytes");
    assert!(rt; read.as_slice() == wanted, "what the node answers");
}

/// Reads nothing but the end.
pub(crate) fn ends(stream: &mut TcpStream) -> bool {
    let mut piece = [0u8; 16];
    matches!(stream.read(&mut piece), Ok(0))
}

/// What each of these rows sends closes its connection. The row says what that is.
pub(crate) fn check_closed<R: Abort + Net<Stream = TcpStream>>(
    rt: &R,
    to: SocketAddr,
    rows: &[(&[u8], &str)],
) {
    for &(bytes, what) in rows {
        let mut stream = sent(rt, to, bytes);
        assert!(rt; ends(&mut stream), "{what}");
    }
}
