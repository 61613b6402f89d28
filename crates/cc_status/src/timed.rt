//! Reads and writes that are over in time, by the clock: however often a byte moves, it buys no more time.

use std::io::{ErrorKind, Read, Write};
use std::net::TcpStream;
use std::time::{Clock, Duration, Instant};

/// How many bytes came, before so many seconds have passed since the start. None where none came in time, or a read fails.
pub fn read_within<R: Clock>(
    rt: &R,
    stream: &TcpStream,
    start: &Instant,
    seconds: u64,
    piece: &mut [u8],
) -> Option<usize> {
    let mut from: &TcpStream = stream;
    let left = left_of(rt, start, seconds)?;
    stream.set_read_timeout(Some(left)).ok()?;
    from.read(piece).ok()
}

/// Writes all of the bytes within so many seconds from now. None where they aren't taken in time, or a write fails.
pub fn write_within<R: Clock>(
    rt: &R,
    stream: &TcpStream,
    seconds: u64,
    bytes: &[u8],
) -> Option<()> {
    let start = Instant::now(rt).ok()?;
    let mut rest = bytes;
    for _ in 0..u64::MAX {
        if rest.is_empty() {
            return Some(());
        }
        let left = left_of(rt, &start, seconds)?;
        stream.set_write_timeout(Some(left)).ok()?;
        rest = rest.get(write_some(stream, rest)?..)?;
    }
    None
}

// How many bytes one write took, 0 where it was interrupted. None where it took none in time, or failed.
fn write_some(stream: &TcpStream, bytes: &[u8]) -> Option<usize> {
    let mut to: &TcpStream = stream;
    match to.write(bytes) {
        Ok(0) => None,
        Ok(count) => Some(count),
        Err(error) if error.kind() == ErrorKind::Interrupted => Some(0),
        Err(_) => None,
    }
}

// What is left of so many seconds since the start. None where nothing is.
fn left_of<R: Clock>(rt: &R, start: &Instant, seconds: u64) -> Option<Duration> {
    let left = Duration::from_secs(seconds).checked_sub(start.elapsed(rt).ok()?)?;
    if left.is_zero() { None } else { Some(left) }
}
