//! Writing what a socket takes without waiting.

ghost use Rattle.std.specs.Prelude.{◌≤◌, length};

use libc::net as c;
use std::net::TcpStream;
use std::os::fd::AsRawFd;

/// Writes what the socket takes at once: how many of the bytes, from the first on. 0 where it would have to wait, and where it fails.
pub fn write_at_once(to: &TcpStream, bytes: &[u8]) -> usize
    ensures { result ≤ length bytes.now }
{
    let written = unsafe { c::send(to.as_raw_fd(), bytes, c::MSG_NOSIGNAL | c::MSG_DONTWAIT) };
    usize::try_from(written).unwrap_or(0)
}
