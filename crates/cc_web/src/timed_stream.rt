//! A socket whose reads and writes are over in time, by the clock: however few bytes move at once, they buy no more time.

use cc_connections::Flag;
use std::io::ErrorKind;
use std::net::TcpStream;
use std::time::{Clock, Duration, Instant};

// After so long a read looks whether the node has ended, in milliseconds.
const SLICE_MS: u64 = 250;

/// A socket, until when it may read or write, and the flag that ends it.
#[derive(Drop)]
pub struct TimedStream<'a, R> {
    rt: &'a R,
    stream: &'a TcpStream,
    over: &'a Flag,
    until: Option<Instant>,
}

impl<'a, R: Clock> TimedStream<'a, R> {
    /// A socket that may do nothing yet.
    pub fn new(rt: &'a R, stream: &'a TcpStream, over: &'a Flag) -> Self {
        TimedStream {
            rt,
            stream,
            over,
            until: None,
        }
    }

    /// From now on it may read and write for so long.
    pub fn allow(&mut self, duration: Duration) {
        self.until = match Instant::now(self.rt) {
            Ok(now) => now.checked_add(duration),
            Err(_) => None,
        };
    }

    /// The socket, for one read, which waits for a slice at most: then its time may not be over. None once it is.
    pub fn to_read(&self) -> Option<&'a TcpStream> {
        let slice = self.left()?.min(Duration::from_millis(SLICE_MS));
        self.stream.set_read_timeout(Some(slice)).ok()?;
        Some(self.stream)
    }

    /// The socket, for one write. None once its time is over.
    pub fn to_write(&self) -> Option<&'a TcpStream> {
        self.stream.set_write_timeout(Some(self.left()?)).ok()?;
        Some(self.stream)
    }

    // What is left of its time, if some is.
    fn left(&self) -> Option<Duration> {
        if self.over.is_set() {
            return None;
        }
        let now = Instant::now(self.rt).ok()?;
        let left = self.until?.checked_duration_since(now)?;
        (left > Duration::ZERO).then_some(left)
    }
}

/// Whether nothing came yet.
pub fn is_waiting(kind: ErrorKind) -> bool {
    matches!(
        kind,
        ErrorKind::WouldBlock | ErrorKind::TimedOut | ErrorKind::Interrupted
    )
}
