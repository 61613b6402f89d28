//! Frames that have to come within a time.

ghost use Rattle.std.specs.Prelude.{◌≡◌};

use cc_policies::Input;
use std::io;
use std::io::{ErrorKind, Read};
use std::net::TcpStream;
use std::time::{Clock, Duration, Instant};

/// How long a connection may say nothing, and how long its first whole frame and each later one may take from its first byte on.
#[derive(Clone, Copy)]
pub struct Patience {
    pub silence: Duration,
    pub first_frame: Duration,
    pub frame: Duration,
}

/// What comes over a connection, read by a clock: a read fails where a frame takes too long, however few bytes come at a time.
#[derive(Clone, Copy)]
pub struct TimedInput<'a, R> {
    rt: &'a R,
    stream: &'a TcpStream,
    patience: Patience,
    // Until when the next bytes have to come.
    due: Option<Instant>,
    // No byte of the next frame has come.
    is_between: bool,
    // Nothing has come.
    is_fresh: bool,
}

impl<'a, R: Clock> TimedInput<'a, R> {
    /// Nothing was read yet.
    pub fn new(rt: &'a R, stream: &'a TcpStream, patience: Patience) -> Self {
        TimedInput {
            rt,
            stream,
            patience,
            due: None,
            is_between: true,
            is_fresh: true,
        }
    }

    // Has so long pass from now on.
    fn wait_for(&mut self, duration: Duration) {
        self.due = Instant::now(self.rt)
            .ok()
            .and_then(|now| now.checked_add(duration));
    }

    // How long the next read may wait. None where the time is over, or the clock can't be read.
    fn left(&self) -> Option<Duration> {
        let now = Instant::now(self.rt).ok()?;
        let left = self.due?.checked_duration_since(now)?;
        (left > Duration::ZERO).then_some(left)
    }
}

impl<R: Clock> Input for TimedInput<'_, R> {
    ghost use Rattle.std.specs.Prelude.{None, ⊤};

    ghost remaining = { λ _. None };

    ghost may_fail = { ⊤ };

    fn begin_frame(&mut self, has_begun: bool) {
        self.is_between = !has_begun;
        self.wait_for(if has_begun {
            self.patience.frame
        } else {
            self.patience.silence
        });
    }

    fn read_into(&mut self, buffer: &mut [u8]) -> io::Result<usize> {
        let Some(left) = self.left() else {
            return Err(ErrorKind::TimedOut.into());
        };
        self.stream.set_read_timeout(Some(left))?;
        let mut from = self.stream;
        let count = from.read(buffer)?;
        if self.is_between {
            self.is_between = false;
            self.wait_for(if self.is_fresh {
                self.patience.first_frame
            } else {
                self.patience.frame
            });
            self.is_fresh = false;
        }
        Ok(count)
    }
}
