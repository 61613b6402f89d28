//! The runtime of a node, whose log is of a level of its own.

use crate::lines::Lines;
use cc_channels::ReadText;
use cc_command_line::LogLevel;
use jiff::Timestamp;
use log::kv::Source;
use log::span::Spans;
use log::{Level, Line, Log, Logged, Metadata, Record};
use std::alloc::Global;
use std::fmt::Display;
use std::net::{Net, SocketAddr};
use std::sync::Wait;
use std::thread::Threads;
use std::time::{Clock, Duration};
use std::{fmt, io};

/// A runtime, and a log on its standard error, for which no caller waits. It passes on each call of the runtime that a node
/// makes, but those of files: `Logged` alone makes no connection within a time.
#[derive(Drop)]
pub struct NotingRuntime<'a, R> {
    rt: &'a R,
    log: Logged<&'a R, TimedConsole<'a, R>>,
}

/// Standard error, where each record has a line, behind the time where that is wanted.
#[derive(Drop)]
struct TimedConsole<'a, R> {
    rt: &'a R,
    lines: &'a Lines,
    has_times: bool,
}

impl<R: Clock> TimedConsole<'_, R> {
    // The time, to the second, by the machine's clock. None where it isn't wanted, or the clock fails.
    fn time(&self) -> Option<Timestamp> {
        if !self.has_times {
            return None;
        }
        let since = self.rt.since_1970().ok()?;
        Timestamp::from_second(i64::try_from(since.as_secs()).ok()?).ok()
    }
}

impl<R: Wait + Clock> Log for TimedConsole<'_, R> {
    fn enabled(&self, _metadata: &Metadata<'_>) -> bool {
        true
    }

    fn log<D: Display, K: Source, S: Spans>(&self, record: &Record<'_, D, K, S>) {
        let line = Line::new(record);
        match self.time() {
            Some(time) => self.lines.put(self.rt, &Timed { time, line: &line }),
            None => self.lines.put(self.rt, &line),
        }
    }

    fn flush(&self) {}

    fn target(&self) -> &str {
        ""
    }
}

// A line behind its time.
#[derive(Drop)]
struct Timed<'a, D> {
    time: Timestamp,
    line: &'a D,
}

impl<D: Display> Display for Timed<'_, D> {
    fn fmt<W: fmt::Write>(&self, f: &mut fmt::Formatter<W>) -> fmt::Result {
        write!(f, "{} {}", self.time, self.line)
    }
}

impl<'a, R> NotingRuntime<'a, R> {
    /// That runtime, which notes what is of this level, and of those before it, each with its time or without, on these lines.
    pub fn new(rt: &'a R, lines: &'a Lines, level: LogLevel, has_times: bool) -> Self {
        let level = match level {
            LogLevel::Error => Level::Error,
            LogLevel::Warn => Level::Warn,
            LogLevel::Info => Level::Info,
            LogLevel::Debug => Level::Debug,
        };
        NotingRuntime {
            rt,
            log: Logged::new(
                rt,
                level,
                TimedConsole {
                    rt,
                    lines,
                    has_times,
                },
            ),
        }
    }
}

impl<R: Wait + Clock> Log for NotingRuntime<'_, R> {
    fn enabled(&self, metadata: &Metadata<'_>) -> bool {
        self.log.enabled(metadata)
    }

    fn log<D: Display, K: Source, S: Spans>(&self, record: &Record<'_, D, K, S>) {
        self.log.log(record);
    }

    fn flush(&self) {
        self.log.flush();
    }

    fn target(&self) -> &str {
        self.log.target()
    }
}

impl<R: AllocGlobal> Alloc for NotingRuntime<'_, R> {
    type A = Global;

    fn alloc(&self) -> Global {
        self.rt.alloc()
    }
}

impl<R: ReadText> ReadText for NotingRuntime<'_, R> {
    fn read_text(&self, alloc: Global, path: &str) -> io::Result<String> {
        self.rt.read_text(alloc, path)
    }
}

impl<R: Wait> Wait for NotingRuntime<'_, R> {}

impl<R: Threads> Threads for NotingRuntime<'_, R> {}

impl<R: Clock> Clock for NotingRuntime<'_, R> {
    fn monotonic(&self) -> io::Result<Duration> {
        self.rt.monotonic()
    }

    fn since_1970(&self) -> io::Result<Duration> {
        self.rt.since_1970()
    }

    fn sleep(&self, duration: Duration) {
        self.rt.sleep(duration)
    }
}

impl<R: Net> Net for NotingRuntime<'_, R> {
    type Stream = R::Stream;

    type Listener = R::Listener;

    fn bind(&self, addr: SocketAddr) -> io::Result<R::Listener> {
        self.rt.bind(addr)
    }

    fn connect(&self, addr: SocketAddr) -> io::Result<R::Stream> {
        self.rt.connect(addr)
    }

    fn connect_timeout(&self, addr: SocketAddr, timeout: Duration) -> io::Result<R::Stream> {
        self.rt.connect_timeout(addr, timeout)
    }

    fn lookup_host(&self, host: &str, port: u16, found: &mut [SocketAddr]) -> io::Result<usize> {
        self.rt.lookup_host(host, port, found)
    }
}
