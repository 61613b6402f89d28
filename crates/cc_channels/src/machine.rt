//! What a running node has of its machine.

use log::Log;
use std::alloc::Global;
use std::fs::File;
use std::io;
use std::net::{Net, TcpListener, TcpStream};
use std::sync::Wait;
use std::thread::Threads;
use std::time::Clock;

/// Files that any thread may read. (Of `Files` no thread but that which was given it may make use.)
pub trait ReadText {
    /// The text of the file with that path.
    fn read_text(&self, alloc: Global, path: &str) -> io::Result<String>;
}

impl ReadText for HostRuntime {
    fn read_text(&self, alloc: Global, path: &str) -> io::Result<String> {
        io::read_to_string(alloc, File::open(self, path)?)
    }
}

/// Sockets, threads, waiting, a clock, texts of files and a log, together. Whatever has them all is one.
pub trait Machine: Net<Listener = TcpListener, Stream = TcpStream>
    + Threads
    + Wait
    + Clock
    + ReadText
    + Log
    + Sync {}

impl<R> Machine for R
where
    R: Net<Listener = TcpListener, Stream = TcpStream>
        + Threads
        + Wait
        + Clock
        + ReadText
        + Log
        + Sync,
{}
