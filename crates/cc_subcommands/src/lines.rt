//! Lines on their way to standard error: nobody waits for who reads it.

use crossbeam_channel::{Receiver, Sender, bounded};
use std::alloc::{AllocError, Global};
use std::fmt::Display;
use std::sync::atomic::{AtomicU64, Ordering};
use std::sync::{Arc, Wait};
use std::thread;
use std::thread::Threads;
use std::time::{Clock, Duration};

// How many lines wait at most.
const ROOM: usize = 1024;

// How long the end of the program waits for the lines before it, in milliseconds: first for room, then until all are written.
const END_MS: u64 = 250;

/// Lines that a thread of its own writes to standard error. What finds no room is dropped, and counted.
#[derive(Drop)]
pub struct Lines {
    alloc: Global,
    to: Sender<Option<String>>,
    written: Receiver<()>,
    dropped: Arc<AtomicU64>,
}

impl Lines {
    /// Starts the thread, which nobody joins: where nobody reads standard error the program ends without it.
    pub fn start<R>(rt: &R, alloc: Global) -> Result<Self, AllocError>
    where
        R: Threads + Wait + Eprint + Copy + Send + Drop + 'static,
    {
        let (to, from) = bounded(alloc, ROOM)?;
        let (done, written) = bounded(alloc, 1)?;
        let dropped = Arc::new(alloc, AtomicU64::new(0)).or(Err(AllocError))?;
        let counted = Arc::try_clone(&dropped)?;
        let machine = *rt;
        thread::spawn(rt, move || write_lines(&machine, &from, &done, &counted)).or(Err(
            AllocError,
        ))?;
        Ok(Lines {
            alloc,
            to,
            written,
            dropped,
        })
    }

    /// Puts a line behind those that wait.
    pub fn put<R: Wait, D: Display>(&self, rt: &R, line: &D) {
        let is_put = match format!(in self.alloc; "{line}") {
            Ok(line) => self.to.try_send(rt, Some(line)).is_ok(),
            Err(_) => false,
        };
        if !is_put {
            self.dropped.fetch_add(1, Ordering::SeqCst);
        }
    }

    /// Waits until all lines are written, for half a second at most.
    pub fn end<R: Wait + Clock>(&self, rt: &R) {
        let patience = Duration::from_millis(END_MS);
        if self.to.send_timeout(rt, None, patience).is_ok() {
            let _ = self.written.recv_timeout(rt, patience);
        }
    }
}

// Writes lines until None comes.
fn write_lines<R: Wait + Eprint>(
    rt: &R,
    from: &Receiver<Option<String>>,
    done: &Sender<()>,
    dropped: &AtomicU64,
) {
    for _ in rt.forever() {
        let Some(line) = from.recv(rt).unwrap_or(None) else {
            break;
        };
        let _ = eprintln!(rt; "{line}");
        drop(line);
        let count = dropped.swap(0, Ordering::SeqCst);
        if count > 0 {
            let _ = eprintln!(rt;
                "[WARN  ccnode::lines] {count} notes were dropped, since nobody read them in time"
            );
        }
    }
    let _ = done.try_send(rt, ());
}
