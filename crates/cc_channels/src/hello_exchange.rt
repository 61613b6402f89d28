//! How a node greets its peers, and what comes of it.

use cc_connections::Flag;
use cc_policies::Greeter;
use cc_views::NodeId;
use std::fmt;
use std::sync::atomic::{AtomicU64, Ordering};
use std::sync::{Condvar, Mutex, OnceLock, Wait};

/// A folder is behind what was told of its node: a peer has taken in its posts up to `heard`, and up to `posted` it ever posted to it.
#[derive(Clone, Copy, PartialEq, Eq)]
pub struct OldCopy {
    pub peer: NodeId,
    pub heard: u64,
    pub posted: u64,
}

/// `OldCopy PEER HEARD POSTED`.
impl fmt::Display for OldCopy {
    fn fmt<W: fmt::Write>(&self, f: &mut fmt::Formatter<W>) -> fmt::Result {
        let (heard, posted) = (self.heard, self.posted);
        write!(f, "OldCopy {} {heard} {posted}", self.peer.number())
    }
}

impl fmt::Debug for OldCopy {
    fn fmt<W: fmt::Write>(&self, f: &mut fmt::Formatter<W>) -> fmt::Result {
        write!(f, "{self}")
    }
}

/// What the node greets its peers with, and what came of it.
#[derive(Drop)]
pub struct HelloExchange {
    // None where it doesn't greet.
    greeter: OnceLock<Greeter>,
    // What nodes send comes only over connections over which they greeted.
    needs_greeting: Flag,
    // How many peers it has to greet before it takes an ask, and who waits for that.
    awaited: AtomicU64,
    turn: Mutex<()>,
    settled: Condvar,
    old_copy: OnceLock<OldCopy>,
}

impl HelloExchange {
    /// It greets nobody.
    pub fn new() -> Self {
        HelloExchange {
            greeter: OnceLock::new(),
            needs_greeting: Flag::new(),
            awaited: AtomicU64::new(0),
            turn: Mutex::new(()),
            settled: Condvar::new(),
            old_copy: OnceLock::new(),
        }
    }

    /// It greets its peers so from now on, which are so many at first.
    pub fn begin(&self, greeter: Greeter, peers: u64) {
        if self.greeter.try_set(greeter).is_ok() {
            self.awaited.store(peers, Ordering::SeqCst);
        }
    }

    /// What nodes send comes only over connections over which they greeted, from now on.
    pub fn need_greeting(&self) {
        self.needs_greeting.set();
    }

    /// Whether what nodes send comes only over connections over which they greeted.
    pub fn needs_greeting(&self) -> bool {
        self.needs_greeting.is_set()
    }

    /// What it greets with. None where it doesn't greet.
    pub fn greeter(&self) -> Option<&Greeter> {
        self.greeter.get()
    }

    // One of its first peers was greeted, or can't be reached.
    fn arrive<R: Wait>(&self, rt: &R) {
        let _ = self.awaited.fetch_update(
            Ordering::SeqCst,
            Ordering::SeqCst,
            |awaited| awaited.checked_sub(1),
        );
        self.wake(rt);
    }

    /// Waits until each of its first peers was greeted, or can't be reached: a second at most.
    pub fn wait<R: Wait>(&self, rt: &R) {
        if self.is_settled() {
            return;
        }
        let mut turn = self.turn.lock(rt);
        for _ in rt.forever() {
            if self.is_settled() {
                return;
            }
            turn = self.settled.wait(rt, turn);
        }
        unreachable!()
    }

    fn is_settled(&self) -> bool {
        self.awaited.load(Ordering::SeqCst) == 0
    }

    // Wakes who waits.
    fn wake<R: Wait>(&self, rt: &R) {
        drop(self.turn.lock(rt));
        self.settled.notify_all();
    }

    /// A second has passed since the start: nobody waits any longer.
    pub fn settle<R: Wait>(&self, rt: &R) {
        if !self.is_settled() {
            self.awaited.store(0, Ordering::SeqCst);
            self.wake(rt);
        }
    }

    /// Its folder is an old copy. The first time counts.
    pub fn find(&self, old_copy: OldCopy) {
        let _ = self.old_copy.try_set(old_copy);
    }

    /// That its folder is an old copy, if that is known.
    pub fn old_copy(&self) -> Option<OldCopy> {
        self.old_copy.get().copied()
    }
}

/// The first try to greet a peer.
#[derive(Drop)]
pub struct FirstTry<'a> {
    hello_exchange: &'a HelloExchange,
    is_over: bool,
}

impl<'a> FirstTry<'a> {
    /// It isn't over.
    pub fn new(hello_exchange: &'a HelloExchange) -> Self {
        FirstTry {
            hello_exchange,
            is_over: false,
        }
    }

    /// The peer was greeted, or can't be reached.
    pub fn end<R: Wait>(&mut self, rt: &R) {
        if !self.is_over {
            self.is_over = true;
            self.hello_exchange.arrive(rt);
        }
    }
}
