//! Turns of a node's engine: its flusher takes them, or a worker where nobody does.

ghost use Rattle.std.specs.Prelude.{◌≡◌};

use crate::shown_state::Tally;
use cc_channels::{Admission, Durable, Shared};
use cc_flush::Failed;
use cc_intake::{Lane, Life, OfLife, Queue, Turner};
use cc_journal::Batch;
use cc_site::Site;
use cc_views::NodeId;
use std::sync::{Mutex, Wait};

/// The engine of a running node, and what is counted of its turns.
#[derive(Drop)]
pub struct CountedTurner<S: Site, L: Life, Q: Lane> {
    pub turner: Turner<S, L, Q>,
    pub tally: Tally,
}

impl<S: Site, L: Life, Q: Lane> CountedTurner<S, L, Q> {
    /// No turn was taken yet.
    pub fn new(turner: Turner<S, L, Q>) -> Self
        ensures { result.turner ≡ turner }
    {
        let engine = turner.engine();
        let opened = engine.opened();
        let tally = Tally::new(opened.records, opened.events, engine.twin().core());
        CountedTurner { turner, tally }
    }

    /// The node of the engine.
    pub fn me(&self) -> NodeId {
        self.turner.engine().twin().core().me()
    }

    // Whether asks wait for the next round: more clients ask than the node answers at once.
    fn has_waiting_asks(&self) -> bool {
        let line = self.turner.engine().twin().core().ops().line();
        !line.asks().is_empty()
    }
}

/// What takes turns needs. Whoever holds the engine's lock is the one who takes them.
#[derive(Drop)]
pub struct Turns<'x, S: Site, L: Life, Q: Lane, R: Wait> {
    pub rt: &'x R,
    pub engine: &'x Mutex<CountedTurner<S, L, Q>>,
    pub queue: &'x Queue<L, Q>,
    pub admission: &'x Admission<OfLife<L>>,
    pub shared: &'x Shared,
}

impl<S: Site, L: Life, Q: Lane, R: Wait> Turns<'_, S, L, Q, R> {
    /// A worker has brought an event that makes a post or an answer. It takes the turn itself where nobody else does, no ask waits
    /// for the next round, since one thread alone makes fuller batches, and no peer is absent, whose posts the flusher would drop
    /// behind the turn. Else it wakes the flusher.
    pub fn take(&self) {
        if self.shared.any_absent.is_set() || !self.take_here() {
            self.shared.waker.wake();
        }
    }

    // Takes a turn, unless another thread is at it or asks wait. Whether it left nothing for the flusher.
    fn take_here(&self) -> bool {
        let Some(mut guard) = self.engine.try_lock() else {
            return false;
        };
        !guard.has_waiting_asks() && self.take_whole(&mut guard)
    }

    // Takes a turn. Whether it left nothing for the flusher: neither an event, nor a disk call that failed.
    fn take_whole(&self, engine: &mut CountedTurner<S, L, Q>) -> bool {
        match self.turn(engine) {
            Ok(events) => events < Batch::MAX_ENTRIES as u64 && !engine.turner.keeps_one(),
            Err(_) => false,
        }
    }

    /// Takes a turn, and writes its posts to the peers. How many events it flushed, whose permits are free then.
    pub fn turn(&self, engine: &mut CountedTurner<S, L, Q>) -> Result<u64, Failed> {
        let (rt, shared) = (self.rt, self.shared);
        shared.waker.look();
        let turner = &mut engine.turner;
        let events = turner.turn(rt, self.queue)?.events as u64;
        if events > 0 {
            let flushed = Durable::new(turner.handed());
            let node = turner.engine().twin();
            self.admission.turned(rt, events, flushed, node);
            shared.channels.write(rt, node.core().me());
            engine.tally.commit(events);
        }
        Ok(events)
    }
}
