//! The channel on which what a node sends to itself waits for its worker.

ghost use Rattle.std.specs.Prelude.{◌≤◌};

use crate::offer::offer;
use cc_connections::Flag;
use cc_messages::{Event, PostRange};
use cc_policies::{Due, Withheld};
use crossbeam_channel::{Receiver, Sender, bounded};
use std::alloc::{AllocError, Global};
use std::sync::{Mutex, Wait};

// How many events wait for the worker of the node's own messages at most.
const OWN_ROOM: usize = 4096;

/// The channel to the node itself. None ends its worker.
#[derive(Drop)]
pub struct OwnChannel {
    to: Sender<Option<Event>>,
    is_muted: Flag,
    // The numbers of the last posts, which are for others.
    withheld: Mutex<Withheld>,
}

impl OwnChannel {
    /// Puts an event on the channel. What finds no room is lost: links resend.
    pub fn put<R: Wait>(&self, rt: &R, event: Event) {
        if self.is_muted.is_set() {
            drop(event);
        } else {
            let _ = offer(rt, &self.to, Some(event));
        }
    }

    /// What the node is to hear once it puts a post for itself under this number.
    pub fn due<R: Wait>(&self, rt: &R, number: u64, is_for: bool) -> Due
        requires { 1 ≤ number }
    {
        self.withheld.lock(rt).put(number, is_for)
    }

    /// The numbers that were withheld, of which the node is to hear now.
    pub fn take_withheld<R: Wait>(&self, rt: &R) -> Option<PostRange> {
        self.withheld.lock(rt).take()
    }

    /// Ends the worker, once it has taken what waits.
    pub fn end<R: Wait>(&self, rt: &R) {
        drop(self.to.send(rt, None));
    }

    pub fn mute(&self) {
        self.is_muted.put(!self.to.is_empty());
    }

    pub fn unmute(&self) {
        self.is_muted.put(false);
    }

    /// Whether it takes nothing now.
    pub fn is_muted(&self) -> bool {
        self.is_muted.is_set()
    }
}

/// The channel of a node to itself, and what its worker takes.
pub fn own_channel(alloc: Global) -> Result<(OwnChannel, Receiver<Option<Event>>), AllocError> {
    let (to, from) = bounded(alloc, OWN_ROOM)?;
    Ok((
        OwnChannel {
            to,
            is_muted: Flag::new(),
            withheld: Mutex::new(Withheld::new()),
        },
        from,
    ))
}
