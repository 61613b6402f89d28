//! The node's own sessions, for requests without a key.

use crate::key::AskKey;
use crate::own_sessions::{Fate, OwnSessions};
use std::alloc::Global;
use std::sync::{Mutex, Wait};

// How many sessions a node has.
const MOST_SESSIONS: u16 = 256;

/// The node's own sessions, once the node has told the last request of each.
#[derive(Drop)]
pub struct Desk {
    count: u16,
    sessions: Mutex<Option<OwnSessions>>,
}

impl Desk {
    /// So many sessions, 256 at most, of which nothing is known yet.
    pub fn new(count: u16) -> Self {
        Desk {
            count: count.min(MOST_SESSIONS),
            sessions: Mutex::new(None),
        }
    }

    /// How many sessions there are.
    pub fn count(&self) -> u16 {
        self.count
    }

    /// Whether the last request of each is known.
    pub fn is_open<R: Wait>(&self, rt: &R) -> bool {
        self.sessions.lock(rt).is_some()
    }

    /// These are the last requests, unless others were told before.
    pub fn open<R: Wait>(&self, rt: &R, alloc: Global, lasts: &[u64]) {
        if lasts.len() > usize::from(MOST_SESSIONS) {
            return;
        }
        let Ok(made) = OwnSessions::new(alloc, lasts) else {
            return;
        };
        let mut sessions = self.sessions.lock(rt);
        if sessions.is_none() {
            drop(sessions.replace(made));
        } else {
            drop(made);
        }
        drop(sessions);
    }

    /// Takes a session that no request has, with its next number.
    pub fn take<R: Wait>(&self, rt: &R) -> Option<AskKey> {
        match &mut *self.sessions.lock(rt) {
            Some(sessions) => sessions.take(),
            None => None,
        }
    }

    /// Gives a key back, and says what became of its ask.
    pub fn give_back<R: Wait>(&self, rt: &R, key: AskKey, fate: Fate) {
        if let Some(sessions) = &mut *self.sessions.lock(rt) {
            sessions.give_back(key, fate);
        }
    }
}
