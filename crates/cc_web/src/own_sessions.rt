//! The node's own sessions, of which each has one request at a time.

ghost use Rattle.std.specs.Prelude.{◌≡◌, ◌+◌, ◌<◌, ◌≤◌, ◌^◌, length, map, IfOk, MatchOption};
ghost use Rattle.cc_views.specs.Limits.{session_limit};
ghost use Rattle.cc_web.specs.OwnSessions as own;

use crate::key::AskKey;
use cc_views::{COUNTER_LIMIT, NoMemory};
use std::alloc::Global;
use std::marker::Model;

/// A session of the node's own.
#[derive(Clone, Copy)]
pub struct OwnSession {
    /// Its last request that a node may have accepted, 0 for none.
    pub last: u64,
    /// A request has it.
    pub is_taken: bool,
    /// Its last request may still be pending.
    pub is_doubtful: bool,
}

/// What became of the ask of a key.
#[derive(Clone, Copy)]
pub enum Fate {
    /// It was answered.
    Answered,
    /// It was refused, so that nothing stands under its key.
    Refused,
    /// It was accepted, or may have been, and isn't answered.
    Abandoned,
    /// It was refused since the session's last request is this one: somebody else uses the session.
    Behind(u64),
}

/// The node's own sessions: 2^64 - 1, and downwards from there.
#[derive(Drop)]
pub struct OwnSessions {
    rows: Vec<OwnSession>,
}

impl Model for OwnSessions {
    ghost use Rattle.std.specs.Prelude.{List, length, ◌≤◌};
    ghost use Rattle.cc_views.specs.Limits.{session_limit};
    ghost use Rattle.cc_web.specs.declared.own_sessions.OwnSession.{OwnSession};

    ghost Value = { List OwnSession };

    ghost view = { λ s. s.rows.items };

    ghost invariant = { λ s. length s.rows.items ≤ session_limit };
}

impl OwnSessions {
    /// Sessions of which none is taken, with the last request of each, as the node has it.
    pub fn new(alloc: Global, lasts: &[u64]) -> Result<Self, NoMemory>
        requires { length lasts.now ≤ session_limit }
        ensures { IfOk result (λ s. s ≡ map own.fresh lasts.now) }
    {
        let mut rows = Vec::with_capacity(alloc, lasts.len())?;
        for last in lasts {
            rows.push(fresh(*last))?;
        }
        Ok(OwnSessions { rows })
    }

    /// Takes a session that no request has, with its next number: one whose last request is answered before one whose
    /// isn't. None where each is taken, or has no next number.
    #[tactic(auto, using(crate::proofs::OwnChoices::takes))]
    pub fn take(&mut self) -> Option<AskKey>
        ensures { MatchOption result (own.NoneTaken self.old self.new) (λ key. own.Takes self.old key self.new) }
    {
        let at = choice_of(&self.rows)?;
        let row = self.rows[at];
        self.rows[at] = OwnSession {
            is_taken: true,
            ..row
        };
        Some(AskKey {
            session: u64::MAX - at as u64,
            request: row.last + 1,
        })
    }

    /// Gives a key back, and says what became of its ask. It changes nothing where that key isn't taken.
    pub fn give_back(&mut self, key: AskKey, fate: Fate)
        ensures { self.new ≡ own.given_back self.old key fate }
    {
        let at = (u64::MAX - key.session) as usize;
        if at >= self.rows.len() {
            return;
        }
        let row = self.rows[at];
        if row.is_out(key.request) {
            self.rows[at] = row.after(fate);
        }
    }
}

impl OwnSession {
    // Whether a request has it under this number.
    fn is_out(self, request: u64) -> bool
        ensures { result ≡ own.is_out self request }
    {
        self.is_taken && request > 0 && self.last == request - 1
    }

    fn after(self, fate: Fate) -> OwnSession
        requires { self.last + 1 < 2 ^ 64 }
        ensures { result ≡ own.after self fate }
    {
        let next = self.last + 1;
        match fate {
            Fate::Answered => OwnSession {
                last: next,
                is_taken: false,
                is_doubtful: false,
            },
            Fate::Refused => OwnSession {
                is_taken: false,
                ..self
            },
            Fate::Abandoned => OwnSession {
                last: next,
                is_taken: false,
                is_doubtful: true,
            },
            Fate::Behind(last) => OwnSession {
                last: self.last.max(last),
                is_taken: false,
                is_doubtful: true,
            },
        }
    }

    fn is_free(self, is_doubtful: bool) -> bool
        ensures { result ≡ own.is_free is_doubtful self }
    {
        !self.is_taken && self.is_doubtful == is_doubtful && self.last < COUNTER_LIMIT
    }
}

// A session that no request has.
fn fresh(last: u64) -> OwnSession
    ensures { result ≡ own.fresh last }
{
    OwnSession {
        last,
        is_taken: false,
        is_doubtful: false,
    }
}

// Where a session stands that is to be taken next.
#[tactic(auto, using(crate::proofs::OwnChoices::sure_chosen, crate::proofs::OwnChoices::doubtful_chosen))]
fn choice_of(rows: &[OwnSession]) -> Option<usize>
    ensures { own.IsChoice rows.now result }
{
    match place_of(rows, false) {
        Some(at) => Some(at),
        None => place_of(rows, true),
    }
}

// Where a session stands that no request has, of those whose last request is doubtful, or of the others.
fn place_of(rows: &[OwnSession], is_doubtful: bool) -> Option<usize>
    ensures { own.IsFound (own.is_free is_doubtful) rows.now result }
{
    for (at, row) in rows.iter().enumerate() {
        if row.is_free(is_doubtful) {
            return Some(at);
        }
    }
    None
}
