//! What a running node remembers of the last ask of each session, so that no request is answered in another one's place.

ghost use Rattle.std.specs.Prelude.{◌≡◌, ◌↔◌, [], IsTrue, IfOk, find, filter, not, ◌==◌, option_map, Option, Some, None};
ghost use Rattle.std.specs.Vec.{vec_capacity};
ghost use Rattle.cc_policies.specs.LastAsks.{Remembered, Differs, found, others, with_ask};

use cc_messages::Command;
use cc_ops::Asked;
use cc_views::NoMemory;
use std::alloc::Global;
use std::marker::Model;

/// The last ask of each session that was taken in since the node was started: its number and its command. A node itself keeps
/// the number alone. Once made it takes no memory.
#[derive(Drop)]
pub struct LastAsks {
    rows: Vec<Asked>,
}

impl Model for LastAsks {
    ghost use Rattle.std.specs.Vec.{vec_capacity};
    ghost use Rattle.cc_ops.specs.Codes.{line_code};
    ghost use Rattle.cc_policies.specs.LastAsks.{Remembered, IsRemembered};

    ghost Value = { Remembered };

    ghost coded = { line_code };

    ghost view = { λ a. a.rows.items };

    ghost invariant = { λ a. IsRemembered a.rows.items (vec_capacity a.rows) };
}

impl LastAsks {
    /// How many sessions are remembered at most: as many as a node ever serves.
    pub const MAX_SESSIONS: usize = 256;

    /// None was taken in yet. NoMemory where a growth was refused.
    pub fn new(alloc: Global) -> Result<Self, NoMemory>
        ensures { IfOk result (λ a. a ≡ []) }
    {
        Ok(LastAsks {
            rows: Vec::with_capacity(alloc, Self::MAX_SESSIONS)?,
        })
    }

    /// An ask was taken in: it is its session's last one from now on.
    pub fn remember(&mut self, ask: &Asked)
        ensures { self.new ≡ with_ask ask.now self.old }
    {
        keep_others(&mut self.rows, ask.session);
        if self.rows.len() < Self::MAX_SESSIONS {
            self.rows.extend_from_slice(&[*ask]).unwrap();
        }
    }

    /// Whether an ask repeats its session's last request with another command. False where the request or the session isn't
    /// remembered.
    pub fn differs(&self, ask: &Asked) -> bool
        ensures { IsTrue result ↔ Differs ask.now self.now }
    {
        match last_of(&self.rows, ask.session) {
            Some(last) => last.request == ask.request && !is_same(&last.command, &ask.command),
            None => false,
        }
    }
}

fn keep_others(rows: &mut Vec<Asked>, session: u64)
    ensures items { rows.new.items ≡ others session rows.old.items }
    ensures capacity { vec_capacity rows.new ≡ vec_capacity rows.old }
{
    rows.retain(|row| row.session != session);
}

fn last_of(rows: &[Asked], session: u64) -> Option<Asked>
    ensures { result ≡ found session rows.now }
{
    match rows {
        [] => None,
        [row, ..] if row.session == session => Some(*row),
        [_, rest @ ..] => last_of(rest, session),
    }
}

// Whether two commands are the same.
fn is_same(one: &Command, other: &Command) -> bool
    ensures { IsTrue result ↔ (one.now ≡ other.now) }
{
    match (one, other) {
        (Command::Store(one), Command::Store(other)) => one.as_bytes() == other.as_bytes(),
        (Command::WriteMax(one), Command::WriteMax(other)) => one == other,
        (Command::AddMember(one), Command::AddMember(other)) => one == other,
        (Command::Collect, Command::Collect)
        | (Command::ReadMax, Command::ReadMax)
        | (Command::SetFlag, Command::SetFlag)
        | (Command::ReadFlag, Command::ReadFlag)
        | (Command::ReadSet, Command::ReadSet) => true,
        _ => false,
    }
}
