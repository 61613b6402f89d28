//! Asks in the order in which they were accepted.

ghost use Rattle.std.specs.Prelude.{◌≡◌, ◌≤◌, ◌<◌, ◌↔◌, ◌++◌, [], ◌∷◌, IfOk, IfSome, IsTrue, is_some, length, option_map};
ghost use Rattle.cc_views.specs.Limits.{set_limit};
ghost use Rattle.cc_views.specs.NatSets as set;
ghost use Rattle.cc_ops.specs.Stages.{HasRoom};
ghost use Rattle.cc_ops.specs.WaitingAsks as waiting;
ghost use Rattle.cc_ops.specs.WaitingAsks.{line_limit, AreApart, first_in, written_by};

use crate::commands::{finds_no_room, is_writing, written};
use crate::pending_operation::Asked;
use cc_views::{NoMemory, Value};
use std::alloc::Global;
use std::marker::Model;

/// At most 32 asks, in the order in which they were accepted: those that wait, and those of a round beside its first one.
#[derive(Drop)]
pub struct AskList {
    // Its room is made at the start.
    asks: Vec<Asked>,
}

impl Model for AskList {
    ghost use Rattle.std.specs.Prelude.{List};
    ghost use Rattle.std.specs.Vec.{vec_capacity};
    ghost use Rattle.cc_ops.specs.declared.pending_operation.Asked.{Asked as AskedValue};
    ghost use Rattle.cc_ops.specs.Codes.{line_code};
    ghost use Rattle.cc_ops.specs.WaitingAsks.{FitsLine};

    ghost Value = { List AskedValue };

    ghost coded = { line_code };

    ghost view = { λ l. l.asks.items };

    ghost invariant = { λ l. FitsLine l.asks.items (vec_capacity l.asks) };
}

impl AskList {
    /// How many asks it has at most.
    pub const MAX_ASKS: usize = 32;

    /// No ask. The only error is a refused growth.
    pub fn new(alloc: Global) -> Result<Self, NoMemory>
        ensures { IfOk result (λ l. l ≡ []) }
    {
        let asks = Vec::with_capacity(alloc, Self::MAX_ASKS)?;
        Ok(AskList { asks })
    }

    /// The same in memory of its own. The only error is a refused growth.
    pub fn copy(&self, alloc: Global) -> Result<Self, NoMemory>
        ensures { IfOk result (λ l. l ≡ self.now) }
    {
        let mut asks = Vec::with_capacity(alloc, Self::MAX_ASKS)?;
        asks.extend_from_slice(&self.asks).unwrap();
        Ok(AskList { asks })
    }

    /// Those that it has, the one that was accepted first in front.
    pub fn asks(&self) -> &[Asked]
        ensures asks { result.now ≡ self.now }
        ensures few { length result.now ≤ line_limit }
    {
        &self.asks
    }

    /// The one in front.
    pub fn first(&self) -> Option<&Asked>
        ensures { option_map (λ asked. asked.now) result ≡ first_in self.now }
    {
        self.asks.first()
    }

    /// Whether it has as many as it may.
    pub fn is_full(&self) -> bool
        ensures { IsTrue result ↔ (line_limit ≤ length self.now) }
    {
        self.asks.len() == Self::MAX_ASKS
    }

    /// Whether it has one of the session.
    pub fn has_session(&self, session: u64) -> bool
        ensures { result ≡ waiting.has_session session self.now }
    {
        has_session(session, &self.asks)
    }

    /// The own value once all of them have begun. None where its set would have more than 32 numbers.
    pub fn last_value(&self, mine: &Value) -> Option<Value>
        ensures fits { IsTrue (is_some result) ↔ HasRoom self.now mine.now }
        ensures value { IfSome result (λ v. v ≡ written_by self.now mine.now) }
    {
        last_value(&self.asks, mine)
    }

    /// One more, behind the others. It takes no memory.
    pub fn push(&mut self, asked: &Asked)
        requires { length self.old < line_limit }
        ensures { self.new ≡ self.old ++ asked.now ∷ [] }
    {
        self.asks.extend_from_slice(&[*asked]).unwrap();
    }

    // None are left.
    pub(crate) fn clear(&mut self)
        ensures { self.new ≡ [] }
    {
        self.asks.clear();
    }
}

fn has_session(session: u64, asks: &[Asked]) -> bool
    ensures { result ≡ waiting.has_session session asks.now }
{
    asks.iter().any(|asked| session == asked.session)
}

// Whether no two asks of both lists are of one session.
pub(crate) fn are_apart(asks: &[Asked], more: &[Asked]) -> bool
    ensures { IsTrue result ↔ AreApart (asks.now ++ more.now) }
{
    match asks.split_first() {
        Some((asked, behind)) => {
            !has_session(asked.session, behind)
                && !has_session(asked.session, more)
                && are_apart(behind, more)
        }
        None => all_apart(more),
    }
}

fn all_apart(asks: &[Asked]) -> bool
    ensures { IsTrue result ↔ AreApart asks.now }
{
    match asks.split_first() {
        Some((asked, behind)) => !has_session(asked.session, behind) && all_apart(behind),
        None => true,
    }
}

// How many of them write.
pub(crate) fn writes_by(asks: &[Asked]) -> u64
    ensures count { result ≡ waiting.writes_by asks.now }
    ensures most { result ≤ length asks.now }
{
    match asks.split_first() {
        Some((asked, behind)) => u64::from(is_writing(&asked.command)) + writes_by(behind),
        None => 0,
    }
}

fn last_value(asks: &[Asked], mine: &Value) -> Option<Value>
    ensures fits { IsTrue (is_some result) ↔ HasRoom asks.now mine.now }
    ensures value { IfSome result (λ v. v ≡ written_by asks.now mine.now) }
{
    let mut value = *mine;
    for asked in asks {
        if finds_no_room(&asked.command, &value) {
            return None;
        }
        value = written(&asked.command, &value);
    }
    set_fits(&value);
    Some(value)
}

// No set slot has more than 32 numbers.
fn set_fits(value: &Value)
    ensures { set.len value.now.set ≤ set_limit }
{
    let _ = value.set.len();
}
