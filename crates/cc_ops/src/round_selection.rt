//! A line is parted into the asks that begin together, and what is left.

ghost use Rattle.std.specs.Prelude.{◌≡◌, ◌≤◌, ◌+◌, ◌++◌, [], ◌∷◌, true, None, IfSome, length};
ghost use Rattle.cc_ops.specs.Rounds as rounds;
ghost use Rattle.cc_ops.specs.Rounds.{picked, spared, first_round, line_behind};
ghost use Rattle.cc_ops.specs.Stages.{HasRoom};
ghost use Rattle.cc_ops.specs.WaitingAsks as waiting;
ghost use Rattle.cc_ops.specs.WaitingAsks.{line_limit, written_by};

use crate::ask_list::AskList;
use crate::commands::{is_writing, written};
use crate::pending_operation::Asked;
use cc_views::Value;
use std::mem;

/// How many asks a round may have, its share.
pub const MAX_SHARE: usize = 32;

// Whether an ask is of that kind, which writes or not.
fn is_of(kind: bool, asked: &Asked) -> bool
    ensures { result ≡ rounds.is_of kind asked.now }
{
    if kind {
        is_writing(&asked.command)
    } else {
        !is_writing(&asked.command)
    }
}

// Puts the first `most` asks of a kind behind those of `round`, and what is left behind those of `rest`.
fn part(asks: &[Asked], kind: bool, most: usize, round: &mut AskList, rest: &mut AskList)
    requires round { length round.old + length (picked kind most asks.now) ≤ line_limit }
    requires rest { length rest.old + length (spared kind most asks.now) ≤ line_limit }
    ensures round { round.new ≡ round.old ++ picked kind most asks.now }
    ensures rest { rest.new ≡ rest.old ++ spared kind most asks.now }
{
    let Some((asked, behind)) = asks.split_first() else {
        return;
    };
    if most > 0 && is_of(kind, asked) {
        round.push(asked);
        part(behind, kind, most - 1, round, rest);
    } else {
        rest.push(asked);
        part(behind, kind, most, round, rest);
    }
}

/// How many asks of the first round of the line write.
pub(crate) fn writes_of_round(line: &[Asked], share: usize) -> u64
    requires { 1 ≤ share }
    ensures count { result ≡ waiting.writes_by (first_round share line.now) }
    ensures most { result ≤ length line.now }
{
    let Some((asked, behind)) = line.split_first() else {
        return 0;
    };
    if is_writing(&asked.command) {
        1 + picked_writes(behind, share - 1)
    } else {
        0
    }
}

// How often the first `most` of those that write do so.
fn picked_writes(asks: &[Asked], most: usize) -> u64
    ensures count { result ≡ waiting.writes_by (picked true most asks.now) }
    ensures most { result ≤ length asks.now }
{
    let Some((asked, behind)) = asks.split_first() else {
        return 0;
    };
    if most == 0 {
        return 0;
    }
    if is_writing(&asked.command) {
        1 + picked_writes(behind, most - 1)
    } else {
        picked_writes(behind, most)
    }
}

/// The own value once the first round of the line has begun.
pub(crate) fn value_of_round(line: &[Asked], share: usize, mine: &Value) -> Value
    requires some { 1 ≤ share }
    requires room { HasRoom line.now mine.now }
    ensures { result ≡ written_by (first_round share line.now) mine.now }
{
    let Some((asked, behind)) = line.split_first() else {
        return *mine;
    };
    if is_writing(&asked.command) {
        picked_value(behind, share - 1, &written(&asked.command, mine))
    } else {
        *mine
    }
}

// The own value once the first `most` of those that write have begun.
fn picked_value(asks: &[Asked], most: usize, mine: &Value) -> Value
    requires { HasRoom asks.now mine.now }
    ensures { result ≡ written_by (picked true most asks.now) mine.now }
{
    let Some((asked, behind)) = asks.split_first() else {
        return *mine;
    };
    if most == 0 {
        return *mine;
    }
    if is_writing(&asked.command) {
        picked_value(behind, most - 1, &written(&asked.command, mine))
    } else {
        picked_value(behind, most, mine)
    }
}

/// Takes the first round of the line: its first ask; the others of it are in `others` then. None where none waits. It takes
/// no memory.
pub(crate) fn take_round(
    line: &mut AskList,
    share: usize,
    others: &mut AskList,
    spare: &mut AskList,
) -> Option<Asked>
    requires { 1 ≤ share }
    ensures some { IfSome result (λ asked. asked ∷ others.new ≡ first_round share line.old) }
    ensures none { result ≡ None → (first_round share line.old ≡ []) × (others.new ≡ []) }
    ensures line { line.new ≡ line_behind share line.old }
{
    others.clear();
    spare.clear();
    let (asked, behind) = line.asks().split_first()?;
    let asked = *asked;
    part(behind, is_writing(&asked.command), share - 1, others, spare);
    mem::swap(line, spare);
    Some(asked)
}
