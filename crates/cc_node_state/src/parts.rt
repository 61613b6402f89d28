//! A node's state in the parts that it is written in, each of which a piece has room for.

ghost use Rattle.std.specs.Prelude.{◌≡◌, ◌≤◌, ◌<◌, ◌+◌, ◌*◌, ◌^◌, ℕ, [], get_or, length};
ghost use Rattle.std.specs.List.{flat_map};
ghost use Rattle.cc_ops.specs.WaitingAsks.{line_limit};
ghost use Rattle.std.specs.FinMap as table;
ghost use Rattle.cc_wire.specs.Writers.{Writes};
ghost use Rattle.cc_node_state.specs.States.{membership_spelling, membership_of, pending_spelling, phase_spelling, ask_spelling, asks_spelling};
ghost use Rattle.cc_node_state.specs.States.{line_spelling, others_spelling};
ghost use Rattle.cc_node_state.specs.Parts.{own_spelling, operations_spelling, front_spelling, kept_parts, parts_of};

use crate::layout::Layout;
use crate::state_writer::{
    put_entering, put_kept_answer, put_link_table, put_membership, put_operations,
    put_session_table, put_stored,
};
use cc_messages::Message;
use cc_node::{Core, Node};
use cc_ops::{AskList, Asked, Ops, Pending, Stage};
use cc_outbox::Outbox;
use cc_wire::{
    answer_len, changes_len, command_len, message_len, put_message, put_u16, put_u64, value_len,
    view_len,
};
use std::alloc::AllocError;

/// How many bytes a count has.
pub const COUNT_LEN: usize = 2;

/// How many bytes an id has.
pub const ID_LEN: usize = 4;

/// How many bytes a fraction has.
pub const FRACTION_LEN: usize = 8;

/// How many bytes a number has.
pub const NUMBER_LEN: usize = 8;

/// How many bytes a link has: a peer and three numbers.
pub const LINK_LEN: usize = ID_LEN + 3 * NUMBER_LEN;

/// How many bytes a session has: its number, and that of its last request.
pub const SESSION_LEN: usize = 2 * NUMBER_LEN;

/// The kept post at a place, from 0: the lowest number comes first.
pub(crate) fn kept_post(outbox: &Outbox, at: usize) -> &Message
    requires { at < table.len outbox.now.posts }
    ensures { result.now ≡ get_or (table.values outbox.now.posts) at result.now }
{
    let dropped = outbox.last() - outbox.post_count() as u64;
    outbox.post(dropped + at as u64 + 1).unwrap()
}

fn membership_len(core: &Core) -> usize
    ensures len { result ≡ length (membership_spelling (membership_of core.now)) }
    ensures fits { result ≤ 3098 }
{
    ID_LEN + 2 * FRACTION_LEN + changes_len(core.churn().changes())
}

fn own_len(core: &Core) -> usize
    ensures len { result ≡ length (own_spelling core.now) }
    ensures fits { result ≤ 55271 }
{
    let ops = core.ops();
    view_len(ops.view()) + NUMBER_LEN + value_len(ops.mine()) + NUMBER_LEN + NUMBER_LEN + COUNT_LEN
}

/// How many bytes a pending operation has.
pub fn pending_len(pending: &Pending) -> usize
    ensures len { result ≡ length (pending_spelling pending.now) }
    ensures fits { result ≤ 86 }
{
    2 * NUMBER_LEN + command_len(&pending.asked.command) + 2 * COUNT_LEN
}

fn phase_len(ops: &Ops) -> usize
    ensures len { result ≡ length (phase_spelling ops.now.phase) }
    ensures fits { result ≤ 55129 }
{
    match ops.stage() {
        Stage::Idle => 1,
        Stage::Storing(pending) | Stage::Querying(pending) => 1 + pending_len(&pending),
        Stage::StoringBack(pending) => 1 + pending_len(&pending) + view_len(ops.seen().unwrap()),
    }
}

fn ask_len(asked: &Asked) -> usize
    ensures len { result ≡ length (ask_spelling asked.now) }
    ensures fits { result ≤ 82 }
{
    2 * NUMBER_LEN + command_len(&asked.command)
}

fn asks_len(asks: &[Asked]) -> usize
    requires { length asks.now ≤ line_limit }
    ensures len { result ≡ length (flat_map ask_spelling asks.now) }
    ensures fits { result ≤ 82 * length asks.now }
{
    match asks.split_first() {
        Some((asked, behind)) => ask_len(asked) + asks_len(behind),
        None => 0,
    }
}

fn ask_list_len(list: &AskList) -> usize
    ensures len { result ≡ length (asks_spelling list.now) }
    ensures each { result ≤ 1 + 82 * length list.now }
    ensures fits { result ≤ 2625 }
{
    1 + asks_len(list.asks())
}

/// How many bytes the asks that wait have.
pub fn line_len(line: &AskList, layout: Layout) -> usize
    ensures len { result ≡ length (line_spelling layout line.now) }
    ensures fits { result ≤ 2625 }
{
    match layout {
        Layout::Plain => 0,
        Layout::Lined | Layout::Shared => ask_list_len(line),
    }
}

/// How many bytes the share and the others of the pending round have.
pub fn others_len(others: &AskList, layout: Layout) -> usize
    ensures len { (share : ℕ) → result ≡ length (others_spelling layout share others.now) }
    ensures each { result ≤ 2 + 82 * length others.now }
    ensures fits { result ≤ 2626 }
{
    match layout {
        Layout::Plain | Layout::Lined => 0,
        Layout::Shared => 1 + ask_list_len(others),
    }
}

fn operations_len(ops: &Ops) -> usize
    ensures len { result ≡ length (operations_spelling ops.now) }
    ensures some { 1 ≤ result }
    ensures fits { result ≤ 60298 }
{
    let layout = Layout::of_share(ops.share());
    phase_len(ops) + others_len(ops.others(), layout) + line_len(ops.line(), layout)
}

fn front_len(core: &Core) -> usize
    ensures len { (kept : ℕ) → result ≡ length (front_spelling core.now kept) }
    ensures fits { result ≤ 11278 }
{
    let links = COUNT_LEN + LINK_LEN * core.links().rows().len();
    let sessions = COUNT_LEN + SESSION_LEN * core.sessions().rows().len();
    NUMBER_LEN + links + sessions + COUNT_LEN
}

fn kept_len(outbox: &Outbox, at: usize) -> usize
    requires { at < length (kept_parts outbox.now) }
    ensures len { result ≡ length (get_or (kept_parts outbox.now) at []) }
    ensures some { 1 ≤ result }
    ensures fits { result ≤ 58126 }
{
    let posts = outbox.post_count();
    if at < posts {
        return message_len(kept_post(outbox, at));
    }
    if at == posts {
        return COUNT_LEN;
    }
    let kept = &outbox.answers()[at - posts - 1];
    NUMBER_LEN + answer_len(&kept.answer)
}

/// How many parts the state of a node is written in.
pub fn part_count(node: &Node) -> usize
    ensures count { result ≡ length (parts_of node.now) }
    ensures few { result ≤ 773 }
{
    let outbox = node.outbox();
    5 + outbox.post_count() + outbox.answers().len()
}

/// How many bytes the part at a place has, from 0.
#[tactic(auto, unfolding(crate::specs::Parts::parts_of))]
pub fn part_len(node: &Node, at: usize) -> usize
    requires { at < length (parts_of node.now) }
    ensures len { result ≡ length (get_or (parts_of node.now) at []) }
    ensures some { 1 ≤ result }
    ensures fits { result ≤ 60298 }
{
    let core = node.core();
    match at {
        0 => membership_len(core),
        1 => own_len(core),
        2 => operations_len(core.ops()),
        3 => front_len(core),
        _ => kept_len(node.outbox(), at - 4),
    }
}

fn put_own(out: &mut Vec<u8>, core: &Core) -> Result<(), AllocError>
    requires { core.now.churn.need < 2 ^ 16 }
    ensures { Writes out.old out.new (own_spelling core.now) result }
{
    let ops = core.ops();
    put_stored(out, ops.view(), ops.number(), ops.mine(), ops.tag())?;
    put_entering(out, core.churn().echoes(), core.churn().need())
}

fn put_front(out: &mut Vec<u8>, core: &Core, kept: usize) -> Result<(), AllocError>
    requires { kept < 2 ^ 16 }
    ensures { Writes out.old out.new (front_spelling core.now kept) result }
{
    put_u64(out, core.posts())?;
    put_link_table(out, core.links())?;
    put_session_table(out, core.sessions())?;
    put_u16(out, kept as u16)
}

fn put_kept(out: &mut Vec<u8>, outbox: &Outbox, at: usize) -> Result<(), AllocError>
    requires { at < length (kept_parts outbox.now) }
    ensures { Writes out.old out.new (get_or (kept_parts outbox.now) at []) result }
{
    let posts = outbox.post_count();
    let answers = outbox.answers();
    if at < posts {
        return put_message(out, kept_post(outbox, at));
    }
    if at == posts {
        return put_u16(out, answers.len() as u16);
    }
    put_kept_answer(out, &answers[at - posts - 1])
}

/// Appends the part at a place, from 0. On an `Err` a piece of it may stand at the end.
#[tactic(auto, unfolding(crate::specs::Parts::parts_of))]
pub fn put_part(out: &mut Vec<u8>, node: &Node, at: usize) -> Result<(), AllocError>
    requires { at < length (parts_of node.now) }
    ensures { Writes out.old out.new (get_or (parts_of node.now) at []) result }
{
    let core = node.core();
    let outbox = node.outbox();
    match at {
        0 => put_membership(out, core),
        1 => put_own(out, core),
        2 => put_operations(out, core.ops()),
        3 => put_front(out, core, outbox.post_count()),
        _ => put_kept(out, outbox, at - 4),
    }
}
