//! Writing what a node's state is made of at the end of a vector.

ghost use Rattle.std.specs.Prelude.{◌<◌, ◌^◌, ◌++◌, ◌∷◌};
ghost use Rattle.std.specs.List.{flat_map};
ghost use Rattle.cc_wire.specs.Writers.{Writes};
ghost use Rattle.cc_links.specs.Rows as links;
ghost use Rattle.cc_sessions.specs.Rows as sessions;
ghost use Rattle.cc_outbox.specs.Rows as answers;
ghost use Rattle.cc_node_state.specs.States.{fraction_spelling, membership_spelling, membership_of, counts_spelling, pending_spelling, phase_spelling};
ghost use Rattle.cc_node_state.specs.States.{ask_spelling, asks_spelling, line_spelling, others_spelling, stored_spelling, entering_spelling};
ghost use Rattle.cc_node_state.specs.Parts.{operations_spelling};
ghost use Rattle.cc_node_state.specs.States.{table_spelling, link_spelling, session_spelling, kept_answer_spelling};

use crate::layout::Layout;
use cc_changes::{Changes, Fraction};
use cc_links::{LinkRow, Links};
use cc_node::Core;
use cc_ops::{AskList, Asked, Ops, Pending, Stage};
use cc_outbox::KeptAnswer;
use cc_sessions::{SessionRow, Sessions};
use cc_views::{NodeId, Value, View};
use cc_wire::{
    put_answer, put_asked, put_changes, put_id, put_u8, put_u16, put_u32, put_u64, put_value,
    put_view,
};
use std::alloc::AllocError;

fn put_fraction(out: &mut Vec<u8>, fraction: Fraction) -> Result<(), AllocError>
    ensures { Writes out.old out.new (fraction_spelling fraction) result }
{
    put_u32(out, fraction.num)?;
    put_u32(out, fraction.den)
}

fn put_profile(
    out: &mut Vec<u8>,
    me: NodeId,
    beta: Fraction,
    gamma: Fraction,
    changes: &Changes,
) -> Result<(), AllocError>
    ensures { Writes out.old out.new (membership_spelling (record { me = me; beta = beta; gamma = gamma; changes = changes.now })) result }
{
    put_id(out, me)?;
    put_fraction(out, beta)?;
    put_fraction(out, gamma)?;
    put_changes(out, changes)
}

pub(crate) fn put_membership(out: &mut Vec<u8>, core: &Core) -> Result<(), AllocError>
    ensures { Writes out.old out.new (membership_spelling (membership_of core.now)) result }
{
    let changes = core.churn().changes();
    put_profile(out, core.me(), core.beta(), core.gamma(), changes)
}

fn put_counts(out: &mut Vec<u8>, need: u64, count: u64) -> Result<(), AllocError>
    requires need { need < 2 ^ 16 }
    requires count { count < 2 ^ 16 }
    ensures { Writes out.old out.new (counts_spelling need count) result }
{
    put_u16(out, need as u16)?;
    put_u16(out, count as u16)
}

fn put_pending(out: &mut Vec<u8>, pending: &Pending) -> Result<(), AllocError>
    requires need { pending.now.need < 2 ^ 16 }
    requires count { pending.now.count < 2 ^ 16 }
    ensures { Writes out.old out.new (pending_spelling pending.now) result }
{
    let asked = &pending.asked;
    put_asked(out, asked.session, asked.request, &asked.command)?;
    put_counts(out, pending.need, pending.count)
}

// A pending operation behind the kind of its phase.
fn put_round(out: &mut Vec<u8>, kind: u8, pending: &Pending) -> Result<(), AllocError>
    requires need { pending.now.need < 2 ^ 16 }
    requires count { pending.now.count < 2 ^ 16 }
    ensures { Writes out.old out.new (kind ∷ pending_spelling pending.now) result }
{
    put_u8(out, kind)?;
    put_pending(out, pending)
}

fn put_phase(out: &mut Vec<u8>, ops: &Ops) -> Result<(), AllocError>
    ensures { Writes out.old out.new (phase_spelling ops.now.phase) result }
{
    let stage = ops.stage();
    match stage {
        Stage::Idle => put_u8(out, 0),
        Stage::Storing(pending) => put_round(out, 1, &pending),
        Stage::Querying(pending) => put_round(out, 2, &pending),
        Stage::StoringBack(pending) => {
            put_round(out, 3, &pending)?;
            put_view(out, ops.seen().unwrap())
        }
    }
}

fn put_ask(out: &mut Vec<u8>, asked: &Asked) -> Result<(), AllocError>
    ensures { Writes out.old out.new (ask_spelling asked.now) result }
{
    put_asked(out, asked.session, asked.request, &asked.command)
}

fn put_asks(out: &mut Vec<u8>, asks: &[Asked]) -> Result<(), AllocError>
    ensures { Writes out.old out.new (flat_map ask_spelling asks.now) result }
{
    for asked in asks {
        put_ask(out, asked)?;
    }
    Ok(())
}

fn put_ask_list(out: &mut Vec<u8>, list: &AskList) -> Result<(), AllocError>
    ensures { Writes out.old out.new (asks_spelling list.now) result }
{
    let asks = list.asks();
    put_u8(out, asks.len() as u8)?;
    put_asks(out, asks)
}

fn put_line(out: &mut Vec<u8>, layout: Layout, line: &AskList) -> Result<(), AllocError>
    ensures { Writes out.old out.new (line_spelling layout line.now) result }
{
    match layout {
        Layout::Plain => Ok(()),
        Layout::Lined | Layout::Shared => put_ask_list(out, line),
    }
}

fn put_others(
    out: &mut Vec<u8>,
    layout: Layout,
    share: usize,
    others: &AskList,
) -> Result<(), AllocError>
    requires { share < 2 ^ 8 }
    ensures { Writes out.old out.new (others_spelling layout share others.now) result }
{
    match layout {
        Layout::Plain | Layout::Lined => Ok(()),
        Layout::Shared => {
            put_u8(out, share as u8)?;
            put_ask_list(out, others)
        }
    }
}

// The share, the others of the pending round, and the asks that wait behind it.
fn put_asks_behind(out: &mut Vec<u8>, layout: Layout, ops: &Ops) -> Result<(), AllocError>
    ensures { Writes out.old out.new (others_spelling layout ops.now.share ops.now.others ++ line_spelling layout ops.now.line) result }
{
    put_others(out, layout, ops.share(), ops.others())?;
    put_line(out, layout, ops.line())
}

/// The pending round, and the asks that wait behind it.
pub(crate) fn put_operations(out: &mut Vec<u8>, ops: &Ops) -> Result<(), AllocError>
    ensures { Writes out.old out.new (operations_spelling ops.now) result }
{
    put_phase(out, ops)?;
    put_asks_behind(out, Layout::of_share(ops.share()), ops)
}

pub(crate) fn put_stored(
    out: &mut Vec<u8>,
    view: &View,
    number: u64,
    mine: &Value,
    tag: u64,
) -> Result<(), AllocError>
    ensures { Writes out.old out.new (stored_spelling view.now number mine.now tag) result }
{
    put_view(out, view)?;
    put_u64(out, number)?;
    put_value(out, mine)?;
    put_u64(out, tag)
}

pub(crate) fn put_entering(out: &mut Vec<u8>, echoes: u64, need: u64) -> Result<(), AllocError>
    requires { need < 2 ^ 16 }
    ensures { Writes out.old out.new (entering_spelling echoes need) result }
{
    put_u64(out, echoes)?;
    put_u16(out, need as u16)
}

fn put_link(out: &mut Vec<u8>, row: &LinkRow) -> Result<(), AllocError>
    ensures { Writes out.old out.new (link_spelling (links.entry_of row.now)) result }
{
    put_id(out, row.peer)?;
    put_u64(out, row.start)?;
    put_u64(out, row.acked)?;
    put_u64(out, row.heard)
}

fn put_session(out: &mut Vec<u8>, row: &SessionRow) -> Result<(), AllocError>
    ensures { Writes out.old out.new (session_spelling (sessions.entry_of row.now)) result }
{
    put_u64(out, row.session)?;
    put_u64(out, row.last)
}

pub(crate) fn put_kept_answer(out: &mut Vec<u8>, kept: &KeptAnswer) -> Result<(), AllocError>
    ensures { Writes out.old out.new (kept_answer_spelling (answers.entry_of kept.now)) result }
{
    put_u64(out, kept.session)?;
    put_answer(out, &kept.answer)
}

fn put_links(out: &mut Vec<u8>, rows: &[LinkRow]) -> Result<(), AllocError>
    ensures { Writes out.old out.new (flat_map (λ row. link_spelling (links.entry_of row)) rows.now) result }
{
    for row in rows {
        put_link(out, row)?;
    }
    Ok(())
}

fn put_sessions(out: &mut Vec<u8>, rows: &[SessionRow]) -> Result<(), AllocError>
    ensures { Writes out.old out.new (flat_map (λ row. session_spelling (sessions.entry_of row)) rows.now) result }
{
    for row in rows {
        put_session(out, row)?;
    }
    Ok(())
}

pub(crate) fn put_link_table(out: &mut Vec<u8>, links: &Links) -> Result<(), AllocError>
    ensures { Writes out.old out.new (table_spelling link_spelling links.now) result }
{
    let rows = links.rows();
    put_u16(out, rows.len() as u16)?;
    put_links(out, rows)
}

pub(crate) fn put_session_table(out: &mut Vec<u8>, sessions: &Sessions) -> Result<(), AllocError>
    ensures { Writes out.old out.new (table_spelling session_spelling sessions.now) result }
{
    let rows = sessions.rows();
    put_u16(out, rows.len() as u16)?;
    put_sessions(out, rows)
}
