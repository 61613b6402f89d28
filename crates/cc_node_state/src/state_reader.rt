//! Reading a node's state, part by part.

ghost use Rattle.std.specs.Prelude.{◌≡◌, ◌≤◌, [], length, map, IfOk};
ghost use Rattle.cc_views.specs.Limits.{session_limit};
ghost use Rattle.cc_views.specs.Tables.{IsRising, table_of};
ghost use Rattle.cc_wire.specs.Readers.{Gives, whole};
ghost use Rattle.cc_ops.specs.Stages.{phase_of};
ghost use Rattle.cc_ops.specs.WaitingAsks.{line_limit};
ghost use Rattle.cc_links.specs.Rows as links;
ghost use Rattle.cc_sessions.specs.Rows as sessions;
ghost use Rattle.cc_outbox.specs.Outbox.{post_limit};
ghost use Rattle.cc_outbox.specs.Rows as answers;
ghost use Rattle.cc_node_state.specs.States.{fraction_at, membership_at, pending_at, phase_at, ask_at, asks_at, ask_list_at, line_at, share_at, others_at};
ghost use Rattle.cc_node_state.specs.States.{round_at, entering_at, work_at, rows_at, row_list_at, table_at, link_at, session_from, session_at};
ghost use Rattle.cc_node_state.specs.States.{kept_answer_at, posts_at, kept_at, most_rows, tables_at, state_at};
ghost use Rattle.cc_node_state.specs.Fields.{membership_in, own_at, own_in, entering_in, round_in, work_in, tables_in, state_in, AreRead};

use crate::fields::{Entering, Fields, Membership, Own, Round, Tables, Work};
use crate::layout::Layout;
use cc_changes::Fraction;
use cc_links::LinkRow;
use cc_messages::{Command, Message};
use cc_node::Opening;
use cc_ops::{AskList, Asked, Pending, Stage};
use cc_outbox::{KeptAnswer, Outbox};
use cc_sessions::{SessionRow, Sessions};
use cc_views::View;
use cc_wire::{Reader, WireFault};
use std::alloc::Global;

#[tactic(auto, unfolding(crate::specs::States::fraction_at))]
fn read_fraction(reader: &mut Reader<'_>) -> Result<Fraction, WireFault>
    ensures { Gives (λ x. (x, reader.new)) result (fraction_at reader.old) }
{
    let num = reader.u32()?;
    let den = reader.u32()?;
    Ok(Fraction { num, den })
}

/// The first fields: id, shares and changes. The fault is that of the first that can't be read, here and in all that follow.
#[tactic(auto, unfolding(crate::specs::States::membership_at))]
pub fn read_membership(alloc: Global, reader: &mut Reader<'_>) -> Result<Membership, WireFault>
    ensures { Gives (λ x. (membership_in x, reader.new)) result (membership_at reader.old) }
{
    let me = reader.id(1)?;
    let beta = read_fraction(reader)?;
    let gamma = read_fraction(reader)?;
    let changes = reader.changes(alloc)?;
    Ok(Membership {
        me,
        beta,
        gamma,
        changes,
    })
}

#[tactic(auto, unfolding(crate::specs::States::pending_at))]
fn read_pending(reader: &mut Reader<'_>) -> Result<Pending, WireFault>
    ensures { Gives (λ x. (x, reader.new)) result (pending_at reader.old) }
{
    let session = reader.u64()?;
    let request = reader.u64()?;
    let command = reader.command()?;
    let need = reader.u16()?;
    let count = reader.u16()?;
    Ok(Pending {
        asked: Asked {
            session,
            request,
            command,
        },
        need: u64::from(need),
        count: u64::from(count),
    })
}

// How far a pending operation has come, and what it stores back.
#[tactic(auto, unfolding(crate::specs::States::phase_at))]
fn read_phase(alloc: Global, reader: &mut Reader<'_>) -> Result<(Stage, View), WireFault>
    ensures { Gives (λ x. (phase_of x.0 x.1, reader.new)) result (phase_at reader.old) }
{
    match reader.u8()? {
        0 => {
            let stage = Stage::Idle;
            let seen = View::new(alloc)?;
            Ok((stage, seen))
        }
        1 => {
            let stage = Stage::Storing(read_pending(reader)?);
            let seen = View::new(alloc)?;
            Ok((stage, seen))
        }
        2 => {
            let stage = Stage::Querying(read_pending(reader)?);
            let seen = View::new(alloc)?;
            Ok((stage, seen))
        }
        3 => {
            let stage = Stage::StoringBack(read_pending(reader)?);
            let seen = reader.view(alloc)?;
            Ok((stage, seen))
        }
        kind => Err(WireFault::BadKind(kind)),
    }
}

// The session, the request and the command of an ask.
#[tactic(auto, unfolding(crate::specs::States::ask_at))]
fn read_ask(reader: &mut Reader<'_>) -> Result<(u64, u64, Command), WireFault>
    ensures { Gives (λ x. (record { session = x.0; request = x.1; command = x.2 }, reader.new)) result (ask_at reader.old) }
{
    let session = reader.u64()?;
    let request = reader.u64()?;
    let command = reader.command()?;
    Ok((session, request, command))
}

fn read_asks(line: &mut AskList, reader: &mut Reader<'_>, count: u8) -> Result<(), WireFault>
    requires empty { line.old ≡ [] }
    requires few { count ≤ line_limit }
    ensures { Gives (λ _. (line.new, reader.new)) result (asks_at count reader.old) }
{
    for _ in 0..count {
        let (session, request, command) = read_ask(reader)?;
        line.push(&Asked {
            session,
            request,
            command,
        });
    }
    Ok(())
}

#[tactic(auto, unfolding(crate::specs::States::ask_list_at))]
fn read_ask_list(alloc: Global, reader: &mut Reader<'_>) -> Result<AskList, WireFault>
    ensures { Gives (λ x. (x, reader.new)) result (ask_list_at reader.old) }
{
    let mut asks = AskList::new(alloc)?;
    let count = reader.u8()?;
    if usize::from(count) > AskList::MAX_ASKS {
        return Err(WireFault::TooLarge);
    }
    read_asks(&mut asks, reader, count)?;
    Ok(asks)
}

// The asks that wait; none where the layout has no place for them.
fn read_line(alloc: Global, reader: &mut Reader<'_>, layout: Layout) -> Result<AskList, WireFault>
    ensures { Gives (λ x. (x, reader.new)) result (line_at layout reader.old) }
{
    match layout {
        Layout::Plain => {
            let none = AskList::new(alloc)?;
            Ok(none)
        }
        Layout::Lined | Layout::Shared => read_ask_list(alloc, reader),
    }
}

// How many asks a round has at most, where that is more than one.
#[tactic(auto, unfolding(crate::specs::States::share_at))]
fn read_share(reader: &mut Reader<'_>) -> Result<usize, WireFault>
    ensures { Gives (λ x. (x, reader.new)) result (share_at reader.old) }
{
    let share = reader.u8()?;
    if share < 2 || usize::from(share) > Opening::MAX_SHARE {
        return Err(WireFault::BadKind(share));
    }
    Ok(usize::from(share))
}

// The share, and the asks of the pending round beside its first one; 1 and none where the layout has no place for them.
fn read_others(
    alloc: Global,
    reader: &mut Reader<'_>,
    layout: Layout,
) -> Result<(usize, AskList), WireFault>
    ensures { Gives (λ x. ((x.0, x.1), reader.new)) result (others_at layout reader.old) }
{
    match layout {
        Layout::Plain | Layout::Lined => {
            let none = AskList::new(alloc)?;
            Ok((1, none))
        }
        Layout::Shared => {
            let share = read_share(reader)?;
            let others = read_ask_list(alloc, reader)?;
            Ok((share, others))
        }
    }
}

/// The pending round, and the asks behind it.
pub fn read_round(
    alloc: Global,
    reader: &mut Reader<'_>,
    layout: Layout,
) -> Result<Round, WireFault>
    ensures { Gives (λ x. (round_in x, reader.new)) result (round_at layout reader.old) }
{
    let (stage, seen) = read_phase(alloc, reader)?;
    let (share, others) = read_others(alloc, reader, layout)?;
    let line = read_line(alloc, reader, layout)?;
    Ok(Round {
        stage,
        seen,
        share,
        others,
        line,
    })
}

/// The own value under its number, and the tag.
pub fn read_own(reader: &mut Reader<'_>) -> Result<Own, WireFault>
    ensures { Gives (λ x. (own_in x, reader.new)) result (own_at reader.old) }
{
    let number = reader.u64()?;
    let mine = reader.value()?;
    let tag = reader.u64()?;
    Ok(Own { number, mine, tag })
}

/// How many echoes came, and how many are needed.
pub fn read_entering(reader: &mut Reader<'_>) -> Result<Entering, WireFault>
    ensures { Gives (λ x. (entering_in x, reader.new)) result (entering_at reader.old) }
{
    let echoes = reader.u64()?;
    let need = reader.u16()?;
    Ok(Entering { echoes, need })
}

/// A link, whose peer isn't below the least.
#[tactic(auto, unfolding(crate::specs::States::link_at))]
pub fn read_link(reader: &mut Reader<'_>, least: u64) -> Result<LinkRow, WireFault>
    requires { 1 ≤ least }
    ensures exact { Gives (λ x. (links.entry_of x, reader.new)) result (link_at least reader.old) }
    ensures least { IfOk result (λ row. least ≤ row.peer) }
{
    let peer = reader.id(least)?;
    let start = reader.u64()?;
    let acked = reader.u64()?;
    let heard = reader.u64()?;
    Ok(LinkRow {
        peer,
        start,
        acked,
        heard,
    })
}

#[tactic(auto, unfolding(crate::specs::States::session_from))]
fn read_session_id(reader: &mut Reader<'_>, least: u128) -> Result<u64, WireFault>
    ensures exact { Gives (λ x. (x, reader.new)) result (session_from least reader.old) }
    ensures least { IfOk result (λ session. least ≤ session) }
{
    let session = reader.u64()?;
    if u128::from(session) < least {
        return Err(WireFault::NotAscending);
    }
    Ok(session)
}

#[tactic(auto, unfolding(crate::specs::States::session_at))]
fn read_session(reader: &mut Reader<'_>, least: u128) -> Result<SessionRow, WireFault>
    ensures exact { Gives (λ x. (sessions.entry_of x, reader.new)) result (session_at least reader.old) }
    ensures least { IfOk result (λ row. least ≤ row.session) }
{
    let session = read_session_id(reader, least)?;
    let last = reader.u64()?;
    Ok(SessionRow { session, last })
}

/// An answer that is kept for a session, which isn't below the least.
#[tactic(auto, unfolding(crate::specs::States::kept_answer_at))]
pub fn read_kept_answer(
    alloc: Global,
    reader: &mut Reader<'_>,
    least: u128,
) -> Result<KeptAnswer, WireFault>
    ensures exact { Gives (λ x. (answers.entry_of x, reader.new)) result (kept_answer_at least reader.old) }
    ensures least { IfOk result (λ kept. least ≤ kept.session) }
{
    let session = read_session_id(reader, least)?;
    let answer = reader.answer(alloc)?;
    Ok(KeptAnswer { session, answer })
}

fn read_sessions(
    alloc: Global,
    reader: &mut Reader<'_>,
    count: u16,
) -> Result<Vec<SessionRow>, WireFault>
    ensures exact { Gives (λ rows. (map sessions.entry_of rows.items, reader.new)) result (rows_at session_at count 0 reader.old) }
    ensures rising { IfOk result (λ rows. IsRising sessions.entry_of rows.items) }
    ensures length { IfOk result (λ rows. length rows.items ≡ count) }
{
    let mut rows = Vec::with_capacity(alloc, usize::from(count))?;
    let mut least = 0;
    for _ in 0..count {
        let row = read_session(reader, least)?;
        least = u128::from(row.session) + 1;
        rows.push(row).unwrap();
    }
    Ok(rows)
}

/// The sessions, each with its last request.
#[tactic(auto, unfolding(crate::specs::States::row_list_at))]
pub fn read_session_table(
    alloc: Global,
    reader: &mut Reader<'_>,
) -> Result<Vec<SessionRow>, WireFault>
    ensures exact { Gives (λ rows. (table_of sessions.entry_of rows.items, reader.new)) result (table_at session_at session_limit 0 reader.old) }
    ensures rising { IfOk result (λ rows. IsRising sessions.entry_of rows.items) }
    ensures few { IfOk result (λ rows. length rows.items ≤ session_limit) }
{
    let count = reader.u16()?;
    if usize::from(count) > Sessions::MAX_ROWS {
        return Err(WireFault::TooLarge);
    }
    read_sessions(alloc, reader, count)
}
