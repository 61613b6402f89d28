//! Reading a node's state off a source, element by element.

ghost use Rattle.std.specs.Prelude.{◌≡◌, ◌≤◌, length, map, IfOk};
ghost use Rattle.cc_views.specs.Tables.{IsRising, table_of};
ghost use Rattle.cc_wire.specs.Readers.{Gives, whole};
ghost use Rattle.cc_links.specs.Rows as links;
ghost use Rattle.cc_outbox.specs.Outbox.{post_limit};
ghost use Rattle.cc_outbox.specs.Rows as answers;
ghost use Rattle.cc_node_state.specs.States.{work_at, rows_at, table_at, link_at, kept_answer_at, posts_at, kept_at, most_rows, tables_at, state_at};
ghost use Rattle.cc_node_state.specs.Fields.{work_in, tables_in, state_in, AreRead};
ghost use Rattle.cc_node_state.specs.Sources.{Finds, failure_of};

use crate::fields::{Entering, Fields, Own, Tables, Work};
use crate::layout::Layout;
use crate::source::{InMemory, Source};
use crate::source_fault::SourceFault;
use cc_links::LinkRow;
use cc_messages::Message;
use cc_outbox::{KeptAnswer, Outbox};
use cc_wire::{Reader, WireFault};
use std::alloc::Global;

fn read_links<D, P, S: Source<D, P>>(
    alloc: Global,
    device: &mut D,
    piece: &mut P,
    source: &mut S,
    count: u16,
) -> Result<Vec<LinkRow>, SourceFault<S::Failure>>
    requires { S.lies device.old source.old }
    ensures exact { S.honest device.old → Finds S.told (λ x. (map links.entry_of x.items, S.ahead device.new piece.new source.new)) result
        (rows_at link_at count 1 (S.ahead device.old piece.old source.old)) }
    ensures run { S.runs device.old source.old device.new source.new (failure_of result) }
    ensures rising { IfOk result (λ rows. IsRising links.entry_of rows.items) }
{
    let mut rows = Vec::new(alloc);
    let mut least = 1;
    for _ in 0..count {
        let row = source.link(alloc, device, piece, least)?;
        least = u64::from(row.peer.number()) + 1;
        rows.push(row)?;
    }
    Ok(rows)
}

fn read_posts<D, P, S: Source<D, P>>(
    alloc: Global,
    device: &mut D,
    piece: &mut P,
    source: &mut S,
    count: u16,
) -> Result<Vec<Message>, SourceFault<S::Failure>>
    requires { S.lies device.old source.old }
    ensures exact { S.honest device.old → Finds S.told (λ x. (x.items, S.ahead device.new piece.new source.new)) result
        (posts_at count (S.ahead device.old piece.old source.old)) }
    ensures run { S.runs device.old source.old device.new source.new (failure_of result) }
    ensures length { IfOk result (λ posts. length posts.items ≡ count) }
{
    let mut posts = Vec::new(alloc);
    for _ in 0..count {
        let post = source.message(alloc, device, piece)?;
        posts.push(post)?;
    }
    Ok(posts)
}

fn read_kept_answers<D, P, S: Source<D, P>>(
    alloc: Global,
    device: &mut D,
    piece: &mut P,
    source: &mut S,
    count: u16,
) -> Result<Vec<KeptAnswer>, SourceFault<S::Failure>>
    requires { S.lies device.old source.old }
    ensures exact { S.honest device.old → Finds S.told (λ x. (map answers.entry_of x.items, S.ahead device.new piece.new source.new)) result
        (rows_at kept_answer_at count 0 (S.ahead device.old piece.old source.old)) }
    ensures run { S.runs device.old source.old device.new source.new (failure_of result) }
    ensures rising { IfOk result (λ rows. IsRising answers.entry_of rows.items) }
{
    let mut rows = Vec::new(alloc);
    let mut least = 0;
    for _ in 0..count {
        let kept = source.kept_answer(alloc, device, piece, least)?;
        least = u128::from(kept.session) + 1;
        rows.push(kept)?;
    }
    Ok(rows)
}

#[tactic(auto, unfolding(crate::specs::States::row_list_at))]
fn read_link_table<D, P, S: Source<D, P>>(
    alloc: Global,
    device: &mut D,
    piece: &mut P,
    source: &mut S,
) -> Result<Vec<LinkRow>, SourceFault<S::Failure>>
    requires { S.lies device.old source.old }
    ensures exact { S.honest device.old → Finds S.told (λ x. (table_of links.entry_of x.items, S.ahead device.new piece.new source.new)) result
        (table_at link_at most_rows 1 (S.ahead device.old piece.old source.old)) }
    ensures run { S.runs device.old source.old device.new source.new (failure_of result) }
    ensures rising { IfOk result (λ rows. IsRising links.entry_of rows.items) }
{
    let count = source.count(alloc, device, piece)?;
    read_links(alloc, device, piece, source, count)
}

#[tactic(auto, unfolding(crate::specs::States::row_list_at))]
fn read_answer_table<D, P, S: Source<D, P>>(
    alloc: Global,
    device: &mut D,
    piece: &mut P,
    source: &mut S,
) -> Result<Vec<KeptAnswer>, SourceFault<S::Failure>>
    requires { S.lies device.old source.old }
    ensures exact { S.honest device.old → Finds S.told (λ x. (table_of answers.entry_of x.items, S.ahead device.new piece.new source.new)) result
        (table_at kept_answer_at most_rows 0 (S.ahead device.old piece.old source.old)) }
    ensures run { S.runs device.old source.old device.new source.new (failure_of result) }
    ensures rising { IfOk result (λ rows. IsRising answers.entry_of rows.items) }
{
    let count = source.count(alloc, device, piece)?;
    read_kept_answers(alloc, device, piece, source, count)
}

#[tactic(auto, unfolding(crate::specs::States::kept_at))]
fn read_kept<D, P, S: Source<D, P>>(
    alloc: Global,
    device: &mut D,
    piece: &mut P,
    source: &mut S,
) -> Result<Vec<Message>, SourceFault<S::Failure>>
    requires { S.lies device.old source.old }
    ensures exact { S.honest device.old → Finds S.told (λ x. (x.items, S.ahead device.new piece.new source.new)) result
        (kept_at (S.ahead device.old piece.old source.old)) }
    ensures run { S.runs device.old source.old device.new source.new (failure_of result) }
    ensures few { IfOk result (λ posts. length posts.items ≤ post_limit) }
{
    let count = source.count(alloc, device, piece)?;
    if usize::from(count) > Outbox::MAX_POSTS {
        return Err(SourceFault::Wire(WireFault::TooLarge));
    }
    read_posts(alloc, device, piece, source, count)
}

#[tactic(auto, unfolding(crate::specs::States::work_at))]
fn read_work<D, P, S: Source<D, P>>(
    alloc: Global,
    device: &mut D,
    piece: &mut P,
    source: &mut S,
    layout: Layout,
) -> Result<Work, SourceFault<S::Failure>>
    requires { S.lies device.old source.old }
    ensures exact { S.honest device.old → Finds S.told (λ x. (work_in x, S.ahead device.new piece.new source.new)) result
        (work_at layout (S.ahead device.old piece.old source.old)) }
    ensures run { S.runs device.old source.old device.new source.new (failure_of result) }
{
    let view = source.view(alloc, device, piece)?;
    let Own { number, mine, tag } = match source.own(alloc, device, piece) {
        Ok(own) => own,
        Err(fault) => {
            drop(view);
            return Err(fault);
        }
    };
    let Entering { echoes, need } = match source.entering(alloc, device, piece) {
        Ok(entering) => entering,
        Err(fault) => {
            drop(view);
            return Err(fault);
        }
    };
    match source.round(alloc, device, piece, layout) {
        Ok(round) => Ok(Work {
            view,
            number,
            mine,
            tag,
            echoes,
            need,
            round,
        }),
        Err(fault) => {
            drop(view);
            Err(fault)
        }
    }
}

#[tactic(auto, unfolding(crate::specs::States::tables_at))]
fn read_tables<D, P, S: Source<D, P>>(
    alloc: Global,
    device: &mut D,
    piece: &mut P,
    source: &mut S,
) -> Result<Tables, SourceFault<S::Failure>>
    requires { S.lies device.old source.old }
    ensures exact { S.honest device.old → Finds S.told (λ x. (tables_in x, S.ahead device.new piece.new source.new)) result
        (tables_at (S.ahead device.old piece.old source.old)) }
    ensures run { S.runs device.old source.old device.new source.new (failure_of result) }
    ensures read { IfOk result AreRead }
{
    let posts = source.number(alloc, device, piece)?;
    let links = read_link_table(alloc, device, piece, source)?;
    let sessions = source.sessions(alloc, device, piece)?;
    let kept = read_kept(alloc, device, piece, source)?;
    let answers = read_answer_table(alloc, device, piece, source)?;
    Ok(Tables {
        posts,
        links,
        sessions,
        kept,
        answers,
    })
}

#[tactic(auto, unfolding(crate::specs::States::state_at))]
fn read_fields<D, P, S: Source<D, P>>(
    alloc: Global,
    device: &mut D,
    piece: &mut P,
    source: &mut S,
    layout: Layout,
) -> Result<Fields, SourceFault<S::Failure>>
    requires { S.lies device.old source.old }
    ensures exact { S.honest device.old → Finds S.told (λ x. (state_in x, S.ahead device.new piece.new source.new)) result
        (state_at layout (S.ahead device.old piece.old source.old)) }
    ensures run { S.runs device.old source.old device.new source.new (failure_of result) }
    ensures read { IfOk result (λ x. AreRead x.tables) }
{
    let membership = source.membership(alloc, device, piece)?;
    let work = match read_work(alloc, device, piece, source, layout) {
        Ok(work) => work,
        Err(fault) => {
            drop(membership);
            return Err(fault);
        }
    };
    match read_tables(alloc, device, piece, source) {
        Ok(tables) => Ok(Fields {
            membership,
            work,
            tables,
        }),
        Err(fault) => {
            drop((membership, work));
            Err(fault)
        }
    }
}

/// The fields of the state that lies ahead, all of it.
#[tactic(auto, unfolding(cc_wire::specs::Readers::whole, cc_wire::specs::Readers::ended))]
pub fn read_whole<D, P, S: Source<D, P>>(
    alloc: Global,
    device: &mut D,
    piece: &mut P,
    source: &mut S,
    layout: Layout,
) -> Result<Fields, SourceFault<S::Failure>>
    requires { S.lies device.old source.old }
    ensures exact { S.honest device.old → Finds S.told state_in result (whole (state_at layout) (S.ahead device.old piece.old source.old)) }
    ensures run { S.runs device.old source.old device.new source.new (failure_of result) }
    ensures read { IfOk result (λ x. AreRead x.tables) }
{
    let fields = read_fields(alloc, device, piece, source, layout)?;
    if !source.is_ended(device, piece) {
        drop(fields);
        return Err(SourceFault::Wire(WireFault::Trailing));
    }
    Ok(fields)
}

/// The fields that the bytes spell, all of the bytes.
#[tactic(auto, using(crate::proofs::SourceLaws::wire_fails))]
pub(crate) fn read_all(alloc: Global, bytes: &[u8], layout: Layout) -> Result<Fields, WireFault>
    ensures exact { Gives state_in result (whole (state_at layout) bytes.now) }
    ensures read { IfOk result (λ x. AreRead x.tables) }
{
    let mut reader = Reader::new(bytes);
    match read_whole(alloc, &mut (), &mut reader, &mut InMemory, layout) {
        Ok(fields) => Ok(fields),
        Err(SourceFault::Wire(fault)) => Err(fault),
        // Memory doesn't fail.
        Err(SourceFault::Failed(())) => Err(WireFault::NoMemory),
    }
}
