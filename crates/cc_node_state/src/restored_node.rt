//! A node out of the fields of its state.

ghost use Rattle.std.specs.Prelude.{◌≡◌, ◌-◌, ◌≤◌, ◌<◌, ◌^◌, ◌↔◌, length, IfOk, IfSome, IsTrue, is_some};
ghost use Rattle.std.specs.FinMap as table;
ghost use Rattle.cc_views.specs.Limits.{counter_limit, known_limit, session_limit};
ghost use Rattle.cc_views.specs.Tables.{IsRising, table_of};
ghost use Rattle.cc_links.specs.Rows as links;
ghost use Rattle.cc_sessions.specs.Rows as sessions;
ghost use Rattle.cc_outbox.specs.Outbox.{post_limit};
ghost use Rattle.cc_outbox.specs.Rows as kept_rows;
ghost use Rattle.cc_ops.specs.Stages.{HasWaiting, WaitsBehind, HasRoom};
ghost use Rattle.cc_node.specs.Lawful.{IsLawfulNode};
ghost use Rattle.cc_messages.specs.Shares.{share_limit};
ghost use Rattle.cc_node_state.specs.States.{numbered_to, node_of};
ghost use Rattle.cc_node_state.specs.Fields.{round_in, state_in, AreRead, CanBuild};

use crate::fields::{Fields, Membership, Round, Tables, Work};
use cc_churn::Churn;
use cc_links::{LinkRow, Links};
use cc_messages::Message;
use cc_node::{CoreParts, Node, Opening};
use cc_ops::{AskList, Ops, Stage};
use cc_outbox::{KeptAnswer, Outbox};
use cc_sessions::{SessionRow, Sessions};
use cc_views::{COUNTER_LIMIT, NoMemory, Value};
use std::alloc::Global;

// Whether a pending operation waits for more answers than it has, at most as many as a node can know peers.
fn has_waiting(stage: Stage) -> bool
    ensures { IsTrue result ↔ HasWaiting stage }
{
    match stage {
        Stage::Idle => true,
        Stage::Storing(pending) | Stage::Querying(pending) | Stage::StoringBack(pending) => {
            pending.count < pending.need && pending.need <= Links::MAX_ROWS as u64
        }
    }
}

// Whether the parts of a node can be made of the fields, as they can of those of each lawful state.
fn can_build(fields: &Fields) -> bool
    ensures { IsTrue result ↔ CanBuild fields.now }
{
    let tables = &fields.tables;
    if tables.links.len() > Links::MAX_ROWS {
        return false;
    }
    if tables.answers.len() > Outbox::MAX_ANSWERS {
        return false;
    }
    if tables.kept.len() as u64 > tables.posts {
        return false;
    }
    let work = &fields.work;
    if work.number > COUNTER_LIMIT {
        return false;
    }
    if work.tag > COUNTER_LIMIT {
        return false;
    }
    if work.echoes > COUNTER_LIMIT {
        return false;
    }
    if !has_waiting(work.round.stage) {
        return false;
    }
    if !share_fits(&work.round) {
        return false;
    }
    line_fits(&work.round, &work.mine)
}

// Whether a round may have as many asks, and the pending one has no more.
fn share_fits(round: &Round) -> bool
    ensures { IsTrue result ↔ ((1 ≤ round.now.share) × ((round.now.share ≤ share_limit) × (length round.now.others < round.now.share))) }
{
    let others = round.others.asks();
    round.share >= 1 && round.share <= Opening::MAX_SHARE && others.len() < round.share
}

// Whether asks wait only behind a pending operation, and the own set has room for what they put in.
fn line_fits(round: &Round, mine: &Value) -> bool
    ensures { IsTrue result ↔ (WaitsBehind round.now.stage round.now.line × HasRoom round.now.line mine.now) }
{
    if !waits_behind(round.stage, &round.line) {
        return false;
    }
    round.line.last_value(mine).is_some()
}

fn waits_behind(stage: Stage, line: &AskList) -> bool
    ensures { IsTrue result ↔ WaitsBehind stage line.now }
{
    match stage {
        Stage::Idle => line.asks().is_empty(),
        Stage::Storing(_) | Stage::Querying(_) | Stage::StoringBack(_) => true,
    }
}

fn links_of(alloc: Global, rows: Vec<LinkRow>) -> Result<Links, NoMemory>
    requires rising { IsRising links.entry_of rows.items }
    requires few { length rows.items ≤ known_limit }
    ensures { IfOk result (λ l. l ≡ table_of links.entry_of rows.items) }
{
    let mut links = Links::new(alloc)?;
    for row in rows {
        links.insert(row);
    }
    Ok(links)
}

fn sessions_of(alloc: Global, rows: Vec<SessionRow>) -> Result<Sessions, NoMemory>
    requires rising { IsRising sessions.entry_of rows.items }
    requires few { length rows.items ≤ session_limit }
    ensures { IfOk result (λ s. s ≡ table_of sessions.entry_of rows.items) }
{
    let mut sessions = Sessions::new(alloc)?;
    for row in rows {
        sessions.begin(row.session, row.last);
    }
    Ok(sessions)
}

// The posts that have the numbers up to `posts`.
fn kept_up_to(alloc: Global, posts: u64, kept: Vec<Message>) -> Result<Outbox, NoMemory>
    requires few { length kept.items ≤ post_limit }
    requires numbers { length kept.items ≤ posts }
    ensures { IfOk result (λ o. o ≡ record { last = posts; posts = numbered_to posts kept.items; answers = table.empty }) }
{
    let dropped = posts - kept.len() as u64;
    let mut outbox = Outbox::starting_after(alloc, dropped)?;
    for post in kept {
        outbox.add(post);
    }
    Ok(outbox)
}

fn keep_answers(outbox: &mut Outbox, answers: Vec<KeptAnswer>)
    requires rising { IsRising kept_rows.entry_of answers.items }
    requires few { length answers.items ≤ session_limit }
    requires none { outbox.old.answers ≡ table.empty }
    ensures { outbox.new ≡ record { last = outbox.old.last; posts = outbox.old.posts; answers = table_of kept_rows.entry_of answers.items } }
{
    for kept in answers {
        outbox.keep(kept.session, kept.answer);
    }
}

fn ops_of(alloc: Global, work: Work) -> Result<Ops, NoMemory>
    requires number { work.number ≤ counter_limit }
    requires tag { work.tag ≤ counter_limit }
    requires waits { HasWaiting work.round.stage }
    requires behind { WaitsBehind work.round.stage work.round.line }
    requires some { 1 ≤ work.round.share }
    requires most { work.round.share ≤ share_limit }
    requires beside { length work.round.others < work.round.share }
    requires room { HasRoom work.round.line work.mine }
    ensures { IfOk result (λ o. o ≡ record {
      view = work.view;
      number = work.number;
      mine = work.mine;
      tag = work.tag;
      share = work.round.share;
      phase = (round_in work.round).0;
      others = work.round.others;
      line = work.round.line;
    }) }
{
    let Work {
        view,
        number,
        mine,
        tag,
        round,
        ..
    } = work;
    let Round {
        stage,
        seen,
        share,
        others,
        line,
    } = round;
    Ops::from_parts(
        alloc, view, number, mine, tag, share, stage, seen, others, line,
    )
}

// What a node has in tables.
struct NodeTables {
    links: Links,
    sessions: Sessions,
    outbox: Outbox,
}

fn tables_of(alloc: Global, tables: Tables) -> Result<NodeTables, NoMemory>
    requires read { AreRead tables }
    requires peers { length tables.links.items ≤ known_limit }
    requires answers { length tables.answers.items ≤ session_limit }
    requires numbers { length tables.kept.items ≤ tables.posts }
    ensures links { IfOk result (λ t. t.links ≡ table_of links.entry_of tables.links.items) }
    ensures sessions { IfOk result (λ t. t.sessions ≡ table_of sessions.entry_of tables.sessions.items) }
    ensures outbox { IfOk result (λ t. t.outbox ≡ record {
      last = tables.posts;
      posts = numbered_to tables.posts tables.kept.items;
      answers = table_of kept_rows.entry_of tables.answers.items;
    }) }
{
    let Tables {
        posts,
        links,
        sessions,
        kept,
        answers,
    } = tables;
    let Ok(links) = links_of(alloc, links) else {
        drop((sessions, kept, answers));
        return Err(NoMemory);
    };
    let Ok(sessions) = sessions_of(alloc, sessions) else {
        drop((links, kept, answers));
        return Err(NoMemory);
    };
    let Ok(mut outbox) = kept_up_to(alloc, posts, kept) else {
        drop((links, sessions, answers));
        return Err(NoMemory);
    };
    keep_answers(&mut outbox, answers);
    Ok(NodeTables {
        links,
        sessions,
        outbox,
    })
}

/// The node whose state the fields are. None where no node can be in that state.
pub fn restore(alloc: Global, fields: Fields) -> Result<Option<Node>, NoMemory>
    requires { AreRead fields.tables }
    ensures lawful { IfOk result (λ node. IsTrue (is_some node) ↔ IsLawfulNode (node_of (state_in fields))) }
    ensures node { IfOk result (λ node. IfSome node (λ n. n ≡ node_of (state_in fields))) }
{
    if !can_build(&fields) {
        drop(fields);
        return Ok(None);
    }
    let Fields {
        membership,
        work,
        tables,
    } = fields;
    let (posts, echoes, need) = (tables.posts, work.echoes, u64::from(work.need));
    let Ok(ops) = ops_of(alloc, work) else {
        drop((membership, tables));
        return Err(NoMemory);
    };
    let Ok(tables) = tables_of(alloc, tables) else {
        drop((membership, ops));
        return Err(NoMemory);
    };
    let NodeTables {
        links,
        sessions,
        outbox,
    } = tables;
    let Membership {
        me,
        beta,
        gamma,
        changes,
    } = membership;
    let parts = CoreParts {
        me,
        beta,
        gamma,
        churn: Churn::from_parts(changes, echoes, need),
        ops,
        posts,
        links,
        sessions,
    };
    Ok(Node::restored(parts, outbox))
}
