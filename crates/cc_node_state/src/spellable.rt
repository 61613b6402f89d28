//! Every state of a node has a spelling. These functions change nothing and answer nothing: their contracts are what they
//! are for.

ghost use Rattle.std.specs.Prelude.{◌≡◌, ◌<◌, ◌^◌};
ghost use Rattle.std.specs.List.{AllByRecursion};
ghost use Rattle.std.specs.FinMap as table;
ghost use Rattle.cc_views.specs.Limits.{known_limit, session_limit};
ghost use Rattle.cc_wire.specs.Messages.{IsMessage};
ghost use Rattle.cc_links.specs.Rows as links;
ghost use Rattle.cc_sessions.specs.Rows as sessions;
ghost use Rattle.cc_outbox.specs.Rows as answers;
ghost use Rattle.cc_node_state.specs.Layouts.{layout_for};
ghost use Rattle.cc_node_state.specs.States.{IsFraction, IsMembership, membership_of, IsPending, IsPhase, IsAsk, AreAsks, IsLineOf, AreOthersOf, IsWork};
ghost use Rattle.cc_node_state.specs.States.{work_of, IsTableOf, IsLink, IsSession, IsKeptAnswer, IsKeptPosts, IsState, state_of, SpellsNode};
ghost use Rattle.cc_node_state.specs.States.{layout_of_node, node_spelling};

use crate::parts::kept_post;
use cc_changes::Fraction;
use cc_links::{LinkRow, Links};
use cc_node::{Core, Node};
use cc_ops::{AskList, Asked, Ops, Pending, Stage};
use cc_outbox::{KeptAnswer, Outbox};
use cc_sessions::{SessionRow, Sessions};
use cc_wire::{
    answer_is_spellable, changes_are_spellable, command_is_spellable, id_is_spellable,
    message_is_spellable, value_is_spellable, view_is_spellable,
};

fn number_fits(number: u64)
    ensures { number < 2 ^ 64 }
{}

fn fraction_is_spellable(fraction: Fraction)
    ensures { IsFraction fraction }
{}

fn membership_is_spellable(core: &Core)
    ensures { IsMembership (membership_of core.now) }
{
    id_is_spellable(core.me());
    fraction_is_spellable(core.beta());
    fraction_is_spellable(core.gamma());
    changes_are_spellable(core.churn().changes());
}

fn pending_is_spellable(pending: &Pending)
    requires need { pending.now.need < 2 ^ 16 }
    requires count { pending.now.count < 2 ^ 16 }
    ensures { IsPending pending.now }
{
    number_fits(pending.asked.session);
    number_fits(pending.asked.request);
    command_is_spellable(&pending.asked.command);
}

fn phase_is_spellable(ops: &Ops)
    ensures { IsPhase ops.now.phase }
{
    match ops.stage() {
        Stage::Idle => {}
        Stage::Storing(pending) | Stage::Querying(pending) => pending_is_spellable(&pending),
        Stage::StoringBack(pending) => {
            pending_is_spellable(&pending);
            view_is_spellable(ops.seen().unwrap());
        }
    }
}

fn ask_is_spellable(asked: &Asked)
    ensures { IsAsk asked.now }
{
    number_fits(asked.session);
    number_fits(asked.request);
    command_is_spellable(&asked.command);
}

#[tactic(auto, using(cc_wire::proofs::Writes::all_more))]
fn asks_are_spellable(asks: &[Asked])
    ensures { AllByRecursion IsAsk asks.now }
{
    for asked in asks {
        ask_is_spellable(asked);
    }
}

fn ask_list_is_spellable(list: &AskList)
    ensures { AreAsks list.now }
{
    asks_are_spellable(list.asks());
}

#[tactic(auto, using(crate::proofs::Written::line_written))]
fn line_is_spellable(ops: &Ops)
    ensures { IsLineOf (layout_for ops.now.share) ops.now.line }
{
    ask_list_is_spellable(ops.line());
}

#[tactic(auto, using(crate::proofs::Written::others_written))]
fn others_are_spellable(ops: &Ops)
    ensures { AreOthersOf (layout_for ops.now.share) ops.now.share ops.now.others }
{
    let _ = ops.share();
    ask_list_is_spellable(ops.others());
}

fn work_is_spellable(core: &Core)
    requires { core.now.churn.need < 2 ^ 16 }
    ensures { IsWork (layout_for core.now.ops.share) (work_of core.now) }
{
    let ops = core.ops();
    view_is_spellable(ops.view());
    let _ = ops.number();
    value_is_spellable(ops.mine());
    let _ = ops.tag();
    let _ = core.churn().echoes();
    phase_is_spellable(ops);
    others_are_spellable(ops);
    line_is_spellable(ops);
}

fn link_is_spellable(row: &LinkRow)
    ensures { IsLink (links.entry_of row.now) }
{
    id_is_spellable(row.peer);
    number_fits(row.start);
    number_fits(row.acked);
    number_fits(row.heard);
}

#[tactic(auto, using(cc_wire::proofs::Writes::all_more))]
fn link_rows_are_spellable(rows: &[LinkRow])
    ensures { AllByRecursion (λ row. IsLink (links.entry_of row)) rows.now }
{
    for row in rows {
        link_is_spellable(row);
    }
}

fn links_are_spellable(links: &Links)
    ensures { IsTableOf IsLink known_limit links.now }
{
    link_rows_are_spellable(links.rows());
}

fn session_is_spellable(row: &SessionRow)
    ensures { IsSession (sessions.entry_of row.now) }
{
    number_fits(row.session);
    number_fits(row.last);
}

#[tactic(auto, using(cc_wire::proofs::Writes::all_more, std::proofs::lemmas::List::get_or_default))]
fn session_rows_are_spellable(rows: &[SessionRow])
    ensures { AllByRecursion (λ row. IsSession (sessions.entry_of row)) rows.now }
{
    for row in rows {
        session_is_spellable(row);
    }
}

fn sessions_are_spellable(sessions: &Sessions)
    ensures { IsTableOf IsSession session_limit sessions.now }
{
    session_rows_are_spellable(sessions.rows());
}

fn posts_are_spellable(outbox: &Outbox)
    ensures { IsKeptPosts (table.values outbox.now.posts) }
{
    for at in 0..outbox.post_count() {
        message_is_spellable(kept_post(outbox, at));
    }
}

fn kept_answer_is_spellable(kept: &KeptAnswer)
    ensures { IsKeptAnswer (answers.entry_of kept.now) }
{
    number_fits(kept.session);
    answer_is_spellable(&kept.answer);
}

#[tactic(auto, using(cc_wire::proofs::Writes::all_more))]
fn answer_rows_are_spellable(rows: &[KeptAnswer])
    ensures { AllByRecursion (λ kept. IsKeptAnswer (answers.entry_of kept)) rows.now }
{
    for kept in rows {
        kept_answer_is_spellable(kept);
    }
}

fn answers_are_spellable(outbox: &Outbox)
    ensures { IsTableOf IsKeptAnswer session_limit outbox.now.answers }
{
    answer_rows_are_spellable(outbox.answers());
}

/// Every state of a node has a spelling.
pub fn node_is_spellable(node: &Node)
    ensures { SpellsNode (layout_of_node node.now) (node_spelling node.now) node.now }
{
    let core = node.core();
    let outbox = node.outbox();
    membership_is_spellable(core);
    work_is_spellable(core);
    let _ = core.posts();
    links_are_spellable(core.links());
    sessions_are_spellable(core.sessions());
    posts_are_spellable(outbox);
    answers_are_spellable(outbox);
}
