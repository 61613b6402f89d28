//! The parts of a core, and whether they make a lawful one.

ghost use Rattle.std.specs.Prelude.{◌≡◌, ◌≤◌, ◌↔◌, not, Some, IsTrue, IsFalse};
ghost use Rattle.std.specs.List.{list_all};
ghost use Rattle.std.specs.FinMap as table;
ghost use Rattle.cc_views.specs.Limits.{known_limit, session_limit};
ghost use Rattle.cc_views.specs.NatSets as set;
ghost use Rattle.cc_views.specs.NatSets.{IsWithin};
ghost use Rattle.cc_views.specs.Rows.{ViewMap};
ghost use Rattle.cc_changes.specs.ChangeLaws.{IsAmong};
ghost use Rattle.cc_links.specs.Links.{LinksWithin};
ghost use Rattle.cc_links.specs.Rows.{link_of};
ghost use Rattle.cc_ops.specs.Commands as commands;
ghost use Rattle.cc_ops.specs.Ops.{IsWaiting, seen_in};
ghost use Rattle.cc_ops.specs.Stages.{HasRoom};
ghost use Rattle.cc_node.specs.Lawful.{CountsWithin, IsBeside, IsLawfulCore, IsLineOf, IsRoundOf};
ghost use Rattle.cc_node.specs.Lawful.{IsPendingIn, IsPhaseOf, SessionsWithin};
ghost use Rattle.cc_node.specs.Parts.{core_of, is_link_within, is_request_within, is_last_of};

use cc_changes::{Changes, Fraction};
use cc_churn::Churn;
use cc_links::{LinkRow, Links};
use cc_ops::{Asked, Ops, Pending, Stage, is_writing};
use cc_sessions::{SessionRow, Sessions};
use cc_views::{COUNTER_LIMIT, NodeId, Row, View};

/// What a core is put together from: the state of a node, up to what it keeps to put out again. Not all
/// parts make a lawful core.
#[derive(Drop)]
pub struct CoreParts {
    /// Its own name.
    pub me: NodeId,
    /// The share of the members whose answers an operation waits for.
    pub beta: Fraction,
    /// The share of those present whose echoes an entering node waits for.
    pub gamma: Fraction,
    /// Who entered, joined and left.
    pub churn: Churn,
    /// The view, the own value, the pending operation and the asks that wait.
    pub ops: Ops,
    /// How many posts were ever made.
    pub posts: u64,
    /// The links to all known nodes, the own one among them.
    pub links: Links,
    /// The last request of each session.
    pub sessions: Sessions,
}

impl CoreParts {
    // Whether they make a lawful core; needs no memory.
    pub(crate) fn are_lawful(&self) -> bool
        ensures { IsTrue result ↔ IsLawfulCore (core_of self.now) }
    {
        if !self.beta.is_share() {
            return false;
        }
        if !self.gamma.is_share() {
            return false;
        }
        if !is_known(&self.links, self.me) {
            return false;
        }
        if !knows_changes(&self.links, self.churn.changes()) {
            return false;
        }
        if !knows_view(&self.links, self.ops.view()) {
            return false;
        }
        if !have_entered(self.churn.changes()) {
            return false;
        }
        if !links_fit(&self.links, self.posts) {
            return false;
        }
        if !sessions_fit(&self.sessions) {
            return false;
        }
        if !phase_fits(&self.links, &self.sessions, &self.ops) {
            return false;
        }
        if !line_fits(&self.sessions, &self.ops) {
            return false;
        }
        if !self.counts_fit() {
            return false;
        }
        self.need_fits()
    }

    // Whether no more echoes are needed than nodes are known at most.
    fn need_fits(&self) -> bool
        ensures { IsTrue result ↔ (self.now.churn.need ≤ known_limit) }
    {
        self.churn.need() <= Links::MAX_ROWS as u64
    }

    // Whether no counter is past its limit.
    fn counts_fit(&self) -> bool
        ensures { IsTrue result ↔ CountsWithin (core_of self.now) }
    {
        let counters = [
            self.posts,
            self.ops.number(),
            self.ops.tag(),
            self.churn.echoes(),
        ];
        counters.iter().all(|counter| *counter <= COUNTER_LIMIT)
    }
}

fn is_known(links: &Links, id: NodeId) -> bool
    ensures { result ≡ table.contains_key links.now id }
{
    links.get(id).is_some()
}

// Whether each node of the changes is known.
fn knows_changes(links: &Links, changes: &Changes) -> bool
    ensures { IsTrue result ↔ IsAmong changes.now links.now }
{
    if !knows_all(links, changes.entered()) {
        return false;
    }
    if !knows_all(links, changes.joined()) {
        return false;
    }
    knows_all(links, changes.left())
}

fn knows_all(links: &Links, ids: &[NodeId]) -> bool
    ensures { result ≡ list_all (λ q. table.contains_key links.now q) ids.now }
{
    ids.iter().all(|id| is_known(links, *id))
}

// Whether each node of the view is known.
fn knows_view(links: &Links, view: &View) -> bool
    ensures { IsTrue result ↔ IsWithin view.now links.now }
{
    knows_rows(links, view.rows())
}

fn knows_rows(links: &Links, rows: &[Row]) -> bool
    ensures { result ≡ list_all (λ row. table.contains_key links.now row.node) rows.now }
{
    rows.iter().all(|row| is_known(links, row.node))
}

// Whether who joined has also entered.
fn have_entered(changes: &Changes) -> bool
    ensures { IsTrue result ↔ IsWithin changes.now.joined changes.now.entered }
{
    all_entered(changes.joined(), changes)
}

fn all_entered(ids: &[NodeId], changes: &Changes) -> bool
    ensures { result ≡ list_all (λ q. set.contains changes.now.entered q) ids.now }
{
    ids.iter().all(|id| changes.has_entered(*id))
}

// Whether no link goes beyond the posts that were made, or the limit of counters. There are never too many links.
fn links_fit(links: &Links, posts: u64) -> bool
    ensures fit { IsTrue result ↔ LinksWithin posts links.now }
    ensures few { table.len links.now ≤ known_limit }
{
    rows_fit(links.rows(), posts)
}

fn rows_fit(rows: &[LinkRow], posts: u64) -> bool
    ensures { result ≡ list_all (λ row. is_link_within posts (link_of row)) rows.now }
{
    rows.iter().all(|row| row_fits(row, posts))
}

fn row_fits(row: &LinkRow, posts: u64) -> bool
    ensures { result ≡ is_link_within posts (link_of row.now) }
{
    row.start <= posts && row.acked <= posts - row.start && row.heard <= COUNTER_LIMIT
}

// Whether each session's last request is one that it can have. There are never too many sessions.
fn sessions_fit(sessions: &Sessions) -> bool
    ensures fit { IsTrue result ↔ SessionsWithin sessions.now }
    ensures few { table.len sessions.now ≤ session_limit }
{
    requests_fit(sessions.rows())
}

fn requests_fit(rows: &[SessionRow]) -> bool
    ensures { result ≡ list_all (λ row. is_request_within row.last) rows.now }
{
    rows.iter()
        .all(|row| 0 < row.last && row.last <= COUNTER_LIMIT)
}

// Whether the pending operation is of its session's last request, and in a round that its command has.
fn phase_fits(links: &Links, sessions: &Sessions, ops: &Ops) -> bool
    ensures { IsTrue result ↔ IsPhaseOf links.now sessions.now ops.now.phase }
{
    let stage = ops.stage();
    match stage {
        Stage::Idle => true,
        Stage::Storing(pending) => {
            is_last_request(sessions, &pending) && is_writing(&pending.asked.command)
        }
        Stage::Querying(pending) => is_last_read(sessions, &pending),
        Stage::StoringBack(pending) => {
            is_last_read(sessions, &pending) && knows_seen(links, ops)
        }
    }
}

// Whether the operation is a read, and of its session's last request.
fn is_last_read(sessions: &Sessions, pending: &Pending) -> bool
    requires { IsWaiting pending.now }
    ensures { IsTrue result ↔ (IsPendingIn sessions.now pending.now
        × IsFalse (commands.is_writing pending.now.asked.command)) }
{
    is_last_request(sessions, pending) && !is_writing(&pending.asked.command)
}

// Whether the operation is of its session's last request.
fn is_last_request(sessions: &Sessions, pending: &Pending) -> bool
    requires { IsWaiting pending.now }
    ensures { IsTrue result ↔ IsPendingIn sessions.now pending.now }
{
    is_last(sessions, &pending.asked)
}

// Whether no two asks that aren't answered are of one session, and each that waits is its session's last request. The
// others don't wait, or wait where they may.
fn line_fits(sessions: &Sessions, ops: &Ops) -> bool
    ensures fits { IsTrue result ↔ IsLineOf sessions.now ops.now }
    ensures room { HasRoom ops.now.line ops.now.mine }
{
    let asks = ops.line().asks();
    if !ops.are_apart() {
        return false;
    }
    if !are_last_requests(sessions, asks) {
        return false;
    }
    round_fits(sessions, ops)
}

// Whether the others of the pending round are of the kind of its first ask, and each its session's last request. There
// are fewer than the share, which is never too great.
fn round_fits(sessions: &Sessions, ops: &Ops) -> bool
    ensures { IsTrue result ↔ IsRoundOf sessions.now ops.now.share ops.now.phase ops.now.others }
{
    let _ = ops.share();
    if !are_beside(ops, ops.others().asks()) {
        return false;
    }
    are_last_requests(sessions, ops.others().asks())
}

// Whether all are of the kind of the pending round, and there are none where none is pending.
fn are_beside(ops: &Ops, others: &[Asked]) -> bool
    ensures { IsTrue result ↔ IsBeside ops.now.phase others.now }
{
    let stage = ops.stage();
    match stage {
        Stage::Idle => others.is_empty(),
        Stage::Storing(_) => all_write(others),
        Stage::Querying(_) => all_read(others),
        Stage::StoringBack(_) => all_read(others),
    }
}

fn all_write(asks: &[Asked]) -> bool
    ensures { result ≡ list_all (λ a. commands.is_writing a.command) asks.now }
{
    asks.iter().all(|asked| is_writing(&asked.command))
}

fn all_read(asks: &[Asked]) -> bool
    ensures { result ≡ list_all (λ a. not (commands.is_writing a.command)) asks.now }
{
    asks.iter().all(|asked| !is_writing(&asked.command))
}

fn are_last_requests(sessions: &Sessions, asks: &[Asked]) -> bool
    ensures { result ≡ list_all (is_last_of sessions.now) asks.now }
{
    asks.iter().all(|asked| is_last(sessions, asked))
}

// Whether the ask is its session's last request.
fn is_last(sessions: &Sessions, asked: &Asked) -> bool
    ensures { result ≡ is_last_of sessions.now asked.now }
{
    match sessions.finish(asked.session) {
        Some(last) => last == asked.request,
        None => false,
    }
}

// Whether each node of the view that is stored back is known.
fn knows_seen(links: &Links, ops: &Ops) -> bool
    ensures { (seen : ViewMap) → seen_in ops.now.phase ≡ Some seen → IsTrue result ↔ IsWithin seen links.now }
{
    match ops.seen() {
        Some(seen) => knows_view(links, seen),
        None => true,
    }
}
