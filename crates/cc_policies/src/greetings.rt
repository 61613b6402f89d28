//! Which nodes are taken when they greet, and what is remembered of their greetings.

ghost use Rattle.std.specs.Prelude.{◌≡◌, [], IfOk, bytes_eq, option_map};
ghost use Rattle.std.specs.Vec.{vec_capacity};
ghost use Rattle.cc_policies.specs.Greetings.{is_same_share, counts_alike, is_other_birth, why_unwelcome, found, birth_of, is_run, is_doubled};
ghost use Rattle.cc_policies.specs.Greetings.{row_first, row_next, row_after, other_run_after, others, with_row, welcomed, greeted, after_greeting, answer_to, is_old_copy};
ghost use Rattle.cc_policies.specs.Greetings.{greeter_after, hello_of, unless_old, met, AreRemembered, AreAllRemembered};

use cc_connections::{ClusterName, Frame, Hello, Quorum, Reason};
use cc_views::{NoMemory, NodeId};
use std::alloc::Global;
use std::marker::Model;

/// What a node that is greeted compares a greeting with.
#[derive(Clone, Copy)]
pub struct Recipient {
    /// The name of its cluster.
    pub cluster: ClusterName,
    /// Its own id.
    pub node: NodeId,
    /// The shares that it counts by.
    pub beta: Quorum,
    pub gamma: Quorum,
}

/// What a node greets others with.
#[derive(Clone, Copy)]
pub struct Greeter {
    pub me: Recipient,
    /// What its folder got when it was formatted, and what it took when it was started (`Hello`).
    pub birth: u64,
    pub run: u64,
}

/// What came of a greeting, as the node learns it that greeted.
#[derive(Clone, Copy, PartialEq, Eq)]
pub enum Met {
    /// It is taken.
    Welcome,
    /// It is taken. Another process greets that peer under the same id, in turn with it.
    Doubled,
    /// It is taken, and the peer has taken in its posts up to this number, which it never gave.
    OldCopy { heard: u64 },
    /// The node with this id, which was found there, doesn't take it.
    Unwelcome { reason: Reason, node: NodeId },
    /// What came is no answer to a greeting.
    NoAnswer,
}

/// What the greetings of a node told that were welcomed.
#[derive(Clone, Copy)]
pub struct PeerGreeting {
    pub node: NodeId,
    /// What it told as its birth first.
    pub birth: u64,
    /// Its last run.
    pub run: u64,
    /// The last of its runs that isn't that one.
    pub other_run: Option<u64>,
}

/// What is made of a greeting.
#[derive(Clone, Copy, PartialEq, Eq)]
pub enum Greeted {
    /// The node is taken.
    Welcome,
    /// The node is taken, and two runs of its id greet in turn: this one was heard before, and another one since.
    Doubled,
    /// The node isn't taken.
    Unwelcome(Reason),
}

/// Of each node that was welcomed since this one was started what its greetings told. Once made it takes no memory.
#[derive(Drop)]
pub struct Greetings {
    rows: Vec<PeerGreeting>,
}

impl Model for Greetings {
    ghost use Rattle.std.specs.Vec.{vec_capacity};
    ghost use Rattle.cc_policies.specs.Greetings.{Greetings as Rows, IsGreetings};

    ghost Value = { Rows };

    ghost view = { λ g. g.rows.items };

    ghost invariant = { λ g. IsGreetings g.rows.items (vec_capacity g.rows) };
}

impl Greetings {
    /// How many nodes are remembered at most: as many as a node knows. One more is welcomed, and not remembered.
    pub const MAX_PEERS: usize = 256;

    /// None was welcomed yet. NoMemory where a growth was refused.
    pub fn new(alloc: Global) -> Result<Self, NoMemory>
        ensures { IfOk result (λ g. g ≡ []) }
    {
        Ok(Greetings {
            rows: Vec::with_capacity(alloc, Self::MAX_PEERS)?,
        })
    }

    /// A node greets, of which is known whether it has left. One that isn't taken leaves what is remembered as it is.
    pub fn greet(&mut self, me: &Recipient, hello: &Hello, has_left: bool) -> Greeted
        ensures greeted { result ≡ greeted me.now hello.now has_left self.old }
        ensures table { self.new ≡ after_greeting me.now hello.now has_left self.old }
    {
        let birth = birth_of(&self.rows, hello.from);
        if let Some(reason) = why_unwelcome(me, hello, birth, has_left) {
            return Greeted::Unwelcome(reason);
        }
        let is_doubled = is_doubled(&self.rows, hello.from, hello.run);
        let row = row_after(&self.rows, hello);
        self.put(row);
        welcomed(is_doubled)
    }

    /// What a node told as its birth when it was welcomed first. None where it isn't remembered.
    pub fn birth(&self, node: NodeId) -> Option<u64>
        ensures { result ≡ birth_of node self.now }
    {
        birth_of(&self.rows, node)
    }

    // Puts a row in place of the one that its node had.
    fn put(&mut self, row: PeerGreeting)
        ensures { self.new ≡ with_row row self.old }
    {
        keep_others(&mut self.rows, row.node);
        if self.rows.len() < Self::MAX_PEERS {
            self.rows.push(row).unwrap();
        }
    }
}

/// Why the node `me` doesn't take another that greets, if there is a reason: the first one that holds. `birth` is what a node of
/// that id told when it was welcomed first.
pub fn why_unwelcome(
    me: &Recipient,
    hello: &Hello,
    birth: Option<u64>,
    has_left: bool,
) -> Option<Reason>
    ensures { result ≡ why_unwelcome me.now hello.now birth has_left }
{
    if !is_same_name(&hello.cluster, &me.cluster) {
        return Some(Reason::OtherCluster);
    }
    if hello.to != me.node {
        return Some(Reason::OtherNode);
    }
    if hello.from == me.node {
        return Some(Reason::OwnId);
    }
    if is_other_birth(birth, hello.birth) {
        return Some(Reason::OtherBirth);
    }
    if !counts_alike(me, hello) {
        return Some(Reason::OtherQuorums);
    }
    if has_left {
        return Some(Reason::HasLeft);
    }
    None
}

/// The frame that answers a greeting: that of the node `me`, which has taken in what the other posted up to `heard`.
pub fn answer_to(me: NodeId, heard: u64, greeted: Greeted) -> Frame
    ensures { result ≡ answer_to me heard greeted }
{
    match greeted {
        Greeted::Welcome => Frame::Welcome { heard },
        Greeted::Doubled => Frame::Doubled { heard },
        Greeted::Unwelcome(reason) => Frame::Unwelcome { reason, node: me },
    }
}

/// The node for which a connection may speak once a greeting over it was judged. None where it isn't taken.
pub fn greeter_after(greeted: Greeted, hello: &Hello) -> Option<NodeId>
    ensures { result ≡ greeter_after greeted hello.now }
{
    match greeted {
        Greeted::Welcome | Greeted::Doubled => Some(hello.from),
        Greeted::Unwelcome(_) => None,
    }
}

impl Greeter {
    /// What it greets a peer with, whose posts it has taken in up to `heard`.
    pub fn hello_to(&self, peer: NodeId, heard: u64) -> Hello
        ensures { result ≡ hello_of self.now peer heard }
    {
        Hello {
            cluster: self.me.cluster,
            from: self.me.node,
            to: peer,
            beta: self.me.beta,
            gamma: self.me.gamma,
            birth: self.birth,
            run: self.run,
            heard,
        }
    }
}

/// What the frame that answers a greeting tells a node, which has posted up to `posted` to the peer that it greeted.
pub fn met_by(answer: &Frame, posted: u64) -> Met
    ensures { result ≡ met posted answer.now }
{
    match answer {
        Frame::Welcome { heard } => unless_old(Met::Welcome, *heard, posted),
        Frame::Doubled { heard } => unless_old(Met::Doubled, *heard, posted),
        Frame::Unwelcome { reason, node } => Met::Unwelcome {
            reason: *reason,
            node: *node,
        },
        _ => Met::NoAnswer,
    }
}

// What came of a greeting that is welcomed, unless the node's folder is an old copy.
fn unless_old(met: Met, heard: u64, posted: u64) -> Met
    ensures { result ≡ unless_old met heard posted }
{
    if is_old_copy(heard, posted) {
        Met::OldCopy { heard }
    } else {
        met
    }
}

/// Whether a node's folder is behind what was told of it: a peer has taken in its posts up to `heard`, and `posted` is the last
/// number that it ever gave on its link to that peer.
pub fn is_old_copy(heard: u64, posted: u64) -> bool
    ensures { result ≡ is_old_copy heard posted }
{
    posted < heard
}

fn is_same_name(a: &ClusterName, b: &ClusterName) -> bool
    ensures { result ≡ bytes_eq a.now b.now }
{
    a.as_bytes() == b.as_bytes()
}

fn is_same_share(a: Quorum, b: Quorum) -> bool
    ensures { result ≡ is_same_share a b }
{
    let a = a.share();
    let b = b.share();
    a.num == b.num && a.den == b.den
}

fn counts_alike(me: &Recipient, hello: &Hello) -> bool
    ensures { result ≡ counts_alike me.now hello.now }
{
    is_same_share(hello.beta, me.beta) && is_same_share(hello.gamma, me.gamma)
}

fn is_other_birth(birth: Option<u64>, told: u64) -> bool
    ensures { result ≡ is_other_birth birth told }
{
    match birth {
        Some(first) => first != told,
        None => false,
    }
}

fn birth_of(rows: &[PeerGreeting], node: NodeId) -> Option<u64>
    ensures { result ≡ birth_of node rows.now }
{
    let row = rows.iter().find(|row| row.node == node)?;
    Some(row.birth)
}

fn is_run(run: u64, other: Option<u64>) -> bool
    ensures { result ≡ is_run run other }
{
    match other {
        Some(other) => other == run,
        None => false,
    }
}

fn is_doubled(rows: &[PeerGreeting], node: NodeId, run: u64) -> bool
    ensures { result ≡ is_doubled node run rows.now }
{
    rows.iter()
        .any(|row| row.node == node && is_run(run, row.other_run))
}

fn other_run_after(run: u64, row: &PeerGreeting) -> Option<u64>
    ensures { result ≡ other_run_after run row.now }
{
    if row.run == run {
        row.other_run
    } else {
        Some(row.run)
    }
}

// The row of a node once its greeting was welcomed.
fn row_after(rows: &[PeerGreeting], hello: &Hello) -> PeerGreeting
    ensures { result ≡ row_after hello.now (found hello.now.from rows.now) }
{
    next_row(rows, hello).unwrap_or(first_row(hello))
}

// The row of a node that has none.
fn first_row(hello: &Hello) -> PeerGreeting
    ensures { result ≡ row_first hello.now }
{
    PeerGreeting {
        node: hello.from,
        birth: hello.birth,
        run: hello.run,
        other_run: None,
    }
}

// The row of a node that has one.
fn next_row(rows: &[PeerGreeting], hello: &Hello) -> Option<PeerGreeting>
    ensures { result ≡ option_map (row_next hello.now) (found hello.now.from rows.now) }
{
    let row = rows.iter().find(|row| row.node == hello.from)?;
    Some(PeerGreeting {
        node: hello.from,
        birth: row.birth,
        run: hello.run,
        other_run: other_run_after(hello.run, row),
    })
}

fn keep_others(rows: &mut Vec<PeerGreeting>, node: NodeId)
    ensures items { rows.new.items ≡ others node rows.old.items }
    ensures capacity { vec_capacity rows.new ≡ vec_capacity rows.old }
{
    rows.retain(|row| !(row.node == node));
}

fn welcomed(is_doubled: bool) -> Greeted
    ensures { result ≡ welcomed is_doubled }
{
    if is_doubled {
        Greeted::Doubled
    } else {
        Greeted::Welcome
    }
}

/// Whatever greetings are welcomed, in whatever order: a row has the birth that its node told first, its last run, and the last of
/// its runs before that was another one. While fewer than 256 nodes have one, each node that was welcomed has one.
pub fn greetings_are_remembered()
    ensures rows { AreRemembered }
    ensures all { AreAllRemembered }
{}
