//! The fields of a state, as they are read.

use cc_changes::{Changes, Fraction};
use cc_links::LinkRow;
use cc_messages::Message;
use cc_ops::{AskList, Stage};
use cc_outbox::KeptAnswer;
use cc_sessions::SessionRow;
use cc_views::{NodeId, Value, View};

/// Who the node is, its shares of members and of those present, and who came and left.
#[derive(Drop)]
pub struct Membership {
    pub me: NodeId,
    pub beta: Fraction,
    pub gamma: Fraction,
    pub changes: Changes,
}

/// The own value under its number, and the tag.
#[derive(Drop)]
pub struct Own {
    pub number: u64,
    pub mine: Value,
    pub tag: u64,
}

/// How far the own entering has come.
#[derive(Drop)]
pub struct Entering {
    pub echoes: u64,
    pub need: u16,
}

/// How far the pending round has come, what it stores back (where it stores nothing back, a view without rows), how many
/// asks it has at most, those beside its first one, and the asks that wait behind it.
#[derive(Drop)]
pub struct Round {
    pub stage: Stage,
    pub seen: View,
    pub share: usize,
    pub others: AskList,
    pub line: AskList,
}

/// What the node has stored and heard of, how far its entering has come, and its pending round.
#[derive(Drop)]
pub struct Work {
    pub view: View,
    pub number: u64,
    pub mine: Value,
    pub tag: u64,
    pub echoes: u64,
    pub need: u16,
    pub round: Round,
}

/// How many posts were ever made, the links, the sessions, and what is kept: posts, the lowest number first, and answers.
#[derive(Drop)]
pub struct Tables {
    pub posts: u64,
    pub links: Vec<LinkRow>,
    pub sessions: Vec<SessionRow>,
    pub kept: Vec<Message>,
    pub answers: Vec<KeptAnswer>,
}

/// All fields of a state, in their order.
#[derive(Drop)]
pub struct Fields {
    pub membership: Membership,
    pub work: Work,
    pub tables: Tables,
}
