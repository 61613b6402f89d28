//! Which connection speaks for a node.

ghost use Rattle.std.specs.Prelude.{◌≡◌, [], IfOk};
ghost use Rattle.std.specs.Vec.{vec_capacity};
ghost use Rattle.cc_policies.specs.Speakers.{is_replaced, has_speaker, older_of, spoken_over, spoken, others, speaking_after, silenced};

use cc_views::{NoMemory, NodeId};
use std::alloc::Global;
use std::marker::Model;

/// A connection, and the node that it speaks for.
#[derive(Clone, Copy, PartialEq, Eq)]
pub struct Speaker {
    pub node: NodeId,
    pub ticket: u64,
}

/// What a frame of a node makes of the connection that it came over.
#[derive(Clone, Copy, PartialEq, Eq)]
pub enum Spoken {
    /// It speaks for the node.
    Alone,
    /// It speaks for the node instead of the connection with that ticket, which is to end.
    Instead(u64),
    /// A newer connection speaks for the node: this one is to end.
    Replaced,
}

/// For each node the newest connection that brought a frame of it: a node has one connection to another, and one that it made
/// before leads nowhere. Once made it takes no memory.
#[derive(Drop)]
pub struct Speakers {
    rows: Vec<Speaker>,
}

impl Model for Speakers {
    ghost use Rattle.std.specs.Vec.{vec_capacity};
    ghost use Rattle.cc_policies.specs.Speakers.{Speaking, IsSpeaking};

    ghost Value = { Speaking };

    ghost view = { λ s. s.rows.items };

    ghost invariant = { λ s. IsSpeaking s.rows.items (vec_capacity s.rows) };
}

impl Speakers {
    /// How many connections speak for a node at most.
    pub const MAX_SPEAKERS: usize = 1032;

    /// No connection. NoMemory where a growth was refused.
    pub fn new(alloc: Global) -> Result<Self, NoMemory>
        ensures { IfOk result (λ s. s ≡ []) }
    {
        Ok(Speakers {
            rows: Vec::with_capacity(alloc, Self::MAX_SPEAKERS)?,
        })
    }

    /// A frame of a node came over the connection with that ticket.
    pub fn speak(&mut self, node: NodeId, ticket: u64) -> Spoken
        ensures spoken { result ≡ spoken node ticket self.old }
        ensures speaking { self.new ≡ speaking_after node ticket self.old }
    {
        if is_replaced(&self.rows, node, ticket) {
            return Spoken::Replaced;
        }
        let spoken = spoken_over(older_of(&self.rows, node, ticket));
        keep_others(&mut self.rows, node, ticket);
        if self.rows.len() < Self::MAX_SPEAKERS {
            self.rows.push(Speaker { node, ticket }).unwrap();
        }
        spoken
    }

    /// Whether an open connection brings what a node sends.
    pub fn has_speaker(&self, node: NodeId) -> bool
        ensures { result ≡ has_speaker node self.now }
    {
        has_speaker(&self.rows, node)
    }

    /// A connection is closed.
    pub fn leave(&mut self, ticket: u64)
        ensures { self.new ≡ silenced ticket self.old }
    {
        remove_ticket(&mut self.rows, ticket);
    }
}

fn is_replaced(rows: &[Speaker], node: NodeId, ticket: u64) -> bool
    ensures { result ≡ is_replaced node ticket rows.now }
{
    rows.iter()
        .any(|row| row.node == node && row.ticket > ticket)
}

fn has_speaker(rows: &[Speaker], node: NodeId) -> bool
    ensures { result ≡ has_speaker node rows.now }
{
    rows.iter().any(|row| row.node == node)
}

fn older_of(rows: &[Speaker], node: NodeId, ticket: u64) -> Option<u64>
    ensures { result ≡ older_of node ticket rows.now }
{
    let row = rows
        .iter()
        .find(|row| row.node == node && row.ticket < ticket)?;
    Some(row.ticket)
}

fn spoken_over(older: Option<u64>) -> Spoken
    ensures { result ≡ spoken_over older }
{
    match older {
        Some(ticket) => Spoken::Instead(ticket),
        None => Spoken::Alone,
    }
}

fn keep_others(rows: &mut Vec<Speaker>, node: NodeId, ticket: u64)
    ensures items { rows.new.items ≡ others node ticket rows.old.items }
    ensures capacity { vec_capacity rows.new ≡ vec_capacity rows.old }
{
    rows.retain(|row| !(row.node == node || row.ticket == ticket));
}

fn remove_ticket(rows: &mut Vec<Speaker>, ticket: u64)
    ensures items { rows.new.items ≡ silenced ticket rows.old.items }
    ensures capacity { vec_capacity rows.new ≡ vec_capacity rows.old }
{
    rows.retain(|row| row.ticket != ticket);
}
