//! Ids in ascending order, in a room of a fixed size.
ghost use Rattle.std.specs.Prelude.{◌≡◌, ◌≤◌, ◌↔◌, IsTrue, IsFalse};
ghost use Rattle.std.specs.List.{Contains};
ghost use Rattle.cc_views.specs.Limits.{known_limit};
ghost use Rattle.cc_views.specs.NatSets as set;
ghost use Rattle.cc_views.specs.NatSets.{marked};
ghost use Rattle.cc_views.specs.Tables.{IsRising, IsPlaceOf};
ghost use Rattle.cc_links.specs.KnownIds.{FillsUp};
ghost use Rattle.cc_links.specs.Rows.{nodes_of, peers_of};

use crate::link_row::LinkRow;
use arrayvec::ArrayVec;
use cc_views::{NodeId, Row};
use std::marker::Model;

/// Up to 256 ids, in the value itself. It tells without memory whether the peers of a node and the ids that a message
/// names are too many together.
#[derive(Drop)]
pub struct KnownIds {
    numbers: ArrayVec<u32, 256>,
}

impl Model for KnownIds {
    ghost use Rattle.cc_views.specs.NatSets.{NatSet, set_code, marked};
    ghost use Rattle.cc_views.specs.Tables.{table_of};
    ghost use Rattle.cc_links.specs.KnownIds.{AreKnown};

    ghost Value = { NatSet };

    ghost coded = { set_code };

    ghost view = { λ k. table_of marked k.numbers.items };

    ghost invariant = { λ k. AreKnown k.numbers.items };
}

impl KnownIds {
    /// No ids.
    pub fn new() -> Self
        ensures { result ≡ set.empty }
    {
        KnownIds {
            numbers: ArrayVec::new(),
        }
    }

    /// How many ids there are.
    pub fn len(&self) -> usize
        ensures len { result ≡ set.len self.now }
        ensures fits { result ≤ known_limit }
    {
        self.numbers.len()
    }

    /// Adds an id. False, and nothing is changed, where it is one too many.
    pub fn add(&mut self, id: NodeId) -> bool
        ensures fits { IsTrue result ↔ (set.len (set.insert self.old id) ≤ known_limit) }
        ensures added { IsTrue result → self.new ≡ set.insert self.old id }
        ensures unchanged { IsFalse result → self.new ≡ self.old }
        ensures within { set.len self.new ≤ known_limit }
    {
        let number = id.number();
        match place_of(&self.numbers, number) {
            Ok(_) => true,
            Err(_) if self.numbers.is_full() => false,
            Err(at) => {
                self.numbers.insert(at, number);
                true
            }
        }
    }

    /// Adds some ids. False where they are too many: then those are added that come before the first one too many.
    pub fn add_all(&mut self, ids: &[NodeId]) -> bool
        ensures fits { IsTrue result ↔ (set.len (set.insert_all self.old ids.now) ≤ known_limit) }
        ensures added { IsTrue result → self.new ≡ set.insert_all self.old ids.now }
        ensures full { IsFalse result → FillsUp self.old ids.now self.new }
    {
        // The proof of the loop then knows the room.
        let _ = &self.numbers;
        for id in ids {
            if !self.add(*id) {
                return false;
            }
        }
        true
    }

    /// Adds the ids with these numbers, each from 1 on. False where they are too many, as for `add_all`.
    pub fn add_numbers(&mut self, numbers: &[u32]) -> bool
        requires { ¬ (Contains numbers.now 0) }
        ensures fits { IsTrue result ↔ (set.len (set.insert_all self.old numbers.now) ≤ known_limit) }
        ensures added { IsTrue result → self.new ≡ set.insert_all self.old numbers.now }
        ensures full { IsFalse result → FillsUp self.old numbers.now self.new }
    {
        // The proof of the loop then knows the room.
        let _ = &self.numbers;
        for number in numbers {
            if !self.add(NodeId::new(*number).unwrap()) {
                return false;
            }
        }
        true
    }

    /// Adds the nodes of a view's rows. False where they are too many, as for `add_all`.
    pub fn add_nodes(&mut self, rows: &[Row]) -> bool
        ensures fits { IsTrue result ↔ (set.len (set.insert_all self.old (nodes_of rows.now)) ≤ known_limit) }
        ensures added { IsTrue result → self.new ≡ set.insert_all self.old (nodes_of rows.now) }
        ensures full { IsFalse result → FillsUp self.old (nodes_of rows.now) self.new }
    {
        // The proof of the loop then knows the room.
        let _ = &self.numbers;
        for row in rows {
            if !self.add(row.node) {
                return false;
            }
        }
        true
    }

    /// Adds the peers of links. False where they are too many, as for `add_all`.
    pub fn add_peers(&mut self, rows: &[LinkRow]) -> bool
        ensures fits { IsTrue result ↔ (set.len (set.insert_all self.old (peers_of rows.now)) ≤ known_limit) }
        ensures added { IsTrue result → self.new ≡ set.insert_all self.old (peers_of rows.now) }
        ensures full { IsFalse result → FillsUp self.old (peers_of rows.now) self.new }
    {
        // The proof of the loop then knows the room.
        let _ = &self.numbers;
        for row in rows {
            if !self.add(row.peer) {
                return false;
            }
        }
        true
    }
}

// Where the number is, or where it would go.
fn place_of(numbers: &[u32], number: u32) -> Result<usize, usize>
    requires { IsRising marked numbers.now }
    ensures { IsPlaceOf marked numbers.now number result }
{
    numbers.binary_search(&number)
}
