//! Sets of ids, as ascending lists.

ghost use Rattle.std.specs.Prelude.{◌≡◌, ◌≤◌, ◌<◌, ◌+◌, [], ◌∷◌, ◌++◌, Bool, not, ◌||◌, length, IfOk, take};
ghost use Rattle.std.specs.List.{AllByRecursion, filter};
ghost use Rattle.std.specs.Vec.{vec_capacity};
ghost use Rattle.cc_views.specs.AscendingLists.{IsAscending};
ghost use Rattle.cc_views.specs.Limits.{known_limit};
ghost use Rattle.cc_views.specs.NatSets as set;
ghost use Rattle.cc_views.specs.NatSets.{marked, items};
ghost use Rattle.cc_views.specs.Tables.{IsRising, IsTable, IsPlaceOf, table_of};

use cc_views::{NoMemory, NodeId};
use std::alloc::Global;
use std::marker::Model;

/// A set of ids, in room for 256 of them.
#[derive(Drop)]
pub struct IdSet {
    ids: Vec<NodeId>,
}

impl Model for IdSet {
    ghost use Rattle.std.specs.Vec.{vec_capacity};
    ghost use Rattle.cc_views.specs.Limits.{known_limit};
    ghost use Rattle.cc_views.specs.NatSets.{NatSet, set_code, marked};
    ghost use Rattle.cc_views.specs.Tables.{IsTable, table_of};

    ghost Value = { NatSet };

    ghost coded = { set_code };

    ghost view = { λ s. table_of marked s.ids.items };

    ghost invariant = { λ s. IsTable marked known_limit s.ids.items (vec_capacity s.ids) };
}

impl IdSet {
    /// How many ids a set has at most.
    pub const MAX_LEN: usize = 256;

    /// A set of no ids.
    pub fn new(alloc: Global) -> Result<Self, NoMemory>
        ensures empty { IfOk result (λ s. s ≡ set.empty) }
        ensures items { IfOk result (λ s. items s ≡ []) }
        ensures len { IfOk result (λ s. set.len s ≡ 0) }
    {
        let ids = Vec::with_capacity(alloc, Self::MAX_LEN)?;
        Ok(IdSet { ids })
    }

    /// The same set, in room of its own.
    pub fn copy(&self, alloc: Global) -> Result<Self, NoMemory>
        ensures { IfOk result (λ s. s ≡ self.now) }
    {
        let mut copy = IdSet::new(alloc)?;
        copy.copy_from(self);
        Ok(copy)
    }

    /// Takes over the other set's ids in place of its own.
    pub fn copy_from(&mut self, other: &IdSet)
        ensures { self.new ≡ other.now }
    {
        self.ids.clear();
        self.ids.extend_from_slice(&other.ids).unwrap();
    }

    /// The ids, in ascending order.
    pub fn as_slice(&self) -> &[NodeId]
        ensures ids { result.now ≡ items self.now }
        ensures ascending { IsAscending result.now }
        ensures fits { length result.now ≤ known_limit }
    {
        &self.ids
    }

    pub fn contains(&self, id: NodeId) -> bool
        ensures { result ≡ set.contains self.now id }
    {
        place_of(&self.ids, id).is_ok()
    }

    /// Adds an id above those that are there.
    pub fn push(&mut self, id: NodeId)
        requires room { set.len self.old < known_limit }
        requires above { AllByRecursion (λ k. k < id) (items self.old) }
        ensures set { self.new ≡ set.insert self.old id }
        ensures items { items self.new ≡ items self.old ++ id ∷ [] }
    {
        self.ids.push(id).unwrap();
    }

    /// Adds an id, which changes nothing where it is there.
    pub fn insert(&mut self, id: NodeId)
        requires { set.len (set.insert self.old id) ≤ known_limit }
        ensures { self.new ≡ set.insert self.old id }
    {
        insert_all(&mut self.ids, &[id]);
    }

    /// Adds all ids of the other set.
    pub fn add_all(&mut self, other: &IdSet)
        requires { set.len (set.union self.old other.now) ≤ known_limit }
        ensures { self.new ≡ set.union self.old other.now }
    {
        insert_all(&mut self.ids, &other.ids);
    }

    /// How many of the ids are not in the other set.
    pub fn count_without(&self, other: &IdSet) -> usize
        ensures count { result ≡ set.len (set.difference self.now other.now) }
        ensures fits { result ≤ known_limit }
    {
        count_outside(&self.ids, other)
    }

    /// How many of the ids are in neither of the other sets.
    pub fn count_without_both(&self, one: &IdSet, other: &IdSet) -> usize
        ensures count { result ≡ set.len (set.difference self.now (set.union one.now other.now)) }
        ensures fits { result ≤ known_limit }
    {
        count_outside_both(&self.ids, one, other)
    }
}

fn count_outside(ids: &[NodeId], other: &IdSet) -> usize
    ensures { result ≡ length (filter (λ q. not (set.contains other.now q)) ids.now) }
{
    ids.iter().filter(|id| !other.contains(**id)).count()
}

fn count_outside_both(ids: &[NodeId], one: &IdSet, other: &IdSet) -> usize
    ensures { result ≡ length (filter (λ q. not (set.contains one.now q || set.contains other.now q)) ids.now) }
{
    ids.iter()
        .filter(|id| !(one.contains(**id) || other.contains(**id)))
        .count()
}

// Where the id is, or where it would go.
fn place_of(ids: &[NodeId], id: NodeId) -> Result<usize, usize>
    requires { IsRising marked ids.now }
    ensures { IsPlaceOf marked ids.now id result }
{
    ids.binary_search_by_key(&id.number(), |other| other.number())
}

fn insert_one(ids: &mut Vec<NodeId>, id: NodeId)
    requires table { IsTable marked known_limit ids.old.items (vec_capacity ids.old) }
    requires fits { set.len (set.insert (table_of marked ids.old.items) id) ≤ known_limit }
    ensures table { IsTable marked known_limit ids.new.items (vec_capacity ids.new) }
    ensures ids { table_of marked ids.new.items ≡ set.insert (table_of marked ids.old.items) id }
{
    if let Err(at) = place_of(ids, id) {
        ids.insert(at, id).unwrap();
    }
}

fn insert_all(ids: &mut Vec<NodeId>, others: &[NodeId])
    requires table { IsTable marked known_limit ids.old.items (vec_capacity ids.old) }
    requires fits { set.len (set.insert_all (table_of marked ids.old.items) others.now) ≤ known_limit }
    ensures table { IsTable marked known_limit ids.new.items (vec_capacity ids.new) }
    ensures ids { table_of marked ids.new.items ≡ set.insert_all (table_of marked ids.old.items) others.now }
{
    for id in others {
        insert_one(ids, *id);
    }
}
