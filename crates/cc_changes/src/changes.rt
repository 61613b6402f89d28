//! Changes: who entered, joined and left (CCC, Changes, Present and Members).

ghost use Rattle.std.specs.Prelude.{◌≡◌, ◌≤◌, ◌↔◌, ◌||◌, not, length, IfOk, IsTrue};
ghost use Rattle.std.specs.List.{filter};
ghost use Rattle.cc_views.specs.AscendingLists.{IsAscending};
ghost use Rattle.cc_views.specs.Limits.{known_limit};
ghost use Rattle.cc_views.specs.NatSets as set;
ghost use Rattle.cc_changes.specs.ChangeSets as changes;
ghost use Rattle.cc_changes.specs.ChangeSets.{FitsRoom};

use crate::id_set::IdSet;
use cc_views::{NoMemory, NodeId};
use std::alloc::Global;
use std::marker::Model;

/// Who entered, joined and left, as far as a node knows.
#[derive(Drop)]
pub struct Changes {
    entered: IdSet,
    joined: IdSet,
    left: IdSet,
}

impl Model for Changes {
    ghost use Rattle.cc_changes.specs.ChangeSets.{ChangeSets, change_sets_code};

    ghost Value = { ChangeSets };

    ghost coded = { change_sets_code };

    ghost view = { λ c. record { entered = c.entered; joined = c.joined; left = c.left } };
}

impl Changes {
    /// Nobody entered, joined or left.
    pub fn new(alloc: Global) -> Result<Self, NoMemory>
        ensures { IfOk result (λ c. c ≡ changes.nothing_known) }
    {
        Ok(Changes {
            entered: IdSet::new(alloc)?,
            joined: IdSet::new(alloc)?,
            left: IdSet::new(alloc)?,
        })
    }

    /// Just these sets.
    pub fn from_sets(entered: IdSet, joined: IdSet, left: IdSet) -> Self
        ensures { result ≡ record { entered = entered; joined = joined; left = left } }
    {
        Changes {
            entered,
            joined,
            left,
        }
    }

    /// The same changes, in room of their own.
    pub fn copy(&self, alloc: Global) -> Result<Self, NoMemory>
        ensures { IfOk result (λ c. c ≡ self.now) }
    {
        Ok(Changes {
            entered: self.entered.copy(alloc)?,
            joined: self.joined.copy(alloc)?,
            left: self.left.copy(alloc)?,
        })
    }

    /// Adds that a node entered.
    pub fn add_enter(&mut self, entrant: NodeId)
        requires { FitsRoom (changes.add_enter self.old entrant) }
        ensures { self.new ≡ changes.add_enter self.old entrant }
    {
        self.entered.insert(entrant);
    }

    /// Adds that a node joined, and so also that it entered.
    pub fn add_join(&mut self, member: NodeId)
        requires { FitsRoom (changes.add_join self.old member) }
        ensures { self.new ≡ changes.add_join self.old member }
    {
        self.entered.insert(member);
        self.joined.insert(member);
    }

    /// Adds that a node left.
    pub fn add_leave(&mut self, leaver: NodeId)
        requires { FitsRoom (changes.add_leave self.old leaver) }
        ensures { self.new ≡ changes.add_leave self.old leaver }
    {
        self.left.insert(leaver);
    }

    /// Adds all that the other knows. Who joined there has also entered.
    pub fn union(&mut self, other: &Changes)
        requires { FitsRoom (changes.union self.old other.now) }
        ensures { self.new ≡ changes.union self.old other.now }
    {
        self.entered.add_all(&other.entered);
        self.entered.add_all(&other.joined);
        self.joined.add_all(&other.joined);
        self.left.add_all(&other.left);
    }

    /// Whether a union with the other has at most 256 ids in each set.
    pub fn would_fit(&self, other: &Changes) -> bool
        ensures { IsTrue result ↔ FitsRoom (changes.union self.now other.now) }
    {
        let entered = self.entered.as_slice().len()
            + other.entered.count_without(&self.entered)
            + other
                .joined
                .count_without_both(&self.entered, &other.entered);
        let joined = self.joined.as_slice().len() + other.joined.count_without(&self.joined);
        let left = self.left.as_slice().len() + other.left.count_without(&self.left);
        all_fit(entered, joined, left)
    }

    /// How many have entered and not left: the size of Present.
    pub fn present_count(&self) -> u64
        ensures { result ≡ set.len (changes.present self.now) }
    {
        self.entered.count_without(&self.left) as u64
    }

    /// How many would have entered and not left after a union with the other.
    pub fn present_count_with(&self, other: &Changes) -> u64
        ensures { result ≡ set.len (changes.present (changes.union self.now other.now)) }
    {
        let known = self.entered.count_without_both(&self.left, &other.left);
        let entering = count_entering(other.entered(), self, other);
        let joining = count_joining(other.joined(), self, other);
        (known + entering + joining) as u64
    }

    /// How many have joined and not left: the size of Members.
    pub fn member_count(&self) -> u64
        ensures { result ≡ set.len (changes.members self.now) }
    {
        self.joined.count_without(&self.left) as u64
    }

    pub fn has_entered(&self, id: NodeId) -> bool
        ensures { result ≡ set.contains self.now.entered id }
    {
        self.entered.contains(id)
    }

    pub fn has_joined(&self, id: NodeId) -> bool
        ensures { result ≡ set.contains self.now.joined id }
    {
        self.joined.contains(id)
    }

    pub fn has_left(&self, id: NodeId) -> bool
        ensures { result ≡ set.contains self.now.left id }
    {
        self.left.contains(id)
    }

    /// Who entered, in ascending order.
    pub fn entered(&self) -> &[NodeId]
        ensures ids { result.now ≡ set.items self.now.entered }
        ensures ascending { IsAscending result.now }
        ensures fits { length result.now ≤ known_limit }
    {
        self.entered.as_slice()
    }

    /// Who joined, in ascending order.
    pub fn joined(&self) -> &[NodeId]
        ensures ids { result.now ≡ set.items self.now.joined }
        ensures ascending { IsAscending result.now }
        ensures fits { length result.now ≤ known_limit }
    {
        self.joined.as_slice()
    }

    /// Who left, in ascending order.
    pub fn left(&self) -> &[NodeId]
        ensures ids { result.now ≡ set.items self.now.left }
        ensures ascending { IsAscending result.now }
        ensures fits { length result.now ≤ known_limit }
    {
        self.left.as_slice()
    }
}

// How many of the ids haven't entered as far as the one knows, and not left as far as both know.
fn count_entering(ids: &[NodeId], mine: &Changes, told: &Changes) -> usize
    ensures count { result ≡ length (filter (λ q. not (set.contains mine.now.entered
        q || (set.contains mine.now.left q || set.contains told.now.left q))) ids.now) }
    ensures fits { result ≤ length ids.now }
{
    ids.iter()
        .filter(|id| { !(mine.has_entered(**id) || (mine.has_left(**id) || told.has_left(**id))) })
        .count()
}

// How many of the ids have neither entered nor left, as far as both know.
fn count_joining(ids: &[NodeId], mine: &Changes, told: &Changes) -> usize
    ensures count { result ≡ length (filter (λ q. not ((set.contains mine.now.entered q || set.contains told.now.entered q)
        || (set.contains mine.now.left q || set.contains told.now.left q))) ids.now) }
    ensures fits { result ≤ length ids.now }
{
    ids.iter()
        .filter(|id| {
            !((mine.has_entered(**id) || told.has_entered(**id))
                || (mine.has_left(**id) || told.has_left(**id)))
        })
        .count()
}

fn all_fit(entered: usize, joined: usize, left: usize) -> bool
    ensures { IsTrue result ↔ (((entered ≤ known_limit) × (joined ≤ known_limit)) × (left ≤ known_limit)) }
{
    entered <= IdSet::MAX_LEN && joined <= IdSet::MAX_LEN && left <= IdSet::MAX_LEN
}
