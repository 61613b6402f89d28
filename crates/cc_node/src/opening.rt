//! How a node begins.

ghost use Rattle.std.specs.Prelude.{◌≡◌, ◌≤◌, ◌↔◌, ◌⊎◌, [], IfOk, IfSome, IsNone, IsTrue};
ghost use Rattle.std.specs.List.{Contains};
ghost use Rattle.std.specs.List.Sorted.{IsStrictlyIncreasing};
ghost use Rattle.std.specs.FinMap as table;
ghost use Rattle.cc_views.specs.Limits.{known_limit};
ghost use Rattle.cc_views.specs.NatSets as set;
ghost use Rattle.cc_links.specs.Links as links;
ghost use Rattle.cc_node.specs.Openings.{told, ids_of, IsOpening};
ghost use Rattle.cc_node.specs.OpeningRules.{Breaks, KeepsEarlier};
ghost use Rattle.cc_node.specs.declared.opening.Fresh.TheVariants as faults;

use cc_changes::{Changes, Fraction, IdSet};
use cc_links::{KnownIds, Links};
use cc_views::{NoMemory, NodeId};
use std::alloc::Global;
use std::error::Error;
use std::fmt;

/// What a node is told of itself and of others. Ids are numbers from 1 on.
#[derive(Clone, Copy)]
pub struct Opening<'a> {
    pub me: u32,

    /// The members at the start, `me` among them, ascending. Empty for a node that enters later.
    pub initial: &'a [u32],

    /// Whom else it can reach, ascending, `me` not among them.
    pub contacts: &'a [u32],

    /// The share of the members whose answers an operation waits for.
    pub beta: Fraction,

    /// The share of those present whose echoes an entering node waits for.
    pub gamma: Fraction,

    /// How many asks of one kind, which write or read, begin together at most.
    pub share: usize,
}

impl Opening<'_> {
    /// The greatest share.
    pub const MAX_SHARE: usize = 32;

    /// The first rule that it breaks. None where a node can begin so. It takes no memory.
    pub fn broken_rule(&self) -> Option<OpeningRule>
        ensures none { IsNone result ↔ IsOpening (told self.now) }
        ensures broken { IfSome result (Breaks (told self.now)) }
        ensures first { IfSome result (KeepsEarlier (told self.now)) }
    {
        if !self.beta.is_share() {
            return Some(OpeningRule::Beta);
        }
        if !self.gamma.is_share() {
            return Some(OpeningRule::Gamma);
        }
        if !is_ascending(self.initial) {
            return Some(OpeningRule::Initial);
        }
        if !is_ascending(self.contacts) {
            return Some(OpeningRule::Contacts);
        }
        if !self.begins_right() {
            return Some(OpeningRule::Member);
        }
        if self.contacts.contains(&self.me) {
            return Some(OpeningRule::OwnContact);
        }
        if self.names_zero() {
            return Some(OpeningRule::Zero);
        }
        if self.share == 0 || self.share > Self::MAX_SHARE {
            return Some(OpeningRule::Share);
        }
        if !self.names_few() {
            return Some(OpeningRule::Many);
        }
        None
    }

    // Whether a node can begin so.
    pub(crate) fn is_good(&self) -> bool
        ensures { IsTrue result ↔ IsOpening (told self.now) }
    {
        self.broken_rule().is_none()
    }

    // Whether the node is one of the members at the start, if there are any.
    fn begins_right(&self) -> bool
        ensures { IsTrue result ↔ ((self.now.initial.now ≡ []) ⊎ Contains self.now.initial.now self.now.me) }
    {
        self.initial.is_empty() || self.initial.contains(&self.me)
    }

    // A link to each node that it names.
    pub(crate) fn links(&self, alloc: Global) -> Result<Links, NoMemory>
        requires ids { ¬ (Contains (ids_of (told self.now)) 0) }
        requires few { set.len (set.from_list (ids_of (told self.now))) ≤ known_limit }
        ensures { IfOk result (λ ls. ls ≡ links.add_all 0 (ids_of (told self.now)) table.empty) }
    {
        let mut peers = Links::new(alloc)?;
        link_numbers(&mut peers, self.contacts);
        link_numbers(&mut peers, self.initial);
        peers.add(NodeId::new(self.me).unwrap(), 0);
        Ok(peers)
    }

    // The members of the first hour entered and joined.
    pub(crate) fn changes(&self, alloc: Global) -> Result<Changes, NoMemory>
        requires ids { ¬ (Contains (ids_of (told self.now)) 0) }
        requires few { set.len (set.from_list (ids_of (told self.now))) ≤ known_limit }
        ensures { IfOk result (λ c. c ≡ record {
          entered = set.from_list self.now.initial.now;
          joined = set.from_list self.now.initial.now;
          left = set.empty;
        }) }
    {
        let entered = id_set(alloc, self.initial)?;
        let joined = entered.copy(alloc)?;
        let left = IdSet::new(alloc)?;
        Ok(Changes::from_sets(entered, joined, left))
    }

    // Whether one of the ids is 0.
    fn names_zero(&self) -> bool
        ensures { IsTrue result ↔ Contains (ids_of (told self.now)) 0 }
    {
        if self.me == 0 {
            return true;
        }
        if has_zero(self.initial) {
            return true;
        }
        has_zero(self.contacts)
    }

    // Whether at most 256 ids are different.
    fn names_few(&self) -> bool
        requires { ¬ (Contains (ids_of (told self.now)) 0) }
        ensures { IsTrue result ↔ (set.len (set.from_list (ids_of (told self.now))) ≤ known_limit) }
    {
        let mut known = KnownIds::new();
        if !known.add_numbers(self.contacts) {
            return false;
        }
        if !known.add_numbers(self.initial) {
            return false;
        }
        known.add(NodeId::new(self.me).unwrap())
    }
}

fn has_zero(numbers: &[u32]) -> bool
    ensures { IsTrue result ↔ Contains numbers.now 0 }
{
    numbers.contains(&0)
}

fn is_ascending(numbers: &[u32]) -> bool
    ensures { IsTrue result ↔ IsStrictlyIncreasing numbers.now }
{
    numbers.windows(2).all(|pair| pair[0] < pair[1])
}

// Gives each of the peers a link.
fn link_numbers(peers: &mut Links, numbers: &[u32])
    requires ids { ¬ (Contains numbers.now 0) }
    requires few { table.len (links.add_all 0 numbers.now peers.old) ≤ known_limit }
    ensures { peers.new ≡ links.add_all 0 numbers.now peers.old }
{
    for number in numbers {
        peers.add(NodeId::new(*number).unwrap(), 0);
    }
}

// The set of these ids.
fn id_set(alloc: Global, numbers: &[u32]) -> Result<IdSet, NoMemory>
    requires ids { ¬ (Contains numbers.now 0) }
    requires few { set.len (set.from_list numbers.now) ≤ known_limit }
    ensures { IfOk result (λ s. s ≡ set.from_list numbers.now) }
{
    let mut ids = IdSet::new(alloc)?;
    insert_numbers(&mut ids, numbers);
    Ok(ids)
}

fn insert_numbers(ids: &mut IdSet, numbers: &[u32])
    requires ids { ¬ (Contains numbers.now 0) }
    requires few { set.len (set.insert_all ids.old numbers.now) ≤ known_limit }
    ensures { ids.new ≡ set.insert_all ids.old numbers.now }
{
    for number in numbers {
        ids.insert(NodeId::new(*number).unwrap());
    }
}

/// A rule that the beginning of a node keeps.
#[derive(Clone, Copy, Debug, PartialEq, Eq)]
pub enum OpeningRule {
    /// `beta` is a fraction above 0 and at most 1.
    Beta,
    /// `gamma` is a fraction above 0 and at most 1.
    Gamma,
    /// `initial` ascends.
    Initial,
    /// `contacts` ascends.
    Contacts,
    /// The node is in its own `initial`, where that isn't empty.
    Member,
    /// The node isn't among its own `contacts`.
    OwnContact,
    /// No id is 0.
    Zero,
    /// `share` is a number from 1 to [`Opening::MAX_SHARE`].
    Share,
    /// At most 256 nodes are named, itself among them.
    Many,
}

/// Why no node begins so.
#[derive(Clone, Copy, Debug, PartialEq, Eq)]
pub enum Fresh {
    /// An id, a list or a fraction is out of its bounds.
    BadOpening,
    /// A growth was refused.
    NoMemory,
}

impl fmt::Display for Fresh {
    ghost use Rattle.std.specs.Prelude.{Some};
    ghost use Rattle.cc_node.specs.OpeningRules.{fault_text};

    ghost output = { λ fault. Some (fault_text fault) };

    fn fmt<W: fmt::Write>(&self, f: &mut fmt::Formatter<W>) -> fmt::Result {
        match self {
            Fresh::BadOpening => f.write_str("BadOpening"),
            Fresh::NoMemory => f.write_str("NoMemory"),
        }
    }
}

impl Error for Fresh {}

impl From<NoMemory> for Fresh {
    ghost from_gives = { λ _ e. e ≡ faults.NoMemory };

    fn from(_e: NoMemory) -> Fresh {
        Fresh::NoMemory
    }
}
