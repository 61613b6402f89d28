//! How a folder is to be formatted.

use crate::warning::Warning;
use cc_changes::{Fraction, need};
use cc_command_line::{FormatWords, WordFault, fraction, list, small_number};
use cc_connections::ClusterName;
use cc_node::Opening;
use std::alloc::Global;

// The fractions of a node where no word says others.
const FOUR_FIFTHS: Fraction = Fraction { num: 4, den: 5 };

// The share of a node where no word says another: its asks begin one at a time.
const ONE_BY_ONE: u32 = 1;

/// The node that a folder is to keep.
#[derive(Drop)]
pub struct FormatOrder {
    pub id: u32,
    /// The members at the start. None for a node that enters later.
    pub initial: Vec<u32>,
    /// Whom else it can reach.
    pub contacts: Vec<u32>,
    pub beta: Fraction,
    pub gamma: Fraction,
    /// How many asks that wait begin together at most.
    pub share: u32,
    /// The name of its cluster, if it has one.
    pub cluster: Option<ClusterName>,
}

impl FormatOrder {
    /// What these words ask for: lists are empty, fractions 4/5, the share 1 and the cluster without a name where their words
    /// aren't given. The fault
    /// names the first word of another form. Whether a node can begin so is told by formatting alone.
    pub fn parse(alloc: Global, words: &FormatWords<'_>) -> Result<Self, WordFault> {
        let id = small_number(words.id).ok_or(WordFault::Id)?;
        let beta = fraction_in(words.beta).ok_or(WordFault::Beta)?;
        let gamma = fraction_in(words.gamma).ok_or(WordFault::Gamma)?;
        let share = share_in(words.share).ok_or(WordFault::Share)?;
        let cluster = cluster_in(words.cluster)?;
        let initial = ids(alloc, words.initial, WordFault::Initial)?;
        let contacts = ids(alloc, words.contacts, WordFault::Contacts)?;
        Ok(FormatOrder {
            id,
            initial,
            contacts,
            beta,
            gamma,
            share,
            cluster,
        })
    }

    /// What the node is told.
    pub fn opening(&self) -> Opening<'_> {
        Opening {
            me: self.id,
            initial: &self.initial,
            contacts: &self.contacts,
            beta: self.beta,
            gamma: self.gamma,
            share: self.share as usize,
        }
    }

    /// What an operator may not want of the node, of a cluster whose members are those at the start.
    pub fn warnings(&self) -> [Option<Warning>; 3] {
        [
            self.asks_too_few().then_some(Warning::Half),
            self.asks_all().then_some(Warning::All),
            self.reaches_nobody().then_some(Warning::Alone),
        ]
    }

    // Whether two operations may ask members of which none is asked by both.
    fn asks_too_few(&self) -> bool {
        self.beta.num <= self.beta.den / 2
    }

    // Whether an operation waits for each of several members.
    fn asks_all(&self) -> bool {
        let count = self.initial.len() as u64;
        let Fraction { num, den } = self.beta;
        count > 1 && 0 < num && num <= den && need(self.beta, count) == count
    }

    fn reaches_nobody(&self) -> bool {
        self.initial.is_empty() && self.contacts.is_empty()
    }
}

fn fraction_in(word: Option<&str>) -> Option<Fraction> {
    match word {
        Some(word) => fraction(word),
        None => Some(FOUR_FIFTHS),
    }
}

fn share_in(word: Option<&str>) -> Option<u32> {
    match word {
        Some(word) => small_number(word),
        None => Some(ONE_BY_ONE),
    }
}

fn cluster_in(word: Option<&str>) -> Result<Option<ClusterName>, WordFault> {
    let Some(word) = word else {
        return Ok(None);
    };
    match ClusterName::new(word.as_bytes()) {
        Ok(name) if !word.is_empty() => Ok(Some(name)),
        _ => Err(WordFault::Cluster),
    }
}

fn ids(alloc: Global, word: Option<&str>, fault: WordFault) -> Result<Vec<u32>, WordFault> {
    match word {
        Some(word) => list(alloc, word)?.ok_or(fault),
        None => Ok(Vec::new(alloc)),
    }
}
