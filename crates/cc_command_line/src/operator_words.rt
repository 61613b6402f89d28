//! What the operator asks of a node that runs.

use crate::address_words::addresses;
use crate::addresses::address;
use crate::ask_words::AnswerForm;
use crate::numbers::small_number;
use crate::peer_lines::peers_in_lines;
use crate::word_fault::WordFault;
use cc_connections::{Address, Peer};
use cc_messages::Share;
use cc_views::NodeId;
use std::alloc::Global;

/// The node at an address is to leave.
#[derive(Clone, Copy, PartialEq, Eq)]
pub struct LeaveOrder {
    pub address: Address,
}

impl LeaveOrder {
    /// What the word behind `leave` asks for.
    pub fn parse(word: &str) -> Result<Self, WordFault> {
        let address = address(word).ok_or(WordFault::Address)?;
        Ok(LeaveOrder { address })
    }
}

/// Of the node at an address so many asks are to begin together.
#[derive(Clone, Copy)]
pub struct ShareOrder {
    pub address: Address,
    pub share: Share,
}

impl ShareOrder {
    /// What the words behind `share` ask for.
    pub fn parse(word: &str, share: &str) -> Result<Self, WordFault> {
        let address = address(word).ok_or(WordFault::Address)?;
        let share = share_in(share).ok_or(WordFault::NewShare)?;
        Ok(ShareOrder { address, share })
    }
}

fn share_in(word: &str) -> Option<Share> {
    Share::new(u8::try_from(small_number(word)?).ok()?)
}

/// The words of `retire`, as they are given. None for one that isn't.
#[derive(Clone, Copy)]
pub struct RetireWords<'a> {
    /// Where the nodes listen that are told, or the id where a file names them.
    pub first: &'a str,
    /// The id, where no file names the nodes that are told.
    pub second: Option<&'a str>,
    /// The path of a file whose lines are the nodes that are told.
    pub peers_file: Option<&'a str>,
    pub alive: bool,
}

/// Nodes are told that another is dead for good.
#[derive(Drop, PartialEq, Eq)]
pub struct RetireOrder {
    /// Where these listen, one at least, and no address twice.
    pub addresses: Vec<Address>,
    pub node: NodeId,
    /// Whether it is retired though it was heard a moment ago.
    pub even_alive: bool,
}

impl RetireOrder {
    /// What the words behind `retire` ask for. `lines` is the text of the file behind `--peers-file`: each node in it is
    /// told, but the one that is retired.
    pub fn parse(
        alloc: Global,
        words: &RetireWords<'_>,
        lines: Option<&str>,
    ) -> Result<Self, WordFault> {
        match (words.second, lines) {
            (Some(id), None) => Self::of_list(alloc, words.first, id, words.alive),
            (None, Some(lines)) => Self::of_lines(alloc, lines, words.first, words.alive),
            _ => Err(WordFault::Retirement),
        }
    }

    fn of_list(alloc: Global, list: &str, id: &str, even_alive: bool) -> Result<Self, WordFault> {
        let addresses = match list.contains(',') {
            true => addresses(alloc, list)?,
            false => one_address(alloc, list)?,
        };
        let Some(node) = node_id(id) else {
            drop(addresses);
            return Err(WordFault::Node);
        };
        Ok(RetireOrder {
            addresses,
            node,
            even_alive,
        })
    }

    fn of_lines(alloc: Global, lines: &str, id: &str, even_alive: bool) -> Result<Self, WordFault> {
        let node = node_id(id).ok_or(WordFault::Node)?;
        let peers = peers_in_lines(alloc, lines)?;
        let told = addresses_but(alloc, &peers, node);
        drop(peers);
        Ok(RetireOrder {
            addresses: told?,
            node,
            even_alive,
        })
    }
}

fn one_address(alloc: Global, word: &str) -> Result<Vec<Address>, WordFault> {
    let address = address(word).ok_or(WordFault::Address)?;
    let mut addresses = Vec::new(alloc);
    addresses.push(address).or(Err(WordFault::NoMemory))?;
    Ok(addresses)
}

// Where the peers listen that aren't this node.
fn addresses_but(alloc: Global, peers: &[Peer], node: NodeId) -> Result<Vec<Address>, WordFault> {
    let mut addresses = Vec::new(alloc);
    for peer in peers {
        if peer.id == node {
            continue;
        }
        if addresses.contains(&peer.address) {
            return Err(WordFault::LineAddressTwice);
        }
        addresses.push(peer.address).or(Err(WordFault::NoMemory))?;
    }
    if addresses.is_empty() {
        return Err(WordFault::NobodyElse);
    }
    Ok(addresses)
}

/// A node is asked what it tells of itself.
#[derive(Clone, Copy, PartialEq, Eq)]
pub struct StatusOrder {
    /// Where it tells its status.
    pub address: Address,
    /// As a table, or as JSON.
    pub form: AnswerForm,
    /// Whether it is asked once a second, until the program is ended.
    pub watches: bool,
}

impl StatusOrder {
    /// What the words behind `status` ask for.
    pub fn parse(word: &str, form: AnswerForm, watches: bool) -> Result<Self, WordFault> {
        let address = address(word).ok_or(WordFault::Address)?;
        Ok(StatusOrder {
            address,
            form,
            watches,
        })
    }
}

fn node_id(word: &str) -> Option<NodeId> {
    NodeId::new(small_number(word)?)
}
