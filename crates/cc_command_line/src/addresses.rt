//! Addresses of nodes.

ghost use Rattle.std.specs.Prelude.{◌≡◌, ◌≤◌, ◌<◌, ◌^◌, map, IfOk, MatchOption};
ghost use Rattle.std.specs.Fmt.{decimal};
ghost use Rattle.cc_command_line.specs.Addresses.{SpellsAddress, NoAddress, SpellsHost, NoHost, SpellsBracketed, NoBracketed, NoId, SpellsPeer, NoPeer, ArePeers};
ghost use Rattle.cc_command_line.specs.Addresses.{NonePeers, SpellsPeers, NoPeers};

use crate::numbers::{port_number, small_number};
use cc_connections::{Address, Host, HostName, Peer};
use cc_views::NodeId;
use std::alloc::{AllocError, Global};
use std::net::{IpAddr, Ipv6Addr};

/// The address that a word is: `127.0.0.1:7001`, `[::1]:7001` or `node-1.example:7001`. The numbers of an IPv4 address and
/// the port are in plain decimal digits without leading zeros. None for any other word.
pub fn address(word: &str) -> Option<Address>
    ensures { MatchOption result (NoAddress word.now) (SpellsAddress word.now) }
{
    let (host, port) = word.rsplit_once(':')?;
    Some(Address {
        host: host_in(host)?,
        port: port_number(port)?,
    })
}

// The machine that a word is.
fn host_in(word: &str) -> Option<Host>
    ensures { MatchOption result (NoHost word.now) (SpellsHost word.now) }
{
    if let Some(ip) = bracketed(word) {
        return Some(Host::Ip(IpAddr::V6(ip)));
    }
    if let Ok(ip) = word.parse() {
        return Some(Host::Ip(IpAddr::V4(ip)));
    }
    let name = HostName::new(word)?;
    Some(Host::Name(name))
}

// The IPv6 address that stands in brackets.
fn bracketed(word: &str) -> Option<Ipv6Addr>
    ensures { MatchOption result (NoBracketed word.now) (SpellsBracketed word.now) }
{
    let opened = word.strip_prefix('[')?;
    let inside = opened.strip_suffix(']')?;
    inside.parse().ok()
}

/// The peers, one or more, that a word is, as `2=127.0.0.1:7002,3=[::1]:7003`: ids from 1 on with their addresses. None for any
/// other word.
pub fn peers(alloc: Global, word: &str) -> Result<Option<Vec<Peer>>, AllocError>
    ensures { IfOk result (λ o. MatchOption o (NoPeers word.now) (λ v. SpellsPeers word.now v.items)) }
{
    let words: Vec<&str> = word.split(',').collect(alloc)?;
    peers_in(alloc, &words)
}

// The peers that words are. None where one is none.
fn peers_in(alloc: Global, words: &[&str]) -> Result<Option<Vec<Peer>>, AllocError>
    ensures { IfOk result (λ o. MatchOption o (NonePeers (map (λ w. w.now) words.now)) (λ v. ArePeers (map (λ w. w.now) words.now) v.items)) }
{
    let mut peers = Vec::new(alloc);
    for word in words {
        let Some(peer) = peer_in(word) else {
            return Ok(None);
        };
        peers.push(peer)?;
    }
    Ok(Some(peers))
}

/// The peer that a word is, as `2=127.0.0.1:7002`.
pub(crate) fn peer_in(word: &str) -> Option<Peer>
    ensures { MatchOption result (NoPeer word.now) (SpellsPeer word.now) }
{
    let (id, address_word) = word.split_once('=')?;
    Some(Peer {
        id: node_id(id)?,
        address: address(address_word)?,
    })
}

fn node_id(word: &str) -> Option<NodeId>
    ensures { MatchOption result (NoId word.now) (λ id. (word.now ≡ decimal id) × (1 ≤ id) × (id < 2 ^ 32)) }
{
    NodeId::new(small_number(word)?)
}
