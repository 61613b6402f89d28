//! What a node is told that is to run.

use crate::addresses::{address, peers};
use crate::numbers::number;
use crate::peer_lines::peers_in_lines;
use crate::speech::Speech;
use crate::word_fault::WordFault;
use cc_connections::{Address, Peer};
use cc_views::NodeId;
use std::alloc::Global;

/// The words of `run` behind its folder, as they are given. None for an option that isn't.
#[derive(Clone, Copy)]
pub struct RunWords<'a> {
    pub listen: &'a str,
    pub listen_clients: Option<&'a str>,
    pub operators: Option<&'a str>,
    pub speaks: Option<&'a str>,
    pub peers: Option<&'a str>,
    /// The path of a file whose lines are the peers.
    pub peers_file: Option<&'a str>,
    pub status: Option<&'a str>,
    pub http: Option<&'a str>,
    pub http_sessions: Option<&'a str>,
    pub http_origin: Option<&'a str>,
    pub log: Option<&'a str>,
}

// How many sessions a node has, and how many of them it keeps for clients over HTTP where it isn't said.
const MOST_SESSIONS: u64 = 256;

const USUAL_OWN_SESSIONS: u16 = 64;

/// How much a node notes: what is of a level, and of those before it.
#[derive(Clone, Copy, PartialEq, Eq)]
pub enum LogLevel {
    Error,
    Warn,
    Info,
    Debug,
}

impl LogLevel {
    /// The level that a word names: `error`, `warn`, `info` or `debug`. None for any other word.
    pub fn named(word: &str) -> Option<Self> {
        match word {
            "error" => Some(LogLevel::Error),
            "warn" => Some(LogLevel::Warn),
            "info" => Some(LogLevel::Info),
            "debug" => Some(LogLevel::Debug),
            _ => None,
        }
    }
}

/// Where a node that runs listens, where the others do, and what it tells of itself.
#[derive(Drop, PartialEq, Eq)]
pub struct RunOrder {
    pub listen: Address,
    /// Where it listens for clients alone. None where it doesn't.
    pub listen_clients: Option<Address>,
    /// Whether it takes the operator's requests that come from other machines.
    pub remote_operators: bool,
    /// What it speaks to other nodes.
    pub speech: Speech,
    pub peers: Vec<Peer>,
    /// Where it tells its status. None where it doesn't.
    pub status: Option<Address>,
    /// Where clients reach it that speak HTTP. None where none do.
    pub http: Option<Address>,
    /// How many of its sessions it keeps for those that bring none.
    pub http_sessions: u16,
    pub log: LogLevel,
}

impl RunOrder {
    /// What these words ask for: the address behind `--listen`; those behind `--listen-clients`, `--status` and `--http` where
    /// they are given; whether `--operators` is on, as by default; what the node `--speaks`, what this program speaks by default;
    /// the peers behind `--peers`, or on the lines of the file behind `--peers-file`, none by default; the number behind
    /// `--http-sessions`, 64 by default; and the level behind `--log`, info by default. `lines` is the text of that file. A peer
    /// that is named twice is a fault.
    pub fn parse(
        alloc: Global,
        words: &RunWords<'_>,
        lines: Option<&str>,
    ) -> Result<Self, WordFault> {
        let listen = address(words.listen).ok_or(WordFault::Listen)?;
        let listen_clients = address_in(words.listen_clients, WordFault::ListenClients)?;
        let remote_operators = switch_in(words.operators)?;
        let speech = speech_in(words.speaks)?;
        let status = address_in(words.status, WordFault::Status)?;
        let http = address_in(words.http, WordFault::Http)?;
        let http_sessions = own_sessions_in(words.http_sessions)?;
        if !words.http_origin.is_none_or(is_origin) {
            return Err(WordFault::HttpOrigin);
        }
        let log = level_in(words.log)?;
        if words.peers.is_some() && words.peers_file.is_some() {
            return Err(WordFault::PeersTwice);
        }
        let peers = peers_of(alloc, words.peers, lines)?;
        Ok(RunOrder {
            listen,
            listen_clients,
            remote_operators,
            speech,
            peers,
            status,
            http,
            http_sessions,
            log,
        })
    }

    /// Whether a node is one of the peers. That of the folder must not be.
    pub fn names(&self, node: NodeId) -> bool {
        self.peers.iter().any(|peer| peer.id == node)
    }

    /// The node isn't one of the peers any more, if it was: that of the folder, in a file that serves all nodes.
    pub fn pass_over(&mut self, node: NodeId) {
        self.peers.retain(|peer| peer.id != node);
    }
}

/// The address that a word is, if one is given, or this fault.
pub(crate) fn address_in(
    word: Option<&str>,
    fault: WordFault,
) -> Result<Option<Address>, WordFault> {
    match word {
        Some(word) => match address(word) {
            Some(address) => Ok(Some(address)),
            None => Err(fault),
        },
        None => Ok(None),
    }
}

// Whether the operator's requests are taken from everywhere: on, unless it is off.
fn switch_in(word: Option<&str>) -> Result<bool, WordFault> {
    match word.unwrap_or("on") {
        "on" => Ok(true),
        "off" => Ok(false),
        _ => Err(WordFault::Operators),
    }
}

fn speech_in(word: Option<&str>) -> Result<Speech, WordFault> {
    match word {
        Some(word) => Speech::named(word).ok_or(WordFault::Speaks),
        None => Ok(Speech::Now),
    }
}

// Whether a word is the origin of pages: a scheme, a host, and a port where it isn't the usual one.
fn is_origin(word: &str) -> bool {
    let host = match word.strip_prefix("http://") {
        Some(host) => Some(host),
        None => word.strip_prefix("https://"),
    };
    match host {
        Some(host) => !host.is_empty()
            && host
                .bytes()
                .all(|byte| byte.is_ascii_graphic() && byte != b'/'),
        None => false,
    }
}

// How many sessions are kept for clients that bring none: 64, where it isn't said.
fn own_sessions_in(word: Option<&str>) -> Result<u16, WordFault> {
    let Some(word) = word else {
        return Ok(USUAL_OWN_SESSIONS);
    };
    match number(word) {
        Some(count) if count <= MOST_SESSIONS => Ok(count as u16),
        _ => Err(WordFault::HttpSessions),
    }
}

fn level_in(word: Option<&str>) -> Result<LogLevel, WordFault> {
    match word {
        Some(word) => LogLevel::named(word).ok_or(WordFault::Log),
        None => Ok(LogLevel::Info),
    }
}

// The peers of a list, or else those on the lines of a file.
fn peers_of(
    alloc: Global,
    list: Option<&str>,
    lines: Option<&str>,
) -> Result<Vec<Peer>, WordFault> {
    let (peers, twice) = match lines {
        Some(lines) => (peers_in_lines(alloc, lines)?, WordFault::LineTwice),
        None => (named_peers(alloc, list)?, WordFault::PeerTwice),
    };
    if names_one_twice(&peers) {
        return Err(twice);
    }
    Ok(peers)
}

fn named_peers(alloc: Global, word: Option<&str>) -> Result<Vec<Peer>, WordFault> {
    match word {
        Some(word) => peers(alloc, word)?.ok_or(WordFault::Peers),
        None => Ok(Vec::new(alloc)),
    }
}

fn names_one_twice(peers: &[Peer]) -> bool {
    peers.iter().any(|peer| count_of(peers, peer.id) > 1)
}

fn count_of(peers: &[Peer], id: NodeId) -> usize {
    peers.iter().filter(|peer| peer.id == id).count()
}
