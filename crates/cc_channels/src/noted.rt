//! What a dialler notes of its peer.

use crate::trouble::Trouble;
use crate::writer::millis;
use cc_connections::Address;
use cc_views::NodeId;
use log::{Log, info, warn};
use std::net::TcpStream;
use std::time::Clock;

// Where a log's filter finds the notes, as before they had a crate of their own.
const TARGET: &str = "cc_channels::writing";

// For how long nothing more is noted of a connection that was lost, in milliseconds.
const QUIET_MS: u64 = 1000;

// So many greetings in a row have to be without an answer before that is noted: a peer that ends leaves one or two.
const SILENT: u64 = 4;

/// What a dialler of a node has noted of a peer.
#[derive(Drop)]
pub struct Noted {
    me: NodeId,
    peer: NodeId,
    // The last note says that the peer is connected to.
    is_connected: bool,
    // Until when no loss is noted, in milliseconds since 1970.
    quiet_until: u64,
    // The address whose name wasn't found, which is noted.
    missed: Option<Address>,
    // Why the node wasn't taken, and where, which is noted.
    refused: Option<Trouble>,
    refused_at: Option<Address>,
    // How many greetings in a row were without an answer.
    silent: u64,
    // Another process greets the peer as this node, which is noted.
    is_doubled: bool,
}

impl Noted {
    /// Nothing yet.
    pub fn new(me: NodeId, peer: NodeId) -> Self {
        Noted {
            me,
            peer,
            is_connected: false,
            quiet_until: 0,
            missed: None,
            refused: None,
            refused_at: None,
            silent: 0,
            is_doubled: false,
        }
    }

    /// The peer is connected to.
    pub fn connect<R: Log>(&mut self, rt: &R, address: Address) {
        if !self.is_connected {
            let (me, peer) = (self.me.number(), self.peer.number());
            info!(rt; target: TARGET, "node {me} is connected to node {peer} at {address}");
        }
        self.is_connected = true;
        self.missed = None;
        self.refused = None;
        self.refused_at = None;
        self.silent = 0;
    }

    /// The peer has taken the node, and tells whether another process greets it in turn under the same id.
    pub fn double<R: Log>(&mut self, rt: &R, address: Address, is_doubled: bool) {
        if is_doubled && !self.is_doubled {
            let (me, peer) = (self.me.number(), self.peer.number());
            warn!(rt; target: TARGET, "node {me} hears from node {peer} at {address} that another process greets it in turn as node {me}");
        }
        self.is_doubled = is_doubled;
    }

    /// The name in the peer's address isn't found.
    pub fn miss<R: Log>(&mut self, rt: &R, address: Address) {
        if self.missed != Some(address) {
            let (me, peer) = (self.me.number(), self.peer.number());
            warn!(rt; target: TARGET, "node {me} doesn't find the name of node {peer} in {address}");
        }
        self.missed = Some(address);
    }

    /// The node isn't taken by the node `found`, which listens at that address.
    pub fn refuse<R: Log>(
        &mut self,
        rt: &R,
        stream: &TcpStream,
        address: Address,
        found: NodeId,
        trouble: Trouble,
    ) {
        if self.is_news(address, trouble) {
            let (me, peer, found) = (self.me.number(), self.peer.number(), found.number());
            let words = trouble.words();
            match stream.local_addr() {
                Ok(from) => {
                    warn!(rt; target: TARGET, "node {me}, from {from}, isn't taken at {address}, where it looks for node {peer}: node {found} {words}");
                }
                Err(_) => {
                    warn!(rt; target: TARGET, "node {me} isn't taken at {address}, where it looks for node {peer}: node {found} {words}");
                }
            }
        }
    }

    /// Who listens at that address doesn't answer a greeting.
    pub fn ignore<R: Log>(&mut self, rt: &R, address: Address) {
        self.silent = self.silent.saturating_add(1);
        if self.silent >= SILENT && self.is_news(address, Trouble::NoAnswer) {
            let (me, peer) = (self.me.number(), self.peer.number());
            warn!(rt; target: TARGET, "node {me} greets node {peer} at {address}, and gets no answer: the program there may be an older one");
        }
    }

    // Whether it wasn't noted that the node isn't taken there for that reason. It is from now on.
    fn is_news(&mut self, address: Address, trouble: Trouble) -> bool {
        let is_news = self.refused != Some(trouble) || self.refused_at != Some(address);
        self.refused = Some(trouble);
        self.refused_at = Some(address);
        is_news
    }

    /// The peer isn't connected to.
    pub fn lose<R: Log + Clock>(&mut self, rt: &R, address: Address) {
        let now = millis(rt);
        if !self.is_connected || now < self.quiet_until {
            return;
        }
        self.is_connected = false;
        self.quiet_until = now.saturating_add(QUIET_MS);
        let (me, peer) = (self.me.number(), self.peer.number());
        info!(rt; target: TARGET, "node {me} has lost its connection to node {peer} at {address}");
    }
}
