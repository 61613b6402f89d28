//! The file of the peers, which is read again while a node runs.

use cc_channels::{Dialler, Machine, Notice, ReadText, Shared, dial_peer, give_notice};
use cc_command_line::{LineFault, peers_in_lines};
use cc_connections::{Address, Peer};
use cc_views::NodeId;
use log::Log;
use std::alloc::Global;
use std::sync::Wait;
use std::thread::Scope;
use std::time::Duration;
use std::{mem, thread};

// How long it waits before it looks at its flag, in milliseconds.
const PAUSE_MS: u64 = 100;

// After how many pauses the file is read.
const PAUSES: u64 = 10;

/// What follows the file of the peers.
#[derive(Drop)]
pub struct Follower<'x> {
    /// The node, and where it listens, and for clients alone, if it does.
    pub me: NodeId,
    pub listen: Address,
    pub listen_clients: Option<Address>,
    /// The file.
    pub path: &'x str,
    pub shared: &'x Shared,
    /// By what new peers are dialled, and what ends it.
    pub dialler: &'x Dialler<'x>,
}

impl Follower<'_> {
    fn listens_at(&self, address: Address) -> bool {
        address == self.listen || Some(address) == self.listen_clients
    }
}

/// Reads the file of the peers once a second until the flag is set. A text is taken once it stood there at two readings, since
/// who writes it may not be done at the first: peers that are new get a channel and a dialler, and those at another address are
/// connected to there. No peer goes, and a text with a fault changes nothing.
pub fn follow_peers<R>(rt: &R, alloc: Global, follower: &Follower<'_>)
where
    R: Machine,
{
    thread::scope(
        thread::scope_env(),
        rt,
        |scope| follow(scope, rt, alloc, follower),
    );
}

// Follows the file. The diallers of new peers are threads of the scope.
fn follow<'s, 'e: 's, R>(
    scope: &'s Scope<'s, &'e ()>,
    rt: &'e R,
    alloc: Global,
    follower: &'e Follower<'e>,
)
where
    R: Machine,
{
    let mut reading = Reading::new(alloc);
    let mut pauses: u64 = 0;
    for _ in rt.forever() {
        thread::sleep(rt, Duration::from_millis(PAUSE_MS));
        if follower.dialler.over.is_set() {
            return;
        }
        pauses = pauses.saturating_add(1);
        if pauses >= PAUSES {
            pauses = 0;
            if reading.read(rt, alloc, follower) {
                take(scope, rt, alloc, follower, reading.text.as_str());
            }
        }
    }
    unreachable!()
}

// What was read of the file.
#[derive(Drop)]
struct Reading {
    text: String,
    is_taken: bool,
    // It couldn't be read the last time.
    is_lost: bool,
}

impl Reading {
    // Nothing was read yet.
    fn new(alloc: Global) -> Self {
        Reading {
            text: String::new(alloc),
            is_taken: true,
            is_lost: false,
        }
    }

    // Reads the file again. Whether its text is to be taken, which is the same as the last time. That it can't be read is noted
    // once.
    fn read<R: ReadText + Log>(&mut self, rt: &R, alloc: Global, follower: &Follower<'_>) -> bool {
        match rt.read_text(alloc, follower.path) {
            Ok(text) => {
                self.is_lost = false;
                self.see(text)
            }
            Err(_) => {
                if !self.is_lost {
                    note_not_taken(rt, follower, "can't be read");
                }
                self.is_lost = true;
                false
            }
        }
    }

    // This text stands in the file now. Whether it is to be taken.
    fn see(&mut self, text: String) -> bool {
        if self.text.as_str() != text.as_str() {
            drop(mem::replace(&mut self.text, text));
            self.is_taken = false;
            return false;
        }
        drop(text);
        let is_due = !self.is_taken;
        self.is_taken = true;
        is_due
    }
}

// Takes the peers on the lines of a text, if it has no fault.
fn take<'s, 'e: 's, R>(
    scope: &'s Scope<'s, &'e ()>,
    rt: &'e R,
    alloc: Global,
    follower: &'e Follower<'e>,
    text: &str,
)
where
    R: Machine,
{
    match peers_in_lines(alloc, text) {
        Ok(peers) => {
            if name_one_again(&peers) {
                note_not_taken(rt, follower, "names a node twice");
            } else {
                take_all(scope, rt, alloc, follower, &peers);
            }
        }
        Err(LineFault::NoPeer(_)) => {
            note_not_taken(rt, follower, "has a line that isn't ID=ADDR");
        }
        Err(LineFault::NoMemory) => {
            note_not_taken(rt, follower, "is too long for the memory");
        }
    }
}

// Whether one of the peers is a node that another one before it is.
fn name_one_again(peers: &[Peer]) -> bool {
    for (place, peer) in peers.iter().enumerate() {
        if peers
            .iter()
            .take(place)
            .any(|earlier| earlier.id == peer.id)
        {
            return true;
        }
    }
    false
}

// Takes each of these peers but the node itself, and notes which peers aren't among them.
fn take_all<'s, 'e: 's, R>(
    scope: &'s Scope<'s, &'e ()>,
    rt: &'e R,
    alloc: Global,
    follower: &'e Follower<'e>,
    peers: &[Peer],
)
where
    R: Machine,
{
    for peer in peers {
        if peer.id == follower.me {
            continue;
        }
        if follower.listens_at(peer.address) {
            note_not_taken(rt, follower, "has its own address for a peer");
            continue;
        }
        match follower.shared.channel_to(peer.id) {
            Some(channel) => {
                if channel.put_address(rt, peer.address) {
                    give_notice(rt, follower.me, &Notice::Elsewhere(peer.id, peer.address));
                }
            }
            None => add(scope, rt, alloc, follower, peer),
        }
    }
    note_missing(rt, follower, peers);
}

// Adds a peer: a channel, and a dialler of its own. Where there is no memory or no thread for it, nothing is sent to it.
fn add<'s, 'e: 's, R>(
    scope: &'s Scope<'s, &'e ()>,
    rt: &'e R,
    alloc: Global,
    follower: &'e Follower<'e>,
    peer: &Peer,
)
where
    R: Machine,
{
    let me = follower.me;
    let dialler = follower.dialler;
    let Ok(Some(end)) = follower.shared.channels.add(alloc, peer) else {
        return;
    };
    if scope.spawn(move || dial_peer(rt, dialler, end)).is_ok() {
        give_notice(rt, me, &Notice::Added(peer.id, peer.address));
    }
}

// Notes that the file isn't taken, and why.
fn note_not_taken<R: Log>(rt: &R, follower: &Follower<'_>, why: &str) {
    let file = follower.path;
    give_notice(rt, follower.me, &Notice::NotTaken { file, why });
}

// Notes which peers have no line any more.
fn note_missing<R: Log>(rt: &R, follower: &Follower<'_>, peers: &[Peer]) {
    for number in 0..usize::MAX {
        let Some(channel) = follower.shared.channels.get(number) else {
            return;
        };
        if !peers.iter().any(|peer| peer.id == channel.peer) {
            give_notice(rt, follower.me, &Notice::Unlisted(channel.peer));
        }
    }
}
