//! What the threads of a node pass things on by.

use crate::connections::Connections;
use crate::grants::Grants;
use crate::hello_exchange::HelloExchange;
use crate::known::Known;
use crate::notes::{Note, NoteChannel, note_channel};
use crate::own::{OwnChannel, own_channel};
use crate::peer_channel::{FarEnd, PeerChannel};
use crate::peer_channels::{PeerChannels, channels_to};
use crate::reception::Reception;
use crate::waker::Waker;
use cc_connections::{Flag, Gauges, Peer};
use cc_messages::Event;
use cc_node::Core;
use cc_policies::{HealthTable, Wishes, is_old_copy, is_silent};
use cc_views::{NoMemory, NodeId};
use crossbeam_channel::Receiver;
use crossbeam_utils::sync::Parker;
use std::alloc::{AllocError, Global};
use std::sync::atomic::{AtomicU64, Ordering};
use std::sync::{Mutex, OnceLock, Wait};

/// What the threads of a node pass things on by.
#[derive(Drop)]
pub struct Shared {
    /// The node, once its folder was read.
    pub me: OnceLock<NodeId>,
    /// The connections that others opened, and the channels to the peers and to itself.
    pub connections: Connections,
    pub channels: PeerChannels,
    pub own: OwnChannel,
    /// How it greets its peers, and who is taken that greets it.
    pub hello_exchange: HelloExchange,
    pub reception: Reception,
    /// What wakes the flusher.
    pub waker: Waker,
    /// The nodes that were heard of.
    pub known: Known,
    /// What the flusher is asked to put out again.
    pub wishes: Mutex<Wishes>,
    /// Which wishes of sessions were granted.
    pub grants: Grants,
    /// How its peers stand, and whether one is absent.
    pub health: Mutex<HealthTable>,
    pub any_absent: Flag,
    /// What the flusher notes.
    pub notes: NoteChannel,
    /// What is counted.
    pub gauges: Gauges,
    // The moment of the last tick, in milliseconds since 1970, and by the clock that never goes back.
    now: AtomicU64,
    monotonic_now: AtomicU64,
    // How many seconds have passed since the start.
    seconds: AtomicU64,
    /// A second has passed.
    pub ticked: Flag,
    /// No worker is left.
    pub done: Flag,
    /// The flusher has ended.
    pub ended: Flag,
}

/// The other ends: what a thread takes out of.
#[derive(Drop)]
pub struct Inlets {
    /// What the flusher sleeps by.
    pub parker: Parker,
    /// What the writers to the peers, the worker of the own messages and the writer of notes take out of.
    pub far: Vec<FarEnd>,
    pub own: Receiver<Option<Event>>,
    pub notes: Receiver<Option<Note>>,
}

// The tables of what the threads share.
#[derive(Drop)]
struct Tables {
    connections: Connections,
    reception: Reception,
    wishes: Wishes,
    health: HealthTable,
    gauges: Gauges,
}

impl Tables {
    fn new(alloc: Global) -> Result<Self, NoMemory> {
        let connections = Connections::new(alloc)?;
        let Ok(reception) = Reception::new(alloc) else {
            drop(connections);
            return Err(NoMemory);
        };
        let Ok(wishes) = Wishes::new(alloc) else {
            drop((connections, reception));
            return Err(NoMemory);
        };
        let Ok(health) = HealthTable::new(alloc) else {
            drop((connections, reception, wishes));
            return Err(NoMemory);
        };
        let Ok(gauges) = Gauges::new(alloc) else {
            drop((connections, reception, wishes, health));
            return Err(NoMemory);
        };
        Ok(Tables {
            connections,
            reception,
            wishes,
            health,
            gauges,
        })
    }
}

// The channels on which the threads pass things on, and what wakes the flusher.
#[derive(Drop)]
struct Ways {
    channels: PeerChannels,
    own: OwnChannel,
    notes: NoteChannel,
    waker: Waker,
}

impl Ways {
    fn new(alloc: Global, peers: &[Peer]) -> Result<(Self, Inlets), NoMemory> {
        let (channels, far) = channels_to(alloc, peers)?;
        let Ok((own, taken)) = own_channel(alloc) else {
            drop((channels, far));
            return Err(NoMemory);
        };
        let Ok((notes, noted)) = note_channel(alloc) else {
            drop((channels, far, own, taken));
            return Err(NoMemory);
        };
        let Ok((waker, parker)) = waking(alloc) else {
            drop((channels, far, own, taken, notes, noted));
            return Err(NoMemory);
        };
        let ways = Ways {
            channels,
            own,
            notes,
            waker,
        };
        let inlets = Inlets {
            parker,
            far,
            own: taken,
            notes: noted,
        };
        Ok((ways, inlets))
    }
}

// What wakes the flusher, and what it sleeps by.
fn waking(alloc: Global) -> Result<(Waker, Parker), AllocError> {
    let parker = Parker::new(alloc)?;
    let unparker: Result<_, _> = parker.unparker().clone();
    match unparker {
        Ok(unparker) => Ok((Waker::new(unparker), parker)),
        Err(_) => {
            drop(parker);
            Err(AllocError)
        }
    }
}

impl Shared {
    /// What the threads of a node with these peers need that is started at that moment, and the other ends of it.
    pub fn new(alloc: Global, peers: &[Peer], now: u64) -> Result<(Self, Inlets), NoMemory> {
        let tables = Tables::new(alloc)?;
        let Ok((ways, inlets)) = Ways::new(alloc, peers) else {
            drop(tables);
            return Err(NoMemory);
        };
        Ok((Shared::of(alloc, tables, ways, now), inlets))
    }

    // Of a node that is started at that moment.
    fn of(alloc: Global, tables: Tables, ways: Ways, now: u64) -> Self {
        let Tables {
            connections,
            reception,
            wishes,
            health,
            gauges,
        } = tables;
        let Ways {
            channels,
            own,
            notes,
            waker,
        } = ways;
        Shared {
            me: OnceLock::new(),
            connections,
            channels,
            own,
            hello_exchange: HelloExchange::new(),
            reception,
            waker,
            known: Known::new(alloc),
            wishes: Mutex::new(wishes),
            grants: Grants::new(),
            health: Mutex::new(health),
            any_absent: Flag::new(),
            notes,
            gauges,
            now: AtomicU64::new(now),
            monotonic_now: AtomicU64::new(1),
            seconds: AtomicU64::new(0),
            ticked: Flag::new(),
            done: Flag::new(),
            ended: Flag::new(),
        }
    }

    /// The moment of the last tick, in milliseconds since 1970.
    pub fn now(&self) -> u64 {
        self.now.load(Ordering::SeqCst)
    }

    /// A second has passed, and it is that moment: in milliseconds since 1970, and by the clock that never goes back.
    pub fn tick<R: Wait>(&self, rt: &R, now: u64, monotonic_now: u64) {
        self.now.store(now, Ordering::SeqCst);
        self.monotonic_now.store(monotonic_now, Ordering::SeqCst);
        self.seconds.fetch_add(1, Ordering::SeqCst);
        self.hello_exchange.settle(rt);
        self.ticked.set();
        self.waker.wake();
    }

    /// How many seconds have passed since the start.
    pub fn seconds(&self) -> u64 {
        self.seconds.load(Ordering::SeqCst)
    }

    /// Whether the node ends by itself: a disk call failed, or its folder is an old copy.
    pub fn has_ended(&self) -> bool {
        self.ended.is_set() || self.hello_exchange.old_copy().is_some()
    }

    /// What the node and its peers have of each other's posts, as the node's state has it: of a peer that it doesn't know, nothing.
    pub fn learn_marks(&self, core: &Core) {
        for number in 0..usize::MAX {
            let Some(channel) = self.channels.get(number) else {
                return;
            };
            let marks = channel.marks();
            match core.links().get(channel.peer) {
                Some(link) => marks.learn(core.posts().saturating_sub(link.start), link.heard),
                None => marks.learn(0, 0),
            }
        }
    }

    /// Whether a peer is silent, as it was at the last tick.
    pub fn is_silent<R: Wait>(&self, rt: &R, peer: NodeId) -> bool {
        let has_speaker = self.connections.has_speaker(rt, peer);
        let heard = self.channel_to(peer).and_then(PeerChannel::last_heard);
        is_silent(
            has_speaker,
            heard,
            self.monotonic_now.load(Ordering::SeqCst),
        )
    }

    /// A moment of the clock that never goes back, in milliseconds since 1970.
    pub fn since_1970(&self, monotonic: u64) -> u64 {
        let age = self
            .monotonic_now
            .load(Ordering::SeqCst)
            .saturating_sub(monotonic);
        self.now().saturating_sub(age)
    }

    /// The channel to a peer.
    pub fn channel_to(&self, peer: NodeId) -> Option<&PeerChannel> {
        self.channels.to(peer)
    }

    /// Has the flusher tell a peer again what was heard from it.
    pub fn reack<R: Wait>(&self, rt: &R, peer: NodeId) {
        self.wishes.lock(rt).reack(peer);
        self.waker.wake();
    }

    /// A frame of that peer came. How it stands is looked at only while a peer is absent.
    pub fn hear_voice<R: Wait>(&self, rt: &R, peer: NodeId) {
        if let Some(channel) = self.channel_to(peer) {
            channel.hear(self.monotonic_now.load(Ordering::SeqCst));
        }
        if self.any_absent.is_set() {
            self.health.lock(rt).note_voice(peer);
        }
    }

    /// An acknowledgement of that peer was refused, up to that number. Where it is of more than was posted to the peer, the peer is
    /// greeted anew: the folder may be an old copy.
    pub fn doubt_ack(&self, peer: NodeId, number: u64) {
        if let Some(channel) = self.channel_to(peer) {
            if is_old_copy(number, channel.marks().posted()) {
                channel.suspect(self.seconds());
            }
        }
    }

    /// An acknowledgement of that peer was accepted. Whether it was taken for absent, and isn't any longer.
    pub fn hear_ack<R: Wait>(&self, rt: &R, peer: NodeId) -> bool {
        if !self.any_absent.is_set() {
            return false;
        }
        self.health.lock(rt).hear_ack(peer)
    }

    /// Has the flusher put out the last answer of a session again.
    pub fn again<R: Wait>(&self, rt: &R, session: u64) {
        self.wishes.lock(rt).again(session);
        self.grants.make();
        self.waker.wake();
    }
}
