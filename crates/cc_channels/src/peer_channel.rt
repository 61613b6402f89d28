//! The channel to a peer: what is for it, and how its connection stands.

ghost use Rattle.std.specs.Prelude.{◌≤◌};

use crate::marks::Marks;
use crate::offer::offer;
use crate::peer_socket::PeerSocket;
use crate::trouble::{Trouble, Troubles};
use cc_connections::{Address, Flag, Peer, Reason};
use cc_messages::PostRange;
use cc_policies::{Due, Parcel, Withheld};
use cc_views::NodeId;
use crossbeam_channel::{Receiver, Sender, bounded};
use std::alloc::{AllocError, Global};
use std::net::{IpAddr, TcpStream};
use std::sync::atomic::{AtomicU64, Ordering};
use std::sync::{Arc, Mutex, Wait};

// After so many seconds in which a peer was late or silent, it is connected to anew.
const MOST_SILENCE: u64 = 5;

/// The channel to a peer.
#[derive(Drop)]
pub struct PeerChannel {
    pub peer: NodeId,
    // Wakes its writer, which writes what the socket didn't take at once.
    wake: Sender<()>,
    // Something was put on it that isn't written.
    is_due: Flag,
    // Nothing is put on it.
    is_muted: Flag,
    // The numbers of the last posts, which are for others.
    withheld: Mutex<Withheld>,
    // What it shares with its writer.
    way: Arc<Way>,
    // Something was put on it since the last heartbeat was due.
    is_used: Flag,
    // For how many seconds the peer has been late or silent.
    silence: AtomicU64,
    // In which second, from 1 on, it was last said that the peer has heard more than was posted to it.
    suspected: AtomicU64,
    // When a frame of the peer came last, in milliseconds by a clock that never goes back, and since when it is taken for absent, in
    // milliseconds since 1970. 0 for never.
    last_heard: AtomicU64,
    absent_since: AtomicU64,
}

// Where a peer listens.
#[derive(Clone, Copy)]
struct Place {
    address: Address,
    // The IP that its name led to when it was last connected to. None where it wasn't, or has no name.
    found: Option<IpAddr>,
}

/// How the connection to a peer stands, and where the peer listens.
#[derive(Drop)]
pub struct Way {
    /// What the node and the peer have of each other's posts.
    pub marks: Marks,
    socket: Mutex<PeerSocket>,
    place: Mutex<Place>,
    // Why the node and the peer don't take each other.
    troubles: Mutex<Troubles>,
    // The peer is to be connected to anew.
    is_stale: Flag,
    // The peer was connected to, and was sent nothing again since.
    is_new: Flag,
    // Since when it is connected to, in milliseconds since 1970. 0 where it isn't.
    connected_since: AtomicU64,
}

impl Way {
    // To a peer that listens there, which isn't connected to yet.
    fn new(alloc: Global, address: Address) -> Self {
        let place = Place {
            address,
            found: None,
        };
        Way {
            marks: Marks::new(),
            socket: Mutex::new(PeerSocket::new(alloc)),
            place: Mutex::new(place),
            troubles: Mutex::new(Troubles::new()),
            is_stale: Flag::new(),
            is_new: Flag::new(),
            connected_since: AtomicU64::new(0),
        }
    }

    /// Where the peer listens.
    pub fn address<R: Wait>(&self, rt: &R) -> Address {
        let place = self.place.lock(rt);
        place.address
    }

    // The peer listens there from now on: it is connected to anew. Whether it listened elsewhere.
    fn put_address<R: Wait>(&self, rt: &R, address: Address) -> bool {
        let mut place = self.place.lock(rt);
        let is_new = place.address != address;
        if is_new {
            *place = Place {
                address,
                found: None,
            };
        }
        drop(place);
        if is_new {
            self.is_stale.set();
        }
        is_new
    }

    /// That address led to the machine at the far end of a stream.
    pub fn find<R: Wait>(&self, rt: &R, address: Address, stream: &TcpStream) {
        let Ok(found) = stream.peer_addr() else {
            return;
        };
        let mut place = self.place.lock(rt);
        if place.address == address {
            place.found = Some(found.ip().to_canonical());
        }
    }

    // Whether the peer listens at that host, as far as is known: at its IP, or where its name led.
    fn is_at<R: Wait>(&self, rt: &R, host: IpAddr) -> bool {
        let place = self.place.lock(rt);
        match place.address.ip() {
            Some(ip) => ip.to_canonical() == host,
            None => place.found == Some(host),
        }
    }

    /// Whether the peer is to be connected to anew. It is told once.
    pub fn take_stale(&self) -> bool {
        self.is_stale.take()
    }

    /// A greeting came to that: why the peer doesn't take the node, or None where it does.
    pub fn put_trouble<R: Wait>(&self, rt: &R, trouble: Option<Trouble>) {
        self.troubles.lock(rt).put_there(trouble);
    }

    /// The peer is connected to since then, in milliseconds since 1970. It may lack what went into the connection before.
    pub fn connect<R: Wait>(&self, rt: &R, stream: Arc<TcpStream>, since: u64) {
        self.socket.lock(rt).connect(stream);
        self.connected_since.store(since, Ordering::SeqCst);
        self.is_new.set();
    }

    /// The peer isn't connected to any longer. What waits for it is lost.
    pub fn disconnect<R: Wait>(&self, rt: &R) {
        self.socket.lock(rt).disconnect();
        self.connected_since.store(0, Ordering::SeqCst);
    }

    /// What the peer's writer is to write next. None where there is nothing, until it is woken.
    pub fn next<R: Wait>(&self, rt: &R, me: NodeId) -> Option<Vec<u8>> {
        self.socket.lock(rt).next(me)
    }
}

// A moment, which is none where it is 0.
fn moment(millis: u64) -> Option<u64> {
    if millis == 0 { None } else { Some(millis) }
}

impl PeerChannel {
    /// Puts a parcel of the node `me` on the channel, which is written by the next call of `write`. What finds no room is lost: links
    /// resend.
    pub fn put<R: Wait>(&self, rt: &R, me: NodeId, parcel: Parcel) {
        if self.is_muted.is_set() {
            drop(parcel);
        } else {
            self.is_used.set();
            self.push(rt, me, parcel);
        }
    }

    fn push<R: Wait>(&self, rt: &R, me: NodeId, parcel: Parcel) {
        self.is_due.set();
        let is_left = self.way.socket.lock(rt).put(me, parcel);
        self.wake_if(rt, is_left);
    }

    /// Writes what was put of the node `me`, as much as the socket takes at once. The peer's writer writes the rest.
    pub fn write<R: Wait>(&self, rt: &R, me: NodeId) {
        if self.is_due.take() {
            let is_left = self.way.socket.lock(rt).write(me);
            self.wake_if(rt, is_left);
        }
    }

    // Wakes the writer where something is left for it.
    fn wake_if<R: Wait>(&self, rt: &R, is_left: bool) {
        if is_left {
            let _ = offer(rt, &self.wake, ());
        }
    }

    // Whether the peer is connected to, and has taken all that was put.
    fn is_idle<R: Wait>(&self, rt: &R) -> bool {
        self.way.socket.lock(rt).is_idle()
    }

    /// What is to be written once a post is put for the peer under this number.
    pub fn due<R: Wait>(&self, rt: &R, number: u64, is_for: bool) -> Due
        requires { 1 ≤ number }
    {
        self.withheld.lock(rt).put(number, is_for)
    }

    /// The numbers that were withheld from the peer, which is to be told of them now.
    pub fn take_withheld<R: Wait>(&self, rt: &R) -> Option<PostRange> {
        self.withheld.lock(rt).take()
    }

    /// How many numbers are withheld from the peer.
    pub fn withheld<R: Wait>(&self, rt: &R) -> u64 {
        self.withheld.lock(rt).len()
    }

    /// A second has passed: where nothing else was put on the channel in it, the peer is told again up to which number it was heard,
    /// as a sign of life of the node `me`.
    pub fn beat<R: Wait>(&self, rt: &R, me: NodeId, heard: u64) {
        if !self.is_used.take() && self.is_idle(rt) {
            self.push(rt, me, Parcel::Ack(heard));
        }
    }

    /// Mutes the channel where something waits on it, or its peer isn't connected to.
    pub fn mute<R: Wait>(&self, rt: &R) {
        self.is_muted.put(!self.is_idle(rt));
    }

    /// Mutes the channel, unless its peer was connected to since the last call.
    pub fn mute_unless_new(&self) {
        self.is_muted.put(!self.way.is_new.take());
    }

    pub fn unmute(&self) {
        self.is_muted.put(false);
    }

    /// So many seconds have passed, at whose end the peer is late or silent, or neither: where it stays so, its connection may lead
    /// to a machine that vanished.
    pub fn note_progress(&self, is_behind: bool, seconds: u64) {
        if !is_behind {
            self.silence.store(0, Ordering::SeqCst);
            return;
        }
        let silence = self.silence.fetch_add(seconds, Ordering::SeqCst);
        if silence.saturating_add(seconds) >= MOST_SILENCE {
            self.silence.store(0, Ordering::SeqCst);
            self.way.is_stale.set();
        }
    }

    /// Somebody says in that second that the peer has heard more than was posted to it. So the peer is connected to anew, once in a
    /// second: what it tells itself counts.
    pub fn suspect(&self, second: u64) {
        let second = second.saturating_add(1);
        if self.suspected.swap(second, Ordering::SeqCst) != second {
            self.way.is_stale.set();
        }
    }

    /// Where the peer listens.
    pub fn address<R: Wait>(&self, rt: &R) -> Address {
        self.way.address(rt)
    }

    /// The peer listens there from now on, and is connected to there. Whether it listened elsewhere.
    pub fn put_address<R: Wait>(&self, rt: &R, address: Address) -> bool {
        self.way.put_address(rt, address)
    }

    // Whether the peer listens at that host, as far as is known.
    pub(crate) fn is_at<R: Wait>(&self, rt: &R, host: IpAddr) -> bool {
        self.way.is_at(rt, host)
    }

    /// Since when the peer is connected to, in milliseconds since 1970.
    pub fn connected_since(&self) -> Option<u64> {
        moment(self.way.connected_since.load(Ordering::SeqCst))
    }

    /// What the node and the peer have of each other's posts.
    pub fn marks(&self) -> &Marks {
        &self.way.marks
    }

    /// The peer greeted: why it isn't taken, or None where it is.
    pub fn put_unwelcome<R: Wait>(&self, rt: &R, reason: Option<Reason>) {
        self.way.troubles.lock(rt).put_here(reason);
    }

    /// Why the node and the peer don't take each other, in words behind the peer's name. None where they do, as far as is known.
    pub fn trouble<R: Wait>(&self, rt: &R) -> Option<&'static str> {
        self.way.troubles.lock(rt).words()
    }

    /// A frame of the peer came at that moment, in milliseconds by a clock that never goes back.
    pub fn hear(&self, now: u64) {
        self.last_heard.store(now.max(1), Ordering::SeqCst);
    }

    /// When a frame of the peer came last, by that clock.
    pub fn last_heard(&self) -> Option<u64> {
        moment(self.last_heard.load(Ordering::SeqCst))
    }

    /// The peer is taken for absent since that moment, in milliseconds since 1970; at 0 it isn't.
    pub fn put_absent(&self, since: u64) {
        self.absent_since.store(since, Ordering::SeqCst);
    }

    /// Since when the peer is taken for absent.
    pub fn absent_since(&self) -> Option<u64> {
        moment(self.absent_since.load(Ordering::SeqCst))
    }

    /// Whether it takes nothing now.
    pub fn is_muted(&self) -> bool {
        self.is_muted.is_set()
    }
}

/// What the writer of a peer has of its channel.
#[derive(Drop)]
pub struct FarEnd {
    pub peer: NodeId,
    /// Wakes the writer.
    pub woken: Receiver<()>,
    pub way: Arc<Way>,
}

/// The channel to a peer, and what its writer has of it.
pub(crate) fn channel_to(alloc: Global, peer: &Peer) -> Result<(PeerChannel, FarEnd), AllocError> {
    let way = Arc::new(alloc, Way::new(alloc, peer.address)).or(Err(AllocError))?;
    let Ok(seen) = Arc::try_clone(&way) else {
        drop(way);
        return Err(AllocError);
    };
    let Ok((wake, woken)) = bounded(alloc, 1) else {
        drop((way, seen));
        return Err(AllocError);
    };
    let channel = PeerChannel {
        peer: peer.id,
        wake,
        is_due: Flag::new(),
        is_muted: Flag::new(),
        withheld: Mutex::new(Withheld::new()),
        way,
        is_used: Flag::new(),
        silence: AtomicU64::new(0),
        suspected: AtomicU64::new(0),
        last_heard: AtomicU64::new(0),
        absent_since: AtomicU64::new(0),
    };
    let end = FarEnd {
        peer: peer.id,
        woken,
        way: seen,
    };
    Ok((channel, end))
}
