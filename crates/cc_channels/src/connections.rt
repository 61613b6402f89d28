//! The connections that are open, and which of them asked last in each session.

use crate::at_once::write_at_once;
use crate::offer::offer;
use cc_connections::Flag;
use cc_ops::Asked;
use cc_policies::{Access, Admitted, LastAsks, Origin, Routes, Speakers, Spoken};
use cc_views::{NoMemory, NodeId};
use crossbeam_channel::Sender;
use std::alloc::Global;
use std::collections::BTreeMap;
use std::net::{Shutdown, TcpStream};
use std::sync::atomic::{AtomicU64, Ordering};
use std::sync::{Arc, Condvar, Mutex, Wait};

// How many bytes wait for one connection at most: 262,144 as anywhere, and a round's 32 replies of 55,077 bytes at most, which
// one turn may pass on to a connection that has 32 sessions.
const MOST_WAITING: u64 = 262_144 + 32 * 55_077;

/// One connection: its socket, and the channel to its writer. Whoever has bytes for its client writes what the socket takes at once,
/// and leaves the rest to the writer.
#[derive(Drop)]
pub struct Connection {
    stream: Arc<TcpStream>,
    out: Sender<Vec<u8>>,
    // How many bytes wait for the writer. It writes nothing where none do.
    waiting: Arc<AtomicU64>,
    // Who holds it writes, or has more bytes wait.
    turn: Mutex<()>,
    // It is closed.
    over: Flag,
}

impl Connection {
    pub fn new(stream: Arc<TcpStream>, out: Sender<Vec<u8>>, waiting: Arc<AtomicU64>) -> Self {
        Connection {
            stream,
            out,
            waiting,
            turn: Mutex::new(()),
            over: Flag::new(),
        }
    }

    /// The flag that tells whether it is closed.
    pub fn over(&self) -> &Flag {
        &self.over
    }

    /// What comes over the connection.
    pub fn reader(&self) -> &TcpStream {
        &self.stream
    }

    /// Passes bytes on, without waiting. Where too much waits already its client reads too slowly, and it is closed.
    pub fn pass<R: Wait>(&self, rt: &R, bytes: Vec<u8>) {
        let turn = self.turn.lock(rt);
        if !self.write_or_offer(rt, bytes) {
            self.close();
        }
        drop(turn);
    }

    /// Passes bytes on, and waits for room: only the worker of this very connection calls it.
    pub fn pass_in_turn<R: Wait>(&self, rt: &R, bytes: Vec<u8>) {
        let turn = self.turn.lock(rt);
        if self.is_idle() {
            if !self.write_or_offer(rt, bytes) {
                self.close();
            }
            drop(turn);
            return;
        }
        // What waits from now on keeps others from writing.
        self.waiting.fetch_add(bytes.len() as u64, Ordering::SeqCst);
        drop(turn);
        drop(self.out.send(rt, bytes));
    }

    // Whether nothing waits for the writer, which then has written all that it took.
    fn is_idle(&self) -> bool {
        self.waiting.load(Ordering::SeqCst) == 0
    }

    // Writes what the socket takes at once, unless something waits already, and leaves the rest to the writer. False where that can't
    // be. It is called by who has the turn.
    fn write_or_offer<R: Wait>(&self, rt: &R, bytes: Vec<u8>) -> bool {
        let mut bytes = bytes;
        if self.is_idle() {
            let written = write_at_once(&self.stream, bytes.as_slice());
            if written == bytes.len() {
                drop(bytes);
                return true;
            }
            bytes.drain(..written);
        }
        let waiting = self.waiting.fetch_add(bytes.len() as u64, Ordering::SeqCst);
        if waiting > MOST_WAITING {
            drop(bytes);
            return false;
        }
        offer(rt, &self.out, bytes)
    }

    /// Ends reads and writes that wait.
    pub fn close(&self) {
        self.over.set();
        let _ = self.stream.shutdown(Shutdown::Both);
    }
}

// How many asks are judged at once at most: one of each connection.
const MOST_JUDGED: usize = Routes::MAX_CONNECTIONS + Routes::MAX_SPARE;

#[derive(Drop)]
struct Table {
    connections: BTreeMap<u64, Arc<Connection>>,
    // The sockets of connections whose worker has ended, and whose writer hasn't.
    leaving: BTreeMap<u64, Arc<TcpStream>>,
    routes: Routes,
    speakers: Speakers,
    asks: LastAsks,
    // The sessions of which an ask is judged now: one ask of a session at a time.
    judged: Vec<u64>,
    is_closed: bool,
}

/// What became of an ask that was judged.
#[derive(Clone, Copy, PartialEq, Eq)]
pub enum Verdict {
    /// It was taken in.
    Taken,
    /// It is its session's last request once more.
    Repeat,
    /// It was refused otherwise.
    Refused,
}

impl Table {
    // None where there are so many connections, or no memory.
    fn enter(
        &mut self,
        connection: Arc<Connection>,
        from: Origin,
        access: Access,
    ) -> Option<Admitted> {
        if self.is_closed {
            drop(connection);
            return None;
        }
        let Some(admitted) = self.routes.enter(from, access) else {
            drop(connection);
            return None;
        };
        let inserted = self.connections.insert(admitted.ticket, connection);
        let is_in = inserted.is_ok();
        drop(inserted);
        if is_in {
            return Some(admitted);
        }
        self.routes.leave(admitted.ticket);
        None
    }

    // What a frame of a node makes of its connection. An older one of the same node is closed.
    fn speak(&mut self, node: NodeId, ticket: u64) -> Spoken {
        let spoken = self.speakers.speak(node, ticket);
        if let Spoken::Instead(older) = spoken {
            if let Some(connection) = self.connections.get(&older) {
                connection.close();
            }
        }
        spoken
    }

    fn connection_of(&self, session: u64, request: u64) -> Option<Arc<Connection>> {
        let ticket = self.routes.connection_of(session, request)?;
        Arc::try_clone(self.connections.get(&ticket)?).ok()
    }

    // Whether an ask of that session may be judged now. It is, from then on.
    fn claim(&mut self, session: u64) -> bool {
        if self.judged.contains(&session) {
            return false;
        }
        self.judged.push(session).is_ok()
    }

    // What an ask that was judged leaves: whether it repeats its session's last request with another command.
    fn judge(&mut self, ask: &Asked, place: Option<u64>, verdict: Verdict) -> bool {
        self.judged.retain(|session| *session != ask.session);
        let differs = verdict == Verdict::Repeat && self.asks.differs(ask);
        if verdict == Verdict::Taken {
            self.asks.remember(ask);
        }
        if let Some(place) = place {
            if verdict == Verdict::Refused || differs {
                self.routes.take_back(place);
            } else {
                self.routes.take(ask.session, place);
            }
        }
        differs
    }

    // The worker of a connection has ended: nothing is routed there any more, and its writer has what waits.
    fn end(&mut self, ticket: u64) {
        self.routes.end(ticket);
        self.speakers.leave(ticket);
        let Some(connection) = self.connections.remove(&ticket) else {
            return;
        };
        let is_kept = match Arc::try_clone(&connection.stream) {
            Ok(stream) => self.leaving.insert(ticket, stream).is_ok(),
            Err(_) => false,
        };
        if !is_kept || self.is_closed {
            connection.close();
        }
        drop(connection);
    }

    // The writer of a connection has ended too: another one may come in its place.
    fn leave(&mut self, ticket: u64) {
        drop(self.leaving.remove(&ticket));
        self.routes.leave(ticket);
    }

    fn close(&mut self) {
        self.is_closed = true;
        for connection in self.connections.values() {
            connection.close();
        }
        for stream in self.leaving.values() {
            let _ = stream.shutdown(Shutdown::Both);
        }
    }
}

/// All open connections.
#[derive(Drop)]
pub struct Connections {
    table: Mutex<Table>,
    // An ask was judged.
    judged: Condvar,
}

impl Connections {
    pub fn new(alloc: Global) -> Result<Self, NoMemory> {
        let routes = Routes::new(alloc)?;
        let Ok(speakers) = Speakers::new(alloc) else {
            drop(routes);
            return Err(NoMemory);
        };
        let Ok(asks) = LastAsks::new(alloc) else {
            drop((routes, speakers));
            return Err(NoMemory);
        };
        let Ok(judged) = Vec::with_capacity(alloc, MOST_JUDGED) else {
            drop((routes, speakers, asks));
            return Err(NoMemory);
        };
        Ok(Connections {
            table: Mutex::new(Table {
                connections: BTreeMap::new(alloc),
                leaving: BTreeMap::new(alloc),
                routes,
                speakers,
                asks,
                judged,
                is_closed: false,
            }),
            judged: Condvar::new(),
        })
    }

    /// Lets a connection from there in, which may bring so much. None where there are too many.
    pub fn enter<R: Wait>(
        &self,
        rt: &R,
        connection: Arc<Connection>,
        from: Origin,
        access: Access,
    ) -> Option<Admitted> {
        self.table.lock(rt).enter(connection, from, access)
    }

    /// The worker of the connection with that ticket has ended, and so have its routes. It counts among those that are open
    /// until its writer has ended too.
    pub fn end<R: Wait>(&self, rt: &R, ticket: u64) {
        self.table.lock(rt).end(ticket);
    }

    /// The connection with that ticket is gone.
    pub fn leave<R: Wait>(&self, rt: &R, ticket: u64) {
        self.table.lock(rt).leave(ticket);
    }

    /// Whether an open connection brings what a node sends.
    pub fn has_speaker<R: Wait>(&self, rt: &R, node: NodeId) -> bool {
        self.table.lock(rt).speakers.has_speaker(node)
    }

    /// A frame of a node came over the connection with that ticket. An older connection of that node is closed.
    pub fn speak<R: Wait>(&self, rt: &R, node: NodeId, ticket: u64) -> Spoken {
        self.table.lock(rt).speak(node, ticket)
    }

    /// An ask that came over the connection with that ticket is judged from now on, and its reply goes there: the place of its
    /// route, if it has one. It waits while another ask of its session is judged. One that repeats its session's last request with
    /// another command has no route, since that reply is another one's.
    pub fn begin_ask<R: Wait>(&self, rt: &R, ask: &Asked, ticket: u64) -> Option<u64> {
        let mut table = self.table.lock(rt);
        for _ in rt.forever() {
            if table.claim(ask.session) {
                break;
            }
            table = self.judged.wait(rt, table);
        }
        if table.asks.differs(ask) {
            return None;
        }
        table.routes.route(ask.session, ask.request, ticket)
    }

    /// The ask with a route at that place was judged. One that was taken in is its session's last one. One that was refused leaves
    /// its routes as they were, unless it is the last one once more. Whether it repeats that with another command.
    pub fn end_ask<R: Wait>(
        &self,
        rt: &R,
        ask: &Asked,
        place: Option<u64>,
        verdict: Verdict,
    ) -> bool {
        let differs = self.table.lock(rt).judge(ask, place, verdict);
        self.judged.notify_all();
        differs
    }

    /// Whether the reply to one of these goes to the connection with that ticket.
    pub fn awaits<R: Wait>(&self, rt: &R, ticket: u64, unanswered: &[Asked]) -> bool {
        let table = self.table.lock(rt);
        unanswered.iter().any(|asked| table.routes.connection_of(asked.session, asked.request)
            == Some(ticket))
    }

    /// Passes a reply on to the connection that it is for.
    pub fn pass<R: Wait>(&self, rt: &R, session: u64, request: u64, bytes: Vec<u8>) {
        let connection = self.table.lock(rt).connection_of(session, request);
        if let Some(connection) = connection {
            connection.pass(rt, bytes);
            drop(connection);
        }
    }

    /// Closes the connection that a reply is for, which is lost for want of memory: so whoever asked has to ask again.
    pub fn give_up<R: Wait>(&self, rt: &R, session: u64, request: u64) {
        let connection = self.table.lock(rt).connection_of(session, request);
        if let Some(connection) = connection {
            connection.close();
            drop(connection);
        }
    }

    /// Closes all connections, and takes no further one.
    pub fn close<R: Wait>(&self, rt: &R) {
        self.table.lock(rt).close();
    }
}
