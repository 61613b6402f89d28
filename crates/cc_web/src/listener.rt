//! The listener for clients that speak HTTP.

use crate::conversation::Conversation;
use crate::desk::Desk;
use crate::line::Line;
use crate::request::WebSettings;
use crate::service::WebService;
use crate::timed_stream::{TimedStream, is_waiting};
use cc_connections::{Address, Flag, Places, connect};
use http_server::{Config, Connection};
use http1::Limits;
use log::{Log, error, info};
use std::alloc::Global;
use std::hash::RandomState;
use std::io::Read;
use std::net::{Net, Shutdown, TcpListener, TcpStream};
use std::sync::Wait;
use std::thread::{Scope, Threads};
use std::time::{Clock, Duration};
use std::{io, thread};

// Where a log's filter finds the notes, as before they stood in this crate.
const TARGET: &str = "cc_gateway::serving";

// How many connections are served at once at most.
const MOST_CONNECTIONS: u64 = 256;

// How long a connection may say nothing, how long a request may take from its first byte on, and how long a client may take for
// an answer, in seconds.
const IDLE_S: u64 = 60;

const REQUEST_S: u64 = 10;

const ANSWER_S: u64 = 10;

// For how long what comes behind the last request is taken, in seconds.
const DRAIN_S: u64 = 1;

// How long the acceptor pauses after a connection that can't be accepted, in milliseconds.
const PAUSE_MS: u64 = 50;

const CONFIG: Config = Config {
    limits: Limits {
        max_head_len: 8_192,
        max_extensions_len: 1_024,
        max_trailers_len: 1_024,
    },
    max_body_len: 4_096,
    max_pending: 65_536,
    read_size: 4_096,
};

/// Who serves clients that speak HTTP.
#[derive(Drop)]
pub struct Gateway<'x> {
    pub alloc: Global,
    /// Where the node is asked.
    pub node: Address,
    pub settings: WebSettings<'x>,
    /// By what the names of headers are hashed.
    pub keys: RandomState,
    /// What ends it.
    pub over: &'x Flag,
    desk: Desk,
    places: Places,
}

impl<'x> Gateway<'x> {
    /// Nobody is served yet.
    pub fn new(
        alloc: Global,
        node: Address,
        settings: WebSettings<'x>,
        keys: RandomState,
        over: &'x Flag,
    ) -> Self {
        Gateway {
            alloc,
            node,
            settings,
            keys,
            over,
            desk: Desk::new(settings.own_sessions),
            places: Places::new(MOST_CONNECTIONS),
        }
    }
}

/// Listens there: where it is a name, at the first place of that name where it can. None where it can't, which is noted.
pub fn listen<R>(rt: &R, address: Address) -> Option<TcpListener>
where
    R: Net<Listener = TcpListener, Stream = TcpStream> + Log,
{
    match TcpListener::bind(rt, address) {
        Ok(listener) => {
            note_served(rt, address);
            Some(listener)
        }
        Err(why) => {
            note_refused(rt, address, &why);
            None
        }
    }
}

fn note_served<R: Log>(rt: &R, address: Address) {
    info!(rt; target: TARGET, "clients that speak HTTP are served at {}", address);
}

fn note_refused<R: Log>(rt: &R, address: Address, why: &io::Error) {
    error!(rt; target: TARGET, "can't listen at {}: {}", address, why);
}

/// Sets the flag, and wakes the acceptor, which looks at it.
pub fn end_web<R: Net<Stream = TcpStream>>(rt: &R, over: &Flag, listener: &TcpListener) {
    over.set();
    if let Ok(address) = listener.local_addr() {
        let _ = TcpStream::connect_timeout(rt, &address, Duration::from_secs(1));
    }
}

/// Serves connections until the flag is set and one more comes, and waits for those that are open.
pub fn serve_web<R>(rt: &R, gateway: &Gateway<'_>, listener: &TcpListener)
where
    R: Net<Listener = TcpListener, Stream = TcpStream> + Threads + Wait + Clock + Sync,
{
    thread::scope(thread::scope_env(), rt, |scope| -> () {
        accept_all(scope, rt, gateway, listener);
    });
}

// Starts a thread for each connection. Where too many are open, or it can't be made, the connection is closed.
fn accept_all<'s, 'e: 's, R>(
    scope: &'s Scope<'s, &'e ()>,
    rt: &'e R,
    gateway: &'e Gateway<'e>,
    listener: &TcpListener,
)
where
    R: Net<Listener = TcpListener, Stream = TcpStream> + Threads + Wait + Clock + Sync,
{
    for _ in rt.forever() {
        let accepted = listener.accept();
        if gateway.over.is_set() {
            return;
        }
        let Ok((stream, _)) = accepted else {
            thread::sleep(rt, Duration::from_millis(PAUSE_MS));
            continue;
        };
        if !gateway.places.enter() {
            continue;
        }
        if scope.spawn(move || attend(rt, gateway, &stream)).is_err() {
            gateway.places.leave();
        }
    }
    unreachable!()
}

fn attend<R>(rt: &R, gateway: &Gateway<'_>, stream: &TcpStream)
where
    R: Net<Stream = TcpStream> + Wait + Clock,
{
    let _ = stream.set_nodelay(true);
    if let Ok(upstream) = connect(rt, &gateway.node, Duration::from_secs(1)) {
        let _ = upstream.set_nodelay(true);
        serve_over(rt, gateway, stream, &upstream);
        let _ = upstream.shutdown(Shutdown::Both);
        drop(upstream);
    }
    let _ = stream.shutdown(Shutdown::Both);
    gateway.places.leave();
}

fn serve_over<R: Wait + Clock>(
    rt: &R,
    gateway: &Gateway<'_>,
    stream: &TcpStream,
    upstream: &TcpStream,
) {
    let alloc = gateway.alloc;
    let Some(asking) = Line::over(rt, alloc, upstream, &gateway.desk) else {
        return;
    };
    let service = WebService {
        asking,
        settings: gateway.settings,
        alloc,
    };
    let mut conversation = Conversation {
        service,
        has_answered: false,
    };
    let mut http = Connection::new(alloc, gateway.keys, CONFIG);
    let mut timed = TimedStream::new(rt, stream, gateway.over);
    converse(&mut http, &mut conversation, &mut timed);
    // What its buffers still have goes to nobody.
    drop(http.into_buffers());
    drop(conversation);
    let _ = stream.shutdown(Shutdown::Write);
    drain(&mut timed);
}

// Reads, answers and writes until the connection is done, or takes too long.
fn converse<R: Wait + Clock>(
    http: &mut Connection,
    conversation: &mut Conversation<'_, R>,
    stream: &mut TimedStream<'_, R>,
) {
    stream.allow(Duration::from_secs(IDLE_S));
    let mut has_begun = false;
    for _ in 0..u64::MAX {
        http.advance(conversation);
        if http.is_done() {
            return;
        }
        if http.wants_write() {
            stream.allow(Duration::from_secs(ANSWER_S));
            if !write_all(http, stream) {
                return;
            }
            // What is written without an answer asks for the rest of a request.
            has_begun = !conversation.has_answered;
            conversation.has_answered = false;
            let next = if has_begun { REQUEST_S } else { IDLE_S };
            stream.allow(Duration::from_secs(next));
            continue;
        }
        let Some(count) = read_some(http, stream) else {
            return;
        };
        if !has_begun && count > 0 {
            has_begun = true;
            stream.allow(Duration::from_secs(REQUEST_S));
        }
    }
}

// Writes what is pending. Whether all was taken in time.
fn write_all<R: Clock>(http: &mut Connection, stream: &TimedStream<'_, R>) -> bool {
    for _ in 0..u64::MAX {
        if !http.wants_write() {
            return true;
        }
        let Some(mut to) = stream.to_write() else {
            return false;
        };
        match http.write_to(&mut to) {
            Ok(count) if count > 0 => {}
            _ => return false,
        }
    }
    false
}

// Reads once something comes. None where nothing comes in time, or a read fails.
fn read_some<R: Clock>(http: &mut Connection, stream: &TimedStream<'_, R>) -> Option<usize> {
    for _ in 0..u64::MAX {
        let mut from = stream.to_read()?;
        match http.read_from(&mut from) {
            Err(why) if is_waiting(why.kind()) => {}
            read => return read.ok(),
        }
    }
    None
}

// Takes what still comes, for a second and up to 64 KiB: a connection that is closed over bytes that nobody read takes its answer
// with it.
fn drain<R: Clock>(stream: &mut TimedStream<'_, R>) {
    stream.allow(Duration::from_secs(DRAIN_S));
    let mut piece = [0; 1024];
    for _ in 0..64 {
        let Some(mut from) = stream.to_read() else {
            return;
        };
        match from.read(&mut piece) {
            Ok(count) if count > 0 => {}
            Err(why) if is_waiting(why.kind()) => {}
            _ => return,
        }
    }
}
