//! The dialler of a peer: it connects to the peer, greets it, and writes what the flusher left.

use crate::frame_bytes::bytes_of;
use crate::hello_exchange::{FirstTry, HelloExchange, OldCopy};
use crate::noted::Noted;
use crate::peer_channel::FarEnd;
use crate::timed_input::{Patience, TimedInput};
use crate::trouble::Trouble;
use crate::waker::Waker;
use crate::writer::millis;
use cc_connections::{Address, ConnectFault, Flag, Frame, connect};
use cc_policies::{Greeter, Met, PEER_ANSWER_MS, ReceivedFrames, WRITE_BYTES, met_by};
use cc_views::NodeId;
use log::Log;
use std::alloc::{AllocError, Global};
use std::io::{ErrorKind, Write};
use std::net::{Net, TcpStream};
use std::sync::{Arc, Wait};
use std::thread;
use std::time::{Clock, Duration};

// How long a dialler waits before it looks at its flag, or tries to connect again, in milliseconds.
const PAUSE_MS: u64 = 100;

// How long it waits before it greets a peer again that doesn't take the node, in milliseconds.
const REFUSED_MS: u64 = 500;

/// Who dials, and by what.
#[derive(Drop)]
pub struct Dialler<'x> {
    pub alloc: Global,
    pub me: NodeId,
    pub hello_exchange: &'x HelloExchange,
    /// The flusher sends again what a peer hasn't acknowledged once that is connected to.
    pub waker: &'x Waker,
    /// What ends it.
    pub over: &'x Flag,
}

/// Connects to a peer, again after a failure, until the flag is set. Where the node greets, it sends the peer nothing before that
/// has taken it. Then it wakes the flusher, which sends again what the peer hasn't acknowledged, and writes what that leaves. It
/// notes when the peer is connected to, and when it isn't any longer: at most one of each a second, and the last note says what is so
/// a second later. That the peer's name isn't found, or that it doesn't take the node, it notes once, until it is connected again.
pub fn dial_peer<R: Wait + Clock + Log + Net<Stream = TcpStream>>(
    rt: &R,
    dialler: &Dialler<'_>,
    end: FarEnd,
) {
    let mut noted = Noted::new(dialler.me, end.peer);
    let mut first = FirstTry::new(dialler.hello_exchange);
    for _ in rt.forever() {
        if dialler.over.is_set() {
            return;
        }
        let _ = end.way.take_stale();
        let address = end.way.address(rt);
        let met = dial(rt, dialler, &end, address, &mut noted, &mut first);
        first.end(rt);
        noted.lose(rt, address);
        thread::sleep(rt, Duration::from_millis(pause_after(met)));
    }
    unreachable!()
}

// How long it waits until it tries again, after what came of a try.
const fn pause_after(met: Option<Met>) -> u64 {
    match met {
        None | Some(Met::Welcome) => PAUSE_MS,
        Some(_) => REFUSED_MS,
    }
}

// Connects to a peer, and writes while it is connected to. What came of the greeting, if it connects.
fn dial<R: Wait + Clock + Log + Net<Stream = TcpStream>>(
    rt: &R,
    dialler: &Dialler<'_>,
    end: &FarEnd,
    address: Address,
    noted: &mut Noted,
    first: &mut FirstTry<'_>,
) -> Option<Met> {
    match connect(rt, &address, Duration::from_secs(1)) {
        Ok(stream) => {
            end.way.find(rt, address, &stream);
            let met = greet(rt, dialler, end, &stream);
            note_met(rt, dialler, end, &stream, address, noted, met);
            // Who waits to ask finds then that the folder is an old copy, if it is.
            first.end(rt);
            if met == Met::Welcome || met == Met::Doubled {
                let _ = write_over(rt, dialler, end, stream);
                end.way.disconnect(rt);
            } else {
                drop(stream);
            }
            Some(met)
        }
        Err(ConnectFault::Unknown) => {
            noted.miss(rt, address);
            None
        }
        Err(_) => None,
    }
}

// Notes what came of a greeting.
fn note_met<R: Wait + Log>(
    rt: &R,
    dialler: &Dialler<'_>,
    end: &FarEnd,
    stream: &TcpStream,
    address: Address,
    noted: &mut Noted,
    met: Met,
) {
    match met {
        Met::Welcome | Met::Doubled => {
            end.way.put_trouble(rt, None);
            noted.connect(rt, address);
            noted.double(rt, address, met == Met::Doubled);
        }
        Met::OldCopy { heard } => dialler.hello_exchange.find(OldCopy {
            peer: end.peer,
            heard,
            posted: end.way.marks.posted(),
        }),
        Met::Unwelcome { reason, node } => {
            let trouble = Trouble::Unwelcome(reason);
            end.way.put_trouble(rt, Some(trouble));
            noted.refuse(rt, stream, address, node, trouble);
        }
        Met::NoAnswer => {
            end.way.put_trouble(rt, Some(Trouble::NoAnswer));
            noted.ignore(rt, address);
        }
    }
}

// Greets a peer, where the node greets. What came of it: who isn't greeted takes the node.
fn greet<R: Clock>(rt: &R, dialler: &Dialler<'_>, end: &FarEnd, stream: &TcpStream) -> Met {
    let _ = stream.set_nodelay(true);
    let _ = stream.set_write_timeout(Some(Duration::from_millis(PEER_ANSWER_MS)));
    match dialler.hello_exchange.greeter() {
        Some(greeter) => greet_as(rt, dialler.alloc, greeter, end, stream),
        None => Met::Welcome,
    }
}

fn greet_as<R: Clock>(
    rt: &R,
    alloc: Global,
    greeter: &Greeter,
    end: &FarEnd,
    mut stream: &TcpStream,
) -> Met {
    let hello = greeter.hello_to(end.peer, end.way.marks.heard());
    let Ok(bytes) = bytes_of(alloc, &Frame::Hello(hello)) else {
        return Met::NoAnswer;
    };
    let written = stream.write_all(bytes.as_slice());
    drop(bytes);
    if written.is_err() {
        return Met::NoAnswer;
    }
    match answer_over(rt, alloc, stream) {
        // The number of posts is looked at now: no peer has heard more of them by then.
        Some(answer) => {
            let met = met_by(&answer, end.way.marks.posted());
            drop(answer);
            met
        }
        None => Met::NoAnswer,
    }
}

// The frame that a peer answers a greeting with, if one comes within its time.
fn answer_over<R: Clock>(rt: &R, alloc: Global, stream: &TcpStream) -> Option<Frame> {
    let time = Duration::from_millis(PEER_ANSWER_MS);
    let patience = Patience {
        silence: time,
        first_frame: time,
        frame: time,
    };
    let mut frames = ReceivedFrames::new(alloc, TimedInput::new(rt, stream, patience)).ok()?;
    let answer = frames.read_frame().ok();
    drop(frames);
    answer
}

// Shares a connection with the flusher, and writes what that leaves.
fn write_over<R: Wait + Clock>(
    rt: &R,
    dialler: &Dialler<'_>,
    end: &FarEnd,
    stream: TcpStream,
) -> Result<(), AllocError> {
    let stream = Arc::new(dialler.alloc, stream).or(Err(AllocError))?;
    let Ok(shared) = Arc::try_clone(&stream) else {
        drop(stream);
        return Err(AllocError);
    };
    end.way.connect(rt, shared, millis(rt));
    dialler.waker.connect();
    write_while(rt, dialler, end, &stream);
    drop(stream);
    Ok(())
}

// Writes until a write fails, the peer ends the connection, or a flag is set.
fn write_while<R: Wait + Clock>(rt: &R, dialler: &Dialler<'_>, end: &FarEnd, stream: &TcpStream) {
    for _ in rt.forever() {
        if dialler.over.is_set() || end.way.take_stale() {
            return;
        }
        let is_over = match end.way.next(rt, dialler.me) {
            Some(bytes) => !write_pieces(end, stream, bytes.as_slice(), dialler.over),
            None => is_ended_after(rt, end, stream),
        };
        if is_over {
            return;
        }
    }
    unreachable!()
}

// Writes bytes, unless a write fails or a flag is set meanwhile. Whether all are written.
fn write_pieces(end: &FarEnd, mut to: &TcpStream, bytes: &[u8], over: &Flag) -> bool {
    for piece in bytes.chunks(WRITE_BYTES) {
        if over.is_set() || end.way.take_stale() || to.write_all(piece).is_err() {
            return false;
        }
    }
    true
}

// Waits until the flusher leaves something. Whether nothing came for a while, and the peer has ended the connection.
fn is_ended_after<R: Wait + Clock>(rt: &R, end: &FarEnd, stream: &TcpStream) -> bool {
    let woken = end.woken.recv_timeout(rt, Duration::from_millis(PAUSE_MS));
    woken.is_err() && is_ended(stream)
}

// Whether the peer has ended the connection, of which a write would tell only at the second try.
fn is_ended(stream: &TcpStream) -> bool {
    if stream.set_nonblocking(true).is_err() {
        return false;
    }
    let is_ended = match stream.peek(&mut [0]) {
        Ok(len) => len == 0,
        Err(fault) => fault.kind() != ErrorKind::WouldBlock,
    };
    let _ = stream.set_nonblocking(false);
    is_ended
}
