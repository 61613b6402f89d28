//! The bytes that a node answers over HTTP.

ghost use Rattle.std.specs.Prelude.{◌≤◌, length, IfOk};

use crate::fault::LookFault;
use cc_connections::{Address, ConnectFault};
use std::alloc::Global;
use std::io;
use std::io::{ErrorKind, Read, Write};
use std::net::{Net, TcpStream};
use std::time::{Clock, Duration, Instant};

// How long one try to connect takes at most, in milliseconds.
const CONNECT_MS: u64 = 1000;

// How many bytes an answer has at most.
const MOST_BYTES: usize = 4 << 20;

/// A page of a node.
#[derive(Clone, Copy)]
pub struct Place<'a> {
    pub address: &'a Address,
    pub page: &'a str,
    /// For how many seconds its answer is read.
    pub patience: u64,
}

/// What a node answers when it is asked for a page, up to the connection's end.
pub fn fetch<R: Net<Stream = TcpStream> + Clock>(
    rt: &R,
    alloc: Global,
    place: &Place<'_>,
) -> Result<Vec<u8>, LookFault> {
    let address = place.address;
    let stream = connect(rt, address)?;
    if ask(alloc, &stream, place).is_err() {
        return Err(LookFault::Mute(*address));
    }
    let mut answer = Vec::new(alloc);
    match read_all(rt, &stream, place, &mut answer) {
        Ok(()) => Ok(answer),
        Err(fault) => Err(fault),
    }
}

fn connect<R: Net<Stream = TcpStream>>(rt: &R, address: &Address) -> Result<TcpStream, LookFault> {
    let patience = Duration::from_millis(CONNECT_MS);
    match cc_connections::connect(rt, address, patience) {
        Ok(stream) => Ok(stream),
        Err(ConnectFault::Unknown) => Err(LookFault::Unknown(*address)),
        Err(ConnectFault::Refused) => Err(LookFault::Closed(*address)),
        Err(ConnectFault::Mute) => Err(LookFault::Mute(*address)),
    }
}

fn ask(alloc: Global, stream: &TcpStream, place: &Place<'_>) -> io::Result<()> {
    let (page, address) = (place.page, place.address);
    let request = format!(in alloc;
        "GET {page} HTTP/1.1\r\nHost: {address}\r\nConnection: close\r\n\r\n"
    )?;
    let mut to = stream;
    to.write_all(request.as_bytes())
}

// Reads to the end, for as long as the place says at most.
fn read_all<R: Clock>(
    rt: &R,
    stream: &TcpStream,
    place: &Place<'_>,
    answer: &mut Vec<u8>,
) -> Result<(), LookFault> {
    let address = place.address;
    let Ok(start) = Instant::now(rt) else {
        return Err(LookFault::Mute(*address));
    };
    let mut piece = [0u8; 4096];
    for _ in 0..u64::MAX {
        let count = match read_some(rt, stream, start, place.patience, &mut piece) {
            Ok(0) => return Ok(()),
            Ok(count) => count,
            Err(_) => return Err(LookFault::Mute(*address)),
        };
        if answer.len() + count > MOST_BYTES {
            return Err(LookFault::TooLong(*address));
        }
        answer.extend_from_slice(&piece[..count])?;
    }
    Ok(())
}

// What comes next. An error where nothing does in so many seconds from the start on.
fn read_some<R: Clock>(
    rt: &R,
    stream: &TcpStream,
    start: Instant,
    patience: u64,
    piece: &mut [u8],
) -> io::Result<usize>
    ensures { IfOk result (λ count. count ≤ length piece.new) }
{
    let left = Duration::from_secs(patience).saturating_sub(start.elapsed(rt)?);
    if left == Duration::ZERO {
        return Err(ErrorKind::TimedOut.into());
    }
    stream.set_read_timeout(Some(left))?;
    let mut from = stream;
    from.read(piece)
}
