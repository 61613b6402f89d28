//! Those who look at a node come over a listener of their own: 16 at most, of whom eight stay for changes. Each has five seconds
//! for one request and ten to take its answer, by the clock, and nothing that comes changes the node.

use crate::answer::answer_wrong;
use crate::board::Board;
use crate::changes::send_changes;
use crate::page::Page;
use crate::pages::put_page;
use crate::request::{Asked, MOST_HEAD, read_request};
use crate::timed::{read_within, write_within};
use cc_connections::{Flag, Places};
use cc_views::NoMemory;
use std::alloc::Global;
use std::net::{Shutdown, TcpListener, TcpStream};
use std::sync::Wait;
use std::thread;
use std::thread::{Scope, Threads};
use std::time::{Clock, Duration, Instant};

// How many look at once at most, and how many of them stay for changes.
const MOST_VISITORS: u64 = 16;

const MOST_WATCHERS: u64 = 8;

// How long somebody has for a request, and how long for taking the whole answer, in seconds.
const REQUEST_S: u64 = 5;

const ANSWER_S: u64 = 10;

// For how many seconds what comes behind a request is taken.
const DRAIN_S: u64 = 1;

// How long the acceptor pauses after a connection that can't be accepted, in milliseconds.
const PAUSE_MS: u64 = 50;

/// Who looks at a node, and how many may.
#[derive(Drop)]
pub struct Visitors<'x> {
    board: &'x Board,
    all: Places,
    watchers: Places,
    over: &'x Flag,
}

impl<'x> Visitors<'x> {
    /// Nobody looks yet. They go once the flag is set.
    pub fn new(board: &'x Board, over: &'x Flag) -> Self {
        Visitors {
            board,
            all: Places::new(MOST_VISITORS),
            watchers: Places::new(MOST_WATCHERS),
            over,
        }
    }
}

/// Accepts those who look, until the flag is set and one more comes.
pub fn serve_pages<'s, 'e: 's, R>(
    scope: &'s Scope<'s, &'e ()>,
    rt: &'e R,
    alloc: Global,
    visitors: &'e Visitors<'e>,
    listener: &TcpListener,
)
where
    R: Threads + Wait + Clock + Sync,
{
    for _ in rt.forever() {
        let accepted = listener.accept();
        if visitors.over.is_set() {
            return;
        }
        match accepted {
            Ok((stream, _)) => begin_visit(scope, rt, alloc, visitors, stream),
            Err(_) => thread::sleep(rt, Duration::from_millis(PAUSE_MS)),
        }
    }
    unreachable!()
}

// Starts a thread for one who looks. Where too many do, or it can't be made, the connection is closed.
fn begin_visit<'s, 'e: 's, R>(
    scope: &'s Scope<'s, &'e ()>,
    rt: &'e R,
    alloc: Global,
    visitors: &'e Visitors<'e>,
    stream: TcpStream,
)
where
    R: Threads + Wait + Clock + Sync,
{
    if visitors.all.enter() {
        if scope
            .spawn(move || visit(rt, alloc, visitors, &stream))
            .is_err()
        {
            visitors.all.leave();
        }
    } else {
        drop(stream);
    }
}

fn visit<R: Wait + Clock>(rt: &R, alloc: Global, visitors: &Visitors<'_>, stream: &TcpStream) {
    let _ = stream.set_nodelay(true);
    if let Some(asked) = request(rt, alloc, stream) {
        serve(rt, alloc, visitors, stream, asked);
    }
    let _ = stream.shutdown(Shutdown::Write);
    let _ = drain(rt, stream);
    let _ = stream.shutdown(Shutdown::Both);
    visitors.all.leave();
}

// Takes what still comes behind a request, for a second and up to 64 KiB: a connection that is closed over bytes that nobody
// read takes its answer with it. None where no more comes, or in time.
fn drain<R: Clock>(rt: &R, stream: &TcpStream) -> Option<()> {
    let start = Instant::now(rt).ok()?;
    let mut piece = [0; 1024];
    for _ in 0..64 {
        if read_within(rt, stream, &start, DRAIN_S, &mut piece)? == 0 {
            return None;
        }
    }
    Some(())
}

fn serve<R: Wait + Clock>(
    rt: &R,
    alloc: Global,
    visitors: &Visitors<'_>,
    stream: &TcpStream,
    asked: Asked,
) {
    match asked {
        Asked::Page {
            page: Page::Changes,
            is_head: false,
        } => {
            if visitors.watchers.enter() {
                send_changes(rt, alloc, visitors.board, visitors.over, stream);
                visitors.watchers.leave();
            }
        }
        asked => {
            let mut out = Vec::new(alloc);
            if put_answer(rt, alloc, visitors.board, asked, &mut out).is_ok() {
                let _ = write_within(rt, stream, ANSWER_S, out.as_slice());
            }
            drop(out);
        }
    }
}

fn put_answer<R: Wait>(
    rt: &R,
    alloc: Global,
    board: &Board,
    asked: Asked,
    out: &mut Vec<u8>,
) -> Result<(), NoMemory> {
    match asked {
        Asked::More => Ok(()),
        Asked::Page { page, is_head } => put_page(rt, alloc, board, page, is_head, out),
        Asked::Wrong { wrong, is_head } => answer_wrong(out, wrong, is_head),
    }
}

// What is asked for. None where the connection ends before that, or takes too long.
fn request<R: Clock>(rt: &R, alloc: Global, stream: &TcpStream) -> Option<Asked> {
    let mut head = Vec::new(alloc);
    let asked = read_head(rt, stream, &mut head);
    drop(head);
    asked
}

fn read_head<R: Clock>(rt: &R, stream: &TcpStream, head: &mut Vec<u8>) -> Option<Asked> {
    let start = Instant::now(rt).ok()?;
    let mut piece = [0; 1024];
    for _ in 0..=MOST_HEAD {
        let count = read_within(rt, stream, &start, REQUEST_S, &mut piece)?;
        head.extend_from_slice(piece.get(..count)?).ok()?;
        match read_request(head) {
            Asked::More if count > 0 => {}
            Asked::More => return None,
            asked => return Some(asked),
        }
    }
    None
}
