//! What a running node notes of its peers on standard error.

use crate::trouble::words_of;
use cc_connections::{Address, Reason};
use cc_messages::Share;
use cc_policies::{AskName, SlowOperation};
use cc_site::{Side, file_name};
use cc_views::NodeId;
use crossbeam_channel::{Receiver, Sender, bounded};
use log::{Level, Log, log};
use std::alloc::{AllocError, Global};
use std::fmt::Display;
use std::net::SocketAddr;
use std::sync::Wait;
use std::{fmt, io};

// Where a log's filter finds the notes, as before they had a crate of their own.
const TARGET: &str = "cc_server::notes";

// How many notes of the flusher wait at most.
const NOTE_ROOM: usize = 256;

/// An operation that pends, and how many of the answers that it needs it has.
#[derive(Clone, Copy)]
pub struct Waiting {
    pub asked: AskName,
    pub count: u64,
    pub need: u64,
}

/// A note of the flusher.
#[derive(Clone, Copy)]
pub enum Note {
    /// A peer is taken for absent.
    Absent(NodeId),
    /// An operation has been pending for long.
    Pending(Waiting),
    /// The node was moved to the other side, which has so many bytes then, in so many milliseconds.
    Moved { bytes: u64, millis: u64 },
    /// A sync took so many microseconds.
    SlowSync(u64),
    /// The node has joined.
    Joined,
    /// The node has left.
    Left,
    /// So many sessions are served, of 256 in its life.
    Sessions(usize),
    /// A node was heard of from there, and is none of the peers.
    Stranger(NodeId, SocketAddr),
    /// A call on the file of a side failed, for that reason.
    DiskFault(Side, io::Error),
}

/// The channel on which notes of the flusher wait for their writer, since it waits for nobody who reads standard error. None
/// ends the writer.
#[derive(Drop)]
pub struct NoteChannel {
    to: Sender<Option<Note>>,
}

impl NoteChannel {
    /// Puts a note on the channel. What finds no room is lost.
    pub fn put<R: Wait>(&self, rt: &R, note: Note) {
        let _ = self.to.try_send(rt, Some(note));
    }

    /// Ends the writer, once it has written what waits.
    pub fn end<R: Wait>(&self, rt: &R) {
        let _ = self.to.send(rt, None);
    }
}

/// The channel, and what its writer takes.
pub fn note_channel(alloc: Global) -> Result<(NoteChannel, Receiver<Option<Note>>), AllocError> {
    let (to, from) = bounded(alloc, NOTE_ROOM)?;
    Ok((NoteChannel { to }, from))
}

/// Writes the notes of the node `me` of a folder, until None comes.
pub fn write_notes<R: Wait + Log>(rt: &R, me: NodeId, dir: &str, from: &Receiver<Option<Note>>) {
    for _ in rt.forever() {
        let Some(note) = from.recv(rt).unwrap_or(None) else {
            return;
        };
        say(rt, me, note.level(), &Noted { note: &note, dir });
    }
    unreachable!()
}

impl Note {
    fn level(&self) -> Level {
        match self {
            Note::DiskFault(..) => Level::Error,
            Note::Absent(_)
            | Note::Pending(_)
            | Note::SlowSync(_)
            | Note::Sessions(_)
            | Note::Stranger(..) => Level::Warn,
            Note::Moved { .. } | Note::Joined | Note::Left => Level::Info,
        }
    }
}

// A note of the node of a folder, as it is written.
#[derive(Clone, Copy)]
struct Noted<'a> {
    note: &'a Note,
    dir: &'a str,
}

impl fmt::Display for Noted<'_> {
    fn fmt<W: fmt::Write>(&self, f: &mut fmt::Formatter<W>) -> fmt::Result {
        match *self.note {
            Note::Absent(peer) => write!(f, "takes node {} for absent", peer.number()),
            Note::Pending(waiting) => print_pending(f, waiting),
            Note::Moved { bytes, millis } => write!(
                f,
                "has moved to its other side: {bytes} bytes in {millis} ms"
            ),
            Note::SlowSync(micros) => write!(
                f,
                "waited for a sync of its disk for {} ms",
                micros / 1000
            ),
            Note::Joined => f.write_str("has joined"),
            Note::Left => f.write_str("has left"),
            Note::Sessions(count) => write!(f, "serves {count} sessions, of 256 in its life"),
            Note::Stranger(node, from) => write!(
                f,
                "heard of node {}, which is none of its peers, from {from}",
                node.number()
            ),
            Note::DiskFault(side, why) => write!(
                f,
                "can't go on: {}/{}: {why}",
                self.dir,
                file_name(side)
            ),
        }
    }
}

fn print_pending<W: fmt::Write>(f: &mut fmt::Formatter<W>, waiting: Waiting) -> fmt::Result {
    let Waiting { asked, count, need } = waiting;
    let (request, session, seconds) = (asked.request, asked.session, SlowOperation::LONG_SECONDS);
    write!(
        f,
        "has {count} of {need} answers for request {request} of session {session}, pending for {seconds} seconds"
    )
}

/// What the operator asked of a node.
#[derive(Clone, Copy)]
pub enum Instruction {
    /// That it leaves.
    Leave,
    /// That this node is retired.
    Retire(NodeId),
    /// How many asks begin together.
    Share(Share),
}

/// What a node notes of its share, its peers and their file, by whoever sees it.
#[derive(Clone, Copy)]
pub enum Notice<'a> {
    /// A peer that was taken for absent acknowledges again.
    Back(NodeId),
    /// Several asks begin together: up to so many.
    Share(usize),
    /// A node of the folder has no address.
    Unreachable(NodeId),
    /// A peer is unknown to the folder.
    Unknown(NodeId),
    /// The file of the peers has a peer that wasn't there before.
    Added(NodeId, Address),
    /// The file of the peers has another address for a peer.
    Elsewhere(NodeId, Address),
    /// A peer has no line in the file of the peers any more.
    Unlisted(NodeId),
    /// A node isn't taken that greets from there, for that reason.
    Unwelcome {
        node: NodeId,
        from: SocketAddr,
        at: Address,
        reason: Reason,
    },
    /// Two processes greet in turn as a node. The last one does from there.
    Doubled(NodeId, SocketAddr),
    /// The folder names no cluster.
    Nameless,
    /// The operator asked that, from there, and it is done.
    Told {
        instruction: Instruction,
        from: SocketAddr,
    },
    /// The file of the peers isn't taken, since one line isn't as it should be, or two are of one node, or it can't be read.
    NotTaken {
        file: &'a str,
        why: &'a str,
    },
}

impl Notice<'_> {
    fn level(&self) -> Level {
        match self {
            Notice::Back(_)
            | Notice::Share(_)
            | Notice::Added(..)
            | Notice::Elsewhere(..)
            | Notice::Unknown(_)
            | Notice::Nameless
            | Notice::Told { .. } => Level::Info,
            Notice::Unreachable(_)
            | Notice::Unlisted(_)
            | Notice::Unwelcome { .. }
            | Notice::Doubled(..)
            | Notice::NotTaken { .. } => Level::Warn,
        }
    }
}

impl fmt::Display for Notice<'_> {
    fn fmt<W: fmt::Write>(&self, f: &mut fmt::Formatter<W>) -> fmt::Result {
        match *self {
            Notice::Back(peer) => write!(f, "hears node {} again", peer.number()),
            Notice::Share(share) => write!(f, "begins up to {share} asks together"),
            Notice::Unreachable(node) => write!(
                f,
                "knows node {}, which has no address among its peers",
                node.number()
            ),
            Notice::Unknown(peer) => write!(f, "doesn't know its peer {}", peer.number()),
            Notice::Added(peer, address) => write!(
                f,
                "has a new peer: node {} at {address}",
                peer.number()
            ),
            Notice::Elsewhere(peer, address) => write!(
                f,
                "finds node {} at {address} from now on",
                peer.number()
            ),
            Notice::Unlisted(peer) => write!(
                f,
                "keeps node {} among its peers until it is started again: its line is gone",
                peer.number()
            ),
            Notice::Unwelcome {
                node,
                from,
                at,
                reason,
            } => write!(
                f,
                "doesn't take node {}, which came from {from} to {at}: it {}",
                node.number(),
                words_of(reason)
            ),
            Notice::Doubled(node, from) => write!(
                f,
                "is greeted by two processes in turn that are node {}, the last time from {from}",
                node.number()
            ),
            Notice::Nameless => f.write_str("has no name of a cluster in its folder"),
            Notice::Told { instruction, from } => print_instruction(f, instruction, from),
            Notice::NotTaken { file, why } => write!(
                f,
                "keeps its peers as they are: {file} {why}"
            ),
        }
    }
}

fn print_instruction<W: fmt::Write>(
    f: &mut fmt::Formatter<W>,
    instruction: Instruction,
    from: SocketAddr,
) -> fmt::Result {
    match instruction {
        Instruction::Leave => write!(f, "was told from {from} that it leaves"),
        Instruction::Retire(node) => {
            write!(
                f,
                "was told from {from} that node {} is retired",
                node.number()
            )
        }
        Instruction::Share(share) => {
            write!(f, "was told from {from} that its share is {}", share.asks())
        }
    }
}

/// Notes that of the node `me`.
pub fn give_notice<R: Log>(rt: &R, me: NodeId, notice: &Notice<'_>) {
    say(rt, me, notice.level(), notice);
}

fn say<R: Log, D: Display>(rt: &R, me: NodeId, level: Level, said: &D) {
    log!(rt; target: TARGET, level, "node {} {said}", me.number());
}
