//! A client of a load.

use crate::deadline::Deadline;
use crate::frame_sender::{connect, pause, receive, send};
use crate::silence::Silence;
use crate::tally::Tally;
use cc_command_line::Operation;
use cc_connections::{Address, Frame};
use cc_messages::Refusal;
use cc_policies::{Client, Heard, ReceivedFrames, Stage, Step};
use std::alloc::Global;
use std::net::{Net, TcpStream};
use std::thread;
use std::time::{Clock, Duration};

// After how many milliseconds it asks again where the node was too busy.
const AGAIN_MS: u64 = 1;

/// What a client asks for, where, in which session, and until when.
#[derive(Clone, Copy)]
pub struct Task {
    pub address: Address,
    pub session: u64,
    pub operation: Operation,
    /// Until when it asks.
    pub time: Deadline,
    /// Until when it waits for its last answer.
    pub patience: Deadline,
}

// A client at work.
#[derive(Drop)]
struct Worker {
    task: Task,
    client: Client,
    // When it first asked what it asks, by the machine's clock in microseconds.
    since: u64,
    tally: Tally,
}

// What a client does next on a connection.
#[derive(Clone, Copy)]
enum Next {
    Listen,
    Ask,
    End,
}

/// Asks as soon as it was answered, until the time is over: what it counted. The time until its first operation has a number
/// isn't counted.
pub fn ask_for_long<R: Net<Stream = TcpStream> + Clock>(
    rt: &R,
    alloc: Global,
    task: Task,
) -> Tally {
    let mut worker = Worker {
        task,
        client: Client::new(task.session, task.operation.command()),
        since: 0,
        tally: Tally::new(alloc),
    };
    worker.work(rt, alloc);
    let Worker { tally, .. } = worker;
    tally
}

/// The moment by the machine's clock that never goes back, in microseconds, and 0 where it can't be read.
pub fn micros<R: Clock>(rt: &R) -> u64 {
    match rt.monotonic() {
        Ok(since) => u64::try_from(since.as_micros()).unwrap_or(u64::MAX),
        Err(_) => 0,
    }
}

impl Worker {
    // Connects anew where a connection is lost, until the time is over.
    fn work<R: Net<Stream = TcpStream> + Clock>(&mut self, rt: &R, alloc: Global) {
        for _ in 0..u64::MAX {
            match self.try_once(rt, alloc) {
                Ok(()) => return,
                Err(silence) => self.tally.lose(silence),
            }
            if self.task.time.left(rt).is_none() {
                return;
            }
            pause(rt, &self.task.time);
        }
    }

    // Connects, and asks until the time is over. The error is that the connection is lost, or the last answer didn't come.
    fn try_once<R: Net<Stream = TcpStream> + Clock>(
        &mut self,
        rt: &R,
        alloc: Global,
    ) -> Result<(), Silence> {
        let stream = connect(rt, &self.task.address, &self.task.patience)?;
        let conversed = self.converse(rt, alloc, &stream);
        drop(stream);
        match conversed {
            Some(()) => Ok(()),
            None => Err(Silence::Mute(self.task.address)),
        }
    }

    fn converse<R: Clock>(&mut self, rt: &R, alloc: Global, stream: &TcpStream) -> Option<()> {
        let mut incoming = ReceivedFrames::new(alloc, stream).ok()?;
        let conversed = self.exchange(rt, alloc, stream, &mut incoming);
        drop(incoming);
        conversed
    }

    fn exchange<R: Clock>(
        &mut self,
        rt: &R,
        alloc: Global,
        stream: &TcpStream,
        incoming: &mut ReceivedFrames<&TcpStream>,
    ) -> Option<()> {
        let mut heard = Heard::Ready;
        for _ in 0..u64::MAX {
            let patience = self.task.patience;
            match self.act(rt, alloc, stream, heard)? {
                Next::Listen => heard = Heard::Came(receive(rt, stream, incoming, &patience)?),
                Next::Ask => heard = Heard::Ready,
                Next::End => return Some(()),
            }
        }
        drop(heard);
        None
    }

    // Does what the client does next. None where the connection breaks, or there is no time left for an answer.
    fn act<R: Clock>(
        &mut self,
        rt: &R,
        alloc: Global,
        stream: &TcpStream,
        heard: Heard,
    ) -> Option<Next> {
        let has_number = self.has_number();
        match self.client.hear(heard) {
            Step::Send(frame) => {
                if !has_number {
                    self.since = micros(rt);
                }
                let next = self.send(rt, alloc, stream, &frame);
                drop(frame);
                next
            }
            Step::Wait => Some(Next::Listen),
            Step::Retry(_) => Some(self.wait(rt)),
            Step::Done(answer) => {
                drop(answer);
                Some(self.finish(rt))
            }
            Step::InUse => Some(self.find_in_use()),
            Step::Refused(why) => Some(self.give_up(Some(why))),
        }
    }

    // Whether its operation has a number: its time is counted from then on.
    fn has_number(&self) -> bool {
        matches!(self.client.stage, Stage::Asking(_))
    }

    fn send<R: Clock>(
        &self,
        rt: &R,
        alloc: Global,
        stream: &TcpStream,
        frame: &Frame,
    ) -> Option<Next> {
        self.task.patience.left(rt)?;
        send(alloc, stream, frame)?;
        Some(Next::Listen)
    }

    // Waits a moment before it asks again, under the same number.
    fn wait<R: Clock>(&mut self, rt: &R) -> Next {
        self.tally.again = self.tally.again.saturating_add(1);
        thread::sleep(rt, Duration::from_millis(AGAIN_MS));
        Next::Ask
    }

    // The operation is done. The next one begins at once, unless the time is over.
    fn finish<R: Clock>(&mut self, rt: &R) -> Next {
        let now = micros(rt);
        let taken = now.saturating_sub(self.since);
        if self.tally.latencies.add(taken).is_err() {
            return self.give_up(None);
        }
        self.since = now;
        self.client.go_on();
        match self.task.time.left(rt) {
            Some(_) => Next::Ask,
            None => Next::End,
        }
    }

    fn give_up(&mut self, why: Option<Refusal>) -> Next {
        self.tally.end(why);
        Next::End
    }

    // Another client uses its session.
    fn find_in_use(&mut self) -> Next {
        self.tally.in_use = self.tally.in_use.saturating_add(1);
        self.give_up(None)
    }
}
