//! The node, as one connection over HTTP asks it: over a connection of its own, as a client of frames.

use crate::asked::Asked;
use crate::desk::Desk;
use crate::key::AskKey;
use crate::node_access::NodeAccess;
use crate::own_sessions::Fate;
use cc_client::{Deadline, receive, send};
use cc_connections::Frame;
use cc_messages::{Answer, Command, Refusal};
use cc_policies::{Client, Heard, ReceivedFrames, Step, refusal_of};
use std::alloc::Global;
use std::net::TcpStream;
use std::sync::Wait;
use std::thread;
use std::time::{Clock, Duration};

/// A connection to the node, over which one request at a time is asked.
#[derive(Drop)]
pub struct Line<'a, R> {
    rt: &'a R,
    alloc: Global,
    stream: &'a TcpStream,
    incoming: ReceivedFrames<&'a TcpStream>,
    desk: &'a Desk,
    // Until when the request has to be answered.
    deadline: Deadline,
    // What was asked may still be answered: the line is of no more use.
    is_over: bool,
}

impl<'a, R: Wait + Clock> Line<'a, R> {
    /// A line over that connection. None where a growth was refused.
    pub fn over(rt: &'a R, alloc: Global, stream: &'a TcpStream, desk: &'a Desk) -> Option<Self> {
        let incoming = ReceivedFrames::new(alloc, stream).ok()?;
        Some(Line {
            rt,
            alloc,
            stream,
            incoming,
            desk,
            deadline: Deadline::within(rt, Duration::ZERO),
            is_over: false,
        })
    }

    /// Whether an answer may still come that is too late.
    pub fn is_over(&self) -> bool {
        self.is_over
    }

    // The next frame, in time.
    fn next(&mut self) -> Option<Frame> {
        receive(self.rt, self.stream, &mut self.incoming, &self.deadline)
    }

    // What the node says of an ask. None where it says nothing in time.
    fn verdict(&mut self, key: AskKey, command: &Command) -> Option<Asked> {
        for _ in 0..u64::MAX {
            let frame = self.next()?;
            if let Some(asked) = verdict_in(key, command, frame) {
                return Some(asked);
            }
        }
        None
    }

    // The last request of each of the node's own sessions, as the node tells it. None where it doesn't.
    fn lasts(&mut self) -> Option<Vec<u64>> {
        let mut lasts = Vec::new(self.alloc);
        for at in 0..self.desk.count() {
            match self.last_of(u64::MAX - u64::from(at)) {
                Some(last) if lasts.push(last).is_ok() => {}
                _ => {
                    drop(lasts);
                    return None;
                }
            }
        }
        Some(lasts)
    }

    // Of a session that has no row and gets none it is 0.
    fn last_of(&mut self, session: u64) -> Option<u64> {
        let key = AskKey {
            session,
            request: 0,
        };
        match self.ask(key, &Command::ReadFlag) {
            Asked::Refused(Refusal::Stale(last)) => Some(last),
            Asked::Refused(Refusal::TooManySessions) => Some(0),
            other => {
                drop(other);
                None
            }
        }
    }
}

impl<R: Wait + Clock> NodeAccess for Line<'_, R> {
    ghost use Rattle.std.specs.Prelude.{⊤};

    // No clause sees what a socket brings.
    ghost does = { λ _ _ _. ⊤ };

    fn begin(&mut self, timeout_ms: u64) {
        self.deadline = Deadline::within(self.rt, Duration::from_millis(timeout_ms));
    }

    fn left_ms(&mut self) -> u64 {
        match self.deadline.left(self.rt) {
            Some(left) => u64::try_from(left.as_millis()).unwrap_or(u64::MAX).max(1),
            None => 0,
        }
    }

    fn pause(&mut self, millis: u64) {
        thread::sleep(self.rt, Duration::from_millis(millis));
    }

    fn ask(&mut self, key: AskKey, command: &Command) -> Asked {
        let frame = Frame::Ask {
            session: key.session,
            request: key.request,
            command: *command,
        };
        let asked = match send(self.alloc, self.stream, &frame) {
            Some(()) => self.verdict(key, command),
            None => None,
        };
        drop(frame);
        match asked {
            Some(asked) => asked,
            None => {
                self.is_over = true;
                Asked::Late
            }
        }
    }

    fn wait(&mut self, key: AskKey) -> Option<Answer> {
        for _ in 0..u64::MAX {
            let Some(frame) = self.next() else {
                break;
            };
            if let Some(answer) = answer_in(key, frame) {
                return Some(answer);
            }
        }
        self.is_over = true;
        None
    }

    fn take(&mut self) -> Option<AskKey> {
        if !self.desk.is_open(self.rt) {
            let lasts = self.lasts()?;
            self.desk.open(self.rt, self.alloc, &lasts);
            drop(lasts);
        }
        self.desk.take(self.rt)
    }

    fn give_back(&mut self, key: AskKey, fate: Fate) {
        self.desk.give_back(self.rt, key, fate);
    }
}

// What a frame says of an ask under that key. An answer of another kind is that to another command under the key.
fn verdict_in(key: AskKey, command: &Command, frame: Frame) -> Option<Asked> {
    let mut client = Client::numbered(key.session, *command, key.request);
    match frame {
        Frame::Refused {
            session,
            request,
            refusal,
            value,
        } if session == key.session && request == key.request => {
            Some(Asked::Refused(refusal_of(refusal, value)?))
        }
        frame => match client.hear(Heard::Came(frame)) {
            Step::Done(answer) => Some(Asked::Answered(answer)),
            Step::InUse => Some(Asked::Refused(Refusal::Stale(key.request))),
            other => {
                drop(other);
                None
            }
        },
    }
}

// The answer under that key, where a frame is one.
fn answer_in(key: AskKey, frame: Frame) -> Option<Answer> {
    match frame {
        Frame::Reply {
            session,
            request,
            answer,
        } if session == key.session && request == key.request => Some(answer),
        other => {
            drop(other);
            None
        }
    }
}
