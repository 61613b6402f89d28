//! A command that is done at a node.

use crate::advice::Advice;
use crate::deadline::Deadline;
use crate::frame_sender::{connect, pause, receive, send};
use crate::printed::{print_answer, print_refusal, print_silence, print_use};
use crate::silence::{Silence, Told};
use crate::snapshot::take_snapshot;
use cc_command_line::AskOrder;
use cc_connections::{Address, Frame};
use cc_messages::{Answer, Refusal};
use cc_policies::{Client, Heard, ReceivedFrames, Stage, Step};
use std::alloc::Global;
use std::io;
use std::io::Write;
use std::net::{Net, TcpStream};
use std::time::Clock;

/// Has a command done, or takes a snapshot: it asks, again where the node is busy or the connection breaks, or hasn't joined and the order waits
/// for that, and always under one number, so that nothing is done twice. It prints the answer, `refused` and why, `session in
/// use` where another client took the number, or `no answer` where none came in time, in the form of the order.
pub fn ask_node<R: Net<Stream = TcpStream> + Clock, W: Write>(
    rt: &R,
    alloc: Global,
    order: &AskOrder,
    output: &mut W,
) -> io::Result<Told> {
    if order.snapshot {
        return take_snapshot(rt, alloc, order, output);
    }
    let mut asking = Asking::of(order, client_of(order));
    let deadline = Deadline::new(rt, order.timeout);
    let ended = asking.ask(rt, alloc, order, &deadline);
    asking.print(alloc, order, ended, output)
}

// A client that knows the number of its request where the order has one.
fn client_of(order: &AskOrder) -> Client {
    match order.request {
        Some(request) => Client::numbered(order.session, order.command, request),
        None => Client::new(order.session, order.command),
    }
}

// A client, whether it waits for its node to join, and why it has no answer yet: a refusal, where one is why, or what became of
// its last try to connect.
#[derive(Drop)]
pub(crate) struct Asking {
    client: Client,
    waits: bool,
    refusal: Option<Refusal>,
    silence: Silence,
}

// What a client does next on a connection.
#[derive(Drop)]
enum Next {
    Listen,
    Again,
    End(Ended),
}

// How a client's asking ended.
#[derive(Drop)]
pub(crate) enum Ended {
    Answered(Answer),
    InUse,
    Refused(Refusal),
}

impl Asking {
    // A client of an order that has asked nothing yet.
    pub(crate) fn of(order: &AskOrder, client: Client) -> Self {
        Asking {
            client,
            waits: order.waits,
            refusal: None,
            silence: Silence::Mute(order.address),
        }
    }

    // Its command was answered, and is done once more.
    pub(crate) fn go_on(&mut self) {
        self.client.go_on();
    }

    // None where nothing came in time.
    pub(crate) fn ask<R: Net<Stream = TcpStream> + Clock>(
        &mut self,
        rt: &R,
        alloc: Global,
        order: &AskOrder,
        deadline: &Deadline,
    ) -> Option<Ended> {
        for _ in 0..u64::MAX {
            if let Some(ended) = self.try_once(rt, alloc, order, deadline) {
                return Some(ended);
            }
            drop(self.client.hear(Heard::Broken));
            deadline.left(rt)?;
            pause(rt, deadline);
        }
        None
    }

    // Connects, and asks. None where that breaks, or the time is over.
    fn try_once<R: Net<Stream = TcpStream> + Clock>(
        &mut self,
        rt: &R,
        alloc: Global,
        order: &AskOrder,
        deadline: &Deadline,
    ) -> Option<Ended> {
        match connect(rt, &order.address, deadline) {
            Ok(stream) => {
                self.note_connection(order.address);
                self.converse(rt, alloc, &stream, deadline)
            }
            Err(silence) => {
                // A try that the deadline cut short tells nothing new.
                deadline.left(rt)?;
                self.silence = silence;
                None
            }
        }
    }

    // Somebody listens there. What was sent before, over another connection, may still be answered.
    fn note_connection(&mut self, address: Address) {
        if matches!(self.silence, Silence::Closed(_) | Silence::Unknown(_)) {
            self.silence = Silence::Mute(address);
        }
    }

    // Asks over one connection. None where it breaks, or the time is over.
    fn converse<R: Clock>(
        &mut self,
        rt: &R,
        alloc: Global,
        stream: &TcpStream,
        deadline: &Deadline,
    ) -> Option<Ended> {
        let mut incoming = ReceivedFrames::new(alloc, stream).ok()?;
        let ended = self.exchange(rt, alloc, stream, &mut incoming, deadline);
        drop(incoming);
        ended
    }

    fn exchange<R: Clock>(
        &mut self,
        rt: &R,
        alloc: Global,
        stream: &TcpStream,
        incoming: &mut ReceivedFrames<&TcpStream>,
        deadline: &Deadline,
    ) -> Option<Ended> {
        let mut heard = Heard::Ready;
        for _ in 0..u64::MAX {
            match self.act(rt, alloc, stream, heard, deadline)? {
                Next::End(ended) => return Some(ended),
                next => {
                    let listens = matches!(next, Next::Listen);
                    drop(next);
                    heard = hear_next(rt, stream, incoming, deadline, listens)?;
                }
            }
        }
        drop(heard);
        None
    }

    // Does what the client does next. None where the connection breaks, or the time is over.
    fn act<R: Clock>(
        &mut self,
        rt: &R,
        alloc: Global,
        stream: &TcpStream,
        heard: Heard,
        deadline: &Deadline,
    ) -> Option<Next> {
        match self.client.hear(heard) {
            Step::Send(frame) => {
                let next = self.send(rt, alloc, stream, &frame, deadline);
                drop(frame);
                next
            }
            Step::Wait => Some(Next::Listen),
            Step::Retry(why) => Some(self.retry(rt, why, deadline)),
            Step::Refused(why) if self.waits && is_outside(why) => {
                Some(self.retry(rt, Some(why), deadline))
            }
            Step::Done(answer) => Some(Next::End(Ended::Answered(answer))),
            Step::InUse => Some(Next::End(Ended::InUse)),
            Step::Refused(why) => Some(Next::End(Ended::Refused(why))),
        }
    }

    // Pauses before it asks again, under the same number.
    fn retry<R: Clock>(&mut self, rt: &R, why: Option<Refusal>, deadline: &Deadline) -> Next {
        self.refusal = why;
        pause(rt, deadline);
        Next::Again
    }

    fn send<R: Clock>(
        &mut self,
        rt: &R,
        alloc: Global,
        stream: &TcpStream,
        frame: &Frame,
        deadline: &Deadline,
    ) -> Option<Next> {
        deadline.left(rt)?;
        // From here on nobody knows what becomes of it.
        self.refusal = None;
        send(alloc, stream, frame)?;
        self.silence = self.silence_after(self.silence);
        Some(Next::Listen)
    }

    // Why there is no answer where none comes to what was sent now. A node tells number 0 at once, whoever answers it.
    fn silence_after(&self, before: Silence) -> Silence {
        match (self.client.stage, before) {
            (Stage::Fencing(_) | Stage::Asking(_), Silence::Mute(address)) => {
                Silence::Taken(address)
            }
            _ => before,
        }
    }

    // Prints how it ended.
    pub(crate) fn print<W: Write>(
        &self,
        alloc: Global,
        order: &AskOrder,
        ended: Option<Ended>,
        output: &mut W,
    ) -> io::Result<Told> {
        match ended {
            Some(Ended::Answered(answer)) => {
                let printed = print_answer(alloc, order.form, &answer, None, output);
                drop(answer);
                printed?;
                Ok(Told::done())
            }
            Some(Ended::InUse) => {
                print_use(order.form, output)?;
                Ok(Told::refused(Some(Advice::SessionInUse(order.session))))
            }
            Some(Ended::Refused(why)) => self.print_why(alloc, order, Some(why), output),
            None => self.print_why(alloc, order, self.refusal, output),
        }
    }

    // Prints why there is no answer.
    fn print_why<W: Write>(
        &self,
        alloc: Global,
        order: &AskOrder,
        why: Option<Refusal>,
        output: &mut W,
    ) -> io::Result<Told> {
        match why {
            Some(why) => {
                print_refusal(alloc, order.form, why, output)?;
                Ok(Told::refused(advice_for(why)))
            }
            None => {
                print_silence(order.form, output)?;
                Ok(Told::silent(self.silence))
            }
        }
    }
}

// What is heard next: a frame where the client listens, and nothing where it asks again. None where none comes in time.
fn hear_next<R: Clock>(
    rt: &R,
    stream: &TcpStream,
    incoming: &mut ReceivedFrames<&TcpStream>,
    deadline: &Deadline,
    listens: bool,
) -> Option<Heard> {
    if listens {
        receive(rt, stream, incoming, deadline).map(Heard::Came)
    } else {
        Some(Heard::Ready)
    }
}

fn advice_for(why: Refusal) -> Option<Advice> {
    match why {
        Refusal::TooManySessions => Some(Advice::TooManySessions),
        _ => None,
    }
}

// Whether a node refuses because it isn't in the cluster yet.
fn is_outside(why: Refusal) -> bool {
    matches!(why, Refusal::NotEntered | Refusal::NotJoined)
}
