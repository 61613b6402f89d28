//! What the operator asks of a node.

use crate::advice::Advice;
use crate::deadline::Deadline;
use crate::frame_sender::{connect, receive, send};
use crate::silence::{Silence, Told};
use cc_command_line::{LeaveOrder, RetireOrder, ShareOrder};
use cc_connections::{Address, Frame};
use cc_messages::Refusal;
use cc_policies::{
    Lefts, OPERATOR_ANSWER_SECONDS, Objection, Outcome, ReceivedFrames, Retirement, outcome_of,
    probe_frame, share_outcome_of,
};
use std::alloc::Global;
use std::io;
use std::io::Write;
use std::net::{Net, TcpStream};
use std::time::Clock;

/// Has a node leave. It prints `left`, `refused` and why, or `no answer` where none came within ten seconds.
pub fn leave_node<R: Net<Stream = TcpStream> + Clock, W: Write>(
    rt: &R,
    alloc: Global,
    order: &LeaveOrder,
    output: &mut W,
) -> io::Result<Told> {
    let request = Request::Leave;
    let brought = request.bring(rt, alloc, &order.address);
    drop(request);
    if let Ok(Outcome::Done) = brought {
        writeln!(output, "left")?;
    }
    print_undone(&order.address, brought, output)
}

/// Tells a node of an order that another is dead for good. It prints `retired` and the dead node's id; else as `leave_node`,
/// with a refusal where the node has left that is told. Where the order has several nodes, the address of this one stands
/// before it.
pub fn retire_node<R: Net<Stream = TcpStream> + Clock, W: Write>(
    rt: &R,
    alloc: Global,
    order: &RetireOrder,
    address: &Address,
    output: &mut W,
) -> io::Result<Told> {
    let node = order.node;
    let request = match order.even_alive {
        true => Request::Retire(Frame::Retire { node }),
        false => Request::Retire(Frame::RetireIfSilent { node }),
    };
    let brought = request.bring(rt, alloc, address);
    drop(request);
    if order.addresses.len() > 1 {
        write!(output, "{address} ")?;
    }
    if let Ok(Outcome::Done) = brought {
        writeln!(output, "retired {}", node.number())?;
    }
    print_undone(address, brought, output)
}

/// Has so many asks of a node begin together. It prints `share` and the number, also where it was that before; else as
/// `leave_node`.
pub fn share_node<R: Net<Stream = TcpStream> + Clock, W: Write>(
    rt: &R,
    alloc: Global,
    order: &ShareOrder,
    output: &mut W,
) -> io::Result<Told> {
    let share = order.share;
    let request = Request::Share(Frame::Share { share });
    let brought = request.bring(rt, alloc, &order.address);
    drop(request);
    if let Ok(Outcome::Done) = brought {
        writeln!(output, "share {}", share.asks())?;
    }
    print_undone(&order.address, brought, output)
}

// Prints why a request isn't done, if it isn't.
fn print_undone<W: Write>(
    address: &Address,
    brought: Result<Outcome, Silence>,
    output: &mut W,
) -> io::Result<Told> {
    let told = match brought {
        Ok(Outcome::Done) => Told::done(),
        Ok(Outcome::Refused(why)) => {
            print_refused(why, output)?;
            Told::refused(None)
        }
        Ok(Outcome::Objected(why)) => print_objection(address, why, output)?,
        Err(silence) => {
            writeln!(output, "no answer")?;
            Told::silent(silence)
        }
    };
    output.flush()?;
    Ok(told)
}

fn print_refused<W: Write>(why: Refusal, output: &mut W) -> io::Result<()> {
    writeln!(output, "refused {why}")
}

fn print_objection<W: Write>(
    address: &Address,
    why: Objection,
    output: &mut W,
) -> io::Result<Told> {
    let (name, advice) = match why {
        Objection::Itself => ("Itself", Advice::Itself(*address)),
        Objection::Alive => ("Alive", Advice::Alive),
    };
    let number = why.number();
    writeln!(output, "refused {number} {name}")?;
    Ok(Told::refused(Some(advice)))
}

// What the operator asks of a node, by this frame. It is sent twice, since only a refusal is answered.
#[derive(Drop)]
enum Request {
    Leave,
    Retire(Frame),
    Share(Frame),
}

// What is asked for, and what the operator has heard of it so far.
#[derive(Clone, Copy)]
enum Heard {
    OfLeave,
    OfRetirement(Retirement),
    OfShare,
}

#[derive(Clone, Copy)]
struct Watch {
    heard: Heard,
    is_probed: bool,
}

impl Request {
    // Brings it over a connection of its own, and tells what it came to.
    fn bring<R: Net<Stream = TcpStream> + Clock>(
        &self,
        rt: &R,
        alloc: Global,
        address: &Address,
    ) -> Result<Outcome, Silence> {
        let deadline = Deadline::new(rt, OPERATOR_ANSWER_SECONDS);
        let stream = connect(rt, address, &deadline)?;
        let outcome = self.converse(rt, alloc, &stream, &deadline);
        drop(stream);
        outcome.ok_or(Silence::Mute(*address))
    }

    fn converse<R: Clock>(
        &self,
        rt: &R,
        alloc: Global,
        stream: &TcpStream,
        deadline: &Deadline,
    ) -> Option<Outcome> {
        let mut incoming = ReceivedFrames::new(alloc, stream).ok()?;
        let outcome = match self.send(alloc, stream) {
            Some(()) => self
                .watch()
                .hear_all(rt, alloc, stream, &mut incoming, deadline),
            None => None,
        };
        drop(incoming);
        outcome
    }

    fn send(&self, alloc: Global, stream: &TcpStream) -> Option<()> {
        match self {
            Request::Leave => send_twice(alloc, stream, &Frame::Leave),
            Request::Retire(frame) | Request::Share(frame) => send_twice(alloc, stream, frame),
        }
    }

    fn watch(&self) -> Watch {
        let heard = match self {
            Request::Leave => Heard::OfLeave,
            Request::Retire(_) => Heard::OfRetirement(Retirement::new()),
            Request::Share(_) => Heard::OfShare,
        };
        Watch {
            heard,
            is_probed: false,
        }
    }
}

fn send_twice(alloc: Global, stream: &TcpStream, frame: &Frame) -> Option<()> {
    send(alloc, stream, frame)?;
    send(alloc, stream, frame)
}

impl Watch {
    // Takes frames in until one tells what the request came to, or none comes any more. Of a retirement the first refusal as
    // Left leaves open whether it is the node that has left: then the probe is sent.
    fn hear_all<R: Clock>(
        &mut self,
        rt: &R,
        alloc: Global,
        stream: &TcpStream,
        incoming: &mut ReceivedFrames<&TcpStream>,
        deadline: &Deadline,
    ) -> Option<Outcome> {
        for _ in 0..u64::MAX {
            let Some(frame) = receive(rt, stream, incoming, deadline) else {
                // Where time is over the connection may be open, and more may come.
                deadline.left(rt)?;
                return self.end();
            };
            let outcome = self.hear(&frame);
            drop(frame);
            if outcome.is_some() {
                return outcome;
            }
            if self.is_open() {
                self.probe(alloc, stream);
            }
        }
        None
    }

    fn hear(&mut self, frame: &Frame) -> Option<Outcome> {
        match self.heard {
            Heard::OfLeave => outcome_of(frame),
            Heard::OfShare => share_outcome_of(frame),
            Heard::OfRetirement(mut heard) => {
                let outcome = heard.hear(frame);
                self.heard = Heard::OfRetirement(heard);
                outcome
            }
        }
    }

    // Whether a request was refused as Left, and nobody asked whose that is.
    fn is_open(&self) -> bool {
        match self.heard {
            Heard::OfRetirement(heard) => heard.lefts != Lefts::Neither && !self.is_probed,
            Heard::OfLeave | Heard::OfShare => false,
        }
    }

    // Where that fails the connection is at its end, which is heard next.
    fn probe(&mut self, alloc: Global, stream: &TcpStream) {
        self.is_probed = true;
        let probe = probe_frame();
        let _ = send(alloc, stream, &probe);
        drop(probe);
    }

    fn end(&self) -> Option<Outcome> {
        match self.heard {
            Heard::OfRetirement(heard) => heard.end(),
            Heard::OfLeave | Heard::OfShare => None,
        }
    }
}
