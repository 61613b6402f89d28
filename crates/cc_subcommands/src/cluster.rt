//! A cluster in memory.

use crate::delivery::{Delivery, Waiting};
use crate::node_fault::NodeFault;
use crate::play_fault::PlayFault;
use crate::script::Line;
use crate::station::{Outcome, Resend, Station};
use cc_changes::Fraction;
use cc_checkpoint::OpenFault;
use cc_flush::FormatFault;
use cc_messages::Event;
use cc_node::Opening;
use cc_site::Choice;
use cc_views::NodeId;
use std::alloc::{AllocFailed, Global};
use std::io::Write;

const MAX_NODES: usize = 16;

/// The fractions of a node where no line says others.
pub const FOUR_FIFTHS: Fraction = Fraction { num: 4, den: 5 };

// The share of a node where no line says another: its asks begin one at a time.
const ONE_BY_ONE: u32 = 1;

/// What came of a line.
#[derive(Clone, Copy, PartialEq, Eq)]
pub enum Played {
    Good,
    Bad,
    /// A fault of a node was printed, which ends the script.
    Ended,
}

/// Nodes in the order in which they were made, and the fractions and the share of the next one.
#[derive(Drop)]
pub struct Cluster {
    stations: Vec<Station>,
    beta: Fraction,
    gamma: Fraction,
    share: u32,
}

impl Cluster {
    /// Without a node.
    pub fn new(alloc: Global) -> Self {
        Cluster {
            stations: Vec::new(alloc),
            beta: FOUR_FIFTHS,
            gamma: FOUR_FIFTHS,
            share: ONE_BY_ONE,
        }
    }

    /// Plays one line, and prints what comes of it. Nothing is printed for a bad one.
    pub fn play<W: Write>(
        &mut self,
        alloc: Global,
        line: Line,
        output: &mut W,
    ) -> Result<Played, PlayFault> {
        match line {
            Line::Fractions { beta, gamma } => Ok(self.set_fractions(beta, gamma)),
            Line::Share { share } => Ok(self.set_share(share)),
            Line::Member { id, initial } => self.add(alloc, id, &initial, &[], output),
            Line::Entrant { id, contacts } => self.add(alloc, id, &[], &contacts, output),
            Line::Event { node, event } => self.take(alloc, node, event, output),
            Line::Carry(delivery) => self.carry(alloc, delivery, output),
            Line::CarryAll { limit } => self.carry_all(alloc, limit, output),
            Line::Again { node, standing } => self.put_again(node, standing, output),
            Line::Checkpoint { node } => self.checkpoint(node, output),
            Line::Crash { node, choice } => self.crash(alloc, node, &choice, output),
        }
    }

    fn set_fractions(&mut self, beta: Fraction, gamma: Fraction) -> Played {
        self.beta = beta;
        self.gamma = gamma;
        Played::Good
    }

    fn set_share(&mut self, share: u32) -> Played {
        self.share = share;
        Played::Good
    }

    fn take<W: Write>(
        &mut self,
        alloc: Global,
        node: u32,
        event: Event,
        output: &mut W,
    ) -> Result<Played, PlayFault> {
        match self.station_mut(node) {
            Some(station) => conclude(node, station.take(alloc, event, output)?, output),
            None => {
                drop(event);
                Ok(Played::Bad)
            }
        }
    }

    fn put_again<W: Write>(
        &mut self,
        node: u32,
        standing: Resend,
        output: &mut W,
    ) -> Result<Played, PlayFault> {
        match self.station_mut(node) {
            Some(station) => conclude(node, station.put_again(standing, output)?, output),
            None => Ok(Played::Bad),
        }
    }

    /// The node of that id.
    pub fn station(&self, id: u32) -> Option<&Station> {
        self.stations
            .iter()
            .find(|station| station.id().number() == id)
    }

    fn station_mut(&mut self, id: u32) -> Option<&mut Station> {
        self.stations
            .iter_mut()
            .find(|station| station.id().number() == id)
    }

    fn add<W: Write>(
        &mut self,
        alloc: Global,
        id: u32,
        initial: &[u32],
        contacts: &[u32],
        output: &mut W,
    ) -> Result<Played, PlayFault> {
        if self.stations.len() >= MAX_NODES || self.station(id).is_some() {
            return Ok(Played::Bad);
        }
        let opening = Opening {
            me: id,
            initial,
            contacts,
            beta: self.beta,
            gamma: self.gamma,
            share: self.share as usize,
        };
        match Station::new(alloc, &opening) {
            Ok(station) => {
                self.stations.push(station)?;
                Ok(Played::Good)
            }
            Err(fault) => tell(id, fault, output),
        }
    }

    fn carry<W: Write>(
        &mut self,
        alloc: Global,
        delivery: Delivery,
        output: &mut W,
    ) -> Result<Played, PlayFault> {
        match self.deliver(alloc, delivery, output)? {
            Some(outcome) => conclude(delivery.to, outcome, output),
            None => tell_nothing(delivery, output),
        }
    }

    // Delivers a message. None where it wasn't sent, or there is no such receiver.
    fn deliver<W: Write>(
        &mut self,
        alloc: Global,
        delivery: Delivery,
        output: &mut W,
    ) -> Result<Option<Outcome>, PlayFault> {
        let Some(event) = self.delivered(alloc, delivery)? else {
            return Ok(None);
        };
        let Some(receiver) = self.station_mut(delivery.to) else {
            drop(event);
            return Ok(None);
        };
        receiver.take(alloc, event, output).map(Some)
    }

    // The event at the receiver.
    fn delivered(&self, alloc: Global, delivery: Delivery) -> Result<Option<Event>, PlayFault> {
        let Some(sender) = self.station(delivery.from) else {
            return Ok(None);
        };
        let Some(to) = NodeId::new(delivery.to) else {
            return Ok(None);
        };
        let Some(message) = sender.message(alloc, to, delivery.number)? else {
            return Ok(None);
        };
        Ok(Some(Event::Deliver {
            from: sender.id(),
            number: delivery.number,
            message,
        }))
    }

    // Delivers the first of the next messages of all links, up to so many times. One that is refused is left out from
    // then on.
    fn carry_all<W: Write>(
        &mut self,
        alloc: Global,
        limit: u64,
        output: &mut W,
    ) -> Result<Played, PlayFault> {
        let mut waiting = Waiting::new(alloc);
        for sender in &self.stations {
            self.note_next_from(sender.id().number(), &mut waiting)?;
        }
        for _ in 0..limit {
            let Some(delivery) = waiting.take_first() else {
                break;
            };
            let Delivery { to, from, .. } = delivery;
            match self.deliver(alloc, delivery, output)? {
                Some(Outcome::Accepted) => {}
                Some(Outcome::Sent) => self.note_next_from(to, &mut waiting)?,
                Some(Outcome::Refused) | None => waiting.refuse(delivery)?,
                Some(Outcome::Ended(fault)) => return tell(to, fault, output),
            }
            self.note_next(from, to, &mut waiting)?;
        }
        Ok(Played::Good)
    }

    fn checkpoint<W: Write>(&mut self, node: u32, output: &mut W) -> Result<Played, PlayFault> {
        let Some(station) = self.station_mut(node) else {
            return Ok(Played::Bad);
        };
        match station.checkpoint() {
            Ok(()) => {
                writeln!(output, "{node} checkpoint")?;
                Ok(Played::Good)
            }
            Err(fault) => tell(node, fault, output),
        }
    }

    fn crash<W: Write>(
        &mut self,
        alloc: Global,
        node: u32,
        choice: &Choice,
        output: &mut W,
    ) -> Result<Played, PlayFault> {
        let Some(station) = self.station_mut(node) else {
            return Ok(Played::Bad);
        };
        match station.crash(alloc, choice) {
            Ok(()) => {
                writeln!(output, "{node} opened")?;
                Ok(Played::Good)
            }
            Err(fault) => tell(node, fault, output),
        }
    }

    fn note_next_from(
        &self,
        from: u32,
        waiting: &mut Waiting,
    ) -> Result<(), AllocFailed<Delivery>> {
        for receiver in &self.stations {
            self.note_next(from, receiver.id().number(), waiting)?;
        }
        Ok(())
    }

    // Notes the next message of a link, if it was sent.
    fn note_next(
        &self,
        from: u32,
        to: u32,
        waiting: &mut Waiting,
    ) -> Result<(), AllocFailed<Delivery>> {
        if let Some(number) = self.next_number(from, to) {
            waiting.add(Delivery { to, from, number })?;
        }
        Ok(())
    }

    // The number of a link's next message, if it was sent.
    fn next_number(&self, from: u32, to: u32) -> Option<u64> {
        let sender = self.station(from)?;
        let receiver = self.station(to)?;
        let number = receiver.next_from(sender.id())?;
        sender.has_sent(receiver.id(), number).then_some(number)
    }
}

// Prints that there was nothing to deliver.
fn tell_nothing<W: Write>(delivery: Delivery, output: &mut W) -> Result<Played, PlayFault> {
    let Delivery { to, from, number } = delivery;
    writeln!(output, "nothing {from} {to} {number}")?;
    Ok(Played::Good)
}

// A line ends the script where its event ends the node.
fn conclude<W: Write>(node: u32, outcome: Outcome, output: &mut W) -> Result<Played, PlayFault> {
    match outcome {
        Outcome::Ended(fault) => tell(node, fault, output),
        Outcome::Refused | Outcome::Accepted | Outcome::Sent => Ok(Played::Good),
    }
}

// Prints the fault that ends a script. A bad opening is a bad line instead, and want of memory a fault of the player.
fn tell<W: Write>(node: u32, fault: NodeFault, output: &mut W) -> Result<Played, PlayFault> {
    match fault {
        NodeFault::Format(FormatFault::BadOpening) => Ok(Played::Bad),
        NodeFault::Format(FormatFault::NoMemory)
        | NodeFault::Open(OpenFault::NoMemory)
        | NodeFault::NoMemory => Err(PlayFault::NoMemory),
        _ => {
            writeln!(output, "{node} fault {fault}")?;
            Ok(Played::Ended)
        }
    }
}
