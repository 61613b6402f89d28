//! A node of a cluster on a site in memory, and all that it sent.

ghost use Rattle.std.specs.Prelude.{◌≡◌, ◌∷◌, [], false, IfOk};
ghost use Rattle.cc_journal.specs.Batches.{AreLawful};

use crate::node_fault::NodeFault;
use crate::play_fault::PlayFault;
use crate::sent::Sent;
use cc_command_line::PrintedOutput;
use cc_flush::{Back, Failed, Flusher, format};
use cc_journal::{Batch, Entry};
use cc_messages::{Event, Message, Output, Refusal};
use cc_node::{Core, Opening};
use cc_site::{Choice, MemorySite};
use cc_views::NodeId;
use cc_wire::decode_message;
use std::alloc::Global;
use std::io::Write;
use std::marker::Model;
use std::mem;

// How many outputs of a node its site keeps, from one opening to the next.
const RESERVE: usize = 16_384;

/// What a node makes of an event.
#[derive(Clone, Copy, PartialEq, Eq)]
pub enum Outcome {
    Refused,
    /// It is accepted, and nothing is sent.
    Accepted,
    /// It is accepted, and a message is sent.
    Sent,
    /// The node can't go on.
    Ended(NodeFault),
}

/// What a node may put out again.
#[derive(Clone, Copy, PartialEq, Eq)]
pub enum Resend {
    /// Each kept post, on each link that waits for it.
    Posts,
    /// The kept answer of a session.
    Answer { session: u64 },
    /// The acknowledgement of what was heard from a peer.
    Ack { peer: NodeId },
}

/// A node in an engine, and its posts by ascending number, those from before a crash among them.
#[derive(Drop)]
pub struct Station {
    engine: Flusher<MemorySite>,
    // How many of the site's outputs were printed.
    printed: usize,
    sent: Vec<Sent>,
}

// Each event is committed and released alone, so that nothing is owed.
impl Model for Station {
    ghost use Rattle.std.specs.Prelude.{◌≡◌, false};
    ghost use Rattle.cc_site.specs.declared.memory.MemorySite.{MemorySite as MemorySiteValue};
    ghost use Rattle.cc_site.specs.contracts.memory.MemorySite as memory_site;
    ghost use Rattle.cc_flush.specs.Engine.{Engine, engine_code};

    ghost Value = { Engine MemorySiteValue };

    ghost coded = { engine_code (memory_site.the_row).coded };

    ghost view = { λ s. s.engine };

    ghost invariant = { λ s. s.engine.owes ≡ false };
}

impl Station {
    /// A node that begins as the opening says, and has sent nothing.
    pub fn new(alloc: Global, opening: &Opening<'_>) -> Result<Self, NodeFault> {
        let site = MemorySite::new(alloc, RESERVE)?;
        match format(alloc, site, opening) {
            Ok(site) => Ok(Station {
                engine: opened(alloc, site)?,
                printed: 0,
                sent: Vec::new(alloc),
            }),
            Err(Back { site, fault }) => {
                drop(site);
                Err(NodeFault::Format(fault))
            }
        }
    }

    /// The id of the node.
    pub fn id(&self) -> NodeId {
        self.core().me()
    }

    /// What keeps the node.
    pub fn site(&self) -> &MemorySite {
        self.engine.site()
    }

    fn core(&self) -> &Core
        ensures { result.now ≡ self.now.twin.core }
    {
        self.engine.twin().core()
    }

    /// Makes an event durable, unless it is refused, and prints what comes of it.
    pub fn take<W: Write>(
        &mut self,
        alloc: Global,
        event: Event,
        output: &mut W,
    ) -> Result<Outcome, PlayFault> {
        match Entry::of(alloc, self.core(), event) {
            Ok(entry) => self.take_in(alloc, entry, output),
            Err(Refusal::NoMemory) => Err(PlayFault::NoMemory),
            Err(refusal) => self.print_refused(refusal, output),
        }
    }

    fn print_refused<W: Write>(
        &self,
        refusal: Refusal,
        output: &mut W,
    ) -> Result<Outcome, PlayFault> {
        let id = self.id().number();
        writeln!(output, "{id} refused {refusal}")?;
        Ok(Outcome::Refused)
    }

    // Makes an event durable that isn't refused, and prints what comes of it.
    fn take_in<W: Write>(
        &mut self,
        alloc: Global,
        entry: Entry,
        output: &mut W,
    ) -> Result<Outcome, PlayFault>
        requires { AreLawful self.old.twin (entry ∷ []) }
    {
        match self.commit(entry)? {
            Ok(()) => self.print_accepted(alloc, output),
            Err(failed) => Ok(Outcome::Ended(NodeFault::Engine(failed))),
        }
    }

    // Makes an event durable that isn't refused, and puts its outputs.
    fn commit(&mut self, entry: Entry) -> Result<Result<(), Failed>, PlayFault>
        requires { AreLawful self.old.twin (entry ∷ []) }
    {
        // A side that has no room is longer than any memory.
        if !self.engine.room() {
            drop(entry);
            return Err(PlayFault::NoMemory);
        }
        let mut batch = Batch::of_one(entry);
        let flushed = self.engine.flush(&mut batch);
        drop(batch);
        Ok(flushed)
    }

    /// Puts out again what stands in the node, and prints it.
    pub fn put_again<W: Write>(
        &mut self,
        standing: Resend,
        output: &mut W,
    ) -> Result<Outcome, PlayFault> {
        let put = match standing {
            Resend::Posts => self.engine.resend().map(|count| count > 0),
            Resend::Answer { session } => self.engine.again(session),
            Resend::Ack { peer } => self.engine.reack(peer),
        };
        match put {
            Ok(true) => self.print_new(output),
            Ok(false) => {
                let id = self.id().number();
                writeln!(output, "{id} nothing")?;
                Ok(Outcome::Accepted)
            }
            Err(failed) => Ok(Outcome::Ended(NodeFault::Engine(failed))),
        }
    }

    // Prints that an event was accepted and what it made, and keeps the post.
    fn print_accepted<W: Write>(
        &mut self,
        alloc: Global,
        output: &mut W,
    ) -> Result<Outcome, PlayFault> {
        let id = self.id().number();
        let sent = Sent::among(alloc, self.core().posts(), self.new_outputs())?;
        writeln!(output, "{id} accepted")?;
        if let Outcome::Ended(fault) = self.print_new(output)? {
            return Ok(Outcome::Ended(fault));
        }
        let Some(sent) = sent else {
            return Ok(Outcome::Accepted);
        };
        self.sent.push(sent)?;
        Ok(Outcome::Sent)
    }

    // The outputs that weren't printed yet.
    fn new_outputs(&self) -> &[Output] {
        self.site().outputs().get(self.printed..).unwrap_or(&[])
    }

    // Prints the outputs that weren't printed yet.
    fn print_new<W: Write>(&mut self, output: &mut W) -> Result<Outcome, PlayFault> {
        let id = self.id().number();
        for part in self.new_outputs() {
            let part = PrintedOutput(part);
            writeln!(output, "{id} {part}")?;
        }
        self.printed = self.site().outputs().len();
        if self.site().lost() > 0 {
            return Ok(Outcome::Ended(NodeFault::Outlet));
        }
        Ok(Outcome::Accepted)
    }

    /// Moves the node to the other side of its site.
    pub fn checkpoint(&mut self) -> Result<(), NodeFault> {
        self.engine.checkpoint()?;
        Ok(())
    }

    /// Crashes the node, and opens what the crash left of its site.
    pub fn crash(&mut self, alloc: Global, choice: &Choice) -> Result<(), NodeFault> {
        let engine = self.reopened(alloc, choice)?;
        drop(mem::replace(&mut self.engine, engine));
        self.printed = 0;
        Ok(())
    }

    // An engine over what a crash leaves of the site.
    fn reopened(&self, alloc: Global, choice: &Choice) -> Result<Flusher<MemorySite>, NodeFault>
        ensures { IfOk result (λ engine. engine.owes ≡ false) }
    {
        let image = self.site().image(alloc, choice)?;
        opened(alloc, image)
    }

    /// The number that its next message from a node has. None after the last number that there is.
    pub fn next_from(&self, peer: NodeId) -> Option<u64> {
        self.core().heard(peer).checked_add(1)
    }

    /// Whether a message went to a node under that number.
    pub fn has_sent(&self, to: NodeId, number: u64) -> bool {
        self.sent_to(to, number).is_some()
    }

    /// The message that went to a node under that number. None where none did.
    pub fn message(
        &self,
        alloc: Global,
        to: NodeId,
        number: u64,
    ) -> Result<Option<Message>, PlayFault> {
        let Some(sent) = self.sent_to(to, number) else {
            return Ok(None);
        };
        // The bytes are a message's spelling, so they are read again unless memory runs out.
        match decode_message(alloc, &sent.spelled) {
            Ok(message) => Ok(Some(message)),
            Err(_) => Err(PlayFault::NoMemory),
        }
    }

    // The numbers of a link count the posts that were made after its row.
    fn sent_to(&self, to: NodeId, number: u64) -> Option<&Sent> {
        let link = self.core().links().get(to)?;
        let post = link.start.checked_add(number)?;
        let place = self
            .sent
            .binary_search_by_key(&post, |sent| sent.post)
            .ok()?;
        let sent = &self.sent[place];
        let is_receiver = sent
            .receivers
            .binary_search_by_key(&to.number(), |peer| peer.number())
            .is_ok();
        is_receiver.then_some(sent)
    }
}

fn opened(alloc: Global, site: MemorySite) -> Result<Flusher<MemorySite>, NodeFault>
    ensures { IfOk result (λ engine. engine.owes ≡ false) }
{
    match Flusher::open(alloc, site) {
        Ok((engine, core)) => {
            drop(core);
            Ok(engine)
        }
        Err(Back { site, fault }) => {
            drop(site);
            Err(NodeFault::Open(fault))
        }
    }
}
