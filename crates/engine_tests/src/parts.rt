//! Batches of events that a node takes.

ghost use Rattle.std.specs.Prelude.{◌≡◌, ◌≤◌, ◌++◌, ◌∷◌, [], length, None};
ghost use Rattle.cc_node.specs.Core.{made};
ghost use Rattle.cc_node.specs.Node.{after};
ghost use Rattle.cc_node.specs.Refusals.{decides};
ghost use Rattle.cc_journal.specs.Batches.{AreLawful, events_in};

use cc_journal::{Batch, Entry};
use cc_messages::{Command, Event, Message, Share};
use cc_node::{Core, Node};
use cc_views::{NodeId, Text};
use std::process::Abort;

/// Which batch is committed.
#[derive(Clone, Copy)]
pub enum Part {
    /// The node enters.
    Enter,
    /// It enters and leaves.
    Visit,
    /// Session 7 asks for a store, as its first request.
    Ask,
    /// The same; then its post comes back, and the acknowledgement of that.
    Store,
    /// The two deliveries that follow the ask.
    Deliveries,
    /// Session 7 asks for a collect, as its second request.
    Collect,
    /// A session sets the flag, by its first request.
    Flag(u64),
    /// The own post of that number comes back.
    Own(u64),
    /// What is kept for the node itself lapses, and the node makes a snapshot.
    Away,
    /// The node makes a snapshot.
    Snapshot,
    /// It leaves.
    Leave,
    /// It is told that share.
    Share(u8),
}

/// The first event of a part.
pub fn first_of<R: Abort + AllocGlobal>(rt: &R, node: &Node, part: Part) -> Event {
    match part {
        Part::Enter | Part::Visit => Event::Enter,
        Part::Ask | Part::Store => Event::Ask {
            session: 7,
            request: 1,
            command: Command::Store(Text::new(b"a").unwrap()),
        },
        Part::Deliveries => delivery(rt, 1, node.outbox().post(1)),
        Part::Collect => Event::Ask {
            session: 7,
            request: 2,
            command: Command::Collect,
        },
        Part::Flag(session) => Event::Ask {
            session,
            request: 1,
            command: Command::SetFlag,
        },
        Part::Own(number) => delivery(rt, number, node.outbox().post(number)),
        Part::Away => Event::Lapse { node: id(1) },
        Part::Snapshot => Event::Snapshot,
        Part::Leave => Event::Leave,
        Part::Share(asks) => Event::Share {
            share: Share::new(asks).expect(rt, "a share"),
        },
    }
}

/// The id of this number, which is at least 1.
pub fn id(number: u32) -> NodeId {
    NodeId::new(number.max(1)).unwrap()
}

// What node 1 sent itself comes over its link.
fn delivery<R: Abort + AllocGlobal>(rt: &R, number: u64, post: Option<&Message>) -> Event {
    let post = post.expect(rt, "a post");
    let message = post.copy(rt.alloc()).expect(rt, "a copy");
    Event::Deliver {
        from: id(1),
        number,
        message,
    }
}

/// A node takes an event in, which it doesn't refuse.
pub fn settle<R: Abort + AllocGlobal>(rt: &R, node: &mut Node, event: Event) {
    let made = node
        .core()
        .made_or_refused(rt.alloc(), &event)
        .expect(rt, "the event is taken");
    node.settle(event, made);
}

/// The own post of that number comes back to node 1.
pub fn deliver<R: Abort + AllocGlobal>(rt: &R, node: &mut Node, number: u64) {
    let event = delivery(rt, number, node.outbox().post(number));
    settle(rt, node, event);
}

/// The entry of an event that a core takes.
pub fn entry_of<R: Abort + AllocGlobal>(rt: &R, core: &Core, event: Event) -> Entry
    ensures { (decides core.now event ≡ None) × (result ≡ record { event = event; made = made core.now event }) }
{
    Entry::of(rt.alloc(), core, event).expect(rt, "the event is taken")
}

// Puts an entry into a batch that has room for it.
fn put<R: Abort>(rt: &R, batch: &mut Batch, entry: Entry)
    ensures { batch.new ≡ batch.old ++ entry ∷ [] }
{
    if batch.push(entry).is_err() {
        panic!(rt; "the batch has no room");
    }
}

// Adds an event to a batch that is lawful from a node on, and to the core that the batch leads to.
fn add<R: Abort + AllocGlobal>(
    rt: &R,
    node: &Node,
    live: &mut Core,
    batch: &mut Batch,
    event: Event,
)
    requires lawful { AreLawful node.now batch.old }
    requires live { live.old ≡ (after node.now (events_in batch.old)).core }
    ensures lawful { AreLawful node.now batch.new }
    ensures live { live.new ≡ (after node.now (events_in batch.new)).core }
    ensures some { 1 ≤ length batch.new }
{
    let entry = entry_of(rt, live, event);
    live.apply(&entry.event);
    put(rt, batch, entry);
}

// Adds the delivery under that number of the post that the batch's last event makes.
fn add_delivery<R: Abort + AllocGlobal>(
    rt: &R,
    node: &Node,
    live: &mut Core,
    batch: &mut Batch,
    number: u64,
)
    requires lawful { AreLawful node.now batch.old }
    requires live { live.old ≡ (after node.now (events_in batch.old)).core }
    ensures lawful { AreLawful node.now batch.new }
    ensures live { live.new ≡ (after node.now (events_in batch.new)).core }
    ensures some { 1 ≤ length batch.new }
{
    let last = batch.entries().last().expect(rt, "an entry");
    let event = delivery(rt, number, last.made.post.as_ref());
    add(rt, node, live, batch, event);
}

// Adds the events of a part to a batch that begins with the node.
fn fill<R: Abort + AllocGlobal>(rt: &R, node: &Node, live: &mut Core, batch: &mut Batch, part: Part)
    requires lawful { AreLawful node.now batch.old }
    requires live { live.old ≡ (after node.now (events_in batch.old)).core }
    ensures lawful { AreLawful node.now batch.new }
    ensures live { live.new ≡ (after node.now (events_in batch.new)).core }
    ensures some { 1 ≤ length batch.new }
{
    let event = first_of(rt, node, part);
    add(rt, node, live, batch, event);
    match part {
        Part::Store => {
            add_delivery(rt, node, live, batch, 1);
            add_delivery(rt, node, live, batch, 2);
        }
        Part::Deliveries => add_delivery(rt, node, live, batch, 2),
        Part::Away => add(rt, node, live, batch, Event::Snapshot),
        Part::Visit => add(rt, node, live, batch, Event::Leave),
        _ => {}
    }
}

/// The batch of a part, which the node takes.
pub fn batch_of<R: Abort + AllocGlobal>(rt: &R, node: &Node, part: Part) -> Batch
    ensures lawful { AreLawful node.now result }
    ensures some { 1 ≤ length result }
{
    let mut live = node.core().copy(rt.alloc()).expect(rt, "a copy");
    let mut batch = Batch::new();
    fill(rt, node, &mut live, &mut batch, part);
    drop(live);
    batch
}
