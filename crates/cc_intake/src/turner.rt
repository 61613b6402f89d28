//! The turner, which hands what it pops to its engine, batch by batch. Nothing here takes the lock of the intake.

ghost use Rattle.std.specs.Prelude.{◌≡◌, ◌↔◌, ◌≤◌, ◌<◌, ◌^◌, ℕ, [], None, Some, Ok, Err, false, nat_lt, length, is_some, IsTrue, IfOk, IfErr, OnOk};
ghost use Rattle.std.specs.Prelude.{MatchResult};
ghost use Rattle.std.specs.FinMap as table;
ghost use Rattle.cc_views.specs.Limits.{counter_limit};
ghost use Rattle.cc_links.specs.Links.{heard_from};
ghost use Rattle.cc_node.specs.Node.{after};
ghost use Rattle.cc_journal.specs.Batches.{AreLawful, events_in};
ghost use Rattle.cc_journal.specs.Journals.{room_limit, StaysGood};
ghost use Rattle.cc_flush.specs.Commits.{FlushFails, Flushes, LeadsTo, PutsAgain};
ghost use Rattle.cc_flush.specs.Checkpoints.{Moves, MoveStops};
ghost use Rattle.cc_flush.specs.Resends.{resends, reply_again, ack_again};
ghost use Rattle.cc_intake.specs.Histories.{life_limit};
ghost use Rattle.cc_intake.specs.Turners.{listed, popped};
ghost use Rattle.cc_intake.specs.Turns.{IsDone, Gathers, Turns};

use crate::ends::{Consumer, Queue};
use crate::rule::{Lane, Life};
use cc_flush::{CheckpointFault, Failed, Flusher};
use cc_journal::{Batch, Entry};
use cc_site::{DeviceFault, Site};
use cc_views::NodeId;
use std::marker::Model;
use std::mem;
use std::sync::Wait;

/// How many events a turn took, and whether the engine has no room for another record.
#[derive(Clone, Copy, PartialEq, Eq)]
pub struct Turned {
    pub events: usize,
    pub full: bool,
}

/// An engine with the end of the queue that pops. Contracts see the entries that it has handed to the engine, the one that
/// it keeps for the next turn, how often it found the queue empty, and the engine.
#[derive(Drop)]
pub struct Turner<S: Site, L: Life, Q: Lane> {
    engine: Flusher<S>,
    consumer: Consumer<L, Q>,
    kept: Option<Entry>,
    // What a turn gathers. It is empty between the turns, and stays where it is: it has the room of 64 entries.
    batch: Batch,
    // How many entries were handed to the engine.
    flushed: u64,
}

impl<S: Site, L: Life, Q: Lane> Model for Turner<S, L, Q> {
    ghost use Rattle.std.specs.Prelude.{◌≡◌, ℕ, [], take};
    ghost use Rattle.cc_intake.specs.Turners.{Turning, turning_code, IsTurner, TellsEach};

    ghost Value = { Turning S };

    ghost coded = { turning_code S.code };

    ghost view = { λ t. record { handed = take t.flushed t.consumer.entries; kept = t.kept; finds = t.consumer.finds; engine = t.engine } };

    ghost invariant = { λ t. IsTurner L.opening t.consumer.entries t.flushed t.kept t.engine × (t.batch ≡ []) × TellsEach L.flushed };
}

impl<S: Site, L: Life, Q: Lane> Turner<S, L, Q> {
    #[tactic(auto, using(crate::specs::Turners::tells_each))]
    pub(crate) fn new(engine: Flusher<S>, consumer: Consumer<L, Q>) -> Self
        requires owes { engine.owes ≡ false }
        requires twin { engine.failed ≡ None → engine.twin ≡ L.opening }
        requires consumer { consumer ≡ record { entries = []; finds = 0 } }
        requires flushed { (count : ℕ) → L.flushed count }
        ensures { result ≡ record { handed = []; kept = None; finds = 0; engine = engine } }
    {
        Turner {
            engine,
            consumer,
            kept: None,
            batch: Batch::new(),
            flushed: 0,
        }
    }

    // The engine, the end of the queue, the kept entry, and how many entries were handed over.
    pub(crate) fn close(self) -> (Flusher<S>, Consumer<L, Q>, Option<Entry>, u64)
        ensures engine { result.0 ≡ self.engine }
        ensures consumer { result.1.entries ≡ popped self }
        ensures kept { result.2 ≡ self.kept }
        ensures flushed { (result.3 ≡ length self.handed) × (result.3 ≤ life_limit) }
    {
        let Turner {
            engine,
            consumer,
            kept,
            batch: _,
            flushed,
        } = self;
        (engine, consumer, kept, flushed)
    }

    /// The engine, which owes nothing. While it goes on, its node is that after the entries handed over.
    pub fn engine(&self) -> &Flusher<S>
        ensures engine { result.now ≡ self.now.engine }
        ensures owes { result.now.owes ≡ false }
        ensures twin { result.now.failed ≡ None → result.now.twin ≡ after L.opening (events_in self.now.handed) }
    {
        &self.engine
    }

    /// How many entries were handed to the engine. After a turn that didn't fail so many events are durable.
    pub fn handed(&self) -> u64
        ensures { result ≡ length self.now.handed }
    {
        self.flushed
    }

    /// Whether it keeps an entry for the next turn, since no record took it yet.
    pub fn keeps_one(&self) -> bool
        ensures { result ≡ is_some self.now.kept }
    {
        self.kept.is_some()
    }

    /// Takes what waits in the queue, up to one batch of 64 events that one record takes, makes it durable and puts its
    /// outputs. An entry that the record doesn't take is kept for the next turn. `full` is told where the engine had no room
    /// at the start, and then nothing was taken. It fails only where a disk call does: then the batch is given up, and the
    /// engine has ended.
    pub fn turn<R: Wait>(&mut self, rt: &R, queue: &Queue<L, Q>) -> Result<Turned, Failed>
        ensures turned { Turns S.Site L.reached self.old self.new result }
        ensures twin { OnOk result (self.new.engine.twin ≡ after L.opening (events_in self.new.handed)) }
        ensures flushed { OnOk result (L.flushed (length self.new.handed)) }
        ensures full { IfOk result (λ t. IsTrue t.full ↔ (room_limit ≤ self.old.engine.used)) }
        ensures untouched { IfOk result (λ t. IsTrue t.full → self.new ≡ self.old) }
        ensures failed { IfErr result (λ f. (self.new.engine.failed ≡ Some f.fault) × (self.new.engine.twin ≡ self.old.engine.twin)) }
        ensures ended { (fault : DeviceFault) → self.old.engine.failed ≡ Some fault → (result ≡ Err (record { fault = fault })) × (self.new ≡ self.old) }
    {
        if let Some(fault) = self.engine.fault() {
            return Err(Failed { fault });
        }
        if !self.engine.room() {
            return Ok(Turned {
                events: 0,
                full: true,
            });
        }
        let kept = self.kept.take();
        let kept = gather(rt, queue, &mut self.consumer, kept, &mut self.batch);
        drop(mem::replace(&mut self.kept, kept));
        let events = self.batch.len();
        self.flushed += events as u64;
        flush(&mut self.engine, &mut self.batch)?;
        Ok(Turned {
            events,
            full: false,
        })
    }

    /// Moves the engine's node to the other side, as `Flusher::checkpoint` does.
    pub fn checkpoint(&mut self) -> Result<(), CheckpointFault>
        ensures lists { self.new ≡ record self.old { engine = self.new.engine } }
        ensures ended { (fault : DeviceFault) → self.old.engine.failed ≡ Some fault → (result ≡ Err (CheckpointFault.Failed (record { fault = fault })))
            × (self.new ≡ self.old) }
        ensures spent { self.old.engine.failed ≡ None → counter_limit ≤ self.old.engine.generation → (result ≡ Err CheckpointFault.Spent)
            × (self.new ≡ self.old) }
        ensures moves { self.old.engine.failed ≡ None → self.old.engine.generation < counter_limit
            → MatchResult result (λ _. Moves S.Site self.old.engine self.new.engine) (MoveStops S.Site self.old.engine self.new.engine) }
        ensures same_twin { self.new.engine.twin ≡ self.old.engine.twin }
        ensures owes { self.new.engine.owes ≡ false }
        ensures honest { S.honest self.old.engine.site ↔ S.honest self.new.engine.site }
        ensures tells { (S.tells self.old.engine.site ↔ S.tells self.new.engine.site) × (S.sent self.new.engine.site ≡ S.sent self.old.engine.site) }
        ensures good { S.honest self.old.engine.site → self.old.engine.failed ≡ None → StaysGood S.Site (LeadsTo S.Site self.old.engine)
            self.old.engine.site self.new.engine.site }
    {
        self.engine.checkpoint()
    }

    /// Puts each kept post again, as `Flusher::resend` does, from the node as it is durable.
    pub fn resend(&mut self) -> Result<u64, Failed>
        ensures lists { self.new ≡ record self.old { engine = self.new.engine } }
        ensures ended { (fault : DeviceFault) → self.old.engine.failed ≡ Some fault → (result ≡ Err (record { fault = fault })) × (self.new ≡ self.old) }
        ensures count { self.old.engine.failed ≡ None → result ≡ Ok (length (resends self.old.engine.twin)) }
        ensures puts { self.old.engine.failed ≡ None → PutsAgain S.Site (resends self.old.engine.twin) self.old.engine self.new.engine }
    {
        self.engine.resend()
    }

    /// Puts the kept answer of a session again, as `Flusher::again` does, from the node as it is durable.
    pub fn again(&mut self, session: u64) -> Result<bool, Failed>
        ensures lists { self.new ≡ record self.old { engine = self.new.engine } }
        ensures ended { (fault : DeviceFault) → self.old.engine.failed ≡ Some fault → (result ≡ Err (record { fault = fault })) × (self.new ≡ self.old) }
        ensures kept { self.old.engine.failed ≡ None → result ≡ Ok (table.contains_key self.old.engine.twin.outbox.answers session) }
        ensures puts { self.old.engine.failed ≡ None → PutsAgain S.Site (reply_again session self.old.engine.twin) self.old.engine self.new.engine }
    {
        self.engine.again(session)
    }

    /// Acknowledges again what was heard last from a peer, as `Flusher::reack` does, from the node as it is durable.
    pub fn reack(&mut self, peer: NodeId) -> Result<bool, Failed>
        ensures lists { self.new ≡ record self.old { engine = self.new.engine } }
        ensures ended { (fault : DeviceFault) → self.old.engine.failed ≡ Some fault → (result ≡ Err (record { fault = fault })) × (self.new ≡ self.old) }
        ensures heard { self.old.engine.failed ≡ None → result ≡ Ok (nat_lt 0 (heard_from peer self.old.engine.twin.core.links)) }
        ensures puts { self.old.engine.failed ≡ None → PutsAgain S.Site (ack_again peer self.old.engine.twin) self.old.engine self.new.engine }
    {
        self.engine.reack(peer)
    }
}

// Pops entries into an empty batch behind the kept one, up to what one record takes. The entry that it doesn't take.
fn gather<L: Life, Q: Lane, R: Wait>(
    rt: &R,
    queue: &Queue<L, Q>,
    consumer: &mut Consumer<L, Q>,
    kept: Option<Entry>,
    batch: &mut Batch,
) -> Option<Entry>
    requires empty { batch.old ≡ [] }
    ensures gathers { Gathers consumer.old.entries kept batch.new result consumer.new.entries }
    ensures done { IsDone L.reached batch.new result consumer.new.entries consumer.old.finds consumer.new.finds }
    ensures lawful { AreLawful L.opening consumer.new.entries }
    ensures limit { length consumer.new.entries ≤ life_limit }
{
    consumer.look();
    begin(batch, kept);
    while batch.len() < Batch::MAX_ENTRIES {
        let Some(entry) = consumer.pop(rt, queue) else {
            return None;
        };
        if let Err(entry) = batch.push(entry) {
            return Some(entry);
        }
    }
    None
}

// Puts the kept entry into an empty batch.
fn begin(batch: &mut Batch, kept: Option<Entry>)
    requires { batch.old ≡ [] }
    ensures { batch.new ≡ listed kept }
{
    if let Some(entry) = kept {
        drop(mem::replace(batch, Batch::of_one(entry)));
    }
}

// Makes a batch durable and puts its outputs, if it has any entry. It is empty then.
fn flush<S: Site>(engine: &mut Flusher<S>, batch: &mut Batch) -> Result<(), Failed>
    requires owes { engine.old.owes ≡ false }
    requires goes_on { engine.old.failed ≡ None }
    requires lawful { AreLawful engine.old.twin batch.old }
    requires room { engine.old.used < room_limit }
    ensures empties { batch.new ≡ [] }
    ensures flushed { MatchResult result
        (λ _. Flushes S.Site batch.old engine.old engine.new)
        (λ f. FlushFails S.Site batch.old engine.old engine.new f.fault) }
{
    if batch.len() > 0 {
        engine.flush(batch)?;
    }
    Ok(())
}
