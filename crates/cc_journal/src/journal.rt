//! A record is written behind a closed gate and made sure of; then the gate is opened, and made sure of.

ghost use Rattle.std.specs.Prelude.{max, ◌≡◌, ◌↔◌, ◌≤◌, ◌<◌, ◌+◌, ◌^◌, ◌++◌, ◌∷◌, [], length, List, ℕ, OnOk, OnErr, IfOk, IfErr, MatchResult};
ghost use Rattle.std.specs.Prelude.{slice_index_or, ◌⊎◌};
ghost use Rattle.std.specs.Vec.{vec_capacity};
ghost use Rattle.cc_messages.specs.declared.event.Event.{Event};
ghost use Rattle.cc_wire.specs.Events.{IsEvent};
ghost use Rattle.cc_site.specs.declared.site.Call.TheVariants.{Write, Sync};
ghost use Rattle.cc_site.specs.Sides.{other, HalfWritten};
ghost use Rattle.cc_site.specs.Moments.{Rose};
ghost use Rattle.cc_node.specs.Node.{Node as NodeValue, after, line};
ghost use Rattle.cc_node_state.specs.Sides.{StandsBehind, SpellsBatch};
ghost use Rattle.cc_journal.specs.Batches.{AreLawful, events_in, batch_bytes};
ghost use Rattle.cc_journal.specs.Outlet.{Puts};
ghost use Rattle.cc_journal.specs.Journals.{Position, bytes_ahead, end_ahead, with_record, with_open_gate, record_room, room_limit, KeepsGood};
ghost use Rattle.cc_journal.specs.Journals.{MayHaveOpened, RestsFor, RestsNow};

use crate::ahead::zeros_ahead;
use crate::batch::Batch;
use crate::record::{put_record, put_zeros};
use cc_node::Node;
use cc_site::{DeviceFault, OPEN_GATE, STRIDE_LIMIT, Side, Site, write_durably};
use cc_views::NoMemory;
use std::alloc::Global;
use std::marker::Model;
use std::snapshot::Snapshot;

/// That a batch is written, and not made sure of yet. It names the batch, which stays where it is. It can be neither dropped
/// nor copied: `Journal::append` takes it.
pub struct Flight {
    batch: Snapshot<Batch>,
    // How many bytes its record and the gate behind that have.
    size: u64,
}

impl Model for Flight {
    ghost use Rattle.std.specs.Prelude.{List};
    ghost use Rattle.cc_journal.specs.declared.entry.Entry.{Entry as EntryValue};
    ghost use Rattle.cc_journal.specs.Codes.{entries_code};
    ghost use Rattle.cc_journal.specs.Journals.{IsWritten};

    ghost Value = { List EntryValue };

    ghost coded = { entries_code };

    ghost view = { λ f. f.batch.value };

    ghost invariant = { λ f. IsWritten f.batch.value f.size };
}

/// That a batch is durable, and its outputs are owed. It names the batch, which stays where it is. It can be neither dropped
/// nor copied.
pub struct Landed {
    batch: Snapshot<Batch>,
}

impl Model for Landed {
    ghost use Rattle.std.specs.Prelude.{List};
    ghost use Rattle.cc_journal.specs.declared.entry.Entry.{Entry as EntryValue};
    ghost use Rattle.cc_journal.specs.Codes.{entries_code};

    ghost Value = { List EntryValue };

    ghost coded = { entries_code };

    ghost view = { λ l. l.batch.value };
}

impl Landed {
    /// Takes the events of its batch out, and into the node that accepted them, and puts the outputs of each in turn. Nothing
    /// else spends it.
    pub fn put_outputs<S: Site>(self, batch: &mut Batch, node: &mut Node, site: &mut S)
        requires batch { batch.old ≡ self }
        requires lawful { AreLawful node.old self }
        ensures empties { batch.new ≡ [] }
        ensures node { node.new ≡ after node.old (events_in self) }
        ensures puts { Puts S.Site (line node.old (events_in self)) site.old site.new }
    {
        let Landed { batch: _ } = self;
        batch.put_outputs(node, site);
    }
}

/// A disk call failed, and the batch is given up.
#[derive(Clone, Copy, PartialEq, Eq)]
pub struct Forfeit {
    pub fault: DeviceFault,
}

impl From<DeviceFault> for Forfeit {
    ghost from_gives = { λ fault forfeit. forfeit ≡ record { fault = fault } };

    fn from(fault: DeviceFault) -> Self {
        Forfeit { fault }
    }
}

/// Where the next record of a side goes: behind the closed gate that ends its records. It has the room of one record and of
/// the zeros behind it, so that neither `write` nor `append` takes memory.
#[derive(Drop)]
pub struct Journal {
    side: Side,
    place: u64,
    text: Vec<u8>,
}

impl Model for Journal {
    ghost use Rattle.std.specs.Prelude.{◌≤◌};
    ghost use Rattle.std.specs.Vec.{vec_capacity};
    ghost use Rattle.cc_journal.specs.Codes.{position_code};
    ghost use Rattle.cc_journal.specs.Journals.{Position as Place, write_room};

    ghost Value = { Place };

    ghost coded = { position_code };

    ghost view = { λ j. record { side = j.side; place = j.place } };

    ghost invariant = { λ j. write_room ≤ vec_capacity j.text };
}

impl Journal {
    // How many bytes a record, its gate and the zeros behind that have at most.
    const WRITE_ROOM: usize = 5 + Batch::MAX_BYTES + STRIDE_LIMIT as usize;

    /// A journal of that side, whose next record goes behind the closed gate at `place`. NoMemory where a growth was
    /// refused.
    pub fn new(alloc: Global, side: Side, place: u64) -> Result<Self, NoMemory>
        ensures { IfOk result (λ j. j ≡ record { side = side; place = place }) }
    {
        let text = Vec::with_capacity(alloc, Self::WRITE_ROOM)?;
        Ok(Journal { side, place, text })
    }

    /// The side in use.
    pub fn side(&self) -> Side
        ensures { result ≡ self.now.side }
    {
        self.side
    }

    /// The place of the closed gate that ends the records, in bytes from 0.
    pub fn place(&self) -> u64
        ensures { result ≡ self.now.place }
    {
        self.place
    }

    /// The next record goes behind the closed gate at `place` of that side.
    pub fn move_to(&mut self, side: Side, place: u64)
        ensures { self.new ≡ record { side = side; place = place } }
    {
        self.side = side;
        self.place = place;
    }

    /// Writes the batch's record, and a closed gate, behind the closed gate that ends the records, without a sync. Until
    /// `append` opens that gate the record doesn't count, so a crash leaves what was there. Where that makes the side longer
    /// than the `used` bytes that it has, zeros go behind it in the same write, as many as `zeros_ahead` says.
    pub fn write<S: Site>(
        &mut self,
        site: &mut S,
        batch: &Batch,
        used: u64,
    ) -> Result<Flight, Forfeit>
        requires within { S.honest site.old → self.old.place + 1 ≤ length (S.state site.old self.old.side).bytes }
        requires room { self.old.place < room_limit }
        requires some { 1 ≤ length batch.now }
        ensures same { self.new ≡ self.old }
        ensures flight { IfOk result (λ flight. flight ≡ batch.now) }
        ensures honest { S.honest site.old ↔ S.honest site.new }
        ensures tells { (S.tells site.old ↔ S.tells site.new) × (S.sent site.new ≡ S.sent site.old) }
        ensures other_side { S.honest site.old → S.state site.new (other self.old.side) ≡ S.state site.old (other self.old.side) }
        ensures holds { S.honest site.old → OnOk result (S.state site.new self.old.side ≡ with_record S.STRIDE used (S.state site.old self.old.side)
            self.old.place batch.now) }
        ensures failed { S.honest site.old → OnErr result (HalfWritten (S.state site.old self.old.side)
            (self.old.place + 1) (length (bytes_ahead S.STRIDE used self.old.place batch.now)) (S.state site.new self.old.side)
            ⊎ (S.state site.new self.old.side ≡ S.state site.old self.old.side)) }
        ensures every_moment { S.honest site.old → (generation : ℕ) → KeepsGood S.Site (RestsNow S.Site site.old self.old generation)
            (events_in batch.now) site.old site.new }
        ensures at_rest { S.honest site.old → (generation : ℕ) (start : NodeValue) (events : List Event) (opening : ℕ)
            → RestsNow S.Site site.old self.old generation start events opening → RestsNow S.Site site.new self.old generation start events opening }
        ensures within { S.honest site.old → OnOk result (self.old.place + 1 ≤ length (S.state site.new self.old.side).bytes) }
        ensures behind { S.honest site.old → OnOk result (StandsBehind (S.state site.new self.old.side).bytes self.old.place (batch_bytes batch.now)) }
        ensures length { S.honest site.old → OnOk result (length (S.state site.new self.old.side).bytes
            ≡ max (length (S.state site.old self.old.side).bytes) (end_ahead S.STRIDE used (self.old.place + 1 + length (batch_bytes batch.now)))) }
        ensures device { IfErr result (λ forfeit. forfeit.fault ≡ record { side = self.old.side; call = Write }) }
        ensures fault { MatchResult result (λ _. S.failures site.new ≡ S.failures site.old) (λ forfeit. Rose (S.failures site.old) (S.failures site.new)) }
    {
        put_record(&mut self.text, batch);
        let size = self.text.len() as u64;
        let end = self.place + 1 + size;
        put_zeros(&mut self.text, zeros_ahead(S::STRIDE, used, end));
        site.write_at(self.side, self.place + 1, &self.text)?;
        Ok(Flight {
            batch: Snapshot::of(batch),
            size,
        })
    }

    /// Makes sure of the record, opens its gate, and makes sure of that: then the batch is durable. The flight is the
    /// last one that this journal wrote, and nothing else went to the side since.
    pub fn append<S: Site>(&mut self, site: &mut S, flight: Flight) -> Result<Landed, Forfeit>
        requires within { S.honest site.old → self.old.place + 1 ≤ length (S.state site.old self.old.side).bytes }
        requires room { self.old.place < room_limit }
        ensures landed { IfOk result (λ landed. landed ≡ flight) }
        ensures ok { OnOk result (self.new ≡ record { side = self.old.side; place = self.old.place + length (batch_bytes flight) }) }
        ensures err { OnErr result (self.new ≡ self.old) }
        ensures honest { S.honest site.old ↔ S.honest site.new }
        ensures tells { (S.tells site.old ↔ S.tells site.new) × (S.sent site.new ≡ S.sent site.old) }
        ensures other_side { S.honest site.old → S.state site.new (other self.old.side) ≡ S.state site.old (other self.old.side) }
        ensures holds { S.honest site.old → OnOk result (S.state site.new self.old.side ≡ with_open_gate (S.state site.old self.old.side) self.old.place) }
        ensures failed { S.honest site.old → OnErr result (MayHaveOpened (S.state site.old self.old.side) self.old.place (S.state site.new self.old.side)) }
        ensures every_moment { S.honest site.old → StandsBehind (S.state site.old self.old.side).bytes self.old.place (batch_bytes flight)
            → (generation : ℕ) → KeepsGood S.Site (RestsFor S.Site (events_in flight) site.old self.old generation) (events_in flight) site.old site.new }
        ensures at_rest { S.honest site.old → StandsBehind (S.state site.old self.old.side).bytes self.old.place (batch_bytes flight)
            → (generation : ℕ) (start : NodeValue) (events : List Event) (opening : ℕ) → RestsFor S.Site (events_in flight) site.old self.old generation
            start events opening
            → OnOk result (RestsNow S.Site site.new self.new generation start (events ++ events_in flight) opening) }
        ensures length { S.honest site.old → OnOk result (length (S.state site.new self.old.side).bytes ≡ length (S.state site.old self.old.side).bytes) }
        ensures short { OnOk result (length (batch_bytes flight) ≤ record_room) }
        ensures device { IfErr result (λ forfeit. (forfeit.fault.side ≡ self.old.side) × ((forfeit.fault.call ≡ Write) ⊎ (forfeit.fault.call ≡ Sync))) }
        ensures fault { MatchResult result (λ _. S.failures site.new ≡ S.failures site.old) (λ forfeit. Rose (S.failures site.old) (S.failures site.new)) }
    {
        let Flight { batch, size } = flight;
        site.sync(self.side)?;
        write_durably(site, self.side, self.place, &[OPEN_GATE])?;
        self.place += size;
        Ok(Landed { batch })
    }
}
