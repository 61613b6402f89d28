//! The engine: one node, the site that keeps it, and where its next record goes.

ghost use Rattle.std.specs.Prelude.{max, ◌≡◌, ◌↔◌, ◌⊎◌, ◌≤◌, ◌<◌, ◌+◌, ◌^◌, ◌++◌, [], ℕ, List, true, false, nat_lt, None, Some, Ok, Err, IsTrue};
ghost use Rattle.std.specs.Prelude.{IfOk, IfErr, OnOk, OnErr, MatchResult, length};
ghost use Rattle.std.specs.FinMap as table;
ghost use Rattle.cc_messages.specs.declared.event.Event.{Event as EventValue};
ghost use Rattle.cc_site.specs.declared.site.Side.{Side as SideValue};
ghost use Rattle.cc_site.specs.declared.site.Call.TheVariants.{Write, Sync};
ghost use Rattle.cc_site.specs.Sides.{other};
ghost use Rattle.cc_site.specs.Moments.{Possible, Rose};
ghost use Rattle.cc_site.specs.Runs.{KeepsOutlet, EachMoment};
ghost use Rattle.cc_site.specs.Reads.{bytes_of};
ghost use Rattle.cc_views.specs.Limits.{counter_limit};
ghost use Rattle.cc_links.specs.Links.{heard_from};
ghost use Rattle.cc_node.specs.Lawful.{IsLawfulNode};
ghost use Rattle.cc_node.specs.Node.{Node as NodeValue, IsLawful, after, line};
ghost use Rattle.cc_node_state.specs.Sides.{StandsAt};
ghost use Rattle.cc_checkpoint.specs.Faults.{FaultRose};
ghost use Rattle.cc_journal.specs.Batches.{AreLawful, events_in, batch_bytes};
ghost use Rattle.cc_journal.specs.GoodSides.{MayBeLeft, EachLeaves};
ghost use Rattle.cc_journal.specs.Journals.{end_ahead, room_limit, IsGoodNow, KeepsGood, StaysGood};
ghost use Rattle.cc_flush.specs.Engine.{IsOwed, held_of};
ghost use Rattle.cc_flush.specs.Commits.{CommitStops, FlushFails, Flushes, LeadsTo, LeadsToOwed, PutsAgain};
ghost use Rattle.cc_flush.specs.declared.flusher.CheckpointFault.TheVariants as checkpoint_faults;
ghost use Rattle.cc_flush.specs.Checkpoints.{Moves, MoveStops};
ghost use Rattle.cc_flush.specs.Openings.{AreSettled, IsCounted, OpenFails, OpenStops, Opens};
ghost use Rattle.cc_flush.specs.Resends.{resends, reply_again, ack_again};

use crate::back::Back;
use crate::checkpoint::move_over;
use crate::commit::{length_after, make_durable};
use crate::opened::Opened;
use crate::opening::{Found, open_sides};
use crate::resend::{put_ack_again, put_kept_answer, put_kept_posts};
use cc_checkpoint::{OpenFault, Piece};
use cc_journal::{Batch, Forfeit, Journal, Landed, ROOM_LIMIT};
use cc_node::{Core, Node};
use cc_site::{DeviceFault, Side, Site};
use cc_views::{COUNTER_LIMIT, NoMemory, NodeId};
use std::alloc::Global;
use std::error::Error;
use std::fmt;
use std::marker::Model;
use std::snapshot::Snapshot;

/// A disk call failed, and the engine has ended: until the site is opened again every call but the readers and `close`
/// answers the same.
#[derive(Clone, Copy, Debug, PartialEq, Eq)]
pub struct Failed {
    pub fault: DeviceFault,
}

/// `Failed`, and the disk call that failed: `Failed A Sync`.
impl fmt::Display for Failed {
    fn fmt<W: fmt::Write>(&self, f: &mut fmt::Formatter<W>) -> fmt::Result {
        let fault = self.fault;
        write!(f, "Failed {fault}")
    }
}

impl Error for Failed {}

/// Why a checkpoint wasn't made.
#[derive(Clone, Copy, Debug, PartialEq, Eq)]
pub enum CheckpointFault {
    /// A disk call failed, and the engine has ended.
    Failed(Failed),
    /// The generation in use is 2^62 or more. Nothing has changed.
    Spent,
}

/// `Failed`, and the disk call that failed, or `Spent`.
impl fmt::Display for CheckpointFault {
    fn fmt<W: fmt::Write>(&self, f: &mut fmt::Formatter<W>) -> fmt::Result {
        match self {
            CheckpointFault::Failed(failed) => write!(f, "{failed}"),
            CheckpointFault::Spent => write!(f, "Spent"),
        }
    }
}

impl Error for CheckpointFault {}

impl From<Failed> for CheckpointFault {
    ghost from_gives = { λ failed fault. fault ≡ checkpoint_faults.Failed failed };

    fn from(failed: Failed) -> Self {
        CheckpointFault::Failed(failed)
    }
}

/// A node that is kept on the two sides of a site. Nothing leaves it before the event that made it is durable.
#[derive(Drop)]
pub struct Flusher<S: Site> {
    site: S,
    node: Node,
    journal: Journal,
    generation: u64,
    // How long the side in use is.
    used: u64,
    // The batch that is durable and whose outputs weren't put, if there is one: what it held, as clauses see it, at no cost.
    owed: Option<Snapshot<Landed>>,
    failed: Option<DeviceFault>,
    opened: Opened,
    // What a checkpoint writes through.
    piece: Piece,
}

impl<S: Site> Model for Flusher<S> {
    ghost use Rattle.std.specs.Prelude.{[], is_some};
    ghost use Rattle.std.specs.Option.{option_map_or};
    ghost use Rattle.cc_flush.specs.Engine.{Engine, engine_code, IsSound};

    ghost Value = { Engine S };

    ghost coded = { engine_code S.code };

    ghost view = { λ f. record {
      site = f.site;
      twin = f.node;
      at = f.journal;
      generation = f.generation;
      used = f.used;
      owes = is_some f.owed;
      owed = option_map_or (λ s. s.value) f.owed [];
      failed = f.failed;
      opened = f.opened;
    } };

    ghost invariant = { λ f. IsSound S.Site (record {
      site = f.site;
      twin = f.node;
      at = f.journal;
      generation = f.generation;
      used = f.used;
      owes = is_some f.owed;
      owed = option_map_or (λ s. s.value) f.owed [];
      failed = f.failed;
      opened = f.opened;
    }) };
}

impl<S: Site> Flusher<S> {
    /// The node after all durable events whose outputs were put.
    pub fn twin(&self) -> &Node
        ensures { result.now ≡ self.now.twin }
    {
        &self.node
    }

    /// The site that keeps it.
    pub fn site(&self) -> &S
        ensures { result.now ≡ self.now.site }
    {
        &self.site
    }

    /// The fault that ended the engine. None for one that goes on.
    pub fn fault(&self) -> Option<DeviceFault>
        ensures { result ≡ self.now.failed }
    {
        self.failed
    }

    /// Whether a batch is durable whose outputs weren't put: between a Landed and its `release`.
    pub fn owes(&self) -> bool
        ensures { result ≡ self.now.owes }
    {
        self.owed.is_some()
    }

    /// What `open` found: the side that was in use, how many records counted on it, and how many events they held.
    pub fn opened(&self) -> Opened
        ensures { result ≡ self.now.opened }
    {
        self.opened
    }

    /// The side in use.
    pub fn side(&self) -> Side
        ensures { result ≡ self.now.at.side }
    {
        self.journal.side()
    }

    /// The generation in use.
    pub fn generation(&self) -> u64
        ensures { result ≡ self.now.generation }
    {
        self.generation
    }

    /// How many bytes of the side in use hold the node: up to the closed gate that ends its records, and with it. What lies
    /// behind that, as zeros ahead, has no meaning.
    pub fn held(&self) -> u64
        ensures { result ≡ held_of self.now }
    {
        self.journal.place().saturating_add(1)
    }

    /// How many bytes the side in use has.
    pub fn used(&self) -> u64
        ensures used { result ≡ self.now.used }
        ensures length { S.honest self.now.site → self.now.failed ≡ None → result ≡ length (S.state self.now.site self.now.at.side).bytes }
    {
        self.used
    }

    /// Whether there is room for one more record: the side in use is below 2^61 bytes.
    pub fn room(&self) -> bool
        ensures room { IsTrue result ↔ (self.now.used < room_limit) }
        ensures used { S.honest self.now.site → self.now.failed ≡ None → IsTrue result ↔ (length (S.state self.now.site self.now.at.side).bytes < room_limit) }
    {
        self.used < ROOM_LIMIT
    }

    /// Opens two sides: makes sure of both, and reads what they hold. It writes nothing. Beside the engine it gives the core
    /// of its node once more. NotFormatted, Damaged and Version come where the reading rules name them, Device and NoMemory
    /// where they are met. Side A is made sure of first, and no side is looked at before side B is made sure of too.
    pub fn open(alloc: Global, site: S) -> Result<(Self, Core), Back<S, OpenFault>>
        ensures outlet { MatchResult result (λ opened. KeepsOutlet S.Site site opened.0.site) (λ b. KeepsOutlet S.Site site b.site) }
        ensures engine { IfOk result (λ opened. (opened.0.failed ≡ None) × (opened.0.owes ≡ false) × (opened.1 ≡ opened.0.twin.core)) }
        ensures stands { S.honest site → IfOk result (λ opened. StandsAt (S.state site opened.0.at.side).bytes
            (S.state site (other opened.0.at.side)).bytes opened.0.generation opened.0.at.place opened.0.twin) }
        ensures counted { S.honest site → IfOk result (λ opened. IsCounted (bytes_of S.Site site) opened.0.twin opened.0.at opened.0.generation
            opened.0.opened) }
        ensures faults { S.honest site → IfErr result (λ b. OpenFails (bytes_of S.Site site) b.fault) }
        ensures settled { S.honest site → MatchResult result (λ opened. AreSettled (S.state site) (S.state opened.0.site))
            (λ b. OpenStops (S.state site) (S.state b.site) b.fault) }
        // At each moment a crash leaves what it might have left at the start, and nothing is put.
        ensures every_moment { S.honest site → MatchResult result (λ opened. EachMoment S.Site site opened.0.site (Possible (S.state site) (S.sent site)))
            (λ b. EachMoment S.Site site b.site (Possible (S.state site) (S.sent site))) }
        ensures at_rest { S.honest site → ((side : SideValue) → 1 ≤ length (S.state site side).bytes)
            → IfOk result (λ opened. IsGoodNow S.Site opened.0.site opened.0.twin [] (length (S.sent opened.0.site))) }
        ensures count { MatchResult result (λ opened. S.failures opened.0.site ≡ S.failures site)
            (λ b. FaultRose Opens (S.failures site) (S.failures b.site) b.fault) }
    {
        let mut site = site;
        let Found {
            node,
            journal,
            generation,
            used,
            opened,
            piece,
        } = match open_sides(alloc, &mut site) {
            Ok(found) => found,
            Err(fault) => return Err(Back { site, fault }),
        };
        let core = match node.core().copy(alloc) {
            Ok(core) => core,
            Err(NoMemory) => {
                drop(node);
                drop(piece);
                return Err(Back {
                    site,
                    fault: OpenFault::NoMemory,
                });
            }
        };
        Ok((
            Flusher {
                site,
                node,
                journal,
                generation,
                used,
                owed: None,
                failed: None,
                opened,
                piece,
            },
            core,
        ))
    }

    // An engine that has ended answers the fault that ended it.
    fn check(&self) -> Result<(), Failed>
        ensures goes_on { OnOk result (self.now.failed ≡ None) }
        ensures ended { IfErr result (λ f. self.now.failed ≡ Some f.fault) }
    {
        match self.failed {
            Some(fault) => Err(Failed { fault }),
            None => Ok(()),
        }
    }

    /// Makes a batch durable, under two syncs. Its outputs are owed from then on, until `release` puts them. Where its record
    /// makes the side longer, zeros go behind it up to the next multiple of the site's stride: they take no room. It takes no
    /// memory. It fails only where a disk call does; then nothing is put, and the engine has ended.
    pub fn commit(&mut self, batch: &Batch) -> Result<Landed, Failed>
        requires owes { self.old.owes ≡ false }
        requires some { 1 ≤ length batch.now }
        requires lawful { AreLawful self.old.twin batch.now }
        requires room { self.old.used < room_limit }
        ensures ended { (fault : DeviceFault) → self.old.failed ≡ Some fault → (result ≡ Err (record { fault = fault })) × (self.new ≡ self.old) }
        ensures landed { IfOk result (λ landed. landed ≡ batch.now) }
        ensures owed { IfOk result (IsOwed self.new) }
        ensures owes { MatchResult result (λ _. self.new.owes ≡ true) (λ _. self.new.owes ≡ false) }
        ensures same_twin { self.new.twin ≡ self.old.twin }
        ensures moved { OnOk result (self.new.at ≡ record { side = self.old.at.side; place = self.old.at.place + length (batch_bytes batch.now) }) }
        ensures used { OnOk result (self.new.used ≡ max self.old.used (end_ahead S.STRIDE self.old.used (self.new.at.place + 1))) }
        ensures room { OnOk result ((self.new.used < room_limit) ↔ (self.new.at.place + 1 < room_limit)) }
        ensures kept { OnErr result ((self.new.at ≡ self.old.at) × (self.new.used ≡ self.old.used)) }
        ensures goes_on { OnOk result (self.new.failed ≡ None) }
        ensures failed { IfErr result (λ f. self.new.failed ≡ Some f.fault) }
        ensures same_generation { self.new.generation ≡ self.old.generation }
        ensures same_opened { self.new.opened ≡ self.old.opened }
        ensures honest { S.honest self.old.site ↔ S.honest self.new.site }
        ensures tells { (S.tells self.old.site ↔ S.tells self.new.site) × (S.sent self.new.site ≡ S.sent self.old.site) }
        ensures other_side { S.honest self.old.site → S.state self.new.site (other self.old.at.side) ≡ S.state self.old.site (other self.old.at.side) }
        ensures every_moment { S.honest self.old.site → self.old.failed ≡ None → KeepsGood S.Site (LeadsTo S.Site self.old) (events_in batch.now)
            self.old.site self.new.site }
        ensures at_rest { S.honest self.old.site → self.old.failed ≡ None → (start : NodeValue) (events : List EventValue) (opening : ℕ)
            → LeadsTo S.Site self.old start events opening
            → OnOk result (IsGoodNow S.Site self.new.site start (events ++ events_in batch.now) opening) }
        ensures stops { S.honest self.old.site → self.old.failed ≡ None
            → OnErr result (CommitStops S.STRIDE self.old.used (S.state self.old.site self.old.at.side) self.old.at.place batch.now
            (S.state self.new.site self.old.at.side)) }
        ensures device { self.old.failed ≡ None → IfErr result (λ f. (f.fault.side ≡ self.old.at.side) × ((f.fault.call ≡ Write) ⊎ (f.fault.call ≡ Sync))) }
        ensures count { self.old.failed ≡ None → MatchResult result (λ _. S.failures self.new.site ≡ S.failures self.old.site)
            (λ _. Rose (S.failures self.old.site) (S.failures self.new.site)) }
    {
        self.check()?;
        match make_durable(&mut self.journal, &mut self.site, batch, self.used) {
            Ok(landed) => {
                self.used = length_after::<S>(self.used, self.journal.place() + 1);
                self.owed = Some(Snapshot::of(&landed));
                Ok(landed)
            }
            Err(Forfeit { fault }) => {
                self.failed = Some(fault);
                Err(Failed { fault })
            }
        }
    }

    /// Takes the events of the batch that is owed, which `commit` made durable last, out of it and into the node, and puts the
    /// outputs of each in turn. It makes no disk call, takes no memory and can't fail. Nothing is owed then.
    pub fn release(&mut self, landed: Landed, batch: &mut Batch)
        requires batch { batch.old ≡ landed }
        requires owed { IsOwed self.old landed }
        ensures empties { batch.new ≡ [] }
        ensures twin { self.new.twin ≡ after self.old.twin (events_in landed) }
        ensures owes { self.new.owes ≡ false }
        ensures same { (self.new.at ≡ self.old.at) × (self.new.generation ≡ self.old.generation) × (self.new.used ≡ self.old.used)
            × (self.new.failed ≡ self.old.failed) }
        ensures same_opened { self.new.opened ≡ self.old.opened }
        ensures honest { S.honest self.old.site ↔ S.honest self.new.site }
        ensures same_sides { S.honest self.old.site → S.state self.new.site ≡ S.state self.old.site }
        ensures told { S.tells self.new.site → S.tells self.old.site × (S.sent self.new.site ≡ S.sent self.old.site ++ line self.old.twin (events_in landed)) }
        // At each moment a crash leaves what it might have left before, also where the outlet doesn't tell.
        ensures contents { S.honest self.old.site → EachLeaves S.Site (MayBeLeft (S.state self.old.site)) self.old.site self.new.site }
        ensures good { S.honest self.old.site → S.tells self.new.site → StaysGood S.Site (LeadsToOwed S.Site landed self.old) self.old.site self.new.site }
        ensures count { S.failures self.new.site ≡ S.failures self.old.site }
    {
        landed.put_outputs(batch, &mut self.node, &mut self.site);
        self.owed = None;
    }

    /// Makes a batch durable and puts its outputs: a `commit`, and then a `release`. It takes no memory. It fails only where
    /// a disk call does; then the batch is given up, nothing is put, and the engine has ended. The batch is empty then.
    pub fn flush(&mut self, batch: &mut Batch) -> Result<(), Failed>
        requires owes { self.old.owes ≡ false }
        requires some { 1 ≤ length batch.old }
        requires lawful { AreLawful self.old.twin batch.old }
        requires room { self.old.used < room_limit }
        ensures empties { batch.new ≡ [] }
        ensures ended { (fault : DeviceFault) → self.old.failed ≡ Some fault → (result ≡ Err (record { fault = fault })) × (self.new ≡ self.old) }
        ensures flushed { self.old.failed ≡ None → MatchResult result
            (λ _. Flushes S.Site batch.old self.old self.new)
            (λ f. FlushFails S.Site batch.old self.old self.new f.fault) }
        ensures same_opened { self.new.opened ≡ self.old.opened }
    {
        match self.commit(batch) {
            Ok(landed) => {
                self.release(landed, batch);
                Ok(())
            }
            Err(failed) => {
                batch.clear();
                Err(failed)
            }
        }
    }

    /// Moves the node to the other side, under the next generation: then that side is in use, with no record behind the
    /// node's state, and the old side is one closed byte. The node is the same, nothing is put, and it takes no memory.
    /// A crash at any moment leaves two sides that stand for the node. Spent comes exactly where the generation in use is
    /// 2^62 or more, and changes nothing. Failed comes only where a disk call fails, and ends the engine.
    pub fn checkpoint(&mut self) -> Result<(), CheckpointFault>
        requires owes { self.old.owes ≡ false }
        ensures ended { (fault : DeviceFault) → self.old.failed ≡ Some fault → (result ≡ Err (checkpoint_faults.Failed (record { fault = fault })))
            × (self.new ≡ self.old) }
        ensures spent { self.old.failed ≡ None → counter_limit ≤ self.old.generation → (result ≡ Err checkpoint_faults.Spent) × (self.new ≡ self.old) }
        ensures moves { self.old.failed ≡ None → self.old.generation < counter_limit → MatchResult result (λ _. Moves S.Site self.old self.new)
            (MoveStops S.Site self.old self.new) }
        ensures same_twin { self.new.twin ≡ self.old.twin }
        ensures same_opened { self.new.opened ≡ self.old.opened }
        ensures owes { self.new.owes ≡ false }
        ensures honest { S.honest self.old.site ↔ S.honest self.new.site }
        ensures tells { (S.tells self.old.site ↔ S.tells self.new.site) × (S.sent self.new.site ≡ S.sent self.old.site) }
        ensures good { S.honest self.old.site → self.old.failed ≡ None → StaysGood S.Site (LeadsTo S.Site self.old) self.old.site self.new.site }
    {
        self.check()?;
        if self.generation >= COUNTER_LIMIT {
            return Err(CheckpointFault::Spent);
        }
        let next = self.generation + 1;
        match move_over(
            &mut self.site,
            &mut self.journal,
            next,
            &self.node,
            &mut self.piece,
        ) {
            Ok(()) => {
                self.generation = next;
                self.used = self.journal.place() + 1;
                Ok(())
            }
            Err(fault) => {
                let failed = Failed { fault };
                self.failed = Some(failed.fault);
                Err(CheckpointFault::Failed(failed))
            }
        }
    }

    /// Puts each kept post of the twin on each live link that is sent it and hasn't acknowledged it, by ascending number and
    /// then by ascending peer. How many outputs those are. It makes no disk call; only an engine that has ended answers
    /// Failed, and puts nothing.
    pub fn resend(&mut self) -> Result<u64, Failed>
        requires owes { self.old.owes ≡ false }
        ensures ended { (fault : DeviceFault) → self.old.failed ≡ Some fault → (result ≡ Err (record { fault = fault })) × (self.new ≡ self.old) }
        ensures count { self.old.failed ≡ None → result ≡ Ok (length (resends self.old.twin)) }
        ensures puts { self.old.failed ≡ None → PutsAgain S.Site (resends self.old.twin) self.old self.new }
        ensures same_opened { self.new.opened ≡ self.old.opened }
    {
        self.check()?;
        Ok(put_kept_posts(&self.node, &mut self.site))
    }

    /// Puts the answer that the twin keeps for a session, under the session's last request. Whether it keeps one; else
    /// nothing is put. It makes no disk call; only an engine that has ended answers Failed, and puts nothing.
    pub fn again(&mut self, session: u64) -> Result<bool, Failed>
        requires owes { self.old.owes ≡ false }
        ensures ended { (fault : DeviceFault) → self.old.failed ≡ Some fault → (result ≡ Err (record { fault = fault })) × (self.new ≡ self.old) }
        ensures kept { self.old.failed ≡ None → result ≡ Ok (table.contains_key self.old.twin.outbox.answers session) }
        ensures puts { self.old.failed ≡ None → PutsAgain S.Site (reply_again session self.old.twin) self.old self.new }
        ensures same_opened { self.new.opened ≡ self.old.opened }
    {
        self.check()?;
        Ok(put_kept_answer(&self.node, &mut self.site, session))
    }

    /// Puts the acknowledgement of the last number that the twin has heard from a peer. Whether it heard any; else nothing is
    /// put. It makes no disk call; only an engine that has ended answers Failed, and puts nothing.
    pub fn reack(&mut self, peer: NodeId) -> Result<bool, Failed>
        requires owes { self.old.owes ≡ false }
        ensures ended { (fault : DeviceFault) → self.old.failed ≡ Some fault → (result ≡ Err (record { fault = fault })) × (self.new ≡ self.old) }
        ensures heard { self.old.failed ≡ None → result ≡ Ok (nat_lt 0 (heard_from peer self.old.twin.core.links)) }
        ensures puts { self.old.failed ≡ None → PutsAgain S.Site (ack_again peer self.old.twin) self.old self.new }
        ensures same_opened { self.new.opened ≡ self.old.opened }
    {
        self.check()?;
        Ok(put_ack_again(&self.node, &mut self.site, peer))
    }

    /// Gives the site back.
    pub fn close(self) -> S
        ensures { result ≡ self.site }
    {
        let Flusher {
            site,
            node,
            journal,
            generation: _,
            used: _,
            owed: _,
            failed: _,
            opened: _,
            piece,
        } = self;
        drop(node);
        drop(journal);
        drop(piece);
        site
    }
}
