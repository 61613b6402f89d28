//! Where the code meets the laws: a node's first life, in calls of the engine.

ghost use Rattle.std.specs.Prelude.{⊤, ◌≡◌, ◌≤◌, ◌++◌, [], ℕ, length, false, None, List, IfOk, OnOk, IfErr, MatchResult};
ghost use Rattle.cc_site.specs.declared.site.Side.TheVariants.{A, B};
ghost use Rattle.cc_messages.specs.declared.output.Output.{Output};
ghost use Rattle.cc_site.specs.Memory.{memory_state, memory_outputs, memory_lost, memory_failures, memory_moment, memory_left_since};
ghost use Rattle.cc_site.specs.Moments.{Contents};
ghost use Rattle.cc_site.specs.Runs.{EachMoment};
ghost use Rattle.cc_node.specs.Node.{Node, line};
ghost use Rattle.cc_node.specs.Openings.{told, fresh, IsOpening};
ghost use Rattle.cc_node_state.specs.Sides.{Stands};
ghost use Rattle.cc_journal.specs.Batches.{AreLawful, events_in};
ghost use Rattle.cc_journal.specs.Journals.{IsGood, IsGoodNow};
ghost use Rattle.cc_flush.specs.FormatSides.{AreShut, FormatFails};
ghost use Rattle.cc_laws.specs.FirstLife.{IsOfFirstLife, LeavesAll, LifeStops, LifeRose};

use cc_checkpoint::OpenFault;
use cc_flush::{Back, Failed, Flusher, FormatFault, format, node_or_fault, one_node};
use cc_journal::Batch;
use cc_node::Opening;
use cc_site::{MemorySite, Site};
use std::alloc::Global;

/// Where a first life stopped.
#[derive(Clone, Copy, PartialEq, Eq)]
pub enum Stopped {
    /// The sides weren't formatted.
    Format(FormatFault),
    /// What was formatted wasn't opened.
    Open(OpenFault),
    /// There is no room for a record.
    NoRoom,
    /// A disk call failed while the batch was made durable.
    Commit(Failed),
}

// Makes a batch durable and puts its outputs.
fn turn<S: Site>(engine: &mut Flusher<S>, batch: &mut Batch) -> Result<(), Stopped>
    requires honest { S.honest engine.old.site }
    requires owes { engine.old.owes ≡ false }
    requires goes_on { engine.old.failed ≡ None }
    requires some { 1 ≤ length batch.old }
    requires lawful { AreLawful engine.old.twin batch.old }
    ensures lived { S.tells engine.new.site → (opening : ℕ) → IsGoodNow S.Site engine.old.site engine.old.twin [] opening
        → OnOk result (LeavesAll (S.state engine.new.site) (S.sent engine.new.site) engine.old.twin (events_in batch.old) opening) }
    ensures put { S.tells engine.new.site
        → OnOk result (S.sent engine.new.site ≡ S.sent engine.old.site ++ line engine.old.twin (events_in batch.old)) }
    ensures stops { (opening : ℕ) → IsGoodNow S.Site engine.old.site engine.old.twin [] opening
        → IfErr result (LifeStops (λ _. ⊥) (S.state engine.new.site) (S.sent engine.new.site) engine.old.twin (events_in batch.old) opening) }
    ensures moments { (opening : ℕ) → IsGoodNow S.Site engine.old.site engine.old.twin [] opening
        → MatchResult result
        (λ _. S.tells engine.new.site → EachMoment S.Site engine.old.site engine.new.site (IsGood engine.old.twin (events_in batch.old) 0 opening))
        (λ _. EachMoment S.Site engine.old.site engine.new.site (IsGood engine.old.twin (events_in batch.old) 0 opening)) }
    ensures count { MatchResult result (λ _. S.failures engine.new.site ≡ S.failures engine.old.site)
        (LifeRose (S.failures engine.old.site) (S.failures engine.new.site)) }
{
    if !engine.room() {
        return Err(Stopped::NoRoom);
    }
    match engine.commit(batch) {
        Ok(landed) => {
            engine.release(landed, batch);
            Ok(())
        }
        Err(failed) => Err(Stopped::Commit(failed)),
    }
}

// Opens two sides that stand for a node, and hands it a batch.
fn live_on<S: Site>(alloc: Global, site: S, batch: Batch) -> Result<S, Back<S, Stopped>>
    requires honest { S.honest site }
    requires some { 1 ≤ length batch }
    requires lawful { (start : Node) → Stands (S.state site A).bytes (S.state site B).bytes start → AreLawful start batch }
    ensures lived { (start : Node) (opening : ℕ) → IsGoodNow S.Site site start [] opening
        → IfOk result (λ s. S.tells s → LeavesAll (S.state s) (S.sent s) start (events_in batch) opening) }
    ensures put { (start : Node) → Stands (S.state site A).bytes (S.state site B).bytes start
        → IfOk result (λ s. S.tells s → S.sent s ≡ S.sent site ++ line start (events_in batch)) }
    ensures stops { (start : Node) (opening : ℕ) → IsGoodNow S.Site site start [] opening
        → IfErr result (λ b. LifeStops (λ _. ⊥) (S.state b.site) (S.sent b.site) start (events_in batch) opening b.fault) }
    ensures moments { (start : Node) (opening : ℕ) → IsGoodNow S.Site site start [] opening
        → MatchResult result (λ s. S.tells s → EachMoment S.Site site s (IsGood start (events_in batch) 0 opening))
        (λ b. EachMoment S.Site site b.site (IsGood start (events_in batch) 0 opening)) }
    ensures count { MatchResult result (λ s. S.failures s ≡ S.failures site) (λ b. LifeRose (S.failures site) (S.failures b.site) b.fault) }
{
    one_node();
    node_or_fault();
    let mut engine = match Flusher::open(alloc, site) {
        Ok((engine, _)) => engine,
        Err(Back { site, fault }) => {
            return Err(Back {
                site,
                fault: Stopped::Open(fault),
            });
        }
    };
    let mut batch = batch;
    let outcome = turn(&mut engine, &mut batch);
    drop(batch);
    let site = engine.close();
    match outcome {
        Ok(()) => Ok(site),
        Err(fault) => Err(Back { site, fault }),
    }
}

/// A node's first life: `format`, `Flusher::open`, `commit` of one batch and `release`. Whatever a crash leaves then ends a
/// life of the fresh node with the events of the batch, all of them durable, and stands for the node after them. Where it
/// stops early, whatever a crash leaves ends a life too: with no event, or with those of the batch, of which none is surely
/// durable; only of where formatting stops it says no more than `format` does. So it is at each moment on the way, those
/// within disk calls too, where both sides began with the byte of a closed gate: before a life begins no side is armed.
pub fn live_once<S: Site>(
    alloc: Global,
    site: S,
    opening: &Opening<'_>,
    batch: Batch,
) -> Result<S, Back<S, Stopped>>
    requires honest { S.honest site }
    requires some { 1 ≤ length batch }
    requires lawful { AreLawful (fresh (told opening.now)) batch }
    ensures good { OnOk result (IsOpening (told opening.now)) }
    ensures lived { IfOk result (λ s. S.tells s → LeavesAll (S.state s) (S.sent s) (fresh (told opening.now)) (events_in batch) (length (S.sent site))) }
    ensures put { IfOk result (λ s. S.tells s → S.sent s ≡ S.sent site ++ line (fresh (told opening.now)) (events_in batch)) }
    ensures stops { IfErr result (λ b. LifeStops (FormatFails S.Site (IsOpening (told opening.now)) site b.site)
        (S.state b.site) (S.sent b.site) (fresh (told opening.now)) (events_in batch) (length (S.sent site)) b.fault) }
    ensures every_moment { AreShut (S.state site)
        → MatchResult result (λ s. S.tells s → EachMoment S.Site site s (IsOfFirstLife (fresh (told opening.now)) (events_in batch) (S.sent site)))
        (λ b. EachMoment S.Site site b.site (IsOfFirstLife (fresh (told opening.now)) (events_in batch) (S.sent site))) }
    ensures count { MatchResult result (λ s. S.failures s ≡ S.failures site) (λ b. LifeRose (S.failures site) (S.failures b.site) b.fault) }
{
    one_node();
    match format(alloc, site, opening) {
        Ok(site) => live_on(alloc, site, batch),
        Err(Back { site, fault }) => Err(Back {
            site,
            fault: Stopped::Format(fault),
        }),
    }
}

/// The same in memory, which is a site that is honest; of where formatting stops it says nothing.
pub fn live_once_in_memory(
    alloc: Global,
    site: MemorySite,
    opening: &Opening<'_>,
    batch: Batch,
) -> Result<MemorySite, Back<MemorySite, Stopped>>
    requires some { 1 ≤ length batch }
    requires lawful { AreLawful (fresh (told opening.now)) batch }
    ensures good { OnOk result (IsOpening (told opening.now)) }
    ensures lived { IfOk result (λ s. memory_lost s ≡ 0
        → LeavesAll (memory_state s) (memory_outputs s) (fresh (told opening.now)) (events_in batch) (length (memory_outputs site))) }
    ensures put { IfOk result (λ s. memory_lost s ≡ 0
        → memory_outputs s ≡ memory_outputs site ++ line (fresh (told opening.now)) (events_in batch)) }
    ensures stops { IfErr result (λ b. LifeStops (λ _. ⊤)
        (memory_state b.site) (memory_outputs b.site) (fresh (told opening.now)) (events_in batch) (length (memory_outputs site)) b.fault) }
    ensures every_moment { AreShut (memory_state site) → IfOk result (λ s. memory_lost s ≡ 0 → (left : Contents) (sent : List Output)
        → memory_left_since s (memory_moment site) left sent
        → IsOfFirstLife (fresh (told opening.now)) (events_in batch) (memory_outputs site) left sent) }
    ensures count { MatchResult result (λ s. memory_failures s ≡ memory_failures site) (λ b. LifeRose (memory_failures site) (memory_failures b.site) b.fault) }
{
    live_once(alloc, site, opening, batch)
}
