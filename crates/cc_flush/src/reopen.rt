//! A node is opened so that nothing of it rests on a sync that failed in an earlier life.

ghost use Rattle.std.specs.Prelude.{ℕ, ◌≡◌, ◌↔◌, ◌≤◌, ◌⊎◌, List, [], ◌∷◌, false, None, IfOk, IfErr, OnOk, MatchResult};
ghost use Rattle.cc_messages.specs.declared.event.Event.{Event};
ghost use Rattle.cc_site.specs.declared.site.Side.{Side as SideValue};
ghost use Rattle.cc_site.specs.Sides.{other, settled, written};
ghost use Rattle.cc_site.specs.Reads.{bytes_of};
ghost use Rattle.cc_site.specs.ToldFaults.{CountsCalls};
ghost use Rattle.cc_checkpoint.specs.Faults.{FaultRose};
ghost use Rattle.cc_views.specs.Limits.{counter_limit};
ghost use Rattle.cc_node.specs.Node.{Node};
ghost use Rattle.cc_node_state.specs.Sides.{OPEN, IsArmed};
ghost use Rattle.cc_journal.specs.Journals.{StaysGood};
ghost use Rattle.cc_flush.specs.Commits.{LeadsTo};
ghost use Rattle.cc_flush.specs.Checkpoints.{Moves};
ghost use Rattle.cc_flush.specs.Openings.{OpenFails};
ghost use Rattle.cc_flush.specs.Reopenings.{AnyCall, IsAnew, IsArmedAgain, IsReopened, LeadsToSite, ReadsSame, StaysDurable, older_of};

use crate::back::Back;
use crate::flusher::{CheckpointFault, Flusher};
use crate::laws::one_node;
use cc_checkpoint::{OpenFault, Peeked, peek};
use cc_node::Core;
use cc_site::{DeviceFault, OPEN_GATE, Side, Site, write_durably};
use std::alloc::Global;

/// Opens two sides, and writes the node that they hold anew on the other side, before anything is put. A system tells of a failed
/// sync once, and shows what was to be written from then on, though the disk hasn't got it; a later sync succeeds and writes
/// nothing. So what is read may be missing on the disk until it is written once more. At each moment a crash leaves two sides that
/// stand for the node after a prefix of its events that has the durable ones, also where a life was killed between a write and its
/// sync; at the end all events that were found are durable. NotFormatted, Damaged and Version come where the reading rules name them
/// for what the sides held, Device exactly where a disk call fails, and NoMemory where a growth is refused.
pub fn open_anew<S: Site>(alloc: Global, site: S) -> Result<(Flusher<S>, Core), Back<S, OpenFault>>
    ensures anew { S.honest site → IfOk result (λ opened. IsAnew S.Site opened.0) }
    ensures engine { IfOk result (λ opened. (opened.0.failed ≡ None) × (opened.0.owes ≡ false) × (opened.1 ≡ opened.0.twin.core)) }
    ensures outlet { MatchResult result
        (λ opened. (S.tells site ↔ S.tells opened.0.site) × (S.sent opened.0.site ≡ S.sent site))
        (λ b. (S.tells site ↔ S.tells b.site) × (S.sent b.site ≡ S.sent site)) }
    ensures good { S.honest site → MatchResult result (λ opened. StaysDurable S.Site site opened.0.site) (λ b. StaysDurable S.Site site b.site) }
    ensures node { S.honest site → (start : Node) (events : List Event) (durable opening : ℕ) → LeadsToSite S.Site site start events durable opening
        → IfOk result (λ opened. IsReopened S.Site opened.0 start events durable opening) }
    ensures faults { S.honest site → IfErr result (λ b. OpenFails (bytes_of S.Site site) b.fault) }
    ensures count { MatchResult result (λ opened. S.failures opened.0.site ≡ S.failures site)
        (λ b. FaultRose AnyCall (S.failures site) (S.failures b.site) b.fault) }
{
    one_node();
    let mut site = site;
    if let Err(fault) = arm_again(&mut site) {
        return Err(Back {
            site,
            fault: OpenFault::Device(fault),
        });
    }
    let (mut engine, core) = match Flusher::open(alloc, site) {
        Ok(opened) => opened,
        Err(back) => return Err(back),
    };
    match write_anew(&mut engine) {
        Ok(()) => Ok((engine, core)),
        Err(fault) => {
            drop(core);
            Err(Back {
                site: engine.close(),
                fault: OpenFault::Device(fault),
            })
        }
    }
}

// Moves the node of an engine to the other side, unless no generation is left for that.
fn write_anew<S: Site>(engine: &mut Flusher<S>) -> Result<(), DeviceFault>
    requires goes_on { engine.old.failed ≡ None }
    requires owes { engine.old.owes ≡ false }
    ensures moves { IfOk result (λ _. ((counter_limit ≤ engine.old.generation) × (engine.new ≡ engine.old)) ⊎ Moves S.Site engine.old engine.new) }
    ensures twin { engine.new.twin ≡ engine.old.twin }
    ensures opened { engine.new.opened ≡ engine.old.opened }
    ensures owes { engine.new.owes ≡ false }
    ensures honest { S.honest engine.old.site ↔ S.honest engine.new.site }
    ensures outlet { (S.tells engine.old.site ↔ S.tells engine.new.site) × (S.sent engine.new.site ≡ S.sent engine.old.site) }
    ensures good { S.honest engine.old.site → StaysGood S.Site (LeadsTo S.Site engine.old) engine.old.site engine.new.site }
    ensures count { CountsCalls AnyCall (S.failures engine.old.site) (S.failures engine.new.site) result }
{
    match engine.checkpoint() {
        Ok(()) | Err(CheckpointFault::Spent) => Ok(()),
        Err(CheckpointFault::Failed(failed)) => Err(failed.fault),
    }
}

// Where both sides are armed, a move ended at the sync that arms the newer one, or right behind it. That gate may be missing on
// the disk, and the next move begins by closing the older side: so the gate is written once more.
fn arm_again<S: Site>(site: &mut S) -> Result<(), DeviceFault>
    ensures honest { S.honest site.old ↔ S.honest site.new }
    ensures outlet { (S.tells site.old ↔ S.tells site.new) × (S.sent site.new ≡ S.sent site.old) }
    ensures good { S.honest site.old → StaysDurable S.Site site.old site.new }
    ensures armed { S.honest site.old → OnOk result (IsArmedAgain (S.state site.old) (S.state site.new)) }
    ensures same { S.honest site.old → OnOk result (ReadsSame (bytes_of S.Site site.old) (bytes_of S.Site site.new)) }
    ensures count { CountsCalls AnyCall (S.failures site.old) (S.failures site.new) result }
{
    let first = peek(site, Side::A)?;
    let second = peek(site, Side::B)?;
    if let Some(older) = older_of(first, second) {
        write_gate_again(site, older)?;
    }
    Ok(())
}

// Of two armed sides the one with the lower generation.
fn older_of(first: Peeked, second: Peeked) -> Option<Side>
    ensures { result ≡ older_of first second }
{
    match (first, second) {
        (Peeked::Armed(first), Peeked::Armed(second)) if first < second => Some(Side::A),
        (Peeked::Armed(_), Peeked::Armed(_)) => Some(Side::B),
        _ => None,
    }
}

// Writes the open gate of the side that isn't the older one over itself. The older one is made sure of before, since a crash may
// leave no other.
fn write_gate_again<S: Site>(site: &mut S, older: Side) -> Result<(), DeviceFault>
    ensures honest { S.honest site.old ↔ S.honest site.new }
    ensures outlet { (S.tells site.old ↔ S.tells site.new) × (S.sent site.new ≡ S.sent site.old) }
    ensures good { S.honest site.old → ((side : SideValue) → IsArmed (S.state site.old side).bytes)
        → StaysDurable S.Site site.old site.new }
    ensures written { S.honest site.old
        → OnOk result (S.state site.new (other older) ≡ settled (written (S.state site.old (other older)) 0 (OPEN ∷ []))) }
    ensures same { S.honest site.old → ((side : SideValue) → IsArmed (S.state site.old side).bytes)
        → OnOk result (ReadsSame (bytes_of S.Site site.old) (bytes_of S.Site site.new)) }
    ensures count { CountsCalls AnyCall (S.failures site.old) (S.failures site.new) result }
{
    site.sync(older)?;
    write_durably(site, older.other(), 0, &[OPEN_GATE])
}
