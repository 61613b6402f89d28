//! The node of an engine is moved to the other side.

ghost use Rattle.std.specs.Prelude.{ℕ, ◌≡◌, ◌↔◌, ◌⊎◌, ◌≤◌, ◌<◌, ◌+◌, List, ◌∷◌, [], length, OnOk, OnErr, IfErr};
ghost use Rattle.cc_messages.specs.declared.event.Event.{Event};
ghost use Rattle.cc_site.specs.Moments.{Possible};
ghost use Rattle.cc_site.specs.Runs.{EachMoment};
ghost use Rattle.cc_site.specs.Sides.{durable, other};
ghost use Rattle.cc_site.specs.ToldFaults.{CountsCalls};
ghost use Rattle.cc_node.specs.Node.{Node as NodeValue, after};
ghost use Rattle.cc_node_state.specs.Sides.{OPEN};
ghost use Rattle.cc_checkpoint.specs.Checkpoints.{image_of, IsFilled, RestsOn, KeepsOff};
ghost use Rattle.cc_checkpoint.specs.Images.{SpellsImage};
ghost use Rattle.cc_checkpoint.specs.Stops.{Fills, HasClosed};
ghost use Rattle.cc_journal.specs.Journals.{room_limit, StaysGood};
ghost use Rattle.cc_flush.specs.Engine.{IsSettled};
ghost use Rattle.cc_flush.specs.Checkpoints.{RestsFrom, Begins, BeginStops, FilledStops, MoveCalls, SidesStop};

use cc_checkpoint::{Piece, arm, fill, retire, state_length};
use cc_journal::Journal;
use cc_node::Node;
use cc_site::{CLOSED_GATE, DeviceFault, Side, Site, length_of, write_durably};

// Where the state begins on a side.
const STATE_PLACE: u64 = 14;

// Leaves a side without a byte as one closed byte, and any other as it is.
fn ensure_gate<S: Site>(site: &mut S, side: Side) -> Result<(), DeviceFault>
    ensures honest { S.honest site.old ↔ S.honest site.new }
    ensures tells { (S.tells site.old ↔ S.tells site.new) × (S.sent site.new ≡ S.sent site.old) }
    ensures other_side { S.honest site.old → S.state site.new (other side) ≡ S.state site.old (other side) }
    ensures there { S.honest site.old → OnOk result (1 ≤ length (S.state site.new side).bytes) }
    ensures same { S.honest site.old → 1 ≤ length (S.state site.old side).bytes → S.state site.new ≡ S.state site.old }
    ensures every_moment { S.honest site.old → 1 ≤ length (S.state site.old side).bytes
        → EachMoment S.Site site.old site.new (Possible (S.state site.old) (S.sent site.old)) }
    ensures begins { S.honest site.old → OnOk result (HasClosed (S.state site.old side) (S.state site.new side)) }
    ensures failed { S.honest site.old → IfErr result (λ f. BeginStops (S.state site.old side) f.call (S.state site.new side)) }
    ensures fault { CountsCalls (Begins side) (S.failures site.old) (S.failures site.new) result }
{
    if length_of(site, side)? == 0 {
        write_durably(site, side, 0, &[CLOSED_GATE])?;
    }
    Ok(())
}

// Sees to it that a side has a gate, and fills it behind that, while the other one is in use.
fn gate_and_fill<S: Site>(
    site: &mut S,
    side: Side,
    generation: u64,
    node: &Node,
    piece: &mut Piece,
) -> Result<(), DeviceFault>
    requires { 1 ≤ generation }
    ensures honest { S.honest site.old ↔ S.honest site.new }
    ensures tells { (S.tells site.old ↔ S.tells site.new) × (S.sent site.new ≡ S.sent site.old) }
    ensures other_side { S.honest site.old → S.state site.new (other side) ≡ S.state site.old (other side) }
    ensures every_moment { S.honest site.old → IsSettled (S.state site.old side) → 1 ≤ length (S.state site.old side).bytes
        → KeepsOff S.Site side site.old site.new }
    ensures filled { S.honest site.old → OnOk result (IsFilled (S.state site.new side) generation node.now) }
    ensures failed { S.honest site.old → IfErr result (λ f. FilledStops generation node.now (S.state site.old side) f.call (S.state site.new side)) }
    ensures fault { CountsCalls (λ on call. Begins side on call ⊎ Fills side on call) (S.failures site.old) (S.failures site.new) result }
{
    ensure_gate(site, side)?;
    fill(site, side, generation, node, piece)
}

// Puts the node on a side, under a generation above that of the other one, which is in use and holds it. At each moment the
// sides stand for the node.
fn put_on_side<S: Site>(
    site: &mut S,
    side: Side,
    generation: u64,
    node: &Node,
    piece: &mut Piece,
) -> Result<(), DeviceFault>
    requires { 1 ≤ generation }
    ensures honest { S.honest site.old ↔ S.honest site.new }
    ensures tells { (S.tells site.old ↔ S.tells site.new) × (S.sent site.new ≡ S.sent site.old) }
    ensures other_side { S.honest site.old → S.state site.new (other side) ≡ S.state site.old (other side) }
    ensures holds { S.honest site.old → OnOk result (S.state site.new side ≡ durable (OPEN ∷ image_of generation node.now)) }
    ensures spelled { S.honest site.old → OnOk result (SpellsImage (image_of generation node.now) generation node.now) }
    ensures good { S.honest site.old → IsSettled (S.state site.old side) → (place lower : ℕ) → lower < generation
        → StaysGood S.Site (RestsFrom S.Site node.now (record { side = other side; place = place }) lower site.old) site.old site.new }
    ensures rests { S.honest site.old → IsSettled (S.state site.old side) → (place lower : ℕ) → lower < generation
        → (start : NodeValue) (events : List Event) (opening : ℕ)
        → RestsFrom S.Site node.now (record { side = other side; place = place }) lower site.old start events opening
        → OnOk result (RestsOn S.Site site.new side generation (length (image_of generation (after start events))) start events opening) }
    ensures failed { S.honest site.old → IfErr result (λ f. FilledStops generation node.now (S.state site.old side) f.call (S.state site.new side)) }
    ensures fault { CountsCalls (λ on call. Begins side on call ⊎ Fills side on call) (S.failures site.old) (S.failures site.new) result }
{
    gate_and_fill(site, side, generation, node, piece)?;
    arm(site, side)
}

/// Moves the node to the other side, under a generation above that of the side in use, and leaves the old side as one
/// closed byte. At each moment the sides stand for the node.
pub(crate) fn move_over<S: Site>(
    site: &mut S,
    journal: &mut Journal,
    generation: u64,
    node: &Node,
    piece: &mut Piece,
) -> Result<(), DeviceFault>
    requires { 1 ≤ generation }
    ensures honest { S.honest site.old ↔ S.honest site.new }
    ensures tells { (S.tells site.old ↔ S.tells site.new) × (S.sent site.new ≡ S.sent site.old) }
    ensures moved { OnOk result (journal.new ≡ record { side = other journal.old.side; place = length (image_of generation node.now) }) }
    ensures short { OnOk result (journal.new.place < room_limit) }
    ensures kept { OnErr result (journal.new ≡ journal.old) }
    ensures holds { S.honest site.old → OnOk result (S.state site.new (other journal.old.side) ≡ durable (OPEN ∷ image_of generation node.now)) }
    ensures spelled { S.honest site.old → OnOk result (SpellsImage (image_of generation node.now) generation node.now) }
    ensures retired { S.honest site.old → OnOk result (S.state site.new journal.old.side ≡ durable (0 ∷ [])) }
    ensures good { S.honest site.old → IsSettled (S.state site.old (other journal.old.side)) → (lower : ℕ) → lower < generation
        → StaysGood S.Site (RestsFrom S.Site node.now journal.old lower site.old) site.old site.new }
    ensures failed { S.honest site.old → IfErr result (SidesStop journal.old.side generation node.now (S.state site.old) (S.state site.new)) }
    ensures fault { CountsCalls (MoveCalls journal.old.side) (S.failures site.old) (S.failures site.new) result }
{
    let old = journal.side();
    let side = old.other();
    put_on_side(site, side, generation, node, piece)?;
    retire(site, old)?;
    journal.move_to(side, STATE_PLACE + state_length(node));
    Ok(())
}
