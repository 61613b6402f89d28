//! A checkpoint, step by step: the side that isn't in use is filled behind its closed gate, the gate is opened, and the
//! other side is retired. A crash at any moment leaves two sides that stand for the node.

ghost use Rattle.std.specs.Prelude.{ℕ, List, ◌≡◌, ◌↔◌, ◌+◌, ◌≤◌, ◌++◌, ◌∷◌, [], length, take, OnOk, OnErr, IfOk, IfErr};
ghost use Rattle.cc_messages.specs.declared.event.Event.{Event};
ghost use Rattle.cc_site.specs.declared.site.Call.TheVariants.{Read, Write, Cut, Sync};
ghost use Rattle.cc_site.specs.Sides.{durable, other, settled, written, MayHaveWritten};
ghost use Rattle.cc_site.specs.Moments.{CountsFault, CountsOneFault};
ghost use Rattle.cc_site.specs.Gates.{IsShut};
ghost use Rattle.cc_site.specs.Runs.{EachMoment};
ghost use Rattle.cc_site.specs.ToldFaults.{CountsCalls};
ghost use Rattle.cc_node.specs.Node.{Node as NodeState, after};
ghost use Rattle.cc_node_state.specs.States.{SpellsNode, layout_of_node, node_spelling};
ghost use Rattle.cc_node_state.specs.Sides.{IsArmed, OPEN};
ghost use Rattle.cc_checkpoint.specs.Stops.{Fills, Retires, HasClosed, ClosingStops, IsPastGate, ImageStops, FillStops, RetireStops};
ghost use Rattle.cc_checkpoint.specs.Checkpoints.{IsShutNow, IsSurelyShut, IsFilled, StaysBehind, KeepsOff, RestsOn, ArmsFor, IsGoodForAll, image_of};

use crate::image::version_for;
use crate::piece::Piece;
use crate::pieces::{Pieces, state_length};
use cc_node::Node;
use cc_node_state::node_is_spellable;
use cc_site::{
    CLOSED_GATE, DeviceFault, OPEN_GATE, Side, Site, cut_durably, read_into, write_durably,
};

// Where the state begins: behind the gate, the generation, the version and the state's length.
const STATE_PLACE: u64 = 14;

// Closes the gate of a side, unless it is closed: a byte that is being written may become any other.
fn close_gate<S: Site>(site: &mut S, side: Side) -> Result<(), DeviceFault>
    requires there { S.honest site.old → 1 ≤ length (S.state site.old side).bytes }
    ensures honest { S.honest site.old ↔ S.honest site.new }
    ensures tells { (S.tells site.old ↔ S.tells site.new) × (S.sent site.new ≡ S.sent site.old) }
    ensures other_side { S.honest site.old → S.state site.new (other side) ≡ S.state site.old (other side) }
    ensures every_moment { S.honest site.old → KeepsOff S.Site side site.old site.new }
    ensures shut { S.honest site.old → IsSurelyShut (S.state site.old side) → OnOk result (IsShutNow (S.state site.new side)) }
    ensures closed { S.honest site.old → OnOk result (IsShut (S.state site.new side).bytes) }
    ensures there { S.honest site.old → OnOk result (1 ≤ length (S.state site.new side).bytes) }
    ensures closes { S.honest site.old → OnOk result (HasClosed (S.state site.old side) (S.state site.new side)) }
    ensures failed { S.honest site.old → IfErr result (λ f. ClosingStops (S.state site.old side) f.call (S.state site.new side)) }
    ensures fault { CountsCalls (Fills side) (S.failures site.old) (S.failures site.new) result }
{
    let mut gate = [0];
    read_into(site, side, 0, &mut gate)?;
    if gate[0] == OPEN_GATE {
        write_durably(site, side, 0, &[CLOSED_GATE])?;
    }
    Ok(())
}

// Leaves of a side its gate, and what stands between that and the state.
fn begin_image<S: Site>(site: &mut S, side: Side, front: &[u8]) -> Result<(), DeviceFault>
    requires there { S.honest site.old → 1 ≤ length (S.state site.old side).bytes }
    ensures honest { S.honest site.old ↔ S.honest site.new }
    ensures tells { (S.tells site.old ↔ S.tells site.new) × (S.sent site.new ≡ S.sent site.old) }
    ensures other_side { S.honest site.old → S.state site.new (other side) ≡ S.state site.old (other side) }
    ensures value { S.honest site.old → OnOk result ((S.state site.new side).bytes ≡ take 1 (S.state site.old side).bytes ++ front.now) }
    ensures every_moment { S.honest site.old → StaysBehind S.Site side site.old site.new }
    ensures failed { S.honest site.old → IfErr result (λ f. ImageStops (S.state site.old side) f.call (S.state site.new side)) }
    ensures fault { CountsCalls (Fills side) (S.failures site.old) (S.failures site.new) result }
{
    site.cut(side, 1)?;
    site.write_at(side, 1, front)
}

// Writes the pieces of a node's state at the end of a side, which is at `from`, and gives the place behind them.
fn write_pieces<S: Site>(
    site: &mut S,
    side: Side,
    from: u64,
    node: &Node,
    piece: &mut Piece,
) -> Result<u64, DeviceFault>
    requires from { S.honest site.old → from ≡ length (S.state site.old side).bytes }
    requires there { 1 ≤ from }
    requires short { from ≤ 14 }
    requires spelled { SpellsNode (layout_of_node node.now) (node_spelling node.now) node.now }
    ensures honest { S.honest site.old ↔ S.honest site.new }
    ensures tells { (S.tells site.old ↔ S.tells site.new) × (S.sent site.new ≡ S.sent site.old) }
    ensures other_side { S.honest site.old → S.state site.new (other side) ≡ S.state site.old (other side) }
    ensures value { S.honest site.old → OnOk result ((S.state site.new side).bytes ≡ (S.state site.old side).bytes ++ node_spelling node.now) }
    ensures end { IfOk result (λ end. end ≡ from + length (node_spelling node.now)) }
    ensures at_end { S.honest site.old → IfOk result (λ end. end ≡ length (S.state site.new side).bytes) }
    ensures every_moment { S.honest site.old → StaysBehind S.Site side site.old site.new }
    ensures failed { S.honest site.old → IfErr result (λ f. IsPastGate (S.state site.old side) f.call (S.state site.new side)) }
    ensures fault { CountsCalls (Fills side) (S.failures site.old) (S.failures site.new) result }
{
    let mut pieces = Pieces::new(node);
    let mut place = from;
    while pieces.next(piece) > 0 {
        let bytes = piece.as_slice();
        site.write_at(side, place, bytes)?;
        place += bytes.len() as u64;
    }
    Ok(place)
}

// Puts the image of a node behind the closed gate of a side, and makes sure of it.
fn write_image<S: Site>(
    site: &mut S,
    side: Side,
    generation: u64,
    node: &Node,
    piece: &mut Piece,
) -> Result<(), DeviceFault>
    requires there { S.honest site.old → 1 ≤ length (S.state site.old side).bytes }
    requires spelled { SpellsNode (layout_of_node node.now) (node_spelling node.now) node.now }
    ensures honest { S.honest site.old ↔ S.honest site.new }
    ensures tells { (S.tells site.old ↔ S.tells site.new) × (S.sent site.new ≡ S.sent site.old) }
    ensures other_side { S.honest site.old → S.state site.new (other side) ≡ S.state site.old (other side) }
    ensures value { S.honest site.old → OnOk result (S.state site.new side ≡ durable (take 1 (S.state site.old side).bytes ++ image_of generation node.now)) }
    ensures every_moment { S.honest site.old → StaysBehind S.Site side site.old site.new }
    ensures failed { S.honest site.old → IfErr result (λ f. ImageStops (S.state site.old side) f.call (S.state site.new side)) }
    ensures fault { CountsCalls (Fills side) (S.failures site.old) (S.failures site.new) result }
{
    piece.begin(version_for(node), generation, state_length(node) as u32);
    begin_image(site, side, piece.as_slice())?;
    let end = write_pieces(site, side, STATE_PLACE, node, piece)?;
    write_durably(site, side, end, &[CLOSED_GATE])
}

/// Leaves the state of a node durable under a generation, behind the closed gate of the side that isn't in use, which has
/// at least one byte. It writes piece by piece through one buffer, and takes no memory. The node stays on the other side,
/// whatever a crash leaves within the call.
pub fn fill<S: Site>(
    site: &mut S,
    side: Side,
    generation: u64,
    node: &Node,
    piece: &mut Piece,
) -> Result<(), DeviceFault>
    requires there { S.honest site.old → 1 ≤ length (S.state site.old side).bytes }
    requires generation { 1 ≤ generation }
    ensures honest { S.honest site.old ↔ S.honest site.new }
    ensures tells { (S.tells site.old ↔ S.tells site.new) × (S.sent site.new ≡ S.sent site.old) }
    ensures other_side { S.honest site.old → S.state site.new (other side) ≡ S.state site.old (other side) }
    // A gate that reads closed has to be closed whatever a crash leaves.
    ensures every_moment { S.honest site.old → IsSurelyShut (S.state site.old side) → KeepsOff S.Site side site.old site.new }
    ensures filled { S.honest site.old → OnOk result (IsFilled (S.state site.new side) generation node.now) }
    ensures failed { S.honest site.old → IfErr result (λ f. FillStops (S.state site.old side) f.call (S.state site.new side)) }
    ensures fault { CountsCalls (Fills side) (S.failures site.old) (S.failures site.new) result }
{
    node_is_spellable(node);
    close_gate(site, side)?;
    write_image(site, side, generation, node, piece)
}

/// Opens the gate of a side that was filled, and makes sure of that: from then on it is the side in use.
pub fn arm<S: Site>(site: &mut S, side: Side) -> Result<(), DeviceFault>
    ensures honest { S.honest site.old ↔ S.honest site.new }
    ensures tells { (S.tells site.old ↔ S.tells site.new) × (S.sent site.new ≡ S.sent site.old) }
    ensures other_side { S.honest site.old → S.state site.new (other side) ≡ S.state site.old (other side) }
    ensures value { S.honest site.old → OnOk result (S.state site.new side ≡ settled (written (S.state site.old side) 0 (OPEN ∷ []))) }
    ensures every_moment { S.honest site.old → (next : ℕ) (start : NodeState) (events : List Event) (opening : ℕ)
        → ArmsFor S.Site side site.old next start events opening
        → EachMoment S.Site site.old site.new (IsGoodForAll start events opening) }
    ensures at_rest { S.honest site.old → (next : ℕ) (start : NodeState) (events : List Event) (opening : ℕ)
        → ArmsFor S.Site side site.old next start events opening
        → OnOk result (RestsOn S.Site site.new side next (length (image_of next (after start events))) start events opening) }
    ensures failed { S.honest site.old → OnErr result (MayHaveWritten (S.state site.old side) 0 (OPEN ∷ []) (S.state site.new side)) }
    ensures fault { CountsOneFault (S.failures site.old) (S.failures site.new) side Write Sync result }
{
    write_durably(site, side, 0, &[OPEN_GATE])
}

/// Leaves a side that isn't in use any more as one closed byte.
pub fn retire<S: Site>(site: &mut S, side: Side) -> Result<(), DeviceFault>
    ensures honest { S.honest site.old ↔ S.honest site.new }
    ensures tells { (S.tells site.old ↔ S.tells site.new) × (S.sent site.new ≡ S.sent site.old) }
    ensures other_side { S.honest site.old → S.state site.new (other side) ≡ S.state site.old (other side) }
    // Its gate has to read open.
    ensures every_moment { S.honest site.old → IsArmed (S.state site.old side).bytes → KeepsOff S.Site side site.old site.new }
    ensures retired { S.honest site.old → OnOk result (S.state site.new side ≡ durable (0 ∷ [])) }
    ensures failed { S.honest site.old → IfErr result (λ f. RetireStops (S.state site.old side) f.call (S.state site.new side)) }
    ensures fault { CountsCalls (Retires side) (S.failures site.old) (S.failures site.new) result }
{
    write_durably(site, side, 0, &[CLOSED_GATE])?;
    cut_durably(site, side, 1)
}
