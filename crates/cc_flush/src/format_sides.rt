//! Two sides that begin to keep a node.

ghost use Rattle.std.specs.Prelude.{ℕ, ◌≡◌, ◌↔◌, ◌⊎◌, ◌∷◌, [], ◌≤◌, length, true, false, IfOk, OnOk, IsTrue, MatchResult, IsErrOf, IfErr};
ghost use Rattle.cc_site.specs.declared.site.Side.TheVariants.{A, B};
ghost use Rattle.cc_site.specs.declared.site.Call.TheVariants.{Write, Sync};
ghost use Rattle.cc_site.specs.Sides.{durable, other};
ghost use Rattle.cc_site.specs.Moments.{Rose, CountsOneFault};
ghost use Rattle.cc_site.specs.Runs.{KeepsOutlet, EachMoment};
ghost use Rattle.cc_site.specs.Reads.{OnlyReads};
ghost use Rattle.cc_site.specs.ToldFaults.{Looks, LooksAt, LooksAtEither, IsOn, CountsCalls};
ghost use Rattle.cc_node.specs.Node.{Node as NodeState};
ghost use Rattle.cc_node.specs.Openings.{told, fresh, IsOpening};
ghost use Rattle.cc_node_state.specs.Sides.{OPEN, IsArmed};
ghost use Rattle.cc_checkpoint.specs.Images.{SpellsImage};
ghost use Rattle.cc_journal.specs.Journals.{RestsNow};
ghost use Rattle.cc_flush.specs.declared.format_sides.FormatFault.TheVariants as faults;
ghost use Rattle.cc_flush.specs.FormatSides.{of_fresh, BeginsWith, AreShut, StayShut, Arms, HasNoneOrAll, IsNoneOrWhole, FormatRose, FormatStops, FormatFails};

use crate::back::Back;
use cc_checkpoint::encode_image;
use cc_node::{Fresh, Node, Opening};
use cc_site::{
    CLOSED_GATE, DeviceFault, OPEN_GATE, Side, Site, cut_durably, length_of, read_into,
    write_durably,
};
use cc_views::NoMemory;
use std::alloc::Global;
use std::error::Error;
use std::fmt;

/// Why two sides weren't formatted.
#[derive(Clone, Copy, Debug, PartialEq, Eq)]
pub enum FormatFault {
    /// No node can begin so.
    BadOpening,
    /// A growth was refused.
    NoMemory,
    /// A disk call failed.
    Device(DeviceFault),
    /// A side is armed.
    AlreadyFormatted,
}

/// Its name, and the disk call that failed: `Device A Write`.
impl fmt::Display for FormatFault {
    fn fmt<W: fmt::Write>(&self, f: &mut fmt::Formatter<W>) -> fmt::Result {
        match self {
            FormatFault::BadOpening => write!(f, "BadOpening"),
            FormatFault::NoMemory => write!(f, "NoMemory"),
            FormatFault::Device(fault) => write!(f, "Device {fault}"),
            FormatFault::AlreadyFormatted => write!(f, "AlreadyFormatted"),
        }
    }
}

impl Error for FormatFault {}

impl From<Fresh> for FormatFault {
    ghost from_gives = { λ fault format_fault. format_fault ≡ of_fresh fault };

    fn from(fault: Fresh) -> Self {
        match fault {
            Fresh::BadOpening => FormatFault::BadOpening,
            Fresh::NoMemory => FormatFault::NoMemory,
        }
    }
}

impl From<DeviceFault> for FormatFault {
    ghost from_gives = { λ fault format_fault. format_fault ≡ faults.Device fault };

    fn from(fault: DeviceFault) -> Self {
        FormatFault::Device(fault)
    }
}

impl From<NoMemory> for FormatFault {
    ghost from_gives = { λ _ fault. fault ≡ faults.NoMemory };

    fn from(_: NoMemory) -> Self {
        FormatFault::NoMemory
    }
}

// Whether a side begins with that byte.
fn begins_with<S: Site>(site: &mut S, side: Side, byte: u8) -> Result<bool, DeviceFault>
    ensures exact { S.honest site.old → IfOk result (λ begins. IsTrue begins ↔ BeginsWith byte (S.state site.old side).bytes) }
    ensures reads { OnlyReads S.Site site.old site.new }
    ensures fault { CountsCalls (LooksAt side) (S.failures site.old) (S.failures site.new) result }
{
    let len = length_of(site, side)?;
    if len == 0 {
        return Ok(false);
    }
    let mut first = [0];
    read_into(site, side, 0, &mut first)?;
    Ok(first[0] == byte)
}

// Whether the gate of either side reads open.
fn is_formatted<S: Site>(site: &mut S) -> Result<bool, DeviceFault>
    ensures exact { S.honest site.old → IfOk result (λ armed. IsTrue armed ↔ (IsArmed (S.state site.old A).bytes ⊎ IsArmed (S.state site.old B).bytes)) }
    ensures reads { OnlyReads S.Site site.old site.new }
    ensures fault { CountsCalls LooksAtEither (S.failures site.old) (S.failures site.new) result }
{
    if begins_with(site, Side::A, OPEN_GATE)? {
        return Ok(true);
    }
    begins_with(site, Side::B, OPEN_GATE)
}

// Leaves a side as one closed byte. Where it begins with that byte, that isn't touched, so that no crash opens its gate.
fn clear<S: Site>(site: &mut S, side: Side) -> Result<(), DeviceFault>
    ensures honest { S.honest site.old ↔ S.honest site.new }
    ensures tells { (S.tells site.old ↔ S.tells site.new) × (S.sent site.new ≡ S.sent site.old) }
    ensures value { S.honest site.old → OnOk result (S.state site.new side ≡ durable (0 ∷ [])) }
    ensures other_side { S.honest site.old → S.state site.new (other side) ≡ S.state site.old (other side) }
    ensures every_moment { S.honest site.old → AreShut (S.state site.old) → EachMoment S.Site site.old site.new (StayShut (S.sent site.old)) }
    ensures looked { S.honest site.old → IfErr result (λ fault. Looks fault.call → S.state site.new side ≡ S.state site.old side) }
    ensures fault { CountsCalls (IsOn side) (S.failures site.old) (S.failures site.new) result }
{
    let shut = begins_with(site, side, CLOSED_GATE)?;
    if shut {
        return cut_durably(site, side, 1);
    }
    cut_durably(site, side, 0)?;
    write_durably(site, side, 0, &[CLOSED_GATE])
}

// Puts an image behind the closed gate of a side that has nothing else, and opens the gate.
fn fill_and_arm<S: Site>(site: &mut S, side: Side, image: &[u8]) -> Result<(), DeviceFault>
    requires { S.honest site.old → S.state site.old side ≡ durable (0 ∷ []) }
    ensures honest { S.honest site.old ↔ S.honest site.new }
    ensures tells { (S.tells site.old ↔ S.tells site.new) × (S.sent site.new ≡ S.sent site.old) }
    ensures value { S.honest site.old → OnOk result (S.state site.new side ≡ durable (OPEN ∷ image.now)) }
    ensures other_side { S.honest site.old → S.state site.new (other side) ≡ S.state site.old (other side) }
    ensures every_moment { S.honest site.old → EachMoment S.Site site.old site.new (Arms side image.now (S.state site.old) (S.sent site.old)) }
    ensures fault { CountsOneFault (S.failures site.old) (S.failures site.new) side Write Sync result }
{
    write_durably(site, side, 1, image)?;
    write_durably(site, side, 0, &[OPEN_GATE])
}

// Lays the image on side A behind an open gate, and one closed byte on side B.
fn lay_out<S: Site>(site: &mut S, image: &[u8]) -> Result<(), DeviceFault>
    ensures honest { S.honest site.old ↔ S.honest site.new }
    ensures tells { (S.tells site.old ↔ S.tells site.new) × (S.sent site.new ≡ S.sent site.old) }
    ensures first { S.honest site.old → OnOk result (S.state site.new A ≡ durable (OPEN ∷ image.now)) }
    ensures second { S.honest site.old → OnOk result (S.state site.new B ≡ durable (0 ∷ [])) }
    ensures every_moment { S.honest site.old → AreShut (S.state site.old) → EachMoment S.Site site.old site.new (HasNoneOrAll image.now (S.sent site.old)) }
    ensures stops { S.honest site.old → IfErr result (FormatStops (S.state site.old) (S.state site.new)) }
    ensures fault { MatchResult result (λ _. S.failures site.new ≡ S.failures site.old) (λ _. Rose (S.failures site.old) (S.failures site.new)) }
{
    clear(site, Side::B)?;
    clear(site, Side::A)?;
    fill_and_arm(site, Side::A, image)
}

// What stands behind the gate of a side that begins to keep the node.
fn first_image(alloc: Global, opening: &Opening<'_>) -> Result<Vec<u8>, FormatFault>
    ensures image { IfOk result (λ image. SpellsImage image.items 1 (fresh (told opening.now))) }
    ensures good { OnOk result (IsOpening (told opening.now)) }
    ensures bad { IsErrOf result faults.BadOpening → IsOpening (told opening.now) → ⊥ }
    ensures memory { IsErrOf result faults.NoMemory → IsOpening (told opening.now) }
    ensures only { IfErr result (λ fault. (fault ≡ faults.BadOpening) ⊎ (fault ≡ faults.NoMemory)) }
{
    let node = Node::fresh(alloc, opening)?;
    let image = encode_image(alloc, 1, &node);
    drop(node);
    Ok(image?)
}

// Lays the image out, unless a side is armed.
fn format_sides<S: Site>(site: &mut S, image: &[u8]) -> Result<(), FormatFault>
    ensures honest { S.honest site.old ↔ S.honest site.new }
    ensures tells { (S.tells site.old ↔ S.tells site.new) × (S.sent site.new ≡ S.sent site.old) }
    ensures at_rest { S.honest site.old → (node : NodeState) → SpellsImage image.now 1 node
        → OnOk result (RestsNow S.Site site.new (record { side = A; place = length image.now }) 1 node [] (length (S.sent site.new))) }
    ensures second { S.honest site.old → OnOk result (S.state site.new B ≡ durable (0 ∷ [])) }
    ensures unarmed { S.honest site.old → OnOk result (¬ (IsArmed (S.state site.old A).bytes) × ¬ (IsArmed (S.state site.old B).bytes)) }
    ensures already { S.honest site.old → IsErrOf result faults.AlreadyFormatted
        → (IsArmed (S.state site.old A).bytes ⊎ IsArmed (S.state site.old B).bytes) × (S.state site.new ≡ S.state site.old) }
    ensures every_moment { S.honest site.old → AreShut (S.state site.old) → EachMoment S.Site site.old site.new (HasNoneOrAll image.now (S.sent site.old)) }
    ensures stops { S.honest site.old → (device : DeviceFault) → IsErrOf result (faults.Device device)
        → FormatStops (S.state site.old) (S.state site.new) device }
    ensures only { IfErr result (λ fault. (fault ≡ faults.AlreadyFormatted) ⊎ ((device : DeviceFault) × (fault ≡ faults.Device device))) }
    ensures fault { MatchResult result (λ _. S.failures site.new ≡ S.failures site.old) (FormatRose (S.failures site.old) (S.failures site.new)) }
{
    if is_formatted(site)? {
        return Err(FormatFault::AlreadyFormatted);
    }
    lay_out(site, image)?;
    Ok(())
}

/// Makes two sides that aren't armed keep the node that begins as the opening says, under generation 1 on side A. The
/// faults come in the order BadOpening, NoMemory, Device and AlreadyFormatted, but Device where it is met. After a Device
/// fault it may be tried again. It looks at both sides, and lays out side B before side A, so the side that the fault names
/// tells how far it came. What a crash within the call leaves is told where both sides begin with the byte that is
/// written for a closed gate: no armed side, or the node. Else both sides are then to be emptied and formatted again.
pub fn format<S: Site>(
    alloc: Global,
    site: S,
    opening: &Opening<'_>,
) -> Result<S, Back<S, FormatFault>>
    ensures outlet { MatchResult result (KeepsOutlet S.Site site) (λ b. KeepsOutlet S.Site site b.site) }
    ensures at_rest { S.honest site → IfOk result (λ s. (place : ℕ) × RestsNow S.Site s (record { side = A; place = place }) 1 (fresh (told opening.now))
        [] (length (S.sent s))) }
    ensures second { S.honest site → IfOk result (λ s. S.state s B ≡ durable (0 ∷ [])) }
    ensures unarmed { S.honest site → OnOk result (¬ (IsArmed (S.state site A).bytes) × ¬ (IsArmed (S.state site B).bytes)) }
    // Where each side begins with the byte of a closed gate, whatever a crash leaves, it is done whole or not at all.
    ensures every_moment { S.honest site → AreShut (S.state site)
        → MatchResult result (λ s. EachMoment S.Site site s (IsNoneOrWhole (fresh (told opening.now)) (S.sent site)))
        (λ b. EachMoment S.Site site b.site (IsNoneOrWhole (fresh (told opening.now)) (S.sent site))) }
    ensures good { OnOk result (IsOpening (told opening.now)) }
    ensures faults { IfErr result (λ b. FormatFails S.Site (IsOpening (told opening.now)) site b.site b.fault) }
    ensures count { MatchResult result (λ s. S.failures s ≡ S.failures site) (λ b. FormatRose (S.failures site) (S.failures b.site) b.fault) }
{
    let image = match first_image(alloc, opening) {
        Ok(image) => image,
        Err(fault) => return Err(Back { site, fault }),
    };
    let mut site = site;
    match format_sides(&mut site, &image) {
        Ok(()) => Ok(site),
        Err(fault) => Err(Back { site, fault }),
    }
}
