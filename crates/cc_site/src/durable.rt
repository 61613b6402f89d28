//! Changes of a side that a sync makes sure of.

ghost use Rattle.std.specs.Prelude.{◌≡◌, ◌↔◌, ◌≤◌, length, OnOk, OnErr};
ghost use Rattle.cc_site.specs.declared.site.Call.TheVariants.{Write, Cut, Sync};
ghost use Rattle.cc_site.specs.Sides.{other, touch, written, shift, cut_to, settled, MayHaveWritten, MayHaveCut};
ghost use Rattle.cc_site.specs.Moments.{Within, CountsOneFault};
ghost use Rattle.cc_site.specs.Runs.{EachMoment};

use crate::site::{DeviceFault, Side, Site};

/// Writes bytes from a place on, and makes sure of them by a sync. A fault is that of the write or of the sync.
pub fn write_durably<S: Site>(
    site: &mut S,
    side: Side,
    place: u64,
    bytes: &[u8],
) -> Result<(), DeviceFault>
    requires { S.honest site.old → place ≤ length (S.state site.old side).bytes }
    ensures honest { S.honest site.old ↔ S.honest site.new }
    ensures tells { (S.tells site.old ↔ S.tells site.new) × (S.sent site.new ≡ S.sent site.old) }
    ensures value { S.honest site.old → OnOk result (S.state site.new side ≡ settled (written (S.state site.old side) place bytes.now)) }
    ensures failed { S.honest site.old → OnErr result (MayHaveWritten (S.state site.old side) place bytes.now (S.state site.new side)) }
    ensures other_side { S.honest site.old → S.state site.new (other side) ≡ S.state site.old (other side) }
    ensures every_moment { S.honest site.old → EachMoment S.Site site.old site.new
        (Within side (touch (S.state site.old side) place (length bytes.now)) (S.state site.old) (S.sent site.old)) }
    ensures fault { CountsOneFault (S.failures site.old) (S.failures site.new) side Write Sync result }
{
    site.write_at(side, place, bytes)?;
    site.sync(side)?;
    Ok(())
}

/// Cuts a side to a length in bytes, and makes sure of that by a sync. A fault is that of the cut or of the sync.
pub fn cut_durably<S: Site>(site: &mut S, side: Side, len: u64) -> Result<(), DeviceFault>
    requires { S.honest site.old → len ≤ length (S.state site.old side).bytes }
    ensures honest { S.honest site.old ↔ S.honest site.new }
    ensures tells { (S.tells site.old ↔ S.tells site.new) × (S.sent site.new ≡ S.sent site.old) }
    ensures value { S.honest site.old → OnOk result (S.state site.new side ≡ settled (cut_to (S.state site.old side) len)) }
    ensures failed { S.honest site.old → OnErr result (MayHaveCut (S.state site.old side) len (S.state site.new side)) }
    ensures other_side { S.honest site.old → S.state site.new (other side) ≡ S.state site.old (other side) }
    ensures every_moment { S.honest site.old → EachMoment S.Site site.old site.new
        (Within side (shift (S.state site.old side) len) (S.state site.old) (S.sent site.old)) }
    ensures fault { CountsOneFault (S.failures site.old) (S.failures site.new) side Cut Sync result }
{
    site.cut(side, len)?;
    site.sync(side)?;
    Ok(())
}
