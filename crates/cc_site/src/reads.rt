//! Reads of a side, each told as a call that only reads.

ghost use Rattle.std.specs.Prelude.{◌≡◌, ◌≤◌, ◌+◌, length, vec_len, take, drop, OnOk, IfOk};
ghost use Rattle.cc_site.specs.declared.site.Call.TheVariants.{Length, Read};
ghost use Rattle.cc_site.specs.Moments.{CountsFault};
ghost use Rattle.cc_site.specs.Reads.{OnlyReads};

use crate::site::{DeviceFault, Side, Site};

/// How long a side is, in bytes.
pub fn length_of<S: Site>(site: &mut S, side: Side) -> Result<u64, DeviceFault>
    ensures value { S.honest site.old → IfOk result (λ n. n ≡ length (S.state site.old side).bytes) }
    ensures reads { OnlyReads S.Site site.old site.new }
    ensures fault { CountsFault (S.failures site.old) (S.failures site.new) side Length result }
{
    site.length(side)
}

/// Reads what lies from a place on, as many bytes as `into` has. They lie within the side.
pub fn read_into<S: Site>(
    site: &mut S,
    side: Side,
    place: u64,
    into: &mut [u8],
) -> Result<(), DeviceFault>
    requires { S.honest site.old → place + length into.old ≤ length (S.state site.old side).bytes }
    ensures value { S.honest site.old → OnOk result (into.new ≡ take (length into.old) (drop place (S.state site.old side).bytes)) }
    ensures reads { OnlyReads S.Site site.old site.new }
    ensures fault { CountsFault (S.failures site.old) (S.failures site.new) side Read result }
{
    site.read(side, place, into)
}

/// Reads as much as the buffer holds. That lies within the side.
pub fn fill_buffer<S: Site>(
    site: &mut S,
    side: Side,
    place: u64,
    buffer: &mut Vec<u8>,
) -> Result<(), DeviceFault>
    requires { S.honest site.old → place + vec_len buffer.old ≤ length (S.state site.old side).bytes }
    ensures value { S.honest site.old → OnOk result (buffer.new.items ≡ take (vec_len buffer.old) (drop place (S.state site.old side).bytes)) }
    ensures len { vec_len buffer.new ≡ vec_len buffer.old }
    ensures reads { OnlyReads S.Site site.old site.new }
    ensures fault { CountsFault (S.failures site.old) (S.failures site.new) side Read result }
{
    read_into(site, side, place, buffer.as_mut_slice())
}
