//! Which side is in use, and the state that it holds.

ghost use Rattle.std.specs.Prelude.{◌≡◌, ◌≢◌, ◌↔◌, ◌≤◌, ◌<◌, ◌+◌, length, vec_len, take, drop, ℕ, OnOk, IfOk, IfErr, MatchResult};
ghost use Rattle.cc_site.specs.declared.site.Side.TheVariants.{A, B};
ghost use Rattle.cc_site.specs.Reads.{OnlyReads};
ghost use Rattle.cc_site.specs.ToldFaults.{CountsCalls, LooksAt, LooksAtEither};
ghost use Rattle.cc_checkpoint.specs.declared.open_fault.OpenFault.TheVariants as faults;
ghost use Rattle.cc_checkpoint.specs.Faults.{Answers, CountsDevice};
ghost use Rattle.cc_checkpoint.specs.SideChoice.{generation_in, greater, chosen, peek_of, IsInTurn};

use crate::open_fault::OpenFault;
use cc_site::{DeviceFault, OPEN_GATE, Side, Site, length_of, read_into};

/// The side in use, and its generation.
#[derive(Clone, Copy, PartialEq, Eq)]
pub struct InUse {
    pub side: Side,
    pub generation: u64,
}

/// What the first bytes of a side tell.
#[derive(Clone, Copy, PartialEq, Eq)]
pub enum Peeked {
    /// It isn't armed.
    Closed,
    /// It is armed, under this generation.
    Armed(u64),
    /// It is armed, and ends before its generation does.
    Short,
}

/// Reads the gate of a side and its generation, and nothing else.
pub fn peek<S: Site>(site: &mut S, side: Side) -> Result<Peeked, DeviceFault>
    ensures exact { S.honest site.old → IfOk result (λ peek. peek ≡ peek_of (S.state site.old side).bytes) }
    ensures reads { OnlyReads S.Site site.old site.new }
    ensures fault { CountsCalls (LooksAt side) (S.failures site.old) (S.failures site.new) result }
{
    let len = length_of(site, side)?;
    if len == 0 {
        return Ok(Peeked::Closed);
    }
    let mut gate = [0];
    read_into(site, side, 0, &mut gate)?;
    if gate[0] != OPEN_GATE {
        return Ok(Peeked::Closed);
    }
    if len < 9 {
        return Ok(Peeked::Short);
    }
    let mut number = [0; 8];
    read_into(site, side, 1, &mut number)?;
    Ok(Peeked::Armed(u64::from_be_bytes(number)))
}

// The generation of a side, where it is armed.
#[tactic(auto, unfolding(crate::specs::SideChoice::generation_in))]
fn generation<S: Site>(site: &mut S, side: Side) -> Result<Option<u64>, OpenFault>
    ensures exact { S.honest site.old → Answers (λ o. o) result (generation_in side (S.state site.old side).bytes) }
    ensures reads { OnlyReads S.Site site.old site.new }
    ensures fault { CountsDevice (LooksAt side) (S.failures site.old) (S.failures site.new) result }
    ensures memory { IfErr result (λ fault. fault ≢ faults.NoMemory) }
{
    match peek(site, side)? {
        Peeked::Closed => Ok(None),
        Peeked::Short | Peeked::Armed(0) => Err(OpenFault::Damaged(side, 1)),
        Peeked::Armed(generation) => Ok(Some(generation)),
    }
}

// The side with the greater generation.
#[tactic(auto, unfolding(crate::specs::SideChoice::greater))]
fn greater_of(first: Option<u64>, second: Option<u64>) -> Result<InUse, OpenFault>
    ensures exact { result ≡ greater first second }
    ensures fault { (failures : ℕ) → CountsDevice LooksAtEither failures failures result }
    ensures memory { IfErr result (λ fault. fault ≢ faults.NoMemory) }
{
    match (first, second) {
        (None, None) => Err(OpenFault::NotFormatted),
        (Some(generation), None) => Ok(InUse {
            side: Side::A,
            generation,
        }),
        (None, Some(generation)) => Ok(InUse {
            side: Side::B,
            generation,
        }),
        (Some(a), Some(b)) => {
            if a == b {
                Err(OpenFault::Damaged(Side::B, 1))
            } else if a < b {
                Ok(InUse {
                    side: Side::B,
                    generation: b,
                })
            } else {
                Ok(InUse {
                    side: Side::A,
                    generation: a,
                })
            }
        }
    }
}

/// Finds the side in use: the armed one with the greater generation. Side B is looked at after side A. NotFormatted where
/// no side is armed, Damaged at place 1 where an armed side has no generation (the first of them), or the second one has
/// that of the first.
#[tactic(auto, unfolding(crate::specs::SideChoice::chosen))]
pub fn choose<S: Site>(site: &mut S) -> Result<InUse, OpenFault>
    ensures exact { S.honest site.old → Answers (λ used. used) result (chosen (S.state site.old A).bytes (S.state site.old B).bytes) }
    ensures in_turn { S.honest site.old → IfErr result (IsInTurn (S.state site.old A).bytes) }
    ensures reads { OnlyReads S.Site site.old site.new }
    ensures fault { CountsDevice LooksAtEither (S.failures site.old) (S.failures site.new) result }
    ensures memory { IfErr result (λ fault. fault ≢ faults.NoMemory) }
{
    let first = generation(site, Side::A)?;
    let second = generation(site, Side::B)?;
    greater_of(first, second)
}
