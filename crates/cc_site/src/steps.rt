//! The record that a site in memory keeps of its disk calls: each with what it takes to go back before it.

ghost use Rattle.std.specs.Prelude.{◌≡◌, ◌⊎◌, ◌+◌, ◌≤◌, ◌<◌, ◌++◌, [], ◌∷◌, length, take, IsTrue, is_err, OnOk, OnErr};
ghost use Rattle.std.specs.Vec.{vec_capacity};
ghost use Rattle.cc_site.specs.Sides.{overwritten};
ghost use Rattle.cc_site.specs.Record.{mark_write, mark_cut, Adds};

use crate::site::Side;
use std::alloc::AllocError;

/// What a disk call did to its side.
#[derive(Drop)]
pub enum Change {
    /// So many bytes were written, over the old ones.
    Written {
        place: usize,
        count: usize,
        old: Vec<u8>,
    },
    /// A write of so many bytes failed.
    MissedWrite {
        place: usize,
        count: usize,
    },
    /// The side was cut, and lost its tail.
    Shortened {
        to: usize,
        tail: Vec<u8>,
    },
    /// A cut failed.
    MissedCut {
        to: usize,
    },
    Synced,
}

/// A disk call that changed a side, or that failed to.
#[derive(Drop)]
pub struct Step {
    pub side: Side,
    /// How many outputs there were by then.
    pub told: usize,
    /// How long the side was before it, in bytes.
    pub length: usize,
    pub change: Change,
}

// Writes over what is there, and past the end.
fn overwrite(bytes: &mut Vec<u8>, place: usize, new: &[u8]) -> Result<(), AllocError>
    requires { place ≤ length bytes.old.items }
    ensures ok { OnOk result (bytes.new.items ≡ overwritten bytes.old.items place new.now) }
    ensures err { OnErr result (bytes.new.items ≡ bytes.old.items) }
{
    let room = bytes.len() - place;
    if new.len() <= room {
        bytes[place..place + new.len()].copy_from_slice(new);
        return Ok(());
    }
    let (over, past) = new.split_at(room);
    bytes.extend_from_slice(past)?;
    bytes[place..place + room].copy_from_slice(over);
    Ok(())
}

/// Adds a step to the record, which has room for it.
pub fn note(steps: &mut Vec<Step>, side: Side, told: usize, len: usize, change: Change)
    requires { length steps.old.items < vec_capacity steps.old }
    ensures { steps.new.items ≡ steps.old.items ++ record { side = side; told = told; length = len; change = change } ∷ [] }
{
    let step = Step {
        side,
        told,
        length: len,
        change,
    };
    steps.push(step).unwrap();
}

// Writes on a side, and adds that to the record, which has room for it.
fn write_bytes(
    side: Side,
    told: usize,
    bytes: &mut Vec<u8>,
    steps: &mut Vec<Step>,
    place: usize,
    new: &[u8],
) -> Result<(), AllocError>
    requires place { place ≤ length bytes.old.items }
    requires room { length steps.old.items < vec_capacity steps.old }
    ensures ok { OnOk result (bytes.new.items ≡ overwritten bytes.old.items place new.now) }
    ensures adds { OnOk result (Adds side told steps.old.items steps.new.items bytes.old.items bytes.new.items
        (λ m. mark_write m (length bytes.old.items) place (length new.now))) }
    ensures err { OnErr result ((bytes.new.items ≡ bytes.old.items) × (steps.new ≡ steps.old)) }
{
    let length = bytes.len();
    let count = new.len().min(length - place);
    let old = bytes[place..place + count].to_vec(*steps.allocator())?;
    overwrite(bytes, place, new)?;
    let change = Change::Written {
        place,
        count: new.len(),
        old,
    };
    note(steps, side, told, length, change);
    Ok(())
}

// Cuts a side, and adds that to the record, which has room for it.
fn cut_bytes(
    side: Side,
    told: usize,
    bytes: &mut Vec<u8>,
    steps: &mut Vec<Step>,
    to: usize,
) -> Result<(), AllocError>
    requires place { to ≤ length bytes.old.items }
    requires room { length steps.old.items < vec_capacity steps.old }
    ensures ok { OnOk result (bytes.new.items ≡ take to bytes.old.items) }
    ensures adds { OnOk result (Adds side told steps.old.items steps.new.items bytes.old.items bytes.new.items (λ m. mark_cut m (length bytes.old.items) to)) }
    ensures err { OnErr result ((bytes.new.items ≡ bytes.old.items) × (steps.new ≡ steps.old)) }
{
    let length = bytes.len();
    let tail = bytes[to..].to_vec(*steps.allocator())?;
    note(steps, side, told, length, Change::Shortened { to, tail });
    bytes.truncate(to);
    Ok(())
}

/// Writes on a side. A write that is to fail, or that meets a refused growth, touches its range. Only where the record
/// itself can't grow, nothing has changed.
pub fn attempt_write(
    fails: bool,
    side: Side,
    told: usize,
    bytes: &mut Vec<u8>,
    steps: &mut Vec<Step>,
    place: usize,
    new: &[u8],
) -> Result<(), AllocError>
    requires { place ≤ length bytes.old.items }
    ensures ok { OnOk result (bytes.new.items ≡ overwritten bytes.old.items place new.now) }
    ensures err { OnErr result (bytes.new.items ≡ bytes.old.items) }
    ensures adds { OnOk result (Adds side told steps.old.items steps.new.items bytes.old.items bytes.new.items
        (λ m. mark_write m (length bytes.old.items) place (length new.now))) }
    ensures fails { IsTrue fails → IsTrue (is_err result) }
    ensures missed { OnErr result (Adds side told steps.old.items steps.new.items bytes.old.items bytes.new.items
        (λ m. mark_write m (length bytes.old.items) place (length new.now))
        ⊎ ((steps.new.items ≡ steps.old.items) × (vec_capacity steps.old ≤ length steps.old.items))) }
{
    steps.reserve(1)?;
    if !fails && write_bytes(side, told, bytes, steps, place, new).is_ok() {
        return Ok(());
    }
    let count = new.len();
    let missed = Change::MissedWrite { place, count };
    note(steps, side, told, bytes.len(), missed);
    Err(AllocError)
}

/// The same for a cut.
pub fn attempt_cut(
    fails: bool,
    side: Side,
    told: usize,
    bytes: &mut Vec<u8>,
    steps: &mut Vec<Step>,
    to: usize,
) -> Result<(), AllocError>
    requires { to ≤ length bytes.old.items }
    ensures ok { OnOk result (bytes.new.items ≡ take to bytes.old.items) }
    ensures err { OnErr result (bytes.new.items ≡ bytes.old.items) }
    ensures adds { OnOk result (Adds side told steps.old.items steps.new.items bytes.old.items bytes.new.items (λ m. mark_cut m (length bytes.old.items) to)) }
    ensures fails { IsTrue fails → IsTrue (is_err result) }
    ensures missed { OnErr result (Adds side told steps.old.items steps.new.items bytes.old.items bytes.new.items
        (λ m. mark_cut m (length bytes.old.items) to) ⊎ ((steps.new.items ≡ steps.old.items) × (vec_capacity steps.old ≤ length steps.old.items))) }
{
    steps.reserve(1)?;
    if !fails && cut_bytes(side, told, bytes, steps, to).is_ok() {
        return Ok(());
    }
    note(steps, side, told, bytes.len(), Change::MissedCut { to });
    Err(AllocError)
}
