//! What a crash makes of the sides of a site in memory.

ghost use Rattle.std.specs.Prelude.{◌≡◌, ◌+◌, ◌<◌, ◌≤◌, ◌||◌, ◌&&◌, ℕ, Bool, false, unwrap_or, take, nat_le, nat_lt, if◌then◌else◌, length};
ghost use Rattle.std.specs.Prelude.{slice_index, slice_index_or, IfOk};
ghost use Rattle.cc_site.specs.Record.{Marks, mark_step, marks};
ghost use Rattle.cc_site.specs.Image.{overlaid, taken, touched_list, IsFilled};

use crate::site::Side;
use crate::steps::{Change, Step};
use std::alloc::{AllocError, Global};

/// What a crash makes of the places that it may change.
#[derive(Drop)]
pub enum Choice {
    /// All as a read gives it.
    Read,
    /// All touched places hold this byte.
    Fill(u8),
    /// The touched places, side A's and then side B's, ascending, take these bytes, and the rest is as read.
    Bytes(Vec<u8>),
    /// Each side ends at the lowest place cut or extended.
    Short,
}

fn mark_range(flags: &mut [bool], place: usize, count: usize)
    ensures { (p : ℕ) → p < length flags.old → slice_index_or flags.new p false
        ≡ (slice_index_or flags.old p false || (nat_le place p && nat_lt p (place + count))) }
{
    let end = place.saturating_add(count).min(flags.len());
    for i in place..end {
        flags[i] = true;
    }
}

// What a step does to the flags of a side.
fn mark(flags: &mut [bool], side: Side, step: &Step)
    ensures { (m : Marks) → ((p : ℕ) → p < length flags.old → slice_index_or flags.old p false ≡ m.touched p) → (p : ℕ) → p < length flags.old
        → slice_index_or flags.new p false ≡ (mark_step side m step.now).touched p }
{
    if step.side != side {
        return;
    }
    match &step.change {
        Change::Written { place, count, .. } => mark_range(flags, *place, *count),
        Change::MissedWrite { place, count } => mark_range(flags, *place, *count),
        Change::Shortened { .. } => {}
        Change::MissedCut { .. } => {}
        Change::Synced => flags.fill(false),
    }
}

fn mark_all(flags: &mut [bool], side: Side, steps: &[Step])
    requires { (p : ℕ) → p < length flags.old → slice_index_or flags.old p false ≡ false }
    ensures { (p : ℕ) → p < length flags.old → slice_index_or flags.new p false ≡ (marks side steps.now).touched p }
{
    for step in steps {
        mark(flags, side, step);
    }
}

/// Which of the first places of a side are touched.
fn touched_flags(
    alloc: Global,
    steps: &[Step],
    side: Side,
    len: usize,
) -> Result<Vec<bool>, AllocError>
    ensures length { IfOk result (λ flags. length flags.items ≡ len) }
    ensures flags { IfOk result (λ flags. (p : ℕ) → p < len → slice_index_or flags.items p false ≡ (marks side steps.now).touched p) }
{
    let mut flags = vec![in alloc; false; len]?;
    mark_all(&mut flags, side, steps);
    Ok(flags)
}

/// Touched places take these bytes in turn, as far as they go. Answers how many went in.
fn overlay(bytes: &mut [u8], flags: &[bool], new: &[u8]) -> usize
    requires { length bytes.old ≡ length flags.now }
    ensures bytes { bytes.new ≡ overlaid flags.now bytes.old new.now }
    ensures count { result ≡ taken flags.now new.now }
    ensures within { result ≤ length new.now }
{
    let mut used = 0;
    for i in 0..bytes.len() {
        if flags[i] && used < new.len() {
            bytes[i] = new[used];
            used += 1;
        }
    }
    used
}

/// Touched places all take one byte.
fn fill(bytes: &mut [u8], flags: &[bool], byte: u8)
    requires { length bytes.old ≡ length flags.now }
    ensures { (p : ℕ) → p < length bytes.old → slice_index bytes.new p ≡ (if slice_index_or flags.now p false then byte else slice_index bytes.old p) }
{
    for i in 0..bytes.len() {
        if flags[i] {
            bytes[i] = byte;
        }
    }
}

// Where a step leaves the lowest shifted place.
fn shift(shifted: Option<usize>, side: Side, step: &Step) -> Option<usize>
    ensures { (t : ℕ → Bool) → result ≡ (mark_step side (record { touched = t; shifted = shifted }) step.now).shifted }
{
    if step.side != side {
        return shifted;
    }
    let low = shifted.unwrap_or(step.length);
    match &step.change {
        Change::Written { place, count, .. } => {
            if place
                .checked_add(*count)
                .is_some_and(|end| end <= step.length)
            {
                return shifted;
            }
            Some(low)
        }
        Change::MissedWrite { place, count } => {
            if place
                .checked_add(*count)
                .is_some_and(|end| end <= step.length)
            {
                return shifted;
            }
            Some(low)
        }
        Change::Shortened { to, .. } => Some(low.min(*to)),
        Change::MissedCut { to } => Some(low.min(*to)),
        Change::Synced => None,
    }
}

fn shifted_place(steps: &[Step], side: Side) -> Option<usize>
    ensures { result ≡ (marks side steps.now).shifted }
{
    let mut shifted = None;
    for step in steps {
        shifted = shift(shifted, side, step);
    }
    shifted
}

/// A side whose touched places all hold one byte.
pub fn filled(
    alloc: Global,
    bytes: &[u8],
    steps: &[Step],
    side: Side,
    byte: u8,
) -> Result<Vec<u8>, AllocError>
    ensures { IfOk result (λ image. IsFilled (marks side steps.now).touched byte bytes.now image.items) }
{
    let mut image = bytes.to_vec(alloc)?;
    let flags = touched_flags(alloc, steps, side, bytes.len())?;
    fill(&mut image, &flags, byte);
    Ok(image)
}

/// A side whose touched places take these bytes in turn, and how many went in.
pub fn laid(
    alloc: Global,
    bytes: &[u8],
    steps: &[Step],
    side: Side,
    new: &[u8],
) -> Result<(Vec<u8>, usize), AllocError>
    ensures image { IfOk result (λ r. r.0.items ≡ overlaid (touched_list (marks side steps.now).touched 0 (length bytes.now)) bytes.now new.now) }
    ensures count { IfOk result (λ r. r.1 ≡ taken (touched_list (marks side steps.now).touched 0 (length bytes.now)) new.now) }
    ensures within { IfOk result (λ r. r.1 ≤ length new.now) }
{
    let mut image = bytes.to_vec(alloc)?;
    let flags = touched_flags(alloc, steps, side, bytes.len())?;
    let used = overlay(&mut image, &flags, new);
    Ok((image, used))
}

/// A side that ends at its lowest shifted place.
pub fn shortened(
    alloc: Global,
    bytes: &[u8],
    steps: &[Step],
    side: Side,
) -> Result<Vec<u8>, AllocError>
    ensures { IfOk result (λ image. image.items ≡ take (unwrap_or (marks side steps.now).shifted (length bytes.now)) bytes.now) }
{
    let end = shifted_place(steps, side)
        .unwrap_or(bytes.len())
        .min(bytes.len());
    bytes[..end].to_vec(alloc)
}
