//! Two byte files in memory, and the record of the calls that changed them.

ghost use Rattle.std.specs.Prelude.{◌≡◌, ◌⊎◌, ◌≤◌, [], length, take, IsTrue, is_err, OnOk, OnErr};
ghost use Rattle.cc_site.specs.Sides.{other, overwritten};
ghost use Rattle.cc_site.specs.Record.{no_marks, mark_write, mark_cut};
ghost use Rattle.cc_site.specs.Disks.{bytes_of, AddsStep, StaysFull};

use crate::site::Side;
use crate::steps::{Change, Step, attempt_cut, attempt_write, note};
use std::alloc::{AllocError, Global};

/// Two byte files, and a step for each call that changed one or failed to.
#[derive(Drop)]
pub struct Disk {
    pub a: Vec<u8>,
    pub b: Vec<u8>,
    pub steps: Vec<Step>,
}

impl Disk {
    /// These files, and no step.
    pub fn holding(alloc: Global, a: Vec<u8>, b: Vec<u8>) -> Disk
        ensures files { (result.a ≡ a) × (result.b ≡ b) }
        ensures steps { result.steps.items ≡ [] }
    {
        Disk {
            a,
            b,
            steps: Vec::new(alloc),
        }
    }

    /// The bytes of a side.
    pub fn bytes(&self, side: Side) -> &[u8]
        ensures { result.now ≡ bytes_of self.now side }
    {
        match side {
            Side::A => &self.a,
            Side::B => &self.b,
        }
    }

    /// Writes on a side. Where that is to fail, or a growth is refused, it touches its range; only where the record
    /// itself can't grow, nothing has changed.
    pub fn write(
        &mut self,
        fails: bool,
        told: usize,
        side: Side,
        place: usize,
        new: &[u8],
    ) -> Result<(), AllocError>
        requires { place ≤ length (bytes_of self.old side) }
        ensures ok { OnOk result (bytes_of self.new side ≡ overwritten (bytes_of self.old side) place new.now) }
        ensures err { OnErr result (bytes_of self.new side ≡ bytes_of self.old side) }
        ensures other { bytes_of self.new (other side) ≡ bytes_of self.old (other side) }
        ensures adds { OnOk result (AddsStep side told self.old self.new (λ m. mark_write m (length (bytes_of self.old side)) place (length new.now))) }
        ensures fails { IsTrue fails → IsTrue (is_err result) }
        ensures missed { OnErr result (AddsStep side told self.old self.new (λ m. mark_write m (length (bytes_of self.old side)) place (length new.now))
            ⊎ StaysFull self.old self.new) }
    {
        let steps = &mut self.steps;
        match side {
            Side::A => attempt_write(fails, side, told, &mut self.a, steps, place, new),
            Side::B => attempt_write(fails, side, told, &mut self.b, steps, place, new),
        }
    }

    /// Cuts a side. A cut that fails is as a write that fails.
    pub fn cut(&mut self, fails: bool, told: usize, side: Side, to: usize) -> Result<(), AllocError>
        requires { to ≤ length (bytes_of self.old side) }
        ensures ok { OnOk result (bytes_of self.new side ≡ take to (bytes_of self.old side)) }
        ensures err { OnErr result (bytes_of self.new side ≡ bytes_of self.old side) }
        ensures other { bytes_of self.new (other side) ≡ bytes_of self.old (other side) }
        ensures adds { OnOk result (AddsStep side told self.old self.new (λ m. mark_cut m (length (bytes_of self.old side)) to)) }
        ensures fails { IsTrue fails → IsTrue (is_err result) }
        ensures missed { OnErr result (AddsStep side told self.old self.new (λ m. mark_cut m (length (bytes_of self.old side)) to)
            ⊎ StaysFull self.old self.new) }
    {
        let steps = &mut self.steps;
        match side {
            Side::A => attempt_cut(fails, side, told, &mut self.a, steps, to),
            Side::B => attempt_cut(fails, side, told, &mut self.b, steps, to),
        }
    }

    /// Makes sure of a side. Where that is to fail, or a growth is refused, nothing has changed.
    pub fn sync(&mut self, fails: bool, told: usize, side: Side) -> Result<(), AllocError>
        ensures files { (bytes_of self.new side ≡ bytes_of self.old side) × (bytes_of self.new (other side) ≡ bytes_of self.old (other side)) }
        ensures adds { OnOk result (AddsStep side told self.old self.new (λ _. no_marks)) }
        ensures err { OnErr result (self.new.steps.items ≡ self.old.steps.items) }
        ensures fails { IsTrue fails → IsTrue (is_err result) }
    {
        if fails {
            return Err(AllocError);
        }
        let length = self.bytes(side).len();
        self.steps.reserve(1)?;
        note(&mut self.steps, side, told, length, Change::Synced);
        Ok(())
    }
}
