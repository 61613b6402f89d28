//! A site in memory, which keeps a record of its disk calls and its first outputs.

ghost use Rattle.std.specs.Prelude.{◌≡◌, ◌⊎◌, ◌↔◌, ◌+◌, ◌%◌, ◌^◌, ◌≤◌, ◌<◌, ◌++◌, [], ◌∷◌, length, take, drop, Option, None, Some, IsTrue, is_err};
ghost use Rattle.std.specs.Prelude.{IsSome, IfSome, OnOk, OnErr, IfOk, ⊤};
ghost use Rattle.std.specs.Vec.{vec_capacity};
ghost use Rattle.cc_messages.specs.declared.output.Output.{Output};
ghost use Rattle.cc_messages.specs.declared.output.Output.TheVariants.{Send, Ack, Reply};
ghost use Rattle.cc_site.specs.declared.site.Side.{Side};
ghost use Rattle.cc_site.specs.declared.site.Call.TheVariants.{Length, Read, Write, Cut, Sync};
ghost use Rattle.cc_site.specs.Fuse.{MayFail};
ghost use Rattle.cc_site.specs.Kept.{kept, lost_after};
ghost use Rattle.cc_site.specs.Moments.{Possible, Within, Nothing, Elapses, CountsFault};
ghost use Rattle.cc_site.specs.Sides.{MayLeave, other, touch, written, shift, cut_to, settled};
ghost use Rattle.cc_site.specs.Image.{IsChosen};
ghost use Rattle.cc_site.specs.Record.{file, state_now, AreBytes, Since, ToldFits, FirmFits};
ghost use Rattle.cc_site.specs.Disks.{bytes_of};

use crate::disk::Disk;
use crate::fuse::{Failing, Fuse};
use crate::image::{Choice, filled, laid, shortened};
use crate::site::{Call, DeviceFault, Side, Site};
use crate::steps::Step;
use cc_messages::{Answer, Message, Output};
use cc_views::{NoMemory, NodeId};
use std::alloc::{AllocError, Global};

/// A site in memory. It is honest, and it tells its outputs as long as none was lost.
///
/// A disk call whose growth is refused is a device failure. A write or a cut that fails leaves its range touched; only
/// where the record can't grow by that call itself, it leaves all as it was.
#[derive(Drop)]
pub struct MemorySite {
    alloc: Global,
    disk: Disk,
    outputs: Vec<Output>,
    reserve: usize,
    lost: u64,
    calls: u64,
    failures: u64,
    fuse: Option<Fuse>,
    ghost room: { reserve ≤ vec_capacity outputs },
    ghost told_fits: { ToldFits disk.steps.items outputs.items },
    ghost firm_fits: { FirmFits (bytes_of disk) disk.steps.items },
    ghost are_bytes: { (side : Side) → AreBytes (bytes_of disk side) },
}

impl MemorySite {
    ghost use Rattle.cc_site.specs.Memory.{memory_state, memory_outputs, memory_reserve, memory_lost, memory_fuse, IsFresh, OnlyArms};

    /// Two empty sides, and room for so many outputs. NoMemory where a growth was refused.
    pub fn new(alloc: Global, reserve: usize) -> Result<MemorySite, NoMemory>
        ensures fresh { IfOk result (λ site. IsFresh site reserve) }
        ensures empty { IfOk result (λ site. (side : Side) → (memory_state site side).bytes ≡ []) }
    {
        MemorySite::holding(alloc, Vec::new(alloc), Vec::new(alloc), reserve)
    }

    // These sides, all of them on the disk.
    fn holding(
        alloc: Global,
        a: Vec<u8>,
        b: Vec<u8>,
        reserve: usize,
    ) -> Result<MemorySite, NoMemory>
        ensures fresh { IfOk result (λ site. IsFresh site reserve) }
        ensures bytes { IfOk result (λ site. (site.disk.a.items ≡ a.items) × (site.disk.b.items ≡ b.items)) }
    {
        let outputs = Vec::with_capacity(alloc, reserve)?;
        Ok(MemorySite {
            alloc,
            disk: Disk::holding(alloc, a, b),
            outputs,
            reserve,
            lost: 0,
            calls: 0,
            failures: 0,
            fuse: None,
        })
    }

    /// The site after a crash now: what the crash may change is as chosen, nothing of it is touched, and no output was
    /// put. It has the same reserve, and no fuse. NoMemory where a growth was refused.
    pub fn image(&self, alloc: Global, choice: &Choice) -> Result<MemorySite, NoMemory>
        ensures fresh { IfOk result (λ image. IsFresh image (memory_reserve self.now)) }
        ensures chosen { IfOk result (λ image. IsChosen choice.now (memory_state self.now) (λ side. (memory_state image side).bytes)) }
        ensures possible { IfOk result (λ image. (side : Side) → MayLeave (memory_state self.now side) (memory_state image side).bytes) }
    {
        let (a, b) = chosen(alloc, &self.disk.a, &self.disk.b, &self.disk.steps, choice)?;
        MemorySite::holding(alloc, a, b, self.reserve)
    }

    /// The first outputs, the first of them first: as many as there was room for.
    pub fn outputs(&self) -> &[Output]
        ensures { result.now ≡ memory_outputs self.now }
    {
        &self.outputs
    }

    /// How many outputs were not kept, for want of room or of memory. It stops at the greatest u64.
    pub fn lost(&self) -> u64
        ensures { result ≡ memory_lost self.now }
    {
        self.lost
    }

    /// The disk call of this number, from 0 on since the site was made, fails: it alone, or with all later ones. It
    /// takes the place of an earlier fuse.
    pub fn fuse(&mut self, at: u64, failing: Failing)
        ensures same { OnlyArms self.old self.new }
        ensures armed { memory_fuse self.new ≡ Some (record { at = at; failing = failing }) }
    {
        self.fuse = Some(Fuse { at, failing });
    }
}

// The bytes of both sides after a crash.
fn chosen(
    alloc: Global,
    a: &[u8],
    b: &[u8],
    steps: &[Step],
    choice: &Choice,
) -> Result<(Vec<u8>, Vec<u8>), AllocError>
    ensures { IfOk result (λ r. IsChosen choice.now (state_now (file a.now b.now) steps.now) (file r.0.items r.1.items)) }
{
    match choice {
        Choice::Read => Ok((a.to_vec(alloc)?, b.to_vec(alloc)?)),
        Choice::Fill(byte) => {
            let in_a = filled(alloc, a, steps, Side::A, *byte)?;
            let in_b = filled(alloc, b, steps, Side::B, *byte)?;
            Ok((in_a, in_b))
        }
        Choice::Bytes(new) => {
            let (in_a, used) = laid(alloc, a, steps, Side::A, new)?;
            let (in_b, _) = laid(alloc, b, steps, Side::B, &new[used..])?;
            Ok((in_a, in_b))
        }
        Choice::Short => {
            let in_a = shortened(alloc, a, steps, Side::A)?;
            let in_b = shortened(alloc, b, steps, Side::B)?;
            Ok((in_a, in_b))
        }
    }
}

// Counts a disk call, and answers whether a fuse fails it.
fn next_fails(calls: &mut u64, fuse: &Option<Fuse>) -> bool
    ensures calls { calls.new ≡ (calls.old + 1) % 2 ^ 64 }
    ensures fails { IsTrue result ↔ MayFail fuse.now calls.old }
{
    let number = *calls;
    *calls = number.wrapping_add(1);
    match fuse {
        None => false,
        Some(fuse) => fuse.fails(number),
    }
}

// Where a disk call fails, counts that and names the call.
fn count(fails: bool, failures: &mut u64, side: Side, call: Call) -> Result<(), DeviceFault>
    ensures outcome { is_err result ≡ fails }
    ensures fault { CountsFault failures.old failures.new side call result }
{
    if fails {
        *failures = failures.wrapping_add(1);
        return Err(DeviceFault { side, call });
    }
    Ok(())
}

// Keeps an output behind the earlier ones, where there is one and it is within the reserve. Else it is lost.
fn keep(outputs: &mut Vec<Output>, reserve: usize, lost: &mut u64, output: Option<Output>)
    requires room { reserve ≤ vec_capacity outputs.old }
    ensures outputs { outputs.new.items ≡ kept reserve outputs.old.items output }
    ensures lost { lost.new ≡ lost_after reserve outputs.old.items output lost.old }
    ensures tells { lost.new ≡ 0 → (lost.old ≡ 0) × IfSome output (λ o. outputs.new.items ≡ outputs.old.items ++ o ∷ []) × IsSome output }
    ensures cases { (outputs.new.items ≡ outputs.old.items) ⊎ ((o : Output) × (outputs.new.items ≡ outputs.old.items ++ o ∷ [])) }
    ensures room { reserve ≤ vec_capacity outputs.new }
{
    let within = outputs.len() < reserve;
    match output {
        Some(output) if within => outputs.push(output).unwrap(),
        _ => *lost = lost.saturating_add(1),
    }
}

impl Site for MemorySite {
    ghost use Rattle.cc_site.specs.Memory.{memory_state, memory_outputs, memory_lost, memory_calls, memory_fuse, memory_failures, memory_moment};
    ghost use Rattle.cc_site.specs.Memory.{memory_left_since, CountsCall, Keeps};
    ghost use Rattle.cc_site.specs.RecordLaws.{since_now, now_only, may_read_now};
    ghost use Rattle.std.proofs.Common.{lit≤};

    const STRIDE: u64 = 1;

    ghost STRIDE = { 1 };

    ghost has_stride = { lit≤ tt };

    ghost bounds_stride = { lit≤ tt };

    ghost honest = { λ _. ⊤ };

    ghost tells = { λ m. m.lost ≡ 0 };

    ghost state = { λ m. memory_state m };

    ghost sent = { λ m. m.outputs.items };

    ghost moment = { λ m. length m.disk.steps.items + length m.outputs.items };

    ghost left_since = { λ m t left told. Since (bytes_of m.disk) m.disk.steps.items m.outputs.items t left told };

    ghost failures = { λ m. m.failures };

    ghost may_read = { λ m _ side. may_read_now (bytes_of m.disk) m.disk.steps.items m.firm_fits side };

    ghost are_bytes = { λ m _ side place. m.are_bytes side place };

    ghost counts_now = { λ m _ t left told le possible. since_now (bytes_of m.disk) m.disk.steps.items m.outputs.items m.told_fits t left told le possible };

    ghost only_now = { λ m _ left told since. now_only (bytes_of m.disk) m.disk.steps.items m.outputs.items left told since };

    fn length(&mut self, side: Side) -> Result<u64, DeviceFault>
        ensures call { CountsCall self.old self.new }
        ensures fuse { IsTrue (is_err result) ↔ MayFail (memory_fuse self.old) (memory_calls self.old) }
        ensures value { IfOk result (λ n. n ≡ length (memory_state self.old side).bytes) }
        ensures same { memory_state self.new ≡ memory_state self.old }
        ensures time { Elapses (memory_moment self.old) (memory_moment self.new) (memory_left_since self.old) (memory_left_since self.new) Nothing }
        ensures fault { CountsFault (memory_failures self.old) (memory_failures self.new) side Length result }
    {
        let fails = next_fails(&mut self.calls, &self.fuse);
        count(fails, &mut self.failures, side, Call::Length)?;
        Ok(self.disk.bytes(side).len() as u64)
    }

    fn read(&mut self, side: Side, place: u64, into: &mut [u8]) -> Result<(), DeviceFault>
        requires { place + length into.old ≤ length (memory_state self.old side).bytes }
        ensures call { CountsCall self.old self.new }
        ensures fuse { IsTrue (is_err result) ↔ MayFail (memory_fuse self.old) (memory_calls self.old) }
        ensures value { OnOk result (into.new ≡ take (length into.old) (drop place (memory_state self.old side).bytes)) }
        ensures same { memory_state self.new ≡ memory_state self.old }
        ensures time { Elapses (memory_moment self.old) (memory_moment self.new) (memory_left_since self.old) (memory_left_since self.new) Nothing }
        ensures fault { CountsFault (memory_failures self.old) (memory_failures self.new) side Read result }
    {
        let fails = next_fails(&mut self.calls, &self.fuse);
        count(fails, &mut self.failures, side, Call::Read)?;
        let place = place as usize;
        into.copy_from_slice(&self.disk.bytes(side)[place..place + into.len()]);
        Ok(())
    }

    fn write_at(&mut self, side: Side, place: u64, bytes: &[u8]) -> Result<(), DeviceFault>
        requires { place ≤ length (memory_state self.old side).bytes }
        ensures call { CountsCall self.old self.new }
        ensures fuse { MayFail (memory_fuse self.old) (memory_calls self.old) → IsTrue (is_err result) }
        ensures value { OnOk result (memory_state self.new side ≡ written (memory_state self.old side) place bytes.now) }
        ensures failed { OnErr result ((memory_state self.new side ≡ touch (memory_state self.old side) place (length bytes.now))
            ⊎ (memory_state self.new side ≡ memory_state self.old side)) }
        ensures other_side { memory_state self.new (other side) ≡ memory_state self.old (other side) }
        ensures time { Elapses (memory_moment self.old) (memory_moment self.new) (memory_left_since self.old) (memory_left_since self.new)
            (Within side (touch (memory_state self.old side) place (length bytes.now)) (memory_state self.old) (memory_outputs self.old)) }
        ensures fault { CountsFault (memory_failures self.old) (memory_failures self.new) side Write result }
    {
        let fails = next_fails(&mut self.calls, &self.fuse);
        let told = self.outputs.len();
        let outcome = self.disk.write(fails, told, side, place as usize, bytes);
        count(outcome.is_err(), &mut self.failures, side, Call::Write)
    }

    fn cut(&mut self, side: Side, len: u64) -> Result<(), DeviceFault>
        requires { len ≤ length (memory_state self.old side).bytes }
        ensures call { CountsCall self.old self.new }
        ensures fuse { MayFail (memory_fuse self.old) (memory_calls self.old) → IsTrue (is_err result) }
        ensures value { OnOk result (memory_state self.new side ≡ cut_to (memory_state self.old side) len) }
        ensures failed { OnErr result ((memory_state self.new side ≡ shift (memory_state self.old side) len)
            ⊎ (memory_state self.new side ≡ memory_state self.old side)) }
        ensures other_side { memory_state self.new (other side) ≡ memory_state self.old (other side) }
        ensures time { Elapses (memory_moment self.old) (memory_moment self.new) (memory_left_since self.old) (memory_left_since self.new)
            (Within side (shift (memory_state self.old side) len) (memory_state self.old) (memory_outputs self.old)) }
        ensures fault { CountsFault (memory_failures self.old) (memory_failures self.new) side Cut result }
    {
        let fails = next_fails(&mut self.calls, &self.fuse);
        let told = self.outputs.len();
        let outcome = self.disk.cut(fails, told, side, len as usize);
        count(outcome.is_err(), &mut self.failures, side, Call::Cut)
    }

    fn sync(&mut self, side: Side) -> Result<(), DeviceFault>
        ensures call { CountsCall self.old self.new }
        ensures fuse { MayFail (memory_fuse self.old) (memory_calls self.old) → IsTrue (is_err result) }
        ensures value { OnOk result (memory_state self.new side ≡ settled (memory_state self.old side)) }
        ensures failed { OnErr result (memory_state self.new side ≡ memory_state self.old side) }
        ensures other_side { memory_state self.new (other side) ≡ memory_state self.old (other side) }
        ensures time { Elapses (memory_moment self.old) (memory_moment self.new) (memory_left_since self.old) (memory_left_since self.new) Nothing }
        ensures fault { CountsFault (memory_failures self.old) (memory_failures self.new) side Sync result }
    {
        let fails = next_fails(&mut self.calls, &self.fuse);
        let told = self.outputs.len();
        let outcome = self.disk.sync(fails, told, side);
        count(outcome.is_err(), &mut self.failures, side, Call::Sync)
    }

    fn spell(&self, _message: &Message) -> Option<Vec<u8>> {
        None
    }

    fn send(&mut self, to: NodeId, number: u64, message: &Message, _spelled: Option<&[u8]>)
        ensures kept { Keeps (Some (Send to number message.now)) self.old self.new ⊎ Keeps None self.old self.new }
        ensures tells { memory_lost self.new ≡ 0 → (memory_lost self.old ≡ 0)
            × (memory_outputs self.new ≡ memory_outputs self.old ++ Send to number message.now ∷ []) }
        ensures same { memory_state self.new ≡ memory_state self.old }
        ensures time { Elapses (memory_moment self.old) (memory_moment self.new) (memory_left_since self.old) (memory_left_since self.new)
            (Possible (memory_state self.old) (memory_outputs self.new)) }
        ensures failures { memory_failures self.new ≡ memory_failures self.old }
    {
        let output = match message.copy(self.alloc) {
            Ok(message) => Some(Output::Send {
                to,
                number,
                message,
            }),
            Err(_) => None,
        };
        keep(&mut self.outputs, self.reserve, &mut self.lost, output);
    }

    fn ack(&mut self, to: NodeId, number: u64)
        ensures kept { Keeps (Some (Ack to number)) self.old self.new }
        ensures tells { memory_lost self.new ≡ 0 → (memory_lost self.old ≡ 0) × (memory_outputs self.new ≡ memory_outputs self.old ++ Ack to number ∷ []) }
        ensures same { memory_state self.new ≡ memory_state self.old }
        ensures time { Elapses (memory_moment self.old) (memory_moment self.new) (memory_left_since self.old) (memory_left_since self.new)
            (Possible (memory_state self.old) (memory_outputs self.new)) }
        ensures failures { memory_failures self.new ≡ memory_failures self.old }
    {
        let output = Some(Output::Ack { to, number });
        keep(&mut self.outputs, self.reserve, &mut self.lost, output);
    }

    fn reply(&mut self, session: u64, request: u64, answer: &Answer)
        ensures kept { Keeps (Some (Reply session request answer.now)) self.old self.new ⊎ Keeps None self.old self.new }
        ensures tells { memory_lost self.new ≡ 0 → (memory_lost self.old ≡ 0)
            × (memory_outputs self.new ≡ memory_outputs self.old ++ Reply session request answer.now ∷ []) }
        ensures same { memory_state self.new ≡ memory_state self.old }
        ensures time { Elapses (memory_moment self.old) (memory_moment self.new) (memory_left_since self.old) (memory_left_since self.new)
            (Possible (memory_state self.old) (memory_outputs self.new)) }
        ensures failures { memory_failures self.new ≡ memory_failures self.old }
    {
        let output = match answer.copy(self.alloc) {
            Ok(answer) => Some(Output::Reply {
                session,
                request,
                answer,
            }),
            Err(_) => None,
        };
        keep(&mut self.outputs, self.reserve, &mut self.lost, output);
    }
}
