//! A site: two byte files and an outlet. Its disk model is this project's own.

ghost use Rattle.std.specs.Prelude.{◌≡◌, ◌⊎◌, ◌↔◌, ◌+◌, ◌<◌, ◌≤◌, ◌++◌, [], ◌∷◌, ℕ, List, length, take, drop, slice_index, OnOk, OnErr, IfOk, IfSome};
ghost use Rattle.cc_messages.specs.declared.output.Output.{Output};
ghost use Rattle.cc_messages.specs.declared.output.Output.TheVariants.{Send, Ack, Reply};
ghost use Rattle.cc_wire.specs.Messages.{message_spelling};
ghost use Rattle.cc_site.specs.declared.site.Call.TheVariants.{Length, Read, Write, Cut, Sync};
ghost use Rattle.cc_site.specs.Sides.{SideState, MayLeave, HalfWritten, HalfCut, other, touch, written, shift, cut_to, settled};
ghost use Rattle.cc_site.specs.Moments.{Contents, Possible, Within, Nothing, Elapses, CountsFault};

use cc_messages::{Answer, Message};
use cc_views::NodeId;
use std::error::Error;
use std::fmt;

/// One of the two files of a node.
#[derive(Clone, Copy, Debug, PartialEq, Eq)]
pub enum Side {
    A,
    B,
}

impl Side {
    ghost use Rattle.cc_site.specs.Sides.{other};

    /// The side that isn't this one.
    pub fn other(self) -> Side
        ensures { result ≡ other self }
    {
        match self {
            Side::A => Side::B,
            Side::B => Side::A,
        }
    }
}

impl fmt::Display for Side {
    fn fmt<W: fmt::Write>(&self, f: &mut fmt::Formatter<W>) -> fmt::Result {
        match self {
            Side::A => write!(f, "A"),
            Side::B => write!(f, "B"),
        }
    }
}

/// The calls that a disk may fail.
#[derive(Clone, Copy, Debug, PartialEq, Eq)]
pub enum Call {
    Length,
    Read,
    Write,
    Cut,
    Sync,
}

impl fmt::Display for Call {
    fn fmt<W: fmt::Write>(&self, f: &mut fmt::Formatter<W>) -> fmt::Result {
        match self {
            Call::Length => write!(f, "Length"),
            Call::Read => write!(f, "Read"),
            Call::Write => write!(f, "Write"),
            Call::Cut => write!(f, "Cut"),
            Call::Sync => write!(f, "Sync"),
        }
    }
}

/// A disk call that failed, and the side that it was for.
#[derive(Clone, Copy, Debug, PartialEq, Eq)]
pub struct DeviceFault {
    pub side: Side,
    pub call: Call,
}

/// The side and the call: `A Read`.
impl fmt::Display for DeviceFault {
    fn fmt<W: fmt::Write>(&self, f: &mut fmt::Formatter<W>) -> fmt::Result {
        let side = self.side;
        let call = self.call;
        write!(f, "{side} {call}")
    }
}

impl Error for DeviceFault {}

/// How many bytes a stride has at most.
pub const STRIDE_LIMIT: u64 = 262_144;

/// Two byte files and an outlet. Places and lengths are in bytes, from 0.
///
/// Until a sync of a side succeeds, a crash may leave any bytes at the places of it that were written, and from the
/// lowest place on at which it was cut or extended, its length included. All else stays. A write or a cut that fails may
/// have been made in part: then a read of its range gives any bytes that a crash might leave there.
///
/// What the clauses say of contents and of time holds where the site is honest, and what they say of outputs where it
/// tells them. The three calls of the outlet can't fail: what it can't pass on is lost.
pub trait Site {
    ghost use Rattle.cc_site.specs.declared.site.Side.{Side};
    ghost use Rattle.cc_site.specs.declared.site.TheConstants.{STRIDE_LIMIT};

    /// Who makes a side longer may write zeros behind that, up to the next multiple of so many bytes, so that later
    /// writes overwrite what is there. 1 where a sync costs the same whether the side has grown or not: that is no zeros.
    const STRIDE: u64;

    ghost STRIDE: { ℕ };

    ghost has_stride: { 1 ≤ STRIDE };

    ghost bounds_stride: { STRIDE ≤ STRIDE_LIMIT };

    /// The files behave as the disk model says.
    ghost honest: { Self → Type 0 };

    /// `sent` is all that the outlet got.
    ghost tells: { Self → Type 0 };

    /// Each side, as the disk model sees it.
    ghost state: { Self → Side → SideState };

    /// What the outlet got, the first of it first.
    ghost sent: { Self → List Output };

    /// The moment, as a number that doesn't fall.
    ghost moment: { Self → ℕ };

    /// From that moment on there was a moment, within a call or between two, at which the outlet had got this
    /// and a crash might have left these contents.
    ghost left_since: { Self → ℕ → Contents → List Output → Type 0 };

    /// How many disk calls have failed, as a u64 that wraps.
    ghost failures: { Self → ℕ };

    /// How long a side is.
    fn length(&mut self, side: Side) -> Result<u64, DeviceFault>
        ensures honest { honest self.old ↔ honest self.new }
        ensures tells { (tells self.old ↔ tells self.new) × (sent self.new ≡ sent self.old) }
        ensures value { honest self.old → IfOk result (λ n. n ≡ length (state self.old side).bytes) }
        ensures same { honest self.old → state self.new ≡ state self.old }
        ensures time { honest self.old → Elapses (moment self.old) (moment self.new) (left_since self.old) (left_since self.new) Nothing }
        ensures fault { CountsFault (failures self.old) (failures self.new) side Length result };

    /// Reads the bytes from a place on, as many as `into` has. They lie within the side.
    fn read(&mut self, side: Side, place: u64, into: &mut [u8]) -> Result<(), DeviceFault>
        requires { honest self.old → place + length into.old ≤ length (state self.old side).bytes }
        ensures honest { honest self.old ↔ honest self.new }
        ensures tells { (tells self.old ↔ tells self.new) × (sent self.new ≡ sent self.old) }
        ensures value { honest self.old → OnOk result (into.new ≡ take (length into.old) (drop place (state self.old side).bytes)) }
        ensures same { honest self.old → state self.new ≡ state self.old }
        ensures time { honest self.old → Elapses (moment self.old) (moment self.new) (left_since self.old) (left_since self.new) Nothing }
        ensures fault { CountsFault (failures self.old) (failures self.new) side Read result };

    /// Writes over what is there from a place on, which is at most the length, and past the end.
    fn write_at(&mut self, side: Side, place: u64, bytes: &[u8]) -> Result<(), DeviceFault>
        requires { honest self.old → place ≤ length (state self.old side).bytes }
        ensures honest { honest self.old ↔ honest self.new }
        ensures tells { (tells self.old ↔ tells self.new) × (sent self.new ≡ sent self.old) }
        ensures value { honest self.old → OnOk result (state self.new side ≡ written (state self.old side) place bytes.now) }
        ensures failed { honest self.old → OnErr result (HalfWritten (state self.old side) place (length bytes.now) (state self.new side)
            ⊎ (state self.new side ≡ state self.old side)) }
        ensures other_side { honest self.old → state self.new (other side) ≡ state self.old (other side) }
        ensures time { honest self.old → Elapses (moment self.old) (moment self.new) (left_since self.old) (left_since self.new)
            (Within side (touch (state self.old side) place (length bytes.now)) (state self.old) (sent self.old)) }
        ensures fault { CountsFault (failures self.old) (failures self.new) side Write result };

    /// Cuts a side to a length, which is at most the one that it has.
    fn cut(&mut self, side: Side, len: u64) -> Result<(), DeviceFault>
        requires { honest self.old → len ≤ length (state self.old side).bytes }
        ensures honest { honest self.old ↔ honest self.new }
        ensures tells { (tells self.old ↔ tells self.new) × (sent self.new ≡ sent self.old) }
        ensures value { honest self.old → OnOk result (state self.new side ≡ cut_to (state self.old side) len) }
        ensures failed { honest self.old → OnErr result (HalfCut (state self.old side) len (state self.new side)
            ⊎ (state self.new side ≡ state self.old side)) }
        ensures other_side { honest self.old → state self.new (other side) ≡ state self.old (other side) }
        ensures time { honest self.old → Elapses (moment self.old) (moment self.new) (left_since self.old) (left_since self.new)
            (Within side (shift (state self.old side) len) (state self.old) (sent self.old)) }
        ensures fault { CountsFault (failures self.old) (failures self.new) side Cut result };

    /// Makes sure of a side: after Ok a crash leaves what a read gives.
    fn sync(&mut self, side: Side) -> Result<(), DeviceFault>
        ensures honest { honest self.old ↔ honest self.new }
        ensures tells { (tells self.old ↔ tells self.new) × (sent self.new ≡ sent self.old) }
        ensures value { honest self.old → OnOk result (state self.new side ≡ settled (state self.old side)) }
        ensures failed { honest self.old → OnErr result (state self.new side ≡ state self.old side) }
        ensures other_side { honest self.old → state self.new (other side) ≡ state self.old (other side) }
        ensures time { honest self.old → Elapses (moment self.old) (moment self.new) (left_since self.old) (left_since self.new) Nothing }
        ensures fault { CountsFault (failures self.old) (failures self.new) side Sync result };

    /// The bytes of a message, where the outlet wants them: one spelling serves all the peers that the message goes to.
    /// None where it wants none, or memory is refused.
    fn spell(&self, message: &Message) -> Option<Vec<u8>>
        ensures { IfSome result (λ bytes. bytes.items ≡ message_spelling message.now) };

    /// Passes a message on to a peer, under its number on the link to it. Its bytes come along where `spell` gave them.
    fn send(&mut self, to: NodeId, number: u64, message: &Message, spelled: Option<&[u8]>)
        requires spelled { IfSome spelled (λ bytes. bytes.now ≡ message_spelling message.now) }
        ensures honest { honest self.old ↔ honest self.new }
        ensures tells { tells self.new → tells self.old × (sent self.new ≡ sent self.old ++ Send to number message.now ∷ []) }
        ensures same { honest self.old → state self.new ≡ state self.old }
        ensures time { honest self.old → Elapses (moment self.old) (moment self.new) (left_since self.old) (left_since self.new)
            (Possible (state self.old) (sent self.new)) }
        ensures failures { failures self.new ≡ failures self.old };

    /// Tells a peer up to which number its messages were heard.
    fn ack(&mut self, to: NodeId, number: u64)
        ensures honest { honest self.old ↔ honest self.new }
        ensures tells { tells self.new → tells self.old × (sent self.new ≡ sent self.old ++ Ack to number ∷ []) }
        ensures same { honest self.old → state self.new ≡ state self.old }
        ensures time { honest self.old → Elapses (moment self.old) (moment self.new) (left_since self.old) (left_since self.new)
            (Possible (state self.old) (sent self.new)) }
        ensures failures { failures self.new ≡ failures self.old };

    /// Answers a request of a session.
    fn reply(&mut self, session: u64, request: u64, answer: &Answer)
        ensures honest { honest self.old ↔ honest self.new }
        ensures tells { tells self.new → tells self.old × (sent self.new ≡ sent self.old ++ Reply session request answer.now ∷ []) }
        ensures same { honest self.old → state self.new ≡ state self.old }
        ensures time { honest self.old → Elapses (moment self.old) (moment self.new) (left_since self.old) (left_since self.new)
            (Possible (state self.old) (sent self.new)) }
        ensures failures { failures self.new ≡ failures self.old };

    /// What a read gives is one of the contents that a crash may leave.
    ghost may_read: { (site : Self) → honest site → (side : Side) → MayLeave (state site side) (state site side).bytes };

    /// A read gives bytes.
    ghost are_bytes: { (site : Self) → honest site → (side : Side) (place : ℕ) → slice_index (state site side).bytes place < 256 };

    /// This moment is one of those since an earlier one.
    ghost counts_now: { (site : Self) → honest site → (t : ℕ) (left : Contents) (told : List Output) → t ≤ moment site
        → Possible (state site) (sent site) left told → left_since site t left told };

    /// Since this moment there is no other.
    ghost only_now: { (site : Self) → honest site → (left : Contents) (told : List Output) → left_since site (moment site) left told
        → Possible (state site) (sent site) left told };
}
