//! Reading fields from left to right.

ghost use Rattle.std.specs.Prelude.{◌≡◌, ◌≤◌, IfOk, length, take};
ghost use Rattle.std.specs.Int.{w16, w32, w64};
ghost use Rattle.cc_wire.specs.Readers.{Gives, TakesNoMemory, byte_at, bytes_at, number_at, number_from, wide_from, range_at, flag_at, ended};
ghost use Rattle.cc_wire.specs.Readers.{ask_share_at};

use crate::fault::WireFault;
use cc_messages::{PostRange, Share};
use cc_views::NodeId;
use std::marker::Model;

/// Some bytes, of which fields are read one after the other: seen as what is left. Numbers are big-endian. The formats of
/// fields are this project's own, and each answers what is wrong with the field that stands next: Short where the
/// bytes end inside it, else what its own call names, and NoMemory where a growth was refused. After an `Err` it is
/// unspecified what is left.
#[derive(Drop)]
pub struct Reader<'a> {
    rest: &'a [u8],
}

impl<'a> Model for Reader<'a> {
    ghost use Rattle.std.specs.Prelude.{ℕ, List};

    ghost Value = { List ℕ };

    ghost view = { λ r. r.rest.now };
}

impl<'a> Reader<'a> {
    /// With all of the bytes left.
    pub fn new(bytes: &'a [u8]) -> Self
        ensures { result ≡ bytes.now }
    {
        Reader { rest: bytes }
    }

    /// A byte.
    pub fn u8(&mut self) -> Result<u8, WireFault>
        ensures exact { Gives (λ x. (x, self.new)) result (byte_at self.old) }
        ensures free { TakesNoMemory result }
    {
        match self.rest {
            [] => Err(WireFault::Short),
            [byte, rest @ ..] => {
                self.rest = rest;
                Ok(*byte)
            }
        }
    }

    /// The next `count` bytes.
    pub fn bytes(&mut self, count: usize) -> Result<&'a [u8], WireFault>
        ensures exact { Gives (λ x. (x.now, self.new)) result (bytes_at count self.old) }
        ensures free { TakesNoMemory result }
        ensures len { IfOk result (λ x. length x.now ≡ count) }
    {
        let bytes = self.rest;
        if bytes.len() < count {
            return Err(WireFault::Short);
        }
        let (front, rest) = bytes.split_at(count);
        self.rest = rest;
        Ok(front)
    }

    /// The next `count` bytes, or all where there are fewer. They stay.
    pub fn front(&self, count: usize) -> &'a [u8]
        ensures { result.now ≡ take count self.now }
    {
        &self.rest[..count.min(self.rest.len())]
    }

    /// A number of two bytes.
    pub fn u16(&mut self) -> Result<u16, WireFault>
        ensures { Gives (λ x. (x, self.new)) result (number_at w16 self.old) }
    {
        let b = self.bytes(2)?;
        Ok(u16::from_be_bytes([b[0], b[1]]))
    }

    /// A number of four bytes.
    pub fn u32(&mut self) -> Result<u32, WireFault>
        ensures exact { Gives (λ x. (x, self.new)) result (number_at w32 self.old) }
        ensures free { TakesNoMemory result }
    {
        let b = self.bytes(4)?;
        Ok(u32::from_be_bytes([b[0], b[1], b[2], b[3]]))
    }

    /// A number of eight bytes.
    pub fn u64(&mut self) -> Result<u64, WireFault>
        ensures exact { Gives (λ x. (x, self.new)) result (number_at w64 self.old) }
        ensures free { TakesNoMemory result }
    {
        let b = self.bytes(8)?;
        Ok(u64::from_be_bytes([b[0], b[1], b[2], b[3], b[4], b[5], b[6], b[7]]))
    }

    /// A number of an ascending list, which is at least `least`.
    #[tactic(auto, unfolding(crate::specs::Readers::number_from))]
    pub(crate) fn u32_from(&mut self, least: u64) -> Result<u32, WireFault>
        ensures exact { Gives (λ x. (x, self.new)) result (number_from least self.old) }
        ensures least { IfOk result (λ x. least ≤ x) }
    {
        let number = self.u32()?;
        if u64::from(number) < least {
            return Err(WireFault::NotAscending);
        }
        Ok(number)
    }

    #[tactic(auto, unfolding(crate::specs::Readers::wide_from))]
    fn u64_from(&mut self, least: u64) -> Result<u64, WireFault>
        ensures exact { Gives (λ x. (x, self.new)) result (wide_from least self.old) }
        ensures least { IfOk result (λ x. least ≤ x) }
    {
        let number = self.u64()?;
        if number < least {
            return Err(WireFault::NotAscending);
        }
        Ok(number)
    }

    /// The first and the last of some posts, in eight bytes each. NotAscending where the first is 0, or the last is below it.
    #[tactic(auto, unfolding(crate::specs::Readers::range_at))]
    pub fn range(&mut self) -> Result<PostRange, WireFault>
        ensures { Gives (λ x. (x, self.new)) result (range_at self.old) }
    {
        let first = self.u64_from(1)?;
        let last = self.u64()?;
        PostRange::new(first, last).ok_or(WireFault::NotAscending)
    }

    /// How many asks may begin together, in one byte. BadKind where that is 0 or above 32.
    #[tactic(auto, unfolding(crate::specs::Readers::ask_share_at))]
    pub fn share(&mut self) -> Result<Share, WireFault>
        ensures { Gives (λ x. (x, self.new)) result (ask_share_at self.old) }
    {
        let asks = self.u8()?;
        Share::new(asks).ok_or(WireFault::BadKind(asks))
    }

    /// A node's id in four bytes, at least `least`. NotAscending where it is below.
    pub fn id(&mut self, least: u64) -> Result<NodeId, WireFault>
        requires { 1 ≤ least }
        ensures exact { Gives (λ x. (x, self.new)) result (number_from least self.old) }
        ensures least { IfOk result (λ id. least ≤ id) }
    {
        let number = self.u32_from(least)?;
        Ok(NodeId::new(number).unwrap())
    }

    #[tactic(auto, unfolding(crate::specs::Readers::flag_at))]
    pub(crate) fn flag(&mut self) -> Result<bool, WireFault>
        ensures { Gives (λ x. (x, self.new)) result (flag_at self.old) }
    {
        match self.u8()? {
            0 => Ok(false),
            1 => Ok(true),
            byte => Err(WireFault::BadKind(byte)),
        }
    }

    /// Wants no byte to be left. Trailing where there is one.
    #[tactic(auto, unfolding(crate::specs::Readers::ended))]
    pub fn end(&self) -> Result<(), WireFault>
        ensures exact { Gives (λ _. tt) result (ended self.now) }
        ensures free { TakesNoMemory result }
    {
        if self.rest.is_empty() {
            Ok(())
        } else {
            Err(WireFault::Trailing)
        }
    }
}
