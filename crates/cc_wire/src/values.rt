//! Values of four slots.

ghost use Rattle.cc_wire.specs.Readers.{Gives, TakesNoMemory, text_at, number_set_at, value_at};

use crate::fault::WireFault;
use crate::reader::Reader;
use cc_views::{NumberSet, Text, Value};

impl<'a> Reader<'a> {
    #[tactic(auto, unfolding(crate::specs::Readers::text_at))]
    pub(crate) fn text(&mut self) -> Result<Text, WireFault>
        ensures exact { Gives (λ x. (x, self.new)) result (text_at self.old) }
        ensures free { TakesNoMemory result }
    {
        let len = usize::from(self.u8()?);
        if len > Text::MAX_LEN {
            return Err(WireFault::TooLarge);
        }
        let bytes = self.bytes(len)?;
        Ok(Text::new(bytes).unwrap())
    }

    #[tactic(auto, unfolding(crate::specs::Readers::number_set_at, crate::specs::Readers::listed_at))]
    fn number_set(&mut self) -> Result<NumberSet, WireFault>
        ensures { Gives (λ x. (x, self.new)) result (number_set_at self.old) }
    {
        let count = self.u8()?;
        if usize::from(count) > NumberSet::MAX_LEN {
            return Err(WireFault::TooLarge);
        }
        let mut set = NumberSet::new();
        self.numbers(u16::from(count), &mut set)?;
        Ok(set)
    }

    /// A value: its text, maximum, flag and set. TooLarge for a text or a set above its limit, BadKind for a flag above
    /// 1, NotAscending for a set that doesn't rise.
    #[tactic(auto, unfolding(crate::specs::Readers::value_at))]
    pub fn value(&mut self) -> Result<Value, WireFault>
        ensures { Gives (λ x. (x, self.new)) result (value_at self.old) }
    {
        let text = self.text()?;
        let max = self.u64()?;
        let flag = self.flag()?;
        let set = self.number_set()?;
        Ok(Value {
            text,
            max,
            flag,
            set,
        })
    }
}
