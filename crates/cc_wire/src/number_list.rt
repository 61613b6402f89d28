//! Lists of numbers as bytes.

ghost use Rattle.std.specs.Prelude.{◌≡◌, ◌≤◌, ◌<◌, ◌++◌, ◌∷◌, [], length, IfOk, OnOk};
ghost use Rattle.std.specs.List.{AllByRecursion};
ghost use Rattle.std.specs.Vec.{vec_capacity};
ghost use Rattle.cc_views.specs.AscendingLists.{IsAscending};
ghost use Rattle.cc_views.specs.NatSets.{from_list, items};
ghost use Rattle.cc_messages.specs.Limits.{list_limit};
ghost use Rattle.cc_wire.specs.Writers.{Writes};
ghost use Rattle.cc_wire.specs.Readers.{Gives, numbers_at, number_list_at};
ghost use Rattle.cc_wire.specs.Spellings.{number_list_spelling, IsNumberList};

use crate::fault::WireFault;
use crate::reader::Reader;
use crate::writer::{put_numbers, put_u16};
use cc_messages::NumberList;
use std::alloc::{AllocError, Global};

impl<'a> Reader<'a> {
    #[tactic(auto, unfolding(crate::specs::Readers::number_list_at, crate::specs::Readers::listed_at))]
    pub(crate) fn number_list(&mut self, alloc: Global) -> Result<NumberList, WireFault>
        ensures { Gives (λ x. (x, self.new)) result (number_list_at self.old) }
    {
        let count = self.u16()?;
        if usize::from(count) > NumberList::MAX_LEN {
            return Err(WireFault::TooLarge);
        }
        let mut numbers = Vec::with_capacity(alloc, usize::from(count))?;
        self.numbers(count, &mut numbers)?;
        Ok(NumberList::from_ascending(numbers))
    }
}

pub(crate) fn put_number_list(out: &mut Vec<u8>, list: &NumberList) -> Result<(), AllocError>
    ensures writes { Writes out.old out.new (number_list_spelling list.now) result }
    ensures fits { OnOk result (IsNumberList list.now) }
{
    let numbers = list.as_slice();
    put_u16(out, numbers.len() as u16)?;
    put_numbers(out, numbers)
}
