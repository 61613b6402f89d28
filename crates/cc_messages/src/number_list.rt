//! Lists of numbers that stand for a set.

ghost use Rattle.std.specs.Prelude.{◌≡◌, ◌≤◌, length, IfOk};
ghost use Rattle.cc_views.specs.AscendingLists.{IsAscending};
ghost use Rattle.cc_views.specs.NatSets.{from_list, items};
ghost use Rattle.cc_messages.specs.Limits.{list_limit};

use cc_views::NoMemory;
use std::alloc::Global;
use std::marker::Model;

/// A set of up to 8,192 numbers: as many as 256 nodes have with 32 each.
#[derive(Drop)]
pub struct NumberList {
    numbers: Vec<u32>,
}

impl Model for NumberList {
    ghost use Rattle.std.specs.Prelude.{length, ◌≤◌};
    ghost use Rattle.cc_views.specs.AscendingLists.{IsAscending};
    ghost use Rattle.cc_views.specs.NatSets.{NatSet, set_code, from_list};
    ghost use Rattle.cc_messages.specs.Limits.{list_limit};

    ghost Value = { NatSet };

    ghost coded = { set_code };

    ghost view = { λ l. from_list l.numbers.items };

    ghost invariant = { λ l. IsAscending l.numbers.items × (length l.numbers.items ≤ list_limit) };
}

impl NumberList {
    /// How many numbers a list has at most.
    pub const MAX_LEN: usize = 8192;

    /// The set of these numbers.
    pub fn from_ascending(numbers: Vec<u32>) -> Self
        requires ascending { IsAscending numbers.items }
        requires fits { length numbers.items ≤ list_limit }
        ensures set { result ≡ from_list numbers.items }
        ensures items { items result ≡ numbers.items }
    {
        NumberList { numbers }
    }

    /// The numbers, in ascending order.
    pub fn as_slice(&self) -> &[u32]
        ensures numbers { result.now ≡ items self.now }
        ensures ascending { IsAscending result.now }
        ensures fits { length result.now ≤ list_limit }
    {
        &self.numbers
    }

    /// The same set in memory of its own.
    pub fn copy(&self, alloc: Global) -> Result<Self, NoMemory>
        ensures { IfOk result (λ l. l ≡ self.now) }
    {
        let numbers = Vec::from_slice(alloc, &self.numbers)?;
        Ok(NumberList { numbers })
    }
}
