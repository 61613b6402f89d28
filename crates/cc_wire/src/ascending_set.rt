//! Sets that are filled with numbers in ascending order.

ghost use Rattle.std.specs.Prelude.{◌≡◌, ◌≤◌, ◌<◌, ℕ, List, [], ◌∷◌, ◌++◌, length, OnOk};
ghost use Rattle.std.specs.List.{AllByRecursion};
ghost use Rattle.std.specs.Vec.{vec_capacity};
ghost use Rattle.cc_views.specs.AscendingLists.{IsAscending};
ghost use Rattle.cc_views.specs.NatSets as set;
ghost use Rattle.cc_wire.specs.Readers.{Gives, numbers_at};

use crate::fault::WireFault;
use crate::reader::Reader;
use cc_changes::IdSet;
use cc_views::{NodeId, NumberSet};

/// A set that takes each number above those it has.
pub(crate) trait AscendingSet {
    /// The least number that it may have.
    const LEAST: u64;

    ghost LEAST: { ℕ };

    // The numbers, in ascending order, and how many there is room for.
    ghost items: { Self → List ℕ };

    ghost room: { Self → ℕ };

    fn add_above(&mut self, number: u32)
        requires least { LEAST ≤ number }
        requires room { length (items self.old) < room self.old }
        requires above { AllByRecursion (λ n. n < number) (items self.old) }
        ensures items { items self.new ≡ items self.old ++ number ∷ [] }
        ensures room { room self.old ≤ room self.new };
}

impl AscendingSet for NumberSet {
    const LEAST: u64 = 0;

    ghost LEAST = { 0 };

    ghost items = { λ s. set.items s };

    ghost room = { λ _. 32 };

    fn add_above(&mut self, number: u32) {
        self.push(number);
    }
}

impl AscendingSet for IdSet {
    const LEAST: u64 = 1;

    ghost LEAST = { 1 };

    ghost items = { λ s. set.items s };

    ghost room = { λ _. 256 };

    fn add_above(&mut self, number: u32) {
        self.push(NodeId::new(number).unwrap());
    }
}

impl AscendingSet for Vec<u32> {
    const LEAST: u64 = 0;

    ghost LEAST = { 0 };

    ghost items = { λ v. v.items };

    ghost room = { λ v. vec_capacity v };

    fn add_above(&mut self, number: u32) {
        self.push(number).unwrap();
    }
}

impl<'a> Reader<'a> {
    /// So many numbers, each above the one before it.
    pub(crate) fn numbers<S: AscendingSet>(
        &mut self,
        count: u16,
        set: &mut S,
    ) -> Result<(), WireFault>
        requires room { count ≤ S.room set.old }
        requires empty { S.items set.old ≡ [] }
        ensures read { Gives (λ _. (S.items set.new, self.new)) result (numbers_at count S.LEAST self.old) }
        ensures ascending { OnOk result (IsAscending (S.items set.new)) }
        ensures length { OnOk result (length (S.items set.new) ≡ count) }
    {
        let mut least = S::LEAST;
        for _ in 0..count {
            let number = self.u32_from(least)?;
            set.add_above(number);
            least = u64::from(number) + 1;
        }
        Ok(())
    }
}
