ghost use Rattle.std.specs.Prelude.{◌≡◌, ◌≤◌, ◌<◌, ◌==◌, [], ◌∷◌, ◌++◌, length};
ghost use Rattle.std.proofs.Common.{rules};
ghost use Rattle.std.specs.Cmp.Lexicographic.{pointwise};
ghost use Rattle.std.specs.Cmp.Rules.{comparing};
ghost use Rattle.std.specs.List.{AllByRecursion};
ghost use Rattle.std.specs.Ordering.{on};
ghost use Rattle.cc_views.specs.AscendingLists.{IsAscending};
ghost use Rattle.cc_views.specs.Limits.{set_limit};
ghost use Rattle.cc_views.specs.NatSets as set;
ghost use Rattle.cc_views.specs.NatSets.{marked, items};
ghost use Rattle.cc_views.specs.Tables.{IsRising, IsPlaceOf};

use std::marker::Model;

/// A set slot: up to 32 numbers.
#[derive(Clone, Copy)]
pub struct NumberSet {
    // Ascending, and zero from `len` on.
    numbers: [u32; NumberSet::MAX_LEN],
    len: usize,
}

impl Model for NumberSet {
    ghost use Rattle.std.specs.Prelude.{length, take};
    ghost use Rattle.cc_views.specs.Limits.{set_limit};
    ghost use Rattle.cc_views.specs.NatSets.{NatSet, set_code, marked, items};
    ghost use Rattle.cc_views.specs.Tables.{table_of};
    ghost use Rattle.cc_views.specs.Room.{filled};
    ghost use Rattle.cc_views.specs.NumberTable.{IsNumberTable, cells_of_items};

    ghost Value = { NatSet };

    ghost coded = { set_code };

    ghost view = { λ s. table_of marked (take s.len s.numbers) };

    ghost invariant = { λ s. IsNumberTable s.numbers s.len };

    ghost inverse = { λ s. record { numbers = filled set_limit (items s); len = length (items s) } };

    ghost inverse_ok = { λ s h i. record { numbers = (cells_of_items s.numbers s.len h).0 i; len = (cells_of_items s.numbers s.len h).1 i } };
}

impl NumberSet {
    /// How many numbers a set has at most.
    pub const MAX_LEN: usize = 32;

    /// A set of no numbers.
    pub fn new() -> Self
        ensures set { result ≡ set.empty }
        ensures items { items result ≡ [] }
        ensures len { set.len result ≡ 0 }
    {
        NumberSet {
            numbers: [0; Self::MAX_LEN],
            len: 0,
        }
    }

    /// How many numbers there are.
    pub fn len(&self) -> usize
        ensures len { result ≡ set.len self.now }
        ensures fits { result ≤ set_limit }
    {
        self.as_slice().len()
    }

    /// The numbers, in ascending order.
    pub fn as_slice(&self) -> &[u32]
        ensures numbers { result.now ≡ items self.now }
        ensures ascending { IsAscending result.now }
        ensures fits { length result.now ≤ set_limit }
    {
        &self.numbers[..self.len]
    }

    /// Whether the number is there.
    pub fn contains(&self, number: u32) -> bool
        ensures { result ≡ set.contains self.now number }
    {
        place_of(self.as_slice(), number).is_ok()
    }

    /// Adds a number above those that are there.
    pub fn push(&mut self, number: u32)
        requires room { set.len self.old < set_limit }
        requires above { AllByRecursion (λ n. n < number) (items self.old) }
        ensures set { self.new ≡ set.insert self.old number }
        ensures items { items self.new ≡ items self.old ++ number ∷ [] }
    {
        self.numbers[self.len] = number;
        self.len += 1;
    }

    /// Adds a number, which changes nothing where it is there.
    pub fn insert(&mut self, number: u32)
        requires { set.len (set.insert self.old number) ≤ set_limit }
        ensures { self.new ≡ set.insert self.old number }
    {
        if let Err(at) = place_of(self.as_slice(), number) {
            self.numbers.copy_within(at..self.len, at + 1);
            self.numbers[at] = number;
            self.len += 1;
        }
    }
}

// Where the number is, or where it would go.
fn place_of(numbers: &[u32], number: u32) -> Result<usize, usize>
    requires { IsRising marked numbers.now }
    ensures { IsPlaceOf marked numbers.now number result }
{
    numbers.binary_search(&number)
}

impl PartialEq for NumberSet {
    ghost eq = { on items (pointwise ◌==◌) };

    ghost laws = { Prim.search (comparing, rules) };

    fn eq(&self, other: &NumberSet) -> bool {
        self.as_slice() == other.as_slice()
    }
}

impl Eq for NumberSet {
    ghost laws = { Prim.search (comparing, rules) };
}
