//! Numbers of posts that follow one another.

ghost use Rattle.std.specs.Prelude.{◌≡◌, ◌≤◌, ◌↔◌, IsSome, IfSome};
ghost use Rattle.cc_messages.specs.Ranges.{IsRange};

use std::marker::Model;

/// The numbers of some posts on one link, one after the other: at least one, and none is 0.
#[derive(Clone, Copy)]
pub struct PostRange {
    first: u64,
    last: u64,
}

impl Model for PostRange {
    ghost use Rattle.cc_messages.specs.Ranges.{Range, range_code, IsRange};

    ghost Value = { Range };

    ghost coded = { range_code };

    ghost view = { λ r. record { first = r.first; last = r.last } };

    ghost invariant = { λ r. IsRange (record { first = r.first; last = r.last }) };

    ghost inverse = { λ r. record { first = r.first; last = r.last } };
}

impl PostRange {
    /// None where `first` is 0, or `last` is below it.
    pub fn new(first: u64, last: u64) -> Option<Self>
        ensures some { IsSome result ↔ IsRange (record { first = first; last = last }) }
        ensures range { IfSome result (λ r. r ≡ record { first = first; last = last }) }
    {
        if first == 0 || last < first {
            return None;
        }
        Some(PostRange { first, last })
    }

    /// The first number, at least 1.
    pub fn first(self) -> u64
        ensures first { result ≡ self.first }
        ensures range { IsRange self }
    {
        self.first
    }

    /// The last number, at least the first.
    pub fn last(self) -> u64
        ensures last { result ≡ self.last }
        ensures range { IsRange self }
    {
        self.last
    }
}
