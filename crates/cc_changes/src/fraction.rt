//! Shares of a count (CCC, the fractions β and γ).

ghost use Rattle.std.specs.Prelude.{◌≡◌, ◌<◌, ◌≤◌, ◌↔◌, IsTrue};
ghost use Rattle.cc_changes.specs.Need.{IsShare, needed};

/// A share of a count: `num / den` of it.
#[derive(Clone, Copy, PartialEq, Eq)]
pub struct Fraction {
    pub num: u32,
    pub den: u32,
}

impl Fraction {
    /// Whether it is a share of the whole: above 0 and at most 1.
    pub fn is_share(self) -> bool
        ensures { IsTrue result ↔ IsShare self }
    {
        0 < self.num && self.num <= self.den
    }
}

/// That share of a count, rounded up, and at least 1.
pub fn need(share: Fraction, count: u64) -> u64
    requires positive { 0 < share.num }
    requires share { share.num ≤ share.den }
    ensures { result ≡ needed share count }
{
    let parts = u128::from(share.num) * u128::from(count);
    let whole = parts.div_ceil(u128::from(share.den));
    whole.max(1) as u64
}
