//! Fuses: which disk calls of a site in memory are to fail.

ghost use Rattle.std.specs.Prelude.{◌↔◌, IsTrue};
ghost use Rattle.cc_site.specs.Fuse.{Fails};

/// Whether a fuse fails one disk call, or that one and all after it.
#[derive(Clone, Copy, PartialEq, Eq)]
pub enum Failing {
    Once,
    Stop,
}

/// Fails the disk call with this number.
#[derive(Clone, Copy, PartialEq, Eq)]
pub struct Fuse {
    pub at: u64,
    pub failing: Failing,
}

impl Fuse {
    /// Whether it fails the disk call with this number.
    pub fn fails(&self, number: u64) -> bool
        ensures { IsTrue result ↔ Fails self.now number }
    {
        match self.failing {
            Failing::Once => number == self.at,
            Failing::Stop => number >= self.at,
        }
    }
}
