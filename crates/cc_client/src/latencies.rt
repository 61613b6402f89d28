//! Within how many microseconds operations were answered.

ghost use Rattle.std.specs.Prelude.{◌≡◌, ◌≤◌, [], ◌∷◌, ◌++◌, true, false, length, OnOk, OnErr};
ghost use Rattle.cc_client.specs.Latencies.{count_within, IsWithin, IsShort, IsQuantile};

use std::alloc::{AllocError, Global};
use std::marker::Model;

/// Within how many microseconds operations were answered. Contracts see the list of these.
#[derive(Drop)]
pub struct Latencies {
    micros: Vec<u64>,
}

impl Model for Latencies {
    ghost use Rattle.std.specs.Prelude.{ℕ, List};

    ghost Value = { List ℕ };

    ghost view = { λ l. l.micros.items };
}

impl Latencies {
    /// Nothing was answered yet.
    pub fn new(alloc: Global) -> Self
        ensures { result ≡ [] }
    {
        Latencies {
            micros: Vec::new(alloc),
        }
    }

    /// An operation was answered within so many microseconds. On an `Err`, a refused growth, nothing has changed.
    pub fn add(&mut self, micros: u64) -> Result<(), AllocError>
        ensures ok { OnOk result (self.new ≡ self.old ++ micros ∷ []) }
        ensures err { OnErr result (self.new ≡ self.old) }
    {
        self.micros.push(micros)?;
        Ok(())
    }

    /// Puts those of another behind these. On an `Err`, a refused growth, nothing has changed.
    pub fn append(&mut self, other: &Latencies) -> Result<(), AllocError>
        ensures ok { OnOk result (self.new ≡ self.old ++ other.now) }
        ensures err { OnErr result (self.new ≡ self.old) }
    {
        self.micros.extend_from_slice(&other.micros)?;
        Ok(())
    }

    /// How many operations were answered.
    pub fn count(&self) -> u64
        ensures { result ≡ length self.now }
    {
        self.micros.len() as u64
    }

    /// How many were answered within so many microseconds.
    pub fn count_within(&self, most: u64) -> u64
        ensures { result ≡ count_within most self.now }
    {
        count_within(&self.micros, most)
    }

    /// How many microseconds the longest took, and 0 where none was answered.
    pub fn worst(&self) -> u64
        ensures { IsQuantile 100 self.now result }
    {
        greatest(&self.micros)
    }

    /// The least number of microseconds within which at least so many of a hundred operations were answered.
    pub fn quantile(&self, percent: u64) -> u64
        requires { percent ≤ 100 }
        ensures { IsQuantile percent self.now result }
    {
        least_within(&self.micros, percent)
    }
}

fn count_within(all: &[u64], most: u64) -> u64
    ensures { result ≡ count_within most all.now }
{
    all.iter().filter(|micros| **micros <= most).count() as u64
}

// Whether at least so many of a hundred are at most `most`.
fn is_within(all: &[u64], percent: u64, most: u64) -> bool
    ensures within { result ≡ true → IsWithin percent all.now most }
    ensures short { result ≡ false → IsShort percent all.now most }
{
    let due = u128::from(percent) * u128::from(all.len() as u64);
    u128::from(count_within(all, most)) * 100 >= due
}

fn greatest(all: &[u64]) -> u64
    ensures { IsQuantile 100 all.now result }
{
    let mut greatest: u64 = 0;
    for micros in all {
        greatest = greatest.max(*micros);
    }
    greatest
}

// Halves what lies between too few and enough, which needs neither an order nor memory.
fn least_within(all: &[u64], percent: u64) -> u64
    requires { percent ≤ 100 }
    ensures { IsQuantile percent all.now result }
{
    let mut low: u64 = 0;
    let mut high = greatest(all);
    while low < high {
        let middle = low + (high - low) / 2;
        if is_within(all, percent, middle) {
            high = middle;
        } else {
            low = middle + 1;
        }
    }
    high
}
