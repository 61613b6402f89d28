//! Numbers that may exceed 2^53, above which a JSON number isn't exact in JavaScript and in `jq`.

use serde::{Described, Serialize, Serializer};

/// A number that JSON has as a string of its decimal digits.
#[derive(Clone, Copy, PartialEq, Eq)]
pub struct Wide(pub u64);

impl Described for Wide {}

impl Serialize for Wide {
    fn serialize<S: Serializer>(&self, out: &mut S) -> Result<(), S::Error> {
        out.collect_str(&self.0)
    }
}
