ghost use Rattle.std.specs.Prelude.{◌≡◌, [], false};
ghost use Rattle.cc_views.specs.NatSets as set;

use crate::number_set::NumberSet;
use crate::text::Text;

/// What a node has stored: one value of four slots.
#[derive(Clone, Copy, PartialEq, Eq)]
pub struct Value {
    pub text: Text,
    pub max: u64,
    pub flag: bool,
    pub set: NumberSet,
}

impl Value {
    /// Nothing stored: no text, 0, no flag and no numbers.
    pub fn empty() -> Self
        ensures { result ≡ record { text = []; max = 0; flag = false; set = set.empty } }
    {
        Value {
            text: Text::empty(),
            max: 0,
            flag: false,
            set: NumberSet::new(),
        }
    }
}
