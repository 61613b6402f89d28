use std::error::Error;
use std::fmt;

/// The set has 32 members, and the one to be added isn't among them.
#[derive(Clone, Copy, Debug, PartialEq, Eq)]
pub struct SetFull;

impl fmt::Display for SetFull {
    ghost use Rattle.std.specs.Prelude.{Some, codes};

    ghost output = { λ _. Some (codes "the set is full") };

    fn fmt<W: fmt::Write>(&self, f: &mut fmt::Formatter<W>) -> fmt::Result {
        f.write_str("the set is full")
    }
}

impl Error for SetFull {}
