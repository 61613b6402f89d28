//! What an operator may not want of a node that can begin so all the same.

use std::fmt;

/// What an operator may not want.
#[derive(Clone, Copy, PartialEq, Eq)]
pub enum Warning {
    /// A store may be acknowledged by nodes that no collect asks.
    Half,
    /// An operation waits for all members.
    All,
    /// The node reaches nobody.
    Alone,
}

impl fmt::Display for Warning {
    fn fmt<W: fmt::Write>(&self, f: &mut fmt::Formatter<W>) -> fmt::Result {
        f.write_str(match self {
            Warning::Half => {
                "--beta is one half or less: a store may be acknowledged by nodes that no collect asks"
            }
            Warning::All => {
                "with this --beta an operation waits for all of so few members: while one is down, none ends"
            }
            Warning::Alone => {
                "neither --initial nor --contacts: the node reaches nobody, and never joins"
            }
        })
    }
}
