ghost use Rattle.std.specs.Prelude.{◌≡◌, ◌<◌, ◌≤◌, ◌↔◌, ℕ, IsSome, IfSome};

use std::marker::Model;

/// The name of a node: a number from 1 on.
#[derive(Clone, Copy, PartialEq, Eq, PartialOrd, Ord)]
pub struct NodeId {
    number: u32,
}

impl Model for NodeId {
    ghost Value = { ℕ };

    ghost view = { λ id. id.number };

    ghost invariant = { λ id. 1 ≤ id.number };

    ghost inverse = { λ n. record { number = n } };
}

impl NodeId {
    /// None for 0.
    pub fn new(number: u32) -> Option<Self>
        ensures some { IsSome result ↔ (1 ≤ number) }
        ensures id { IfSome result (λ id. id ≡ number) }
    {
        if number == 0 {
            return None;
        }
        Some(NodeId { number })
    }

    /// The number, at least 1.
    pub fn number(self) -> u32
        ensures number { result ≡ self }
        ensures positive { 1 ≤ self }
    {
        self.number
    }
}
