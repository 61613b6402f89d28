//! A node's state in pieces, so that it is written through one buffer, however long it is.

ghost use Rattle.std.specs.Prelude.{ℕ, List, ◌≡◌, ◌≤◌, ◌<◌, ◌^◌, ◌++◌, [], length};
ghost use Rattle.cc_node_state.specs.States.{node_spelling};
ghost use Rattle.cc_node_state.specs.Parts.{parts_of, joined, piece_limit};

use crate::piece::Piece;
use cc_node::Node;
use cc_node_state::{part_count, part_len};
use std::marker::Model;

/// How many bytes the spelling of a node's state has: so few that four bytes tell it.
pub fn state_length(node: &Node) -> u64
    ensures len { result ≡ length (node_spelling node.now) }
    ensures short { result < 2 ^ 32 }
{
    let mut length = 0;
    for at in 0..part_count(node) {
        length += part_len(node, at) as u64;
    }
    length
}

/// The state of a node that is still to come: seen as the spellings of the parts that are left. It takes no memory.
#[derive(Drop)]
pub struct Pieces<'a> {
    node: &'a Node,
    // The next part.
    at: usize,
}

impl<'a> Model for Pieces<'a> {
    ghost use Rattle.std.specs.Prelude.{ℕ, List, drop, length, ◌≤◌};
    ghost use Rattle.cc_node_state.specs.Parts.{parts_of};

    ghost Value = { List (List ℕ) };

    ghost view = { λ p. drop p.at (parts_of p.node.now) };

    ghost invariant = { λ p. p.at ≤ length (parts_of p.node.now) };
}

impl<'a> Pieces<'a> {
    /// The whole state of the node: its parts one after the other are its spelling.
    pub fn new(node: &'a Node) -> Self
        ensures parts { result ≡ parts_of node.now }
        ensures whole { joined result ≡ node_spelling node.now }
    {
        Pieces { node, at: 0 }
    }

    /// The next piece, in place of what the buffer holds: parts as a whole, so that it ends between two of a state's elements.
    /// How many bytes it has: 0 at the end, and nowhere else.
    pub fn next(&mut self, into: &mut Piece) -> usize
        ensures piece { (parts : List (List ℕ)) × (self.old ≡ parts ++ self.new) × (into.new ≡ joined parts) }
        ensures length { result ≡ length into.new }
        ensures fits { result ≤ piece_limit }
        ensures end { result ≡ 0 → self.old ≡ [] }
    {
        self.at = into.take_parts(self.node, self.at);
        into.as_slice().len()
    }
}
