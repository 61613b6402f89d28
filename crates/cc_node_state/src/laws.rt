//! What holds of the spellings of states and nodes.

ghost use Rattle.std.specs.Prelude.{◌≡◌, ◌⊎◌, ◌≤◌, ℕ, List, ◌++◌, length};
ghost use Rattle.cc_node.specs.Node.{Node};
ghost use Rattle.cc_node.specs.Lawful.{IsLawfulNode};
ghost use Rattle.cc_node_state.specs.declared.layout.Layout.{Layout};
ghost use Rattle.cc_node_state.specs.declared.layout.Layout.TheVariants as layouts;
ghost use Rattle.cc_node_state.specs.States.{State, SpellsState, SpellsNode, node_of, layout_of_node};

/// In each layout, each state has one spelling, and none begins another.
pub fn one_spelling_of_states()
    ensures one { (layout : Layout) (a b u w : List ℕ) (x y : State) → SpellsState layout a x → SpellsState layout b y → a ++ u ≡ b ++ w → (x ≡ y) × (a ≡ b) }
    ensures same { (layout : Layout) (a b : List ℕ) (x : State) → SpellsState layout a x → SpellsState layout b x → a ≡ b }
{}

/// In each layout, each node has one spelling, and none begins another.
pub fn one_spelling_of_nodes()
    ensures one { (layout : Layout) (a b u w : List ℕ) (x y : Node) → SpellsNode layout a x → SpellsNode layout b y → a ++ u ≡ b ++ w → (x ≡ y) × (a ≡ b) }
    ensures same { (layout : Layout) (a b : List ℕ) (x : Node) → SpellsNode layout a x → SpellsNode layout b x → a ≡ b }
{}

/// But for version 1, in which some nodes with a share of 1 are read, a node is spelled in the layout of its share alone.
#[tactic(auto, using(crate::proofs::Written::one_layout))]
pub fn each_node_has_one_layout()
    ensures { (layout : Layout) (bytes : List ℕ) (n : Node) → SpellsNode layout bytes n → (layout ≡ layouts.Plain) ⊎ (layout ≡ layout_of_node n) }
{}

/// A state that a node can be in is spelled as that node is.
pub fn lawful_states_are_of_nodes()
    ensures { (layout : Layout) (bytes : List ℕ) (s : State) → SpellsState layout bytes s → IsLawfulNode (node_of s) → SpellsNode layout bytes (node_of s) }
{}

/// How many bytes the spelling of a node has at most: so its length always fits into four bytes.
#[tactic(auto, using(crate::proofs::StateLengths::longest))]
pub fn largest_node()
    ensures { (layout : Layout) (bytes : List ℕ) (n : Node) → SpellsNode layout bytes n → length bytes ≤ 43983515 }
{}
