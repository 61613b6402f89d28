//! The laws of what bytes hold. Each is a function with an empty body, whose contract is the law.

ghost use Rattle.std.specs.Prelude.{◌≡◌, ◌++◌, ℕ, List};
ghost use Rattle.cc_messages.specs.declared.event.Event.{Event};
ghost use Rattle.cc_node_state.specs.Sides.{SpellsRecord};

/// Each record has one spelling, and none begins another.
pub fn one_spelling_of_records()
    ensures one { (a b u w : List ℕ) (x y : List Event) → SpellsRecord a x → SpellsRecord b y → a ++ u ≡ b ++ w → (x ≡ y) × (a ≡ b) }
    ensures same { (a b : List ℕ) (x : List Event) → SpellsRecord a x → SpellsRecord b x → a ≡ b }
{}
