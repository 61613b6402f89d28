//! Laws of what two sides stand for. Each is a function whose contract is the law.

ghost use Rattle.std.specs.Prelude.{◌≡◌, ◌↔◌, ◌≤◌, ◌<◌, ◌++◌, ℕ, List, length, take, slice_index};
ghost use Rattle.cc_messages.specs.declared.event.Event.{Event};
ghost use Rattle.cc_messages.specs.declared.output.Output.{Output};
ghost use Rattle.cc_site.specs.declared.site.Side.{Side};
ghost use Rattle.cc_site.specs.declared.site.Side.TheVariants.{A, B};
ghost use Rattle.cc_site.specs.Moments.{Contents};
ghost use Rattle.cc_node.specs.Node.{Node, after};
ghost use Rattle.cc_node_state.specs.Sides.{IsArmed, StandsAt, StandsIn, Stands};
ghost use Rattle.cc_node_state.specs.Good.{AllMade, IsGoodAt, RestsAt};
ghost use Rattle.cc_journal.specs.GoodSides.{HasGoodSides};
ghost use Rattle.cc_journal.specs.Journals.{IsGood};
ghost use Rattle.cc_checkpoint.specs.declared.open_fault.OpenFault.{OpenFault};
ghost use Rattle.cc_flush.specs.Openings.{IsReadingFault, ReadingFails};

use cc_journal::scans_once;
use cc_node_state::one_spelling_of_nodes;

/// Two sides stand for at most one node: on one side, under one generation, up to one gate.
pub fn one_node()
    ensures node { (a b : List ℕ) (n m : Node) → Stands a b n → Stands a b m → n ≡ m }
    ensures place { (a b : List ℕ) (generation-n generation-m place-n place-m : ℕ) (n m : Node)
        → StandsAt a b generation-n place-n n → StandsAt a b generation-m place-m m
        → (generation-n ≡ generation-m) × (place-n ≡ place-m) × (n ≡ m) }
    ensures side { (a b : List ℕ) (n m : Node) → StandsIn a b n → StandsIn b a m → ⊥ }
{
    one_spelling_of_nodes();
    scans_once();
}

/// Two sides stand for a node, or the reading rules name a fault: never both, one fault and no other, and it can't be that
/// there is neither. So `Flusher::open` answers Ok just where a node stands, and a fault of the reading rules just where
/// they name it, but for the device's faults and want of memory.
pub fn node_or_fault()
    ensures apart { (left : Contents) (node : Node) (fault : OpenFault) → Stands (left A) (left B) node → IsReadingFault fault → ReadingFails left fault → ⊥ }
    ensures one { (left : Contents) (first second : OpenFault) → IsReadingFault first → IsReadingFault second → ReadingFails left first
        → ReadingFails left second → first ≡ second }
    ensures neither { (left : Contents) → ((side : Side) (place : ℕ) → slice_index (left side) place < 256)
        → ((node : Node) → Stands (left A) (left B) node → ⊥) → ((fault : OpenFault) → IsReadingFault fault → ReadingFails left fault → ⊥) → ⊥ }
{
    one_spelling_of_nodes();
    scans_once();
}

/// What lies behind the closed gate of a side, either side, has no part in what is good.
pub fn shut_side()
    ensures first { (a b changed : List ℕ) → ¬ (IsArmed a) → ¬ (IsArmed changed) → 1 ≤ length a → 1 ≤ length changed
        → (start : Node) (events : List Event) (durable opening : ℕ) (told : List Output)
        → IsGoodAt start events durable opening a b told ↔ IsGoodAt start events durable opening changed b told }
    ensures second { (a b changed : List ℕ) → ¬ (IsArmed b) → ¬ (IsArmed changed) → 1 ≤ length b → 1 ≤ length changed
        → (start : Node) (events : List Event) (durable opening : ℕ) (told : List Output)
        → IsGoodAt start events durable opening a b told ↔ IsGoodAt start events durable opening a changed told }
{}

/// A moment that is good stays so for more events, and for fewer durable ones.
pub fn good_for_more()
    ensures { (start : Node) (events more : List Event) (durable less opening : ℕ) (a b : List ℕ) (told : List Output)
        → less ≤ durable → IsGoodAt start events durable opening a b told → IsGoodAt start (events ++ more) less opening a b told }
{}

/// A moment is good just where the two sides are, and what was sent was made in the prefix that they stand for.
pub fn good_parts()
    ensures { (start : Node) (events : List Event) (durable opening : ℕ) (left : Contents) (told : List Output)
        → IsGood start events durable opening left told ↔ ((sides : HasGoodSides start events durable left)
        × AllMade start (take sides.prefix events) opening told) }
{}

/// A side rests with all events just where the moment is good with all of them durable, and the side holds the node after
/// them up to that gate.
pub fn rests_with_all()
    ensures { (generation place : ℕ) (start : Node) (events : List Event) (opening : ℕ) (a b : List ℕ) (told : List Output)
        → RestsAt generation place start events opening a b told
        ↔ (IsGoodAt start events (length events) opening a b told × StandsAt a b generation place (after start events)) }
{}
