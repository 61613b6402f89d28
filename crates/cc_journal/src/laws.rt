//! What holds of the records of a side. Each law is a function with an empty body, whose contract is the law.

ghost use Rattle.std.specs.Prelude.{◌≡◌, ℕ, List};
ghost use Rattle.cc_node.specs.Node.{Node};
ghost use Rattle.cc_journal.specs.Scans.{ScansTo, StopsAt};

/// Bytes are scanned in one way: either to one node, with one count of bytes, records and events, or up to one place
/// at which they stop; and it can't be that neither holds.
pub fn scans_once()
    ensures found { (bytes : List ℕ) (start x y : Node) (size-x size-y records-x records-y events-x events-y : ℕ)
        → ScansTo bytes start x size-x records-x events-x → ScansTo bytes start y size-y records-y events-y
        → (x ≡ y) × (size-x ≡ size-y) × (records-x ≡ records-y) × (events-x ≡ events-y) }
    ensures stopped { (bytes : List ℕ) (start : Node) (place-x place-y : ℕ)
        → StopsAt bytes start place-x → StopsAt bytes start place-y → place-x ≡ place-y }
    ensures either { (bytes : List ℕ) (start node : Node) (size records events place : ℕ)
        → ScansTo bytes start node size records events → StopsAt bytes start place → ⊥ }
    ensures neither { (bytes : List ℕ) (start : Node)
        → ((node : Node) (size records events : ℕ) → ScansTo bytes start node size records events → ⊥)
        → ((place : ℕ) → StopsAt bytes start place → ⊥) → ⊥ }
{}
