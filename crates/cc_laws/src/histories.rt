//! The laws of one history of a node: a list of events that it accepted, one after the other.

ghost use Rattle.std.specs.Prelude.{◌≡◌, ◌≤◌, ℕ, List};
ghost use Rattle.std.specs.List.{Contains};
ghost use Rattle.cc_views.specs.declared.value.Value.{Value};
ghost use Rattle.cc_views.specs.Rows.{ViewMap};
ghost use Rattle.cc_messages.specs.declared.event.Event.{Event};
ghost use Rattle.cc_messages.specs.declared.output.Output.{Output};
ghost use Rattle.cc_node.specs.Core.{Core, next};
ghost use Rattle.cc_node.specs.Node.{Node, after, line, IsLawful};
ghost use Rattle.cc_node.specs.Openings.{Opening, IsOpening, fresh};
ghost use Rattle.cc_laws.specs.Shown.{Has};
ghost use Rattle.cc_laws.specs.Orders.{IsFollowedBy, AreComparable};
ghost use Rattle.cc_laws.specs.Written.{IsWriteOf};
ghost use Rattle.cc_laws.specs.Histories.{view_at, IsViewOf, Appears, IsMadeIn, BringsOldRows};

/// From each point of a history to each later one the view goes on: what it has of a node stays, or gives way to a greater
/// number. So of two views of one history one is at most the other, and no number stands for two values.
pub fn views_follow()
    ensures event { (c : Core) (e : Event) → IsFollowedBy c.ops.view (next c e).ops.view }
    ensures goes_on { (n : Node) (es : List Event) (i j : ℕ) → i ≤ j → IsFollowedBy (view_at n es i) (view_at n es j) }
    ensures comparable { (n : Node) (es : List Event) (v w : ViewMap) → IsViewOf n es v → IsViewOf n es w → AreComparable v w }
    ensures one_value { (n : Node) (es : List Event) (v w : ViewMap) → IsViewOf n es v → IsViewOf n es w
        → (p k : ℕ) (x y : Value) → Has v p k x → Has w p k y → x ≡ y }
{}

/// Whatever is put out along a history is made by one of its events, at the node as it was then.
pub fn outputs_have_events()
    ensures { (n : Node) (es : List Event) (o : Output) → Contains (line n es) o → IsMadeIn n es o }
{}

/// Whatever operation is pending, each view that a node stores back, keeps in a post or an answer, or puts out is its own
/// view at some point of its history from the fresh node on. And where no view is delivered that has a row of the node
/// itself numbered 0 or above its own number, each own row in them was written by the writing ask of that number, and the one
/// in the node's view is that of its last write.
pub fn one_line()
    ensures views { (o : Opening) (es : List Event) (v : ViewMap) → Appears (fresh o) es v → IsViewOf (fresh o) es v }
    ensures own { (o : Opening) (es : List Event) → IsOpening o → IsLawful (fresh o) es → BringsOldRows (fresh o) es
        → (v : ViewMap) → IsViewOf (fresh o) es v → (k : ℕ) (x : Value) → Has v o.me k x → IsWriteOf es k x }
    ensures last { (o : Opening) (es : List Event) → BringsOldRows (fresh o) es → (k : ℕ) (x : Value) → Has (after (fresh o) es).core.ops.view o.me k x
        → ((after (fresh o) es).core.ops.number ≡ k) × ((after (fresh o) es).core.ops.mine ≡ x) }
{}
