//! The laws of all lives of a node, crashes and openings included.

ghost use Rattle.std.specs.Prelude.{◌≡◌, ℕ, List, length};
ghost use Rattle.std.specs.List.{Contains};
ghost use Rattle.cc_views.specs.declared.value.Value.{Value};
ghost use Rattle.cc_views.specs.Rows.{ViewMap};
ghost use Rattle.cc_views.specs.Merge.{IsAtMost};
ghost use Rattle.cc_messages.specs.declared.event.Event.{Event};
ghost use Rattle.cc_messages.specs.declared.output.Output.{Output};
ghost use Rattle.cc_site.specs.declared.site.Side.TheVariants.{A, B};
ghost use Rattle.cc_site.specs.Moments.{Contents, Possible};
ghost use Rattle.cc_site.specs.Runs.{EachMoment};
ghost use Rattle.cc_node.specs.Node.{Node, after, IsLawful};
ghost use Rattle.cc_node.specs.Lawful.{IsLawfulNode};
ghost use Rattle.cc_node.specs.Openings.{Opening, IsOpening, fresh};
ghost use Rattle.cc_node_state.specs.Sides.{Stands};
ghost use Rattle.cc_journal.specs.Journals.{Position, IsGood, IsGoodNow, RestsNow};
ghost use Rattle.cc_laws.specs.Shown.{Has};
ghost use Rattle.cc_laws.specs.Orders.{AreComparable};
ghost use Rattle.cc_laws.specs.Written.{IsWriteOf};
ghost use Rattle.cc_laws.specs.Histories.{IsViewOf, BringsOldRows};
ghost use Rattle.cc_laws.specs.Lives.{Life, IsLifeOf, LivesFrom, IsSeen, IsHistoryOf, IsSubsequence, accepted_along, durable_along};
ghost use Rattle.cc_laws.specs.FirstLife.{life_left, LeavesAll};

use cc_flush::one_node;
use cc_site::Site;

/// All lives of a node are one history: there is one list of events, none of them refused, that leads from the first start
/// to the last opening, and whatever any of the lives put stood at the start or was made along it. It is what was found again
/// of the events that each life accepted, with all that was durable, one life after the other.
pub fn lives_join()
    ensures { (n : Node) (ls : List Life) (m : Node) → IsLawfulNode n → LivesFrom n ls m → (es : List Event) × IsHistoryOf n ls m es }
{
    one_node();
}

/// Such a history consists of what the lives accepted: each of its events is one that a life accepted, they stand in the order
/// in which they were accepted, and all that was durable is among them.
pub fn history_is_accepted()
    ensures each { (n : Node) (ls : List Life) (m : Node) (es : List Event) → IsHistoryOf n ls m es
        → (e : Event) → Contains es e → (l : Life) × Contains ls l × Contains l.events e }
    ensures accepted { (n : Node) (ls : List Life) (m : Node) (es : List Event) → IsHistoryOf n ls m es → IsSubsequence es (accepted_along ls) }
    ensures durable { (n : Node) (ls : List Life) (m : Node) (es : List Event) → IsHistoryOf n ls m es → IsSubsequence (durable_along ls) es }
{}

/// Over all lives of a node that began fresh, of each view that was put, and of each that the node shows with which it was
/// opened last: its own view, those in its kept posts and answers, and the one that it stores back. Each is the node's view
/// at a point of that one history; no number of a node ever stands for two values in them; of any two one is at most the
/// other, and each is at most the view with which the node was opened last. Where no delivered view had a row of the node
/// itself numbered 0 or above its own number, each own row in them was written by the writing ask of that number.
pub fn lives_hold()
    ensures views { (o : Opening) (ls : List Life) (m : Node) (es : List Event) → IsHistoryOf (fresh o) ls m es
        → (v : ViewMap) → IsSeen ls m v → IsViewOf (fresh o) es v }
    ensures one_value { (o : Opening) (ls : List Life) (m : Node) → IsOpening o → LivesFrom (fresh o) ls m
        → (v w : ViewMap) → IsSeen ls m v → IsSeen ls m w → (p k : ℕ) (x y : Value) → Has v p k x → Has w p k y → x ≡ y }
    ensures comparable { (o : Opening) (ls : List Life) (m : Node) → IsOpening o → LivesFrom (fresh o) ls m
        → (v w : ViewMap) → IsSeen ls m v → IsSeen ls m w → AreComparable v w }
    ensures grows { (o : Opening) (ls : List Life) (m : Node) → IsOpening o → LivesFrom (fresh o) ls m
        → (v : ViewMap) → IsSeen ls m v → IsAtMost v m.core.ops.view }
    ensures own { (o : Opening) (ls : List Life) (m : Node) (es : List Event) → IsOpening o → IsHistoryOf (fresh o) ls m es
        → BringsOldRows (fresh o) es
        → (v : ViewMap) → IsSeen ls m v → (k : ℕ) (x : Value) → Has v o.me k x → IsWriteOf es k x }
{
    one_node();
}

/// A moment that is good for events that a node accepted may be the last one of a life: where each moment of some calls on a
/// site is so, as the engine's clauses say, the node lived so up to any of them, whatever a crash leaves then. So it is where
/// the sides were good before those calls, with all events durable, and the calls leave to a crash what it might have left
/// before, as those of `Flusher::open` do.
pub fn moments_end_lives<S: Site>(old: &S, new: &S)
    ensures each { (start : Node) (events : List Event) (durable opening : ℕ) (left : Contents) (told : List Output)
        → IsLawful start events → EachMoment S.Site old.now new.now (IsGood start events durable opening)
        → S.left_since new.now (S.moment old.now) left told → IsLifeOf start (life_left events durable opening left told) }
    ensures still { (start : Node) (events : List Event) (opening : ℕ) (left : Contents) (told : List Output)
        → IsLawful start events → IsGoodNow S.Site old.now start events opening
        → EachMoment S.Site old.now new.now (Possible (S.state old.now) (S.sent old.now))
        → S.left_since new.now (S.moment old.now) left told → IsLifeOf start (life_left events (length events) opening left told) }
{}

/// Between calls a life may end too: where the sides are good with all events durable, or one of them rests with the node
/// after all events, as `format` leaves it with none, a crash leaves such a life, and what it leaves stands for the node
/// after all of them and for no other.
pub fn crashes_end_lives<S: Site>(site: &S)
    ensures good { (start : Node) (events : List Event) (opening : ℕ) → IsLawful start events → IsGoodNow S.Site site.now start events opening
        → LeavesAll (S.state site.now) (S.sent site.now) start events opening }
    ensures rests { (at : Position) (generation : ℕ) (start : Node) (events : List Event) (opening : ℕ) → IsLawful start events
        → RestsNow S.Site site.now at generation start events opening → LeavesAll (S.state site.now) (S.sent site.now) start events opening }
    ensures whole { (start : Node) (l : Life) (next : Node) → IsLifeOf start l → l.durable ≡ length l.events
        → Stands (l.left A) (l.left B) next → next ≡ after start l.events }
{
    one_node();
}
