//! The law of the answers that a node counts.

ghost use Rattle.std.specs.Prelude.{◌≡◌, ◌↔◌, ◌⊎◌, ℕ, true, List, [], length, Some};
ghost use Rattle.cc_messages.specs.declared.event.Event.{Event};
ghost use Rattle.cc_node.specs.Core.{Core, next};
ghost use Rattle.cc_node.specs.Node.{after};
ghost use Rattle.cc_node.specs.Openings.{Opening, fresh};
ghost use Rattle.cc_laws.specs.Progress.{GainsAnswer, BeginsAnew, EndsRound, IsFrom};
ghost use Rattle.cc_laws.specs.Rounds.{answers_in, need_in, counts, ends_round, begins_anew, peers_along, Round, peers_of};

/// The answers that are said to be counted are those that the node's own state shows. An event counts an answer of a peer
/// exactly where it delivers a message of this peer, and by it the pending round has one answer more, or pends no more
/// (`counted`). It ends a round exactly where one pended before it that doesn't pend after it, nor begins anew (`ended`). A
/// phase is said to begin anew exactly where the same stage of the same ask pends under the next tag, without an answer
/// (`anew`). After any history as many peers are counted as the pending round has answers (`along`), and each round that ended
/// counted as many as it needs (`enough`).
pub fn rounds_are_shown()
    ensures counted { (c : Core) (e : Event) (q : ℕ) → (counts c e ≡ Some q) ↔
        (IsFrom q e × (GainsAnswer c.ops (next c e).ops ⊎ EndsRound c.ops (next c e).ops)) }
    ensures ended { (c : Core) (e : Event) → (ends_round c e ≡ true) ↔ EndsRound c.ops (next c e).ops }
    ensures anew { (c : Core) (e : Event) → (begins_anew c e ≡ true) ↔ BeginsAnew c.ops (next c e).ops }
    ensures along { (o : Opening) (es : List Event) → length (peers_along (fresh o) [] es) ≡ answers_in (after (fresh o) es).core.ops.phase }
    ensures enough { (o : Opening) (es : List Event) (round : Round (fresh o) es) → length (peers_of (fresh o) es round)
        ≡ need_in (after (fresh o) round.before).core.ops.phase }
{}
