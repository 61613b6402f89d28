//! The laws of a node's histories. Each is a function with an empty body, whose contract is the law.

ghost use Rattle.std.specs.Prelude.{◌≡◌, ◌≢◌, ◌↔◌, ◌+◌, ◌-◌, ◌≤◌, ◌++◌, ◌∷◌, ℕ, Bool, List, [], length};
ghost use Rattle.std.specs.Prelude.{None, Some, true, false};
ghost use Rattle.std.specs.FinMap as table;
ghost use Rattle.std.specs.List.{All, AllPairs};
ghost use Rattle.cc_views.specs.Merge.{IsAtMost};
ghost use Rattle.cc_views.specs.Rows.{ViewMap};
ghost use Rattle.cc_changes.specs.ChangeSets.{ChangeSets};
ghost use Rattle.cc_links.specs.Links.{Link, heard_from};
ghost use Rattle.cc_views.specs.Limits.{counter_limit, overruns};
ghost use Rattle.cc_messages.specs.Messages.{is_snapshot, is_for};
ghost use Rattle.cc_messages.specs.Ranges.{Range, IsRange};
ghost use Rattle.cc_messages.specs.declared.message.Message.{Message};
ghost use Rattle.cc_messages.specs.declared.event.Event.{Event};
ghost use Rattle.cc_messages.specs.declared.event.Event.TheVariants as event;
ghost use Rattle.cc_messages.specs.declared.message.Message.TheVariants as message;
ghost use Rattle.cc_messages.specs.declared.refusal.Refusal.TheVariants as refusal;
ghost use Rattle.cc_messages.specs.Shares.{IsAskShare};
ghost use Rattle.cc_ops.specs.Ops.{anew, merged, after_message, with_share};
ghost use Rattle.cc_messages.specs.declared.output.Output.{Output};
ghost use Rattle.cc_ops.specs.declared.pending_operation.Asked.{Asked};
ghost use Rattle.cc_ops.specs.Rounds.{first_round, line_behind, of_kind, IsAt, ComesOn};
ghost use Rattle.cc_ops.specs.WaitingAsks.{writes_by, written_by};
ghost use Rattle.cc_node.specs.Core.{Core, quorum, churned, churn_told, asks_anew, ops_anew, begun, ids_of, replies, outputs, next};
ghost use Rattle.cc_node.specs.Skips.{single, numbers, skipped_in_turn, AreKnown};
ghost use Rattle.cc_node.specs.Node.{Node, step, after, line, HasOutput, MayBeOut, IsLawful, IsLawfulWithin};
ghost use Rattle.cc_node.specs.OneAtATime.{waiting, decides_alone, next_alone, post_alone, step_alone, after_alone};
ghost use Rattle.cc_node.specs.OneAtATime.{line_alone, IsLawfulAlone};
ghost use Rattle.cc_node.specs.Refusals.{decides, decides_within, row_overruns, spent};
ghost use Rattle.cc_node.specs.Rounds.{share_along, IsShareAlong};
ghost use Rattle.cc_node.specs.Lawful.{IsLawfulCore, IsLawfulNode};
ghost use Rattle.cc_node.specs.Openings.{Opening, IsOpening, fresh};
ghost use Rattle.cc_node.specs.Lines.{Follows};
ghost use Rattle.cc_node.specs.Writes.{asked_along, begun_along};

/// A node begins lawful, and no event that isn't refused makes it unlawful.
pub fn lawful_kept()
    ensures fresh { (o : Opening) → IsOpening o → IsLawfulNode (fresh o) }
    ensures step { (n : Node) (e : Event) → decides n.core e ≡ None → IsLawfulNode n → IsLawfulNode (step n e) }
    ensures after { (n : Node) (es : List Event) → IsLawful n es → IsLawfulNode n → IsLawfulNode (after n es) }
{}

/// No event makes the view smaller, nor does any list of events.
pub fn view_only_grows()
    ensures event { (c : Core) (e : Event) → IsAtMost c.ops.view (next c e).ops.view }
    ensures after { (n : Node) (es : List Event) → IsAtMost n.core.ops.view (after n es).core.ops.view }
{}

/// The own number counts the writes that begin, and nothing but their commands changes the own value.
pub fn own_number_counts_writes()
    ensures number { (c : Core) (e : Event) → (next c e).ops.number ≡ c.ops.number + writes_by (begun c e) }
    ensures value { (c : Core) (e : Event) → (next c e).ops.mine ≡ written_by (begun c e) c.ops.mine }
    ensures number_after { (n : Node) (es : List Event) → (after n es).core.ops.number
        ≡ n.core.ops.number + writes_by (begun_along n es) }
    ensures value_after { (n : Node) (es : List Event) → (after n es).core.ops.mine
        ≡ written_by (begun_along n es) n.core.ops.mine }
{}

/// Asks of a kind, which write or read, begin in the order in which they were accepted: those that waited at the start
/// and those that were accepted since are those that began since and those that wait still. Where the share is 1 all
/// along, so do all asks.
pub fn asks_begin_in_order()
    ensures kinds { (writes : Bool) (n : Node) (es : List Event) → IsLawfulNode n → IsLawful n es
        → of_kind writes (n.core.ops.line ++ asked_along es)
        ≡ of_kind writes (begun_along n es ++ (after n es).core.ops.line) }
    ensures one_by_one { (n : Node) (es : List Event) → IsShareAlong 1 n es → IsLawfulNode n → IsLawful n es
        → n.core.ops.line ++ asked_along es ≡ begun_along n es ++ (after n es).core.ops.line }
{}

/// No more asks begin with an event than the share, nor are more answered, and no event but a Share changes the share.
/// At a share of 1 the first round of a line is its first ask alone.
pub fn share_one()
    ensures begun { (c : Core) (e : Event) → 1 ≤ c.ops.share → length (begun c e) ≤ c.ops.share }
    ensures answered { (c : Core) (e : Event) → IsLawfulCore c → length (replies c e) ≤ c.ops.share }
    ensures share { (n : Node) (es : List Event) → (after n es).core.ops.share ≡ share_along n.core.ops.share es }
    ensures one_begun { (c : Core) (e : Event) → c.ops.share ≡ 1 → length (begun c e) ≤ 1 }
    ensures one_answered { (c : Core) (e : Event) → IsLawfulCore c → c.ops.share ≡ 1 → length (replies c e) ≤ 1 }
    ensures first { (a : Asked) (line : List Asked) → first_round 1 (a ∷ line) ≡ a ∷ [] }
    ensures behind { (a : Asked) (line : List Asked) → line_behind 1 (a ∷ line) ≡ line }
{}

/// A Share changes nothing but the share: it begins nothing, and puts nothing out. Of two that follow one another the
/// second counts; where it tells the same it is refused as NothingToAck. No share from 1 to 32 is refused as Spent.
pub fn share_changes_alone()
    ensures leaves { (c : Core) (share : ℕ) → next c (event.Share share) ≡ record c { ops = with_share share c.ops } }
    ensures begins { (c : Core) (share : ℕ) → begun c (event.Share share) ≡ [] }
    ensures puts { (c : Core) (share : ℕ) → outputs c (event.Share share) ≡ [] }
    ensures last { (c : Core) (first second : ℕ) → next (next c (event.Share first)) (event.Share second)
        ≡ next c (event.Share second) }
    ensures again { (c : Core) (share : ℕ) → decides c (event.Share share) ≡ None
        → decides (next c (event.Share share)) (event.Share share) ≡ Some refusal.NothingToAck }
    ensures spent { (c : Core) (share : ℕ) → IsAskShare share → spent c (event.Share share) ≡ None }
{}

/// No ask is passed over for ever: with each event that answers clients, an ask that waits begins, or fewer stand
/// before it than did; with any other it keeps its place.
pub fn rounds_are_fair()
    ensures comes_on { (c : Core) (e : Event) (n : ℕ) (a : Asked) → 1 ≤ c.ops.share → IsAt n a c.ops.line
        → replies c e ≢ []
        → ComesOn n a (begun c e) (next c e).ops.line }
    ensures stays { (c : Core) (e : Event) (n : ℕ) (a : Asked) → IsAt n a c.ops.line → replies c e ≡ []
        → IsAt n a (next c e).ops.line }
{}

/// What isn't refused where no ask may wait isn't refused where 32 may; and then none waits.
pub fn lines_may_grow()
    ensures event { (c : Core) (e : Event) → decides_within 0 c e ≡ None → decides c e ≡ None }
    ensures lawful { (n : Node) (es : List Event) → IsLawfulWithin 0 n es → IsLawful n es }
    ensures none_waits { (n : Node) (es : List Event) → n.core.ops.line ≡ [] → IsLawfulWithin 0 n es
        → (after n es).core.ops.line ≡ [] }
{}

/// Lines of asks that wait add nothing where none waits: where none may, what is refused and why, what an event leaves
/// and what it puts out are as the rule of one operation at a time has it. That rule neither changes the asks that wait
/// nor reads them.
pub fn lines_add_nothing()
    ensures refused { (c : Core) (e : Event) → c.ops.line ≡ [] → decides_alone c e ≡ decides_within 0 c e }
    ensures step { (n : Node) (e : Event) → n.core.ops.line ≡ [] → decides_within 0 n.core e ≡ None
        → step_alone n e ≡ step n e }
    ensures lawful { (n : Node) (es : List Event) → n.core.ops.line ≡ []
        → (IsLawfulAlone n es ↔ IsLawfulWithin 0 n es) }
    ensures after { (n : Node) (es : List Event) → n.core.ops.line ≡ [] → IsLawfulWithin 0 n es
        → after_alone n es ≡ after n es }
    ensures line { (n : Node) (es : List Event) → n.core.ops.line ≡ [] → IsLawfulWithin 0 n es
        → line_alone n es ≡ line n es }
    ensures leaves { (c : Core) (e : Event) → (next_alone c e).ops.line ≡ c.ops.line }
    ensures unaware { (c : Core) (asks : List Asked) (e : Event)
        → (next_alone (waiting asks c) e ≡ waiting asks (next_alone c e))
        × (post_alone (waiting asks c) e ≡ post_alone c e) × (decides_alone (waiting asks c) e ≡ decides_alone c e) }
{}

/// What a node may put out again stood at the start, or was made for an event since.
pub fn standing_made()
    ensures { (n : Node) (es : List Event) (o : Output) → IsLawfulNode n → IsLawful n es → HasOutput (after n es) o
        → MayBeOut n es o }
{}

/// On each link the numbers of what is sent rise, as do those that are acknowledged, and in each session the requests
/// that are answered; they begin above all that stood at the start. So no two events of a history make the same output.
pub fn no_output_twice()
    ensures rising { (n : Node) (es : List Event) → IsLawfulNode n → IsLawful n es → AllPairs Follows (line n es) }
    ensures since { (n : Node) (es : List Event) (o : Output) → IsLawfulNode n → IsLawful n es → HasOutput n o
        → All (Follows o) (line n es) }
    ensures apart { (n : Node) (es : List Event) → IsLawfulNode n → IsLawful n es
        → AllPairs (λ x y. x ≢ y) (line n es) }
{}

/// A lapse makes of a core what the peer's acknowledgement of all that was sent to it would, which isn't refused
/// either.
pub fn lapse_is_an_acknowledgement()
    ensures { (c : Core) (q : ℕ) (l : Link) → table.get c.links q ≡ Some l → decides c (event.Lapse q) ≡ None
        → (decides c (event.Acked q (c.posts - l.start)) ≡ None)
        × (next c (event.Lapse q) ≡ next c (event.Acked q (c.posts - l.start))) }
{}

/// What isn't a snapshot counts as no more than it is, and lets nothing begin anew. Under the next number of its link a
/// message raises what was heard past its limit exactly where that stands at it.
pub fn others_stay()
    ensures echo { (c : Core) (from n : ℕ) (m : Message) → is_snapshot m ≡ false → churn_told c from n m ≡ churned c m }
    ensures phase { (c : Core) (from n : ℕ) (m : Message) → is_snapshot m ≡ false
        → ops_anew c from n m ≡ after_message c.me (quorum c) m c.ops }
    ensures limit { (c : Core) (from n : ℕ) (m : Message) → n ≡ heard_from from c.links + 1
        → heard_from from c.links ≤ counter_limit
        → row_overruns c (next c (event.Deliver from n m)) (event.Deliver from n m)
        ≡ overruns (heard_from from c.links) (heard_from from (next c (event.Deliver from n m)).links) }
{}

/// Where a snapshot has a phase begin anew, the operation is `anew` with the quorum of then, beside the merge of the
/// snapshot's view, and the sessions stay. `anew` is no new operation (`cc_ops`: `anew_keeps_the_operation`).
pub fn asks_anew_alone()
    ensures { (c : Core) (from n : ℕ) (d : ChangeSets) (v : ViewMap) → asks_anew c from n (message.Snapshot d v) ≡ true
        → ((next c (event.Deliver from n (message.Snapshot d v))).ops
        ≡ anew (quorum (next c (event.Deliver from n (message.Snapshot d v)))) (merged v c.ops))
        × ((next c (event.Deliver from n (message.Snapshot d v))).sessions ≡ c.sessions) }
{}

/// An answer to another node changes nothing but what is heard on its link. So where the nodes that it names are known,
/// whether it is refused and why, the node that it leads to, and what is put out are those of a Skip of its number.
pub fn answers_to_others_are_skipped()
    ensures refused { (c : Core) (from n : ℕ) (m : Message) → is_for m c.me ≡ false → AreKnown c (ids_of m)
        → decides c (event.Deliver from n m) ≡ decides c (event.Skip from (single n)) }
    ensures step { (x : Node) (from n : ℕ) (m : Message) → is_for m x.core.me ≡ false → AreKnown x.core (ids_of m)
        → step x (event.Deliver from n m) ≡ step x (event.Skip from (single n)) }
    ensures puts { (c : Core) (from n : ℕ) (m : Message) → is_for m c.me ≡ false → AreKnown c (ids_of m)
        → outputs c (event.Deliver from n m) ≡ outputs c (event.Skip from (single n)) }
{}

/// A Skip of a range is the Skips of its numbers, one behind the other; and where one range comes behind another, both are
/// the Skip from the first number of the one to the last of the other.
pub fn ranges_are_skipped_in_turn()
    ensures numbers { (c : Core) (from : ℕ) (r : Range) → IsRange r
        → skipped_in_turn c from (numbers r) ≡ next c (event.Skip from r) }
    ensures parts { (c : Core) (from : ℕ) (first second : Range) → next (next c (event.Skip from first)) (event.Skip from second)
        ≡ next c (event.Skip from (record { first = first.first; last = second.last })) }
{}
