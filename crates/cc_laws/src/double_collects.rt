//! The laws of double collects: readings that show the whole cluster at one moment.

ghost use Rattle.std.specs.Prelude.{◌≡◌, ◌⊎◌, ◌≤◌, ℕ, true, false, List, [], ◌∷◌, Some};
ghost use Rattle.std.specs.List.{AllByRecursion};
ghost use Rattle.std.specs.FinMap as table;
ghost use Rattle.cc_views.specs.NatSets as set;
ghost use Rattle.cc_views.specs.Rows.{rows_of};
ghost use Rattle.cc_laws.specs.Clusters.{Member, Cluster, Move};
ghost use Rattle.cc_laws.specs.Runs.{Run, IsFreshCluster};
ghost use Rattle.cc_laws.specs.Orders.{IsFollowedBy};
ghost use Rattle.cc_laws.specs.Regular.{IsAnswered, IsStored, IsAhead, HasAtLeast, SeesWrite, RoundsMeet, ShareNode};
ghost use Rattle.cc_laws.specs.ReadBack.{IsDone};
ghost use Rattle.cc_laws.specs.Fixed.{IsFixedCluster, Stays};
ghost use Rattle.cc_laws.specs.DoubleCollects.{Moment, DoubleCollect, LacksWrite, AreInOrder, IsBelow, Operation, IsLinearization};
ghost use Rattle.cc_laws.specs.Snapshots.{HasShare, IsOfSession, AreOfOneRound, row_of_write, WriteBetween};
ghost use Rattle.cc_messages.specs.declared.answer.Answer.TheVariants as answer;
ghost use Rattle.cc_messages.specs.declared.command.Command.TheVariants as command;
ghost use Rattle.cc_objects.specs.Objects.{max_of, flag_of, set_of};

/// Two collects in a row that show one view are a snapshot: the view stood at one moment, that at which the first was answered and
/// the second wasn't asked, as long as any two rounds that ended counted an answer of one same node. Of two such views one is within
/// the other (`comparable`), in the order in which they were read where the one was answered before the other was asked (`in_turn`).
/// Such a view has each write that was answered before its second collect was asked, or a later one of its node (`stored`), and none
/// that was asked after its moment (`nothing_later`). So all writes and any list of double collects have a linearization
/// (`linearizable`): it keeps what was answered before what was asked, and each double collect shows exactly the writes before it.
pub fn equal_collects_are_a_snapshot()
    ensures comparable { (c d : Cluster) (moves : List (ℕ × Move)) → IsFreshCluster c → Run c moves d → RoundsMeet d
        → (a b : DoubleCollect c moves d) → IsFollowedBy a.view b.view ⊎ IsFollowedBy b.view a.view }
    ensures in_turn { (c d : Cluster) (moves : List (ℕ × Move)) → IsFreshCluster c → Run c moves d → RoundsMeet d
        → (a b : DoubleCollect c moves d) (moment : Moment c moves) → IsAnswered moment.now a.node a.x a.y (answer.Seen a.view)
        → IsAhead moment.now b.node b.s b.r → IsFollowedBy a.view b.view }
    ensures stored { (c d : Cluster) (moves : List (ℕ × Move)) → IsFreshCluster c → Run c moves d → RoundsMeet d
        → (a : DoubleCollect c moves d) (moment : Moment c moves) (q n s r : ℕ) → IsStored moment.now q n s r
        → IsAhead moment.now a.node a.x a.y → SeesWrite d a.view q n }
    ensures nothing_later { (c d : Cluster) (moves : List (ℕ × Move)) → IsFreshCluster c → Run c moves d → RoundsMeet d
        → (a : DoubleCollect c moves d) (q n : ℕ) → LacksWrite a.moment.now q n → HasAtLeast a.view q n → ⊥ }
    ensures linearizable { (c d : Cluster) (moves : List (ℕ × Move)) → IsFreshCluster c → Run c moves d → RoundsMeet d
        → (collects : List (DoubleCollect c moves d)) → AreInOrder c moves d collects
        → (key : Operation → List ℕ) × IsLinearization c moves d collects (λ o p. IsBelow (key o) (key p)) }
{}

/// So of the simple objects, as double collects read them. Where one view is within another, so is what is read off it: the greatest
/// maximum is at most the other one, a flag that is set is set there, and each member is one there (`max_within`, `flag_within`,
/// `members_within`). So of two double collects one reads no more than the other. And what was written and answered before the second
/// collect was asked is read, whichever node wrote it (`max`, `flag`, `member`).
pub fn readings_of_double_collects()
    ensures max_within { (c d : Cluster) (moves : List (ℕ × Move)) → IsFreshCluster c → Run c moves d → (a b : DoubleCollect c moves d)
        → IsFollowedBy a.view b.view → max_of a.view ≤ max_of b.view }
    ensures flag_within { (c d : Cluster) (moves : List (ℕ × Move)) → IsFreshCluster c → Run c moves d → (a b : DoubleCollect c moves d)
        → IsFollowedBy a.view b.view → flag_of a.view ≡ true → flag_of b.view ≡ true }
    ensures members_within { (c d : Cluster) (moves : List (ℕ × Move)) → IsFreshCluster c → Run c moves d → (a b : DoubleCollect c moves d)
        → IsFollowedBy a.view b.view → (k : ℕ) → set.contains (set_of a.view) k ≡ true → set.contains (set_of b.view) k ≡ true }
    ensures max { (c d : Cluster) (moves : List (ℕ × Move)) → IsFreshCluster c → Run c moves d → RoundsMeet d
        → (a : DoubleCollect c moves d) (moment : Moment c moves) (q s r k : ℕ) → IsDone moment.now q s r (command.WriteMax k)
        → IsAhead moment.now a.node a.x a.y → k ≤ max_of a.view }
    ensures flag { (c d : Cluster) (moves : List (ℕ × Move)) → IsFreshCluster c → Run c moves d → RoundsMeet d
        → (a : DoubleCollect c moves d) (moment : Moment c moves) (q s r : ℕ) → IsDone moment.now q s r command.SetFlag
        → IsAhead moment.now a.node a.x a.y → flag_of a.view ≡ true }
    ensures member { (c d : Cluster) (moves : List (ℕ × Move)) → IsFreshCluster c → Run c moves d → RoundsMeet d
        → (a : DoubleCollect c moves d) (moment : Moment c moves) (q s r k : ℕ) → IsDone moment.now q s r (command.AddMember k)
        → IsAhead moment.now a.node a.x a.y → set.contains (set_of a.view) k ≡ true }
{}

/// And whoever enters, leaves or is retired: of two double collects the one with the earlier moment is within the other one where
/// one node acknowledged what its first collect stored back, and replied to the query of the other one's second collect
/// (`comparable`, `in_turn`). So it is of a write and such a collect (`stored`).
pub fn shared_nodes_tell_double_collects()
    ensures comparable { (c d : Cluster) (moves : List (ℕ × Move)) → IsFreshCluster c → Run c moves d → (a b : DoubleCollect c moves d)
        → a.moment.made ≤ b.moment.made → ShareNode b.moment.now d a.node a.s a.r b.node b.x b.y → IsFollowedBy a.view b.view }
    ensures in_turn { (c d : Cluster) (moves : List (ℕ × Move)) → IsFreshCluster c → Run c moves d → (a b : DoubleCollect c moves d)
        (moment : Moment c moves) → IsAnswered moment.now a.node a.x a.y (answer.Seen a.view) → IsAhead moment.now b.node b.s b.r
        → ShareNode b.moment.now d a.node a.s a.r b.node b.x b.y → IsFollowedBy a.view b.view }
    ensures stored { (c d : Cluster) (moves : List (ℕ × Move)) → IsFreshCluster c → Run c moves d → (a : DoubleCollect c moves d)
        (moment : Moment c moves) (q n s r : ℕ) → IsStored moment.now q n s r → IsAhead moment.now a.node a.x a.y
        → ShareNode moment.now d q s r a.node a.x a.y → SeesWrite d a.view q n }
{}

/// The premises of these laws can be met at a share of 1, where one ask begins at a time. Two nodes stay the only members, and each needs
/// the answers of both. Node 1 adds 3 to its set and is answered; session 9 of node 2 collects twice (`a`), session 8 there sets the
/// flag, and session 10 collects twice behind it (`b`). The first view has the 3 and no flag, and is within the second one, which has
/// both; and all of it has an order: the 3, `a`, the flag, `b`.
pub fn two_nodes_take_snapshots()
    ensures { (c d : Cluster) × (moves : List (ℕ × Move)) × (a b : DoubleCollect c moves d) × IsFreshCluster c × Run c moves d × HasShare 1 c
        × IsFixedCluster (1 ∷ 2 ∷ []) c × AllByRecursion (λ move. Stays move.1) moves × RoundsMeet d
        × IsOfSession a 2 9 × IsOfSession b 2 10 × WriteBetween c moves d a b 2 1 8 1
        × IsDone a.moment.now 1 7 1 (command.AddMember 3) × IsDone b.moment.now 2 8 1 command.SetFlag
        × (rows_of a.view ≡ row_of_write 1 (command.AddMember 3) ∷ [])
        × (rows_of b.view ≡ row_of_write 1 (command.AddMember 3) ∷ row_of_write 2 command.SetFlag ∷ [])
        × (set.contains (set_of a.view) 3 ≡ true) × (flag_of a.view ≡ false)
        × (set.contains (set_of b.view) 3 ≡ true) × (flag_of b.view ≡ true) }
{}

/// And at a share of 32, where a node enters. Node 1 stores, and node 2 was formatted without members. Session 9 of node 2 collects twice
/// (`a`), session 8 there writes the maximum 5, and sessions 9 and 10 collect twice behind it (`b`, `e`), the second time in one round:
/// both read one view, which has what was stored and the 5. The view of `a` lacks the 5, and is within that one.
pub fn clients_of_a_round_take_snapshots()
    ensures { (c d : Cluster) × (moves : List (ℕ × Move)) × (a b e : DoubleCollect c moves d) × (entrant : Member) × IsFreshCluster c × Run c moves d
        × HasShare 32 c × (table.get c.members 2 ≡ Some entrant) × (entrant.opening.initial ≡ []) × RoundsMeet d
        × IsOfSession a 2 9 × IsOfSession b 2 9 × IsOfSession e 2 10 × AreOfOneRound d 2 b.x b.y e.x e.y
        × WriteBetween c moves d a b 2 1 8 1 × WriteBetween c moves d a e 2 1 8 1
        × IsDone b.moment.now 2 8 1 (command.WriteMax 5)
        × (rows_of a.view ≡ row_of_write 1 (command.Store (0x61 ∷ [])) ∷ [])
        × (rows_of b.view ≡ row_of_write 1 (command.Store (0x61 ∷ [])) ∷ row_of_write 2 (command.WriteMax 5) ∷ []) × (e.view ≡ b.view)
        × (max_of a.view ≡ 0) × (5 ≤ max_of b.view) }
{}
