//! The laws of collects in a cluster.

ghost use Rattle.std.specs.Prelude.{◌≡◌, ◌≤◌, ℕ, Bool, true, List, [], ◌∷◌, Some};
ghost use Rattle.std.specs.List.{AllByRecursion, Contains};
ghost use Rattle.std.specs.FinMap as table;
ghost use Rattle.cc_views.specs.NatSets as set;
ghost use Rattle.cc_views.specs.NatSets.{NatSet};
ghost use Rattle.cc_views.specs.Rows.{ViewMap};
ghost use Rattle.cc_messages.specs.declared.answer.Answer.TheVariants as answer;
ghost use Rattle.cc_messages.specs.declared.command.Command.TheVariants as command;
ghost use Rattle.cc_messages.specs.declared.event.Event.TheVariants as event;
ghost use Rattle.cc_laws.specs.Orders.{IsFollowedBy};
ghost use Rattle.cc_laws.specs.Clusters.{Member, Cluster, Move, Accept, Crash};
ghost use Rattle.cc_laws.specs.Runs.{Run, IsFreshCluster};
ghost use Rattle.cc_laws.specs.Regular.{IsAnswered, IsStored, IsAhead, SeesWrite, RoundsMeet, ShareNode};
ghost use Rattle.cc_laws.specs.ReadBack.{IsDone};
ghost use Rattle.cc_laws.specs.Fixed.{IsFixedCluster, Stays};

/// Collects are regular, whatever nodes do, wherever they crash and whatever the network does, as long as any two rounds that
/// ended counted an answer of one same node. A collect whose ask its node hadn't released when the answer to a store left sees
/// that write, or a later one of its node (`stored`). And it sees all that an earlier collect saw whose answer had left by
/// then, or what came after it (`in_turn`).
pub fn collects_are_regular()
    ensures stored { (c mid d : Cluster) (first second : List (ℕ × Move)) → IsFreshCluster c → Run c first mid → Run mid second d → RoundsMeet d
        → (q k s r : ℕ) → IsStored mid q k s r → (p x y : ℕ) → IsAhead mid p x y → (v : ViewMap) → IsAnswered d p x y (answer.Seen v) → SeesWrite d v q k }
    ensures in_turn { (c mid d : Cluster) (first second : List (ℕ × Move)) → IsFreshCluster c → Run c first mid → Run mid second d → RoundsMeet d
        → (q s r : ℕ) (v : ViewMap) → IsAnswered mid q s r (answer.Seen v) → (p x y : ℕ) → IsAhead mid p x y
        → (w : ViewMap) → IsAnswered d p x y (answer.Seen w) → IsFollowedBy v w }
{}

/// The same wherever one node acknowledged what the earlier operation stored, and replied to the query of the later one:
/// whoever enters, leaves or is retired meanwhile.
pub fn shared_nodes_tell()
    ensures stored { (c mid d : Cluster) (first second : List (ℕ × Move)) → IsFreshCluster c → Run c first mid → Run mid second d
        → (q k s r : ℕ) → IsStored mid q k s r → (p x y : ℕ) → IsAhead mid p x y → ShareNode mid d q s r p x y
        → (v : ViewMap) → IsAnswered d p x y (answer.Seen v) → SeesWrite d v q k }
    ensures in_turn { (c mid d : Cluster) (first second : List (ℕ × Move)) → IsFreshCluster c → Run c first mid → Run mid second d
        → (q s r : ℕ) (v : ViewMap) → IsAnswered mid q s r (answer.Seen v) → (p x y : ℕ) → IsAhead mid p x y → ShareNode mid d q s r p x y
        → (w : ViewMap) → IsAnswered d p x y (answer.Seen w) → IsFollowedBy v w }
{}

/// So where members stay the same: all nodes began with the same joined ones, each needs more than half of them, and nobody
/// enters, leaves or is retired.
pub fn members_collect_regularly()
    ensures stored { (all : List ℕ) (c mid d : Cluster) (first second : List (ℕ × Move)) → IsFreshCluster c → Run c first mid → Run mid second d
        → IsFixedCluster all c → AllByRecursion (λ move. Stays move.1) first → AllByRecursion (λ move. Stays move.1) second
        → (q k s r : ℕ) → IsStored mid q k s r → (p x y : ℕ) → IsAhead mid p x y → (v : ViewMap) → IsAnswered d p x y (answer.Seen v) → SeesWrite d v q k }
    ensures in_turn { (all : List ℕ) (c mid d : Cluster) (first second : List (ℕ × Move)) → IsFreshCluster c → Run c first mid → Run mid second d
        → IsFixedCluster all c → AllByRecursion (λ move. Stays move.1) first → AllByRecursion (λ move. Stays move.1) second
        → (q s r : ℕ) (v : ViewMap) → IsAnswered mid q s r (answer.Seen v) → (p x y : ℕ) → IsAhead mid p x y
        → (w : ViewMap) → IsAnswered d p x y (answer.Seen w) → IsFollowedBy v w }
{}

/// Where all nodes began with the same joined ones and each needs more than half of them, and nobody enters, leaves or is
/// retired, any two rounds that ended counted an answer of one same node, wherever nodes crash and whatever the network does.
pub fn quorums_meet()
    ensures { (all : List ℕ) (c d : Cluster) (moves : List (ℕ × Move)) → IsFreshCluster c → IsFixedCluster all c
        → AllByRecursion (λ move. Stays move.1) moves → Run c moves d → RoundsMeet d }
{}

/// So of the simple objects: what was written and answered is read by each reading whose ask its node hadn't released when
/// the answer left (`max`, `flag`, `member`), and no reading goes back behind another whose answer had left by then.
pub fn objects_are_regular()
    ensures max { (c mid d : Cluster) (first second : List (ℕ × Move)) → IsFreshCluster c → Run c first mid → Run mid second d → RoundsMeet d
        → (q s r k : ℕ) → IsDone mid q s r (command.WriteMax k) → (p x y : ℕ) → IsAhead mid p x y → (n : ℕ) → IsAnswered d p x y (answer.Max n) → k ≤ n }
    ensures max_in_turn { (c mid d : Cluster) (first second : List (ℕ × Move)) → IsFreshCluster c → Run c first mid → Run mid second d → RoundsMeet d
        → (q s r k : ℕ) → IsAnswered mid q s r (answer.Max k) → (p x y : ℕ) → IsAhead mid p x y → (n : ℕ) → IsAnswered d p x y (answer.Max n) → k ≤ n }
    ensures flag { (c mid d : Cluster) (first second : List (ℕ × Move)) → IsFreshCluster c → Run c first mid → Run mid second d → RoundsMeet d
        → (q s r : ℕ) → IsDone mid q s r command.SetFlag → (p x y : ℕ) → IsAhead mid p x y → (b : Bool) → IsAnswered d p x y (answer.Flag b) → b ≡ true }
    ensures flag_in_turn { (c mid d : Cluster) (first second : List (ℕ × Move)) → IsFreshCluster c → Run c first mid → Run mid second d → RoundsMeet d
        → (q s r : ℕ) → IsAnswered mid q s r (answer.Flag true) → (p x y : ℕ) → IsAhead mid p x y → (b : Bool) → IsAnswered d p x y (answer.Flag b) → b ≡ true }
    ensures member { (c mid d : Cluster) (first second : List (ℕ × Move)) → IsFreshCluster c → Run c first mid → Run mid second d → RoundsMeet d
        → (q s r k : ℕ) → IsDone mid q s r (command.AddMember k) → (p x y : ℕ) → IsAhead mid p x y
        → (zs : NatSet) → IsAnswered d p x y (answer.Set zs) → set.contains zs k ≡ true }
    ensures members_in_turn { (c mid d : Cluster) (first second : List (ℕ × Move)) → IsFreshCluster c → Run c first mid → Run mid second d → RoundsMeet d
        → (q s r : ℕ) (ys : NatSet) → IsAnswered mid q s r (answer.Set ys) → (p x y : ℕ) → IsAhead mid p x y
        → (zs : NatSet) → IsAnswered d p x y (answer.Set zs) → (k : ℕ) → set.contains ys k ≡ true → set.contains zs k ≡ true }
{}

/// And the same of any two operations where one node acknowledged what the earlier one stored, and replied to the query of
/// the later one: whoever enters, leaves or is retired meanwhile.
pub fn shared_nodes_tell_readings()
    ensures max { (c mid d : Cluster) (first second : List (ℕ × Move)) → IsFreshCluster c → Run c first mid → Run mid second d
        → (q s r k : ℕ) → IsDone mid q s r (command.WriteMax k) → (p x y : ℕ) → IsAhead mid p x y → ShareNode mid d q s r p x y → (n : ℕ)
        → IsAnswered d p x y (answer.Max n) → k ≤ n }
    ensures max_in_turn { (c mid d : Cluster) (first second : List (ℕ × Move)) → IsFreshCluster c → Run c first mid → Run mid second d
        → (q s r k : ℕ) → IsAnswered mid q s r (answer.Max k) → (p x y : ℕ) → IsAhead mid p x y → ShareNode mid d q s r p x y → (n : ℕ)
        → IsAnswered d p x y (answer.Max n) → k ≤ n }
    ensures flag { (c mid d : Cluster) (first second : List (ℕ × Move)) → IsFreshCluster c → Run c first mid → Run mid second d
        → (q s r : ℕ) → IsDone mid q s r command.SetFlag → (p x y : ℕ) → IsAhead mid p x y → ShareNode mid d q s r p x y → (b : Bool)
        → IsAnswered d p x y (answer.Flag b) → b ≡ true }
    ensures flag_in_turn { (c mid d : Cluster) (first second : List (ℕ × Move)) → IsFreshCluster c → Run c first mid → Run mid second d
        → (q s r : ℕ) → IsAnswered mid q s r (answer.Flag true) → (p x y : ℕ) → IsAhead mid p x y → ShareNode mid d q s r p x y → (b : Bool)
        → IsAnswered d p x y (answer.Flag b) → b ≡ true }
    ensures member { (c mid d : Cluster) (first second : List (ℕ × Move)) → IsFreshCluster c → Run c first mid → Run mid second d
        → (q s r k : ℕ) → IsDone mid q s r (command.AddMember k) → (p x y : ℕ) → IsAhead mid p x y → ShareNode mid d q s r p x y
        → (zs : NatSet) → IsAnswered d p x y (answer.Set zs) → set.contains zs k ≡ true }
    ensures members_in_turn { (c mid d : Cluster) (first second : List (ℕ × Move)) → IsFreshCluster c → Run c first mid → Run mid second d
        → (q s r : ℕ) (ys : NatSet) → IsAnswered mid q s r (answer.Set ys) → (p x y : ℕ) → IsAhead mid p x y → ShareNode mid d q s r p x y
        → (zs : NatSet) → IsAnswered d p x y (answer.Set zs) → (k : ℕ) → set.contains ys k ≡ true → set.contains zs k ≡ true }
{}

/// The premises of `members_collect_regularly` can be met: two nodes that stay the only members store and collect. Node 1 is
/// asked to store, in session 7, and is answered; node 2 hadn't been asked by then in session 9, is asked to collect, and is
/// answered. Meanwhile node 2 accepts another ask, with a share of 32; node 1 lets what it posted to node 2 lapse, and posts a
/// snapshot; and node 2 crashes.
pub fn two_nodes_collect()
    ensures { (c mid d : Cluster) × (first second : List (ℕ × Move)) × (v : ViewMap) × IsFreshCluster c × Run c first mid × Run mid second d
        × IsFixedCluster (1 ∷ 2 ∷ []) c × AllByRecursion (λ move. Stays move.1) first × AllByRecursion (λ move. Stays move.1) second
        × IsStored mid 1 1 7 1 × IsAhead mid 2 9 1 × IsAnswered d 2 9 1 (answer.Seen v)
        × ((q : ℕ) (m : Member) → table.get c.members q ≡ Some m → m.opening.share ≡ 32)
        × Contains second (2, Accept (event.Ask 10 1 command.Collect)) × Contains second (1, Accept (event.Lapse 2))
        × Contains second (1, Accept event.Snapshot) × Contains second (2, Crash 3) }
{}

/// The premises of `shared_nodes_tell` can be met by a node that enters. Node 1 is alone, is asked to store, in session 7, and
/// is answered. Then node 2 enters and joins, is asked to collect, in session 9, and is answered: node 1 acknowledged what was
/// stored, and replied to the query.
pub fn an_entrant_shares_a_node()
    ensures { (c mid d : Cluster) × (first second : List (ℕ × Move)) × (entrant : Member) × (v : ViewMap)
        × IsFreshCluster c × Run c first mid × Run mid second d × IsStored mid 1 1 7 1 × IsAhead mid 2 9 1 × ShareNode mid d 1 7 1 2 9 1
        × IsAnswered d 2 9 1 (answer.Seen v) × (table.get d.members 2 ≡ Some entrant) × (entrant.opening.initial ≡ []) }
{}
