//! The laws of a cluster.

ghost use Rattle.std.specs.Prelude.{◌≡◌, ℕ, List};
ghost use Rattle.cc_views.specs.Rows.{ViewMap};
ghost use Rattle.cc_views.specs.Merge.{merge};
ghost use Rattle.cc_views.specs.declared.value.Value.{Value};
ghost use Rattle.cc_laws.specs.Shown.{Has};
ghost use Rattle.cc_laws.specs.Clusters.{Cluster, Move};
ghost use Rattle.cc_laws.specs.Runs.{Run, IsFreshCluster, Occurs, IsWrittenBy};

/// Whatever its nodes do, wherever they crash, and whatever the network loses, repeats or reorders: where a view anywhere in
/// a cluster has a value of a node under some number, the writing ask of that number that the node accepted made this value
/// (`written`). So no two views have different values of a node under one number (`agree`), and any two of them make the same
/// view, whichever is merged with the other (`commutes`).
pub fn cluster_agrees()
    ensures written { (c d : Cluster) (moves : List (ℕ × Move)) (v : ViewMap) (p k : ℕ) (x : Value)
        → IsFreshCluster c → Run c moves d → Occurs d v → Has v p k x → IsWrittenBy d p k x }
    ensures agree { (c d : Cluster) (moves : List (ℕ × Move)) (v w : ViewMap) (p k : ℕ) (x y : Value)
        → IsFreshCluster c → Run c moves d → Occurs d v → Occurs d w → Has v p k x → Has w p k y → x ≡ y }
    ensures commutes { (c d : Cluster) (moves : List (ℕ × Move)) (v w : ViewMap)
        → IsFreshCluster c → Run c moves d → Occurs d v → Occurs d w → merge v w ≡ merge w v }
{}
