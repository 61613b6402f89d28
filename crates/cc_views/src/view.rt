//! Views, as rows in ascending order of nodes.
ghost use Rattle.std.specs.Prelude.{◌≡◌, ◌+◌, ◌≤◌, ◌<◌, ◌↔◌, [], ◌∷◌, ◌++◌, map as list_map, length, IsTrue, IfOk, IfSome, option_map};
ghost use Rattle.std.specs.Ordering.{nat_cmp};
ghost use Rattle.std.specs.Vec.{vec_capacity};
ghost use Rattle.std.specs.List.{AllByRecursion, list_all};
ghost use Rattle.std.specs.FinMap as map;
ghost use Rattle.cc_views.specs.AscendingLists.{IsAscending};
ghost use Rattle.cc_views.specs.Limits.{known_limit};
ghost use Rattle.cc_views.specs.Rows.{ViewMap, entry_of, entries_of, rows_of, single, absorbed, absorbed_all};
ghost use Rattle.cc_views.specs.Tables.{IsRising, IsPlaceOf};
ghost use Rattle.cc_views.specs.Merge.{merge, MergesAtEachNode, IsAtMost, Agree, keeps};
ghost use Rattle.cc_views.specs.Sizes.{MergeIsNoLarger, MergeStaysWithin};

use crate::no_memory::NoMemory;
use crate::node_id::NodeId;
use crate::row::Row;
use std::alloc::Global;
use std::marker::Model;

/// For each node at most one row, in room for 256 of them (CCC, view).
#[derive(Drop)]
pub struct View {
    rows: Vec<Row>,
}

impl Model for View {
    ghost use Rattle.std.specs.Vec.{vec_capacity};
    ghost use Rattle.cc_views.specs.Limits.{known_limit};
    ghost use Rattle.cc_views.specs.Rows.{ViewMap, view_code, entry_of};
    ghost use Rattle.cc_views.specs.Tables.{IsTable, table_of};

    ghost Value = { ViewMap };

    ghost coded = { view_code };

    ghost view = { λ v. table_of entry_of v.rows.items };

    ghost invariant = { λ v. IsTable entry_of known_limit v.rows.items (vec_capacity v.rows) };
}

impl View {
    /// How many rows a view has at most.
    pub const MAX_ROWS: usize = 256;

    /// A view of no node.
    pub fn new(alloc: Global) -> Result<Self, NoMemory>
        ensures empty { IfOk result (λ v. v ≡ map.empty) }
        ensures rows { IfOk result (λ v. rows_of v ≡ []) }
        ensures len { IfOk result (λ v. map.len v ≡ 0) }
    {
        let rows = Vec::with_capacity(alloc, Self::MAX_ROWS)?;
        Ok(View { rows })
    }

    /// The same view, in room of its own.
    pub fn copy(&self, alloc: Global) -> Result<Self, NoMemory>
        ensures { IfOk result (λ v. v ≡ self.now) }
    {
        let mut copy = View::new(alloc)?;
        copy.copy_from(self);
        Ok(copy)
    }

    /// Takes over the rows of the other view in place of its own.
    pub fn copy_from(&mut self, other: &View)
        ensures { self.new ≡ other.now }
    {
        self.rows.clear();
        self.rows.extend_from_slice(&other.rows).unwrap();
    }

    /// The rows, by ascending node.
    pub fn rows(&self) -> &[Row]
        ensures rows { result.now ≡ rows_of self.now }
        ensures ascending { IsAscending (list_map (λ row. row.node) result.now) }
        ensures fits { map.len self.now ≤ known_limit }
    {
        &self.rows
    }

    /// The row of the node, where there is one.
    pub fn get(&self, node: NodeId) -> Option<&Row>
        ensures pair { option_map (λ row. (row.now.number, row.now.value)) result ≡ map.get self.now node }
        ensures node { IfSome result (λ row. row.now.node ≡ node) }
    {
        match place_of(&self.rows, node) {
            Ok(at) => Some(&self.rows[at]),
            Err(_) => None,
        }
    }

    /// Adds a row whose node is above those of all rows here.
    pub fn push(&mut self, row: Row)
        requires room { map.len self.old < known_limit }
        requires above { AllByRecursion (λ r. r.node < row.node) (rows_of self.old) }
        ensures map { self.new ≡ map.insert self.old row.node (row.number, row.value) }
        ensures rows { rows_of self.new ≡ rows_of self.old ++ row ∷ [] }
        ensures len { map.len self.new ≡ map.len self.old + 1 }
    {
        self.rows.push(row).unwrap();
    }

    /// Whether each node here is in the other view with at least its number here.
    pub fn at_most(&self, other: &View) -> bool
        ensures { IsTrue result ↔ IsAtMost self.now other.now }
    {
        all_kept(&self.rows, other)
    }

    /// Takes a row where its node is new, or its number is greater than that of its node here.
    pub fn merge_row(&mut self, row: Row)
        requires { map.len (merge self.old (single row)) ≤ known_limit }
        ensures { self.new ≡ merge self.old (single row) }
    {
        absorb_all(&mut self.rows, &[row]);
    }

    /// Takes each row of `other` whose node is new, or whose number is greater than that of its node here (CCC, merge of
    /// views). On equal numbers the row here stays.
    pub fn merge(&mut self, other: &View)
        requires { map.len (merge self.old other.now) ≤ known_limit }
        ensures { self.new ≡ merge self.old other.now }
    {
        absorb_all(&mut self.rows, &other.rows);
    }
}

fn all_kept(rows: &[Row], other: &View) -> bool
    ensures { result ≡ list_all (keeps other.now) rows.now }
{
    rows.iter().all(|row| is_kept(row, other))
}

// Whether the view has the row's node with at least its number.
fn is_kept(row: &Row, view: &View) -> bool
    ensures { result ≡ keeps view.now row.now }
{
    view.get(row.node)
        .is_some_and(|its| row.number <= its.number)
}

// Where the node's row is, or where it would go.
fn place_of(rows: &[Row], node: NodeId) -> Result<usize, usize>
    requires { IsRising entry_of rows.now }
    ensures { IsPlaceOf entry_of rows.now node result }
{
    rows.binary_search_by_key(&node.number(), |row| row.node.number())
}

fn absorb(rows: &mut Vec<Row>, row: Row)
    requires rising { IsRising entry_of rows.old.items }
    requires room { known_limit ≤ vec_capacity rows.old }
    requires fits { length (absorbed (entries_of rows.old.items) row) ≤ known_limit }
    ensures rows { entries_of rows.new.items ≡ absorbed (entries_of rows.old.items) row }
    ensures room { known_limit ≤ vec_capacity rows.new }
{
    match place_of(rows, row.node) {
        Ok(at) => {
            if rows[at].number < row.number {
                rows[at] = row;
            }
        }
        Err(at) => rows.insert(at, row).unwrap(),
    }
}

fn absorb_all(rows: &mut Vec<Row>, others: &[Row])
    requires rising { IsRising entry_of rows.old.items }
    requires room { known_limit ≤ vec_capacity rows.old }
    requires fits { length (absorbed_all (entries_of rows.old.items) others.now) ≤ known_limit }
    ensures rows { entries_of rows.new.items ≡ absorbed_all (entries_of rows.old.items) others.now }
    ensures room { known_limit ≤ vec_capacity rows.new }
{
    for row in others {
        absorb(rows, *row);
    }
}

/// What a merge has of each node: the pair of the side that has it, and of two the right one where its number is
/// greater, else the left one.
pub fn merges_at_each_node()
    ensures { MergesAtEachNode }
{}

/// Merging joins views: in any order, as far as they agree, and no view is lost in it.
pub fn merge_joins()
    ensures commutative { (v w : ViewMap) → Agree v w → merge v w ≡ merge w v }
    ensures associative { (u v w : ViewMap) → merge (merge u v) w ≡ merge u (merge v w) }
    ensures idempotent { (v : ViewMap) → merge v v ≡ v }
    ensures has_first { (v w : ViewMap) → IsAtMost v (merge v w) }
    ensures has_second { (v w : ViewMap) → IsAtMost w (merge v w) }
{}

/// How many nodes a merge has: no more than both sides together, and where each node of both is among some ids, no
/// more than these.
pub fn size_of_a_merge()
    ensures sum { MergeIsNoLarger }
    ensures within { MergeStaysWithin }
{}
