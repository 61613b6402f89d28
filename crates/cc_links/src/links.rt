//! Links, as rows in ascending order of peers.
ghost use Rattle.std.specs.Prelude.{◌≡◌, ◌≤◌, false, IfOk, IfSome, option_map, length};
ghost use Rattle.std.specs.Vec.{vec_capacity};
ghost use Rattle.std.specs.Option.{option_map_or};
ghost use Rattle.std.specs.FinMap as table;
ghost use Rattle.cc_views.specs.AscendingLists.{IsAscending};
ghost use Rattle.cc_views.specs.Limits.{known_limit};
ghost use Rattle.cc_views.specs.NatSets as set;
ghost use Rattle.cc_views.specs.Tables.{IsRising, IsPlaceOf, table_of};
ghost use Rattle.cc_links.specs.Links as links;
ghost use Rattle.cc_links.specs.Rows.{entry_of, link_of, nodes_of, rows_of};

use crate::link_row::LinkRow;
use cc_views::{NoMemory, NodeId, Row};
use std::alloc::Global;
use std::marker::Model;

/// For each known peer one row, in room for 256 of them.
#[derive(Drop)]
pub struct Links {
    rows: Vec<LinkRow>,
}

impl Model for Links {
    ghost use Rattle.std.specs.Vec.{vec_capacity};
    ghost use Rattle.cc_views.specs.Limits.{known_limit};
    ghost use Rattle.cc_views.specs.Tables.{IsTable, table_of};
    ghost use Rattle.cc_links.specs.Links as links;
    ghost use Rattle.cc_links.specs.Links.{links_code};
    ghost use Rattle.cc_links.specs.Rows.{entry_of};

    ghost Value = { links.Links };

    ghost coded = { links_code };

    ghost view = { λ l. table_of entry_of l.rows.items };

    ghost invariant = { λ l. IsTable entry_of known_limit l.rows.items (vec_capacity l.rows) };
}

impl Links {
    /// How many rows there are at most.
    pub const MAX_ROWS: usize = 256;

    /// No links. NoMemory where a growth was refused.
    pub fn new(alloc: Global) -> Result<Self, NoMemory>
        ensures empty { IfOk result (λ l. l ≡ table.empty) }
        ensures len { IfOk result (λ l. table.len l ≡ 0) }
    {
        let rows = Vec::with_capacity(alloc, Self::MAX_ROWS)?;
        Ok(Links { rows })
    }

    /// The same links once more, with the same room. NoMemory where a growth was refused.
    pub fn copy(&self, alloc: Global) -> Result<Self, NoMemory>
        ensures { IfOk result (λ l. l ≡ self.now) }
    {
        let mut rows = Vec::with_capacity(alloc, Self::MAX_ROWS)?;
        rows.extend_from_slice(&self.rows).unwrap();
        Ok(Links { rows })
    }

    /// The rows, by ascending peer.
    pub fn rows(&self) -> &[LinkRow]
        ensures rows { result.now ≡ rows_of self.now }
        ensures fits { length result.now ≤ known_limit }
    {
        &self.rows
    }

    /// How many peers have a row.
    pub fn len(&self) -> usize
        ensures len { result ≡ table.len self.now }
        ensures fits { result ≤ known_limit }
    {
        self.rows.len()
    }

    /// The row of a peer. None for a peer without a row.
    pub fn get(&self, peer: NodeId) -> Option<&LinkRow>
        ensures link { option_map (λ row. link_of row.now) result ≡ table.get self.now peer }
        ensures peer { IfSome result (λ row. row.now.peer ≡ peer) }
    {
        match place_of(&self.rows, peer) {
            Ok(at) => Some(&self.rows[at]),
            Err(_) => None,
        }
    }

    /// The last number that was taken in from the peer, 0 for a peer without a row.
    pub fn heard(&self, peer: NodeId) -> u64
        ensures { result ≡ links.heard_from peer self.now }
    {
        match self.get(peer) {
            Some(row) => row.heard,
            None => 0,
        }
    }

    /// The number under which post `n` goes to the peer. None where it isn't sent there: the peer has no row, or
    /// got its row after that post.
    pub fn wire_number(&self, peer: NodeId, n: u64) -> Option<u64>
        ensures { result ≡ links.wire_number peer n self.now }
    {
        self.get(peer)?.wire_number(n)
    }

    /// Whether the peer's acknowledgement of number `n` is news, where `posts` posts were made: the number was sent to
    /// it, and isn't acknowledged yet.
    pub fn awaits_ack(&self, peer: NodeId, n: u64, posts: u64) -> bool
        ensures { result ≡ option_map_or (links.awaits_ack posts n) (table.get self.now peer) false }
    {
        match self.get(peer) {
            Some(row) => row.acked < n && n <= posts.saturating_sub(row.start),
            None => false,
        }
    }

    /// Whether some acknowledgement of the peer would be news, where `posts` posts were made: something was sent to it
    /// that isn't acknowledged yet.
    pub fn awaits_any(&self, peer: NodeId, posts: u64) -> bool
        ensures { result ≡ option_map_or (links.awaits_any posts) (table.get self.now peer) false }
    {
        match self.get(peer) {
            Some(row) => row.acked < posts.saturating_sub(row.start),
            None => false,
        }
    }

    /// From how many peers something was taken in.
    pub fn heard_of(&self) -> usize
        ensures count { result ≡ links.heard_of self.now }
        ensures fits { result ≤ known_limit }
    {
        count_heard(&self.rows)
    }

    /// Puts a row in, in place of the one that its peer had. It takes no memory.
    pub fn insert(&mut self, row: LinkRow)
        requires { table.len (table.insert self.old row.peer (link_of row)) ≤ known_limit }
        ensures { self.new ≡ table.insert self.old row.peer (link_of row) }
    {
        match place_of(&self.rows, row.peer) {
            Ok(at) => self.rows[at] = row,
            Err(at) => self.rows.insert(at, row).unwrap(),
        }
    }

    /// Gives the peer a row, unless it has one. It is sent the posts after the first `posts`.
    /// It takes no memory.
    pub fn add(&mut self, peer: NodeId, posts: u64)
        requires { table.len (links.add posts peer self.old) ≤ known_limit }
        ensures { self.new ≡ links.add posts peer self.old }
    {
        if self.get(peer).is_none() {
            self.insert(LinkRow {
                peer,
                start: posts,
                acked: 0,
                heard: 0,
            });
        }
    }

    /// Gives each of the peers a row that has none. It takes no memory.
    pub fn add_all(&mut self, peers: &[NodeId], posts: u64)
        requires { table.len (links.add_all posts peers.now self.old) ≤ known_limit }
        ensures { self.new ≡ links.add_all posts peers.now self.old }
    {
        for peer in peers {
            self.add(*peer, posts);
        }
    }

    /// Gives each of the nodes of a view's rows a row that has none. It takes no memory.
    pub fn add_nodes(&mut self, rows: &[Row], posts: u64)
        requires { table.len (links.add_all posts (nodes_of rows.now) self.old) ≤ known_limit }
        ensures { self.new ≡ links.add_all posts (nodes_of rows.now) self.old }
    {
        for row in rows {
            self.add(row.node, posts);
        }
    }

    /// Number `n` was taken in from the peer. Nothing changes where it has no row.
    pub fn hear(&mut self, from: NodeId, n: u64)
        ensures { self.new ≡ links.hear from n self.old }
    {
        if let Ok(at) = place_of(&self.rows, from) {
            self.rows[at].heard = n;
        }
    }

    /// The peer has acknowledged number `n`. Nothing changes where it has no row.
    pub fn ack(&mut self, peer: NodeId, n: u64)
        ensures { self.new ≡ links.ack peer n self.old }
    {
        if let Ok(at) = place_of(&self.rows, peer) {
            self.rows[at].acked = n;
        }
    }

    /// What is kept for the peer lapses, where `posts` posts were made: all that was sent to it counts as acknowledged.
    /// Nothing changes where it has no row.
    pub fn lapse(&mut self, peer: NodeId, posts: u64)
        ensures { self.new ≡ links.lapse posts peer self.old }
    {
        if let Ok(at) = place_of(&self.rows, peer) {
            let row = &mut self.rows[at];
            row.acked = posts.saturating_sub(row.start);
        }
    }

    /// The last post that each live link has acknowledged, and `posts`, the count of all posts, where no link is live.
    /// A link is live while its peer isn't among `left`.
    pub fn lowest_needed(&self, left: &[NodeId], posts: u64) -> u64
        requires ascending { IsAscending left.now }
        requires reached { links.ReachesWithin posts self.now }
        ensures { result ≡ links.lowest (set.from_list left.now) posts self.now }
    {
        lowest_of(&self.rows, left, posts)
    }
}

// Where the peer's row is, or where it would go.
fn place_of(rows: &[LinkRow], peer: NodeId) -> Result<usize, usize>
    requires { IsRising entry_of rows.now }
    ensures { IsPlaceOf entry_of rows.now peer result }
{
    rows.binary_search_by_key(&peer.number(), |row| row.peer.number())
}

fn has_left(left: &[NodeId], peer: NodeId) -> bool
    requires { IsAscending left.now }
    ensures { result ≡ set.contains (set.from_list left.now) peer }
{
    left.binary_search_by_key(&peer.number(), |id| id.number())
        .is_ok()
}

fn count_heard(rows: &[LinkRow]) -> usize
    requires { IsRising entry_of rows.now }
    ensures count { result ≡ links.heard_of (table_of entry_of rows.now) }
    ensures fits { result ≤ length rows.now }
{
    let mut count = 0;
    for row in rows {
        if row.heard > 0 {
            count += 1;
        }
    }
    count
}

fn lowest_of(rows: &[LinkRow], left: &[NodeId], posts: u64) -> u64
    requires rising { IsRising entry_of rows.now }
    requires ascending { IsAscending left.now }
    requires reached { links.ReachesWithin posts (table_of entry_of rows.now) }
    ensures { result ≡ links.lowest (set.from_list left.now) posts (table_of entry_of rows.now) }
{
    let mut lowest = posts;
    for row in rows {
        if !has_left(left, row.peer) {
            lowest = lowest.min(row.start + row.acked);
        }
    }
    lowest
}
