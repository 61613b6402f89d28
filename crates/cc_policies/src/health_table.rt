//! How the peers of a node stand, as it looks at them each second.

ghost use Rattle.std.specs.Prelude.{◌≡◌, ℕ, Bool, true, [], IfOk, option_map};
ghost use Rattle.std.specs.Vec.{vec_capacity};
ghost use Rattle.cc_policies.specs.declared.peer_health.PeerHealth.TheVariants as stands;
ghost use Rattle.cc_policies.specs.PeerHealth.{is_absent};
ghost use Rattle.cc_policies.specs.HealthTables.{HealthTable as Table, found, row_of, with_row, others, row_passed, row_shows, row_spoken, row_heard};
ghost use Rattle.cc_policies.specs.HealthTables.{row_lapsed, passed, after_pass, after_voice, after_heard, lapses, after_lapse, has_absent};

use crate::peer_health::PeerHealth;
use cc_views::{NoMemory, NodeId};
use std::alloc::Global;
use std::marker::Model;

/// How one peer stands.
#[derive(Clone, Copy, PartialEq, Eq)]
pub struct PeerRow {
    pub peer: NodeId,
    pub standing: PeerHealth,
    /// How many posts there were when a lapse was handed in for it last.
    pub handed_at: u64,
    /// It was absent when a frame of it came, and no second has passed since.
    pub has_spoken: bool,
}

/// What a second shows of a peer.
#[derive(Clone, Copy, PartialEq, Eq)]
pub struct Passed {
    /// How it stands at its end.
    pub standing: PeerHealth,
    /// It is taken for absent now.
    pub is_taken: bool,
    /// It is absent, and spoke in this second.
    pub is_back: bool,
}

/// How each peer stands. Once made it takes no memory.
#[derive(Drop)]
pub struct HealthTable {
    rows: Vec<PeerRow>,
}

impl Model for HealthTable {
    ghost use Rattle.std.specs.Vec.{vec_capacity};
    ghost use Rattle.cc_policies.specs.HealthTables.{HealthTable as Rows, IsHealthTable};

    ghost Value = { Rows };

    ghost view = { λ s. s.rows.items };

    ghost invariant = { λ s. IsHealthTable s.rows.items (vec_capacity s.rows) };
}

impl HealthTable {
    /// How many peers are looked at at most: as many as a node has links.
    pub const MAX_PEERS: usize = 256;

    /// None was looked at yet. NoMemory where a growth was refused.
    pub fn new(alloc: Global) -> Result<Self, NoMemory>
        ensures { IfOk result (λ s. s ≡ []) }
    {
        Ok(HealthTable {
            rows: Vec::with_capacity(alloc, Self::MAX_PEERS)?,
        })
    }

    /// How a peer stands.
    pub fn standing(&self, peer: NodeId) -> PeerHealth
        ensures { result ≡ (row_of peer self.now).standing }
    {
        row_of(&self.rows, peer).standing
    }

    /// A second has passed, by whose end a peer has acknowledged `acked` of the `sent` numbers of its link.
    pub fn pass_second(&mut self, peer: NodeId, acked: u64, sent: u64, is_live: bool) -> Passed
        ensures passed { result ≡ passed peer acked sent is_live self.old }
        ensures table { self.new ≡ after_pass peer acked sent is_live self.old }
    {
        let before = row_of(&self.rows, peer);
        let passed = shown(&before, acked, sent, is_live);
        self.put(row_passed(&before, acked, sent, is_live));
        passed
    }

    /// A frame of a peer came, whatever became of it.
    pub fn note_voice(&mut self, peer: NodeId)
        ensures { self.new ≡ after_voice peer self.old }
    {
        let row = row_of(&self.rows, peer);
        if row.standing.is_absent() {
            self.put(spoken(row));
        }
    }

    /// An acknowledgement of a peer's own was accepted: it is absent no longer. Whether it was.
    pub fn hear_ack(&mut self, peer: NodeId) -> bool
        ensures was { result ≡ is_absent (row_of peer self.old).standing }
        ensures table { self.new ≡ after_heard peer self.old }
    {
        let row = row_of(&self.rows, peer);
        if !row.standing.is_absent() {
            return false;
        }
        self.put(heard(row));
        true
    }

    /// Whether what is kept for a peer lapses now, which is then handed in. `reach` is the last post that it has
    /// acknowledged, of so many `posts`; `is_tick` tells whether a second has passed.
    pub fn lapse(&mut self, peer: NodeId, reach: u64, posts: u64, is_tick: bool) -> bool
        ensures lapses { result ≡ lapses peer reach posts is_tick self.old }
        ensures table { self.new ≡ after_lapse peer reach posts is_tick self.old }
    {
        let row = row_of(&self.rows, peer);
        if !row.standing.may_lapse(reach, posts, row.handed_at, is_tick) {
            return false;
        }
        self.put(lapsed(row, posts));
        true
    }

    /// Whether a peer is absent.
    pub fn has_absent(&self) -> bool
        ensures { result ≡ has_absent self.now }
    {
        has_absent(&self.rows)
    }

    // Puts a row in place of the one that its peer had.
    fn put(&mut self, row: PeerRow)
        ensures { self.new ≡ with_row row self.old }
    {
        keep_others(&mut self.rows, row.peer);
        if self.rows.len() < Self::MAX_PEERS {
            self.rows.push(row).unwrap();
        }
    }
}

fn row_of(rows: &[PeerRow], peer: NodeId) -> PeerRow
    ensures { result ≡ row_of peer rows.now }
{
    PeerRow {
        peer,
        standing: standing_in(rows, peer).unwrap_or(PeerHealth::Current),
        handed_at: handed_in(rows, peer).unwrap_or(0),
        has_spoken: spoken_in(rows, peer).unwrap_or(false),
    }
}

fn standing_in(rows: &[PeerRow], peer: NodeId) -> Option<PeerHealth>
    ensures { result ≡ option_map (λ (r : PeerRow). r.standing) (found peer rows.now) }
{
    let row = rows.iter().find(|row| row.peer == peer)?;
    Some(row.standing)
}

fn handed_in(rows: &[PeerRow], peer: NodeId) -> Option<u64>
    ensures { result ≡ option_map (λ (r : PeerRow). r.handed_at) (found peer rows.now) }
{
    let row = rows.iter().find(|row| row.peer == peer)?;
    Some(row.handed_at)
}

fn spoken_in(rows: &[PeerRow], peer: NodeId) -> Option<bool>
    ensures { result ≡ option_map (λ (r : PeerRow). r.has_spoken) (found peer rows.now) }
{
    let row = rows.iter().find(|row| row.peer == peer)?;
    Some(row.has_spoken)
}

fn has_absent(rows: &[PeerRow]) -> bool
    ensures { result ≡ has_absent rows.now }
{
    rows.iter().any(|row| row.standing.is_absent())
}

fn keep_others(rows: &mut Vec<PeerRow>, peer: NodeId)
    ensures items { rows.new.items ≡ others peer rows.old.items }
    ensures capacity { vec_capacity rows.new ≡ vec_capacity rows.old }
{
    rows.retain(|row| !(row.peer == peer));
}

fn row_passed(row: &PeerRow, acked: u64, sent: u64, is_live: bool) -> PeerRow
    ensures { result ≡ row_passed row.now acked sent is_live }
{
    PeerRow {
        peer: row.peer,
        standing: row.standing.after_second(acked, sent, is_live),
        handed_at: row.handed_at,
        has_spoken: false,
    }
}

// What the second shows of a row.
fn shown(before: &PeerRow, acked: u64, sent: u64, is_live: bool) -> Passed
    ensures { result ≡ row_shows before.now (row_passed before.now acked sent is_live) }
{
    let standing = before.standing.after_second(acked, sent, is_live);
    let is_absent = standing.is_absent();
    Passed {
        standing,
        is_taken: is_absent && !before.standing.is_absent(),
        is_back: is_absent && before.has_spoken,
    }
}

fn spoken(row: PeerRow) -> PeerRow
    ensures { result ≡ row_spoken row }
{
    PeerRow {
        peer: row.peer,
        standing: row.standing,
        handed_at: row.handed_at,
        has_spoken: true,
    }
}

fn heard(row: PeerRow) -> PeerRow
    ensures { result ≡ row_heard row }
{
    PeerRow {
        peer: row.peer,
        standing: row.standing.after_ack(),
        handed_at: row.handed_at,
        has_spoken: row.has_spoken,
    }
}

fn lapsed(row: PeerRow, posts: u64) -> PeerRow
    ensures { result ≡ row_lapsed row posts }
{
    PeerRow {
        peer: row.peer,
        standing: row.standing,
        handed_at: posts,
        has_spoken: row.has_spoken,
    }
}

/// Whatever is handed in, in whatever order: what is kept for a peer lapses only where it was absent at the end of a second
/// and no acknowledgement of its own was accepted since.
pub fn lapses_are_of_absent_peers()
    ensures { (rows : Table) (peer reach posts : ℕ) (is_tick : Bool) → lapses peer reach posts is_tick rows ≡ true → (row_of peer rows).standing
        ≡ stands.Absent }
{}
