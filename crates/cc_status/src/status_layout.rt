//! What is shown of a node is laid out.

ghost use Rattle.std.specs.Prelude.{◌≡◌, [], IfOk, OnOk};
ghost use Rattle.cc_status.specs.Readiness.{Judges};
ghost use Rattle.cc_status.specs.ShownNodes.{Shows, Begins};

use crate::live::{Live, Shown};
use crate::members::{push_all, push_live, push_sessions};
use crate::named_counts::{put_buckets, put_named, put_syncs};
use crate::peers::push_peers;
use crate::readiness::{Quorum, Readiness, is_ready, put_quorum, put_reason, round_status};
use crate::rows::push_rows;
use crate::status::{Counts, DiskStatus, PostStatus, QuorumStatus, Status, SyncStatus};
use crate::wide::Wide;
use cc_connections::{BATCH_BOUNDS, COMMANDS, Counted, REFUSALS};
use cc_outbox::Outbox;
use cc_sessions::Sessions;
use cc_site::Side;
use cc_views::NoMemory;
use std::alloc::Global;
use std::collections::BTreeMap;
use std::mem;

/// What is shown of a node, and of what is known of it beside its state. The only error is a refused growth.
pub fn status_of(alloc: Global, shown: &Shown, live: &Live<'_>) -> Result<Status, NoMemory>
    ensures shows { IfOk result (λ s. Shows shown.now.core shown.now.kept s) }
    ensures judges { IfOk result (λ s. Judges shown.now live.entry.now.peers.now s) }
{
    let mut status = blank(alloc, shown, live);
    let Ok(()) = lay_state(alloc, shown, &mut status) else {
        drop(status);
        return Err(NoMemory);
    };
    match lay_rest(alloc, shown, live, &mut status) {
        Ok(()) => Ok(status),
        Err(NoMemory) => {
            drop(status);
            Err(NoMemory)
        }
    }
}

// What takes no memory.
fn blank(alloc: Global, shown: &Shown, live: &Live<'_>) -> Status
    ensures { Begins shown.now.core shown.now.kept result }
{
    let core = &shown.core;
    Status {
        id: core.me().number(),
        version: String::new(alloc),
        started: live.started,
        now: live.now,
        standing: String::new(alloc),
        is_ready: false,
        reason: String::new(alloc),
        quorum: blank_quorum(alloc),
        members: Vec::new(alloc),
        present: Vec::new(alloc),
        left: Vec::new(alloc),
        view: Vec::new(alloc),
        round: None,
        waiting: core.ops().line().asks().len() as u64,
        share: core.ops().share() as u64,
        sessions: Vec::new(alloc),
        session_limit: Sessions::MAX_ROWS as u64,
        posts: PostStatus {
            made: Wide(core.posts()),
            kept: shown.kept,
            limit: Outbox::MAX_POSTS as u64,
        },
        peers: Vec::new(alloc),
        disk: blank_disk(alloc, live),
        counts: blank_counts(alloc, live),
        syncs: blank_syncs(alloc),
    }
}

fn blank_quorum(alloc: Global) -> QuorumStatus {
    QuorumStatus {
        beta: String::new(alloc),
        gamma: String::new(alloc),
        members: 0,
        need: 0,
        may_be_away: 0,
        away: 0,
    }
}

fn blank_disk(alloc: Global, live: &Live<'_>) -> DiskStatus {
    DiskStatus {
        side: String::new(alloc),
        generation: Wide(live.disk.generation),
        bytes: live.disk.bytes,
        records: live.disk.records,
        events: live.disk.events,
    }
}

fn blank_counts(alloc: Global, live: &Live<'_>) -> Counts {
    Counts {
        commits: live.counted.commits,
        events: live.counted.events,
        checkpoints: live.counted.checkpoints,
        connections: live.counted.connections,
        withheld: live.counted.withheld,
        skips_sent: live.counted.skips_sent,
        skips_heard: live.counted.skips_heard,
        refusals: BTreeMap::new(alloc),
        asks: BTreeMap::new(alloc),
        batches: Vec::new(alloc),
    }
}

fn blank_syncs(alloc: Global) -> SyncStatus {
    SyncStatus {
        count: 0,
        total_us: 0,
        mean_us: 0,
        p50_us: 0,
        p99_us: 0,
        worst_us: 0,
        buckets: Vec::new(alloc),
    }
}

// Lays out the view, who is there, and the sessions.
#[tactic(auto, using(crate::proofs::LiveIds::live_members, crate::proofs::LiveIds::live_present))]
fn lay_state(alloc: Global, shown: &Shown, status: &mut Status) -> Result<(), NoMemory>
    requires { Begins shown.now.core shown.now.kept status.old }
    ensures { OnOk result (Shows shown.now.core shown.now.kept status.new) }
{
    let core = &shown.core;
    let changes = core.churn().changes();
    push_rows(alloc, core.view().rows(), &mut status.view)?;
    push_live(changes.joined(), changes, &mut status.members)?;
    push_live(changes.entered(), changes, &mut status.present)?;
    push_all(changes.left(), &mut status.left)?;
    push_sessions(core.sessions().rows(), &mut status.sessions)?;
    Ok(())
}

// Lays out what else is shown.
fn lay_rest(
    alloc: Global,
    shown: &Shown,
    live: &Live<'_>,
    status: &mut Status,
) -> Result<(), NoMemory>
    requires { Shows shown.now.core shown.now.kept status.old }
    ensures shows { OnOk result (Shows shown.now.core shown.now.kept status.new) }
    ensures judges { OnOk result (Judges shown.now live.entry.now.peers.now status.new) }
{
    lay_standing(alloc, shown, live, status)?;
    lay_around(alloc, shown, live, status)
}

// Lays out where the node stands, whether it is ready, and its round.
fn lay_standing(
    alloc: Global,
    shown: &Shown,
    live: &Live<'_>,
    status: &mut Status,
) -> Result<(), NoMemory>
    requires { Shows shown.now.core shown.now.kept status.old }
    ensures shows { OnOk result (Shows shown.now.core shown.now.kept status.new) }
    ensures judges { OnOk result (Judges shown.now live.entry.now.peers.now status.new) }
{
    let core = &shown.core;
    let quorum = Quorum::of(shown, &status.members, live.peers);
    status.is_ready = is_ready(core, quorum);
    put_quorum(core, quorum, &mut status.quorum)?;
    if !status.is_ready {
        put_reason(
            core,
            &status.members,
            live.peers,
            quorum,
            &mut status.reason,
        )?;
    }
    status.version.push_str(live.version)?;
    status.standing.push_str(Readiness::of(core).name())?;
    drop(mem::replace(&mut status.round, round_status(alloc, core, live)?));
    Ok(())
}

// Lays out its peers, its disk, and what was counted.
fn lay_around(
    alloc: Global,
    shown: &Shown,
    live: &Live<'_>,
    status: &mut Status,
) -> Result<(), NoMemory>
    requires shows { Shows shown.now.core shown.now.kept status.old }
    requires judges { Judges shown.now live.now.peers.now status.old }
    ensures shows { OnOk result (Shows shown.now.core shown.now.kept status.new) }
    ensures judges { OnOk result (Judges shown.now live.entry.now.peers.now status.new) }
{
    push_peers(alloc, &shown.core, live, &mut status.peers)?;
    status.disk.side.push_str(side_name(live))?;
    put_counts(alloc, live.counted, &mut status.counts)?;
    put_syncs(&live.counted.syncs, &mut status.syncs)?;
    Ok(())
}

fn put_counts(alloc: Global, counted: &Counted, counts: &mut Counts) -> Result<(), NoMemory> {
    put_named(alloc, &REFUSALS, &counted.refusals, &mut counts.refusals)?;
    put_named(alloc, &COMMANDS, &counted.asks, &mut counts.asks)?;
    put_buckets(&BATCH_BOUNDS, &counted.batches, &mut counts.batches)
}

fn side_name(live: &Live<'_>) -> &'static str {
    match live.disk.side {
        Side::A => "A",
        Side::B => "B",
    }
}
