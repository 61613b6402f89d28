//! A whole life of a node, from its opening to what it came to.

ghost use Rattle.std.specs.Prelude.{◌≡◌, ℕ, List, None, false};
ghost use Rattle.cc_journal.specs.declared.entry.Entry.{Entry as EntryValue};
ghost use Rattle.cc_intake.specs.Intakes.{share_limit};

use crate::sites::{MEMBER, begun};
use crate::threads::held_sync::{Hold, Holding};
use crate::threads::turns::fill;
use crate::threads::workers::{Brings, labour_whole};
use cc_flush::{Back, Flusher};
use cc_intake::{
    Ends, Finished, Hooked, Intake, Lane, Life, Queue, Share, Turner, finish, lane, start,
};
use cc_node::{Core, Opening};
use cc_site::MemorySite;
use std::marker::Brand;
use std::process::Abort;
use std::sync::ledger::Blank;
use std::sync::{Mutex, Wait};
use std::thread::Threads;

/// A disk in memory, with hooks round each sync.
pub(crate) type Disk<'a> = Hooked<MemorySite, &'a Hold>;

/// What may happen in a life.
#[derive(Clone, Copy)]
pub(crate) enum Story {
    /// The queue is filled, and emptied by turns.
    Full,
    /// So many workers bring so many events each.
    Workers(Brings, u32, u64),
}

fn opened<'a, R: Abort + AllocGlobal>(
    rt: &R,
    site: MemorySite,
    hooks: &'a Hold,
) -> (Flusher<Disk<'a>>, Core)
    ensures { (result.0.failed ≡ None) × (result.0.owes ≡ false) × (result.1 ≡ result.0.twin.core) }
{
    match Flusher::open(rt.alloc(), Hooked { site, hooks }) {
        Ok(opened) => opened,
        Err(Back { site: _site, fault }) => panic!(rt; "the site isn't opened: {fault}"),
    }
}

/// Member 1 of 1, up to 32 of whose asks begin together, lives such a life: so many events were accepted, told, flushed and
/// not flushed.
pub(crate) fn live<R: Abort + AllocGlobal + Threads + Wait + Sync>(
    rt: &R,
    holding: Holding,
    story: Story,
    expected: [u64; 4],
) -> MemorySite {
    let hooks = Hold::new(holding);
    let opening = Opening {
        share: 32,
        ..MEMBER
    };
    let (engine, core) = opened(rt, begun(rt, 2048, &opening), &hooks);
    let finished = live_as::<Brand, R>(rt, engine, core, Blank::new(1 << 20), &hooks, story);
    let counts = [
        finished.accepted,
        finished.told,
        finished.flushed,
        finished.rest,
    ];
    let site = finished.site.site;
    assert!(rt;
        counts == expected,
        "what was accepted is told, and flushed or left"
    );
    site
}

fn live_as<'a, L: Life + Send + Sync, R: Abort + AllocGlobal + Threads + Wait + Sync>(
    rt: &R,
    engine: Flusher<Disk<'a>>,
    core: Core,
    blank: Blank,
    hooks: &'a Hold,
    story: Story,
) -> Finished<Disk<'a>>
    requires core { core ≡ L.opening.core }
    requires owes { engine.owes ≡ false }
    requires twin { engine.failed ≡ None → engine.twin ≡ L.opening }
    requires ledger { (blank.name ≡ L.name) × (blank.parts ≡ L.parts) × (L.parts ≡ share_limit) }
    requires reached { (look : ℕ) (list : List EntryValue) → L.reached look list }
    requires taken { (look : ℕ) (list : List EntryValue) → L.taken look list }
    requires accepted { (list : List EntryValue) → L.accepted list }
    requires flushed { (count : ℕ) → L.flushed count }
{
    let ends = lane::<L>(rt.alloc()).expect(rt, "a lane");
    live_at::<L, Brand, R>(rt, engine, core, blank, ends, hooks, story)
}

fn live_at<'a, L: Life + Send + Sync, Q: Lane + Send + Sync, R>(
    rt: &R,
    engine: Flusher<Disk<'a>>,
    core: Core,
    blank: Blank,
    ends: Ends<L>,
    hooks: &'a Hold,
    story: Story,
) -> Finished<Disk<'a>>
where
    R: Abort + AllocGlobal + Threads + Wait + Sync,
    requires core { core ≡ L.opening.core }
    requires owes { engine.owes ≡ false }
    requires twin { engine.failed ≡ None → engine.twin ≡ L.opening }
    requires ledger { (blank.name ≡ L.name) × (blank.parts ≡ L.parts) × (L.parts ≡ share_limit) }
    requires reached { (look : ℕ) (list : List EntryValue) → L.reached look list }
    requires taken { (look : ℕ) (list : List EntryValue) → L.taken look list }
    requires accepted { (list : List EntryValue) → L.accepted list }
    requires flushed { (count : ℕ) → L.flushed count }
    requires lane { ends ≡ Q.table }
{
    let (intake, mut turner, queue) = start::<_, L, Q>(engine, core, blank, ends);
    let lock = Mutex::new(intake);
    let mut shares = Vec::new(rt.alloc());
    play(rt, hooks, &lock, &mut turner, &queue, &mut shares, story);
    finish(rt, lock.into_inner(), shares, turner, queue)
}

// Plays a story, and hands in its shares.
fn play<L: Life + Send + Sync, Q: Lane + Send + Sync, R>(
    rt: &R,
    hooks: &Hold,
    lock: &Mutex<Intake<L, Q>>,
    turner: &mut Turner<Disk<'_>, L, Q>,
    queue: &Queue<L, Q>,
    shares: &mut Vec<Share<L>>,
    story: Story,
)
where
    R: Abort + AllocGlobal + Threads + Wait + Sync,
{
    match story {
        Story::Full => {
            let share = lock.lock(rt).share();
            let mut share = share.expect(rt, "a share");
            fill(rt, rt.alloc(), hooks, lock, turner, queue, &mut share);
            shares.push(share).expect(rt, "room");
        }
        Story::Workers(brings, count, last) => {
            labour_whole(
                rt,
                rt.alloc(),
                hooks,
                lock,
                turner,
                queue,
                shares,
                brings,
                count,
                last,
            );
        }
    }
}
