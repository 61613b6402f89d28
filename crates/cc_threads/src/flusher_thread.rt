//! The flusher's thread.

ghost use Rattle.std.specs.Prelude.{◌↔◌, length, IsTrue};
ghost use Rattle.cc_flush.specs.Engine.{held_of};
ghost use Rattle.cc_threads.specs.Checkpoints.{IsCheckpointDue};

use crate::absent_peers::{Looks, look, tell_withheld};
use crate::shown_state::{Tally, pass_second};
use crate::turns::{CountedTurner, Turns};
use cc_channels::{Admission, Note, Shared, millis};
use cc_flush::{CheckpointFault, Failed, Flusher};
use cc_intake::{Lane, Life, OfLife, Turner};
use cc_journal::Batch;
use cc_messages::Event;
use cc_policies::{CHECKPOINT_BYTES, CHECKPOINT_GROWTH_BYTES};
use cc_site::Site;
use cc_status::Board;
use crossbeam_utils::sync::Parker;
use std::alloc::Global;
use std::sync::Wait;
use std::time::Clock;

// How many wishes of either kind are granted between two turns at most.
const MOST_WISHES: u64 = 64;

/// What the flusher looks at.
#[derive(Drop)]
pub struct Watch<'x> {
    pub alloc: Global,
    pub parker: Parker,
    pub shared: &'x Shared,
    /// Where it lays out what the node shows, if anybody may look.
    pub board: Option<&'x Board>,
}

// What the flusher remembers from one time that it was woken to the next.
#[derive(Drop)]
struct Seen {
    looks: Looks,
    // How many bytes the side in use held when it was begun, and how many events had been flushed then.
    begun: u64,
    flushed: u64,
}

/// Takes a turn each time that it is woken, and more where one batch didn't take all that waited, until nothing is left after `done`
/// was set. What nobody woke it for waits for the next turn. At its start it sends itself what earlier lives left unacknowledged, and
/// each peer as soon as that is connected to. After each turn it writes to the peers and looks what lapses, and at each tick how the
/// peers stand. While it does so no worker takes a turn.
pub fn flush_all<S: Site, L: Life, Q: Lane, R: Wait + Clock>(
    turns: &Turns<'_, S, L, Q, R>,
    watch: &Watch<'_>,
) -> Result<(), Failed> {
    let mut seen = begin(turns, watch)?;
    for _ in turns.rt.forever() {
        let is_done = watch.shared.done.is_set();
        if pass(turns, watch, &mut seen)? {
            continue;
        }
        if is_done {
            return Ok(());
        }
        watch.parker.park(turns.rt);
    }
    unreachable!()
}

// Sends itself what earlier lives left. The node was opened by being written anew, so the side in use holds its state alone.
fn begin<S: Site, L: Life, Q: Lane, R: Wait>(
    turns: &Turns<'_, S, L, Q, R>,
    watch: &Watch<'_>,
) -> Result<Seen, Failed> {
    let mut guard = turns.engine.lock(turns.rt);
    let engine = &mut *guard;
    send_kept(turns.rt, &mut engine.turner, watch)?;
    Ok(Seen {
        looks: Looks::new(),
        begun: engine.turner.engine().held(),
        flushed: engine.turner.handed(),
    })
}

// Does once what the flusher is woken for. Whether more may be left.
fn pass<S: Site, L: Life, Q: Lane, R: Wait + Clock>(
    turns: &Turns<'_, S, L, Q, R>,
    watch: &Watch<'_>,
    seen: &mut Seen,
) -> Result<bool, Failed> {
    let mut guard = turns.engine.lock(turns.rt);
    pass_over(turns, watch, seen, &mut guard)
}

fn pass_over<S: Site, L: Life, Q: Lane, R: Wait + Clock>(
    turns: &Turns<'_, S, L, Q, R>,
    watch: &Watch<'_>,
    seen: &mut Seen,
    engine: &mut CountedTurner<S, L, Q>,
) -> Result<bool, Failed> {
    let (rt, shared) = (turns.rt, watch.shared);
    if shared.waker.take_connected() {
        send_kept(rt, &mut engine.turner, watch)?;
    }
    let events = turns.turn(engine)?;
    let is_wished = grant_all(rt, &mut engine.turner, turns.admission, shared)?;
    let is_tick = shared.ticked.take();
    if is_tick {
        tick(rt, watch, seen, engine)?;
    }
    let core = engine.turner.engine().twin().core();
    look(rt, core, shared, &mut seen.looks, is_tick);
    shared.channels.write(rt, core.me());
    Ok(events >= Batch::MAX_ENTRIES as u64 || engine.turner.keeps_one() || is_wished)
}

// A second has passed.
fn tick<S: Site, L: Life, Q: Lane, R: Wait + Clock>(
    rt: &R,
    watch: &Watch<'_>,
    seen: &mut Seen,
    engine: &mut CountedTurner<S, L, Q>,
) -> Result<(), Failed> {
    watch.shared.channels.mute(rt);
    resend(rt, &mut engine.turner, watch)?;
    move_if_due(rt, watch.shared, seen, engine)?;
    show(rt, engine.turner.engine(), watch, &mut engine.tally);
    enter(rt, &engine.turner, watch.shared);
    Ok(())
}

// Sends again what wasn't acknowledged, to the peers that were connected to since the last call: who lacks a post refuses each
// later one.
fn send_kept<S: Site, L: Life, Q: Lane, R: Wait>(
    rt: &R,
    turner: &mut Turner<S, L, Q>,
    watch: &Watch<'_>,
) -> Result<(), Failed> {
    watch.shared.channels.mute_all_but_new();
    resend(rt, turner, watch)
}

// Sends again what wasn't acknowledged, and tells what is withheld: to the peers whose channel isn't muted, and to the node itself
// unless something waits for it.
fn resend<S: Site, L: Life, Q: Lane, R: Wait>(
    rt: &R,
    turner: &mut Turner<S, L, Q>,
    watch: &Watch<'_>,
) -> Result<(), Failed> {
    let shared = watch.shared;
    shared.own.mute();
    let resent = turner.resend();
    tell_withheld(rt, watch.alloc, turner.engine().twin().core(), shared);
    shared.own.unmute();
    shared.channels.unmute();
    resent?;
    Ok(())
}

// A second has passed for the node of an engine.
fn show<S: Site, R: Wait>(rt: &R, engine: &Flusher<S>, watch: &Watch<'_>, tally: &mut Tally) {
    let disk = tally.disk(engine.side(), engine.generation(), engine.held());
    pass_second(rt, engine.twin(), disk, tally, watch);
}

// Has the node enter, once more where it was refused for want of memory.
fn enter<S: Site, L: Life, Q: Lane, R: Wait>(rt: &R, turner: &Turner<S, L, Q>, shared: &Shared) {
    let core = turner.engine().twin().core();
    if !core.churn().has_entered(core.me()) {
        shared.own.put(rt, Event::Enter);
    }
}

// Grants wishes that wait, and tells who waits for that. Whether there may be more.
fn grant_all<S: Site, L: Life, Q: Lane, R: Wait>(
    rt: &R,
    turner: &mut Turner<S, L, Q>,
    admission: &Admission<OfLife<L>>,
    shared: &Shared,
) -> Result<bool, Failed> {
    let made = shared.grants.made();
    let is_wished = grant(rt, turner, shared)?;
    if !is_wished && shared.grants.grant(made) {
        admission.granted(rt);
    }
    Ok(is_wished)
}

// Grants wishes that wait. Whether there may be more.
fn grant<S: Site, L: Life, Q: Lane, R: Wait>(
    rt: &R,
    turner: &mut Turner<S, L, Q>,
    shared: &Shared,
) -> Result<bool, Failed> {
    for _ in 0..MOST_WISHES {
        let peer = shared.wishes.lock(rt).next_peer();
        let session = shared.wishes.lock(rt).next_session();
        if peer.is_none() && session.is_none() {
            return Ok(false);
        }
        if let Some(peer) = peer {
            turner.reack(peer)?;
        }
        if let Some(session) = session {
            turner.again(session)?;
        }
    }
    Ok(true)
}

// Whether a checkpoint is due, where the side in use began with so many bytes, and after so many events. How long the side is
// doesn't tell: that rises by strides.
fn is_checkpoint_due<S: Site, L: Life, Q: Lane>(
    turner: &Turner<S, L, Q>,
    begun: u64,
    flushed: u64,
) -> bool
    ensures { IsTrue result ↔ IsCheckpointDue begun flushed (held_of turner.now.engine) (length turner.now.handed) }
{
    let held = turner.engine().held();
    turner.handed() > flushed
        && held > CHECKPOINT_BYTES
        && held.saturating_sub(begun) > CHECKPOINT_GROWTH_BYTES
}

// Moves to the other side where a checkpoint is due. From then on, or where it never can again, it waits for further events.
fn move_if_due<S: Site, L: Life, Q: Lane, R: Wait + Clock>(
    rt: &R,
    shared: &Shared,
    seen: &mut Seen,
    engine: &mut CountedTurner<S, L, Q>,
) -> Result<(), Failed> {
    let turner = &mut engine.turner;
    if !is_checkpoint_due(turner, seen.begun, seen.flushed) {
        return Ok(());
    }
    let start = millis(rt);
    let moved = turner.checkpoint();
    seen.begun = turner.engine().held();
    seen.flushed = turner.handed();
    match moved {
        Ok(()) => {
            engine.tally.move_over();
            let millis = millis(rt).saturating_sub(start);
            let bytes = seen.begun;
            shared.notes.put(rt, Note::Moved { bytes, millis });
            Ok(())
        }
        Err(CheckpointFault::Spent) => Ok(()),
        Err(CheckpointFault::Failed(failed)) => Err(failed),
    }
}
