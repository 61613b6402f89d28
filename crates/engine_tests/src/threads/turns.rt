//! Whole turns, and a queue that is full.

use crate::parts::id;
use crate::threads::held_sync::{Hold, Holding};
use crate::threads::lives::{Disk, Story, live};
use cc_intake::{Intake, Lane, Life, Queue, Share, Turned, Turner};
use cc_messages::{Event, Message, Refusal};
use cc_site::{Side, Site};
use std::alloc::Global;
use std::process::Abort;
use std::sync::atomic::Ordering;
use std::sync::{Mutex, Wait};
use std::test::*;

// Accepts the message that node 1 sent itself under that number: it heard that it joined. Its place, or why it is refused and
// after how many accepted ones.
fn hear<L: Life, Q: Lane, R: Wait>(
    rt: &R,
    alloc: Global,
    lock: &Mutex<Intake<L, Q>>,
    queue: &Queue<L, Q>,
    share: &mut Share<L>,
    number: u64,
) -> Result<u64, (Refusal, u64)> {
    let event = Event::Deliver {
        from: id(1),
        number,
        message: Message::JoinEcho { node: id(1) },
    };
    let answer = lock.lock(rt).accept(rt, alloc, share, queue, &event);
    drop(event);
    match answer {
        Ok(accepted) => Ok(accepted.place),
        Err(refused) => Err((refused.why, refused.accepted)),
    }
}

// How many events a turn took. None where it fails or there is no room.
fn taken<L: Life, Q: Lane, R: Wait>(
    rt: &R,
    turner: &mut Turner<Disk<'_>, L, Q>,
    queue: &Queue<L, Q>,
) -> Option<usize> {
    match turner.turn(rt, queue) {
        Ok(
            Turned {
                events,
                full: false,
            },
        ) => Some(events),
        _ => None,
    }
}

/// The queue takes 256 events, and another one after a turn. The core's reason comes before that of the queue. Turns take all
/// of them, a checkpoint is made, and one more event is left in the queue.
pub(crate) fn fill<L: Life, Q: Lane, R: Abort + Wait>(
    rt: &R,
    alloc: Global,
    hooks: &Hold,
    lock: &Mutex<Intake<L, Q>>,
    turner: &mut Turner<Disk<'_>, L, Q>,
    queue: &Queue<L, Q>,
    share: &mut Share<L>,
) {
    for number in 1..257 {
        assert!(rt; hear(rt, alloc, lock, queue, share, number) == Ok(number));
    }
    let old = hear(rt, alloc, lock, queue, share, 256);
    let full = hear(rt, alloc, lock, queue, share, 257);
    assert!(rt; old == Err((Refusal::Old(256), 256)));
    assert!(rt; full == Err((Refusal::QueueFull, 256)));
    let before = hooks.syncs.load(Ordering::SeqCst);
    assert!(rt;
        taken(rt, turner, queue) == Some(64),
        "a turn takes a whole batch"
    );
    assert!(rt; hear(rt, alloc, lock, queue, share, 257) == Ok(257));
    for events in [64, 64, 64, 1, 0] {
        let turned = taken(rt, turner, queue);
        assert!(rt; turned == Some(events), "a turn takes a whole batch");
    }
    let syncs = hooks.syncs.load(Ordering::SeqCst).wrapping_sub(before);
    assert!(rt; syncs == 10, "five batches take ten syncs");
    assert!(rt; turner.checkpoint() == Ok(()), "a checkpoint is made");
    assert!(rt; hear(rt, alloc, lock, queue, share, 258) == Ok(258));
    assert!(rt; share.count() == 258, "each event is counted");
}

// Behind the checkpoint side B is in use, and side A is one closed byte.
#[test]
fn a_full_queue_refuses_until_a_turn(rt: HostRuntime) {
    let expected = [258, 258, 257, 1];
    let mut site = live(&rt, Holding::Nothing, Story::Full, expected);
    assert!(rt; site.outputs().len() == 257, "257 events are acknowledged");
    assert!(rt; site.length(Side::A) == Ok(1), "side A is closed");
    drop(site);
}
