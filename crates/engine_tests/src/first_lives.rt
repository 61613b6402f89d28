//! A first life over a site in memory: an entrant is formatted, opened, and handed its Enter.

ghost use Rattle.std.specs.Prelude.{◌≤◌, length};
ghost use Rattle.cc_node.specs.Openings.{told, fresh};
ghost use Rattle.cc_journal.specs.Batches.{AreLawful};

use crate::parts::entry_of;
use crate::sites::{ENTRANT, empty};
use cc_checkpoint::OpenFault;
use cc_flush::{Back, Failed, FormatFault};
use cc_journal::Batch;
use cc_laws::{Stopped, live_once_in_memory};
use cc_messages::Event;
use cc_node::{Node, Opening};
use cc_site::{Call, DeviceFault, Failing, Side};
use std::process::Abort;
use std::test::*;

// The batch of an Enter of the node that begins so.
fn batch_of_enter<R: Abort + AllocGlobal>(rt: &R, opening: &Opening<'_>) -> Batch
    ensures lawful { AreLawful (fresh (told opening.now)) result }
    ensures some { 1 ≤ length result }
{
    let node = Node::fresh(rt.alloc(), opening).expect(rt, "a node");
    let entry = entry_of(rt, node.core(), Event::Enter);
    drop(node);
    Batch::of_one(entry)
}

// How many outputs a first life of entrant 4 with contact 1 puts, and where it stops. The disk call with that number fails, and
// all after it.
fn lived<R: Abort + AllocGlobal>(rt: &R, at: u64) -> (usize, Option<Stopped>) {
    let mut site = empty(rt, 8);
    site.fuse(at, Failing::Stop);
    let opening = ENTRANT;
    let batch = batch_of_enter(rt, &opening);
    let (site, stopped) = match live_once_in_memory(rt.alloc(), site, &opening, batch) {
        Ok(site) => (site, None),
        Err(Back { site, fault }) => (site, Some(fault)),
    };
    let put = site.outputs().len();
    drop(site);
    (put, stopped)
}

const fn device(side: Side, call: Call) -> DeviceFault {
    DeviceFault { side, call }
}

// The disk calls of formatting are 0 to 15, those of opening 16 to 29, and those of a batch 30 to 33. The first and the last of
// each fail, and one of each other kind.
#[test]
fn each_call_of_a_first_life_may_fail(rt: HostRuntime) {
    for &(at, fault) in &[
        (0, FormatFault::Device(device(Side::A, Call::Length))),
        (3, FormatFault::Device(device(Side::B, Call::Cut))),
        (10, FormatFault::Device(device(Side::A, Call::Write))),
        (15, FormatFault::Device(device(Side::A, Call::Sync))),
    ] {
        assert!(rt; lived(&rt, at) == (0, Some(Stopped::Format(fault))));
    }
    for &(at, fault) in &[
        (16, OpenFault::Device(device(Side::A, Call::Sync))),
        (17, OpenFault::Device(device(Side::B, Call::Sync))),
        (19, OpenFault::Device(device(Side::A, Call::Read))),
        (29, OpenFault::Device(device(Side::A, Call::Length))),
    ] {
        assert!(rt; lived(&rt, at) == (0, Some(Stopped::Open(fault))));
    }
    for &(at, call) in &[(30, Call::Write), (33, Call::Sync)] {
        let fault = device(Side::A, call);
        assert!(rt; lived(&rt, at) == (0, Some(Stopped::Commit(Failed { fault }))));
    }
    // There are no more calls. An Enter is put on both links.
    assert!(rt; lived(&rt, 34) == (2, None));
}
