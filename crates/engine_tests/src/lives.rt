//! Lives in a row, each of which begins with what a crash left of the one before.

use crate::parts::Part;
use crate::sites::{MEMBER, begun};
use crate::steps::{CRASHES, Step, carry_out, engine};
use cc_flush::Flusher;
use cc_site::{Failing, MemorySite};
use std::process::Abort;
use std::test::*;

// How many sessions the node of an engine knows.
fn sessions(flusher: &Flusher<MemorySite>) -> u64 {
    flusher.twin().core().sessions().rows().len() as u64
}

// One session after the other asks, and behind each third one is a checkpoint, until a disk call fails. How many asks were
// durable by then, and how many were begun.
fn live<R: Abort + AllocGlobal>(rt: &R, flusher: &mut Flusher<MemorySite>) -> (u64, u64) {
    let from = sessions(flusher);
    for asked in from..100 {
        let next = asked.saturating_add(1);
        if carry_out(rt, flusher, Step::Turn(Part::Flag(next))).is_err() {
            return (asked, next);
        }
        if next % 3 == 0 && carry_out(rt, flusher, Step::Checkpoint).is_err() {
            return (next, next);
        }
    }
    panic!(rt; "no disk call fails")
}

// The disk calls at which two lives end for each kind of crash, counted from their opening on.
const ENDS: [u64; 2] = [31, 46];

// The first ask is pending, and 32 may wait behind it.
#[test]
fn what_was_durable_stands_in_all_later_lives(rt: HostRuntime) {
    let mut site = begun(&rt, 64, &MEMBER);
    let mut durable = 0;
    let mut taken = 0;
    for choice in CRASHES.iter() {
        for &end in &ENDS {
            let mut image = site.image(rt.alloc(), choice).expect(&rt, "an image");
            image.fuse(end, Failing::Stop);
            let mut flusher = engine(&rt, image);
            let left = sessions(&flusher);
            assert!(rt; durable <= left && left <= taken);
            let lived = live(&rt, &mut flusher);
            durable = lived.0;
            taken = lived.1;
            site = flusher.close();
        }
    }
    drop(site);
    assert!(rt; durable >= 20);
}
