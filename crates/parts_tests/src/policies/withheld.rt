//! Which posts a peer is told of, and when.

use cc_policies::{Due, Withheld};
use std::process::Abort;

// What is to be written: the first and the last number of those that are skipped, and whether the post is.
fn told(due: Due) -> (Option<(u64, u64)>, bool) {
    let skip = match due.skip {
        Some(range) => Some((range.first(), range.last())),
        None => None,
    };
    (skip, due.has_post)
}

// The posts of these numbers are for others, and nothing is to be written.
fn withhold<R: Abort>(rt: &R, withheld: &mut Withheld, first: u64, last: u64) {
    for number in first..=last {
        let due = told(withheld.put(number.max(1), false));
        assert!(rt; due == (None, false), "number {number}");
    }
}

// The numbers go out with the next post for the peer, and 64 of them at once. One that isn't the next begins a run.
#[test]
fn what_is_for_others_is_told_with_the_next_post(rt: HostRuntime) {
    let mut withheld = Withheld::new();
    assert!(rt; told(withheld.put(1, true)) == (None, true));
    withhold(&rt, &mut withheld, 2, 4);
    assert!(rt; told(withheld.put(5, true)) == (Some((2, 4)), true));
    withhold(&rt, &mut withheld, 10, 72);
    assert!(rt; told(withheld.put(73, false)) == (Some((10, 73)), false));
    withhold(&rt, &mut withheld, 74, 76);
    assert!(rt; told(withheld.put(74, false)) == (Some((74, 76)), false));
    assert!(rt; withheld.len() == 1);
    drop(withheld);
}
