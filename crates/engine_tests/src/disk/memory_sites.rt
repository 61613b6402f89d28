//! A site in memory, and what a crash leaves of it.

use crate::refusals::unless_failed;
use crate::sites::{has, two_sides};
use cc_site::{Choice, Side, Site};
use std::process::Abort;

// Writes behind what is there, or over it.
fn put<R: Abort, S: Site>(rt: &R, site: &mut S, side: Side, place: u64, bytes: &[u8]) {
    let length = site.length(side).expect(rt, "a length");
    assert!(rt; place <= length, "the place is past the end");
    let written = site.write_at(side, place, bytes);
    let is_as_before = site.length(side) == Ok(length);
    unless_failed(rt, written, is_as_before);
}

// Of three bytes that are sure the middle one is written over, and two more are put behind them. Then side A takes three of the
// bytes, and side B the fourth.
#[test]
fn a_crash_lays_bytes_over_both_sides(rt: HostRuntime) {
    let mut site = two_sides(&rt, &[1, 2, 3], &[]);
    put(&rt, &mut site, Side::A, 1, &[9]);
    put(&rt, &mut site, Side::A, 3, &[4, 5]);
    put(&rt, &mut site, Side::B, 0, &[6, 6]);
    let choice = Choice::Bytes([7u8, 8, 9, 10].to_vec(rt.alloc()).expect(&rt, "bytes"));
    let mut image = site.image(rt.alloc(), &choice).expect(&rt, "an image");
    drop((site, choice));
    assert!(rt; has(&rt, &mut image, Side::A, &[1, 7, 3, 8, 9]));
    assert!(rt; has(&rt, &mut image, Side::B, &[10, 6]));
    drop(image);
}
