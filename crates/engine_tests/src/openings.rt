//! What two sides are opened as, and what isn't formatted.

use crate::sites::{CLOSED, ENTRANT, Laid, empty, laid, with_laid};
use crate::steps::left_of;
use crate::versions::ENTRANT_STATE;
use cc_checkpoint::OpenFault;
use cc_flush::{Back, FormatFault, format};
use cc_node::Opening;
use cc_site::{Failing, MemorySite, Side};
use std::process::Abort;
use std::test::*;

// What stands before the state of entrant 4: an open gate, generation 1, version 2, and its 139 bytes.
const HEAD: [u8; 14] = [0xA5, 0, 0, 0, 0, 0, 0, 0, 1, 2, 0, 0, 0, 0x8B];

/// The gate behind that state, open, the record of one Enter, and the next gate.
pub const ENTERED: [u8; 12] = [0xA5, 0, 0, 0, 6, 1, 0, 0, 0, 1, 1, 0];

/// Entrant 4 once it has entered.
pub const ENTERED_ENTRANT: Laid = [&HEAD, &ENTRANT_STATE, &ENTERED];

const CLOSED_ENTRANT: Laid = [
    &[0, 0, 0, 0, 0, 0, 0, 0, 1, 2, 0, 0, 0, 0x8B],
    &ENTRANT_STATE,
    &[0],
];

/// An armed side with nothing behind its generation 4 that can be read.
pub const FOURTH: Laid = [&[0xA5, 0, 0, 0, 0, 0, 0, 0, 4], &[0xFF, 0xA5], &[]];

/// Entrant 4 under generation 5.
pub const FIFTH: Laid = [
    &[0xA5, 0, 0, 0, 0, 0, 0, 0, 5, 2, 0, 0, 0, 0x8B],
    &ENTRANT_STATE,
    &[0],
];

// Armed sides under generations 5 and 6, with nothing behind those that can be read.
const OTHER_FIFTH: Laid = [&[0xA5, 0, 0, 0, 0, 0, 0, 0, 5], &[0xFF, 0xA5], &[]];

const SIXTH: Laid = [&[0xA5, 0, 0, 0, 0, 0, 0, 0, 6], &[0xFF, 0xA5], &[]];

const EMPTY: Laid = [&[], &[], &[]];

// How many posts the node has made that is opened: an entrant as it begins, and once it has entered. Or that there is none.
type Left = Result<u64, OpenFault>;

const BEGUN: Left = Ok(0);

const HAS_ENTERED: Left = Ok(1);

const NOTHING: Left = Err(OpenFault::NotFormatted);

// What stands behind the state of entrant 4 on side A, and what is opened.
const TAILS: [(&[u8], Left); 5] = [
    (&ENTERED, HAS_ENTERED),
    // A gate that is closed.
    (&[0, 0, 0, 0, 6, 1, 0, 0, 0, 1, 1, 0], BEGUN),
    (&[0xFF, 0, 0, 0, 6, 1, 0, 0, 0, 1, 1, 0], BEGUN),
    (&[0, 0xA5, 0xFF, 0xA5, 1], BEGUN),
    // The length field of the record stands at 154.
    (&[0xA5, 0, 0, 1, 0], Err(OpenFault::Damaged(Side::A, 154))),
];

// What stands on side A, where side B is empty, and why it isn't opened: the generation, the version, the length of the
// state, the state, or a version that isn't known.
const FAULTS: [(&[u8], OpenFault); 7] = [
    (&[0xA5], OpenFault::Damaged(Side::A, 1)),
    (
        &[0xA5, 0, 0, 0, 0, 0, 0, 0, 0, 1],
        OpenFault::Damaged(Side::A, 1),
    ),
    (
        &[0xA5, 0, 0, 0, 0, 0, 0, 0, 1],
        OpenFault::Damaged(Side::A, 9),
    ),
    (
        &[0xA5, 0, 0, 0, 0, 0, 0, 0, 1, 1, 0, 0],
        OpenFault::Damaged(Side::A, 10),
    ),
    (
        &[0xA5, 0, 0, 0, 0, 0, 0, 0, 1, 1, 0, 0, 0, 2, 0],
        OpenFault::Damaged(Side::A, 10),
    ),
    (
        &[0xA5, 0, 0, 0, 0, 0, 0, 0, 1, 1, 0, 0, 0, 0, 0],
        OpenFault::Damaged(Side::A, 14),
    ),
    (
        &[0xA5, 0, 0, 0, 0, 0, 0, 0, 1, 7, 0, 0, 0, 0, 0],
        OpenFault::Version(7),
    ),
];

fn check_sides<R: Abort + AllocGlobal>(rt: &R, a: &[&[u8]], b: &[&[u8]], left: Left) {
    let site = with_laid(rt, a, b);
    assert!(rt; left_of(rt.alloc(), site) == left);
}

// No side is armed, one is, or both are.
#[test]
fn the_armed_side_of_the_greater_generation_is_opened(rt: HostRuntime) {
    check_sides(&rt, &EMPTY, &EMPTY, NOTHING);
    check_sides(&rt, &EMPTY, &CLOSED, NOTHING);
    check_sides(&rt, &CLOSED, &EMPTY, NOTHING);
    check_sides(&rt, &CLOSED_ENTRANT, &CLOSED, NOTHING);
    check_sides(&rt, &CLOSED, &ENTERED_ENTRANT, HAS_ENTERED);
    check_sides(&rt, &FOURTH, &FIFTH, BEGUN);
    let same = Err(OpenFault::Damaged(Side::B, 1));
    check_sides(&rt, &OTHER_FIFTH, &FIFTH, same);
    check_sides(&rt, &SIXTH, &FIFTH, Err(OpenFault::Version(0xFF)));
}

// Which place of the 165 bytes of entrant 4 with the record of one Enter is damaged, where the side has so many bytes or
// more, and fewer than so many.
const CUTS: [(usize, usize, u64); 6] = [
    // No generation, no version, and no length of the state, or one that goes past the end.
    (1, 9, 1),
    (9, 10, 9),
    (10, 153, 10),
    // No gate of the record, no length of the record or not all of it, and no gate behind it.
    (153, 154, 153),
    (154, 164, 154),
    (164, 165, 164),
];

// A record behind a closed gate isn't kept. The cuts are tried on either side.
#[test]
fn a_side_that_cannot_be_read_is_damaged(rt: HostRuntime) {
    for &(tail, left) in &TAILS {
        check_sides(&rt, &[&HEAD, &ENTRANT_STATE, tail], &CLOSED, left);
    }
    for &(a, fault) in &FAULTS {
        check_sides(&rt, &[a], &EMPTY, Err(fault));
    }
    let side = laid(&rt, &ENTERED_ENTRANT);
    for &(from, to, place) in &CUTS {
        for len in from..to {
            let cut = side.get(..len).expect(&rt, "so many bytes");
            check_sides(
                &rt,
                &[cut],
                &CLOSED,
                Err(OpenFault::Damaged(Side::A, place)),
            );
            check_sides(
                &rt,
                &CLOSED,
                &[cut],
                Err(OpenFault::Damaged(Side::B, place)),
            );
        }
    }
}

// Why a node isn't formatted on a site, if it isn't.
fn fault_of_format<R: Abort + AllocGlobal>(
    rt: &R,
    site: MemorySite,
    opening: &Opening<'_>,
) -> Option<FormatFault> {
    match format(rt.alloc(), site, opening) {
        Ok(site) => {
            drop(site);
            None
        }
        Err(Back { site, fault }) => {
            drop(site);
            Some(fault)
        }
    }
}

// What stands behind the state on sides that are armed: a gate that isn't closed behind one of any kind, or an event.
const ARMED: [&[u8]; 4] = [&[0, 0xA5], &[0xFF, 0xA5], &[0xA5, 0xA5], &ENTERED];

#[test]
fn no_armed_side_and_no_node_without_a_name_is_formatted(rt: HostRuntime) {
    for &tail in &ARMED {
        let site = with_laid(&rt, &[&HEAD, &ENTRANT_STATE, tail], &CLOSED);
        let fault = fault_of_format(&rt, site, &ENTRANT);
        assert!(rt; fault == Some(FormatFault::AlreadyFormatted));
    }
    let nameless = Opening { me: 0, ..ENTRANT };
    let fault = fault_of_format(&rt, empty(&rt, 0), &nameless);
    assert!(rt; fault == Some(FormatFault::BadOpening));
}

// A site whose formatting failed at that disk call, and at no other.
fn half_formatted<R: Abort + AllocGlobal>(rt: &R, at: u64) -> MemorySite {
    let mut site = empty(rt, 0);
    site.fuse(at, Failing::Once);
    match format(rt.alloc(), site, &ENTRANT) {
        Ok(site) => {
            drop(site);
            panic!(rt; "no disk call fails")
        }
        Err(Back { site, fault: _ }) => site,
    }
}

// Of the 16 disk calls only the last one, a sync, comes behind the open gate.
#[test]
fn formatting_may_be_tried_again_until_the_gate_is_open(rt: HostRuntime) {
    for at in 0..16 {
        let again = fault_of_format(&rt, half_formatted(&rt, at), &ENTRANT);
        let wanted = (at == 15).then_some(FormatFault::AlreadyFormatted);
        assert!(rt; again == wanted, "{at}");
    }
}
