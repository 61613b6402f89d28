//! What formatting, a batch and a checkpoint leave on the sides, byte by byte.

use crate::openings::{ENTERED_ENTRANT, FIFTH, FOURTH};
use crate::parts::Part;
use crate::sites::{CLOSED, ENTRANT, Laid, MEMBER, begun, has, laid, with_laid};
use crate::steps::{Came, Step, run};
use crate::versions::{ENTRANT_STATE, FIRST_MEMBER_SIDE, FIRST_SIDE, MEMBER_STATE, SECOND_SIDE};
use cc_flush::CheckpointFault;
use cc_site::{MemorySite, Side};
use std::process::Abort;
use std::test::*;

// Entrant 4 as it begins: an open gate, generation 1, version 2, the length of the state, the state, and a closed gate.
const BEGUN_ENTRANT: Laid = [
    &[0xA5, 0, 0, 0, 0, 0, 0, 0, 1, 2, 0, 0, 0, 0x8B],
    &ENTRANT_STATE,
    &[0],
];

// The same under generation 6.
const SIXTH: Laid = [
    &[0xA5, 0, 0, 0, 0, 0, 0, 0, 6, 2, 0, 0, 0, 0x8B],
    &ENTRANT_STATE,
    &[0],
];

// Member 1 of 1 as it begins, and under generations 2 and 3.
const BEGUN_MEMBER: Laid = [
    &[0xA5, 0, 0, 0, 0, 0, 0, 0, 1, 2, 0, 0, 0, 0x77],
    &MEMBER_STATE,
    &[0],
];

const SECOND_MEMBER: Laid = [
    &[0xA5, 0, 0, 0, 0, 0, 0, 0, 2, 2, 0, 0, 0, 0x77],
    &MEMBER_STATE,
    &[0],
];

const THIRD_MEMBER: Laid = [
    &[0xA5, 0, 0, 0, 0, 0, 0, 0, 3, 2, 0, 0, 0, 0x77],
    &MEMBER_STATE,
    &[0],
];

// The same under the last generation and the one before it.
const LAST_MEMBER: Laid = [
    &[0xA5, 0x40, 0, 0, 0, 0, 0, 0, 0, 2, 0, 0, 0, 0x77],
    &MEMBER_STATE,
    &[0],
];

const LAST_MEMBER_BUT_ONE: Laid = [
    &[
        0xA5, 0x3F, 0xFF, 0xFF, 0xFF, 0xFF, 0xFF, 0xFF, 0xFF, 2, 0, 0, 0, 0x77,
    ],
    &MEMBER_STATE,
    &[0],
];

// Entrant 4 once it has entered and left in one batch: one record of both events behind the open gate, and a closed gate.
const GONE_ENTRANT: Laid = [
    &[0xA5, 0, 0, 0, 0, 0, 0, 0, 1, 2, 0, 0, 0, 0x8B],
    &ENTRANT_STATE,
    &[0xA5, 0, 0, 0, 11, 2, 0, 0, 0, 1, 1, 0, 0, 0, 1, 2, 0],
];

// Member 1 of 1, and behind its state an open gate, a record of one event, Share 8, and a closed gate.
const TOLD_EIGHT: Laid = [
    &[0xA5, 0, 0, 0, 0, 0, 0, 0, 1, 2, 0, 0, 0, 0x77],
    &MEMBER_STATE,
    &[0xA5, 0, 0, 0, 7, 1, 0, 0, 0, 2, 0x23, 8, 0],
];

// The state of that node in version 32.
const SHARED_STATE: [u8; 121] = [
    // Node 1, and beta and gamma, 4/5 each.
    0, 0, 0, 1, 0, 0, 0, 4, 0, 0, 0, 5, 0, 0, 0, 4, 0, 0, 0, 5,
    // Node 1 has entered and joined, nobody left, and the view is empty.
    0, 1, 0, 0, 0, 1, 0, 1, 0, 0, 0, 1, 0, 0, 0, 0,
    // The own value, which was never written, the tag, no echoes and no need of entering, and Idle.
    0, 0, 0, 0, 0, 0, 0, 0, 0, 0, 0, 0, 0, 0, 0, 0, 0, 0, 0, 0, 0, 0, 0, 0, 0, 0, 0, 0, 0, 0, 0, 0,
    0, 0, 0, 0, 0, 0,
    // Up to 8 asks begin together, no others are pending, and none waits.
    8, 0, 0,
    // No post was made.
    0, 0, 0, 0, 0, 0, 0, 0,
    // The link to itself, from the start.
    0, 1, 0, 0, 0, 1, 0, 0, 0, 0, 0, 0, 0, 0, 0, 0, 0, 0, 0, 0, 0, 0, 0, 0, 0, 0, 0, 0, 0, 0,
    // No sessions, no kept posts and no kept answers.
    0, 0, 0, 0, 0, 0,
];

// The same under generation 2.
const SHARED: Laid = [
    &[0xA5, 0, 0, 0, 0, 0, 0, 0, 2, 32, 0, 0, 0, 0x79],
    &SHARED_STATE,
    &[0],
];

// Whether this stands on side A and on side B of a site.
fn are_sides<R: Abort + AllocGlobal>(rt: &R, site: MemorySite, a: &Laid, b: &Laid) -> bool {
    let mut site = site;
    let is_a = has(rt, &mut site, Side::A, &laid(rt, a));
    let is_b = has(rt, &mut site, Side::B, &laid(rt, b));
    drop(site);
    is_a && is_b
}

#[test]
fn an_entrant_and_a_member_are_formatted(rt: HostRuntime) {
    let of_entrant = are_sides(&rt, begun(&rt, 0, &ENTRANT), &BEGUN_ENTRANT, &CLOSED);
    let of_member = are_sides(&rt, begun(&rt, 0, &MEMBER), &BEGUN_MEMBER, &CLOSED);
    assert!(rt; (of_entrant, of_member) == (true, true));
}

// Checks what steps come to where this stands on the sides, and that they leave that.
fn check_steps<R: Abort + AllocGlobal>(
    rt: &R,
    from: (&Laid, &Laid),
    steps: &[Step],
    came: Came,
    to: (&Laid, &Laid),
) {
    let (a, b) = from;
    let site = with_laid(rt, a, b);
    let (site, found) = run(rt, site, steps);
    let (a, b) = to;
    let are_sides = are_sides(rt, site, a, b);
    assert!(rt; (found, are_sides) == (came, true));
}

const ENTER: Step = Step::Turn(Part::Enter);

const VISIT: Step = Step::Turn(Part::Visit);

const SHARE_EIGHT: Step = Step::Turn(Part::Share(8));

const SHARE_ONE: Step = Step::Turn(Part::Share(1));

// A record stands behind its open gate, whether it has one event or two.
#[test]
fn a_batch_is_a_record(rt: HostRuntime) {
    let entered = (&ENTERED_ENTRANT, &CLOSED);
    let gone = (&GONE_ENTRANT, &CLOSED);
    let told = (&TOLD_EIGHT, &CLOSED);
    check_steps(&rt, (&BEGUN_ENTRANT, &CLOSED), &[ENTER], Ok(0), entered);
    check_steps(&rt, (&BEGUN_ENTRANT, &CLOSED), &[VISIT], Ok(0), gone);
    check_steps(&rt, (&BEGUN_MEMBER, &CLOSED), &[SHARE_EIGHT], Ok(0), told);
}

// What version 1 laid out is moved to version 2, and the version follows the share. A checkpoint goes over a side that is armed
// too, under a lower generation. The last generation is reached, and under it nothing is changed.
#[test]
fn a_checkpoint_changes_sides(rt: HostRuntime) {
    let once = [Step::Checkpoint];
    let twice = [Step::Checkpoint, SHARE_ONE, Step::Checkpoint];
    let second = (&CLOSED, &SECOND_MEMBER);
    let last = (&CLOSED, &LAST_MEMBER);
    let spent = Err(CheckpointFault::Spent);
    check_steps(&rt, (&BEGUN_MEMBER, &CLOSED), &once, Ok(0), second);
    check_steps(&rt, (&FIRST_MEMBER_SIDE, &CLOSED), &once, Ok(0), second);
    check_steps(
        &rt,
        (&FIRST_SIDE, &CLOSED),
        &once,
        Ok(0),
        (&CLOSED, &SECOND_SIDE),
    );
    check_steps(
        &rt,
        (&TOLD_EIGHT, &CLOSED),
        &once,
        Ok(0),
        (&CLOSED, &SHARED),
    );
    check_steps(
        &rt,
        (&TOLD_EIGHT, &CLOSED),
        &twice,
        Ok(0),
        (&THIRD_MEMBER, &CLOSED),
    );
    check_steps(&rt, (&FOURTH, &FIFTH), &once, Ok(0), (&SIXTH, &CLOSED));
    check_steps(&rt, (&LAST_MEMBER_BUT_ONE, &CLOSED), &once, Ok(0), last);
    check_steps(&rt, last, &once, spent, last);
}
