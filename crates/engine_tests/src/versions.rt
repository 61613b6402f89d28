//! Nodes that version 1 laid out go on in version 2.

use crate::openings::ENTERED;
use crate::sites::{CLOSED, Laid, with_laid};
use crate::steps::state_of;
use std::test::*;

// Side A of member 1 of 1 in version 1, after a store and the ask of a collect, with a record behind the state.
const FIRST: [u8; 269] = [
    // An open gate, generation 1, version 1, and the length of the state.
    0xA5, 0, 0, 0, 0, 0, 0, 0, 1, 1, 0, 0, 0, 0xDA,
    // Node 1, and beta and gamma, 4/5 each.
    0, 0, 0, 1, 0, 0, 0, 4, 0, 0, 0, 5, 0, 0, 0, 4, 0, 0, 0, 5,
    // Node 1 has entered and joined, and nobody left.
    0, 1, 0, 0, 0, 1, 0, 1, 0, 0, 0, 1, 0, 0,
    // The view, and the own value: the first, `a`.
    0, 1, 0, 0, 0, 1, 0, 0, 0, 0, 0, 0, 0, 1, 1, 0x61, 0, 0, 0, 0, 0, 0, 0, 0, 0, 0, 0, 0, 0, 0, 0,
    0, 0, 1, 1, 0x61, 0, 0, 0, 0, 0, 0, 0, 0, 0, 0,
    // The tag; no echoes and no need of entering.
    0, 0, 0, 0, 0, 0, 0, 2, 0, 0, 0, 0, 0, 0, 0, 0, 0, 0,
    // A collect of session 8, its first request, needs one reply and has none.
    2, 0, 0, 0, 0, 0, 0, 0, 8, 0, 0, 0, 0, 0, 0, 0, 1, 2, 0, 1, 0, 0,
    // How many posts were made.
    0, 0, 0, 0, 0, 0, 0, 3,
    // The link to itself: from the start, two posts acknowledged, and so many heard.
    0, 1, 0, 0, 0, 1, 0, 0, 0, 0, 0, 0, 0, 0, 0, 0, 0, 0, 0, 0, 0, 2, 0, 0, 0, 0, 0, 0, 0, 2,
    // Sessions 7 and 8, each with one request.
    0, 2, 0, 0, 0, 0, 0, 0, 0, 7, 0, 0, 0, 0, 0, 0, 0, 1, 0, 0, 0, 0, 0, 0, 0, 8, 0, 0, 0, 0, 0, 0,
    0, 1,
    // The kept posts: the query.
    0, 1, 7, 0, 0, 0, 0, 0, 0, 0, 2, 0, 0, 0, 1,
    // The kept answer of session 7: Stored.
    0, 1, 0, 0, 0, 0, 0, 0, 0, 7, 1,
    // An open gate, a record of one event, by which the query comes to node 1 as post 3, and a closed gate.
    0xA5, 0, 0, 0, 0x1F, 1, 0, 0, 0, 0x1A, 3, 0, 0, 0, 1, 0, 0, 0, 0, 0, 0, 0, 3, 7, 0, 0, 0, 0, 0,
    0, 0, 2, 0, 0, 0, 1, 0,
];

// The state of that node in version 2, after the record: 258 bytes.
const SECOND: [u8; 258] = [
    // Node 1, and beta and gamma, 4/5 each.
    0, 0, 0, 1, 0, 0, 0, 4, 0, 0, 0, 5, 0, 0, 0, 4, 0, 0, 0, 5,
    // Node 1 has entered and joined, and nobody left.
    0, 1, 0, 0, 0, 1, 0, 1, 0, 0, 0, 1, 0, 0,
    // The view, and the own value: the first, `a`.
    0, 1, 0, 0, 0, 1, 0, 0, 0, 0, 0, 0, 0, 1, 1, 0x61, 0, 0, 0, 0, 0, 0, 0, 0, 0, 0, 0, 0, 0, 0, 0,
    0, 0, 1, 1, 0x61, 0, 0, 0, 0, 0, 0, 0, 0, 0, 0,
    // The tag; no echoes and no need of entering.
    0, 0, 0, 0, 0, 0, 0, 2, 0, 0, 0, 0, 0, 0, 0, 0, 0, 0,
    // A collect of session 8, its first request, needs one reply and has none.
    2, 0, 0, 0, 0, 0, 0, 0, 8, 0, 0, 0, 0, 0, 0, 0, 1, 2, 0, 1, 0, 0,
    // No ask waits.
    0,
    // How many posts were made.
    0, 0, 0, 0, 0, 0, 0, 4,
    // The link to itself: from the start, two posts acknowledged, and so many heard.
    0, 1, 0, 0, 0, 1, 0, 0, 0, 0, 0, 0, 0, 0, 0, 0, 0, 0, 0, 0, 0, 2, 0, 0, 0, 0, 0, 0, 0, 3,
    // Sessions 7 and 8, each with one request.
    0, 2, 0, 0, 0, 0, 0, 0, 0, 7, 0, 0, 0, 0, 0, 0, 0, 1, 0, 0, 0, 0, 0, 0, 0, 8, 0, 0, 0, 0, 0, 0,
    0, 1,
    // The kept posts: the query, and the reply to it.
    0, 2, 7, 0, 0, 0, 0, 0, 0, 0, 2, 0, 0, 0, 1, 8, 0, 1, 0, 0, 0, 1, 0, 0, 0, 0, 0, 0, 0, 1, 1,
    0x61, 0, 0, 0, 0, 0, 0, 0, 0, 0, 0, 0, 0, 0, 0, 0, 0, 0, 2, 0, 0, 0, 1,
    // The kept answer of session 7: Stored.
    0, 1, 0, 0, 0, 0, 0, 0, 0, 7, 1,
];

// What stands before the first gate on side A of entrant 4 with contact 1 in version 1, as it begins.
const FIRST_ENTRANT: [u8; 152] = [
    // An open gate, generation 1, version 1, and the length of the state.
    0xA5, 0, 0, 0, 0, 0, 0, 0, 1, 1, 0, 0, 0, 0x8A,
    // Node 4, and beta and gamma, 4/5 each.
    0, 0, 0, 4, 0, 0, 0, 4, 0, 0, 0, 5, 0, 0, 0, 4, 0, 0, 0, 5,
    // Nobody entered, joined or left, and the view is empty.
    0, 0, 0, 0, 0, 0, 0, 0,
    // The own value, which was never written, the tag, no echoes and no need of entering, and Idle.
    0, 0, 0, 0, 0, 0, 0, 0, 0, 0, 0, 0, 0, 0, 0, 0, 0, 0, 0, 0, 0, 0, 0, 0, 0, 0, 0, 0, 0, 0, 0, 0,
    0, 0, 0, 0, 0, 0,
    // No post was made.
    0, 0, 0, 0, 0, 0, 0, 0,
    // Links to node 1 and to itself, both from the start.
    0, 2, 0, 0, 0, 1, 0, 0, 0, 0, 0, 0, 0, 0, 0, 0, 0, 0, 0, 0, 0, 0, 0, 0, 0, 0, 0, 0, 0, 0, 0, 0,
    0, 4, 0, 0, 0, 0, 0, 0, 0, 0, 0, 0, 0, 0, 0, 0, 0, 0, 0, 0, 0, 0, 0, 0, 0, 0,
    // No sessions, no kept posts and no kept answers.
    0, 0, 0, 0, 0, 0,
];

/// The state of that node in version 2.
pub const ENTRANT_STATE: [u8; 139] = [
    // Node 4, and beta and gamma, 4/5 each.
    0, 0, 0, 4, 0, 0, 0, 4, 0, 0, 0, 5, 0, 0, 0, 4, 0, 0, 0, 5,
    // Nobody entered, joined or left, and the view is empty.
    0, 0, 0, 0, 0, 0, 0, 0,
    // The own value, which was never written, the tag, no echoes and no need of entering, and Idle.
    0, 0, 0, 0, 0, 0, 0, 0, 0, 0, 0, 0, 0, 0, 0, 0, 0, 0, 0, 0, 0, 0, 0, 0, 0, 0, 0, 0, 0, 0, 0, 0,
    0, 0, 0, 0, 0, 0,
    // No ask waits.
    0,
    // No post was made.
    0, 0, 0, 0, 0, 0, 0, 0,
    // Links to node 1 and to itself, both from the start.
    0, 2, 0, 0, 0, 1, 0, 0, 0, 0, 0, 0, 0, 0, 0, 0, 0, 0, 0, 0, 0, 0, 0, 0, 0, 0, 0, 0, 0, 0, 0, 0,
    0, 4, 0, 0, 0, 0, 0, 0, 0, 0, 0, 0, 0, 0, 0, 0, 0, 0, 0, 0, 0, 0, 0, 0, 0, 0,
    // No sessions, no kept posts and no kept answers.
    0, 0, 0, 0, 0, 0,
];

// The same once it has entered.
const ENTERED_STATE: [u8; 148] = [
    // Node 4, and beta and gamma, 4/5 each.
    0, 0, 0, 4, 0, 0, 0, 4, 0, 0, 0, 5, 0, 0, 0, 4, 0, 0, 0, 5,
    // Node 4 has entered, nobody joined or left, and the view is empty.
    0, 1, 0, 0, 0, 4, 0, 0, 0, 0, 0, 0,
    // The own value, which was never written, the tag, no echoes and no need of entering, and Idle.
    0, 0, 0, 0, 0, 0, 0, 0, 0, 0, 0, 0, 0, 0, 0, 0, 0, 0, 0, 0, 0, 0, 0, 0, 0, 0, 0, 0, 0, 0, 0, 0,
    0, 0, 0, 0, 0, 0,
    // No ask waits.
    0,
    // One post was made.
    0, 0, 0, 0, 0, 0, 0, 1,
    // Links to node 1 and to itself, both from the start.
    0, 2, 0, 0, 0, 1, 0, 0, 0, 0, 0, 0, 0, 0, 0, 0, 0, 0, 0, 0, 0, 0, 0, 0, 0, 0, 0, 0, 0, 0, 0, 0,
    0, 4, 0, 0, 0, 0, 0, 0, 0, 0, 0, 0, 0, 0, 0, 0, 0, 0, 0, 0, 0, 0, 0, 0, 0, 0,
    // No sessions; one kept post, that node 4 enters; and no kept answers.
    0, 0, 0, 1, 1, 0, 0, 0, 4, 0, 0,
];

// What stands before the first gate on side A of member 1 of 1 in version 1, as it begins.
const FIRST_MEMBER: [u8; 132] = [
    // An open gate, generation 1, version 1, and the length of the state.
    0xA5, 0, 0, 0, 0, 0, 0, 0, 1, 1, 0, 0, 0, 0x76,
    // Node 1, and beta and gamma, 4/5 each.
    0, 0, 0, 1, 0, 0, 0, 4, 0, 0, 0, 5, 0, 0, 0, 4, 0, 0, 0, 5,
    // Node 1 has entered and joined, nobody left, and the view is empty.
    0, 1, 0, 0, 0, 1, 0, 1, 0, 0, 0, 1, 0, 0, 0, 0,
    // The own value, which was never written, the tag, no echoes and no need of entering, and Idle.
    0, 0, 0, 0, 0, 0, 0, 0, 0, 0, 0, 0, 0, 0, 0, 0, 0, 0, 0, 0, 0, 0, 0, 0, 0, 0, 0, 0, 0, 0, 0, 0,
    0, 0, 0, 0, 0, 0,
    // No post was made.
    0, 0, 0, 0, 0, 0, 0, 0,
    // The link to itself, from the start.
    0, 1, 0, 0, 0, 1, 0, 0, 0, 0, 0, 0, 0, 0, 0, 0, 0, 0, 0, 0, 0, 0, 0, 0, 0, 0, 0, 0, 0, 0,
    // No sessions, no kept posts and no kept answers.
    0, 0, 0, 0, 0, 0,
];

/// The state of that node in version 2.
pub const MEMBER_STATE: [u8; 119] = [
    // Node 1, and beta and gamma, 4/5 each.
    0, 0, 0, 1, 0, 0, 0, 4, 0, 0, 0, 5, 0, 0, 0, 4, 0, 0, 0, 5,
    // Node 1 has entered and joined, nobody left, and the view is empty.
    0, 1, 0, 0, 0, 1, 0, 1, 0, 0, 0, 1, 0, 0, 0, 0,
    // The own value, which was never written, the tag, no echoes and no need of entering, and Idle.
    0, 0, 0, 0, 0, 0, 0, 0, 0, 0, 0, 0, 0, 0, 0, 0, 0, 0, 0, 0, 0, 0, 0, 0, 0, 0, 0, 0, 0, 0, 0, 0,
    0, 0, 0, 0, 0, 0,
    // No ask waits.
    0,
    // No post was made.
    0, 0, 0, 0, 0, 0, 0, 0,
    // The link to itself, from the start.
    0, 1, 0, 0, 0, 1, 0, 0, 0, 0, 0, 0, 0, 0, 0, 0, 0, 0, 0, 0, 0, 0, 0, 0, 0, 0, 0, 0, 0, 0,
    // No sessions, no kept posts and no kept answers.
    0, 0, 0, 0, 0, 0,
];

/// Side B once the node of the store is moved to it: an open gate, generation 2, version 2, the length of the state, the
/// state, and a closed gate.
pub const SECOND_SIDE: Laid = [
    &[0xA5, 0, 0, 0, 0, 0, 0, 0, 2, 2, 0, 0, 1, 2],
    &SECOND,
    &[0],
];

/// Side A of both members of version 1, with a closed gate behind the one as it begins.
pub const FIRST_SIDE: Laid = [&FIRST, &[], &[]];

pub const FIRST_MEMBER_SIDE: Laid = [&FIRST_MEMBER, &[0], &[]];

// What stands on side A and on side B, and the state in version 2 of the node that is opened. The last one has a record behind
// its state.
const STATES: [(Laid, Laid, &[u8]); 5] = [
    (FIRST_SIDE, CLOSED, &SECOND),
    (CLOSED, SECOND_SIDE, &SECOND),
    ([&FIRST_ENTRANT, &[0], &[]], CLOSED, &ENTRANT_STATE),
    (FIRST_MEMBER_SIDE, CLOSED, &MEMBER_STATE),
    ([&FIRST_ENTRANT, &ENTERED, &[]], CLOSED, &ENTERED_STATE),
];

#[test]
fn states_of_version_1_are_opened(rt: HostRuntime) {
    for (a, b, state) in &STATES {
        let left = state_of(&rt, with_laid(&rt, a, b));
        assert!(rt; left.as_slice() == *state);
    }
}
