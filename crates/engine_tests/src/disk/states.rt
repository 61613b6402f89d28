//! The bytes of states.

use crate::disk::shared_states::STORING;
use crate::parts::{deliver, settle};
use crate::sites::{ENTRANT, MEMBER, node_of};
use crate::steps::state_of_node;
use crate::versions::{ENTRANT_STATE, MEMBER_STATE};
use cc_messages::{Command, Event};
use cc_node::Node;
use cc_node_state::{Layout, StateFault, decode_state};
use cc_wire::WireFault;
use std::process::Abort;

// Whether a state that is read by that layout is these bytes where it is written again.
fn is_stored_as<R: Abort + AllocGlobal>(
    rt: &R,
    bytes: &[u8],
    layout: Layout,
    wanted: &[u8],
) -> bool {
    let node = decode_state(rt.alloc(), bytes, layout).expect(rt, "a node");
    let state = state_of_node(rt, &node);
    drop(node);
    state.as_slice() == wanted
}

// An opening state of version 1 has no count of asks that wait: one of the zeros around place 74. It is stored in version 2.
#[test]
fn opening_states_are_stored_and_read(rt: HostRuntime) {
    for &(opening, bytes) in &[
        (&MEMBER, MEMBER_STATE.as_slice()),
        (&ENTRANT, ENTRANT_STATE.as_slice()),
    ] {
        let node = node_of(&rt, opening);
        let state = state_of_node(&rt, &node);
        drop(node);
        assert!(rt; state.as_slice() == bytes);
        assert!(rt; is_stored_as(&rt, bytes, Layout::Lined, bytes));
        let mut first = state;
        if first.len() > 74 {
            first.remove(74);
        }
        assert!(rt; first.len() == bytes.len().saturating_sub(1));
        assert!(rt; is_stored_as(&rt, &first, Layout::Plain, bytes));
    }
}

// Why a state with another byte at that place isn't decoded, if it isn't.
fn fault_with<R: Abort + AllocGlobal>(
    rt: &R,
    state: &[u8],
    at: usize,
    byte: u8,
    layout: Layout,
) -> Option<StateFault> {
    let mut turned = Vec::from_slice(rt.alloc(), state).expect(rt, "a copy");
    if let Some(place) = turned.get_mut(at) {
        *place = byte;
    }
    match decode_state(rt.alloc(), &turned, layout) {
        Ok(node) => {
            drop(node);
            None
        }
        Err(fault) => Some(fault),
    }
}

// A byte of the opening state of member 1 of 1, and the fault that the decoder then meets.
const FAULTS: [(usize, u8, StateFault); 7] = [
    // The node itself is none, a flag is neither 0 nor 1, more than 32 asks wait, and a kept answer isn't there.
    (3, 0, StateFault::Wire(WireFault::NotAscending)),
    (53, 2, StateFault::Wire(WireFault::BadKind(2))),
    (74, 33, StateFault::Wire(WireFault::TooLarge)),
    (118, 1, StateFault::Wire(WireFault::Short)),
    // A share of nothing, the number past its limit, and a post that was made and isn't kept.
    (7, 0, StateFault::Unlawful),
    (36, 0x80, StateFault::Unlawful),
    (82, 1, StateFault::Unlawful),
];

// The same of the state that stores for two sessions: a share and a count of others that are too great, and another of the
// session of the first ask.
const FAULTS_OF_ROUNDS: [(usize, u8, StateFault); 3] = [
    (122, 33, StateFault::Wire(WireFault::BadKind(33))),
    (123, 33, StateFault::Wire(WireFault::TooLarge)),
    (131, 8, StateFault::Unlawful),
];

// Faults of the wire come before others: with a share of nothing the last state is unlawful too.
#[test]
fn the_first_fault_of_a_state_is_told(rt: HostRuntime) {
    for &(at, byte, wanted) in &FAULTS {
        assert!(rt;
            fault_with(&rt, &MEMBER_STATE, at, byte, Layout::Lined) == Some(wanted),
            "{at}"
        );
    }
    for &(at, byte, wanted) in &FAULTS_OF_ROUNDS {
        let state = &STORING[14..389];
        assert!(rt;
            fault_with(&rt, state, at, byte, Layout::Shared) == Some(wanted),
            "{at}"
        );
    }
    let mut longer = [0; 120];
    longer[..119].copy_from_slice(&MEMBER_STATE);
    let trailing = StateFault::Wire(WireFault::Trailing);
    assert!(rt; fault_with(&rt, &longer, 7, 0, Layout::Lined) == Some(trailing));
}

/// Member 1 of 1 that stores back what its collect has seen, in post 3.
pub(crate) fn collecting<R: Abort + AllocGlobal>(rt: &R) -> Node {
    let mut node = node_of(rt, &MEMBER);
    let asked = Event::Ask {
        session: 7,
        request: 1,
        command: Command::Collect,
    };
    settle(rt, &mut node, asked);
    deliver(rt, &mut node, 1);
    deliver(rt, &mut node, 2);
    node
}

// The first request of session 7, a collect that needs one answer, and an empty view.
const PHASE: [u8; 24] = [
    3, 0, 0, 0, 0, 0, 0, 0, 7, 0, 0, 0, 0, 0, 0, 0, 1, 2, 0, 1, 0, 0, 0, 0,
];

// The first request of session 8 waits, a flag to set.
const LINE: [u8; 18] = [1, 0, 0, 0, 0, 0, 0, 0, 8, 0, 0, 0, 0, 0, 0, 0, 1, 5];

// Then the collect is answered, and the flag is set.
#[test]
fn what_pends_waits_and_is_kept_is_stored_and_read(rt: HostRuntime) {
    let mut node = collecting(&rt);
    let asked = Event::Ask {
        session: 8,
        request: 1,
        command: Command::SetFlag,
    };
    settle(&rt, &mut node, asked);
    let pending = state_of_node(&rt, &node);
    deliver(&rt, &mut node, 3);
    deliver(&rt, &mut node, 4);
    let answered = state_of_node(&rt, &node);
    drop(node);
    assert!(rt; pending.get(73..97) == Some(PHASE.as_slice()));
    assert!(rt; pending.get(97..115) == Some(LINE.as_slice()));
    assert!(rt; is_stored_as(&rt, &pending, Layout::Lined, &pending));
    assert!(rt; is_stored_as(&rt, &answered, Layout::Lined, &answered));
}
