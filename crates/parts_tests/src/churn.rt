//! How a node joins.

use crate::sets::{changes_of, id};
use crate::views::no_rows;
use cc_changes::{Changes, Fraction};
use cc_churn::Churn;
use cc_messages::Message;
use std::process::Abort;

const GAMMA: Fraction = Fraction { num: 4, den: 5 };

// Node 4 has entered, and the members 1, 2 and 3 have joined.
fn four<R: Abort + AllocGlobal>(rt: &R) -> Changes {
    let mut changes = changes_of(rt, 4, 0);
    for number in 1..4 {
        let one = changes_of(rt, 0, number);
        if changes.would_fit(&one) {
            changes.union(&one);
        }
        drop(one);
    }
    changes
}

// Whether node 4 joins with one more echo, which tells of the members, after so many echoes and with that need.
fn joins<R: Abort + AllocGlobal>(rt: &R, echoes: u8, need: u64, is_joined: bool) -> bool {
    let echo = Message::EnterEcho {
        changes: four(rt),
        view: no_rows(rt),
        is_joined,
        node: id(4),
    };
    let churn = Churn::from_parts(changes_of(rt, 4, 0), u64::from(echoes), need);
    let joins = churn.makes_post(id(4), GAMMA, &echo);
    drop(churn);
    drop(echo);
    joins
}

// After so many echoes, at that need, and whether the last one came from a node that has joined: whether node 4 joins.
const ECHOES: [(u8, u64, bool, bool); 5] = [
    (2, 0, true, false),
    (3, 0, true, true),
    (3, 0, false, false),
    (2, 4, false, false),
    (3, 4, false, true),
];

#[test]
fn four_echoes_are_needed_of_four_nodes(rt: HostRuntime) {
    for &(echoes, need, is_joined, wanted) in &ECHOES {
        assert!(rt; joins(&rt, echoes, need, is_joined) == wanted);
    }
}
