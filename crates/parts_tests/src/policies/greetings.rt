//! Which nodes are taken when they greet, and what is remembered of their greetings.

use crate::hellos::{cluster, hello, quorum};
use crate::sets::id;
use cc_connections::Reason;
use cc_policies::{Greeted, Greetings, Recipient, is_old_copy, why_unwelcome};
use std::process::Abort;

// Node 2 of the cluster blue, with 79/100 for both shares.
fn recipient<R: Abort>(rt: &R) -> Recipient {
    Recipient {
        cluster: cluster(rt, b"blue"),
        node: id(2),
        beta: quorum(rt, 79, 100),
        gamma: quorum(rt, 79, 100),
    }
}

// All six reasons hold at first, and then one fewer each time.
#[test]
fn the_first_reason_that_holds_is_told(rt: HostRuntime) {
    let me = recipient(&rt);
    let mut greeting = hello(&rt, b"red", 17, 34);
    greeting.from = id(2);
    greeting.to = id(3);
    greeting.beta = quorum(&rt, 4, 5);
    assert!(rt; why_unwelcome(&me, &greeting, Some(16), true) == Some(Reason::OtherCluster));
    greeting.cluster = cluster(&rt, b"blue");
    assert!(rt; why_unwelcome(&me, &greeting, Some(16), true) == Some(Reason::OtherNode));
    greeting.to = id(2);
    assert!(rt; why_unwelcome(&me, &greeting, Some(16), true) == Some(Reason::OwnId));
    greeting.from = id(1);
    assert!(rt; why_unwelcome(&me, &greeting, Some(16), true) == Some(Reason::OtherBirth));
    assert!(rt; why_unwelcome(&me, &greeting, Some(17), true) == Some(Reason::OtherQuorums));
    greeting.beta = quorum(&rt, 79, 100);
    assert!(rt; why_unwelcome(&me, &greeting, Some(17), true) == Some(Reason::HasLeft));
    assert!(rt; why_unwelcome(&me, &greeting, Some(17), false) == None);
}

// Runs of node 1 that greet one after the other, and what is made of each greeting.
type Runs = [(u64, Greeted); 4];

const IN_TURN: Runs = [
    (1, Greeted::Welcome),
    (2, Greeted::Welcome),
    (1, Greeted::Doubled),
    (2, Greeted::Doubled),
];

const BACK: Runs = [
    (1, Greeted::Welcome),
    (2, Greeted::Welcome),
    (2, Greeted::Welcome),
    (1, Greeted::Doubled),
];

// Of three runs the first is forgotten with the third.
const FORGOTTEN: Runs = [
    (1, Greeted::Welcome),
    (2, Greeted::Welcome),
    (3, Greeted::Welcome),
    (1, Greeted::Welcome),
];

// Whether that is made of these greetings, which all fit.
fn are_greeted<R: Abort + AllocGlobal>(rt: &R, runs: &Runs) -> bool {
    let me = recipient(rt);
    let mut greetings = Greetings::new(rt.alloc()).expect(rt, "greetings");
    let mut are_so = true;
    for &(run, wanted) in runs {
        let greeted = greetings.greet(&me, &hello(rt, b"blue", 17, run), false);
        are_so = are_so && greeted == wanted;
    }
    drop(greetings);
    are_so
}

#[test]
fn two_runs_that_greet_in_turn_are_noticed(rt: HostRuntime) {
    assert!(rt; are_greeted(&rt, &IN_TURN));
    assert!(rt; are_greeted(&rt, &BACK));
    assert!(rt; are_greeted(&rt, &FORGOTTEN));
}

#[test]
fn a_folder_is_old_where_a_peer_heard_more_than_was_posted(rt: HostRuntime) {
    let old = [
        is_old_copy(5, 4),
        is_old_copy(1, 0),
        is_old_copy(4, 4),
        is_old_copy(3, 4),
        is_old_copy(0, 0),
    ];
    assert!(rt; old == [true, true, false, false, false]);
}
