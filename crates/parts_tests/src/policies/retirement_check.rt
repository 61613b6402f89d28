//! Which peers are silent, and which retirements aren't handed to a node.

use crate::sets::id;
use cc_policies::{Objection, is_silent, objection_to};

#[test]
fn a_peer_is_silent_after_three_seconds_or_without_a_connection(rt: HostRuntime) {
    let silent = [
        is_silent(true, None, 9000),
        is_silent(false, Some(8999), 9000),
        is_silent(true, Some(6000), 9000),
    ];
    let heard = [
        is_silent(true, Some(6001), 9000),
        is_silent(true, Some(9001), 9000),
    ];
    assert!(rt; (silent, heard) == ([true; 3], [false; 2]));
}

#[test]
fn a_node_neither_retires_itself_nor_one_that_has_to_be_silent_and_is_not(rt: HostRuntime) {
    let (one, two) = (id(1), id(2));
    let objections = [
        objection_to(one, one, false, true),
        objection_to(one, two, true, false),
        objection_to(one, two, true, true),
        objection_to(one, two, false, false),
    ];
    assert!(rt; objections == [Some(Objection::Itself), Some(Objection::Alive), None, None]);
}
