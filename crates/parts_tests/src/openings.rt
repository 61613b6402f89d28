//! Openings of nodes.

use crate::refusals::says;
use cc_changes::Fraction;
use cc_node::{Fresh, Node, Opening};
use std::process::Abort;

const FOUR_FIFTHS: Fraction = Fraction { num: 4, den: 5 };

/// An opening with these members and contacts.
pub fn opening<'a>(me: u32, initial: &'a [u32], contacts: &'a [u32]) -> Opening<'a> {
    Opening {
        me,
        initial,
        contacts,
        beta: FOUR_FIFTHS,
        gamma: FOUR_FIFTHS,
        share: 1,
    }
}

/// The node that begins so.
pub fn fresh<R: Abort + AllocGlobal>(rt: &R, opening: &Opening<'_>) -> Node {
    Node::fresh(rt.alloc(), opening).expect(rt, "a node")
}

// An own id of 0, members that don't rise, a node that isn't among them, contacts of a member; a share of no asks, and a fraction
// above 1.
#[test]
fn a_bad_opening_is_refused_by_name(rt: HostRuntime) {
    let shareless = Opening {
        share: 0,
        ..opening(1, &[1], &[])
    };
    let beyond = Opening {
        gamma: Fraction { num: 6, den: 5 },
        ..opening(1, &[1], &[])
    };
    let openings = [
        opening(0, &[0], &[]),
        opening(1, &[1, 1], &[]),
        opening(1, &[2], &[]),
        opening(1, &[], &[1]),
        shareless,
        beyond,
    ];
    for bad in &openings {
        let fault = Node::fresh(rt.alloc(), bad).err();
        assert!(rt; fault == Some(Fresh::BadOpening));
    }
    assert!(rt; says(&rt, &Fresh::BadOpening, "BadOpening"));
    assert!(rt; says(&rt, &Fresh::NoMemory, "NoMemory"));
}
