//! A checkpoint of a node whose state is written and read in several pieces.

use crate::parts::{id, settle};
use crate::reopenings::{Act, ForgetfulSite, acted};
use crate::sites::{laid, node_of, side_of, two_sides};
use crate::steps::{Step, run, state_of};
use cc_changes::Fraction;
use cc_checkpoint::encode_image;
use cc_messages::{Event, Message};
use cc_node::{Node, Opening};
use cc_site::Side;
use cc_views::View;
use cc_wire::decode_view;
use std::process::Abort;
use std::test::*;

// A row for each of 250 nodes, with number 1 and a text of 64 bytes.
fn long_view<R: Abort + AllocGlobal>(rt: &R) -> View {
    let mut bytes = laid(rt, &[&[0, 250]]);
    for node in 1_u32..251 {
        let [a, b, c, d] = node.to_be_bytes();
        let row = [a, b, c, d, 0, 0, 0, 0, 0, 0, 0, 1, 64];
        bytes.extend_from_slice(&row).expect(rt, "room");
        bytes.extend_from_slice(&[b'x'; 64]).expect(rt, "room");
        bytes.extend_from_slice(&[0; 10]).expect(rt, "room");
    }
    decode_view(rt.alloc(), &bytes).expect(rt, "a view")
}

// Member 1 of 250.
fn member_of_250<R: Abort + AllocGlobal>(rt: &R) -> Node {
    let mut ids = [0; 250];
    for (place, id) in ids.iter_mut().zip(1..251) {
        *place = id;
    }
    let share = Fraction { num: 4, den: 5 };
    let opening = Opening {
        me: 1,
        initial: &ids,
        contacts: &[],
        beta: share,
        gamma: share,
        share: 1,
    };
    node_of(rt, &opening)
}

// A node's first message comes.
fn hear<R: Abort + AllocGlobal>(rt: &R, node: &mut Node, from: u32, message: Message) {
    let event = Event::Deliver {
        from: id(from),
        number: 1,
        message,
    };
    settle(rt, node, event);
}

/// A member of 250. Member 2 has stored a long view, and six nodes have entered. The echo to each of them is kept, with the
/// view.
pub fn long_node<R: Abort + AllocGlobal>(rt: &R) -> Node {
    let mut node = member_of_250(rt);
    let stored = Message::Store {
        view: long_view(rt),
        tag: 1,
        node: id(2),
    };
    hear(rt, &mut node, 2, stored);
    for entrant in 251_u32..257 {
        let enters = Message::Enter { node: id(entrant) };
        hear(rt, &mut node, entrant, enters);
    }
    node
}

// Side A of that node under generation 1.
fn long_side<R: Abort + AllocGlobal>(rt: &R) -> Vec<u8> {
    let node = long_node(rt);
    let image = encode_image(rt.alloc(), 1, &node).expect(rt, "an image");
    drop(node);
    laid(rt, &[&[0xA5], &image])
}

// A checkpoint leaves the node of side A on side B, under generation 2, and one closed byte on side A. The node that is opened
// then has the state of side A, before its closed gate.
#[test]
fn a_state_longer_than_two_pieces_is_moved(rt: HostRuntime) {
    let side = long_side(&rt);
    assert!(rt; side.len() > 131_072 + 15);
    let (mut site, came) = run(&rt, two_sides(&rt, &side, &[0]), &[Step::Checkpoint]);
    let a = side_of(&rt, &mut site, Side::A);
    let b = side_of(&rt, &mut site, Side::B);
    drop(site);
    assert!(rt; came == Ok(0) && a.as_slice() == [0].as_slice());
    assert!(rt; b.get(..9) == Some([0xA5, 0, 0, 0, 0, 0, 0, 0, 2].as_slice()));
    assert!(rt; b.get(9..) == side.get(9..));
    let state = state_of(&rt, two_sides(&rt, &a, &b));
    assert!(rt; side.get(14..) == Some(laid(&rt, &[&state, &[0]]).as_slice()));
}

#[test]
fn a_long_state_is_written_in_pieces(rt: HostRuntime) {
    let side = long_side(&rt);
    let site = ForgetfulSite::with_side(&rt, 262_144, &side);
    let (site, is_done) = acted(&rt, site, 0, Act::Move);
    let is_whole = site.shown(Side::B) == side.len();
    let longest = site.longest();
    drop((site, side));
    assert!(rt; is_done && is_whole && longest <= 65_536);
}
