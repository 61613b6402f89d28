//! States of nodes whose asks begin together.

ghost use Rattle.std.specs.Prelude.{◌≤◌, length};

use crate::disk::windows::read;
use crate::parts::{deliver, id, settle};
use crate::sites::{ENTRANT, MEMBER, node_of, two_sides};
use cc_checkpoint::encode_image;
use cc_messages::{Command, Event, Message, Refusal};
use cc_node::{Node, Opening};
use cc_views::Text;
use std::process::Abort;

// Member 1 of 1, of share 32, as it is formatted.
const FORMATTED: [u8; 136] = [
    0xa5, 0, 0, 0, 0, 0, 0, 0, 1, 0x20, 0, 0, 0, 0x79, 0, 0, 0, 1, 0, 0, 0, 4, 0, 0, 0, 5, 0, 0, 0,
    4, 0, 0, 0, 5, 0, 1, 0, 0, 0, 1, 0, 1, 0, 0, 0, 1, 0, 0, 0, 0, 0, 0, 0, 0, 0, 0, 0, 0, 0, 0, 0,
    0, 0, 0, 0, 0, 0, 0, 0, 0, 0, 0, 0, 0, 0, 0, 0, 0, 0, 0, 0, 0, 0, 0, 0, 0, 0, 0, 0x20, 0, 0, 0,
    0, 0, 0, 0, 0, 0, 0, 0, 1, 0, 0, 0, 1, 0, 0, 0, 0, 0, 0, 0, 0, 0, 0, 0, 0, 0, 0, 0, 0, 0, 0, 0,
    0, 0, 0, 0, 0, 0, 0, 0, 0, 0, 0, 0,
];

// Entrant 4 with contact 1, of share 2, as it is formatted.
const FORMATTED_ENTRANT: [u8; 156] = [
    0xa5, 0, 0, 0, 0, 0, 0, 0, 1, 0x20, 0, 0, 0, 0x8d, 0, 0, 0, 4, 0, 0, 0, 4, 0, 0, 0, 5, 0, 0, 0,
    4, 0, 0, 0, 5, 0, 0, 0, 0, 0, 0, 0, 0, 0, 0, 0, 0, 0, 0, 0, 0, 0, 0, 0, 0, 0, 0, 0, 0, 0, 0, 0,
    0, 0, 0, 0, 0, 0, 0, 0, 0, 0, 0, 0, 0, 0, 0, 0, 0, 0, 0, 2, 0, 0, 0, 0, 0, 0, 0, 0, 0, 0, 0, 2,
    0, 0, 0, 1, 0, 0, 0, 0, 0, 0, 0, 0, 0, 0, 0, 0, 0, 0, 0, 0, 0, 0, 0, 0, 0, 0, 0, 0, 0, 0, 0, 4,
    0, 0, 0, 0, 0, 0, 0, 0, 0, 0, 0, 0, 0, 0, 0, 0, 0, 0, 0, 0, 0, 0, 0, 0, 0, 0, 0, 0, 0, 0, 0,
];

/// The member of share 32 has stored for session 7, stores for 8 and 9 together, and a collect of 10 waits.
pub(crate) const STORING: [u8; 390] = [
    0xa5, 0, 0, 0, 0, 0, 0, 0, 2, 0x20, 0, 0, 1, 0x77, 0, 0, 0, 1, 0, 0, 0, 4, 0, 0, 0, 5, 0, 0, 0,
    4, 0, 0, 0, 5, 0, 1, 0, 0, 0, 1, 0, 1, 0, 0, 0, 1, 0, 0, 0, 1, 0, 0, 0, 1, 0, 0, 0, 0, 0, 0, 0,
    3, 1, 0x62, 0, 0, 0, 0, 0, 0, 0, 5, 0, 0, 0, 0, 0, 0, 0, 0, 0, 3, 1, 0x62, 0, 0, 0, 0, 0, 0, 0,
    5, 0, 0, 0, 0, 0, 0, 0, 0, 0, 2, 0, 0, 0, 0, 0, 0, 0, 0, 0, 0, 1, 0, 0, 0, 0, 0, 0, 0, 8, 0, 0,
    0, 0, 0, 0, 0, 1, 1, 1, 0x62, 0, 1, 0, 0, 0x20, 1, 0, 0, 0, 0, 0, 0, 0, 9, 0, 0, 0, 0, 0, 0, 0,
    1, 3, 0, 0, 0, 0, 0, 0, 0, 5, 1, 0, 0, 0, 0, 0, 0, 0, 0x0a, 0, 0, 0, 0, 0, 0, 0, 1, 2, 0, 0, 0,
    0, 0, 0, 0, 3, 0, 1, 0, 0, 0, 1, 0, 0, 0, 0, 0, 0, 0, 0, 0, 0, 0, 0, 0, 0, 0, 0, 0, 0, 0, 0, 0,
    0, 0, 2, 0, 4, 0, 0, 0, 0, 0, 0, 0, 7, 0, 0, 0, 0, 0, 0, 0, 1, 0, 0, 0, 0, 0, 0, 0, 8, 0, 0, 0,
    0, 0, 0, 0, 1, 0, 0, 0, 0, 0, 0, 0, 9, 0, 0, 0, 0, 0, 0, 0, 1, 0, 0, 0, 0, 0, 0, 0, 0x0a, 0, 0,
    0, 0, 0, 0, 0, 1, 0, 3, 9, 0, 1, 0, 0, 0, 1, 0, 0, 0, 0, 0, 0, 0, 1, 1, 0x61, 0, 0, 0, 0, 0, 0,
    0, 0, 0, 0, 0, 0, 0, 0, 0, 0, 0, 1, 0, 0, 0, 1, 0x0a, 0, 0, 0, 0, 0, 0, 0, 1, 0, 0, 0, 1, 9, 0,
    1, 0, 0, 0, 1, 0, 0, 0, 0, 0, 0, 0, 3, 1, 0x62, 0, 0, 0, 0, 0, 0, 0, 5, 0, 0, 0, 0, 0, 0, 0, 0,
    0, 2, 0, 0, 0, 1, 0, 1, 0, 0, 0, 0, 0, 0, 0, 7, 1, 0,
];

// Both are answered, and what the collect has seen is stored back.
const STORING_BACK: [u8; 494] = [
    0xa5, 0, 0, 0, 0, 0, 0, 0, 3, 0x20, 0, 0, 1, 0xdf, 0, 0, 0, 1, 0, 0, 0, 4, 0, 0, 0, 5, 0, 0, 0,
    4, 0, 0, 0, 5, 0, 1, 0, 0, 0, 1, 0, 1, 0, 0, 0, 1, 0, 0, 0, 1, 0, 0, 0, 1, 0, 0, 0, 0, 0, 0, 0,
    3, 1, 0x62, 0, 0, 0, 0, 0, 0, 0, 5, 0, 0, 0, 0, 0, 0, 0, 0, 0, 3, 1, 0x62, 0, 0, 0, 0, 0, 0, 0,
    5, 0, 0, 0, 0, 0, 0, 0, 0, 0, 4, 0, 0, 0, 0, 0, 0, 0, 0, 0, 0, 3, 0, 0, 0, 0, 0, 0, 0, 0x0a, 0,
    0, 0, 0, 0, 0, 0, 1, 2, 0, 1, 0, 0, 0, 1, 0, 0, 0, 1, 0, 0, 0, 0, 0, 0, 0, 3, 1, 0x62, 0, 0, 0,
    0, 0, 0, 0, 5, 0, 0, 0x20, 0, 0, 0, 0, 0, 0, 0, 0, 0, 7, 0, 1, 0, 0, 0, 1, 0, 0, 0, 0, 0, 0, 0,
    0, 0, 0, 0, 0, 0, 0, 0, 0, 0, 0, 0, 0, 0, 0, 0, 6, 0, 4, 0, 0, 0, 0, 0, 0, 0, 7, 0, 0, 0, 0, 0,
    0, 0, 1, 0, 0, 0, 0, 0, 0, 0, 8, 0, 0, 0, 0, 0, 0, 0, 1, 0, 0, 0, 0, 0, 0, 0, 9, 0, 0, 0, 0, 0,
    0, 0, 1, 0, 0, 0, 0, 0, 0, 0, 0x0a, 0, 0, 0, 0, 0, 0, 0, 1, 0, 7, 9, 0, 1, 0, 0, 0, 1, 0, 0, 0,
    0, 0, 0, 0, 1, 1, 0x61, 0, 0, 0, 0, 0, 0, 0, 0, 0, 0, 0, 0, 0, 0, 0, 0, 0, 1, 0, 0, 0, 1, 0x0a,
    0, 0, 0, 0, 0, 0, 0, 1, 0, 0, 0, 1, 9, 0, 1, 0, 0, 0, 1, 0, 0, 0, 0, 0, 0, 0, 3, 1, 0x62, 0, 0,
    0, 0, 0, 0, 0, 5, 0, 0, 0, 0, 0, 0, 0, 0, 0, 2, 0, 0, 0, 1, 0x0a, 0, 0, 0, 0, 0, 0, 0, 2, 0, 0,
    0, 1, 7, 0, 0, 0, 0, 0, 0, 0, 3, 0, 0, 0, 1, 8, 0, 1, 0, 0, 0, 1, 0, 0, 0, 0, 0, 0, 0, 3, 1,
    0x62, 0, 0, 0, 0, 0, 0, 0, 5, 0, 0, 0, 0, 0, 0, 0, 0, 0, 3, 0, 0, 0, 1, 9, 0, 1, 0, 0, 0, 1, 0,
    0, 0, 0, 0, 0, 0, 3, 1, 0x62, 0, 0, 0, 0, 0, 0, 0, 5, 0, 0, 0, 0, 0, 0, 0, 0, 0, 4, 0, 0, 0, 1,
    0, 3, 0, 0, 0, 0, 0, 0, 0, 7, 1, 0, 0, 0, 0, 0, 0, 0, 8, 1, 0, 0, 0, 0, 0, 0, 0, 9, 1, 0,
];

// Member 1 of 1, of share 2, whose own number is one below its limit: a store is pending, whose acknowledgement under
// number 2 is to come, and the stores of sessions 8 and 9 wait.
const NEAR_THE_LIMIT: [u8; 322] = [
    0xa5, 0, 0, 0, 0, 0, 0, 0, 1, 0x20, 0, 0, 1, 0x33, 0, 0, 0, 1, 0, 0, 0, 4, 0, 0, 0, 5, 0, 0, 0,
    4, 0, 0, 0, 5, 0, 1, 0, 0, 0, 1, 0, 1, 0, 0, 0, 1, 0, 0, 0, 1, 0, 0, 0, 1, 0x3f, 0xff, 0xff,
    0xff, 0xff, 0xff, 0xff, 0xff, 1, 0x61, 0, 0, 0, 0, 0, 0, 0, 0, 0, 0, 0x3f, 0xff, 0xff, 0xff,
    0xff, 0xff, 0xff, 0xff, 1, 0x61, 0, 0, 0, 0, 0, 0, 0, 0, 0, 0, 0, 0, 0, 0, 0, 0, 0, 1, 0, 0, 0,
    0, 0, 0, 0, 0, 0, 0, 1, 0, 0, 0, 0, 0, 0, 0, 7, 0, 0, 0, 0, 0, 0, 0, 1, 1, 1, 0x61, 0, 1, 0, 0,
    2, 0, 2, 0, 0, 0, 0, 0, 0, 0, 8, 0, 0, 0, 0, 0, 0, 0, 1, 1, 1, 0x62, 0, 0, 0, 0, 0, 0, 0, 9, 0,
    0, 0, 0, 0, 0, 0, 1, 1, 1, 0x63, 0, 0, 0, 0, 0, 0, 0, 2, 0, 1, 0, 0, 0, 1, 0, 0, 0, 0, 0, 0, 0,
    0, 0, 0, 0, 0, 0, 0, 0, 0, 0, 0, 0, 0, 0, 0, 0, 1, 0, 3, 0, 0, 0, 0, 0, 0, 0, 7, 0, 0, 0, 0, 0,
    0, 0, 1, 0, 0, 0, 0, 0, 0, 0, 8, 0, 0, 0, 0, 0, 0, 0, 1, 0, 0, 0, 0, 0, 0, 0, 9, 0, 0, 0, 0, 0,
    0, 0, 1, 0, 2, 9, 0, 1, 0, 0, 0, 1, 0x3f, 0xff, 0xff, 0xff, 0xff, 0xff, 0xff, 0xff, 1, 0x61, 0,
    0, 0, 0, 0, 0, 0, 0, 0, 0, 0, 0, 0, 0, 0, 0, 0, 1, 0, 0, 0, 1, 0x0a, 0, 0, 0, 0, 0, 0, 0, 1, 0,
    0, 0, 1, 0, 0, 0,
];

// Sides, each with its generation.
const ALL: [(u64, &[u8]); 5] = [
    (1, &FORMATTED),
    (1, &FORMATTED_ENTRANT),
    (2, &STORING),
    (3, &STORING_BACK),
    (1, &NEAR_THE_LIMIT),
];

// Whether a node stands so on a side behind an open gate, under that generation.
fn is_on_side<R: Abort + AllocGlobal>(rt: &R, node: &Node, generation: u64, side: &[u8]) -> bool {
    let image = encode_image(rt.alloc(), generation.max(1), node).expect(rt, "an image");
    side.first() == Some(&0xA5) && side.get(1..) == Some(image.as_slice())
}

// Byte for byte, up to the closed gate behind the state.
#[test]
fn shared_states_are_read_and_written_again(rt: HostRuntime) {
    for &(generation, side) in &ALL {
        let mut site = two_sides(&rt, side, &[]);
        let (node, place) = read(rt.alloc(), &mut site).expect(&rt, "a node");
        drop(site);
        let is_same = is_on_side(&rt, &node, generation, side);
        drop(node);
        assert!(rt; is_same && place as usize == side.len().saturating_sub(1));
    }
}

// Takes in the first request of a session.
fn ask<R: Abort + AllocGlobal>(rt: &R, node: &mut Node, session: u64, command: Command) {
    let asked = Event::Ask {
        session,
        request: 1,
        command,
    };
    settle(rt, node, asked);
}

fn store(text: &[u8]) -> Command
    requires { length text.now ≤ 64 }
{
    Command::Store(Text::new(text).unwrap())
}

// A store is answered, two writing asks begin together and are pending, and a collect waits. Then their acknowledgement comes,
// and the collect's query and its reply.
#[test]
fn a_round_is_written_with_all_its_asks_and_answers(rt: HostRuntime) {
    let opening = Opening {
        share: 2,
        ..ENTRANT
    };
    let entrant = node_of(&rt, &opening);
    assert!(rt; is_on_side(&rt, &entrant, 1, &FORMATTED_ENTRANT));
    drop(entrant);
    let opening = Opening {
        share: 32,
        ..MEMBER
    };
    let mut node = node_of(&rt, &opening);
    assert!(rt; is_on_side(&rt, &node, 1, &FORMATTED));
    ask(&rt, &mut node, 7, store(b"a"));
    ask(&rt, &mut node, 8, store(b"b"));
    ask(&rt, &mut node, 9, Command::WriteMax(5));
    ask(&rt, &mut node, 10, Command::Collect);
    deliver(&rt, &mut node, 1);
    deliver(&rt, &mut node, 2);
    assert!(rt; is_on_side(&rt, &node, 2, &STORING));
    for number in 3..7 {
        deliver(&rt, &mut node, number);
    }
    assert!(rt; is_on_side(&rt, &node, 3, &STORING_BACK));
    drop(node);
}

// What the node on a side says to the acknowledgement that ends its store.
fn refusal_on<R: Abort + AllocGlobal>(rt: &R, side: &[u8]) -> Option<Refusal> {
    let mut site = two_sides(rt, side, &[]);
    let (node, _) = read(rt.alloc(), &mut site).expect(rt, "a node");
    drop(site);
    let own = id(1);
    let ack = Event::Deliver {
        from: own,
        number: 2,
        message: Message::StoreAck { tag: 1, node: own },
    };
    let refusal = node.core().decide(&ack).err();
    drop((node, ack));
    refusal
}

// Two that would begin together raise the own number past its limit. One raises it up to there: the side without the ask of
// session 9, the second of two that wait and have 19 bytes each.
#[test]
fn a_round_past_the_limit_is_spent(rt: HostRuntime) {
    let mut fewer = [0; 303];
    fewer[..158].copy_from_slice(&NEAR_THE_LIMIT[..158]);
    fewer[158..].copy_from_slice(&NEAR_THE_LIMIT[177..]);
    // The length of the state, and how many asks wait.
    fewer[13] = 0x20;
    fewer[138] = 1;
    assert!(rt; refusal_on(&rt, &NEAR_THE_LIMIT) == Some(Refusal::Spent));
    assert!(rt; refusal_on(&rt, &fewer).is_none());
}
