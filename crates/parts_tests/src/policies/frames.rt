//! What is written to a peer and to a client.

use crate::sets::id;
use cc_messages::{Answer, Message, PostRange};
use cc_policies::{Bundle, Due, Parcel, due_bytes, message_bytes, reply_bytes, skip_bytes};
use cc_views::NodeId;
use std::process::Abort;

// The acknowledgement of a store with tag 1, as post 2 of node 1.
const POST: [u8; 30] = [
    0, 0, 0, 0x1A, 1, 0, 0, 0, 1, 0, 0, 0, 0, 0, 0, 0, 2, 0x0A, 0, 0, 0, 0, 0, 0, 0, 1, 0, 0, 0, 1,
];

// Node 1 has what it was sent up to number 9.
const ACK: [u8; 17] = [0, 0, 0, 0x0D, 2, 0, 0, 0, 1, 0, 0, 0, 0, 0, 0, 0, 9];

// Post 1 of node 1 is for others.
const SKIP: [u8; 25] = [
    0, 0, 0, 0x15, 0x20, 0, 0, 0, 1, 0, 0, 0, 0, 0, 0, 0, 1, 0, 0, 0, 0, 0, 0, 0, 1,
];

// What session 7 asked under number 1 is stored.
const STORED: [u8; 22] = [
    0, 0, 0, 0x12, 4, 0, 0, 0, 0, 0, 0, 0, 7, 0, 0, 0, 0, 0, 0, 0, 1, 1,
];

// Whether what is due of a message under number 2 is spelled so, also where its bytes are at hand: first the one and then the
// other.
fn is_posted<R: Abort + AllocGlobal>(rt: &R, due: &Due, first: &[u8], then: &[u8]) -> bool {
    let me = id(1);
    let message = Message::StoreAck { tag: 1, node: me };
    let bytes = message_bytes(rt.alloc(), &message).expect(rt, "bytes");
    let posted = due_bytes(rt.alloc(), me, due, 2, &message, Some(&bytes)).expect(rt, "bytes");
    let spelled = due_bytes(rt.alloc(), me, due, 2, &message, None).expect(rt, "bytes");
    drop(message);
    posted == spelled && posted.as_slice().strip_prefix(first) == Some(then)
}

// The numbers that are skipped come first.
#[test]
fn what_is_due_is_spelled_in_turn(rt: HostRuntime) {
    let one = PostRange::new(1, 1);
    let post = Due {
        skip: None,
        has_post: true,
    };
    let both = Due {
        skip: one,
        has_post: true,
    };
    assert!(rt; is_posted(&rt, &post, &[], &POST) && is_posted(&rt, &both, &SKIP, &POST));
    let range = one.expect(&rt, "a range");
    let skipped = skip_bytes(rt.alloc(), id(1), range).expect(&rt, "bytes");
    assert!(rt; skipped.as_slice() == SKIP.as_slice());
    let replied = reply_bytes(rt.alloc(), 7, 1, &Answer::Stored).expect(&rt, "bytes");
    assert!(rt; replied.as_slice() == STORED.as_slice());
}

// A post and two acknowledgements are put into a bundle, the post last. What it writes, and how many bytes its posts had.
fn bundled<R: Abort + AllocGlobal>(rt: &R, me: NodeId) -> (Vec<u8>, usize) {
    let post = Vec::from_slice(rt.alloc(), &POST).expect(rt, "a post");
    let mut bundle = Bundle::new(rt.alloc());
    bundle.add(Parcel::Ack(8)).expect(rt, "room");
    bundle.add(Parcel::Ack(9)).expect(rt, "room");
    bundle.add(Parcel::Post(post)).expect(rt, "room");
    let len = bundle.len();
    (bundle.close(me).expect(rt, "bytes"), len)
}

#[test]
fn the_last_acknowledgement_goes_behind_the_posts(rt: HostRuntime) {
    let (bytes, len) = bundled(&rt, id(1));
    let is_so = len == POST.len()
        && bytes.len() == POST.len() + ACK.len()
        && bytes.as_slice().starts_with(&POST)
        && bytes.as_slice().ends_with(&ACK);
    assert!(rt; is_so);
}
