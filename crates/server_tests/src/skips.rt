//! Who gets an answer to a query, and who is told that it needn't wait for it; and that a node which is started again tells it
//! anew before anything else.

use crate::clients::sent;
use crate::greetings::greeted;
use crate::nodes::{Place, format, free_place, peer, run, while_one_runs};
use cc_channels::monotonic_millis;
use cc_connections::{Address, Stop};
use cc_intake::NoHooks;
use std::io::Read;
use std::net::{Net, SocketAddr, TcpStream};
use std::process::Abort;
use std::test::*;
use std::time::Clock;

// Node 2 asks what node 1 knows: Query 1 2, its first post.
const QUERY_OF_2: [u8; 30] = [
    0, 0, 0, 26, 1, 0, 0, 0, 2, 0, 0, 0, 0, 0, 0, 0, 1, 7, 0, 0, 0, 0, 0, 0, 0, 1, 0, 0, 0, 2,
];

// The answer, the first post of node 1: QueryReply [] 1 2.
const REPLY: [u8; 28] = [
    1, 0, 0, 0, 1, 0, 0, 0, 0, 0, 0, 0, 1, 8, 0, 0, 0, 0, 0, 0, 0, 0, 0, 1, 0, 0, 0, 2,
];

// The first post of node 1 is for others: Skip 1 1 1.
const SKIP: [u8; 21] = [
    32, 0, 0, 0, 1, 0, 0, 0, 0, 0, 0, 0, 1, 0, 0, 0, 0, 0, 0, 0, 1,
];

// No frame of this test is longer.
const LONGEST: usize = 64;

const ACK: u8 = 2;

// How often node 2 ends its connection.
const ENDED: u64 = 5;

// The next frame, with zeros behind it.
fn next_frame<R: Abort>(rt: &R, stream: &mut TcpStream) -> [u8; LONGEST] {
    let mut length = [0; 4];
    stream.read_exact(&mut length).expect(rt, "a length");
    let mut body = [0; LONGEST];
    let len = u32::from_be_bytes(length) as usize;
    assert!(rt; len <= LONGEST, "a short frame");
    stream.read_exact(&mut body[..len]).expect(rt, "a body");
    body
}

// The next frame that is no acknowledgement.
fn next_post<R: Abort>(rt: &R, stream: &mut TcpStream) -> [u8; LONGEST] {
    for _ in 0..100 {
        let body = next_frame(rt, stream);
        if body[0] != ACK {
            return body;
        }
    }
    panic!(rt; "a frame that is no acknowledgement")
}

// Node 2 asks, and is answered; node 3 is told that the answer is for others.
fn ask_as_2<R: Abort + Net<Stream = TcpStream>>(
    rt: &R,
    node: SocketAddr,
    second: &Place,
    third: &Place,
) {
    let mut to_2 = greeted(rt, second);
    let mut to_3 = greeted(rt, third);
    let _from_2 = sent(rt, node, &QUERY_OF_2);
    assert!(rt; next_post(rt, &mut to_2).starts_with(&REPLY));
    assert!(rt; next_post(rt, &mut to_3).starts_with(&SKIP));
}

// Neither peer has acknowledged the answer. Each is told of it first, before the sign of life of the first second.
fn hear_anew<R: Abort + Clock + Net<Stream = TcpStream>>(rt: &R, second: &Place, third: &Place) {
    hear_first(rt, second, &REPLY);
    hear_first(rt, third, &SKIP);
    // Node 2 has ended its connection. No write has to fail before it is connected to again, and no second has to pass.
    let start = monotonic_millis(rt);
    for _ in 0..ENDED {
        hear_first(rt, second, &REPLY);
    }
    assert!(rt;
        monotonic_millis(rt).saturating_sub(start) < ENDED * 1000,
        "soon"
    );
}

// What a peer hears first over its next connection, which it ends then.
fn hear_first<R: Abort + Net<Stream = TcpStream>>(rt: &R, peer: &Place, frame: &[u8]) {
    let mut from_node = greeted(rt, peer);
    assert!(rt; next_frame(rt, &mut from_node).starts_with(frame));
}

#[test]
fn an_answer_goes_to_the_node_that_asked(rt: HostRuntime) {
    format(&rt, "skipping-1", "1", "1,2,3", None, None);
    let alloc = rt.alloc();
    let second = free_place(&rt);
    let third = free_place(&rt);
    let Place {
        listener,
        address: node,
    } = free_place(&rt);
    let peers = [
        peer(&rt, 2, Address::from(second.address)),
        peer(&rt, 3, Address::from(third.address)),
    ];
    let stop = Stop::new();
    while_one_runs(
        &rt,
        &stop,
        node,
        || run(&rt, alloc, "skipping-1", listener, &peers, &stop, &NoHooks),
        || ask_as_2(&rt, node, &second, &third),
    );
    drop((second, third));
    // It is started again. Where the peers listen now, nobody has connected to before.
    let second = free_place(&rt);
    let third = free_place(&rt);
    let Place {
        listener,
        address: node,
    } = free_place(&rt);
    let peers = [
        peer(&rt, 2, Address::from(second.address)),
        peer(&rt, 3, Address::from(third.address)),
    ];
    let stop = Stop::new();
    while_one_runs(
        &rt,
        &stop,
        node,
        || run(&rt, alloc, "skipping-1", listener, &peers, &stop, &NoHooks),
        || hear_anew(&rt, &second, &third),
    );
    drop((second, third));
}
