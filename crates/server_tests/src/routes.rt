//! Which connection a reply goes to, and which connections a node keeps.

use crate::clients::{FIRST_ASK, FIRST_REPLY, connected, ends, reads};
use crate::hostile::OUT_OF_TURN;
use crate::nodes::{TwoMembers, run, two_members, while_two_run};
use cc_connections::Stop;
use cc_intake::NoHooks;
use std::io::{Read, Write};
use std::net::{Net, Shutdown, SocketAddr, TcpStream};
use std::process::Abort;
use std::test::*;
use std::thread;

// Session 7 asks under number 9, and asked under 1 before.
const NINTH_ASK: [u8; 24] = [
    0, 0, 0, 20, 3, 0, 0, 0, 0, 0, 0, 0, 7, 0, 0, 0, 0, 0, 0, 0, 9, 1, 1, 97,
];

// It is refused: Skip, since the session's last request is 1.
const NINTH_REFUSED: [u8; 30] = [
    0, 0, 0, 26, 5, 0, 0, 0, 0, 0, 0, 0, 7, 0, 0, 0, 0, 0, 0, 0, 9, 12, 0, 0, 0, 0, 0, 0, 0, 1,
];

// The refusal of an ask out of turn in session 9, which never asked before: Skip.
const OUT_OF_TURN_REFUSED: [u8; 30] = [
    0, 0, 0, 26, 5, 0, 0, 0, 0, 0, 0, 0, 9, 0, 0, 0, 0, 0, 0, 0, 3, 12, 0, 0, 0, 0, 0, 0, 0, 0,
];

// Node 2 acknowledges a post that it was never sent: it is refused, and nobody is told.
const ACK_OF_2: [u8; 17] = [0, 0, 0, 13, 2, 0, 0, 0, 2, 0, 0, 0, 0, 0, 0, 255, 1];

// Asks until the refusal shows that the first ask was taken.
fn ask_out_of_turn<R: Abort>(rt: &R, stream: &mut TcpStream) {
    let mut read = [0u8; 30];
    for _ in 0..1000 {
        stream.write_all(&NINTH_ASK).expect(rt, "the ask is sent");
        stream.read_exact(&mut read).expect(rt, "a reply");
        if read == NINTH_REFUSED {
            return;
        }
    }
    panic!(rt; "the ask out of turn is refused")
}

// A frame of node 2, and an ask, whose refusal shows that the frame was read.
fn speak<R: Abort + AllocGlobal>(rt: &R, stream: &mut TcpStream) {
    stream.write_all(&ACK_OF_2).expect(rt, "an ack");
    stream.write_all(&OUT_OF_TURN).expect(rt, "an ask");
    reads(rt, stream, &OUT_OF_TURN_REFUSED);
}

// A node has one connection to another: a newer one ends the older one. A store waits for node 2, which doesn't run yet.
// Another connection asks out of turn in its session, and is refused. Node 2 begins once both have asked. The reply goes to the
// first connection, which has said that nothing more comes, and ends then.
fn talk<R: Abort + AllocGlobal + Net<Stream = TcpStream>>(rt: &R, one: SocketAddr, begun: &Stop) {
    let mut older = connected(rt, one);
    speak(rt, &mut older);
    let mut newer = connected(rt, one);
    speak(rt, &mut newer);
    assert!(rt; ends(&mut older), "the older connection of a node ends");
    speak(rt, &mut newer);
    drop((older, newer));
    let mut first = connected(rt, one);
    let mut second = connected(rt, one);
    first.write_all(&FIRST_ASK).expect(rt, "the ask is sent");
    first.shutdown(Shutdown::Write).expect(rt, "a shutdown");
    ask_out_of_turn(rt, &mut second);
    begun.set();
    reads(rt, &mut first, &FIRST_REPLY);
    assert!(rt; ends(&mut first), "a connection ends once it is answered");
    drop((first, second));
}

// Waits for a flag, for so many turns of a thread at most.
fn await_flag(flag: &Stop) {
    for _ in 0..20_000_000u32 {
        if flag.is_set() {
            return;
        }
        thread::yield_now();
    }
}

#[test]
fn replies_go_to_who_asked_and_peers_have_one_connection(rt: HostRuntime) {
    let TwoMembers {
        first,
        second,
        one,
        two,
        of_1,
        of_2,
    } = two_members(&rt, "routed-1", "routed-2", "1,2");
    let begun = Stop::new();
    let stop = Stop::new();
    let alloc = rt.alloc();
    while_two_run(
        &rt,
        &stop,
        [one, two],
        || run(&rt, alloc, "routed-1", first, &of_1, &stop, &NoHooks),
        || {
            await_flag(&begun);
            run(&rt, alloc, "routed-2", second, &of_2, &stop, &NoHooks)
        },
        || talk(&rt, one, &begun),
    );
}
