//! Two nodes that know each other by names: what clients and the operator are told, whatever others send.

use crate::ask::{ask_all, check_asked, operate};
use crate::clients::{
    FIRST_ASK, FIRST_REPLY, OTHER_ASK, OTHER_REPLY, THIRD_ASK, THIRD_REFUSED, connected, ends,
    exchange, reads, sent,
};
use crate::held_sync::Hold;
use crate::hostile::attack;
use crate::load::check_load;
use crate::nodes::{TwoMembers, free_place, peer, run, two_members, while_two_run};
use cc_connections::{Address, Host, HostName, Stop};
use cc_intake::NoHooks;
use std::io::Write;
use std::net::{Net, Shutdown, SocketAddr, TcpListener, TcpStream};
use std::process::Abort;
use std::sync::Wait;
use std::test::*;
use std::thread::Threads;
use std::time::Clock;

// Session 7 asks under number 1: store `b`, where `a` stands under that number.
const ANOTHER_ASK: [u8; 24] = [
    0, 0, 0, 20, 3, 0, 0, 0, 0, 0, 0, 0, 7, 0, 0, 0, 0, 0, 0, 0, 1, 1, 1, 98,
];

// It is refused: Stale, with the session's last request.
const STALE: [u8; 30] = [
    0, 0, 0, 26, 5, 0, 0, 0, 0, 0, 0, 0, 7, 0, 0, 0, 0, 0, 0, 0, 1, 11, 0, 0, 0, 0, 0, 0, 0, 1,
];

// Node 1 is to be retired, and node 2 if it is silent.
const RETIRE_ITSELF: [u8; 9] = [0, 0, 0, 5, 7, 0, 0, 0, 1];

const RETIRE_IF_SILENT: [u8; 9] = [0, 0, 0, 5, 36, 0, 0, 0, 2];

// The node that was asked is the one to be retired; the node to be retired was heard a moment ago.
const ITSELF: [u8; 30] = [
    0, 0, 0, 26, 5, 0, 0, 0, 0, 0, 0, 0, 0, 0, 0, 0, 0, 0, 0, 0, 0, 32, 0, 0, 0, 0, 0, 0, 0, 0,
];

const ALIVE: [u8; 30] = [
    0, 0, 0, 26, 5, 0, 0, 0, 0, 0, 0, 0, 0, 0, 0, 0, 0, 0, 0, 0, 0, 33, 0, 0, 0, 0, 0, 0, 0, 0,
];

// Node 2 is to be retired, twice over one connection.
const RETIRE_TWICE: [u8; 18] = [0, 0, 0, 5, 7, 0, 0, 0, 2, 0, 0, 0, 5, 7, 0, 0, 0, 2];

// The second request is refused: Left, with 0 for the session and the request.
const REFUSED: [u8; 30] = [
    0, 0, 0, 26, 5, 0, 0, 0, 0, 0, 0, 0, 0, 0, 0, 0, 0, 0, 0, 0, 0, 1, 0, 0, 0, 0, 0, 0, 0, 0,
];

// Up to 4 asks are to begin together, twice over one connection.
const SHARE_TWICE: [u8; 12] = [0, 0, 0, 2, 37, 4, 0, 0, 0, 2, 37, 4];

// The second request is refused: NothingToAck.
const SAME_SHARE: [u8; 30] = [
    0, 0, 0, 26, 5, 0, 0, 0, 0, 0, 0, 0, 0, 0, 0, 0, 0, 0, 0, 0, 0, 7, 0, 0, 0, 0, 0, 0, 0, 0,
];

// A place on loopback, by the name of this machine.
fn named<R: Abort>(rt: &R, place: SocketAddr) -> Address {
    Address {
        host: Host::Name(HostName::new("localhost").expect(rt, "a name")),
        port: place.port(),
    }
}

// Two sessions ask while a sync is held, and read then.
fn ask_both<R: Abort + AllocGlobal + Net<Stream = TcpStream>>(rt: &R, one: SocketAddr) {
    let mut client = connected(rt, one);
    let mut other = connected(rt, one);
    client.write_all(&FIRST_ASK).expect(rt, "the ask is sent");
    other.write_all(&OTHER_ASK).expect(rt, "the ask is sent");
    reads(rt, &mut client, &FIRST_REPLY);
    reads(rt, &mut other, &OTHER_REPLY);
}

// What was answered is answered again, also to who sends nothing more, who reads the end then. Under its number no other
// command is taken, and no request out of turn.
fn ask_again<R: Abort + AllocGlobal + Net<Stream = TcpStream>>(rt: &R, one: SocketAddr) {
    exchange(rt, one, &FIRST_ASK, &FIRST_REPLY);
    exchange(rt, one, &OTHER_ASK, &OTHER_REPLY);
    exchange(rt, one, &THIRD_ASK, &THIRD_REFUSED);
    exchange(rt, one, &ANOTHER_ASK, &STALE);
    for _ in 0..20u32 {
        let mut stream = sent(rt, one, &FIRST_ASK);
        stream.shutdown(Shutdown::Write).expect(rt, "a shutdown");
        reads(rt, &mut stream, &FIRST_REPLY);
        assert!(rt; ends(&mut stream), "and then the end");
    }
}

// What the server objects to is told, and ends the connection.
fn object<R: Abort + AllocGlobal + Net<Stream = TcpStream>>(
    rt: &R,
    one: SocketAddr,
    bytes: &[u8],
    wanted: &[u8],
) {
    let mut stream = sent(rt, one, bytes);
    reads(rt, &mut stream, wanted);
    assert!(rt; ends(&mut stream), "the connection ends");
}

// The first request makes nothing that anyone waits for, and yet its two syncs are made before the second is answered.
fn tell_twice<R: Abort + AllocGlobal + Net<Stream = TcpStream>>(
    rt: &R,
    one: SocketAddr,
    hold: &Hold,
    both: &[u8],
    refused: &[u8],
) {
    let mut stream = connected(rt, one);
    let before = hold.syncs();
    stream.write_all(both).expect(rt, "both are sent");
    reads(rt, &mut stream, refused);
    let made = hold.syncs().saturating_sub(before);
    assert!(rt; made >= 2, "what is told is durable");
}

// Clients talk with both nodes. Each node needs the other for what they ask. The second of two loads in the same sessions
// learns where the first one ended. Then the operator comes.
fn talk<R>(rt: &R, one: SocketAddr, two: SocketAddr, hold: &Hold)
where
    R: Abort
        + AllocGlobal
        + Net<Listener = TcpListener, Stream = TcpStream>
        + Threads
        + Wait
        + Clock
        + Sync,
{
    let alloc = rt.alloc();
    ask_both(rt, one);
    ask_again(rt, one);
    attack(rt, one);
    ask_again(rt, one);
    object(rt, one, &RETIRE_ITSELF, &ITSELF);
    object(rt, one, &RETIRE_IF_SILENT, &ALIVE);
    ask_all(rt, named(rt, one));
    check_asked(
        rt,
        named(rt, two),
        &["collect"],
        "Seen [1:8=a%3db/9/1/5+6]\n",
    );
    let addresses = format!(in alloc; "{one},{two}").expect(rt, "a text");
    check_load(rt, alloc, &addresses, false);
    check_load(rt, alloc, &addresses, true);
    tell_twice(rt, one, hold, &SHARE_TWICE, &SAME_SHARE);
    tell_twice(rt, one, hold, &RETIRE_TWICE, &REFUSED);
    operate(rt, named(rt, one));
}

#[test]
fn two_nodes_answer_and_what_they_tell_is_durable(rt: HostRuntime) {
    let TwoMembers {
        first,
        second,
        one,
        two,
        ..
    } = two_members(&rt, "two-1", "two-2", "1,2");
    let of_1 = [peer(&rt, 2, named(&rt, two))];
    let of_2 = [peer(&rt, 1, named(&rt, one))];
    let hold = Hold::new();
    let stop = Stop::new();
    let alloc = rt.alloc();
    while_two_run(
        &rt,
        &stop,
        [one, two],
        || run(&rt, alloc, "two-1", first, &of_1, &stop, &hold),
        || run(&rt, alloc, "two-2", second, &of_2, &stop, &NoHooks),
        || talk(&rt, one, two, &hold),
    );
    assert!(rt;
        hold.has_held(),
        "two accepts are answered while a sync is held"
    );
}

// A port that was free, and is listened at by the machine's name.
#[test]
fn a_name_is_listened_at(rt: HostRuntime) {
    let address = named(&rt, free_place(&rt).address);
    let listener = TcpListener::bind(&rt, address).expect(&rt, "a listener");
    let place = listener.local_addr().expect(&rt, "an address");
    assert!(rt; place.ip().is_loopback());
    assert!(rt; place.port() == address.port);
    drop(listener);
}
