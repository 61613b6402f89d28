//! Greetings between nodes: who is taken, what is sent before, and that an old copy of a folder ends.

use crate::clients::{ends, sent};
use crate::nodes::{Place, Setting, format, free_place, peer, run_with, while_one_runs};
use cc_channels::ReadText;
use cc_command_line::Identity;
use cc_connections::{Address, ClusterName, Peer, Stop};
use cc_intake::{Finished, NoHooks};
use cc_server::RunFault;
use log::Log;
use std::alloc::Global;
use std::fs::{File, Files};
use std::io::{Read, Write};
use std::net::{Net, SocketAddr, TcpListener, TcpStream};
use std::process::Abort;
use std::sync::Wait;
use std::test::*;
use std::thread;
use std::thread::Threads;
use std::time::{Clock, Duration};

// Node 2 of the cluster `blue` greets node 1, by 4/5 and 4/5, with birth 7 and run 9. It has heard nothing.
const HELLO: [u8; 58] = [
    0, 0, 0, 54, 33, 4, 98, 108, 117, 101, 0, 0, 0, 2, 0, 0, 0, 1, 0, 0, 0, 4, 0, 0, 0, 5, 0, 0, 0,
    4, 0, 0, 0, 5, 0, 0, 0, 0, 0, 0, 0, 7, 0, 0, 0, 0, 0, 0, 0, 9, 0, 0, 0, 0, 0, 0, 0, 0,
];

// How long the greeting is of a node whose cluster has no name.
const NAMELESS: usize = 54;

// Node 1 is taken, and nothing of it was heard.
const WELCOME: [u8; 13] = [0, 0, 0, 9, 34, 0, 0, 0, 0, 0, 0, 0, 0];

// Node 2 has heard node 1 up to number 0, and node 3 has.
const ACK_OF_2: [u8; 17] = [0, 0, 0, 13, 2, 0, 0, 0, 2, 0, 0, 0, 0, 0, 0, 0, 0];

const ACK_OF_3: [u8; 17] = [0, 0, 0, 13, 2, 0, 0, 0, 3, 0, 0, 0, 0, 0, 0, 0, 0];

// The operator retires node 2.
const RETIRE_2: [u8; 9] = [0, 0, 0, 5, 7, 0, 0, 0, 2];

// A byte of the greeting that has another value, and the reason for which it isn't welcome: another cluster, another node, the
// own id, another birth, another beta and another gamma.
const UNWELCOME: [(usize, u8, u8); 6] = [
    (6, 99, 1),
    (17, 3, 2),
    (13, 1, 3),
    (41, 8, 4),
    (21, 3, 5),
    (29, 3, 5),
];

/// The next connection to a peer, where it is greeted by a node without a cluster's name, and takes it.
pub(crate) fn greeted<R: Abort>(rt: &R, peer: &Place) -> TcpStream {
    let (mut stream, _) = peer.listener.accept().expect(rt, "a connection");
    let mut hello = [0; NAMELESS];
    stream.read_exact(&mut hello).expect(rt, "a greeting");
    assert!(rt; hello.starts_with(&[0, 0, 0, 50, 33, 0]));
    stream.write_all(&WELCOME).expect(rt, "a welcome");
    stream
}

// The node of a folder, with birth 5 in the cluster `blue`.
fn blue<R: Abort>(rt: &R) -> Identity {
    Identity {
        cluster: ClusterName::new(b"blue").ok().expect(rt, "a name"),
        birth: 5,
    }
}

// What comes back over a connection.
fn check_read<R: Abort>(rt: &R, stream: &mut TcpStream, wanted: &[u8]) {
    let mut bytes = [0; 13];
    let part = bytes.get_mut(..wanted.len()).expect(rt, "a part");
    stream.read_exact(part).expect(rt, "an answer");
    assert!(rt; bytes.starts_with(wanted));
}

fn check_refused<R: Abort + Net<Stream = TcpStream>>(
    rt: &R,
    node: SocketAddr,
    hello: &[u8],
    reason: u8,
) {
    let mut stream = sent(rt, node, hello);
    // Node 1 isn't taken, for that reason.
    check_read(rt, &mut stream, &[0, 0, 0, 6, 35, reason, 0, 0, 0, 1]);
    assert!(rt; ends(&mut stream), "a node that isn't taken is hung up on");
}

// Who greets, and who doesn't. A node that has left isn't taken: the flusher tells of it at each tick.
fn visit<R: Abort + Clock + Net<Stream = TcpStream>>(rt: &R, node: SocketAddr) {
    let mut ungreeted = sent(rt, node, &ACK_OF_2);
    assert!(rt; ends(&mut ungreeted), "nothing is taken before a greeting");
    let mut stream = sent(rt, node, &HELLO);
    check_read(rt, &mut stream, &WELCOME);
    stream.write_all(&ACK_OF_2).expect(rt, "its own frame");
    stream.write_all(&ACK_OF_3).expect(rt, "another one's");
    assert!(rt; ends(&mut stream), "a node speaks for itself alone");
    let mut twice = sent(rt, node, &HELLO);
    check_read(rt, &mut twice, &WELCOME);
    twice.write_all(&HELLO).expect(rt, "a second greeting");
    assert!(rt; ends(&mut twice), "a node greets once");
    for (place, value, reason) in UNWELCOME {
        let mut hello = HELLO;
        if let Some(byte) = hello.get_mut(place) {
            *byte = value;
        }
        check_refused(rt, node, &hello, reason);
    }
    drop((ungreeted, stream, twice));
    let retiring = sent(rt, node, &RETIRE_2);
    thread::sleep(rt, Duration::from_millis(2200));
    check_refused(rt, node, &HELLO, 6);
    drop(retiring);
}

// Nothing comes behind a greeting until it is answered, and then a sign of life does.
fn take<R: Abort + Net<Stream = TcpStream>>(rt: &R, peer: &Place) {
    let (mut stream, _) = peer.listener.accept().expect(rt, "a connection");
    let mut hello = [0; 58];
    stream.read_exact(&mut hello).expect(rt, "a greeting");
    let mut wanted = HELLO;
    wanted[13] = 1;
    wanted[17] = 2;
    wanted[41] = 5;
    wanted[49] = 1;
    assert!(rt; hello == wanted, "what node 1 greets with");
    stream
        .set_read_timeout(Some(Duration::from_millis(500)))
        .expect(rt, "a limit of reads");
    assert!(rt; stream.read(&mut [0]).is_err(), "nothing comes");
    stream.write_all(&WELCOME).expect(rt, "a welcome");
    stream
        .set_read_timeout(Some(Duration::from_secs(10)))
        .expect(rt, "a limit of reads");
    check_read(rt, &mut stream, &[0, 0, 0, 13, 2, 0, 0, 0, 1]);
    drop(stream);
}

// Runs the node of a folder with that identity until the flag is set.
fn run_as<R>(
    rt: &R,
    alloc: Global,
    folder: &str,
    identity: Identity,
    listener: TcpListener,
    peers: &[Peer],
    stop: &Stop,
) -> Result<Finished<()>, RunFault>
where
    R: Files<File = File>
        + Net<Listener = TcpListener, Stream = TcpStream>
        + Threads
        + Wait
        + Clock
        + ReadText
        + Log
        + Sync,
{
    let listen = listener.local_addr().or(Err(RunFault::Listen))?;
    let setting = Setting {
        identity,
        ..Setting::of(folder, listen, peers)
    };
    run_with(rt, alloc, &setting, listener, stop, &NoHooks)
}

#[test]
fn a_node_is_taken_as_a_node_of_the_same_cluster_alone(rt: HostRuntime) {
    format(&rt, "greeting-1", "1", "1,2", None, None);
    let second = free_place(&rt);
    let Place {
        listener,
        address: node,
    } = free_place(&rt);
    let peers = [peer(&rt, 2, Address::from(second.address))];
    let identity = blue(&rt);
    let stop = Stop::new();
    let alloc = rt.alloc();
    while_one_runs(
        &rt,
        &stop,
        node,
        || run_as(&rt, alloc, "greeting-1", identity, listener, &peers, &stop),
        || {
            take(&rt, &second);
            visit(&rt, node);
        },
    );
    drop(second);
}

// Node 2 is greeted, and says up to which number it has heard node 1.
fn welcome<R: Abort>(rt: &R, listener: &TcpListener, heard: u8) -> TcpStream {
    let (mut stream, _) = listener.accept().expect(rt, "a connection");
    let mut hello = [0; 58];
    stream.read_exact(&mut hello).expect(rt, "a greeting");
    let mut welcome = WELCOME;
    welcome[12] = heard;
    stream.write_all(&welcome).expect(rt, "a welcome");
    stream
}

// Somebody says that node 2 has heard more than node 1 ever posted: then node 1 asks the peer itself, which says something
// else, and goes on. It ends once the peer says so too.
fn greet_with_more<R: Abort + Net<Stream = TcpStream>>(
    rt: &R,
    listener: &TcpListener,
    node: SocketAddr,
) {
    let mut hello = HELLO;
    hello[57] = 3;
    let first = welcome(rt, listener, 0);
    let mut stream = sent(rt, node, &hello);
    assert!(rt; ends(&mut stream), "who says so isn't taken");
    let second = welcome(rt, listener, 0);
    let mut other = HELLO;
    other[6] = 99;
    check_refused(rt, node, &other, 1);
    drop((first, second));
    let mut third = welcome(rt, listener, 3);
    assert!(rt; ends(&mut third), "the node ends");
    drop(third);
}

#[test]
fn an_old_copy_ends_once_its_peer_says_so(rt: HostRuntime) {
    format(&rt, "greeting-2", "1", "1,2", None, None);
    let second = free_place(&rt);
    let Place {
        listener,
        address: node,
    } = free_place(&rt);
    let peers = [peer(&rt, 2, Address::from(second.address))];
    let identity = blue(&rt);
    let stop = Stop::new();
    let alloc = rt.alloc();
    let (ended, ()) = thread::join(
        &rt,
        || run_as(&rt, alloc, "greeting-2", identity, listener, &peers, &stop),
        || greet_with_more(&rt, &second.listener, node),
    );
    drop(second);
    let Err(
        RunFault::OldCopy {
            peer,
            heard,
            posted,
        },
    ) = ended
    else {
        panic!(rt; "a node on an old copy of its folder")
    };
    assert!(rt; (peer, heard, posted) == (2, 3, 0));
}
