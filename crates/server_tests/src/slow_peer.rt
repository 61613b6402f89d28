//! A peer that reads late gets all that was put for it, once and in order: what its socket took at once, and what was left to
//! its writer.

use crate::nodes::{Place, free_place};
use cc_channels::{Dialler, FarEnd, HelloExchange, PeerChannels, Waker, channels_to, dial_peer};
use cc_connections::{Address, Flag, Peer};
use cc_policies::Parcel;
use cc_views::NodeId;
use crossbeam_utils::sync::Parker;
use log::Log;
use std::alloc::Global;
use std::io::Read;
use std::net::{Net, TcpListener, TcpStream};
use std::process::Abort;
use std::sync::Wait;
use std::test::*;
use std::thread;
use std::time::{Clock, Duration};

// The first post has so many blocks, which are more bytes than two sockets hold.
const BLOCKS: u8 = 128;

const BLOCK: usize = 65_536;

// So many posts of one byte come behind it.
const SMALL_POSTS: u8 = 100;

// An acknowledgement of post 7 by node 1.
const ACK: [u8; 17] = [0, 0, 0, 13, 2, 0, 0, 0, 1, 0, 0, 0, 0, 0, 0, 0, 7];

fn node<R: Abort>(rt: &R, number: u32) -> NodeId {
    NodeId::new(number).expect(rt, "a node")
}

// Once the node is connected to its peer, puts a long post, of which each block has bytes of its own, short ones and an
// acknowledgement.
fn put_all<R: Abort + Wait + Clock>(rt: &R, alloc: Global, channels: &PeerChannels) {
    let me = node(rt, 1);
    let channel = channels.to(node(rt, 2)).expect(rt, "a channel");
    for _ in 0..1000 {
        if channel.connected_since().is_none() {
            thread::sleep(rt, Duration::from_millis(10));
        }
    }
    let mut long = Vec::new(alloc);
    for byte in 0..BLOCKS {
        long.extend_from_slice(&[byte; BLOCK]).expect(rt, "room");
    }
    channel.put(rt, me, Parcel::Post(long));
    for byte in 0..SMALL_POSTS {
        let mut small = Vec::new(alloc);
        small.push(byte).expect(rt, "room");
        channel.put(rt, me, Parcel::Post(small));
        channels.write(rt, me);
    }
    channel.put(rt, me, Parcel::Ack(7));
    channels.write(rt, me);
}

// All of it comes once, in its order.
fn read_all<R: Abort>(rt: &R, stream: &mut TcpStream) {
    let mut block = [0; BLOCK];
    for byte in 0..BLOCKS {
        stream.read_exact(&mut block).expect(rt, "a block");
        assert!(rt; block == [byte; BLOCK]);
    }
    for byte in 0..SMALL_POSTS {
        let mut small = [0];
        stream.read_exact(&mut small).expect(rt, "a short post");
        assert!(rt; small == [byte]);
    }
    let mut ack = [0; 17];
    stream.read_exact(&mut ack).expect(rt, "an acknowledgement");
    assert!(rt; ack == ACK);
}

// Nothing is read before all was put.
fn read_late<R: Abort + Wait + Clock + Net<Listener = TcpListener, Stream = TcpStream>>(
    rt: &R,
    alloc: Global,
    channels: &PeerChannels,
    listener: &TcpListener,
) {
    let (mut stream, _) = listener.accept().expect(rt, "a connection");
    stream
        .set_read_timeout(Some(Duration::from_secs(10)))
        .expect(rt, "a limit of reads");
    put_all(rt, alloc, channels);
    read_all(rt, &mut stream);
}

// Dials the peer at the far end as the node `me`, until the flag is set.
fn dial<R: Wait + Clock + Log + Net<Stream = TcpStream>>(
    rt: &R,
    alloc: Global,
    me: NodeId,
    hello_exchange: &HelloExchange,
    waker: &Waker,
    over: &Flag,
    end: FarEnd,
) {
    let dialler = Dialler {
        alloc,
        me,
        hello_exchange,
        waker,
        over,
    };
    dial_peer(rt, &dialler, end);
}

#[test]
fn a_peer_that_reads_late_gets_all_in_order(rt: HostRuntime) {
    let alloc = rt.alloc();
    let Place { listener, address } = free_place(&rt);
    let peer = Peer {
        id: node(&rt, 2),
        address: Address::from(address),
    };
    let (channels, mut ends) = channels_to(alloc, &[peer]).expect(&rt, "room");
    let end = ends.pop().expect(&rt, "an end");
    drop(ends);
    let parker = Parker::new(alloc).expect(&rt, "room");
    let waker = Waker::new(parker.unparker().clone().expect(&rt, "room"));
    let over = Flag::new();
    let hello_exchange = HelloExchange::new();
    let me = node(&rt, 1);
    thread::join(
        &rt,
        || dial(&rt, alloc, me, &hello_exchange, &waker, &over, end),
        || {
            read_late(&rt, alloc, &channels, &listener);
            over.set();
        },
    );
    drop((channels, waker, parker, listener, hello_exchange));
}
