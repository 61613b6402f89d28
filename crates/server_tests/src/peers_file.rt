//! The file of the peers, which changes while a node runs.

use crate::nodes::{Place, Setting, format, free_place, run_with, while_one_runs};
use cc_connections::Stop;
use cc_intake::NoHooks;
use std::fs;
use std::fs::{File, Files};
use std::net::{Net, SocketAddr, TcpListener, TcpStream};
use std::process::Abort;
use std::test::*;

const FILE: &str = "followed-peers";

// Puts lines in the file: of the node itself at an address of its own, and of node 2 at another one, at which the node connects
// to it.
fn lead<R: Abort + AllocGlobal + Files<File = File>>(
    rt: &R,
    own: SocketAddr,
    other: &Place,
) -> TcpStream {
    let address = other.address;
    let lines = format!(in rt.alloc(); "# all nodes\n1={own}\n\n 2={address}\n").expect(
        rt, "lines",
    );
    fs::write(rt, FILE, lines.as_str()).expect(rt, "the file is written");
    let (connection, _) = other.listener.accept().expect(rt, "a connection");
    connection
}

// Node 2 gets a line, and then another address. Between them stands a line with a fault.
fn move_peer<R>(rt: &R, own: SocketAddr)
where
    R: Abort + AllocGlobal + Files<File = File> + Net<Listener = TcpListener, Stream = TcpStream>,
{
    let first = free_place(rt);
    let second = free_place(rt);
    let connection = lead(rt, own, &first);
    fs::write(rt, FILE, "2 is elsewhere\n").expect(rt, "the file is written");
    let other = lead(rt, own, &second);
    drop((connection, other, first, second));
}

#[test]
fn a_peer_is_added_and_moved_while_a_node_runs(rt: HostRuntime) {
    format(&rt, "following-1", "1", "1,2", None, None);
    fs::write(&rt, FILE, "# nobody yet\n").expect(&rt, "the file is written");
    let Place {
        listener,
        address: node,
    } = free_place(&rt);
    let setting = Setting {
        peers_file: Some(FILE),
        ..Setting::of("following-1", node, &[])
    };
    let stop = Stop::new();
    let alloc = rt.alloc();
    while_one_runs(
        &rt,
        &stop,
        node,
        || run_with(&rt, alloc, &setting, listener, &stop, &NoHooks),
        || move_peer(&rt, node),
    );
}
