//! A node by itself: those who look at it over HTTP, a port for clients alone, and asks over one connection that begin
//! together. It hears the operator on its own machine alone.

use crate::ask::check_asked;
use crate::clients::{
    FIRST_ASK, FIRST_REPLY, OTHER_ASK, OTHER_REPLY, check_closed, ends, exchange, reads, sent,
};
use crate::nodes::{Place, Setting, format, free_address, free_place, run_with, while_one_runs};
use cc_connections::{Address, Stop};
use cc_intake::NoHooks;
use serde_json::Value;
use std::io::{Read, Write};
use std::net::{Net, Shutdown, SocketAddr, TcpStream};
use std::process::Abort;
use std::test::*;
use std::time::{Clock, Duration};
use std::{str, thread};

// What is answered to whom, in the first line and in the last one. The head of the 404 has no text behind it.
const ASKED: [(&str, &str, &str); 5] = [
    (
        "GET /healthz HTTP/1.1\r\n\r\n",
        "HTTP/1.1 200 OK\r\n",
        "ok\n",
    ),
    (
        "GET /readyz HTTP/1.1\r\n\r\n",
        "HTTP/1.1 200 OK\r\n",
        "ready\n",
    ),
    ("GET /view HTTP/1.1\r\n\r\n", "HTTP/1.1 200 OK\r\n", VIEW),
    (
        "HEAD /nothing HTTP/1.1\r\n\r\n",
        "HTTP/1.1 404 Not Found\r\n",
        "\r\n\r\n",
    ),
    (
        "POST / HTTP/1.1\r\n\r\n",
        "HTTP/1.1 405 Method Not Allowed\r\n",
        "\n",
    ),
];

const VIEW: &str = r#"[{"node":1,"number":"1","text":"a","max":"0","flag":false,"set":[]}]"#;

// Where the status counts one: the node's number, its member, and its ask.
const ONES: [&str; 3] = ["/id", "/members/0", "/counts/asks/store"];

// In digits: its row, its session, whose first request was the reading before its store, and how often the node was moved, once
// as it was started.
const IN_DIGITS: [(&str, &str); 3] = [
    ("/view/0/number", "1"),
    ("/sessions/0/request", "2"),
    ("/disk/generation", "2"),
];

// All that a node answers to these bytes.
fn asked<R: Abort + AllocGlobal + Net<Stream = TcpStream>>(
    rt: &R,
    place: SocketAddr,
    request: &str,
) -> Vec<u8> {
    let mut answer = Vec::new(rt.alloc());
    let mut stream = TcpStream::connect(rt, place).expect(rt, "a connection");
    stream
        .write_all(request.as_bytes())
        .expect(rt, "the request is sent");
    stream.read_to_end(&mut answer).expect(rt, "an answer");
    answer
}

// Whether the node says that it is ready. It may not listen yet.
fn is_ready<R: Abort + AllocGlobal + Net<Stream = TcpStream>>(rt: &R, place: SocketAddr) -> bool {
    if TcpStream::connect(rt, place).is_err() {
        return false;
    }
    let answer = asked(rt, place, "GET /readyz HTTP/1.1\r\n\r\n");
    answer.as_slice().ends_with(b"\r\n\r\nready\n")
}

// Waits until the node says that it is ready, for ten seconds at most.
fn wait_until_ready<R: Abort + AllocGlobal + Net<Stream = TcpStream> + Clock>(
    rt: &R,
    place: SocketAddr,
) {
    for _ in 0..100 {
        if is_ready(rt, place) {
            return;
        }
        thread::sleep(rt, Duration::from_millis(100));
    }
    panic!(rt; "the node isn't ready")
}

fn check_numbers<R: Abort>(rt: &R, status: &Value) {
    for &path in &ONES {
        assert!(rt; number_at(status, path) == Some(1), "{path}");
    }
    for &(path, digits) in &IN_DIGITS {
        let found = status.pointer(path).expect(rt, "a member");
        assert!(rt; found.as_str() == Some(digits), "{path}");
    }
    assert!(rt;
        number_at(status, "/quorum/away") == Some(0),
        "nobody is away"
    );
    let commits = number_at(status, "/counts/commits");
    assert!(rt;
        number_at(status, "/counts/batches/6/1") == commits,
        "its batches"
    );
}

fn number_at(status: &Value, path: &str) -> Option<u64> {
    status.pointer(path)?.as_u64()
}

// What the node shows is JSON, with what it has stored once a second has passed.
fn check_status<R: Abort + AllocGlobal + Net<Stream = TcpStream>>(rt: &R, place: SocketAddr) {
    let answer = asked(rt, place, "GET /status.json HTTP/1.1\r\n\r\n");
    let answer = str::from_utf8(&answer).expect(rt, "a text");
    let (_, text) = answer.split_once("\r\n\r\n").expect(rt, "a head");
    let status = Value::from_str(rt.alloc(), text).expect(rt, "JSON");
    check_numbers(rt, &status);
    drop(status);
}

// Looks at the node, before and after a store of session 6.
fn look<R: Abort + AllocGlobal + Net<Stream = TcpStream> + Clock>(
    rt: &R,
    node: SocketAddr,
    place: SocketAddr,
) {
    wait_until_ready(rt, place);
    check_asked(rt, Address::from(node), &["store", "a"], "Stored\n");
    thread::sleep(rt, Duration::from_millis(2500));
    check_status(rt, place);
    for &(request, first, last) in &ASKED {
        let answer = asked(rt, place, request);
        assert!(rt;
            answer.as_slice().starts_with(first.as_bytes()),
            "{request}"
        );
        assert!(rt; answer.as_slice().ends_with(last.as_bytes()), "{request}");
    }
}

// Node 9, which nobody knows, says that it joined. A store would wait for it from then on.
const JOIN_OF_9: [u8; 22] = [
    0, 0, 0, 18, 1, 0, 0, 0, 9, 0, 0, 0, 0, 0, 0, 0, 1, 3, 0, 0, 0, 9,
];

// It acknowledges a post.
const ACK_OF_9: [u8; 17] = [0, 0, 0, 13, 2, 0, 0, 0, 9, 0, 0, 0, 0, 0, 0, 0, 1];

// Node 1, which is asked, is to be retired.
const RETIRE_1: [u8; 9] = [0, 0, 0, 5, 7, 0, 0, 0, 1];

const LEAVE: [u8; 5] = [0, 0, 0, 1, 6];

const LEAVE_TWICE: [u8; 10] = [0, 0, 0, 1, 6, 0, 0, 0, 1, 6];

// The second one is refused: Left, with 0 for the session and the request.
const REFUSED: [u8; 30] = [
    0, 0, 0, 26, 5, 0, 0, 0, 0, 0, 0, 0, 0, 0, 0, 0, 0, 0, 0, 0, 0, 1, 0, 0, 0, 0, 0, 0, 0, 0,
];

// Session 7 asks under number 2: store `a`.
const SECOND_ASK: [u8; 24] = [
    0, 0, 0, 20, 3, 0, 0, 0, 0, 0, 0, 0, 7, 0, 0, 0, 0, 0, 0, 0, 2, 1, 1, 97,
];

// Its answer.
const SECOND_REPLY: [u8; 22] = [
    0, 0, 0, 18, 4, 0, 0, 0, 0, 0, 0, 0, 7, 0, 0, 0, 0, 0, 0, 0, 2, 1,
];

// What is no ask.
const MISUSES: [(&[u8], &str); 4] = [
    (&JOIN_OF_9, "a message"),
    (&ACK_OF_9, "an ack"),
    (&RETIRE_1, "a retirement"),
    (&LEAVE, "a leave"),
];

// Where the last byte of the session stands in an ask and in a reply.
const SESSION_PLACE: usize = 12;

// These bytes for each of the sessions 40 to 72, one after the other.
fn of_each_session<R: Abort + AllocGlobal>(rt: &R, bytes: &[u8]) -> Vec<u8> {
    let head = bytes.get(..SESSION_PLACE).expect(rt, "a head");
    let rest = bytes.get(SESSION_PLACE + 1..).expect(rt, "a rest");
    let mut all = Vec::new(rt.alloc());
    for session in 40..73u8 {
        all.extend_from_slice(head).expect(rt, "room");
        all.push(session).expect(rt, "room");
        all.extend_from_slice(rest).expect(rt, "room");
    }
    all
}

// 33 sessions store in one write, and nothing more comes. Each is answered, in the order of the asks, and then the connection
// ends.
fn ask_together<R: Abort + AllocGlobal + Net<Stream = TcpStream>>(rt: &R, node: SocketAddr) {
    let asks = of_each_session(rt, &FIRST_ASK);
    let replies = of_each_session(rt, &FIRST_REPLY);
    let mut client = sent(rt, node, &asks);
    client.shutdown(Shutdown::Write).expect(rt, "a shutdown");
    reads(rt, &mut client, &replies);
    assert!(rt; ends(&mut client), "a connection ends once all is answered");
}

// Over the port for clients asks are answered. Whatever else comes there closes the connection, and changes nothing. On its own
// machine the node hears the operator.
fn talk<R: Abort + AllocGlobal + Net<Stream = TcpStream>>(
    rt: &R,
    node: SocketAddr,
    clients: SocketAddr,
) {
    exchange(rt, node, &OTHER_ASK, &OTHER_REPLY);
    exchange(rt, clients, &FIRST_ASK, &FIRST_REPLY);
    check_closed(rt, clients, &MISUSES);
    exchange(rt, clients, &SECOND_ASK, &SECOND_REPLY);
    ask_together(rt, node);
    exchange(rt, node, &LEAVE_TWICE, &REFUSED);
}

#[test]
fn a_node_is_looked_at_and_serves_clients_at_a_port_of_their_own(rt: HostRuntime) {
    format(&rt, "alone-1", "1", "1", None, Some("32"));
    let shown = free_address(&rt);
    let clients = free_address(&rt);
    let Place {
        listener,
        address: node,
    } = free_place(&rt);
    let setting = Setting {
        listen_clients: Some(Address::from(clients)),
        remote_operators: false,
        status: Some(Address::from(shown)),
        ..Setting::of("alone-1", node, &[])
    };
    let stop = Stop::new();
    let alloc = rt.alloc();
    while_one_runs(
        &rt,
        &stop,
        node,
        || run_with(&rt, alloc, &setting, listener, &stop, &NoHooks),
        || {
            look(&rt, node, shown);
            talk(&rt, node, clients);
        },
    );
}
