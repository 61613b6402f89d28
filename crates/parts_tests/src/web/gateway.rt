//! The listener for clients that speak HTTP, before a node that the test plays.

use cc_connections::{Address, Flag};
use cc_web::{Gateway, WebSettings, end_web, serve_web};
use std::hash::RandomState;
use std::io::{Read, Write};
use std::net::{Net, SocketAddr, TcpListener, TcpStream};
use std::process::Abort;
use std::test::*;
use std::thread;
use std::time::Duration;

// The two last sessions: the node's own.
const LAST: u64 = 18_446_744_073_709_551_615;

const LAST_BUT_ONE: u64 = 18_446_744_073_709_551_614;

const STORED: &str =
    "HTTP/1.1 200 OK\r\ncontent-type: application/json\r\ncache-control: no-store\r\nx-content-type-options: nosniff\r\ncontent-length: 19\r\n\r\n{\"answer\":\"Stored\"}";

const PUT_A: &str = "PUT /v1/text HTTP/1.1\r\nhost: a\r\ncontent-length: 1\r\n\r\na";

const PUT_A_AS_7_1: &str =
    "PUT /v1/text HTTP/1.1\r\nhost: a\r\nidempotency-key: 7/1\r\ncontent-length: 1\r\n\r\na";

// The kinds of what a node tells: an answer, and a refusal with its number and what it carries.
const REPLY: u8 = 4;

const REFUSED: u8 = 5;

// Store `a`, as a command.
const STORE_A: [u8; 3] = [1, 1, 97];

// A client's connection, and the one to the node over which it is served.
#[derive(Drop)]
struct Lines {
    client: TcpStream,
    node: TcpStream,
}

impl Lines {
    // The client asks that, and hears nothing yet.
    fn asks<R: Abort>(&mut self, rt: &R, request: &str) {
        self.client
            .write_all(request.as_bytes())
            .expect(rt, "a request");
    }

    fn hears<R: Abort + AllocGlobal>(&mut self, rt: &R, response: &str) {
        is_read(rt, &mut self.client, response.as_bytes());
    }

    // The node is asked that under that number of a session.
    fn is_asked<R: Abort + AllocGlobal>(
        &mut self,
        rt: &R,
        session: u64,
        number: u64,
        command: &[u8],
    ) {
        let asked = frame(rt, 3, session, number, command);
        is_read(rt, &mut self.node, &asked);
        drop(asked);
    }

    // The node tells what stands behind the kind of the frame, the session and the number.
    fn tells<R: Abort + AllocGlobal>(
        &mut self,
        rt: &R,
        kind: u8,
        session: u64,
        number: u64,
        rest: &[u8],
    ) {
        let bytes = frame(rt, kind, session, number, rest);
        self.node.write_all(&bytes).expect(rt, "an answer");
        drop(bytes);
    }

    // The node is asked that under number 0, and tells the session's last request.
    fn tells_last<R: Abort + AllocGlobal>(
        &mut self,
        rt: &R,
        session: u64,
        command: &[u8],
        last: u8,
    ) {
        self.is_asked(rt, session, 0, command);
        self.tells(rt, REFUSED, session, 0, &[11, 0, 0, 0, 0, 0, 0, 0, last]);
    }
}

// A frame of that kind, with a session, a number and what stands behind them.
fn frame<R: Abort + AllocGlobal>(
    rt: &R,
    kind: u8,
    session: u64,
    number: u64,
    rest: &[u8],
) -> Vec<u8> {
    let mut bytes = Vec::new(rt.alloc());
    let length = u32::try_from(rest.len()).expect(rt, "a length");
    let length = length.saturating_add(17);
    bytes
        .extend_from_slice(&length.to_be_bytes())
        .expect(rt, "memory");
    bytes.push(kind).expect(rt, "memory");
    bytes
        .extend_from_slice(&session.to_be_bytes())
        .expect(rt, "memory");
    bytes
        .extend_from_slice(&number.to_be_bytes())
        .expect(rt, "memory");
    bytes.extend_from_slice(rest).expect(rt, "memory");
    bytes
}

// What comes over a connection.
fn is_read<R: Abort + AllocGlobal>(rt: &R, stream: &mut TcpStream, wanted: &[u8]) {
    let mut bytes = vec![in rt.alloc(); 0u8; wanted.len()].expect(rt, "memory");
    stream.read_exact(&mut bytes).expect(rt, "bytes");
    assert!(rt; bytes.as_slice() == wanted);
    drop(bytes);
}

const VIEW: &str =
    "HTTP/1.1 200 OK\r\ncontent-type: application/json\r\ncache-control: no-store\r\nx-content-type-options: nosniff\r\ncontent-length: 77\r\n\r\n{\"rows\":[{\"node\":1,\"number\":\"3\",\"text\":\"a\",\"max\":\"0\",\"flag\":false,\"set\":[]}]}";

// A view of the row of node 1: number 3, text `a`.
const SEEN: [u8; 27] = [
    2, 0, 1, 0, 0, 0, 1, 0, 0, 0, 0, 0, 0, 0, 3, 1, 97, 0, 0, 0, 0, 0, 0, 0, 0, 0, 0,
];

// One request under that number of the last session: what the node is asked and tells, and what the client hears.
fn carries<R: Abort + AllocGlobal>(
    rt: &R,
    lines: &mut Lines,
    number: u64,
    command: &[u8],
    answer: &[u8],
    response: &str,
) {
    lines.is_asked(rt, LAST, number, command);
    lines.tells(rt, REPLY, LAST, number, answer);
    lines.hears(rt, response);
}

// The four writes, under the node's own session, one number after the other.
fn write_all<R: Abort + AllocGlobal>(rt: &R, lines: &mut Lines) {
    lines.asks(rt, PUT_A);
    lines.tells_last(rt, LAST, &[6], 0);
    lines.tells_last(rt, LAST_BUT_ONE, &[6], 4);
    carries(rt, lines, 1, &STORE_A, &[1], STORED);
    lines.asks(
        rt,
        "PUT /v1/max HTTP/1.1\r\nhost: a\r\ncontent-length: 1\r\n\r\n7",
    );
    carries(rt, lines, 2, &[3, 0, 0, 0, 0, 0, 0, 0, 7], &[1], STORED);
    lines.asks(rt, "PUT /v1/flag HTTP/1.1\r\nhost: a\r\n\r\n");
    carries(rt, lines, 3, &[5], &[1], STORED);
    lines.asks(
        rt,
        "POST /v1/set HTTP/1.1\r\nhost: a\r\ncontent-length: 1\r\n\r\n5",
    );
    carries(rt, lines, 4, &[7, 0, 0, 0, 5], &[1], STORED);
}

// The four readings, and two collects that are a snapshot.
fn read_all<R: Abort + AllocGlobal>(rt: &R, lines: &mut Lines) {
    lines.asks(rt, "GET /v1/view HTTP/1.1\r\nhost: a\r\n\r\n");
    carries(rt, lines, 5, &[2], &SEEN, VIEW);
    lines.asks(rt, "GET /v1/max HTTP/1.1\r\nhost: a\r\n\r\n");
    let max =
        "HTTP/1.1 200 OK\r\ncontent-type: application/json\r\ncache-control: no-store\r\nx-content-type-options: nosniff\r\ncontent-length: 11\r\n\r\n{\"max\":\"7\"}";
    carries(rt, lines, 6, &[4], &[3, 0, 0, 0, 0, 0, 0, 0, 7], max);
    lines.asks(rt, "GET /v1/flag HTTP/1.1\r\nhost: a\r\n\r\n");
    let flag =
        "HTTP/1.1 200 OK\r\ncontent-type: application/json\r\ncache-control: no-store\r\nx-content-type-options: nosniff\r\ncontent-length: 13\r\n\r\n{\"flag\":true}";
    carries(rt, lines, 7, &[6], &[4, 1], flag);
    lines.asks(rt, "GET /v1/set HTTP/1.1\r\nhost: a\r\n\r\n");
    let set =
        "HTTP/1.1 200 OK\r\ncontent-type: application/json\r\ncache-control: no-store\r\nx-content-type-options: nosniff\r\ncontent-length: 17\r\n\r\n{\"set\":[\"1\",\"9\"]}";
    carries(rt, lines, 8, &[8], &[5, 0, 2, 0, 0, 0, 1, 0, 0, 0, 9], set);
    lines.asks(rt, "GET /v1/snapshot HTTP/1.1\r\nhost: a\r\n\r\n");
    lines.is_asked(rt, LAST, 9, &[2]);
    lines.tells(rt, REPLY, LAST, 9, &SEEN);
    let snapshot =
        "HTTP/1.1 200 OK\r\ncontent-type: application/json\r\ncache-control: no-store\r\nx-content-type-options: nosniff\r\ncontent-length: 90\r\n\r\n{\"rows\":[{\"node\":1,\"number\":\"3\",\"text\":\"a\",\"max\":\"0\",\"flag\":false,\"set\":[]}],\"collects\":2}";
    carries(rt, lines, 10, &[2], &SEEN, snapshot);
}

// The same with number 4.
const SEEN_LATER: [u8; 27] = [
    2, 0, 1, 0, 0, 0, 1, 0, 0, 0, 0, 0, 0, 0, 4, 1, 97, 0, 0, 0, 0, 0, 0, 0, 0, 0, 0,
];

// Who knows nothing is told what stands; who knows that, what comes later; and where nothing comes in time, nothing.
fn follow<R: Abort + AllocGlobal>(rt: &R, lines: &mut Lines) {
    lines.asks(rt, "GET /v1/changes HTTP/1.1\r\nhost: a\r\n\r\n");
    let first =
        "HTTP/1.1 200 OK\r\ncontent-type: text/event-stream\r\ncache-control: no-store\r\nx-content-type-options: nosniff\r\ncontent-length: 102\r\n\r\nretry: 100\nid: 3\ndata: {\"rows\":[{\"node\":1,\"number\":\"3\",\"text\":\"a\",\"max\":\"0\",\"flag\":false,\"set\":[]}]}\n\n";
    carries(rt, lines, 11, &[2], &SEEN, first);
    lines.asks(
        rt,
        "GET /v1/changes HTTP/1.1\r\nhost: a\r\nlast-event-id: 3\r\n\r\n",
    );
    lines.is_asked(rt, LAST, 12, &[2]);
    lines.tells(rt, REPLY, LAST, 12, &SEEN);
    let later =
        "HTTP/1.1 200 OK\r\ncontent-type: text/event-stream\r\ncache-control: no-store\r\nx-content-type-options: nosniff\r\ncontent-length: 102\r\n\r\nretry: 100\nid: 4\ndata: {\"rows\":[{\"node\":1,\"number\":\"4\",\"text\":\"a\",\"max\":\"0\",\"flag\":false,\"set\":[]}]}\n\n";
    carries(rt, lines, 13, &[2], &SEEN_LATER, later);
    lines.asks(
        rt,
        "GET /v1/changes?timeout=100ms HTTP/1.1\r\nhost: a\r\nlast-event-id: 4\r\n\r\n",
    );
    let nothing =
        "HTTP/1.1 200 OK\r\ncontent-type: text/event-stream\r\ncache-control: no-store\r\nx-content-type-options: nosniff\r\ncontent-length: 12\r\n\r\nretry: 100\n\n";
    carries(rt, lines, 14, &[2], &SEEN_LATER, nothing);
}

// What passes is asked again under its number. A session that somebody else uses is left for the other one.
fn ask_again<R: Abort + AllocGlobal>(rt: &R, lines: &mut Lines) {
    lines.asks(rt, PUT_A);
    lines.is_asked(rt, LAST, 15, &STORE_A);
    lines.tells(rt, REFUSED, LAST, 15, &[13, 0, 0, 0, 0, 0, 0, 0, 0]);
    lines.is_asked(rt, LAST, 15, &STORE_A);
    lines.tells(rt, REFUSED, LAST, 15, &[11, 0, 0, 0, 0, 0, 0, 0, 40]);
    lines.is_asked(rt, LAST_BUT_ONE, 5, &STORE_A);
    lines.tells(rt, REPLY, LAST_BUT_ONE, 5, &[1]);
    lines.hears(rt, STORED);
}

// A client's own key is asked as it stands, and its refusal is told.
fn ask_as_client<R: Abort + AllocGlobal>(rt: &R, lines: &mut Lines) {
    lines.asks(rt, PUT_A_AS_7_1);
    lines.is_asked(rt, 7, 1, &STORE_A);
    lines.tells(rt, REPLY, 7, 1, &[1]);
    lines.hears(rt, STORED);
    lines.asks(rt, PUT_A_AS_7_1);
    lines.is_asked(rt, 7, 1, &STORE_A);
    lines.tells(rt, REFUSED, 7, 1, &[11, 0, 0, 0, 0, 0, 0, 0, 3]);
    lines.hears(
        rt,
        "HTTP/1.1 409 Conflict\r\ncontent-type: application/problem+json\r\ncache-control: no-store\r\nx-content-type-options: nosniff\r\ncontent-length: 147\r\n\r\n{\"type\":\"about:blank\",\"title\":\"Conflict\",\"status\":409,\"detail\":\"the session is past this request\",\"refusal\":\"Stale\",\"number\":11,\"last_request\":\"3\"}",
    );
    lines.asks(rt, "GET /v1/sessions/7 HTTP/1.1\r\nhost: a\r\n\r\n");
    lines.tells_last(rt, 7, &[2], 3);
    lines.hears(
        rt,
        "HTTP/1.1 200 OK\r\ncontent-type: application/json\r\ncache-control: no-store\r\nx-content-type-options: nosniff\r\ncontent-length: 34\r\n\r\n{\"session\":\"7\",\"last_request\":\"3\"}",
    );
}

// What is no order asks nothing: the node hears the next ask at once.
fn ask_nothing<R: Abort + AllocGlobal>(rt: &R, lines: &mut Lines) {
    lines.asks(rt, "GET /v1/nothing HTTP/1.1\r\nhost: a\r\n\r\n");
    lines.hears(
        rt,
        "HTTP/1.1 404 Not Found\r\ncontent-type: application/problem+json\r\ncache-control: no-store\r\nx-content-type-options: nosniff\r\ncontent-length: 126\r\n\r\n{\"type\":\"about:blank\",\"title\":\"Not Found\",\"status\":404,\"detail\":\"there is nothing at this path: GET /v1/ tells what there is\"}",
    );
    lines.asks(
        rt,
        "OPTIONS /v1/text HTTP/1.1\r\nhost: a\r\norigin: http://a.example\r\n\r\n",
    );
    lines.hears(
        rt,
        "HTTP/1.1 204 No Content\r\naccess-control-allow-methods: PUT\r\ncache-control: no-store\r\nx-content-type-options: nosniff\r\naccess-control-allow-origin: http://a.example\r\naccess-control-allow-headers: content-type, idempotency-key\r\nvary: origin\r\n\r\n",
    );
}

// Where no answer comes in time, both connections end, so that it is never taken for that of a later ask.
fn wait_in_vain<R: Abort + AllocGlobal>(rt: &R, lines: &mut Lines) {
    lines.asks(
        rt,
        "PUT /v1/text?timeout=100ms HTTP/1.1\r\nhost: a\r\nidempotency-key: 7/4\r\ncontent-length: 1\r\n\r\na",
    );
    lines.is_asked(rt, 7, 4, &STORE_A);
    lines.hears(
        rt,
        "HTTP/1.1 504 Gateway Timeout\r\ncontent-type: application/problem+json\r\ncache-control: no-store\r\nx-content-type-options: nosniff\r\nconnection: close\r\ncontent-length: 119\r\n\r\n{\"type\":\"about:blank\",\"title\":\"Gateway Timeout\",\"status\":504,\"detail\":\"no answer in time: the write may still be done\"}",
    );
    let is_closed = matches!(lines.client.read(&mut [0]), Ok(0));
    assert!(rt; is_closed, "the client's connection ends");
    let is_closed = matches!(lines.node.read(&mut [0]), Ok(0));
    assert!(rt; is_closed, "the connection to the node ends");
}

// A client connects, and the gateway to the node.
fn talk<R: Abort + AllocGlobal + Net<Stream = TcpStream>>(
    rt: &R,
    web: SocketAddr,
    node: &TcpListener,
) {
    let client = TcpStream::connect(rt, web).expect(rt, "a connection");
    let (node, _) = node.accept().expect(rt, "a connection");
    for stream in [&client, &node] {
        stream
            .set_read_timeout(Some(Duration::from_secs(10)))
            .expect(rt, "a limit of reads");
    }
    let mut lines = Lines { client, node };
    write_all(rt, &mut lines);
    read_all(rt, &mut lines);
    follow(rt, &mut lines);
    ask_again(rt, &mut lines);
    ask_as_client(rt, &mut lines);
    ask_nothing(rt, &mut lines);
    wait_in_vain(rt, &mut lines);
    drop(lines);
}

#[test]
fn requests_are_asks_and_answers_are_responses(rt: HostRuntime) {
    let node = TcpListener::bind(&rt, "127.0.0.1:0").expect(&rt, "a port");
    let listener = TcpListener::bind(&rt, "127.0.0.1:0").expect(&rt, "a port");
    let at = node.local_addr().expect(&rt, "an address");
    let web = listener.local_addr().expect(&rt, "an address");
    let keys = RandomState::new(&rt).expect(&rt, "random bits");
    let settings = WebSettings {
        own_sessions: 2,
        allowed_origin: Some(b"http://a.example"),
    };
    let over = Flag::new();
    let gateway = Gateway::new(rt.alloc(), Address::from(at), settings, keys, &over);
    thread::join(
        &rt,
        || serve_web(&rt, &gateway, &listener),
        || {
            talk(&rt, web, &node);
            end_web(&rt, &over, &listener);
        },
    );
    drop((gateway, node, listener));
}
