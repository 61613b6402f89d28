//! A node's status as a table, out of what it answers over HTTP.

use cc_client::{Status, Table, body_of, reason_of};
use cc_command_line::HarmlessJson;
use serde_json::Value;

// A node that is ready, and one that isn't.
const READY: &str =
    r#"{"id":1,"version":"0.1.0","started":1795800000000,"now":1795800005000,"standing":"joined","is_ready":true,"reason":"","quorum":{"beta":"2/3","gamma":"4/5","members":3,"need":2,"may_be_away":1},"members":[1,2,3],"present":[1,2,3],"left":[],"view":[{"node":1,"number":3,"text":"colour=blue","max":0,"flag":false,"set":[7,9]},{"node":2,"number":1,"text":"\u001b[2J","max":5,"flag":true,"set":[]}],"round":{"phase":"Storing","session":7,"request":12,"others":0,"answers":1,"need":2,"since":1795800003000},"waiting":4,"share":1,"sessions":[{"session":7,"request":12}],"session_limit":256,"posts":{"made":12,"kept":1,"limit":512},"peers":[{"id":2,"address":"127.0.0.1:7002","connected_since":1795800000500,"absent_since":null,"behind":0,"acknowledged":12,"heard":40,"last_heard":1795800004900},{"id":3,"address":null,"connected_since":null,"absent_since":1795800002000,"behind":5,"acknowledged":7,"heard":0,"last_heard":null}],"disk":{"side":"A","generation":1,"bytes":14023,"records":80,"events":120},"counts":{"commits":80,"events":120,"checkpoints":0,"connections":2,"refusals":{"Busy":3,"Repeat":1},"asks":{"collect":2,"store":7},"batches":[[1,50],[2,75],[4,80],[8,80],[16,80],[32,80],[64,80]]},"syncs":{"count":160,"mean_us":410,"p50_us":380,"p99_us":2100,"worst_us":5400,"buckets":[[1000,150]]}}"#;

const READY_TABLE: &str = "\
node      1, version 0.1.0
standing  joined
ready     yes
quorum    2 of 3 members, 1 may be away, beta 2/3, gamma 4/5
members   1,2,3
left      none
round     Storing for 2 s, session 7, request 12, 0 others, 1 of 2 answers
waiting   4 asks
sessions  1 of 256
posts     1 of 512 kept, 12 made
counts    120 events in 80 batches, 2 connections
asked     collect 2, store 7
refused   Busy 3, Repeat 1
disk      side A, generation 1, 14023 bytes, 80 records, 120 events
syncs     160, mean 410 us, p50 380 us, p99 2100 us, worst 5400 us
peer      2 at 127.0.0.1:7002, connected for 4 s, behind by 0, acknowledged 12, heard 40
peer      3 without an address, absent for 3 s, behind by 5, acknowledged 7, heard 0
row       1, number 3, text \"colour=blue\", max 0, flag no, set 7,9
row       2, number 1, text \"\\u001b[2J\", max 5, flag yes, set none
";

const APART: &str =
    r#"{"id":4,"version":"0.1.0","now":5000,"standing":"apart","is_ready":false,"reason":"it hasn't entered yet","quorum":{"beta":"4/5","gamma":"4/5","members":0,"need":1,"may_be_away":0},"members":[],"left":[4,5],"round":null,"waiting":0,"sessions":[],"session_limit":256,"posts":{"made":0,"kept":0,"limit":512},"peers":[{"id":1,"address":"127.0.0.1:7001","connected_since":null,"absent_since":null,"behind":0,"acknowledged":0,"heard":0}],"disk":{"side":"B","generation":2,"bytes":154,"records":0,"events":0},"view":[],"counts":{"commits":0,"events":0,"connections":0,"asks":{},"refusals":{}},"syncs":{"count":0,"mean_us":0,"p50_us":0,"p99_us":0,"worst_us":0}}"#;

const APART_TABLE: &str = "\
node      4, version 0.1.0
standing  apart
ready     no: it hasn't entered yet
quorum    1 of 0 members, 0 may be away, beta 4/5, gamma 4/5
members   none
left      4,5
round     none
waiting   0 asks
sessions  0 of 256
posts     0 of 512 kept, 0 made
counts    0 events in 0 batches, 0 connections
asked     none
refused   none
disk      side B, generation 2, 154 bytes, 0 records, 0 events
syncs     0, mean 0 us, p50 0 us, p99 0 us, worst 0 us
peer      1 at 127.0.0.1:7001, not connected, behind by 0, acknowledged 0, heard 0
";

// One that tells numbers as strings, a text that isn't UTF-8, and a silent peer; and that lies to a terminal.
const LYING: &str =
    r#"{"id":1,"version":"0.1.0\u009b2J","now":5000,"standing":"joined\u202e","is_ready":false,"reason":"\r\u007f","quorum":{"beta":"2/3","gamma":"4/5","members":2,"need":2,"may_be_away":0},"members":[1,2],"left":[],"view":[{"node":1,"number":"18446744073709551615","text_base64":"//4=","max":"9007199254740993","flag":false,"set":[]},{"node":2,"number":"1","text":"\"\\\u2066","max":"0","flag":false,"set":[]}],"round":{"phase":"Storing","session":"18446744073709551615","request":"12","others":0,"answers":1,"need":2,"since":3000},"waiting":0,"sessions":[],"session_limit":256,"posts":{"made":"12","kept":1,"limit":512},"peers":[{"id":2,"address":"127.0.0.1:7002\u200f","connected_since":3000,"absent_since":null,"is_silent":true,"behind":"5","acknowledged":"7","heard":"0"}],"disk":{"side":"A","generation":"3","bytes":14023,"records":80,"events":120},"counts":{"commits":80,"events":120,"connections":2,"refusals":{},"asks":{"store\u001b":7}},"syncs":{"count":160,"mean_us":410,"p50_us":380,"p99_us":2100,"worst_us":5400}}"#;

const LYING_TABLE: &str = "\
node      1, version 0.1.0\\u009b2J
standing  joined\\u202e
ready     no: \\u000d\\u007f
quorum    2 of 2 members, 0 may be away, beta 2/3, gamma 4/5
members   1,2
left      none
round     Storing for 2 s, session 18446744073709551615, request 12, 0 others, 1 of 2 answers
waiting   0 asks
sessions  0 of 256
posts     1 of 512 kept, 12 made
counts    120 events in 80 batches, 2 connections
asked     store\\u001b 7
refused   none
disk      side A, generation 3, 14023 bytes, 80 records, 120 events
syncs     160, mean 410 us, p50 380 us, p99 2100 us, worst 5400 us
peer      2 at 127.0.0.1:7002\\u200f, connected for 2 s, silent, behind by 5, acknowledged 7, heard 0
row       1, number 18446744073709551615, text base64 \"//4=\", max 9007199254740993, flag no, set none
row       2, number 1, text \"\\\"\\\\\\u2066\", max 0, flag no, set none
";

const TABLES: [(&str, &str); 3] = [
    (READY, READY_TABLE),
    (APART, APART_TABLE),
    (LYING, LYING_TABLE),
];

#[test]
fn a_status_is_a_table(rt: HostRuntime) {
    for &(json, wanted) in &TABLES {
        let value = Value::from_str(rt.alloc(), json).expect(&rt, "a value");
        let table = Table(Status::of(&value).expect(&rt, "a status"));
        let shown = format!(in rt.alloc(); "{table}").expect(&rt, "a text");
        assert!(rt; shown.as_str() == wanted, "{wanted}");
        drop(table);
        drop(value);
    }
}

// Answers, and what stands behind their heads.
const ANSWERS: [(&[u8], Option<&[u8]>); 5] = [
    (
        b"HTTP/1.1 200 OK\r\nConnection: close\r\n\r\n{}",
        Some(b"{}"),
    ),
    (b"HTTP/1.1 200 OK\r\n\r\n", Some(b"")),
    (b"HTTP/1.1 404 Not Found\r\n\r\nno such page", None),
    (b"HTTP/1.1 200 OK\r\nConn", None),
    (b"\x00\x00\x00\x06", None),
];

// Answers of nodes that aren't ready, and why they aren't.
const REASONS: [(&[u8], Option<&str>); 3] = [
    (
        b"HTTP/1.1 503 Service Unavailable\r\n\r\n2 of 3 members are absent\n",
        Some("2 of 3 members are absent"),
    ),
    (b"HTTP/1.1 200 OK\r\n\r\nready\n", None),
    (b"HTTP/1.1 503 Service Unavailable\r\n\r\n\xff", None),
];

#[test]
fn a_body_or_a_reason_stands_behind_a_head(rt: HostRuntime) {
    for &(answer, wanted) in &ANSWERS {
        assert!(rt; body_of(answer) == wanted);
    }
    for &(answer, wanted) in &REASONS {
        assert!(rt; reason_of(answer) == wanted);
    }
}

// JSON as it came, and as a terminal is sent it: a text says the same.
#[test]
fn json_stays_the_same_in_a_line(rt: HostRuntime) {
    let came = "{\n\t\"text\": \"a\u{9b}2J\u{202e}\u{7f}\u{e4}\"\r\n}";
    let shown = format!(in rt.alloc(); "{}", HarmlessJson(came)).expect(&rt, "a text");
    let wanted = "{  \"text\": \"a\\u009b2J\\u202e\\u007f\u{e4}\"  }";
    assert!(rt; shown.as_str() == wanted);
    let first = Value::from_str(rt.alloc(), came).expect(&rt, "a value");
    let second = Value::from_str(rt.alloc(), wanted).expect(&rt, "a value");
    let is_same = first == second;
    drop((first, second, shown));
    assert!(rt; is_same);
}
