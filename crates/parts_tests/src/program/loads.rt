//! Loads: their words, and what is printed of what they measure.

use cc_client::{Report, Tally};
use cc_command_line::{AnswerForm, LoadOrder, LoadWords, WordFault};
use cc_messages::Refusal;
use std::process::Abort;

// Words are made by a call: a constant of them costs more to prove wherever it is named.
fn load(collects: bool) -> LoadWords<'static> {
    LoadWords {
        addresses: "127.0.0.1:7001,127.0.0.1:7002",
        clients: Some("4"),
        seconds: None,
        sessions_from: None,
        collects,
        form: AnswerForm::Plain,
    }
}

const PRINTED: &str = "\
answered  6 stores in 2.000 s, 3 a second, 4 clients
times     p50 0.900 ms, p99 5.250 ms, worst 5.250 ms
up to       1.024 ms         4  ########################################
up to       2.048 ms         1  ##########
up to       4.096 ms         0
up to       8.192 ms         1  ##########
again     17 requests, for which the nodes were too busy
lost      2 connections
ended     1 clients early, refused 9 TooManySessions
";

const AS_JSON: &str =
    r#"{"operation":"store","clients":4,"answered":6,"elapsed_us":2000000,"per_second":3,"p50_us":900,"p99_us":5250,"worst_us":5250,"buckets":[{"up_to_us":1024,"count":4},{"up_to_us":2048,"count":1},{"up_to_us":4096,"count":0},{"up_to_us":8192,"count":1}],"again":17,"lost":2,"ended":1,"refused":"9 TooManySessions","in_use":0}"#;

const NOTHING_ANSWERED: &str = "answered  0 collects in 2.000 s, 0 a second, 4 clients\n";

const NOTHING_AS_JSON: &str =
    r#"{"operation":"collect","clients":4,"answered":0,"elapsed_us":2000000,"per_second":0,"p50_us":0,"p99_us":0,"worst_us":0,"buckets":[],"again":0,"lost":0,"ended":0,"refused":null,"in_use":0}"#;

// Just this is printed of a load of two seconds, as text and as JSON.
fn check_printed<R: Abort + AllocGlobal>(
    rt: &R,
    collects: bool,
    tally: &Tally,
    wanted: &str,
    as_json: &str,
) {
    let order = LoadOrder::parse(rt.alloc(), &load(collects)).expect(rt, "an order");
    let report = Report::of(rt.alloc(), &order, 2_000_000, tally).expect(rt, "a report");
    drop(order);
    let printed = format!(in rt.alloc(); "{report}").expect(rt, "a text");
    let json = report.json(rt.alloc()).expect(rt, "a text");
    drop(report);
    assert!(rt; printed.as_str() == wanted, "{wanted}");
    assert!(rt; json.as_str() == as_json, "{as_json}");
}

// Where nothing was answered, and of what two clients counted.
#[test]
fn a_load_is_printed(rt: HostRuntime) {
    let mut tally = Tally::new(rt.alloc());
    check_printed(&rt, true, &tally, NOTHING_ANSWERED, NOTHING_AS_JSON);
    for &micros in &[900, 520] {
        tally.latencies.add(micros).expect(&rt, "room");
    }
    tally.again = 12;
    let mut other = Tally::new(rt.alloc());
    for &micros in &[1500, 1000, 5250, 800] {
        other.latencies.add(micros).expect(&rt, "room");
    }
    other.again = 5;
    other.lost = 2;
    other.end(Some(Refusal::TooManySessions));
    tally.add(&other);
    check_printed(&rt, false, &tally, PRINTED, AS_JSON);
    drop((tally, other));
}

// A text of another form, and the fault that names its place.
const BAD_WORDS: [(WordFault, &str); 7] = [
    (WordFault::Addresses, "127.0.0.1:7001,"),
    (WordFault::AddressTwice, "127.0.0.1:7001,127.0.0.1:7001"),
    (WordFault::Clients, "0"),
    (WordFault::Clients, "257"),
    (WordFault::Seconds, "0"),
    (WordFault::Seconds, "1.5"),
    (WordFault::SessionsFrom, "18446744073709551615"),
];

// Clients, and the port and the session of each, of four at two nodes.
const CLIENTS: [(u64, u16, u64); 3] = [(0, 7001, 9000), (1, 7002, 9000), (2, 7001, 9001)];

#[test]
fn words_of_load_are_checked_and_clients_go_round_the_nodes(rt: HostRuntime) {
    for &(fault, text) in &BAD_WORDS {
        let mut words = load(false);
        match fault {
            WordFault::Addresses | WordFault::AddressTwice => words.addresses = text,
            WordFault::Clients => words.clients = Some(text),
            WordFault::Seconds => words.seconds = Some(text),
            _ => words.sessions_from = Some(text),
        }
        let refused = LoadOrder::parse(rt.alloc(), &words).err();
        assert!(rt; refused == Some(fault), "{fault}");
    }
    let order = LoadOrder::parse(rt.alloc(), &load(false)).expect(&rt, "an order");
    for &(client, port, session) in &CLIENTS {
        let found = order.session_of(client);
        assert!(rt; matches!(found, Some((address, at)) if address.port == port && at == session));
    }
    drop(order);
}
