//! The words of the command line.

use cc_changes::Fraction;
use cc_command_line::{
    AnswerForm, AskOrder, AskWords, FormatWords, LeaveOrder, LogLevel, RetireOrder, RetireWords,
    RunOrder, RunWords, ShareOrder, Speech, StatusOrder, WordFault,
};
use cc_connections::{Address, Host};
use cc_messages::Command;
use cc_subcommands::FormatOrder;
use cc_views::NodeId;
use std::net::{IpAddr, Ipv4Addr};
use std::process::Abort;

fn local(port: u16) -> Address {
    Address {
        host: Host::Ip(IpAddr::V4(Ipv4Addr::new(127, 0, 0, 1))),
        port,
    }
}

// A node that runs by its address alone. Words are made by a call: a constant of them costs more to prove wherever it is named.
fn alone() -> RunWords<'static> {
    RunWords {
        listen: "127.0.0.1:7001",
        listen_clients: None,
        operators: None,
        speaks: None,
        peers: None,
        peers_file: None,
        status: None,
        http: None,
        http_sessions: None,
        http_origin: None,
        log: None,
    }
}

// The same words, but for that text in place of the one that a fault names.
fn alone_with(place: WordFault, text: &'static str) -> RunWords<'static> {
    let mut words = alone();
    match place {
        WordFault::Listen => words.listen = text,
        WordFault::ListenClients => words.listen_clients = Some(text),
        WordFault::Operators => words.operators = Some(text),
        WordFault::Speaks => words.speaks = Some(text),
        WordFault::Peers | WordFault::PeerTwice => words.peers = Some(text),
        WordFault::Status => words.status = Some(text),
        WordFault::Http => words.http = Some(text),
        WordFault::HttpSessions => words.http_sessions = Some(text),
        WordFault::HttpOrigin => words.http_origin = Some(text),
        _ => words.log = Some(text),
    }
    words
}

// Whether a node takes all from all, and has no peers, as where no option is given.
fn is_usual(order: &RunOrder) -> bool {
    order.listen == local(7001)
        && order.listen_clients.is_none()
        && order.remote_operators
        && order.speech == Speech::Now
        && order.peers.is_empty()
        && order.status.is_none()
        && order.http.is_none()
        && order.http_sessions == 64
        && order.log == LogLevel::Info
}

// Whether it has each of the options below.
fn has_all(order: &RunOrder) -> bool {
    order.listen == local(7001)
        && order.listen_clients == Some(local(7501))
        && !order.remote_operators
        && order.speech == Speech::Before
        && order.peers.len() == 1
        && order.names(id(2))
        && order.status == Some(local(8001))
        && order.http == Some(local(8080))
        && order.http_sessions == 256
        && order.log == LogLevel::Debug
}

fn id(number: u32) -> NodeId {
    NodeId::new(number.max(1)).unwrap()
}

// What a node is told by these words, and the lines of a file.
fn run_by<R: Abort + AllocGlobal>(rt: &R, words: &RunWords<'_>, lines: Option<&str>) -> RunOrder {
    RunOrder::parse(rt.alloc(), words, lines).expect(rt, "an order")
}

// The words of levels.
const LEVELS: [(&str, LogLevel); 4] = [
    ("error", LogLevel::Error),
    ("warn", LogLevel::Warn),
    ("info", LogLevel::Info),
    ("debug", LogLevel::Debug),
];

#[test]
fn run_has_what_its_words_say(rt: HostRuntime) {
    assert!(rt; is_usual(&run_by(&rt, &alone(), None)));
    let usual = RunWords {
        operators: Some("on"),
        speaks: Some("now"),
        http_origin: Some("http://localhost:3000"),
        ..alone()
    };
    assert!(rt; is_usual(&run_by(&rt, &usual, None)));
    let all = RunWords {
        listen: "127.0.0.1:7001",
        listen_clients: Some("127.0.0.1:7501"),
        operators: Some("off"),
        speaks: Some("0.1"),
        peers: Some("2=127.0.0.1:7002"),
        peers_file: None,
        status: Some("127.0.0.1:8001"),
        http: Some("127.0.0.1:8080"),
        http_sessions: Some("256"),
        http_origin: Some("https://localhost:3000"),
        log: Some("debug"),
    };
    assert!(rt; has_all(&run_by(&rt, &all, None)));
    for &(word, level) in &LEVELS {
        let order = run_by(&rt, &alone_with(WordFault::Log, word), None);
        assert!(rt; order.log == level, "{word}");
    }
}

const LINES: &str = "# all three\n1=127.0.0.1:7001\n2=127.0.0.1:7002\n3=127.0.0.1:7003\n";

// The words of a node by a file of peers.
fn by_lines() -> RunWords<'static> {
    RunWords {
        peers_file: Some("peers"),
        ..alone()
    }
}

// Node 1 passes its own line over, and no other.
#[test]
fn one_file_serves_all_nodes(rt: HostRuntime) {
    let mut order = run_by(&rt, &by_lines(), Some(LINES));
    assert!(rt; order.peers.len() == 3 && order.names(id(1)));
    order.pass_over(id(1));
    assert!(rt; order.peers.len() == 2 && !order.names(id(1)));
}

// A word that a node can't run by, and the fault that names its place.
const NO_RUNS: [(WordFault, &str); 15] = [
    (WordFault::Listen, "7001"),
    (WordFault::ListenClients, "7501"),
    (WordFault::Operators, "On"),
    (WordFault::Speaks, "0.2"),
    (WordFault::Peers, ""),
    (WordFault::PeerTwice, "2=127.0.0.1:7002,2=127.0.0.1:7003"),
    (WordFault::Status, "8001"),
    (WordFault::Http, "8080"),
    (WordFault::HttpSessions, "257"),
    (WordFault::HttpSessions, ""),
    (WordFault::HttpOrigin, "localhost:3000"),
    (WordFault::HttpOrigin, "http://"),
    (WordFault::HttpOrigin, "http://localhost:3000/"),
    (WordFault::HttpOrigin, "https://a b"),
    (WordFault::Log, "Info"),
];

// The lines of a file that a node can't run by, and the fault.
const NO_LINES: [(&str, WordFault); 2] = [
    ("\n2", WordFault::Line(2)),
    ("2=127.0.0.1:7002\n2=127.0.0.1:7003", WordFault::LineTwice),
];

#[test]
fn each_word_of_run_is_checked(rt: HostRuntime) {
    for &(fault, text) in &NO_RUNS {
        let refused = RunOrder::parse(rt.alloc(), &alone_with(fault, text), None).err();
        assert!(rt; refused == Some(fault), "{fault}");
    }
    for &(lines, fault) in &NO_LINES {
        let refused = RunOrder::parse(rt.alloc(), &by_lines(), Some(lines)).err();
        assert!(rt; refused == Some(fault), "{fault}");
    }
    let both = RunWords {
        peers_file: Some("peers"),
        ..alone_with(WordFault::Peers, "2=127.0.0.1:7002")
    };
    let refused = RunOrder::parse(rt.alloc(), &both, Some("")).err();
    assert!(rt; refused == Some(WordFault::PeersTwice));
}

fn collect() -> AskWords<'static> {
    AskWords {
        address: "127.0.0.1:7001",
        session: "7",
        command: "collect",
        value: None,
        text: None,
        request: None,
        timeout: None,
        form: AnswerForm::Plain,
        waits: false,
        snapshot: false,
        status: None,
    }
}

// An ask waits ten seconds by itself.
#[test]
fn ask_has_what_its_words_say(rt: HostRuntime) {
    let mut words = collect();
    assert!(rt; AskOrder::parse(&words) == Ok(AskOrder::new(local(7001), 7, Command::Collect, 10)));
    words.request = Some("12");
    words.timeout = Some("60");
    words.form = AnswerForm::Json;
    words.waits = true;
    words.status = Some("127.0.0.1:8001");
    let mut wanted = AskOrder::new(local(7001), 7, Command::Collect, 60);
    wanted.request = Some(12);
    wanted.form = AnswerForm::Json;
    wanted.waits = true;
    wanted.status = Some(local(8001));
    assert!(rt; AskOrder::parse(&words) == Ok(wanted));
}

// What the words of a snapshot ask for.
fn snapshot() -> AskOrder {
    let mut order = AskOrder::new(local(7001), 7, Command::Collect, 10);
    order.snapshot = true;
    order
}

// By its own word, and by an option of a reading that has no number.
#[test]
fn a_snapshot_is_read(rt: HostRuntime) {
    let mut words = collect();
    words.command = "snapshot";
    assert!(rt; AskOrder::parse(&words) == Ok(snapshot()));
    words.request = Some("12");
    assert!(rt; AskOrder::parse(&words) == Err(WordFault::Snapshot));
    let mut words = collect();
    words.snapshot = true;
    assert!(rt; AskOrder::parse(&words) == Ok(snapshot()));
    words.command = "flag";
    assert!(rt; AskOrder::parse(&words) == Err(WordFault::Snapshot));
}

// A bad text, and the fault that names its place.
const NO_ASKS: [(WordFault, &str); 7] = [
    (WordFault::Address, "7001"),
    (WordFault::Session, "07"),
    (WordFault::Command, "collects"),
    (WordFault::Request, "0"),
    (WordFault::Request, "012"),
    (WordFault::Timeout, "1.5"),
    (WordFault::Status, "8001"),
];

#[test]
fn each_word_of_ask_is_checked(rt: HostRuntime) {
    for &(fault, text) in &NO_ASKS {
        let mut words = collect();
        match fault {
            WordFault::Address => words.address = text,
            WordFault::Session => words.session = text,
            WordFault::Command => words.command = text,
            WordFault::Request => words.request = Some(text),
            WordFault::Status => words.status = Some(text),
            _ => words.timeout = Some(text),
        }
        assert!(rt; AskOrder::parse(&words) == Err(fault), "{fault}");
    }
}

const ADDRESS: &str = "127.0.0.1:7001";

// What the words of `retire` ask for, with the text of a file of peers where one is named.
fn retirement<'a, R: AllocGlobal>(
    rt: &R,
    first: &'a str,
    second: Option<&'a str>,
    lines: Option<&'a str>,
) -> Result<RetireOrder, WordFault> {
    let words = RetireWords {
        first,
        second,
        peers_file: None,
        alive: false,
    };
    RetireOrder::parse(rt.alloc(), &words, lines)
}

const LIST: &str = "127.0.0.1:7001,127.0.0.1:7002";

// Words that retire nobody, the text of a file with them, and why.
const NO_RETIREMENTS: [(&str, Option<&str>, Option<&str>, WordFault); 9] = [
    (ADDRESS, Some("0"), None, WordFault::Node),
    ("7001", Some("3"), None, WordFault::Address),
    ("127.0.0.1:7001,7002", Some("3"), None, WordFault::Addresses),
    (
        "127.0.0.1:7001,127.0.0.1:7001",
        Some("3"),
        None,
        WordFault::AddressTwice,
    ),
    (ADDRESS, None, None, WordFault::Retirement),
    (ADDRESS, Some("3"), Some(LINES), WordFault::Retirement),
    ("3", None, Some("3=127.0.0.1:7003"), WordFault::NobodyElse),
    (
        "3",
        None,
        Some("1=127.0.0.1:7001\n2=127.0.0.1:7001"),
        WordFault::LineAddressTwice,
    ),
    ("3", None, Some("1:127.0.0.1:7001"), WordFault::Line(1)),
];

// Node 3 is retired where one node or several are told, or all others of a file.
#[test]
fn words_of_retire_are_checked(rt: HostRuntime) {
    let one = retirement(&rt, ADDRESS, Some("3"), None).expect(&rt, "an order");
    assert!(rt; one.addresses.as_slice() == [local(7001)].as_slice());
    assert!(rt; one.node == id(3) && !one.even_alive);
    let both = [local(7001), local(7002)];
    let two = retirement(&rt, LIST, Some("3"), None).expect(&rt, "an order");
    assert!(rt; two.addresses.as_slice() == both.as_slice() && two.node == id(3));
    let others = retirement(&rt, "3", None, Some(LINES)).expect(&rt, "an order");
    assert!(rt; others == two);
    for &(first, second, lines, fault) in &NO_RETIREMENTS {
        let refused = retirement(&rt, first, second, lines).err();
        assert!(rt; refused == Some(fault), "{fault}");
    }
}

// The share that a node there is to have.
fn share_told(address: &str, word: &str) -> Result<u8, WordFault> {
    let order = ShareOrder::parse(address, word)?;
    Ok(order.share.asks())
}

#[test]
fn the_operator_names_a_node_and_a_share_from_1_to_32(rt: HostRuntime) {
    let address = local(7001);
    assert!(rt; LeaveOrder::parse(ADDRESS) == Ok(LeaveOrder { address }));
    assert!(rt; LeaveOrder::parse("") == Err(WordFault::Address));
    let refused = StatusOrder::parse("8001", AnswerForm::Plain, false).err();
    assert!(rt; refused == Some(WordFault::Address));
    for &(word, share) in &[("1", 1), ("8", 8), ("32", 32)] {
        assert!(rt; share_told(ADDRESS, word) == Ok(share), "{word}");
    }
    for &word in &["0", "33", "257", "4294967297", "08", "-1", "a", ""] {
        assert!(rt;
            share_told(ADDRESS, word) == Err(WordFault::NewShare),
            "{word}"
        );
    }
    assert!(rt; share_told("7001", "8") == Err(WordFault::Address));
}

/// The words of a node of that id alone.
pub fn format_of(id: &str) -> FormatWords<'_> {
    FormatWords {
        id,
        initial: None,
        contacts: None,
        beta: None,
        gamma: None,
        share: None,
        cluster: None,
    }
}

/// The same words, but for that text in place of the one that a fault names.
pub fn with<'a>(words: &FormatWords<'a>, place: WordFault, text: &'a str) -> FormatWords<'a> {
    let mut words = *words;
    match place {
        WordFault::Id => words.id = text,
        WordFault::Initial => words.initial = Some(text),
        WordFault::Contacts => words.contacts = Some(text),
        WordFault::Beta => words.beta = Some(text),
        WordFault::Gamma => words.gamma = Some(text),
        WordFault::Cluster => words.cluster = Some(text),
        _ => words.share = Some(text),
    }
    words
}

// A bad text, and the fault that names its place.
const NO_FORMATS: [(WordFault, &str); 9] = [
    (WordFault::Id, "04"),
    (WordFault::Initial, "4,"),
    (WordFault::Contacts, ""),
    (WordFault::Beta, "4"),
    (WordFault::Gamma, "4/-5"),
    (WordFault::Share, "032"),
    (WordFault::Cluster, ""),
    (WordFault::Cluster, "a b"),
    (WordFault::Cluster, LONG_NAME),
];

// 65 letters.
const LONG_NAME: &str = "aaaaaaaaaaaaaaaaaaaaaaaaaaaaaaaaaaaaaaaaaaaaaaaaaaaaaaaaaaaaaaaaa";

// What stands where the options are left out, and each word that is of another form.
#[test]
fn words_of_format_are_checked(rt: HostRuntime) {
    let order = FormatOrder::parse(rt.alloc(), &format_of("4")).expect(&rt, "an order");
    let most = Fraction { num: 4, den: 5 };
    assert!(rt; order.id == 4 && order.initial.is_empty() && order.contacts.is_empty());
    assert!(rt; (order.beta, order.gamma, order.share) == (most, most, 1));
    drop(order);
    for &(fault, text) in &NO_FORMATS {
        let words = with(&format_of("4"), fault, text);
        let refused = FormatOrder::parse(rt.alloc(), &words).err();
        assert!(rt; refused == Some(fault), "{fault}");
    }
}
