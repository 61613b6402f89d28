//! The words of commands, addresses and peers.

use crate::sets::id;
use cc_command_line::{LineFault, address, command, peers, peers_in_lines, store_of};
use cc_connections::{Address, Host, HostName, Peer};
use cc_messages::Command;
use std::net::{IpAddr, Ipv4Addr, Ipv6Addr};
use std::process::Abort;

fn local(port: u16) -> Address {
    Address {
        host: Host::Ip(IpAddr::V4(Ipv4Addr::new(127, 0, 0, 1))),
        port,
    }
}

const NO_ADDRESSES: [&str; 20] = [
    "",
    "127.0.0.1",
    "127.0.0.1:",
    ":7001",
    "127.0.0.1:07001",
    "127.0.0.1:65536",
    "127.0.0.01:7001",
    "127.0.0.256:7001",
    "127.0.0.1:7001 ",
    "127.0.0.1:70:01",
    "::1:7001",
    "[::1]",
    "[::1:7001",
    "[127.0.0.1]:7001",
    "[localhost]:7001",
    "[fe80::1%2]:7001",
    "localhost.:7001",
    "1:7001",
    "node.7:7001",
    "node 1:7001",
];

// Words, and the segments of the IPv6 address that each is, and its port.
const SIXES: [(&str, [u16; 8], u16); 3] = [
    ("[::1]:7001", [0, 0, 0, 0, 0, 0, 0, 1], 7001),
    (
        "[::ffff:1.2.3.4]:1",
        [0, 0, 0, 0, 0, 0xffff, 0x102, 0x304],
        1,
    ),
    ("[1:2:3:4:5:6:7:FF]:0", [1, 2, 3, 4, 5, 6, 7, 0xff], 0),
];

#[test]
fn addresses_have_one_spelling(rt: HostRuntime) {
    assert!(rt; address("127.0.0.1:65535") == Some(local(65_535)));
    for &(word, [a, b, c, d, e, f, g, h], port) in &SIXES {
        let host = Host::Ip(IpAddr::V6(Ipv6Addr::new(a, b, c, d, e, f, g, h)));
        assert!(rt; address(word) == Some(Address { host, port }), "{word}");
    }
    for &word in &NO_ADDRESSES {
        assert!(rt; address(word).is_none(), "{word}");
    }
}

// Addresses, and what they are printed as.
const PRINTED: [(&str, &str); 3] = [
    ("127.0.0.1:7001", "127.0.0.1:7001"),
    ("[0:0::1]:7001", "[::1]:7001"),
    ("Node-1.example:0", "Node-1.example:0"),
];

#[test]
fn addresses_are_printed_as_they_are_written(rt: HostRuntime) {
    for &(word, printed) in &PRINTED {
        let address = address(word).expect(&rt, "an address");
        let text = format!(in rt.alloc(); "{address}").expect(&rt, "room");
        assert!(rt; text.as_str() == printed, "{printed}");
        drop(text);
    }
}

// Names of machines.
const NAMES: [&str; 5] = ["a", "node-1.example", "NODE_2", "1.2.3.4a", "0x7f"];

// What isn't one: nothing, an end that is a number, and other characters.
const NO_NAMES: [&str; 7] = ["", "a.", "1.2.3", "a.1", "a b", "a:b", "\u{e4}"];

#[test]
fn names_of_machines_end_in_no_number_and_have_253_bytes_at_most(rt: HostRuntime) {
    for &name in &NAMES {
        let found = HostName::new(name);
        assert!(rt; matches!(found, Some(it) if it.as_str() == name), "{name}");
    }
    for &name in &NO_NAMES {
        assert!(rt; HostName::new(name).is_none(), "{name}");
    }
    let mut long = String::new(rt.alloc());
    for _ in 0..253 {
        long.push('a').expect(&rt, "room");
    }
    assert!(rt; HostName::new(long.as_str()).is_some(), "253 bytes");
    long.push('a').expect(&rt, "room");
    assert!(rt; HostName::new(long.as_str()).is_none(), "254 bytes");
    drop(long);
}

const NO_PEERS: [&str; 7] = [
    "",
    "2=",
    "0=127.0.0.1:7002",
    "02=127.0.0.1:7002",
    "4294967296=127.0.0.1:7002",
    "2=127.0.0.1:7002,",
    "2=127.0.0.1:7002, 3=127.0.0.1:7003",
];

// Whether the word names these peers. None where it names none.
fn names<R: Abort + AllocGlobal>(rt: &R, word: &str, wanted: &[Peer]) -> Option<bool> {
    let named = peers(rt.alloc(), word).expect(rt, "an answer");
    match &named {
        Some(peers) => Some(peers.as_slice() == wanted),
        None => None,
    }
}

// Lines that name nodes 2 and 3, in that order.
const LINES: [&str; 2] = [
    "2=127.0.0.1:7002\n3=127.0.0.1:7003",
    "# the cluster\n\n 2=127.0.0.1:7002 \r\n  # two of them\n\t3=127.0.0.1:7003\n\n#",
];

// Lines of which one says something else, and its number.
const BAD_LINES: [(&str, usize); 4] = [
    ("2", 1),
    ("2=127.0.0.1:7002\n\nlocalhost", 3),
    ("2=127.0.0.1:7002\n3=127.0.0.1\n4", 2),
    ("2=127.0.0.1:7002 # two", 1),
];

// Whether the lines name these peers.
fn name<R: Abort + AllocGlobal>(rt: &R, lines: &str, wanted: &[Peer]) -> bool {
    let named = peers_in_lines(rt.alloc(), lines).expect(rt, "peers");
    named.as_slice() == wanted
}

fn peer(number: u32, port: u16) -> Peer {
    Peer {
        id: id(number),
        address: local(port),
    }
}

#[test]
fn peers_stand_in_a_list(rt: HostRuntime) {
    let wanted = [peer(3, 7003), peer(2, 7002)];
    let falling = names(&rt, "3=127.0.0.1:7003,2=127.0.0.1:7002", &wanted);
    assert!(rt; falling == Some(true));
    for &word in &NO_PEERS {
        assert!(rt; names(&rt, word, &[]).is_none(), "{word}");
    }
}

#[test]
fn peers_stand_on_lines_and_the_first_bad_one_is_told(rt: HostRuntime) {
    let wanted = [peer(2, 7002), peer(3, 7003)];
    for &lines in &LINES {
        assert!(rt; name(&rt, lines, &wanted), "{lines}");
    }
    for &(lines, number) in &BAD_LINES {
        let fault = peers_in_lines(rt.alloc(), lines).err();
        assert!(rt; fault == Some(LineFault::NoPeer(number)), "{lines}");
    }
}

const NO_COMMANDS: [&[&str]; 5] = [
    &["store", "a b"],
    &["max", "01"],
    &["add", "4294967296"],
    &["collect", "a"],
    &["Collect"],
];

// A text of 64 bytes. One that is stored may have blanks and any characters, but 1 to 64 bytes.
const LONG_TEXT: &str = "0123456789abcdef0123456789abcdef0123456789abcdef0123456789abcdef";

#[test]
fn commands_are_those_of_scripts(rt: HostRuntime) {
    assert!(rt; command(&["max", "9"]) == Some(Command::WriteMax(9)));
    assert!(rt; command(&["add", "0"]) == Some(Command::AddMember(0)));
    assert!(rt; command(&["readset"]) == Some(Command::ReadSet));
    for &words in &NO_COMMANDS {
        assert!(rt; command(words) == None);
    }
    let taken = [
        store_of("two words").is_some(),
        store_of(LONG_TEXT).is_some(),
        store_of("").is_some(),
    ];
    assert!(rt; taken == [true, true, false]);
}
