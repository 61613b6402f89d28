//! Clients of a node that runs: what they print, and the status that they end with.

use crate::nodes::free_address;
use cc_client::{Silence, Told, ask_node, leave_node, retire_node, share_node};
use cc_command_line::{AnswerForm, AskOrder, LeaveOrder, RetireOrder, ShareOrder, command};
use cc_connections::Address;
use cc_messages::Share;
use cc_views::NodeId;
use std::alloc::Global;
use std::io;
use std::net::{Net, TcpStream};
use std::process::Abort;
use std::test::*;
use std::time::Clock;

// What is asked of node 1 in turn behind two stores, and what its client prints.
const ASKED: [(&[&str], &str); 9] = [
    (&["store", "a=b"], "Stored\n"),
    (&["max", "9"], "Stored\n"),
    (&["max", "3"], "Stored\n"),
    (&["flag"], "Stored\n"),
    (&["add", "5"], "Stored\n"),
    (&["collect"], "Seen [1:7=a%3db/9/1/5]\n"),
    (&["readmax"], "Max 9\n"),
    (&["readflag"], "Flag 1\n"),
    (&["readset"], "Set [5]\n"),
];

// The same as JSON, and with the number of a request: what was done under it, and what is no longer. Each of the thirteen asks
// without one took two numbers, one for its reading.
const ASKED_AS_JSON: [(&[&str], Option<u64>, Told, &str); 7] = [
    (
        &["collect"],
        None,
        DONE,
        "{\"answer\":\"Seen\",\"view\":[{\"node\":1,\"number\":\"7\",\"text\":\"a=b\",\"max\":\"9\",\"flag\":true,\"set\":[5]}]}\n",
    ),
    (
        &["readmax"],
        None,
        DONE,
        "{\"answer\":\"Max\",\"max\":\"9\"}\n",
    ),
    (
        &["readflag"],
        None,
        DONE,
        "{\"answer\":\"Flag\",\"flag\":true}\n",
    ),
    (
        &["readset"],
        None,
        DONE,
        "{\"answer\":\"Set\",\"set\":[5]}\n",
    ),
    (&["add", "6"], Some(27), DONE, "{\"answer\":\"Stored\"}\n"),
    (&["add", "6"], Some(27), DONE, "{\"answer\":\"Stored\"}\n"),
    (
        &["add", "7"],
        Some(29),
        REFUSED,
        "{\"refused\":\"Skip\",\"number\":12,\"carries\":\"27\"}\n",
    ),
];

// What each reading prints of a snapshot after that, where nobody else writes.
const SNAPSHOTS: [(&[&str], AnswerForm, &str); 5] = [
    (
        &["collect"],
        AnswerForm::Plain,
        "Seen [1:8=a%3db/9/1/5+6]\ncollects 2\n",
    ),
    (&["readmax"], AnswerForm::Plain, "Max 9\ncollects 2\n"),
    (&["readflag"], AnswerForm::Plain, "Flag 1\ncollects 2\n"),
    (&["readset"], AnswerForm::Plain, "Set [5,6]\ncollects 2\n"),
    (
        &["readmax"],
        AnswerForm::Json,
        "{\"answer\":\"Max\",\"max\":\"9\",\"collects\":2}\n",
    ),
];

/// What was asked was done.
pub(crate) const DONE: Told = Told {
    status: 0,
    silence: None,
    advice: None,
};

const REFUSED: Told = Told {
    status: 1,
    silence: None,
    advice: None,
};

// Whether a client ended so, and printed this.
fn is_told(ended: io::Result<Told>, output: &[u8], told: Told, wanted: &str) -> bool {
    matches!(ended, Ok(it) if it == told) && output == wanted.as_bytes()
}

/// Whether a client that asks this ends so, and prints this.
pub(crate) fn is_asked<R: Net<Stream = TcpStream> + Clock>(
    rt: &R,
    alloc: Global,
    order: &AskOrder,
    told: Told,
    wanted: &str,
) -> bool {
    let mut output = Vec::new(alloc);
    let ended = ask_node(rt, alloc, order, &mut output);
    is_told(ended, &output, told, wanted)
}

/// Tells the first node of an order that another is dead, and whether the client ends so, and prints this.
pub(crate) fn is_retired<R: Net<Stream = TcpStream> + Clock>(
    rt: &R,
    alloc: Global,
    order: &RetireOrder,
    told: Told,
    wanted: &str,
) -> bool {
    let mut output = Vec::new(alloc);
    let Some(address) = order.addresses.first() else {
        return false;
    };
    let ended = retire_node(rt, alloc, order, address, &mut output);
    is_told(ended, &output, told, wanted)
}

/// The node there is told that this one is dead.
pub(crate) fn retirement<R: Abort + AllocGlobal>(
    rt: &R,
    address: Address,
    node: u32,
    even_alive: bool,
) -> RetireOrder {
    RetireOrder {
        addresses: vec![in rt.alloc(); address].expect(rt, "room"),
        node: NodeId::new(node).expect(rt, "an id"),
        even_alive,
    }
}

fn is_left<R: Net<Stream = TcpStream> + Clock>(
    rt: &R,
    alloc: Global,
    address: Address,
    told: Told,
    wanted: &str,
) -> bool {
    let mut output = Vec::new(alloc);
    let order = LeaveOrder { address };
    let ended = leave_node(rt, alloc, &order, &mut output);
    is_told(ended, &output, told, wanted)
}

// Tells a node its share, and whether the client ends so, and prints this.
fn is_shared<R: Abort + AllocGlobal + Net<Stream = TcpStream> + Clock>(
    rt: &R,
    address: Address,
    told: Told,
    wanted: &str,
) -> bool {
    let order = ShareOrder {
        address,
        share: Share::new(8).expect(rt, "a share"),
    };
    let mut output = Vec::new(rt.alloc());
    let ended = share_node(rt, rt.alloc(), &order, &mut output);
    is_told(ended, &output, told, wanted)
}

/// What a client of session 6 asks for, who waits for so many seconds at most.
pub(crate) fn order<R: Abort>(rt: &R, address: Address, words: &[&str], timeout: u64) -> AskOrder {
    let command = command(words).expect(rt, "a command");
    AskOrder::new(address, 6, command, timeout)
}

/// A client of session 6 asks, and prints this.
pub(crate) fn check_asked<R: Abort + AllocGlobal + Net<Stream = TcpStream> + Clock>(
    rt: &R,
    address: Address,
    words: &[&str],
    wanted: &str,
) {
    let order = order(rt, address, words, 20);
    assert!(rt; is_asked(rt, rt.alloc(), &order, DONE, wanted), "{wanted}");
}

/// All commands, one after the other, in one session; as JSON; and of snapshots. Then node 1 is told its share, twice: what was
/// done before is told once more.
pub(crate) fn ask_all<R: Abort + AllocGlobal + Net<Stream = TcpStream> + Clock>(
    rt: &R,
    one: Address,
) {
    for &(words, wanted) in &ASKED {
        check_asked(rt, one, words, wanted);
    }
    for &(words, request, told, wanted) in &ASKED_AS_JSON {
        let order = AskOrder {
            request,
            form: AnswerForm::Json,
            ..order(rt, one, words, 20)
        };
        assert!(rt; is_asked(rt, rt.alloc(), &order, told, wanted), "{wanted}");
    }
    for &(words, form, wanted) in &SNAPSHOTS {
        let order = AskOrder {
            snapshot: true,
            form,
            ..order(rt, one, words, 20)
        };
        assert!(rt; is_asked(rt, rt.alloc(), &order, DONE, wanted), "{wanted}");
    }
    for _ in 0..2 {
        assert!(rt; is_shared(rt, one, DONE, "share 8\n"), "a share");
    }
}

/// The operator at node 1, twice with each order. Who has left retires nobody, and serves no client.
pub(crate) fn operate<R: Abort + AllocGlobal + Net<Stream = TcpStream> + Clock>(
    rt: &R,
    one: Address,
) {
    let retire = retirement(rt, one, 2, true);
    let late = order(rt, one, &["collect"], 20);
    let alloc = rt.alloc();
    for _ in 0..2 {
        assert!(rt; is_retired(rt, alloc, &retire, DONE, "retired 2\n"));
    }
    for _ in 0..2 {
        assert!(rt; is_left(rt, alloc, one, DONE, "left\n"));
    }
    assert!(rt; is_retired(rt, alloc, &retire, REFUSED, "refused 1 Left\n"));
    drop(retire);
    assert!(rt; is_shared(rt, one, REFUSED, "refused 1 Left\n"));
    assert!(rt; is_asked(rt, alloc, &late, REFUSED, "refused 1 Left\n"));
}

// Nothing listens at the port of a listener that is gone: no answer comes to an ask, in either form, nor to an order to leave.
#[test]
fn clients_give_up_where_no_answer_comes(rt: HostRuntime) {
    let nobody = Address::from(free_address(&rt));
    let closed = Told {
        status: 1,
        silence: Some(Silence::Closed(nobody)),
        advice: None,
    };
    let plain = order(&rt, nobody, &["collect"], 1);
    let json = AskOrder {
        form: AnswerForm::Json,
        ..plain
    };
    let alloc = rt.alloc();
    assert!(rt; is_asked(&rt, alloc, &plain, closed, "no answer\n"));
    assert!(rt; is_asked(&rt, alloc, &json, closed, "{\"no_answer\":true}\n"));
    assert!(rt; is_left(&rt, alloc, nobody, closed, "no answer\n"));
}
