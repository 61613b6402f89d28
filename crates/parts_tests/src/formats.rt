//! Bytes of messages, events, commands, answers and views, and their faults (docs/FORMATS.md).

use crate::refusals::{says, unless_failed};
use crate::sets::id;
use crate::views::{one_row, row};
use cc_messages::{Command, Message, Refusal};
use cc_wire::{
    WireFault, decode_answer, decode_command, decode_event, decode_message, decode_view,
    encode_answer, encode_command, encode_event, encode_message, encode_view,
};
use std::process::Abort;

// The message Store with a view of one row (node 1, number 1, text "a"), tag 1 and node 1.
const STORE: [u8; 39] = [
    9, 0, 1, 0, 0, 0, 1, 0, 0, 0, 0, 0, 0, 0, 1, 1, 0x61, 0, 0, 0, 0, 0, 0, 0, 0, 0, 0, 0, 0, 0, 0,
    0, 0, 0, 1, 0, 0, 0, 1,
];

// The echo of a node that hasn't joined: it knows that 4 entered and 5 joined. A node that joined need not be told of
// as entered too.
const ECHO: [u8; 22] = [
    2, 0, 1, 0, 0, 0, 4, 0, 1, 0, 0, 0, 5, 0, 0, 0, 0, 0, 0, 0, 0, 4,
];

// The reply to query 2 of node 3, with no row.
const QUERY_REPLY: [u8; 15] = [8, 0, 0, 0, 0, 0, 0, 0, 0, 0, 2, 0, 0, 0, 3];

// The message Snapshot: 1 and 2 entered and joined, nobody left, and the view of Store.
const SNAPSHOT: [u8; 49] = [
    0x20, 0, 2, 0, 0, 0, 1, 0, 0, 0, 2, 0, 2, 0, 0, 0, 1, 0, 0, 0, 2, 0, 0, 0, 1, 0, 0, 0, 1, 0, 0,
    0, 0, 0, 0, 0, 1, 1, 0x61, 0, 0, 0, 0, 0, 0, 0, 0, 0, 0,
];

// One of each kind.
const MESSAGES: [&[u8]; 11] = [
    &[1, 0, 0, 0, 1],
    &ECHO,
    &[3, 0, 0, 0, 1],
    &[4, 0, 0, 0, 1],
    &[5, 0, 0, 0, 1],
    &[6, 0, 0, 0, 1],
    &[7, 0, 0, 0, 0, 0, 0, 0, 2, 0, 0, 0, 3],
    &QUERY_REPLY,
    &STORE,
    &[0x0A, 0, 0, 0, 0, 0, 0, 0, 2, 0, 0, 0, 3],
    &SNAPSHOT,
];

/// Checks what was written, which is let go.
pub fn check_bytes<R: Abort>(rt: &R, written: Vec<u8>, wanted: &[u8]) {
    assert!(rt; written.as_slice() == wanted);
}

// The bytes of a message, which is let go.
fn message_bytes<R: Abort + AllocGlobal>(rt: &R, message: Message) -> Vec<u8> {
    let mut out = Vec::new(rt.alloc());
    let put = encode_message(&message, &mut out);
    drop(message);
    unless_failed(rt, put, out.is_empty());
    out
}

// The bytes of a copy of the message that these bytes spell.
fn message_again<R: Abort + AllocGlobal>(rt: &R, bytes: &[u8]) -> Vec<u8> {
    let read = decode_message(rt.alloc(), bytes).expect(rt, "a message");
    let copy = read.copy(rt.alloc()).expect(rt, "a copy");
    drop(read);
    message_bytes(rt, copy)
}

#[test]
fn messages_are_written_and_read(rt: HostRuntime) {
    let store = Message::Store {
        view: one_row(&rt, 1, b"a"),
        tag: 1,
        node: id(1),
    };
    check_bytes(&rt, message_bytes(&rt, store), &STORE);
    for &bytes in &MESSAGES {
        check_bytes(&rt, message_again(&rt, bytes), bytes);
    }
}

// Deliver from node 1, number 2, of Join 3; and Ask 7 1 Store a.
const DELIVER: [u8; 18] = [3, 0, 0, 0, 1, 0, 0, 0, 0, 0, 0, 0, 2, 3, 0, 0, 0, 3];

const ASK: [u8; 20] = [
    5, 0, 0, 0, 0, 0, 0, 0, 7, 0, 0, 0, 0, 0, 0, 0, 1, 1, 1, 0x61,
];

// Skip 2 1 3.
const SKIP: [u8; 21] = [
    0x22, 0, 0, 0, 2, 0, 0, 0, 0, 0, 0, 0, 1, 0, 0, 0, 0, 0, 0, 0, 3,
];

// One of each kind: Enter, Leave, Deliver, Acked 7 8, Ask, Retire 9, Lapse 3, Snapshot, Skip and Share 8.
const EVENTS: [&[u8]; 10] = [
    &[1],
    &[2],
    &DELIVER,
    &[4, 0, 0, 0, 7, 0, 0, 0, 0, 0, 0, 0, 8],
    &ASK,
    &[6, 0, 0, 0, 9],
    &[0x20, 0, 0, 0, 3],
    &[0x21],
    &SKIP,
    &[0x23, 8],
];

// The bytes of a copy of the event that these bytes spell.
fn event_again<R: Abort + AllocGlobal>(rt: &R, bytes: &[u8]) -> Vec<u8> {
    let read = decode_event(rt.alloc(), bytes).expect(rt, "an event");
    let copy = read.copy(rt.alloc()).expect(rt, "a copy");
    drop(read);
    let mut out = Vec::new(rt.alloc());
    let put = encode_event(&copy, &mut out);
    drop(copy);
    unless_failed(rt, put, out.is_empty());
    out
}

#[test]
fn events_are_written_and_read(rt: HostRuntime) {
    for &bytes in &EVENTS {
        check_bytes(&rt, event_again(&rt, bytes), bytes);
    }
}

// One of each kind: Stored, Seen of the view of Store, Max 9, Flag, and Set of 2, 5 and 9.
const SEEN: [u8; 27] = [
    2, 0, 1, 0, 0, 0, 1, 0, 0, 0, 0, 0, 0, 0, 1, 1, 0x61, 0, 0, 0, 0, 0, 0, 0, 0, 0, 0,
];

const ANSWERS: [&[u8]; 5] = [
    &[1],
    &SEEN,
    &[3, 0, 0, 0, 0, 0, 0, 0, 9],
    &[4, 1],
    &[5, 0, 3, 0, 0, 0, 2, 0, 0, 0, 5, 0, 0, 0, 9],
];

// The bytes of a copy of the answer that these bytes spell.
fn answer_again<R: Abort + AllocGlobal>(rt: &R, bytes: &[u8]) -> Vec<u8> {
    let read = decode_answer(rt.alloc(), bytes).expect(rt, "an answer");
    let copy = read.copy(rt.alloc()).expect(rt, "a copy");
    drop(read);
    let mut out = Vec::new(rt.alloc());
    let put = encode_answer(&copy, &mut out);
    drop(copy);
    unless_failed(rt, put, out.is_empty());
    out
}

// The bytes of the view that these bytes spell, which has one row.
fn view_again<R: Abort + AllocGlobal>(rt: &R, bytes: &[u8]) -> Vec<u8> {
    let view = decode_view(rt.alloc(), bytes).expect(rt, "a view");
    assert!(rt; view.rows() == [row(1, b"a")].as_slice());
    let mut out = Vec::new(rt.alloc());
    let put = encode_view(&view, &mut out);
    drop(view);
    unless_failed(rt, put, out.is_empty());
    out
}

#[test]
fn answers_and_views_are_written_and_read(rt: HostRuntime) {
    for &bytes in &ANSWERS {
        check_bytes(&rt, answer_again(&rt, bytes), bytes);
    }
    check_bytes(&rt, view_again(&rt, &SEEN[1..]), &SEEN[1..]);
}

// One of each kind but Store, which stands in Ask.
const COMMANDS: [(Command, &[u8]); 7] = [
    (Command::Collect, &[2]),
    (Command::WriteMax(9), &[3, 0, 0, 0, 0, 0, 0, 0, 9]),
    (Command::ReadMax, &[4]),
    (Command::SetFlag, &[5]),
    (Command::ReadFlag, &[6]),
    (Command::AddMember(3), &[7, 0, 0, 0, 3]),
    (Command::ReadSet, &[8]),
];

#[test]
fn commands_are_written_by_kind(rt: HostRuntime) {
    let mut out = Vec::new(rt.alloc());
    for &(command, bytes) in &COMMANDS {
        out.clear();
        let put = encode_command(&command, &mut out);
        unless_failed(&rt, put, out.is_empty());
        assert!(rt; out.as_slice() == bytes && decode_command(bytes) == Ok(command));
    }
}

// A kind that no message has, an id of 0, a count above its limit before its elements, lists that don't rise.
const MESSAGE_FAULTS: [(&[u8], WireFault); 5] = [
    (&[11], WireFault::BadKind(11)),
    (&[5, 0, 0, 0, 0], WireFault::NotAscending),
    (&[2, 1, 1], WireFault::TooLarge),
    (&[2, 0, 2, 0, 0, 0, 2, 0, 0, 0, 1], WireFault::NotAscending),
    (&[0x21], WireFault::BadKind(0x21)),
];

// Cuts, bytes too many, a last number below the first, and shares of 0 and of 33.
const EVENT_FAULTS: [(&[u8], WireFault); 6] = [
    (&[6, 0, 0, 0], WireFault::Short),
    (&[0x21, 0], WireFault::Trailing),
    (&[0x22, 0, 0, 0, 0], WireFault::NotAscending),
    (
        &[
            0x22, 0, 0, 0, 2, 0, 0, 0, 0, 0, 0, 0, 3, 0, 0, 0, 0, 0, 0, 0, 2,
        ],
        WireFault::NotAscending,
    ),
    (&[0x23, 0], WireFault::BadKind(0)),
    (&[0x23, 33], WireFault::BadKind(33)),
];

// Numbers that don't rise, too many of them, a flag of 2, and a text of 65 bytes.
const ANSWER_FAULTS: [(&[u8], WireFault); 4] = [
    (&[5, 0, 2, 0, 0, 0, 2, 0, 0, 0, 2], WireFault::NotAscending),
    (&[5, 0x20, 1], WireFault::TooLarge),
    (&[4, 2], WireFault::BadKind(2)),
    (
        &[2, 0, 1, 0, 0, 0, 1, 0, 0, 0, 0, 0, 0, 0, 1, 65],
        WireFault::TooLarge,
    ),
];

#[test]
fn the_first_field_that_cannot_be_read_is_the_fault(rt: HostRuntime) {
    for &(bytes, fault) in &MESSAGE_FAULTS {
        assert!(rt; decode_message(rt.alloc(), bytes).err() == Some(fault));
    }
    for &(bytes, fault) in &EVENT_FAULTS {
        assert!(rt; decode_event(rt.alloc(), bytes).err() == Some(fault));
    }
    for &(bytes, fault) in &ANSWER_FAULTS {
        assert!(rt; decode_answer(rt.alloc(), bytes).err() == Some(fault));
    }
}

const FAULTS: [(WireFault, &str); 7] = [
    (WireFault::Short, "the bytes end inside a field"),
    (WireFault::BadKind(7), "7 is no kind or flag"),
    (
        WireFault::NotAscending,
        "a list isn't ascending, or an id is 0",
    ),
    (WireFault::TooLarge, "a length is above its limit"),
    (WireFault::Trailing, "bytes are left"),
    (WireFault::NoMemory, "out of memory"),
    (WireFault::Broken, "the stream was refused before"),
];

#[test]
fn faults_and_refusals_print_what_is_wrong(rt: HostRuntime) {
    for &(fault, wanted) in &FAULTS {
        assert!(rt; says(&rt, &fault, wanted));
    }
    assert!(rt; says(&rt, &Refusal::Gap(1), "6 Gap 1"));
    assert!(rt; says(&rt, &Refusal::Busy, "13 Busy"));
}
