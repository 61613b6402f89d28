//! A client and what it hears.

use crate::frames::frame_bytes;
use cc_connections::Frame;
use cc_messages::{Command, Refusal};
use cc_policies::{Client, Heard, Step};
use cc_views::Text;
use std::process::Abort;

// Session 7 asks under number 1: store `a`.
const ASK: [u8; 24] = [
    0, 0, 0, 0x14, 3, 0, 0, 0, 0, 0, 0, 0, 7, 0, 0, 0, 0, 0, 0, 0, 1, 1, 1, 0x61,
];

// Whether the client asks that, once it is told that its connection is open.
fn asks<R: Abort + AllocGlobal>(rt: &R, client: &mut Client) -> bool {
    let Step::Send(frame) = client.hear(Heard::Ready) else {
        return false;
    };
    let bytes = frame_bytes(rt, frame);
    bytes.as_slice() == ASK.as_slice()
}

// Whether a client waits with that refusal, or with none, before it asks again.
fn is_retried(step: &Step, why: Option<Refusal>) -> bool {
    matches!(step, Step::Retry(refusal) if *refusal == why)
}

// Whether the client tries again that is refused by that number.
fn tries_again(client: &mut Client, refusal: u8, why: Refusal) -> bool {
    let refused = Frame::Refused {
        session: 7,
        request: 1,
        refusal,
        value: 0,
    };
    let step = client.hear(Heard::Came(refused));
    let is_retried = is_retried(&step, Some(why));
    drop(step);
    is_retried
}

const PAUSES: [(u8, Refusal); 3] = [
    (13, Refusal::Busy),
    (15, Refusal::OutboxFull),
    (18, Refusal::QueueFull),
];

#[test]
fn it_asks_again_under_the_same_number(rt: HostRuntime) {
    let command = Command::Store(Text::new(b"a").unwrap());
    let mut client = Client::numbered(7, command, 1);
    for &(refusal, why) in &PAUSES {
        assert!(rt; tries_again(&mut client, refusal, why) && asks(&rt, &mut client));
    }
    let broken = client.hear(Heard::Broken);
    let is_retried = is_retried(&broken, None);
    drop(broken);
    assert!(rt; is_retried && asks(&rt, &mut client));
}
