//! The frames that come out of a reader in memory.

use cc_policies::{Ending, ReceivedFrames};
use cc_wire::WireFault;
use std::process::Abort;

// How many of the first three reads of these bytes give a frame, and why the next one gives none.
fn frames_in<R: Abort + AllocGlobal>(rt: &R, bytes: &[u8]) -> (u8, Option<Ending>) {
    let mut incoming = ReceivedFrames::new(rt.alloc(), bytes).expect(rt, "a reader");
    for count in 0..3 {
        match incoming.read_frame() {
            Ok(frame) => drop(frame),
            Err(why) => {
                drop(incoming);
                return (count, Some(why));
            }
        }
    }
    (3, None)
}

// Leave and then Retire of node 3; the same without its last byte; nothing; Leave and then a kind that no frame has; and the
// length of a body of 65,537 bytes.
const STREAMS: [(&[u8], u8, Ending); 5] = [
    (
        &[0, 0, 0, 1, 6, 0, 0, 0, 5, 7, 0, 0, 0, 3],
        2,
        Ending::Input,
    ),
    (&[0, 0, 0, 1, 6, 0, 0, 0, 5, 7, 0, 0, 0], 1, Ending::Input),
    (&[], 0, Ending::Input),
    (
        &[0, 0, 0, 1, 6, 0, 0, 0, 1, 8],
        1,
        Ending::Bytes(WireFault::BadKind(8)),
    ),
    (&[0, 1, 0, 1], 0, Ending::Bytes(WireFault::TooLarge)),
];

#[test]
fn frames_come_until_the_input_ends_or_spells_none(rt: HostRuntime) {
    for &(bytes, count, why) in &STREAMS {
        assert!(rt; frames_in(&rt, bytes) == (count, Some(why)));
    }
}
