//! Bytes of the frames by which a connection between nodes begins.

use crate::formats::check_bytes;
use crate::frames::frame_bytes;
use crate::sets::id;
use cc_changes::Fraction;
use cc_connections::{ClusterName, Frame, Hello, NameFault, Quorum, Reason, decode_frame};
use cc_wire::WireFault;
use std::process::Abort;

// Node 1 greets node 2 in the cluster blue: both shares are 79/100, the birth is 17, the run 34, and 3 was heard.
const HELLO: [u8; 58] = [
    0, 0, 0, 0x36, 0x21, 4, b'b', b'l', b'u', b'e', 0, 0, 0, 1, 0, 0, 0, 2, // the shares
    0, 0, 0, 0x4F, 0, 0, 0, 0x64, 0, 0, 0, 0x4F, 0, 0, 0, 0x64, // the birth, the run, what was heard
    0, 0, 0, 0, 0, 0, 0, 0x11, 0, 0, 0, 0, 0, 0, 0, 0x22, 0, 0, 0, 0, 0, 0, 0, 3,
];

// The same in a cluster without a name, with the birth 0.
const NAMELESS: [u8; 54] = [
    0, 0, 0, 0x32, 0x21, 0, 0, 0, 0, 1, 0, 0, 0, 2, // the shares
    0, 0, 0, 0x4F, 0, 0, 0, 0x64, 0, 0, 0, 0x4F, 0, 0, 0, 0x64, // the birth, the run, what was heard
    0, 0, 0, 0, 0, 0, 0, 0, 0, 0, 0, 0, 0, 0, 0, 0x22, 0, 0, 0, 0, 0, 0, 0, 3,
];

// Node 2 doesn't take the other, since that takes it for another node.
const UNWELCOME: [u8; 10] = [0, 0, 0, 6, 0x23, 2, 0, 0, 0, 2];

// Greetings, and what node 2 answers, which has heard 5: Welcome, Doubled, and that it doesn't take the other.
const FRAMES: [&[u8]; 5] = [
    &HELLO,
    &NAMELESS,
    &[0, 0, 0, 9, 0x22, 0, 0, 0, 0, 0, 0, 0, 5],
    &[0, 0, 0, 9, 0x26, 0, 0, 0, 0, 0, 0, 0, 5],
    &UNWELCOME,
];

/// That name of a cluster.
pub fn cluster<R: Abort>(rt: &R, name: &[u8]) -> ClusterName {
    ClusterName::new(name).expect(rt, "a name")
}

/// That share.
pub fn quorum<R: Abort>(rt: &R, num: u32, den: u32) -> Quorum {
    Quorum::new(Fraction { num, den }).expect(rt, "a share")
}

/// Node 1 greets node 2, as above.
pub fn hello<R: Abort>(rt: &R, name: &[u8], birth: u64, run: u64) -> Hello {
    Hello {
        cluster: cluster(rt, name),
        from: id(1),
        to: id(2),
        beta: quorum(rt, 79, 100),
        gamma: quorum(rt, 79, 100),
        birth,
        run,
        heard: 3,
    }
}

#[test]
fn frames_of_a_greeting_are_written_and_read(rt: HostRuntime) {
    let greeting = Frame::Hello(hello(&rt, b"blue", 17, 34));
    check_bytes(&rt, frame_bytes(&rt, greeting), &HELLO);
    let unwelcome = Frame::Unwelcome {
        reason: Reason::OtherNode,
        node: id(2),
    };
    check_bytes(&rt, frame_bytes(&rt, unwelcome), &UNWELCOME);
    for &bytes in &FRAMES {
        let frame = decode_frame(rt.alloc(), bytes).expect(&rt, "a frame");
        check_bytes(&rt, frame_bytes(&rt, frame), bytes);
    }
}

// Another byte at a place of the greeting: in the name and its length, the ids and the shares. The last one makes a share of 1/100.
const CHANGES: [(usize, u8, Option<WireFault>); 8] = [
    (5, 65, Some(WireFault::TooLarge)),
    (8, b'/', Some(WireFault::BadKind(b'/'))),
    (13, 0, Some(WireFault::NotAscending)),
    (17, 0, Some(WireFault::NotAscending)),
    (21, 0, Some(WireFault::NotAscending)),
    (25, 78, Some(WireFault::NotAscending)),
    (33, 78, Some(WireFault::NotAscending)),
    (21, 1, None),
];

// Reasons 0 and 7, and an id of 0.
const ANSWER_FAULTS: [(&[u8], WireFault); 3] = [
    (&[0, 0, 0, 6, 0x23, 0, 0, 0, 0, 2], WireFault::BadKind(0)),
    (&[0, 0, 0, 6, 0x23, 7, 0, 0, 0, 2], WireFault::BadKind(7)),
    (&[0, 0, 0, 6, 0x23, 6, 0, 0, 0, 0], WireFault::NotAscending),
];

#[test]
fn a_bad_field_of_a_greeting_is_a_fault(rt: HostRuntime) {
    for &(at, byte, fault) in &CHANGES {
        let mut bytes = HELLO;
        if let Some(old) = bytes.get_mut(at) {
            *old = byte;
        }
        assert!(rt; decode_frame(rt.alloc(), &bytes).err() == fault);
    }
    for &(bytes, fault) in &ANSWER_FAULTS {
        assert!(rt; decode_frame(rt.alloc(), bytes).err() == Some(fault));
    }
}

// Names of up to 64 bytes, and others. One that is too long is told as that, whatever stands in it.
const NAMES: [(&[u8], Option<NameFault>); 6] = [
    (b"Blue-7.east_Z", None),
    (&[b'z'; 64], None),
    (b"", None),
    (&[b' '; 65], Some(NameFault::TooLong)),
    (b"blue green/red", Some(NameFault::BadByte(b' '))),
    (b"bl\xc3\xbc", Some(NameFault::BadByte(0xC3))),
];

#[test]
fn a_name_has_up_to_64_letters_digits_dots_dashes_and_underlines(rt: HostRuntime) {
    for &(name, fault) in &NAMES {
        assert!(rt; ClusterName::new(name).err() == fault);
    }
}
