//! Bytes of frames, and the frames of a stream.

ghost use Rattle.std.specs.Prelude.{◌≤◌, length};

use crate::formats::check_bytes;
use crate::refusals::unless_failed;
use cc_connections::{Frame, FrameReader, decode_frame, encode_frame};
use cc_messages::Refusal;
use cc_wire::WireFault;
use std::process::Abort;

// Refused 7 3, the twelfth refusal, 1.
const REFUSED: [u8; 30] = [
    0, 0, 0, 0x1A, 5, 0, 0, 0, 0, 0, 0, 0, 7, 0, 0, 0, 0, 0, 0, 0, 3, 0x0C, 0, 0, 0, 0, 0, 0, 0, 1,
];

/// The bytes of a frame, which is let go.
pub fn frame_bytes<R: Abort + AllocGlobal>(rt: &R, frame: Frame) -> Vec<u8> {
    let mut out = Vec::new(rt.alloc());
    let put = encode_frame(&frame, &mut out);
    drop(frame);
    unless_failed(rt, put, out.is_empty());
    out
}

#[test]
fn a_refusal_is_told_by_its_number(rt: HostRuntime) {
    let skip = Refusal::Skip(1);
    let refused = Frame::Refused {
        session: 7,
        request: 3,
        refusal: skip.number(),
        value: skip.value(),
    };
    check_bytes(&rt, frame_bytes(&rt, refused), &REFUSED);
}

// An unknown kind, a body that is longer than its fields, and an id of 0. A body that is cut off is Short only where all
// fields can be read as far as they go.
const FRAME_FAULTS: [(&[u8], WireFault); 9] = [
    (&[0, 0, 0, 5, 8, 0, 0, 0, 1], WireFault::BadKind(8)),
    (&[0, 0, 0, 2, 6, 6], WireFault::Trailing),
    (&[0, 0, 0, 5, 7, 0, 0, 0, 0], WireFault::NotAscending),
    (&[0, 0, 0, 5], WireFault::Short),
    (&[0, 0, 0, 5, 8], WireFault::BadKind(8)),
    (&[0, 0, 0, 5, 1, 0, 0, 0], WireFault::Short),
    (&[0, 0, 0, 9, 1, 0, 0, 0, 0], WireFault::NotAscending),
    (&[0, 0, 0, 2, 6], WireFault::Short),
    (&[0, 0, 0, 3, 6, 6], WireFault::Trailing),
];

#[test]
fn a_bad_field_of_a_cut_off_body_is_the_fault(rt: HostRuntime) {
    for &(bytes, fault) in &FRAME_FAULTS {
        assert!(rt; decode_frame(rt.alloc(), bytes).err() == Some(fault));
    }
}

// Leave, an Ack, a Post of Leave 1, Retire 9, RetireIfSilent 9, Skip 2 1 3, Share 8; then Ask 7 1 Store a, Reply 7 1 Stored, and
// the Refused.
const STREAM: [u8; 169] = [
    0, 0, 0, 1, 6, 0, 0, 0, 0x0D, 2, 0, 0, 0, 2, 0, 0, 0, 0, 0, 0, 0, 3, 0, 0, 0, 0x12, 1, 0, 0, 0,
    1, 0, 0, 0, 0, 0, 0, 0, 1, 5, 0, 0, 0, 1, 0, 0, 0, 5, 7, 0, 0, 0, 9, 0, 0, 0, 5, 0x24, 0, 0, 0,
    9, 0, 0, 0, 0x15, 0x20, 0, 0, 0, 2, 0, 0, 0, 0, 0, 0, 0, 1, 0, 0, 0, 0, 0, 0, 0, 3, 0, 0, 0, 2,
    0x25, 8, // the Ask
    0, 0, 0, 0x14, 3, 0, 0, 0, 0, 0, 0, 0, 7, 0, 0, 0, 0, 0, 0, 0, 1, 1, 1, 0x61, // the Reply
    0, 0, 0, 0x12, 4, 0, 0, 0, 0, 0, 0, 0, 7, 0, 0, 0, 0, 0, 0, 0, 1, 1, // the Refused
    0, 0, 0, 0x1A, 5, 0, 0, 0, 0, 0, 0, 0, 7, 0, 0, 0, 0, 0, 0, 0, 3, 0x0C, 0, 0, 0, 0, 0, 0, 0, 1,
];

// Writes the frame that the reader gives for the piece, if it gives one. How much of the piece was used.
fn write_frame<R: Abort + AllocGlobal>(
    rt: &R,
    reader: &mut FrameReader,
    piece: &[u8],
    out: &mut Vec<u8>,
) -> usize
    ensures { result ≤ length piece.now }
{
    let fed = reader.feed(rt.alloc(), piece).expect(rt, "good bytes");
    let used = fed.used;
    if let Some(frame) = &fed.frame {
        encode_frame(frame, out).expect(rt, "room");
    }
    drop(fed);
    used
}

// The frames of a stream that comes in two pieces, as they are written.
fn read_in_two<R: Abort + AllocGlobal>(rt: &R, front: &[u8], back: &[u8]) -> Vec<u8> {
    let mut reader = FrameReader::new(rt.alloc()).expect(rt, "a reader");
    let mut out = Vec::new(rt.alloc());
    for piece in [front, back] {
        let mut rest = piece;
        for _ in 0..11 {
            let used = write_frame(rt, &mut reader, rest, &mut out);
            rest = &rest[used..];
        }
    }
    out
}

#[test]
fn a_stream_is_cut_anywhere(rt: HostRuntime) {
    for cut in 0..STREAM.len() {
        let (front, back) = STREAM.split_at(cut);
        check_bytes(&rt, read_in_two(&rt, front, back), &STREAM);
    }
}
