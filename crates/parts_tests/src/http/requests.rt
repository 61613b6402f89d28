//! What requests ask for, as they come in.

use cc_status::{Asked, MOST_FIELDS, MOST_HEAD, Page, Wrong, read_request};
use std::process::Abort;

// Requests for pages.
const PAGES: [(&[u8], Page); 5] = [
    (b"GET / HTTP/1.1\r\nHost: a\r\n\r\n", Page::Home),
    (b"GET /view HTTP/1.0\r\n\r\n", Page::View),
    (
        b"GET /view/changes HTTP/1.1\r\nContent-Length: 0\r\n\r\n",
        Page::Changes,
    ),
    (b"GET /metrics?name=a HTTP/1.1\r\n\r\n", Page::Metrics),
    (b"\r\nGET /healthz? HTTP/1.1\n\n", Page::Health),
];

// What is no page, no method that is taken, and a body.
const OTHERS: [(&[u8], Wrong); 5] = [
    (b"GET /view/ HTTP/1.1\r\n\r\n", Wrong::NoPage),
    (b"GET ?/view HTTP/1.1\r\n\r\n", Wrong::NoPage),
    (b"get / HTTP/1.1\r\n\r\n", Wrong::Method),
    (
        b"GET / HTTP/1.1\r\ncontent-LENGTH: 3\r\n\r\nabc",
        Wrong::Malformed,
    ),
    (
        b"GET / HTTP/1.1\r\nTransfer-Encoding: chunked\r\n\r\n",
        Wrong::Malformed,
    ),
];

// Bytes that are no head: no clause tells another version from other bytes.
const NO_HEADS: [(&[u8], Wrong); 6] = [
    (b"\x16\x03\x01\x02\x00\x01\x00", Wrong::Malformed),
    (b"GET / HTTP/1.1\r\nA b\r\n\r\n", Wrong::Malformed),
    (b"GET / HTTP/1.1\r\nA: \x00\r\n\r\n", Wrong::Malformed),
    (b"GET /\xff HTTP/1.1\r\n\r\n", Wrong::Malformed),
    (b"GET / HTTP/2.0\r\n\r\n", Wrong::Version),
    (b"GET / HTTP/1.2\r\n\r\n", Wrong::Version),
];

fn page(page: Page) -> Asked {
    Asked::Page {
        page,
        is_head: false,
    }
}

fn wrong(wrong: Wrong) -> Asked {
    Asked::Wrong {
        wrong,
        is_head: false,
    }
}

#[test]
fn requests_ask_for_pages_or_are_refused(rt: HostRuntime) {
    for &(bytes, wanted) in &PAGES {
        assert!(rt; read_request(bytes) == page(wanted));
    }
    for cases in [OTHERS.as_slice(), NO_HEADS.as_slice()] {
        for &(bytes, why) in cases {
            assert!(rt; read_request(bytes) == wrong(why));
        }
    }
    let head = Asked::Page {
        page: Page::Ready,
        is_head: true,
    };
    assert!(rt; read_request(b"HEAD /readyz HTTP/1.1\r\n\r\n") == head);
}

// A head that is cut anywhere may still become whole; what stands behind it is another request.
#[test]
fn half_heads_are_waited_for(rt: HostRuntime) {
    let bytes = b"GET /view HTTP/1.1\r\nHost: a\r\n\r\nGET / HTTP/1.1\r\n\r\n".as_slice();
    for end in 0..31 {
        assert!(rt; read_request(&bytes[..end]) == Asked::More);
    }
    assert!(rt; read_request(&bytes[..31]) == page(Page::View));
    assert!(rt; read_request(bytes) == page(Page::View));
}

fn put<R: Abort>(rt: &R, bytes: &[u8], out: &mut Vec<u8>) {
    out.extend_from_slice(bytes).expect(rt, "room");
}

// A head of one field that never ends: one byte shorter than any may be, and with one byte more. A head of as many fields as it may
// have, without its end, and with one field more.
#[test]
fn a_head_that_is_too_long_is_refused(rt: HostRuntime) {
    let mut bytes = Vec::new(rt.alloc());
    put(&rt, b"GET / HTTP/1.1\r\nA: ", &mut bytes);
    for _ in bytes.len()..MOST_HEAD - 1 {
        put(&rt, b"a", &mut bytes);
    }
    let shorter = read_request(&bytes);
    put(&rt, b"a", &mut bytes);
    let longer = read_request(&bytes);
    bytes.clear();
    put(&rt, b"GET / HTTP/1.1\r\n", &mut bytes);
    for _ in 0..MOST_FIELDS {
        put(&rt, b"A: b\r\n", &mut bytes);
    }
    let open = read_request(&bytes);
    put(&rt, b"A: b\r\n", &mut bytes);
    let asked = [shorter, longer, open, read_request(&bytes)];
    drop(bytes);
    let refused = wrong(Wrong::TooLong);
    assert!(rt; asked == [Asked::More, refused, Asked::More, refused]);
}
