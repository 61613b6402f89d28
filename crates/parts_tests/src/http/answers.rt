//! The bytes of answers and events.

use cc_status::{HEARTBEAT, Outcome, Page, Wrong, answer_page, answer_wrong, home, put_event};

const CHANGES: &[u8] = b"HTTP/1.1 200 OK\r
Content-Type: text/event-stream\r
Cache-Control: no-store\r
Connection: close\r
X-Content-Type-Options: nosniff\r
\r
: \n\n";

const READY: &[u8] = b"HTTP/1.1 503 Service Unavailable\r
Content-Type: text/plain; charset=utf-8\r
Cache-Control: no-store\r
Connection: close\r
X-Content-Type-Options: nosniff\r
Content-Length: 15\r
\r
";

const METHOD: &[u8] = b"HTTP/1.1 405 Method Not Allowed\r
Content-Type: text/plain; charset=utf-8\r
Cache-Control: no-store\r
Connection: close\r
X-Content-Type-Options: nosniff\r
Allow: GET, HEAD\r
Content-Length: 35\r
\r
no such method: GET and HEAD alone\n";

const HOME: &[u8] = b"HTTP/1.1 200 OK\r
Content-Type: text/html; charset=utf-8\r
Cache-Control: no-store\r
Connection: close\r
X-Content-Type-Options: nosniff\r
Content-Security-Policy: default-src 'none'; style-src 'unsafe-inline'; script-src 'unsafe-inline'; connect-src 'self'; img-src data:; base-uri 'none'; form-action 'none'; frame-ancestors 'none'\r
Content-Length: 15\r
\r
<!doctype html>";

// A page, its outcome, whether the head alone is asked for, the body, and the bytes of the answer.
type Case = (Page, Outcome, bool, &'static [u8], &'static [u8]);

const CASES: [Case; 3] = [
    (Page::Changes, Outcome::Served, false, HEARTBEAT, CHANGES),
    (
        Page::Ready,
        Outcome::NotReady,
        true,
        b"it has entered\n",
        READY,
    ),
    (Page::Home, Outcome::Served, false, b"<!doctype html>", HOME),
];

#[test]
fn pages_and_faults_are_answered(rt: HostRuntime) {
    let mut out = Vec::new(rt.alloc());
    for &(page, outcome, is_head, body, bytes) in &CASES {
        out.clear();
        answer_page(&mut out, page, outcome, is_head, body).expect(&rt, "room");
        assert!(rt; out.as_slice() == bytes);
    }
    out.clear();
    answer_wrong(&mut out, Wrong::Method, false).expect(&rt, "room");
    assert!(rt; out.as_slice() == METHOD);
    assert!(rt; home().starts_with("<!doctype html>\n") && home().ends_with("</html>\n"));
}

// An event is written behind what is there: each line of the text is data of its own.
#[test]
fn events_are_written(rt: HostRuntime) {
    let mut out = Vec::new(rt.alloc());
    put_event(&mut out, "row", "{}").expect(&rt, "room");
    put_event(&mut out, "row", "a\nb").expect(&rt, "room");
    let events = b"event: row\ndata: {}\n\nevent: row\ndata: a\ndata: b\n\n".as_slice();
    assert!(rt; out.as_slice() == events);
}
