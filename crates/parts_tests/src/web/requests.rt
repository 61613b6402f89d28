//! Which order a request is. More rows are tried over loopback by hand (tools/http_rows.py).

use cc_messages::Command;
use cc_views::Text;
use cc_web::{AskKey, Place, Task, WebFault, WebOrder, WebRequest, WebSettings, order_of};
use std::process::Abort;

const SETTINGS: WebSettings<'static> = WebSettings {
    own_sessions: 64,
    allowed_origin: Some(b"https://board.example"),
};

// A request without fields.
fn bare<'a>(method: &'a str, path: &'a str, body: &'a [u8]) -> WebRequest<'a> {
    WebRequest {
        method,
        path,
        query: None,
        accept: None,
        content_type: None,
        idempotency_key: None,
        origin: None,
        sec_fetch_site: None,
        last_event_id: None,
        body,
    }
}

// Whether a request is this task, under no key and with the usual timeout.
fn is_task<R: Abort>(rt: &R, request: &WebRequest<'_>, task: Task) {
    let order = WebOrder {
        task,
        key: None,
        timeout_ms: 10_000,
    };
    assert!(rt; order_of(&SETTINGS, request) == Ok(order));
}

fn is_fault<R: Abort>(rt: &R, request: &WebRequest<'_>, fault: WebFault) {
    assert!(rt; order_of(&SETTINGS, request) == Err(fault));
}

const READINGS: [(&str, &str, Task); 5] = [
    ("GET", "/v1/view", Task::Ask(Command::Collect)),
    ("HEAD", "/v1/set", Task::Ask(Command::ReadSet)),
    ("GET", "/v1/snapshot", Task::Snapshot),
    ("GET", "/v1/sessions/7", Task::LastRequest(7)),
    ("GET", "/v1/changes", Task::Changes(None)),
];

#[test]
fn each_request_is_a_task(rt: HostRuntime) {
    let text = Text::new(b"colour=blue").unwrap();
    let store = Task::Ask(Command::Store(text));
    is_task(&rt, &bare("PUT", "/v1/text", b"colour=blue"), store);
    let raise = Task::Ask(Command::WriteMax(7));
    is_task(&rt, &bare("PUT", "/v1/max", b"7"), raise);
    for &(method, path, task) in &READINGS {
        is_task(&rt, &bare(method, path, b""), task);
    }
    let mut home = bare("GET", "/v1/", b"");
    is_task(&rt, &home, Task::Overview { is_html: false });
    home.accept = Some(b"text/html,application/xhtml+xml;q=0.9");
    is_task(&rt, &home, Task::Overview { is_html: true });
}

// The longest time and the last session of a client, and what is one beyond: of 64 sessions of the node's own the first one is
// 2^64 - 64. A page of the allowed origin writes, and one of another doesn't.
#[test]
fn times_sessions_and_origins_have_bounds(rt: HostRuntime) {
    let mut request = bare("PUT", "/v1/flag", b"");
    request.query = Some("timeout=60s");
    request.idempotency_key = Some(b"18446744073709551551/1");
    request.sec_fetch_site = Some(b"cross-site");
    request.origin = Some(b"https://board.example");
    let key = AskKey {
        session: 18_446_744_073_709_551_551,
        request: 1,
    };
    let order = WebOrder {
        task: Task::Ask(Command::SetFlag),
        key: Some(key),
        timeout_ms: 60_000,
    };
    assert!(rt; order_of(&SETTINGS, &request) == Ok(order));
    request.idempotency_key = Some(b"18446744073709551552/1");
    is_fault(&rt, &request, WebFault::OwnSession);
    request.origin = Some(b"https://board.example.elsewhere.example");
    is_fault(&rt, &request, WebFault::Origin);
    request.query = Some("timeout=61s");
    is_fault(&rt, &request, WebFault::Query);
}

// A request with every fault, of which one after the other is mended.
#[test]
fn faults_come_in_one_order(rt: HostRuntime) {
    let mut request = WebRequest {
        method: "PATCH",
        path: "/v1/sets",
        query: Some("timeout=never"),
        accept: None,
        content_type: Some(b"application/json"),
        idempotency_key: Some(b"7"),
        origin: None,
        sec_fetch_site: Some(b"cross-site"),
        last_event_id: None,
        body: b"a body too long",
    };
    is_fault(&rt, &request, WebFault::NoPlace);
    request.path = "/v1/set";
    is_fault(&rt, &request, WebFault::Method(Place::Set));
    request.method = "POST";
    is_fault(&rt, &request, WebFault::Query);
    request.query = None;
    is_fault(&rt, &request, WebFault::Origin);
    request.sec_fetch_site = None;
    is_fault(&rt, &request, WebFault::Key);
    request.idempotency_key = None;
    is_fault(&rt, &request, WebFault::ContentType);
    request.content_type = None;
    is_fault(&rt, &request, WebFault::TooLong);
    request.body = b"a";
    is_fault(&rt, &request, WebFault::Body);
    request.body = b"1";
    is_task(&rt, &request, Task::Ask(Command::AddMember(1)));
}
