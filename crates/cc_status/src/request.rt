//! What a request asks for.

ghost use Rattle.std.specs.Prelude.{◌≡◌, ◌<◌, ◌↔◌, ℕ, List, All, IsTrue, IfSome, IfNone, false, length, map};
ghost use Rattle.httparse.specs.Grammar.{RequestHead, ReadsRequest};
ghost use Rattle.httparse.specs.Spans.{IsRequestWithin, IsRequestAt, IsHeaderWithin, header_bytes};
ghost use Rattle.cc_status.specs.declared.request.Asked.TheVariants as asked;
ghost use Rattle.cc_status.specs.Requests.{path_in, BringsNoBody, BringNoBody, method_of, IsReading, IsAskedFor, IsShort, IsAskedBy, IsDue};

use crate::page::Page;
use httparse::spans::{EMPTY_HEADER_SPAN, HeaderSpan, RequestSpans, parse_request};
use httparse::{Error, Status};

/// How many bytes the head of a request has at most.
pub const MOST_HEAD: usize = 8_192;

/// How many fields the head of a request has at most.
pub const MOST_FIELDS: usize = 64;

/// What the bytes that came so far ask for.
#[derive(Clone, Copy, PartialEq, Eq)]
pub enum Asked {
    /// The head may still become whole.
    More,
    /// A page, or its head alone.
    Page { page: Page, is_head: bool },
    /// Nothing that is given. An answer to HEAD has no body here either.
    Wrong { wrong: Wrong, is_head: bool },
}

/// Why a request isn't served.
#[derive(Clone, Copy, Debug, PartialEq, Eq)]
pub enum Wrong {
    /// The bytes are no head of HTTP, or the request has a body: 400.
    Malformed,
    /// There is no such page: 404.
    NoPage,
    /// The method is neither GET nor HEAD: 405.
    Method,
    /// The head has more than `MOST_HEAD` bytes or `MOST_FIELDS` fields: 431.
    TooLong,
    /// The head isn't of HTTP/1.0 or HTTP/1.1: 505.
    Version,
}

// The path of a target: what stands before its query.
fn path_of(target: &[u8]) -> &[u8]
    ensures { result.now ≡ path_in target.now }
{
    for (at, byte) in target.iter().enumerate() {
        if *byte == b'?' {
            return &target[..at];
        }
    }
    target
}

// Whether a field of the head says nothing of a body, or that it has no bytes.
fn brings_no_body(bytes: &[u8], field: HeaderSpan) -> bool
    requires { IsHeaderWithin (length bytes.now) field }
    ensures { IsTrue result ↔ BringsNoBody (header_bytes bytes.now field) }
{
    let name = field.name.of(bytes);
    if name.eq_ignore_ascii_case(b"transfer-encoding") {
        return false;
    }
    !name.eq_ignore_ascii_case(b"content-length") || field.value.of(bytes) == b"0".as_slice()
}

// Whether no field of the head brings a body.
fn bring_no_body(bytes: &[u8], fields: &[HeaderSpan]) -> bool
    requires { All (IsHeaderWithin (length bytes.now)) fields.now }
    ensures { IsTrue result ↔ BringNoBody (map (header_bytes bytes.now) fields.now) }
{
    for field in fields {
        if !brings_no_body(bytes, *field) {
            return false;
        }
    }
    true
}

// Whether a method asks for the head of a page alone, where it asks for one.
fn is_for_head(method: &[u8]) -> Option<bool>
    ensures found { IfSome result (λ is_head. method.now ≡ method_of is_head) }
    ensures none { IfNone result (¬ (IsReading method.now)) }
{
    if method == b"GET".as_slice() {
        return Some(false);
    }
    if method == b"HEAD".as_slice() {
        return Some(true);
    }
    None
}

// Nothing that is given, in an answer that has a body.
fn refused(wrong: Wrong) -> Asked
    ensures { result ≡ asked.Wrong wrong false }
{
    Asked::Wrong {
        wrong,
        is_head: false,
    }
}

// What a method, a path and fields ask for.
fn asked_for(bytes: &[u8], method: &[u8], path: &[u8], fields: &[HeaderSpan]) -> Asked
    requires { All (IsHeaderWithin (length bytes.now)) fields.now }
    ensures { IsAskedFor method.now path.now (map (header_bytes bytes.now) fields.now) result }
{
    let Some(is_head) = is_for_head(method) else {
        return refused(Wrong::Method);
    };
    if !bring_no_body(bytes, fields) {
        return Asked::Wrong {
            wrong: Wrong::Malformed,
            is_head,
        };
    }
    match Page::at(path) {
        Some(page) => Asked::Page { page, is_head },
        None => Asked::Wrong {
            wrong: Wrong::NoPage,
            is_head,
        },
    }
}

// What a whole head asks for, of which the parser found the parts.
fn asked_by(bytes: &[u8], head: &RequestSpans, fields: &[HeaderSpan]) -> Asked
    requires { IsRequestWithin bytes.now fields.now head.now }
    ensures { (h : RequestHead) → IsRequestAt bytes.now fields.now head.now h → IsAskedBy h result }
{
    let path = path_of(head.path.of(bytes));
    asked_for(bytes, head.method.of(bytes), path, &fields[..head.headers])
}

/// What the bytes that came so far ask for. What stands behind a head is another request, or a body, and isn't looked at.
pub fn read_request(bytes: &[u8]) -> Asked
    ensures due { IsDue bytes.now result }
    // A head that is whole is answered as it asks.
    ensures whole { (h : RequestHead) (rest : List ℕ) → ReadsRequest bytes.now h rest → IsShort h → IsAskedBy h result }
{
    let mut fields = [EMPTY_HEADER_SPAN; MOST_FIELDS];
    match parse_request(bytes, &mut fields) {
        Ok(Status::Complete(head)) if head.len <= MOST_HEAD => asked_by(bytes, &head, &fields),
        Ok(Status::Partial) if bytes.len() < MOST_HEAD => Asked::More,
        Ok(_) | Err(Error::TooManyHeaders) => refused(Wrong::TooLong),
        Err(Error::Version) => refused(Wrong::Version),
        Err(_) => refused(Wrong::Malformed),
    }
}
