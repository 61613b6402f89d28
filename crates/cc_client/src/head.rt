//! An answer over HTTP, and what stands behind its head.

use httparse::Status;
use httparse::spans::{EMPTY_HEADER_SPAN, parse_response};

// How many lines of a head are read at most.
const MOST_LINES: usize = 32;

// The page is there, and the node isn't ready.
const FOUND: u16 = 200;

const NOT_READY: u16 = 503;

/// The body of an answer that has come whole, up to the connection's end. None where the page wasn't found, or this is no such
/// answer.
pub fn body_of(answer: &[u8]) -> Option<&[u8]> {
    body_under(answer, FOUND)
}

/// Why a node isn't ready, as its answer says that has come whole. None for any other answer.
pub fn reason_of(answer: &[u8]) -> Option<&str> {
    let body = body_under(answer, NOT_READY)?;
    Some(str::from_utf8(body).ok()?.trim_ascii())
}

// The body of an answer with that code.
fn body_under(answer: &[u8], code: u16) -> Option<&[u8]> {
    let mut lines = [EMPTY_HEADER_SPAN; MOST_LINES];
    match parse_response(answer, &mut lines) {
        Ok(Status::Complete(head)) if head.code == code => answer.get(head.len..),
        _ => None,
    }
}
