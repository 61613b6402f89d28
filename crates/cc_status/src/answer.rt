//! Which bytes an answer is.

ghost use Rattle.std.specs.Prelude.{ℕ, ◌≡◌, ◌<◌, ◌^◌, ◌≤◌, ◌+◌, ◌++◌, length, OnOk, OnErr, IsOk, vec_len, codes};
ghost use Rattle.std.specs.Vec.{vec_capacity};
ghost use Rattle.httparse.specs.Ascii.{crlf_bytes};
ghost use Rattle.httparse.specs.Grammar.{print_field, print_response, IsResponseHead};
ghost use Rattle.cc_status.specs.declared.page.Page.{Page};
ghost use Rattle.cc_status.specs.declared.request.Wrong.{Wrong};
ghost use Rattle.cc_status.specs.declared.answer.Outcome.{Outcome};
ghost use Rattle.cc_status.specs.Writers.{Writes};
ghost use Rattle.cc_status.specs.Answers.{field, form_of, common_fields, policy_fields, is_stream, page_head, wrong_head, page_answer, wrong_answer};
ghost use Rattle.cc_status.specs.Answers.{wrong_digits, wrong_reason, allow_fields, wrong_text, body_spelling, digits_of, reason_of};
ghost use Rattle.cc_status.specs.Lines.{status_line, lines, length_lines};

use crate::bytes::{put_bytes, settled};
use crate::page::Page;
use crate::request::Wrong;
use cc_views::NoMemory;
use itoa::Buffer;
use std::alloc::AllocError;

/// What comes of a request for a page.
#[derive(Clone, Copy, PartialEq, Eq)]
pub enum Outcome {
    /// The page is given: 200.
    Served,
    /// The page says why the node isn't ready: 503.
    NotReady,
}

const POLICY_LINE: &[u8] =
    b"Content-Security-Policy: default-src 'none'; style-src 'unsafe-inline'; script-src 'unsafe-inline'; connect-src 'self'; img-src data:; base-uri 'none'; form-action 'none'; frame-ancestors 'none'\r\n";

fn outcome_line(outcome: Outcome) -> &'static [u8]
    ensures { result.now ≡ status_line (digits_of outcome) (reason_of outcome) }
{
    match outcome {
        Outcome::Served => b"HTTP/1.1 200 OK\r\n",
        Outcome::NotReady => b"HTTP/1.1 503 Service Unavailable\r\n",
    }
}

fn wrong_line(wrong: Wrong) -> &'static [u8]
    ensures { result.now ≡ status_line (wrong_digits wrong) (wrong_reason wrong) }
{
    match wrong {
        Wrong::Malformed => b"HTTP/1.1 400 Bad Request\r\n",
        Wrong::NoPage => b"HTTP/1.1 404 Not Found\r\n",
        Wrong::Method => b"HTTP/1.1 405 Method Not Allowed\r\n",
        Wrong::TooLong => b"HTTP/1.1 431 Request Header Fields Too Large\r\n",
        Wrong::Version => b"HTTP/1.1 505 HTTP Version Not Supported\r\n",
    }
}

fn form_line(page: Page) -> &'static [u8]
    ensures { result.now ≡ print_field (field (codes "Content-Type") (form_of page)) }
{
    match page {
        Page::Home => b"Content-Type: text/html; charset=utf-8\r\n",
        Page::Status | Page::View => b"Content-Type: application/json\r\n",
        Page::Changes => b"Content-Type: text/event-stream\r\n",
        Page::Metrics => b"Content-Type: text/plain; version=0.0.4; charset=utf-8\r\n",
        Page::Health | Page::Ready => b"Content-Type: text/plain; charset=utf-8\r\n",
    }
}

// The lines that each head has.
fn common_lines() -> &'static [u8]
    ensures { result.now ≡ lines common_fields }
{
    b"Cache-Control: no-store\r\nConnection: close\r\nX-Content-Type-Options: nosniff\r\n"
}

fn is_stream(page: Page) -> bool
    ensures { result ≡ is_stream page }
{
    matches!(page, Page::Changes)
}

fn policy_lines(page: Page) -> &'static [u8]
    ensures { result.now ≡ lines (policy_fields page) }
{
    match page {
        Page::Home => POLICY_LINE,
        _ => b"",
    }
}

fn allow_lines(wrong: Wrong) -> &'static [u8]
    ensures { result.now ≡ lines (allow_fields wrong) }
{
    match wrong {
        Wrong::Method => b"Allow: GET, HEAD\r\n",
        _ => b"",
    }
}

// What is told of it, in a line.
fn text_of(wrong: Wrong) -> &'static [u8]
    ensures { result.now ≡ wrong_text wrong }
{
    match wrong {
        Wrong::Malformed =>
            b"no request that is read here: GET or HEAD by HTTP/1.1, without a body\n",
        Wrong::NoPage => b"no such page: see /\n",
        Wrong::Method => b"no such method: GET and HEAD alone\n",
        Wrong::TooLong => b"the head of the request is too long\n",
        Wrong::Version => b"no such version: HTTP/1.0 and HTTP/1.1 alone\n",
    }
}

// The line that says how many bytes follow the head, unless they are a stream.
fn put_length_line(out: &mut Vec<u8>, is_stream: bool, size: usize) -> Result<(), AllocError>
    ensures { Writes out.old out.new (length_lines is_stream size) result }
{
    if is_stream {
        return Ok(());
    }
    let mut digits = Buffer::new();
    put_bytes(out, b"Content-Length: ")?;
    put_bytes(out, digits.format(size).as_bytes())?;
    put_bytes(out, b"\r\n")
}

// The fields that only some heads have, and the end of the head.
fn put_other_lines(
    out: &mut Vec<u8>,
    other_lines: &[u8],
    is_stream: bool,
    size: usize,
) -> Result<(), AllocError>
    ensures { Writes out.old out.new (other_lines.now ++ (length_lines is_stream size ++ crlf_bytes)) result }
{
    put_bytes(out, other_lines)?;
    put_length_line(out, is_stream, size)?;
    put_bytes(out, b"\r\n")
}

fn put_first_lines(
    out: &mut Vec<u8>,
    first_line: &[u8],
    form: &[u8],
    common: &[u8],
) -> Result<(), AllocError>
    ensures { Writes out.old out.new (first_line.now ++ (form.now ++ common.now)) result }
{
    put_bytes(out, first_line)?;
    put_bytes(out, form)?;
    put_bytes(out, common)
}

fn put_head(
    out: &mut Vec<u8>,
    first_line: &[u8],
    form: &[u8],
    common: &[u8],
    other_lines: &[u8],
    is_stream: bool,
    size: usize,
) -> Result<(), AllocError>
    ensures { Writes out.old out.new (first_line.now ++ (form.now ++ (common.now ++ (other_lines.now ++ (length_lines is_stream size ++ crlf_bytes))))) result }
{
    put_first_lines(out, first_line, form, common)?;
    put_other_lines(out, other_lines, is_stream, size)
}

fn put_page_head(
    out: &mut Vec<u8>,
    page: Page,
    outcome: Outcome,
    size: usize,
) -> Result<(), AllocError>
    ensures { Writes out.old out.new (print_response (page_head page outcome size)) result }
{
    put_head(
        out,
        outcome_line(outcome),
        form_line(page),
        common_lines(),
        policy_lines(page),
        is_stream(page),
        size,
    )
}

fn put_wrong_head(out: &mut Vec<u8>, wrong: Wrong, size: usize) -> Result<(), AllocError>
    ensures { Writes out.old out.new (print_response (wrong_head wrong size)) result }
{
    put_head(
        out,
        wrong_line(wrong),
        form_line(Page::Health),
        common_lines(),
        allow_lines(wrong),
        false,
        size,
    )
}

// Appends a body, unless the head is all that was asked for.
fn put_body(out: &mut Vec<u8>, is_head: bool, body: &[u8]) -> Result<(), AllocError>
    ensures { Writes out.old out.new (body_spelling is_head body.now) result }
{
    if is_head {
        return Ok(());
    }
    put_bytes(out, body)
}

fn put_answer(
    out: &mut Vec<u8>,
    page: Page,
    outcome: Outcome,
    is_head: bool,
    body: &[u8],
) -> Result<(), AllocError>
    ensures { Writes out.old out.new (page_answer page outcome is_head body.now) result }
{
    put_page_head(out, page, outcome, body.len())?;
    put_body(out, is_head, body)
}

fn put_wrong(out: &mut Vec<u8>, wrong: Wrong, is_head: bool) -> Result<(), AllocError>
    ensures { Writes out.old out.new (wrong_answer wrong is_head) result }
{
    let body = text_of(wrong);
    put_wrong_head(out, wrong, body.len())?;
    put_body(out, is_head, body)
}

/// Appends the answer that gives a page, or says why the node isn't ready. On an `Err` nothing has changed.
pub fn answer_page(
    out: &mut Vec<u8>,
    page: Page,
    outcome: Outcome,
    is_head: bool,
    body: &[u8],
) -> Result<(), NoMemory>
    ensures ok { OnOk result (out.new.items ≡ out.old.items ++ page_answer page outcome is_head body.now) }
    ensures err { OnErr result (out.new.items ≡ out.old.items) }
    ensures room { vec_len out.old + length (page_answer page outcome is_head body.now) ≤ vec_capacity out.old → IsOk result }
{
    let start = out.len();
    let put = put_answer(out, page, outcome, is_head, body);
    settled(out, start, put)
}

/// Appends the answer that says in a line what is wrong. On an `Err` nothing has changed.
pub fn answer_wrong(out: &mut Vec<u8>, wrong: Wrong, is_head: bool) -> Result<(), NoMemory>
    ensures ok { OnOk result (out.new.items ≡ out.old.items ++ wrong_answer wrong is_head) }
    ensures err { OnErr result (out.new.items ≡ out.old.items) }
    ensures room { vec_len out.old + length (wrong_answer wrong is_head) ≤ vec_capacity out.old → IsOk result }
{
    let start = out.len();
    let put = put_wrong(out, wrong, is_head);
    settled(out, start, put)
}

/// Each head is one of the grammar of HTTP, whatever stands behind it.
pub fn answers_have_lawful_heads()
    ensures page { (page : Page) (outcome : Outcome) (size : ℕ) → size < 2 ^ 64 → IsResponseHead (page_head page outcome size) }
    ensures wrong { (wrong : Wrong) (size : ℕ) → size < 2 ^ 64 → IsResponseHead (wrong_head wrong size) }
{}
