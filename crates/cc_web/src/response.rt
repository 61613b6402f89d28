//! Which response an answer is.

ghost use Rattle.std.specs.Prelude.{◌≡◌, ◌++◌, [], OnOk, IfOk, IsOk};
ghost use Rattle.std.specs.Option.{option_copied};
ghost use Rattle.cc_web.specs.Responses.{collects_json, view_json, set_json, answer_json, last_request_json, form_value, field_name, field_value};
ghost use Rattle.cc_web.specs.Responses.{problem_field, json_head, problem_head, overview_head, preflight_head};
ghost use Rattle.cc_web.specs.Problems.{problem_json};

use crate::fault::WebFault;
use crate::json::{flag_json, put_all, put_numbers, put_rows};
use crate::overview::overview;
use crate::place::Place;
use crate::problem::{Problem, put_problem};
use crate::status::Status;
use cc_messages::Answer;
use cc_views::{NoMemory, Row};
use itoa::Buffer;
use std::alloc::{AllocError, Global};

/// A response: its head, and the bytes of its body.
#[derive(Drop)]
pub struct WebResponse {
    pub head: WebHead,
    pub body: Vec<u8>,
}

/// The head of a response. `COMMON_FIELDS` stand in each, and `ORIGIN_FIELDS` in those to a page of the allowed origin.
#[derive(Clone, Copy)]
pub struct WebHead {
    pub status: Status,
    pub form: Form,
    pub field: Option<WebField>,
}

/// What a body is.
#[derive(Clone, Copy)]
pub enum Form {
    Json,
    Problem,
    Html,
    /// Server-sent events.
    Events,
    /// There is none.
    Nothing,
}

/// A field that only some responses have.
#[derive(Clone, Copy)]
pub enum WebField {
    /// The methods that there are at a place.
    Allow(Place),
    /// In how many seconds to ask again.
    RetryAfter,
    /// That the page loads nothing.
    Policy,
    /// The methods that a page of the allowed origin may use.
    AllowMethods(Place),
}

/// The fields that each response has.
pub const COMMON_FIELDS: [(&str, &str); 2] = [
    ("cache-control", "no-store"),
    ("x-content-type-options", "nosniff"),
];

/// The fields of a response to a page of the allowed origin, beside `access-control-allow-origin` with that origin.
pub const ORIGIN_FIELDS: [(&str, &str); 2] = [
    (
        "access-control-allow-headers",
        "content-type, idempotency-key",
    ),
    ("vary", "origin"),
];

impl Form {
    /// The value of `content-type`.
    pub fn value(self) -> Option<&'static str>
        ensures { option_copied result ≡ form_value self }
    {
        match self {
            Form::Json => Some("application/json"),
            Form::Problem => Some("application/problem+json"),
            Form::Html => Some("text/html; charset=utf-8"),
            Form::Events => Some("text/event-stream"),
            Form::Nothing => None,
        }
    }
}

impl WebField {
    /// Its name, in small letters.
    pub fn name(self) -> &'static str
        ensures { result.now ≡ field_name self }
    {
        match self {
            WebField::Allow(_) => "allow",
            WebField::RetryAfter => "retry-after",
            WebField::Policy => "content-security-policy",
            WebField::AllowMethods(_) => "access-control-allow-methods",
        }
    }

    /// Its value.
    pub fn value(self) -> &'static str
        ensures { result.now ≡ field_value self }
    {
        match self {
            WebField::Allow(place) | WebField::AllowMethods(place) => place.methods(),
            WebField::RetryAfter => "1",
            WebField::Policy =>
                "default-src 'none'; style-src 'unsafe-inline'; frame-ancestors 'none'",
        }
    }
}

// How many collects a snapshot took.
fn put_collects(out: &mut Vec<u8>, collects: Option<u64>) -> Result<(), AllocError>
    ensures { OnOk result (out.new.items ≡ out.old.items ++ collects_json collects) }
{
    match collects {
        Some(collects) => put_all(
            out,
            &[b",\"collects\":", Buffer::new().format(collects).as_bytes()],
        ),
        None => Ok(()),
    }
}

pub(crate) fn put_view(
    alloc: Global,
    out: &mut Vec<u8>,
    rows: &[Row],
    collects: Option<u64>,
) -> Result<(), AllocError>
    ensures { OnOk result (out.new.items ≡ out.old.items ++ view_json rows.now collects) }
{
    out.extend_from_slice(b"{\"rows\":")?;
    put_rows(alloc, out, rows)?;
    put_collects(out, collects)?;
    out.extend_from_slice(b"}")
}

fn put_set(out: &mut Vec<u8>, numbers: &[u32]) -> Result<(), AllocError>
    ensures { OnOk result (out.new.items ≡ out.old.items ++ set_json numbers.now) }
{
    out.extend_from_slice(b"{\"set\":")?;
    put_numbers(out, numbers)?;
    out.extend_from_slice(b"}")
}

fn put_answer(
    alloc: Global,
    out: &mut Vec<u8>,
    answer: &Answer,
    collects: Option<u64>,
) -> Result<(), AllocError>
    ensures { OnOk result (out.new.items ≡ out.old.items ++ answer_json answer.now collects) }
{
    match answer {
        Answer::Stored => out.extend_from_slice(b"{\"answer\":\"Stored\"}"),
        Answer::Seen(view) => put_view(alloc, out, view.rows(), collects),
        Answer::Max(max) => put_all(
            out,
            &[
                b"{\"max\":\"",
                Buffer::new().format(*max).as_bytes(),
                b"\"}",
            ],
        ),
        Answer::Flag(flag) => put_all(out, &[b"{\"flag\":", flag_json(*flag), b"}"]),
        Answer::Set(numbers) => put_set(out, numbers.as_slice()),
    }
}

// The response with that head, whose body was written so.
pub(crate) fn finished(
    head: WebHead,
    body: Vec<u8>,
    put: Result<(), AllocError>,
) -> Result<WebResponse, NoMemory>
    ensures { IfOk result (λ r. (r ≡ record { head = head; body = body }) × IsOk put) }
{
    match put {
        Ok(()) => Ok(WebResponse { head, body }),
        Err(_) => {
            drop(body);
            Err(NoMemory)
        }
    }
}

const JSON_HEAD: WebHead = WebHead {
    status: Status::Ok,
    form: Form::Json,
    field: None,
};

/// The response that gives an answer; of a snapshot with how many collects it took. The only error is a refused growth.
pub fn answer_response(
    alloc: Global,
    answer: &Answer,
    collects: Option<u64>,
) -> Result<WebResponse, NoMemory>
    ensures head { IfOk result (λ r. r.head ≡ json_head) }
    ensures body { IfOk result (λ r. r.body.items ≡ answer_json answer.now collects) }
{
    let mut body = Vec::new(alloc);
    let put = put_answer(alloc, &mut body, answer, collects);
    finished(JSON_HEAD, body, put)
}

/// The response that tells the last request of a session.
pub fn last_request_response(
    alloc: Global,
    session: u64,
    last: u64,
) -> Result<WebResponse, NoMemory>
    ensures head { IfOk result (λ r. r.head ≡ json_head) }
    ensures body { IfOk result (λ r. r.body.items ≡ last_request_json session last) }
{
    let mut body = Vec::new(alloc);
    let put = put_all(
        &mut body,
        &[
            b"{\"session\":\"",
            Buffer::new().format(session).as_bytes(),
            b"\",\"last_request\":\"",
            Buffer::new().format(last).as_bytes(),
            b"\"}",
        ],
    );
    finished(JSON_HEAD, body, put)
}

/// The response that says why there is no answer.
pub fn problem_response(alloc: Global, problem: Problem) -> Result<WebResponse, NoMemory>
    ensures head { IfOk result (λ r. r.head ≡ problem_head problem) }
    ensures body { IfOk result (λ r. r.body.items ≡ problem_json problem) }
{
    let mut body = Vec::new(alloc);
    let put = put_problem(&mut body, problem);
    let head = WebHead {
        status: problem.status(),
        form: Form::Problem,
        field: problem_field(problem),
    };
    finished(head, body, put)
}

fn problem_field(problem: Problem) -> Option<WebField>
    ensures { result ≡ problem_field problem }
{
    match problem {
        Problem::Fault(WebFault::Method(place)) => Some(WebField::Allow(place)),
        // What passes is worth another try.
        _ => match problem.status() {
            Status::Unavailable => Some(WebField::RetryAfter),
            _ => None,
        },
    }
}

/// The response that tells what there is.
pub fn overview_response(alloc: Global, is_html: bool) -> Result<WebResponse, NoMemory>
    ensures { IfOk result (λ r. r.head ≡ overview_head is_html) }
{
    let mut body = Vec::new(alloc);
    let put = body.extend_from_slice(overview(is_html).as_bytes());
    let head = if is_html {
        WebHead {
            status: Status::Ok,
            form: Form::Html,
            field: Some(WebField::Policy),
        }
    } else {
        JSON_HEAD
    };
    finished(head, body, put)
}

/// The response that allows a page of the allowed origin to use the methods of a place.
pub fn preflight_response(alloc: Global, place: Place) -> WebResponse
    ensures head { result.head ≡ preflight_head place }
    ensures body { result.body.items ≡ [] }
{
    WebResponse {
        head: WebHead {
            status: Status::NoContent,
            form: Form::Nothing,
            field: Some(WebField::AllowMethods(place)),
        },
        body: Vec::new(alloc),
    }
}
