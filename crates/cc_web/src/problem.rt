//! Why a request has no answer, as problem details (RFC 9457).

ghost use Rattle.std.specs.Prelude.{◌≡◌, ◌++◌, OnOk};
ghost use Rattle.cc_messages.specs.Refusals.{name_of};
ghost use Rattle.cc_web.specs.Problems.{fault_status, refused_status, status_of, fault_detail, refused_detail, detail_of, last_json, refused_json, reason_json, problem_json};

use crate::fault::WebFault;
use crate::json::put_all;
use crate::status::Status;
use cc_messages::Refusal;
use itoa::Buffer;
use std::alloc::AllocError;

/// Why a request has no answer.
#[derive(Clone, Copy)]
pub enum Problem {
    /// It is no order.
    Fault(WebFault),
    /// The node refused its ask, and the time is over where the refusal may pass.
    Refused(Refusal),
    /// The time is over, and its ask isn't answered.
    Late { is_write: bool },
    /// Each session of the node's own is in use.
    NoSession,
    /// No two collects in a row showed one view in time.
    NoSnapshot,
}

impl WebFault {
    fn status(self) -> Status
        ensures { result ≡ fault_status self }
    {
        match self {
            WebFault::NoPlace => Status::NotFound,
            WebFault::Method(_) => Status::NotAllowed,
            WebFault::Origin => Status::Forbidden,
            WebFault::ContentType => Status::Unsupported,
            WebFault::TooLong => Status::TooLarge,
            WebFault::Twice
            | WebFault::Query
            | WebFault::Key
            | WebFault::OwnSession
            | WebFault::Body => Status::BadRequest,
        }
    }

    fn detail(self) -> &'static str
        ensures { result.now ≡ fault_detail self }
    {
        match self {
            WebFault::Twice => "a header field stands twice that may stand once",
            WebFault::NoPlace => "there is nothing at this path: GET /v1/ tells what there is",
            WebFault::Method(_) => "there is no such method at this path",
            WebFault::Query =>
                "the query is no timeout such as timeout=5s or timeout=500ms, of a minute at most",
            WebFault::Origin => "a page of another origin may not write",
            WebFault::Key =>
                "Idempotency-Key is no SESSION/REQUEST of two numbers from 1 on, or is not for this path",
            WebFault::OwnSession => "this session is one of the node's own",
            WebFault::ContentType =>
                "the body is taken as it stands: as text/plain or application/octet-stream",
            WebFault::TooLong => "the body is longer than what is taken here",
            WebFault::Body =>
                "the body is not what is written here: a text of 1 to 64 bytes, or a number",
        }
    }
}

impl Problem {
    /// Its status.
    pub fn status(self) -> Status
        ensures { result ≡ status_of self }
    {
        match self {
            Problem::Fault(fault) => fault.status(),
            Problem::Refused(why) => refused_status(why),
            Problem::Late { .. } => Status::Late,
            Problem::NoSession | Problem::NoSnapshot => Status::Unavailable,
        }
    }

    /// What it says to people.
    pub fn detail(self) -> &'static str
        ensures { result.now ≡ detail_of self }
    {
        match self {
            Problem::Fault(fault) => fault.detail(),
            Problem::Refused(why) => refused_detail(why),
            Problem::Late { is_write: true } => "no answer in time: the write may still be done",
            Problem::Late { is_write: false } => "no answer in time: nothing was read",
            Problem::NoSession =>
                "no session of the node's own is free: it has too many requests, or hasn't joined yet",
            Problem::NoSnapshot => "no two collects in a row showed the same view in time",
        }
    }
}

// The status of a refusal: of one that passes, of one that stands against what the client asks, or of a node that can do
// no more.
fn refused_status(why: Refusal) -> Status
    ensures { result ≡ refused_status why }
{
    match why {
        Refusal::NotEntered
        | Refusal::NotJoined
        | Refusal::Busy
        | Refusal::OutboxFull
        | Refusal::NoMemory
        | Refusal::QueueFull => Status::Unavailable,
        Refusal::TooManySessions
        | Refusal::Repeat
        | Refusal::Stale(_)
        | Refusal::Skip(_)
        | Refusal::SetFull => Status::Conflict,
        Refusal::Left => Status::Gone,
        _ => Status::Fault,
    }
}

fn refused_detail(why: Refusal) -> &'static str
    ensures { result.now ≡ refused_detail why }
{
    match why {
        Refusal::Left => "the node has left the cluster for good",
        Refusal::NotEntered | Refusal::NotJoined => "the node has not joined the cluster yet",
        Refusal::TooManySessions =>
            "the node has all the sessions that it keeps, and this is another",
        Refusal::Repeat => "this request of the session was asked before",
        Refusal::Stale(_) => "the session is past this request",
        Refusal::Skip(_) => "an earlier request of the session is missing",
        Refusal::SetFull => "the node's own set is full",
        Refusal::Busy | Refusal::OutboxFull | Refusal::QueueFull | Refusal::NoMemory =>
            "the node is too busy: nothing was done",
        _ => "the node can not do this any more",
    }
}

fn refusal_name(why: Refusal) -> &'static str
    ensures { result.now ≡ name_of why }
{
    match why {
        Refusal::Left => "Left",
        Refusal::NotEntered => "NotEntered",
        Refusal::AlreadyEntered => "AlreadyEntered",
        Refusal::NotJoined => "NotJoined",
        Refusal::Old(_) => "Old",
        Refusal::Gap(_) => "Gap",
        Refusal::NothingToAck => "NothingToAck",
        Refusal::TooManyNodes => "TooManyNodes",
        Refusal::TooManySessions => "TooManySessions",
        Refusal::Repeat => "Repeat",
        Refusal::Stale(_) => "Stale",
        Refusal::Skip(_) => "Skip",
        Refusal::Busy => "Busy",
        Refusal::SetFull => "SetFull",
        Refusal::OutboxFull => "OutboxFull",
        Refusal::Spent => "Spent",
        Refusal::NoMemory => "NoMemory",
        Refusal::QueueFull => "QueueFull",
    }
}

// Appends the last request of the session, where a refusal tells it.
#[tactic(auto, unfolding(crate::specs::Problems::last_json))]
fn put_last(out: &mut Vec<u8>, why: Refusal) -> Result<(), AllocError>
    ensures { OnOk result (out.new.items ≡ out.old.items ++ last_json why) }
{
    match why {
        Refusal::Stale(last) | Refusal::Skip(last) => put_all(
            out,
            &[
                b",\"last_request\":\"",
                Buffer::new().format(last).as_bytes(),
                b"\"",
            ],
        ),
        _ => Ok(()),
    }
}

// Appends the name and the number of a refusal.
#[tactic(auto, unfolding(crate::specs::Problems::refused_json))]
fn put_refused(out: &mut Vec<u8>, why: Refusal) -> Result<(), AllocError>
    ensures { OnOk result (out.new.items ≡ out.old.items ++ refused_json why) }
{
    let mut number = Buffer::new();
    put_all(
        out,
        &[
            b",\"refusal\":\"",
            refusal_name(why).as_bytes(),
            b"\",\"number\":",
            number.format(why.number()).as_bytes(),
        ],
    )?;
    put_last(out, why)
}

// Appends the refusal of a problem that is one.
fn put_reason(out: &mut Vec<u8>, problem: Problem) -> Result<(), AllocError>
    ensures { OnOk result (out.new.items ≡ out.old.items ++ reason_json problem) }
{
    match problem {
        Problem::Refused(why) => put_refused(out, why),
        _ => Ok(()),
    }
}

/// Appends its details.
pub(crate) fn put_problem(out: &mut Vec<u8>, problem: Problem) -> Result<(), AllocError>
    ensures { OnOk result (out.new.items ≡ out.old.items ++ problem_json problem) }
{
    let status = problem.status();
    let mut code = Buffer::new();
    put_all(
        out,
        &[
            b"{\"type\":\"about:blank\",\"title\":\"",
            status.title().as_bytes(),
            b"\",\"status\":",
            code.format(status.code()).as_bytes(),
            b",\"detail\":\"",
            problem.detail().as_bytes(),
            b"\"",
        ],
    )?;
    put_reason(out, problem)?;
    out.extend_from_slice(b"}")
}
