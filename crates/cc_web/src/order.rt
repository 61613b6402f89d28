//! Which order a request is.

ghost use Rattle.std.specs.Prelude.{◌≡◌};
ghost use Rattle.std.specs.Option.{option_copied};
ghost use Rattle.cc_web.specs.Orders.{order_of, task_of, is_html, known_in};

use crate::body::{is_plain, written_in};
use crate::call::Call;
use crate::fault::WebFault;
use crate::key::{AskKey, key_in};
use crate::origin::{is_allowed, is_foreign};
use crate::place::Place;
use crate::request::{WebRequest, WebSettings};
use crate::timeout::timeout_in;
use crate::words::number_in;
use cc_messages::Command;

/// What is to be done for a request.
#[derive(Clone, Copy, PartialEq, Eq)]
pub enum Task {
    /// Tell what there is.
    Overview { is_html: bool },
    /// Allow a page of the allowed origin to write.
    Preflight(Place),
    /// Tell the last request of this session: ask under number 0, which is refused with it.
    LastRequest(u64),
    /// Collect until two collects in a row show one view.
    Snapshot,
    /// Collect until a collect shows another number of stores than the one that is known, if one is.
    Changes(Option<u64>),
    /// Ask this.
    Ask(Command),
}

/// What is to be done, under which key of the client's own, and within how many milliseconds.
#[derive(Clone, Copy, PartialEq, Eq)]
pub struct WebOrder {
    pub task: Task,
    /// None: under a session of the node's own.
    pub key: Option<AskKey>,
    pub timeout_ms: u64,
}

/// The order that a request is, or the first fault that it has: its path, its method, its query, the origin of a write,
/// its key, the type of its body, and its body, in this order.
pub fn order_of(settings: &WebSettings<'_>, request: &WebRequest<'_>) -> Result<WebOrder, WebFault>
    ensures { result ≡ order_of settings.now request.now }
{
    let place = Place::at(request.path).ok_or(WebFault::NoPlace)?;
    let is_allowed = is_allowed(settings.allowed_origin, request.origin);
    let call = Call::of(place, request.method, is_allowed).ok_or(WebFault::Method(place))?;
    let timeout_ms = timeout_in(request.query)?;
    if call.is_write() && !is_allowed && is_foreign(request.origin, request.sec_fetch_site) {
        return Err(WebFault::Origin);
    }
    let key = key_in(
        request.idempotency_key,
        settings.own_sessions,
        call.is_one_ask(),
    )?;
    if !request.body.is_empty() && !is_plain(request.content_type) {
        return Err(WebFault::ContentType);
    }
    let known = known_in(request.last_event_id);
    let task = task_of(call, request.body, is_html(request.accept), known)?;
    Ok(WebOrder {
        task,
        key,
        timeout_ms,
    })
}

// Whether a page is asked for.
#[tactic(auto, unfolding(crate::specs::Orders::is_html))]
fn is_html(accept: Option<&[u8]>) -> bool
    ensures { result ≡ is_html (option_copied accept.entry) }
{
    match accept {
        Some(value) => value.starts_with(b"text/html"),
        None => false,
    }
}

// How many stores the last event of a stream had. Another word is as good as none.
fn known_in(last_event_id: Option<&[u8]>) -> Option<u64>
    ensures { result ≡ known_in (option_copied last_event_id.entry) }
{
    number_in(last_event_id?)
}

#[tactic(auto, unfolding(crate::specs::Orders::task_of))]
fn task_of(call: Call, body: &[u8], is_html: bool, known: Option<u64>) -> Result<Task, WebFault>
    ensures { result ≡ task_of call body.now is_html known }
{
    match call {
        Call::Write(write) => Ok(Task::Ask(written_in(write, body)?)),
        _ if !body.is_empty() => Err(WebFault::TooLong),
        Call::Overview => Ok(Task::Overview { is_html }),
        Call::LastRequest(session) => Ok(Task::LastRequest(session)),
        Call::Snapshot => Ok(Task::Snapshot),
        Call::Changes => Ok(Task::Changes(known)),
        Call::Read(command) => Ok(Task::Ask(command)),
        Call::Preflight(place) => Ok(Task::Preflight(place)),
    }
}
