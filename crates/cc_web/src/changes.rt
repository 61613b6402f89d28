//! What changes, as server-sent events: <https://html.spec.whatwg.org/multipage/server-sent-events.html>.

ghost use Rattle.std.specs.Prelude.{◌≡◌, ◌++◌, OnOk, IfOk};
ghost use Rattle.cc_views.specs.Rows.{rows_of};
ghost use Rattle.cc_web.specs.Changes.{stores_in, is_news, change_event, no_event};
ghost use Rattle.cc_web.specs.Responses.{events_head};

use crate::json::put_all;
use crate::response::{Form, WebHead, WebResponse, finished, put_view};
use crate::status::Status;
use cc_views::{NoMemory, Row, View};
use itoa::Buffer;
use std::alloc::{AllocError, Global};

/// How many stores rows show, of all nodes together: what is collected later shows more, unless it shows the same.
pub fn stores_in(rows: &[Row]) -> u64
    ensures { result ≡ stores_in rows.now }
{
    match rows.split_first() {
        Some((row, others)) => row.number.saturating_add(stores_in(others)),
        None => 0,
    }
}

/// Whether rows show another number of stores than the one that is known.
pub fn is_news(known: Option<u64>, rows: &[Row]) -> bool
    ensures { result ≡ is_news known rows.now }
{
    match known {
        Some(stores) => stores != stores_in(rows),
        None => true,
    }
}

const EVENTS_HEAD: WebHead = WebHead {
    status: Status::Ok,
    form: Form::Events,
    field: None,
};

fn put_change(alloc: Global, out: &mut Vec<u8>, rows: &[Row]) -> Result<(), AllocError>
    ensures { OnOk result (out.new.items ≡ out.old.items ++ change_event rows.now) }
{
    let mut id = Buffer::new();
    put_all(
        out,
        &[
            b"retry: 100\nid: ",
            id.format(stores_in(rows)).as_bytes(),
            b"\ndata: ",
        ],
    )?;
    put_view(alloc, out, rows, None)?;
    out.extend_from_slice(b"\n\n")
}

/// The response that tells a view as an event, which is named by how many stores the view shows.
pub fn change_response(alloc: Global, view: &View) -> Result<WebResponse, NoMemory>
    ensures head { IfOk result (λ r. r.head ≡ events_head) }
    ensures body { IfOk result (λ r. r.body.items ≡ change_event (rows_of view.now)) }
{
    let mut body = Vec::new(alloc);
    let put = put_change(alloc, &mut body, view.rows());
    finished(EVENTS_HEAD, body, put)
}

/// The response to who knows all that stands: no event.
pub fn no_change_response(alloc: Global) -> Result<WebResponse, NoMemory>
    ensures head { IfOk result (λ r. r.head ≡ events_head) }
    ensures body { IfOk result (λ r. r.body.items ≡ no_event) }
{
    let mut body = Vec::new(alloc);
    let put = body.extend_from_slice(b"retry: 100\n\n");
    finished(EVENTS_HEAD, body, put)
}
