//! How a request is read.

ghost use Rattle.std.specs.Prelude.{◌≡◌, true, false, IfOk, OnOk, IfErr, OnErr, option_map};
ghost use Rattle.std.specs.Option.{option_copied};
ghost use Rattle.http_header.specs.Token.{lowercase};
ghost use Rattle.cc_web.specs.Requests.{Reads, stands_twice, value_under, origin_of};

use crate::fault::WebFault;
use crate::request::{WebRequest, WebSettings};
use bytes::Bytes;
use http::{HeaderMap, HeaderValue, Request};

/// The parts of a request that are looked at, as they were sent. A field that is looked at stands once at most, else the
/// request is no order.
pub fn web_request(request: &Request<Bytes>) -> Result<WebRequest<'_>, WebFault>
    ensures { Reads request.now result }
{
    let headers = request.headers();
    let accept = value_of(headers, "accept")?;
    let content_type = value_of(headers, "content-type")?;
    let idempotency_key = value_of(headers, "idempotency-key")?;
    let origin = value_of(headers, "origin")?;
    let sec_fetch_site = value_of(headers, "sec-fetch-site")?;
    let last_event_id = value_of(headers, "last-event-id")?;
    Ok(WebRequest {
        method: request.method().as_str(),
        path: request.uri().path(),
        query: request.uri().query(),
        accept,
        content_type,
        idempotency_key,
        origin,
        sec_fetch_site,
        last_event_id,
        body: request.body().as_slice(),
    })
}

/// The origin of a request, where it stands once and is the allowed one.
pub fn origin_in<'a>(
    settings: &WebSettings<'_>,
    request: &'a Request<Bytes>,
) -> Option<&'a HeaderValue>
    ensures { option_map (λ v. v.bytes) (option_copied result) ≡ origin_of settings.now request.now }
{
    let allowed = settings.allowed_origin?;
    let mut origins = request.headers().get_all("origin").iter();
    let origin = origins.next()?;
    if origins.next().is_none() && origin.as_bytes() == allowed {
        return Some(origin);
    }
    None
}

// The value of a field that stands once at most.
fn value_of<'a>(
    headers: &'a HeaderMap<HeaderValue>,
    name: &str,
) -> Result<Option<&'a [u8]>, WebFault>
    ensures value { IfOk result (λ v. option_copied v ≡ value_under headers.now (lowercase name.now)) }
    ensures once { OnOk result (stands_twice headers.now (lowercase name.now) ≡ false) }
    ensures fault { IfErr result (λ why. why ≡ WebFault.Twice) }
    ensures twice { OnErr result (stands_twice headers.now (lowercase name.now) ≡ true) }
{
    let mut values = headers.get_all(name).iter();
    let Some(value) = values.next() else {
        return Ok(None);
    };
    match values.next() {
        Some(_) => Err(WebFault::Twice),
        None => Ok(Some(value.as_bytes())),
    }
}
