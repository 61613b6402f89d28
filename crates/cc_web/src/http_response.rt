//! How a response is sent.

ghost use Rattle.std.specs.Prelude.{◌≡◌, ◌++◌, ◌∷◌, [], true, map, option_map, ◌&&◌, OnOk, IsTrue};
ghost use Rattle.std.specs.List.{list_all};
ghost use Rattle.std.specs.Option.{option_copied};
ghost use Rattle.http_header.specs.FieldName.{is_header_name};
ghost use Rattle.http_header.specs.FieldValue.{is_visible_text};
ghost use Rattle.http_server.specs.Response.{IsResponse, fields_of};
ghost use Rattle.cc_web.specs.Statuses.{code_of};
ghost use Rattle.cc_web.specs.HttpResponses.{type_field, own_field, common_fields, origin_fields, sent_fields};
ghost use Rattle.cc_web.specs.Responses.{form_value};

use crate::response::{COMMON_FIELDS, Form, ORIGIN_FIELDS, WebField, WebResponse};
use bytes::Bytes;
use http::{HeaderName, HeaderValue, StatusCode};
use http_server::Response;
use std::alloc::AllocError;

/// Makes the response that is sent the one that was decided: its status, its fields and its body. The origin is that of the
/// request, where it is the allowed one: only its pages may see the response. The only error is a refused growth, after
/// which nothing is to be sent.
#[tactic(auto, using(std::proofs::Common::append_assoc))]
pub fn put_response(
    decided: WebResponse,
    origin: Option<&HeaderValue>,
    sent: &mut Response,
) -> Result<(), AllocError>
    ensures { OnOk result (IsResponse (code_of decided.head.status)
        (sent_fields decided.head (option_map (λ v. v.bytes) (option_copied origin.entry))) decided.body.items sent.new) }
{
    let WebResponse { head, body } = decided;
    sent.clear();
    sent.body.push(Bytes::from_vec(body)?)?;
    sent.status = StatusCode::from_u16(head.status.code()).unwrap();
    put_type(sent, head.form)?;
    put_own(sent, head.field)?;
    put_all(sent, &COMMON_FIELDS)?;
    put_origin(sent, origin)
}

fn put(sent: &mut Response, name: &'static str, value: &'static str) -> Result<(), AllocError>
    requires name { IsTrue (is_header_name name.now) }
    requires value { IsTrue (is_visible_text value.now) }
    ensures fields { OnOk result (fields_of sent.new ≡ fields_of sent.old ++ (name.now, value.now) ∷ []) }
    ensures status { sent.new.status ≡ sent.old.status }
    ensures body { sent.new.body ≡ sent.old.body }
{
    sent.add_header(
        HeaderName::from_static(name),
        HeaderValue::from_static(value),
    )
}

fn put_type(sent: &mut Response, form: Form) -> Result<(), AllocError>
    ensures fields { OnOk result (fields_of sent.new ≡ fields_of sent.old ++ type_field (form_value form)) }
    ensures status { sent.new.status ≡ sent.old.status }
    ensures body { sent.new.body ≡ sent.old.body }
{
    match form.value() {
        Some(value) => put(sent, "content-type", value),
        None => Ok(()),
    }
}

fn put_own(sent: &mut Response, field: Option<WebField>) -> Result<(), AllocError>
    ensures fields { OnOk result (fields_of sent.new ≡ fields_of sent.old ++ own_field field) }
    ensures status { sent.new.status ≡ sent.old.status }
    ensures body { sent.new.body ≡ sent.old.body }
{
    match field {
        Some(field) => put(sent, field.name(), field.value()),
        None => Ok(()),
    }
}

fn put_all(sent: &mut Response, fields: &[(&'static str, &'static str)]) -> Result<(), AllocError>
    requires { IsTrue (list_all (λ f. is_header_name f.0.now && is_visible_text f.1.now) fields.now) }
    ensures fields { OnOk result (fields_of sent.new ≡ fields_of sent.old ++ map (λ f. (f.0.now, f.1.now)) fields.now) }
    ensures status { sent.new.status ≡ sent.old.status }
    ensures body { sent.new.body ≡ sent.old.body }
{
    for &(name, value) in fields {
        put(sent, name, value)?;
    }
    Ok(())
}

#[tactic(auto, using(std::proofs::Common::append_assoc))]
fn put_origin(sent: &mut Response, origin: Option<&HeaderValue>) -> Result<(), AllocError>
    ensures fields { OnOk result (fields_of sent.new
        ≡ fields_of sent.old ++ origin_fields (option_map (λ v. v.bytes) (option_copied origin.entry))) }
    ensures status { sent.new.status ≡ sent.old.status }
    ensures body { sent.new.body ≡ sent.old.body }
{
    let Some(origin) = origin else {
        return Ok(());
    };
    let value = origin.clone()?;
    sent.add_header(
        HeaderName::from_static("access-control-allow-origin"),
        value,
    )?;
    put_all(sent, &ORIGIN_FIELDS)
}
