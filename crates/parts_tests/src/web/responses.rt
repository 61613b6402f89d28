//! Which response an answer is.

ghost use Rattle.std.specs.FinMap.{len};
ghost use Rattle.std.specs.Prelude.{◌≡◌};

use cc_messages::{Answer, Refusal};
use cc_views::{NodeId, NumberSet, Row, Text, Value, View};
use cc_web::{
    Form, Problem, Status, WebField, answer_response, overview_response, problem_response,
};
use std::process::Abort;

// The row of node 2, with all four slots.
fn full_row() -> Row {
    let mut set = NumberSet::new();
    set.push(5);
    set.push(8);
    Row {
        node: NodeId::new(2).unwrap(),
        number: 18_446_744_073_709_551_615,
        value: Value {
            text: Text::new(b"\xff\xfe").unwrap(),
            max: 7,
            flag: true,
            set,
        },
    }
}

// A view of one row.
fn one_row<R: Abort + AllocGlobal>(rt: &R, row: Row) -> View
    ensures { len result ≡ 1 }
{
    let mut view = View::new(rt.alloc()).expect(rt, "memory");
    view.push(row);
    view
}

// The row of node 1, whose text has quotes, backslashes and controls, and the other one.
#[tactic(auto, using(cc_views::specs::MergeLaws::merge_is_no_larger))]
fn two_rows<R: Abort + AllocGlobal>(rt: &R) -> View {
    let mut value = Value::empty();
    value.text = Text::new(b"\"\\\n\x1f\x7f \xc3\xa9").unwrap();
    let row = Row {
        node: NodeId::new(1).unwrap(),
        number: 3,
        value,
    };
    let mut view = one_row(rt, row);
    let other = one_row(rt, full_row());
    view.merge(&other);
    drop(other);
    view
}

// What isn't UTF-8 stands in Base64 (RFC 4648: ff fe is //4=).
const ROWS: &str =
    "{\"rows\":[{\"node\":1,\"number\":\"3\",\"text\":\"\\\"\\\\\\u000a\\u001f\x7f \u{e9}\",\"max\":\"0\",\"flag\":false,\"set\":[]},{\"node\":2,\"number\":\"18446744073709551615\",\"text_base64\":\"//4=\",\"max\":\"7\",\"flag\":true,\"set\":[\"5\",\"8\"]}]}";

#[test]
fn a_view_is_rows_without_loss(rt: HostRuntime) {
    let seen = Answer::Seen(two_rows(&rt));
    let response = answer_response(rt.alloc(), &seen, None).expect(&rt, "memory");
    drop(seen);
    let head = response.head;
    assert!(rt;
        matches!(head.status, Status::Ok) && matches!(head.form, Form::Json) && head.field.is_none()
    );
    assert!(rt; response.body.as_slice() == ROWS.as_bytes());
}

const SKIPPED: &str =
    r#"{"type":"about:blank","title":"Conflict","status":409,"detail":"an earlier request of the session is missing","refusal":"Skip","number":12,"last_request":"3"}"#;

#[test]
fn a_refusal_has_a_name_and_a_number(rt: HostRuntime) {
    let problem = Problem::Refused(Refusal::Skip(3));
    let response = problem_response(rt.alloc(), problem).expect(&rt, "memory");
    let head = response.head;
    assert!(rt; head.status.code() == 409 && matches!(head.form, Form::Problem));
    assert!(rt; response.body.as_slice() == SKIPPED.as_bytes());
}

#[test]
fn what_there_is_as_a_page_and_as_json(rt: HostRuntime) {
    let page = overview_response(rt.alloc(), true).expect(&rt, "memory");
    assert!(rt;
        matches!(page.head.form, Form::Html) && matches!(page.head.field, Some(WebField::Policy))
    );
    assert!(rt; page.body.as_slice().starts_with(b"<!doctype html>"));
    drop(page);
    let json = overview_response(rt.alloc(), false).expect(&rt, "memory");
    assert!(rt; matches!(json.head.form, Form::Json) && json.head.field.is_none());
    assert!(rt;
        json.body
            .as_slice()
            .starts_with(b"{\"writes\":[\"PUT /v1/text\"")
    );
    drop(json);
}
