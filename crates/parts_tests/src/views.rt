//! Views and texts.

ghost use Rattle.std.specs.Prelude.{◌≡◌, ◌≤◌, length};
ghost use Rattle.std.specs.FinMap.{len};

use crate::sets::id;
use cc_views::{Row, Text, Value, View};
use std::process::Abort;

/// A row with number 1.
pub fn row(node: u32, bytes: &[u8]) -> Row
    requires { length bytes.now ≤ 64 }
{
    let mut value = Value::empty();
    value.text = Text::new(bytes).unwrap();
    Row {
        node: id(node),
        number: 1,
        value,
    }
}

/// A view of no rows.
pub fn no_rows<R: Abort + AllocGlobal>(rt: &R) -> View
    ensures { len result ≡ 0 }
{
    View::new(rt.alloc()).expect(rt, "a view")
}

/// A view of one row, of that node, number 1 and that text.
pub fn one_row<R: Abort + AllocGlobal>(rt: &R, node: u32, text: &[u8]) -> View
    requires { length text.now ≤ 64 }
    ensures { len result ≡ 1 }
{
    let mut view = View::new(rt.alloc()).expect(rt, "a view");
    view.push(row(node, text));
    view
}

#[test]
#[tactic(auto, using(cc_views::specs::MergeLaws::merge_is_no_larger))]
fn equal_numbers_keep_the_left_row(rt: HostRuntime) {
    let mut view = one_row(&rt, 1, b"a");
    let same = one_row(&rt, 1, b"b");
    view.merge(&same);
    assert!(rt; view.rows() == [row(1, b"a")].as_slice());
}
