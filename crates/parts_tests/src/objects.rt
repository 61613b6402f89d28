//! What a command writes, and what is read of a view.

ghost use Rattle.std.specs.Prelude.{◌≡◌};
ghost use Rattle.std.specs.FinMap.{len};

use crate::sets::id;
use crate::views::no_rows;
use cc_objects::{add_member, flag_of, max_of, set_flag, set_of, write_max};
use cc_views::{Row, Value, View};
use std::process::Abort;

// A row with number 0.
fn row(node: u32, value: Value) -> Row {
    Row {
        node: id(node),
        number: 0,
        value,
    }
}

// The value with a member more, where there is room.
fn with_member<R: Abort>(rt: &R, value: &Value, number: u32) -> Value {
    add_member(value, number).expect(rt, "room")
}

// What is read of no row, of one with the maximum 9, and of that and one with the maximum 5 and the flag. These have the members
// 5 and 2, and 9 and 5.
#[tactic(auto, using(cc_views::specs::MergeLaws::merge_row_is_no_larger))]
fn reads<R: Abort>(rt: &R, view: &mut View) -> [(u64, bool); 3]
    requires { len view.old ≡ 0 }
{
    let of_none = (max_of(view), flag_of(view));
    let first = with_member(rt, &write_max(&Value::empty(), 9), 5);
    view.merge_row(row(1, with_member(rt, &first, 2)));
    let of_one = (max_of(view), flag_of(view));
    let second = with_member(rt, &set_flag(&write_max(&Value::empty(), 5)), 9);
    view.merge_row(row(2, with_member(rt, &second, 5)));
    [of_none, of_one, (max_of(view), flag_of(view))]
}

#[test]
fn a_read_goes_over_all_rows(rt: HostRuntime) {
    let mut view = no_rows(&rt);
    let reads = reads(&rt, &mut view);
    let members = set_of(rt.alloc(), &view).expect(&rt, "members");
    let is_union = members.as_slice() == [2, 5, 9].as_slice();
    drop((view, members));
    assert!(rt; reads == [(0, false), (9, false), (9, true)] && is_union);
}
