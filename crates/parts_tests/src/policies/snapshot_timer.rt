//! When a node posts a snapshot, and for how long one operation has been pending.

use cc_policies::{AskName, Calls, SlowOperation};
use std::process::Abort;

// In each of so many seconds: whether an absent peer was heard, whether a need is out of date, whether something is held
// up; and in which of them a snapshot is posted.
fn check_calls<R: Abort>(rt: &R, calls: &mut Calls, seconds: u64, look: [bool; 3], posted: &[u64]) {
    let [is_back, needs_anew, is_held] = look;
    for second in 1..=seconds {
        let is_posted = calls.after_second(is_back, needs_anew, is_held);
        assert!(rt; is_posted == posted.contains(&second), "in second {second}");
    }
}

// 1, 2, 4 and then 8 seconds apart while voices go on, and anew after 8 seconds of silence. What is held up calls each 8 seconds,
// and a need that is out of date in each one.
#[test]
fn voices_are_answered_ever_more_rarely(rt: HostRuntime) {
    let voices = [true, false, false];
    let silence = [false, false, false];
    let mut calls = Calls::new();
    check_calls(&rt, &mut calls, 24, voices, &[1, 3, 7, 15, 23]);
    check_calls(&rt, &mut calls, 8, silence, &[]);
    check_calls(&rt, &mut calls, 3, voices, &[1, 3]);
    let mut held = Calls::new();
    check_calls(&rt, &mut held, 20, [false, false, true], &[1, 9, 17]);
    check_calls(&rt, &mut held, 2, [false, true, false], &[1, 2]);
    check_calls(&rt, &mut held, 9, silence, &[]);
}

// It was seen for the first time before these seconds.
#[test]
fn an_operation_has_lasted_for_eight_seconds(rt: HostRuntime) {
    let first = Some(AskName {
        session: 7,
        request: 1,
    });
    let next = Some(AskName {
        session: 7,
        request: 2,
    });
    let mut lasting = SlowOperation::new().after_second(first);
    for _ in 0..7 {
        lasting = lasting.after_second(first);
    }
    let long = lasting.after_second(first);
    let lasted = [
        lasting.is_long(),
        long.is_long(),
        long.after_second(next).is_long(),
        long.after_second(None).is_long(),
    ];
    assert!(rt; lasted == [false, true, false, false]);
}
