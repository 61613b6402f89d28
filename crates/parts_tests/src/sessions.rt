//! Requests of a session.

use cc_sessions::{Checked, Sessions};

// A new session begins at one.
fn begins_at_one(sessions: &Sessions) -> bool {
    sessions.check(7, 0) == Checked::Stale(0)
        && sessions.check(7, 1) == Checked::Fresh
        && sessions.check(7, 2) == Checked::Skip(0)
}

// After its first request, which may be repeated, the second is next.
fn goes_on_with_two(sessions: &Sessions) -> bool {
    sessions.check(7, 1) == Checked::Repeat
        && sessions.check(7, 0) == Checked::Stale(1)
        && sessions.check(7, 2) == Checked::Fresh
        && sessions.check(7, 3) == Checked::Skip(1)
}

#[test]
fn a_request_runs_once_and_in_turn(rt: HostRuntime) {
    let mut sessions = Sessions::new(rt.alloc()).expect(&rt, "sessions");
    let begins_at_one = begins_at_one(&sessions);
    sessions.begin(7, 1);
    let goes_on = goes_on_with_two(&sessions);
    assert!(rt; begins_at_one && goes_on);
}
