//! How many answers a share of the members is.

use cc_changes::{Fraction, need};

// How many nodes there are, and four fifths of them.
const NEEDS: [(u64, u64); 6] = [(0, 1), (1, 1), (2, 2), (3, 3), (4, 4), (10, 8)];

#[test]
fn a_need_is_rounded_up_and_at_least_one(rt: HostRuntime) {
    for &(count, needed) in &NEEDS {
        let share = Fraction { num: 4, den: 5 };
        assert!(rt; need(share, count) == needed);
    }
}
