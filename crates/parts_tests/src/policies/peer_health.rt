//! How peers stand, second by second.

use cc_policies::PeerHealth;

// What a live peer has acknowledged of what was sent to it by the end of a second, and how it stands then.
const SILENT: [(u64, u64, PeerHealth); 5] = [
    (4, 4, PeerHealth::Current),
    (4, 9, PeerHealth::Owing { due: 9, seconds: 0 }),
    (8, 12, PeerHealth::Owing { due: 9, seconds: 1 }),
    (8, 12, PeerHealth::Absent),
    (12, 12, PeerHealth::Absent),
];

// The same of one that acknowledges what was sent a second or two before: what it owes then, and for how many seconds.
const BUSY: [(u64, u64, u64, u64); 4] = [
    (0, 100, 100, 0),
    (100, 200, 200, 0),
    (199, 300, 200, 1),
    (200, 400, 400, 0),
];

#[test]
fn two_seconds_make_a_silent_peer_absent(rt: HostRuntime) {
    let mut silent = PeerHealth::Current;
    for &(acked, sent, wanted) in &SILENT {
        silent = silent.after_second(acked, sent, true);
        assert!(rt; silent == wanted, "with {acked} of {sent}");
    }
    let mut busy = PeerHealth::Current;
    for &(acked, sent, due, seconds) in &BUSY {
        busy = busy.after_second(acked, sent, true);
        assert!(rt;
            busy == PeerHealth::Owing { due, seconds },
            "with {acked} of {sent}"
        );
    }
}

// How many posts were made, none of which is acknowledged; how many there were as a lapse was handed in last; whether a second has
// passed since; and whether one may be handed in.
const LAPSES: [(u64, u64, bool, bool); 4] = [
    (64, 0, true, false),
    (65, 0, false, true),
    (70, 65, false, false),
    (70, 65, true, true),
];

#[test]
fn more_than_64_posts_of_an_absent_peer_lapse_once_a_second(rt: HostRuntime) {
    for &(posts, asked_at, is_tick, may) in &LAPSES {
        assert!(rt;
            PeerHealth::Absent.may_lapse(0, posts, asked_at, is_tick) == may,
            "{posts}"
        );
    }
    let late = PeerHealth::Owing { due: 9, seconds: 1 };
    assert!(rt; !late.may_lapse(0, 500, 0, true) && late.is_late());
}
