//! What a node shows of itself: whether it is ready, and its rows as JSON.

use crate::openings::{fresh, opening};
use crate::sets::id;
use crate::views::{no_rows, row};
use cc_changes::Fraction;
use cc_connections::Counted;
use cc_node::Opening;
use cc_site::Side;
use cc_status::{DiskShown, Live, PeerNote, Shown, rows_of, status_of};
use cc_views::{Row, Text, View};
use std::process::Abort;

// How a peer is.
const HEARD: (bool, bool) = (false, false);

const SILENT: (bool, bool) = (true, false);

const ABSENT: (bool, bool) = (false, true);

const BOTH: (bool, bool) = (true, true);

// A node with its peers, and what it shows: why it isn't ready, and how many members are away.
type Case = (&'static [(u32, (bool, bool))], &'static str, u64);

const SILENT_REASON: &str = "2 of 3 members are silent, and 2 have to answer";

const AWAY_REASON: &str = "2 of 3 members are silent or absent, and 2 have to answer";

// Of members 1, 2 and 3, two of whom have to answer. Node 1 looks, and node 4 is no member.
const CASES: [Case; 10] = [
    (&[(1, HEARD), (2, HEARD), (3, HEARD)], "", 0),
    (&[(1, SILENT), (2, HEARD), (3, HEARD)], "", 0),
    (&[(1, ABSENT), (2, HEARD), (3, HEARD)], "", 0),
    (&[(2, HEARD), (3, SILENT), (4, SILENT)], "", 1),
    (&[(2, ABSENT), (3, HEARD), (4, ABSENT)], "", 1),
    (&[(2, SILENT), (3, SILENT), (4, HEARD)], SILENT_REASON, 2),
    (&[(2, BOTH), (3, SILENT), (4, ABSENT)], SILENT_REASON, 2),
    (&[(2, SILENT), (3, ABSENT)], AWAY_REASON, 2),
    (&[(2, ABSENT), (3, ABSENT)], AWAY_REASON, 2),
    (&[(1, HEARD)], SILENT_REASON, 2),
];

fn note((peer, (is_silent, is_absent)): (u32, (bool, bool))) -> PeerNote {
    PeerNote {
        peer: id(peer),
        address: None,
        connected_since: None,
        absent_since: if is_absent { Some(1) } else { None },
        last_heard: None,
        is_silent,
        trouble: Text::empty(),
    }
}

fn check_case<R: Abort + AllocGlobal>(rt: &R, shown: &Shown, case: &Case) {
    let &(peers, reason, away) = case;
    let notes: Vec<PeerNote> = peers
        .iter()
        .map(|peer| note(*peer))
        .collect(rt.alloc())
        .expect(rt, "notes");
    let counted = Counted::default();
    let live = Live {
        version: "0",
        started: 1,
        now: 2,
        round_since: 0,
        disk: DiskShown {
            side: Side::A,
            generation: 1,
            bytes: 0,
            records: 0,
            events: 0,
        },
        peers: &notes,
        counted: &counted,
    };
    let status = status_of(rt.alloc(), shown, &live).expect(rt, "a status");
    let is_told = status.reason.as_str() == reason
        && status.is_ready == reason.is_empty()
        && status.quorum.away == away;
    drop((status, notes));
    assert!(rt; is_told, "{reason}");
}

#[test]
fn a_node_is_ready_where_enough_members_are_heard(rt: HostRuntime) {
    let begun = Opening {
        beta: Fraction { num: 2, den: 3 },
        ..opening(1, &[1, 2, 3], &[])
    };
    let node = fresh(&rt, &begun);
    let shown = Shown::of(rt.alloc(), &node).expect(&rt, "what is shown");
    for case in &CASES {
        check_case(&rt, &shown, case);
    }
    drop((node, shown));
}

// The greatest number, one above 2^53, and a text that another one looks like where its bytes are spelled out.
const ROWS: &str = concat!(
    r#"[{"node":1,"number":"18446744073709551615","text":"%ff%fe","max":"9007199254740993","flag":false,"set":[]},"#,
    r#"{"node":2,"number":"1","text_base64":"//4=","max":"0","flag":false,"set":[]}]"#
);

#[tactic(auto, using(cc_views::specs::MergeLaws::merge_row_is_no_larger))]
fn view_of<R: Abort + AllocGlobal>(rt: &R, first: Row, second: Row) -> View {
    let mut view = no_rows(rt);
    view.merge_row(first);
    view.merge_row(second);
    view
}

#[test]
fn rows_are_json_without_loss(rt: HostRuntime) {
    let mut greatest = row(1, b"%ff%fe");
    greatest.number = u64::MAX;
    greatest.value.max = 9_007_199_254_740_993;
    let view = view_of(&rt, greatest, row(2, b"\xff\xfe"));
    let shown = rows_of(rt.alloc(), &view).expect(&rt, "rows");
    let text = serde_json::to_string(rt.alloc(), &shown).expect(&rt, "a text");
    assert!(rt; text.as_str() == ROWS, "{text}");
    drop((view, shown, text));
}
