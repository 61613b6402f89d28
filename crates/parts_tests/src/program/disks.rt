//! What the disks of a cluster hold.

use cc_site::{Choice, Side, Site};
use cc_subcommands::{Cluster, Played, parse};
use std::process::Abort;

// Lines, what they print, and whether they change what the sides of node 2 hold. Node 2 has a store of node 1, and is then
// given what overtook another message, and what it has already.
const STEPS: [(&str, &str, bool); 6] = [
    ("member 1 of 1,2\nmember 2 of 1,2", "", true),
    (
        "ask 1 7 1 store a\ncarry 1 1 1",
        "1 accepted
1 send 1 1 Store [1:1=a/0/0/] 1 1
1 send 2 1 Store [1:1=a/0/0/] 1 1
1 accepted
1 ack 1 1
1 send 1 2 StoreAck 1 1
1 send 2 2 StoreAck 1 1
",
        false,
    ),
    (
        "carry 1 2 1",
        "2 accepted
2 ack 1 1
2 send 1 1 StoreAck 1 1
2 send 2 1 StoreAck 1 1
",
        true,
    ),
    (
        "carry 2 1 1\ncarry 1 1 2\nask 1 7 2 store b",
        "1 accepted
1 ack 2 1
1 accepted
1 ack 1 2
1 reply 7 1 Stored
1 accepted
1 send 1 3 Store [1:2=b/0/0/] 2 1
1 send 2 3 Store [1:2=b/0/0/] 2 1
",
        false,
    ),
    ("carry 1 2 3", "2 refused 6 Gap 1\n", false),
    ("carry 1 2 1", "2 refused 5 Old 1\n", false),
];

// Plays lines on a cluster, each of which has to be good, and adds what they print.
fn say_all<R: Abort + AllocGlobal>(
    rt: &R,
    cluster: &mut Cluster,
    lines: &str,
    output: &mut Vec<u8>,
) {
    for line in lines.lines() {
        let parsed = parse(rt.alloc(), line.as_bytes()).expect(rt, "room");
        let line = parsed.expect(rt, "a line of a known form");
        let played = cluster
            .play(rt.alloc(), line, output)
            .expect(rt, "the output is written");
        assert!(rt; played == Played::Good, "a line can't be played");
    }
}

// What both sides of node 2 hold: nothing before it is made.
fn sides<R: Abort + AllocGlobal>(rt: &R, cluster: &Cluster) -> Vec<Vec<u8>> {
    let Some(station) = cluster.station(2) else {
        return Vec::new(rt.alloc());
    };
    let site = station.site();
    let mut image = site.image(rt.alloc(), &Choice::Read).expect(rt, "an image");
    let a = held(rt, &mut image, Side::A);
    let b = held(rt, &mut image, Side::B);
    drop(image);
    vec![in rt.alloc(); a, b].expect(rt, "room")
}

fn held<R: Abort + AllocGlobal, S: Site>(rt: &R, site: &mut S, side: Side) -> Vec<u8> {
    let length = site.length(side).expect(rt, "a length");
    let mut bytes = vec![in rt.alloc(); 0u8; length as usize].expect(rt, "room");
    site.read(side, 0, &mut bytes).expect(rt, "a read");
    bytes
}

#[test]
fn refused_events_are_not_journalled(rt: HostRuntime) {
    let mut cluster = Cluster::new(rt.alloc());
    for &(lines, wanted, is_journalled) in &STEPS {
        let before = sides(&rt, &cluster);
        let mut output = Vec::new(rt.alloc());
        say_all(&rt, &mut cluster, lines, &mut output);
        assert!(rt; output.as_slice() == wanted.as_bytes(), "{lines}");
        let now = sides(&rt, &cluster);
        let is_changed = now.as_slice() != before.as_slice();
        assert!(rt; is_changed == is_journalled, "{lines}");
    }
    drop(cluster);
}
