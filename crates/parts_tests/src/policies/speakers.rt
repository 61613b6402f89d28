//! Which connection speaks for a node.

use crate::sets::id;
use cc_policies::{Speakers, Spoken};
use cc_views::NodeId;
use std::process::Abort;

// Node 2 is heard over connections 5 and 7, and over 5 again; node 3 over 7, so node 2 over none; then 7 is closed.
fn check_spoken<R: Abort>(rt: &R, speakers: &mut Speakers, two: NodeId, three: NodeId) {
    let first = [
        speakers.speak(two, 5),
        speakers.speak(two, 5),
        speakers.speak(two, 7),
        speakers.speak(two, 5),
    ];
    let second = [speakers.speak(three, 7), speakers.speak(two, 5)];
    let spoken_for = [speakers.has_speaker(two), speakers.has_speaker(three)];
    speakers.leave(7);
    assert!(rt; (spoken_for, speakers.has_speaker(three)) == ([true, true], false));
    let third = [speakers.speak(three, 6), speakers.speak(two, 6)];
    assert!(rt;
        first
            == [
                Spoken::Alone,
                Spoken::Alone,
                Spoken::Instead(5),
                Spoken::Replaced
            ]
    );
    assert!(rt; second == [Spoken::Alone; 2]);
    assert!(rt; third == [Spoken::Alone, Spoken::Instead(5)]);
}

#[test]
fn the_newest_connection_speaks_for_a_node(rt: HostRuntime) {
    let mut speakers = Speakers::new(rt.alloc()).expect(&rt, "speakers");
    check_spoken(&rt, &mut speakers, id(2), id(3));
}
