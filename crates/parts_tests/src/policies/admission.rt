//! What is handed over while a node keeps many posts.

use crate::sets::id;
use cc_messages::{Command, Event, Message};
use cc_policies::may_hand_over;

// How many posts node 1 keeps, whether the sender is furthest behind, how long the event has waited, and whether it may
// be handed over then.
type Case = (u64, bool, u64, bool);

const ASKS: [Case; 4] = [
    (128, false, 0, true),
    (129, false, 0, false),
    (512, true, 9, false),
    (512, false, 10, true),
];

// A message leaves room for 256 posts.
const MESSAGES: [Case; 3] = [
    (256, false, 0, true),
    (257, false, 60, false),
    (512, true, 0, true),
];

#[test]
fn an_ask_leaves_room_for_384_posts(rt: HostRuntime) {
    let ask = Event::Ask {
        session: 7,
        request: 1,
        command: Command::SetFlag,
    };
    let node = id(2);
    let message = Event::Deliver {
        from: node,
        number: 1,
        message: Message::Join { node },
    };
    for &(kept, is_furthest, waited, may) in &ASKS {
        assert!(rt;
            may_hand_over(id(1), &ask, kept, is_furthest, waited) == may,
            "{kept}"
        );
    }
    for &(kept, is_furthest, waited, may) in &MESSAGES {
        assert!(rt;
            may_hand_over(id(1), &message, kept, is_furthest, waited) == may,
            "{kept}"
        );
    }
    drop((ask, message));
}
