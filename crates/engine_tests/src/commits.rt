//! What a store puts, and what is put again behind it.

ghost use Rattle.cc_flush.specs.Lives.{AreTurnsLawful};

use crate::parts::{Part, batch_of, id};
use crate::puts::{Kind, Put, are_put};
use crate::sites::{MEMBER, begun};
use crate::steps::engine;
use cc_flush::Action;
use cc_node::Node;
use cc_site::Side;
use std::process::Abort;
use std::test::*;

// A store by one batch, its posts, its answer and what was heard once more, and a checkpoint.
fn actions_of_store<R: Abort + AllocGlobal>(rt: &R, node: &Node) -> Vec<Action>
    ensures { AreTurnsLawful node.now result.items }
{
    let batch = batch_of(rt, node, Part::Store);
    let actions = vec![in rt.alloc();
        Action::Turn(batch),
        Action::Resend,
        Action::Again(7),
        Action::Reack(id(1)),
        Action::Checkpoint,
    ];
    actions.expect(rt, "room")
}

// All that this puts: the store, and then what is put again.
const PUTS: [Put; 9] = [
    Put::Send(1, 1, Kind::Store),
    Put::Ack(1, 1),
    Put::Send(1, 2, Kind::StoreAck),
    Put::Ack(1, 2),
    Put::Reply(7, 1, true),
    Put::Send(1, 1, Kind::Store),
    Put::Send(1, 2, Kind::StoreAck),
    Put::Reply(7, 1, true),
    Put::Ack(1, 2),
];

// Behind the checkpoint side B is in use.
#[test]
fn a_store_is_sent_first_and_replied_to_last(rt: HostRuntime) {
    let mut flusher = engine(&rt, begun(&rt, 16, &MEMBER));
    if flusher.owes() {
        panic!(rt; "outputs are owed");
    }
    let actions = actions_of_store(&rt, flusher.twin());
    let lived = flusher.run_life(actions);
    let are_put = are_put(flusher.site().outputs(), &PUTS);
    let side = flusher.side();
    drop(flusher.close());
    assert!(rt; (lived, are_put, side) == (Ok(()), true, Side::B));
}
