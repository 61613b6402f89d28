//! States that are read off a side through one buffer.

use crate::disk::checkpoints::fills;
use crate::disk::shared_states::STORING;
use crate::disk::states::collecting;
use crate::long_states::long_node;
use crate::sites::{laid, two_sides};
use crate::steps::state_of_node;
use cc_checkpoint::{OpenFault, Piece, arm, read_state};
use cc_node::Node;
use cc_site::{MemorySite, Side};
use std::alloc::Global;
use std::process::Abort;

/// The node that is read off side A, and the place behind its state.
pub(crate) fn read(alloc: Global, site: &mut MemorySite) -> Result<(Node, u64), OpenFault> {
    let mut piece = Piece::new(alloc)?;
    let read = read_state(alloc, site, Side::A, &mut piece);
    drop(piece);
    read
}

#[test]
fn a_state_of_two_pieces_and_more_is_read_back(rt: HostRuntime) {
    let node = long_node(&rt);
    let mut site = two_sides(&rt, &[0], &[0]);
    let mut piece = Piece::new(rt.alloc()).expect(&rt, "a piece");
    assert!(rt; fills(&mut site, Side::A, 1, &node, &mut piece));
    assert!(rt; arm(&mut site, Side::A).is_ok());
    let state = state_of_node(&rt, &node);
    drop((node, piece));
    let (again, place) = read(rt.alloc(), &mut site).expect(&rt, "a node");
    drop(site);
    let is_same = state_of_node(&rt, &again).as_slice() == state.as_slice();
    drop(again);
    assert!(rt; is_same && state.len() >= 131_073 && place == 14 + state.len() as u64);
}

// Why the state of side A can't be read, where the side has just these bytes.
fn fault<R: Abort + AllocGlobal>(rt: &R, bytes: &[u8]) -> Option<OpenFault> {
    let mut site = two_sides(rt, bytes, &[]);
    let read = read(rt.alloc(), &mut site);
    drop(site);
    match read {
        Ok((node, _)) => {
            drop(node);
            None
        }
        Err(fault) => Some(fault),
    }
}

// A side that holds a node is cut off at each byte.
fn check_cuts<R: Abort + AllocGlobal>(rt: &R, side: &[u8]) {
    for len in 0..side.len() {
        // No version stands there, or no length, or that goes past the end.
        let place = if len < 10 { 9 } else { 10 };
        assert!(rt; fault(rt, &side[..len]) == Some(OpenFault::Damaged(Side::A, place)));
    }
    assert!(rt; fault(rt, side).is_none());
}

// Of a state of version 2 that keeps posts, and of one of version 32, without the gate behind it.
#[test]
fn each_cut_of_a_side_is_damaged(rt: HostRuntime) {
    let node = collecting(&rt);
    let state = state_of_node(&rt, &node);
    drop(node);
    let told = u32::try_from(state.len()).expect(&rt, "a shorter state");
    let [a, b, c, d] = told.to_be_bytes();
    let head = [0xA5, 0, 0, 0, 0, 0, 0, 0, 1, 2, a, b, c, d];
    let side = laid(&rt, &[&head, &state]);
    check_cuts(&rt, &side);
    check_cuts(&rt, &STORING[..389]);
}
