//! The steps of a checkpoint.

use crate::sites::{MEMBER, has, node_of, two_sides};
use crate::versions::MEMBER_STATE;
use cc_checkpoint::{Piece, arm, fill, retire};
use cc_node::Node;
use cc_site::{Failing, MemorySite, Side, Site};

/// Fills a side that has a byte. Whether that was done.
pub(crate) fn fills<S: Site>(
    site: &mut S,
    side: Side,
    generation: u64,
    node: &Node,
    piece: &mut Piece,
) -> bool {
    let Ok(length) = site.length(side) else {
        return false;
    };
    length > 0 && generation > 0 && fill(site, side, generation, node, piece).is_ok()
}

// The node on side A under generation 1, then on side B under generation 2, and side A as one closed byte. Whether all that
// was done.
fn moves_over(site: &mut MemorySite, node: &Node, piece: &mut Piece) -> bool {
    fills(site, Side::A, 1, node, piece)
        && arm(site, Side::A).is_ok()
        && fills(site, Side::B, 2, node, piece)
        && arm(site, Side::B).is_ok()
        && retire(site, Side::A).is_ok()
}

// What stands before the state of 119 bytes: an open gate, generation 2, version 2, and that length.
const HEAD: [u8; 14] = [0xA5, 0, 0, 0, 0, 0, 0, 0, 2, 2, 0, 0, 0, 0x77];

// The calls 0 to 3 made the sides. To fill a side takes 7, to arm it 2, and to retire one 4: each of them has to be done. A
// whole checkpoint leaves one closed byte of side A, and the head, the state and a closed gate on side B.
#[test]
fn a_checkpoint_moves_to_the_other_side_where_no_call_fails(rt: HostRuntime) {
    let member = node_of(&rt, &MEMBER);
    let mut piece = Piece::new(rt.alloc()).expect(&rt, "a piece");
    for call in 4..27 {
        let mut site = two_sides(&rt, &[0], &[0]);
        site.fuse(call, Failing::Stop);
        let is_moved = moves_over(&mut site, &member, &mut piece);
        drop(site);
        assert!(rt; is_moved == (call == 26), "{call}");
    }
    let mut site = two_sides(&rt, &[0], &[0]);
    assert!(rt; moves_over(&mut site, &member, &mut piece));
    drop((member, piece));
    let mut wanted = [0; 134];
    wanted[..14].copy_from_slice(&HEAD);
    wanted[14..133].copy_from_slice(&MEMBER_STATE);
    assert!(rt; has(&rt, &mut site, Side::A, &[0]));
    assert!(rt; has(&rt, &mut site, Side::B, &wanted));
    drop(site);
}
