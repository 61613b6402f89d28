//! Which side is in use.

use crate::sites::two_sides;
use cc_checkpoint::{InUse, OpenFault, Peeked, choose, peek};
use cc_site::Side;

// A side that isn't armed, one that is and has no generation, and armed ones under 0, 3 and 4.
const CLOSED: &[u8] = &[0, 0xA5, 0xFF];

const SHORT: &[u8] = &[0xA5, 0, 0, 0, 0, 0, 0, 3];

const UNDER_0: &[u8] = &[0xA5, 0, 0, 0, 0, 0, 0, 0, 0];

const UNDER_3: &[u8] = &[0xA5, 0, 0, 0, 0, 0, 0, 0, 3];

const UNDER_4: &[u8] = &[0xA5, 0, 0, 0, 0, 0, 0, 0, 4, 2];

#[test]
fn an_armed_side_tells_its_generation(rt: HostRuntime) {
    for &(side, wanted) in &[
        ([].as_slice(), Peeked::Closed),
        (CLOSED, Peeked::Closed),
        (SHORT, Peeked::Short),
        (UNDER_0, Peeked::Armed(0)),
        (UNDER_3, Peeked::Armed(3)),
        (UNDER_4, Peeked::Armed(4)),
    ] {
        let mut site = two_sides(&rt, side, CLOSED);
        let told = peek(&mut site, Side::A);
        drop(site);
        assert!(rt; told == Ok(wanted));
    }
}

// That side, under that generation.
fn in_use(side: Side, generation: u64) -> Result<InUse, OpenFault> {
    Ok(InUse { side, generation })
}

#[test]
fn the_greater_generation_is_in_use(rt: HostRuntime) {
    for &(a, b, wanted) in &[
        (UNDER_3, CLOSED, in_use(Side::A, 3)),
        (CLOSED, UNDER_3, in_use(Side::B, 3)),
        (UNDER_4, UNDER_3, in_use(Side::A, 4)),
        (UNDER_3, UNDER_4, in_use(Side::B, 4)),
        ([].as_slice(), CLOSED, Err(OpenFault::NotFormatted)),
        // A generation that isn't there, or is 0, on side A and then on side B, and one generation on both.
        (SHORT, UNDER_0, Err(OpenFault::Damaged(Side::A, 1))),
        (UNDER_0, UNDER_4, Err(OpenFault::Damaged(Side::A, 1))),
        (UNDER_4, SHORT, Err(OpenFault::Damaged(Side::B, 1))),
        (UNDER_4, UNDER_4, Err(OpenFault::Damaged(Side::B, 1))),
    ] {
        let mut site = two_sides(&rt, a, b);
        let chosen = choose(&mut site);
        drop(site);
        assert!(rt; chosen == wanted);
    }
}
