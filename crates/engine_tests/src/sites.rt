//! Sites as they begin, and what stands on them.

use cc_changes::Fraction;
use cc_flush::{Back, format};
use cc_node::{Node, Opening};
use cc_site::{MemorySite, Side, Site, write_durably};
use std::process::Abort;

const MOST: Fraction = Fraction { num: 4, den: 5 };

/// How entrant 4 with contact 1 begins.
pub const ENTRANT: Opening<'static> = Opening {
    me: 4,
    initial: &[],
    contacts: &[1],
    beta: MOST,
    gamma: MOST,
    share: 1,
};

/// How member 1 of 1 begins.
pub const MEMBER: Opening<'static> = Opening {
    me: 1,
    initial: &[1],
    contacts: &[],
    beta: MOST,
    gamma: MOST,
    share: 1,
};

/// The node that begins so.
pub fn node_of<R: Abort + AllocGlobal>(rt: &R, opening: &Opening<'_>) -> Node {
    Node::fresh(rt.alloc(), opening).expect(rt, "a node")
}

/// Two empty sides, and room for so many outputs.
pub fn empty<R: Abort + AllocGlobal>(rt: &R, room: usize) -> MemorySite {
    MemorySite::new(rt.alloc(), room).expect(rt, "a site")
}

/// A site of a node that begins so and has never been opened, with room for so many outputs.
pub fn begun<R: Abort + AllocGlobal>(rt: &R, room: usize, opening: &Opening<'_>) -> MemorySite {
    match format(rt.alloc(), empty(rt, room), opening) {
        Ok(site) => site,
        Err(Back { site, fault }) => {
            drop(site);
            panic!(rt; "the site isn't formatted: {fault}")
        }
    }
}

/// What stands on a side, in three parts.
pub type Laid = [&'static [u8]; 3];

/// One closed byte.
pub const CLOSED: Laid = [&[0], &[], &[]];

/// The bytes of parts, in turn.
pub fn laid<R: Abort + AllocGlobal>(rt: &R, parts: &[&[u8]]) -> Vec<u8> {
    let mut side = Vec::new(rt.alloc());
    for part in parts {
        side.extend_from_slice(part).expect(rt, "room");
    }
    side
}

/// A site whose sides have these bytes, which are sure. Four disk calls made it.
pub fn two_sides<R: Abort + AllocGlobal>(rt: &R, a: &[u8], b: &[u8]) -> MemorySite {
    let mut site = empty(rt, 8);
    write_durably(&mut site, Side::A, 0, a).expect(rt, "side A is written");
    write_durably(&mut site, Side::B, 0, b).expect(rt, "side B is written");
    site
}

/// A site on whose sides these parts stand.
pub fn with_laid<R: Abort + AllocGlobal>(rt: &R, a: &[&[u8]], b: &[&[u8]]) -> MemorySite {
    let a = laid(rt, a);
    let b = laid(rt, b);
    two_sides(rt, &a, &b)
}

/// What stands on a side of a site.
pub fn side_of<R: Abort + AllocGlobal, S: Site>(rt: &R, site: &mut S, side: Side) -> Vec<u8> {
    let length = site.length(side).expect(rt, "a length");
    let mut bytes = vec![in rt.alloc(); 0; length as usize].expect(rt, "room");
    site.read(side, 0, &mut bytes).expect(rt, "its bytes");
    bytes
}

/// Whether a side has just these bytes.
pub fn has<R: Abort + AllocGlobal, S: Site>(
    rt: &R,
    site: &mut S,
    side: Side,
    wanted: &[u8],
) -> bool {
    side_of(rt, site, side).as_slice() == wanted
}
