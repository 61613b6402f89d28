//! Zeros ahead: a file grows by strides.

use crate::disk::files::{made, remove, site};
use crate::disk::records::{comes_to, takes};
use crate::sites::{ENTRANT, node_of};
use cc_journal::Journal;
use cc_messages::Event;
use cc_site::{FileSite, NoOutlet, Side, Site};
use std::process::Abort;

// Takes an Enter and a Leave behind a closed gate. The first record makes the file longer, and the second is written over its
// zeros.
fn grow<R: Abort + AllocGlobal>(rt: &R, site: &mut FileSite<NoOutlet>) {
    site.write_at(Side::A, 0, &[0]).expect(rt, "a gate");
    let mut journal = Journal::new(rt.alloc(), Side::A, 0).expect(rt, "a journal");
    let mut node = node_of(rt, &ENTRANT);
    assert!(rt; takes(rt, &mut journal, site, &mut node, Event::Enter));
    assert!(rt; site.length(Side::A) == Ok(262_144));
    assert!(rt; takes(rt, &mut journal, site, &mut node, Event::Leave));
    assert!(rt; site.length(Side::A) == Ok(262_144));
    drop(node);
}

// A folder that is opened again has both records up to the closed gate at 22, also where it is cut within the zeros, or in
// front of them.
#[test]
fn a_file_grows_by_strides(rt: HostRuntime) {
    const FOLDER: &str = "strides_test";
    let both = Ok((Side::A, (22, 2, 2), 2));
    made(&rt, FOLDER);
    let mut first = site(&rt, FOLDER);
    grow(&rt, &mut first);
    drop(first);
    let mut second = site(&rt, FOLDER);
    assert!(rt; comes_to(&rt, &mut second, both));
    for &len in &[1_000, 23] {
        second.cut(Side::A, len).expect(&rt, "a cut");
        assert!(rt; comes_to(&rt, &mut second, both));
    }
    drop(second);
    remove(&rt, FOLDER);
}
