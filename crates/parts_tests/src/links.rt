//! Numbered links.

ghost use Rattle.std.specs.Prelude.{◌≡◌};
ghost use Rattle.std.specs.FinMap.{empty, len};
ghost use Rattle.cc_links.specs.Links.{ReachesWithin};

use crate::sets::id;
use cc_links::{LinkRow, Links};
use std::process::Abort;

// No peer has a link.
fn no_links<R: Abort + AllocGlobal>(rt: &R) -> Links
    ensures empty { result ≡ empty }
    ensures len { len result ≡ 0 }
{
    Links::new(rt.alloc()).expect(rt, "links")
}

fn row(peer: u32, acked: u64) -> LinkRow
    ensures start { result.start ≡ 0 }
    ensures acked { result.acked ≡ acked }
{
    LinkRow {
        peer: id(peer),
        start: 0,
        acked,
        heard: 0,
    }
}

// Three posts: peer 1 has acknowledged two of them, peer 2 one.
#[tactic(auto, using(cc_links::specs::LinkLaws::reaches_empty, cc_links::specs::LinkLaws::reaches_insert, cc_views::specs::MapLaws::len_insert))]
fn two_links<R: Abort + AllocGlobal>(rt: &R) -> Links
    ensures { ReachesWithin 3 result }
{
    let mut links = no_links(rt);
    links.insert(row(1, 2));
    links.insert(row(2, 1));
    links
}

#[test]
fn only_live_links_hold_posts_back(rt: HostRuntime) {
    let links = two_links(&rt);
    let needed = [
        links.lowest_needed(&[], 3),
        links.lowest_needed(&[id(2)], 3),
    ];
    assert!(rt; needed == [1, 2]);
}

fn are_numbered(links: &Links) -> bool {
    links.wire_number(id(1), 3) == Some(3)
        && links.wire_number(id(4), 3) == Some(1)
        && links.wire_number(id(4), 2).is_none()
        && links.wire_number(id(5), 3).is_none()
}

// The link to peer 1 begins with the first post, that to peer 4 after two.
#[test]
#[tactic(auto, using(cc_links::specs::LinkLaws::len_add))]
fn numbers_begin_at_one_on_each_link(rt: HostRuntime) {
    let mut links = no_links(&rt);
    links.add(id(1), 0);
    links.add(id(4), 2);
    assert!(rt; are_numbered(&links));
}
