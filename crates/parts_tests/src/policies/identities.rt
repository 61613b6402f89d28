//! The text that tells the node of a folder from others.

use crate::formats::check_bytes;
use crate::hellos::cluster;
use cc_command_line::{Identity, IdentityFault, identity_in, identity_text};

const FAULTS: [(&str, IdentityFault); 8] = [
    ("", IdentityFault::NoCluster),
    ("cluster blue\r\nbirth 17\n", IdentityFault::NoCluster),
    ("birth 17\ncluster blue\n", IdentityFault::NoCluster),
    ("cluster blue\n", IdentityFault::NoBirth),
    ("cluster blue\nbirth 17", IdentityFault::NoBirth),
    ("cluster blue\nbirth 017\n", IdentityFault::NoBirth),
    (
        "cluster blue\nbirth 18446744073709551616\n",
        IdentityFault::NoBirth,
    ),
    ("cluster blue\nbirth 17\n\n", IdentityFault::More),
];

#[test]
fn an_identity_is_two_lines_and_the_first_bad_one_is_the_fault(rt: HostRuntime) {
    let great = Identity {
        cluster: cluster(&rt, b"A-9._z"),
        birth: u64::MAX,
    };
    let text = identity_text(rt.alloc(), &great).expect(&rt, "a text");
    check_bytes(&rt, text, b"cluster A-9._z\nbirth 18446744073709551615\n");
    let small = identity_in("cluster blue\nbirth 17\n").expect(&rt, "an identity");
    assert!(rt; small.cluster.as_bytes() == b"blue".as_slice() && small.birth == 17);
    for &(text, fault) in &FAULTS {
        assert!(rt; identity_in(text).err() == Some(fault), "{text}");
    }
}
