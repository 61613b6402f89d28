//! What connections may bring.

use cc_policies::{Access, Origin};

/// What may bring everything.
pub const ALL: Access = Access {
    asks: true,
    nodes: true,
    operators: true,
};

const ASKS: Access = Access {
    asks: true,
    nodes: false,
    operators: false,
};

const NO_REQUESTS: Access = Access {
    asks: true,
    nodes: true,
    operators: false,
};

// Where a connection comes from, whether the operator of another machine is heard, and what it may bring.
const ROWS: [(Origin, bool, Access); 8] = [
    (Origin::Loopback, true, ALL),
    (Origin::Loopback, false, ALL),
    (Origin::Peer, true, ALL),
    (Origin::Peer, false, NO_REQUESTS),
    (Origin::Stranger, true, ALL),
    (Origin::Stranger, false, NO_REQUESTS),
    (Origin::Client, true, ASKS),
    (Origin::Client, false, ASKS),
];

#[test]
fn a_port_for_clients_takes_asks_alone(rt: HostRuntime) {
    for &(from, remote_operators, access) in &ROWS {
        assert!(rt; Access::of(from, remote_operators) == access);
    }
}
