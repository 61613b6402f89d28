//! Connections, and where answers go.

use crate::policies::access::ALL;
use cc_policies::{Admitted, Origin, Routes};
use std::process::Abort;

// Where the answers to requests 1 of the sessions 7, 8 and 9 go.
fn connections(routes: &Routes) -> [Option<u64>; 3] {
    [
        routes.connection_of(7, 1),
        routes.connection_of(8, 1),
        routes.connection_of(9, 1),
    ]
}

// A connection that may bring everything.
fn whole(ticket: u64) -> Option<Admitted> {
    Some(Admitted {
        ticket,
        access: ALL,
    })
}

// Connections 1 and 2 enter, and session 7 asks over the first and then over the second.
fn check_asks<R: Abort>(rt: &R, routes: &mut Routes) {
    let entered = [
        routes.enter(Origin::Stranger, ALL),
        routes.enter(Origin::Peer, ALL),
    ];
    let places = [
        routes.route(7, 1, 1),
        routes.route(8, 1, 1),
        routes.route(9, 1, 2),
    ];
    let first = connections(routes);
    let place = routes.route(7, 1, 2);
    assert!(rt;
        (entered, places, place) == ([whole(1), whole(2)], [Some(1), Some(2), Some(3)], Some(4))
    );
    assert!(rt;
        [first, connections(routes)] == [[Some(1), Some(1), Some(2)], [Some(2), Some(1), Some(2)]]
    );
}

// The second leaves, and nothing is routed to it or to one that never entered: what session 7 asked over the first is
// answered there.
fn check_leaves<R: Abort>(rt: &R, routes: &mut Routes) {
    routes.leave(2);
    let left = connections(routes);
    let places = [routes.route(7, 1, 2), routes.route(7, 1, 3)];
    assert!(rt; (left, places) == ([Some(1), Some(1), None], [None; 2]));
    assert!(rt; routes.enter(Origin::Stranger, ALL) == whole(3));
}

#[test]
fn answers_go_to_who_asked_last(rt: HostRuntime) {
    let mut routes = Routes::new(rt.alloc()).expect(&rt, "routes");
    check_asks(&rt, &mut routes);
    check_leaves(&rt, &mut routes);
    drop(routes);
}

// Where the answers to requests 5, 6 and 9 of session 7 go.
fn sevens(routes: &Routes) -> [Option<u64>; 3] {
    [
        routes.connection_of(7, 5),
        routes.connection_of(7, 6),
        routes.connection_of(7, 9),
    ]
}

// Number 5 is taken over the first connection. While number 9 is judged, which came over the second, the answer to 5 goes to
// the first. It is refused: all goes there again. Then number 6 is taken over the second.
#[test]
fn a_refused_ask_leaves_the_routes_as_they_were(rt: HostRuntime) {
    let mut routes = Routes::new(rt.alloc()).expect(&rt, "routes");
    let entered = [
        routes.enter(Origin::Loopback, ALL),
        routes.enter(Origin::Loopback, ALL),
    ];
    let first = routes.route(7, 5, 1);
    routes.take(7, 1);
    let second = routes.route(7, 9, 2);
    let judged = sevens(&routes);
    routes.take_back(2);
    let refused = sevens(&routes);
    let third = routes.route(7, 6, 2);
    routes.take(7, 3);
    let taken = sevens(&routes);
    drop(routes);
    assert!(rt; entered == [whole(1), whole(2)]);
    assert!(rt; [first, second, third] == [Some(1), Some(2), Some(3)]);
    assert!(rt;
        [judged, refused, taken] == [[Some(1), Some(2), Some(2)], [Some(1); 3], [Some(2); 3]]
    );
}
