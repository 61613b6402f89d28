//! Two of three members go on without the third, which is started late or never.

use crate::ask::{DONE, check_asked, is_asked, is_retired, order, retirement};
use crate::nodes::{
    Place, TwoMembers, format, free_place, peer, run, two_members, while_one_runs, while_two_run,
};
use cc_connections::{Address, Stop};
use cc_intake::NoHooks;
use std::alloc::Global;
use std::net::{Net, TcpListener, TcpStream};
use std::process::Abort;
use std::sync::Wait;
use std::test::*;
use std::thread;
use std::thread::Threads;
use std::time::{Clock, Duration, Instant};

// So many stores, of which some 64 fill what may be kept for the third member.
const STORES: u64 = 300;

// They are answered in so many seconds, also where the machine is busy. If nothing lapsed they would take minutes.
const MOST_SECONDS: u64 = 40;

fn store_all<R: Abort + AllocGlobal + Net<Stream = TcpStream> + Clock>(rt: &R, one: Address) {
    let start = Instant::now(rt).expect(rt, "a clock");
    for _ in 0..STORES {
        check_asked(rt, one, &["store", "a"], "Stored\n");
    }
    let elapsed = start.elapsed(rt).expect(rt, "a clock");
    let is_soon = elapsed < Duration::from_secs(MOST_SECONDS);
    assert!(rt; is_soon, "what is kept for an absent member lapses");
}

// What was stored without it is in what the third member collects.
#[test]
fn two_members_go_on_and_the_third_comes_late(rt: HostRuntime) {
    format(&rt, "absent-1", "1", "1,2,3", Some("2/3"), None);
    format(&rt, "absent-2", "2", "1,2,3", Some("2/3"), None);
    format(&rt, "absent-3", "3", "1,2,3", Some("2/3"), None);
    let Place {
        listener: first,
        address: one,
    } = free_place(&rt);
    let Place {
        listener: second,
        address: two,
    } = free_place(&rt);
    let Place {
        listener: third,
        address: three,
    } = free_place(&rt);
    let (at_1, at_2, at_3) = (Address::from(one), Address::from(two), Address::from(three));
    let of_1 = [peer(&rt, 2, at_2), peer(&rt, 3, at_3)];
    let of_2 = [peer(&rt, 1, at_1), peer(&rt, 3, at_3)];
    let of_3 = [peer(&rt, 1, at_1), peer(&rt, 2, at_2)];
    let (stop, late) = (Stop::new(), Stop::new());
    let alloc = rt.alloc();
    while_two_run(
        &rt,
        &stop,
        [one, two],
        || run(&rt, alloc, "absent-1", first, &of_1, &stop, &NoHooks),
        || run(&rt, alloc, "absent-2", second, &of_2, &stop, &NoHooks),
        || {
            store_all(&rt, at_1);
            while_one_runs(
                &rt,
                &late,
                three,
                || run(&rt, alloc, "absent-3", third, &of_3, &late, &NoHooks),
                || check_asked(&rt, at_3, &["collect"], "Seen [1:300=a/0/0/]\n"),
            );
        },
    );
}

// After a second node 1 is told that node 3 is dead. The store needs all three members as it begins.
fn store_and_retire_late<R>(rt: &R, alloc: Global, one: Address)
where
    R: Abort
        + AllocGlobal
        + Net<Listener = TcpListener, Stream = TcpStream>
        + Threads
        + Wait
        + Clock
        + Sync,
{
    let store = order(rt, one, &["store", "a"], 20);
    let retire = retirement(rt, one, 3, false);
    let (is_stored, is_done) = thread::join(
        rt,
        || is_asked(rt, alloc, &store, DONE, "Stored\n"),
        || {
            thread::sleep(rt, Duration::from_secs(1));
            is_retired(rt, alloc, &retire, DONE, "retired 3\n")
        },
    );
    drop(retire);
    assert!(rt; is_stored, "Stored");
    assert!(rt; is_done, "retired 3");
}

#[test]
fn a_store_begins_anew_once_the_dead_member_is_retired(rt: HostRuntime) {
    let TwoMembers {
        first,
        second,
        one,
        two,
        of_1,
        of_2,
    } = two_members(&rt, "retired-1", "retired-2", "1,2,3");
    let stop = Stop::new();
    let alloc = rt.alloc();
    while_two_run(
        &rt,
        &stop,
        [one, two],
        || run(&rt, alloc, "retired-1", first, &of_1, &stop, &NoHooks),
        || run(&rt, alloc, "retired-2", second, &of_2, &stop, &NoHooks),
        || store_and_retire_late(&rt, alloc, Address::from(one)),
    );
}
