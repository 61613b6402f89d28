//! What a call leaves that is refused memory, and what a fault says. `make refused-growths` counts what is told here.

use cc_checkpoint::OpenFault;
use cc_flush::{CheckpointFault, Failed, FormatFault};
use cc_node_state::StateFault;
use cc_site::{Call, DeviceFault, Side, SiteFault};
use cc_wire::WireFault;
use std::fmt::{Debug, Display};
use std::process::Abort;
use std::test::*;

/// A call's value. Where it failed, what it was to leave as it was is looked at.
pub(crate) fn unless_failed<R: Abort, T, E: Debug>(
    rt: &R,
    answer: Result<T, E>,
    is_as_before: bool,
) -> T {
    let told = if is_as_before {
        "failed, and all is as it was"
    } else {
        "failed, and something has changed"
    };
    answer.expect(rt, told)
}

// Whether that is what a fault says.
fn says<R: Abort + AllocGlobal, F: Display>(rt: &R, fault: &F, wanted: &str) -> bool {
    let said = format!(in rt.alloc(); "{fault}").expect(rt, "a text");
    said.as_str() == wanted
}

const NAMES: [(Side, Call, &str); 10] = [
    (Side::A, Call::Length, "A Length"),
    (Side::A, Call::Read, "A Read"),
    (Side::A, Call::Write, "A Write"),
    (Side::A, Call::Cut, "A Cut"),
    (Side::A, Call::Sync, "A Sync"),
    (Side::B, Call::Length, "B Length"),
    (Side::B, Call::Read, "B Read"),
    (Side::B, Call::Write, "B Write"),
    (Side::B, Call::Cut, "B Cut"),
    (Side::B, Call::Sync, "B Sync"),
];

const READ: DeviceFault = DeviceFault {
    side: Side::A,
    call: Call::Read,
};

const OPEN_FAULTS: [(OpenFault, &str); 6] = [
    (OpenFault::NotFormatted, "NotFormatted"),
    (OpenFault::Damaged(Side::A, 153), "Damaged A 153"),
    (OpenFault::Damaged(Side::B, 1), "Damaged B 1"),
    (OpenFault::Version(7), "Version 7"),
    (OpenFault::Device(READ), "Device A Read"),
    (OpenFault::NoMemory, "NoMemory"),
];

const WRITE: DeviceFault = DeviceFault {
    side: Side::A,
    call: Call::Write,
};

const FORMAT_FAULTS: [(FormatFault, &str); 4] = [
    (FormatFault::BadOpening, "BadOpening"),
    (FormatFault::NoMemory, "NoMemory"),
    (FormatFault::Device(WRITE), "Device A Write"),
    (FormatFault::AlreadyFormatted, "AlreadyFormatted"),
];

// Of a device, of a folder, of opening, and of a state.
#[test]
fn faults_print_what_is_wrong(rt: HostRuntime) {
    for &(side, call, name) in &NAMES {
        assert!(rt; says(&rt, &DeviceFault { side, call }, name));
    }
    assert!(rt; says(&rt, &SiteFault::Device(READ), "Device A Read"));
    assert!(rt; says(&rt, &SiteFault::NoMemory, "NoMemory"));
    for (fault, wanted) in &OPEN_FAULTS {
        assert!(rt; says(&rt, fault, wanted));
    }
    let short = StateFault::Wire(WireFault::Short);
    assert!(rt; says(&rt, &short, "the bytes end inside a field"));
    assert!(rt; says(&rt, &StateFault::Unlawful, "no node can be in that state"));
}

// Of formatting, and of an engine that has ended.
#[test]
fn faults_print_their_names(rt: HostRuntime) {
    for (fault, name) in &FORMAT_FAULTS {
        assert!(rt; says(&rt, fault, *name));
    }
    let failed = Failed { fault: WRITE };
    let moving = CheckpointFault::Failed(failed);
    assert!(rt; says(&rt, &failed, "Failed A Write"));
    assert!(rt; says(&rt, &moving, "Failed A Write"));
    assert!(rt; says(&rt, &CheckpointFault::Spent, "Spent"));
}
