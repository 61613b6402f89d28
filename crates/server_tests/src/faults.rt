//! Why a node doesn't run: each fault, and its text.

use crate::nodes::{Setting, config_of, format, free_place, peer};
use cc_channels::ReadText;
use cc_checkpoint::OpenFault;
use cc_connections::{Address, Stop};
use cc_flush::Failed;
use cc_intake::NoHooks;
use cc_server::{RunFault, run_node};
use cc_site::{Call, DeviceFault, Side};
use log::Log;
use std::fs;
use std::fs::{File, Files};
use std::net::{Net, TcpListener, TcpStream};
use std::process::Abort;
use std::sync::Wait;
use std::test::*;
use std::thread::Threads;
use std::time::Clock;

// Each kind of fault, and its text.
const TEXTS: [(RunFault, &str); 6] = [
    (RunFault::Open(OpenFault::NotFormatted), "NotFormatted"),
    (
        RunFault::Open(OpenFault::Damaged(Side::A, 153)),
        "Damaged A 153",
    ),
    (
        RunFault::Failed(Failed {
            fault: DeviceFault {
                side: Side::A,
                call: Call::Sync,
            },
        }),
        "Failed A Sync",
    ),
    (RunFault::Listen, "Listen"),
    (RunFault::OwnPeer, "OwnPeer"),
    (RunFault::NoMemory, "NoMemory"),
];

// The folder can't be opened.
const NO_FOLDER: RunFault = RunFault::Open(OpenFault::Device(DeviceFault {
    side: Side::A,
    call: Call::Length,
}));

// Where the address is taken: the folder, and why its node doesn't run.
const CANNOT_BEGIN: [(&str, RunFault); 3] = [
    ("no-folder", NO_FOLDER),
    ("empty-folder", RunFault::Open(OpenFault::NotFormatted)),
    ("own-folder", RunFault::Listen),
];

#[test]
fn faults_of_a_run_print_their_texts(rt: HostRuntime) {
    for &(fault, wanted) in &TEXTS {
        let text = format!(in rt.alloc(); "{fault}").expect(&rt, "a text");
        assert!(rt; text.as_str() == wanted, "{wanted}");
    }
}

// Why a node doesn't run.
fn check_fault<R>(rt: &R, setting: &Setting<'_>, wanted: RunFault)
where
    R: Abort
        + AllocGlobal
        + Files<File = File>
        + Net<Listener = TcpListener, Stream = TcpStream>
        + Threads
        + Wait
        + Clock
        + ReadText
        + Log
        + Sync,
{
    let config = config_of(rt.alloc(), setting).expect(rt, "a config");
    let fault = run_node(rt, rt, rt.alloc(), &config, &Stop::new(), &NoHooks).err();
    drop(config);
    assert!(rt; fault == Some(wanted), "why a node doesn't run");
}

// A node is no peer of itself either: by its own id, and by its own address under the id of another.
#[test]
fn a_node_that_cannot_begin_says_why(rt: HostRuntime) {
    let _ = fs::remove_dir_all(&rt, "empty-folder");
    fs::create_dir(&rt, "empty-folder").expect(&rt, "a folder");
    format(&rt, "own-folder", "1", "1,2", None, None);
    let taken = free_place(&rt);
    for &(folder, fault) in &CANNOT_BEGIN {
        check_fault(&rt, &Setting::of(folder, taken.address, &[]), fault);
    }
    let own = Address::from(taken.address);
    let elsewhere = Address::from(free_place(&rt).address);
    for &(number, address) in &[(1, elsewhere), (2, own)] {
        let peers = [peer(&rt, number, address)];
        let setting = Setting::of("own-folder", taken.address, &peers);
        check_fault(&rt, &setting, RunFault::OwnPeer);
    }
    drop(taken);
}
