//! Readers and writers that fail, and the texts of faults that no script meets.

use cc_checkpoint::OpenFault;
use cc_flush::{Failed, FormatFault};
use cc_site::{Call, DeviceFault, Side};
use cc_subcommands::{NodeFault, PlayFault, play};
use std::io;
use std::io::Read;

// Gives these bytes, and then an error.
#[derive(Drop)]
struct Script<'a>(&'a [u8]);

impl Read for Script<'_> {
    fn read(&mut self, buf: &mut [u8]) -> io::Result<usize> {
        if self.0.is_empty() {
            return Err(io::Error::from(io::ErrorKind::BrokenPipe));
        }
        let mut rest = self.0;
        let count = rest.read(buf)?;
        self.0 = rest;
        Ok(count)
    }
}

// A member by itself stores.
const STORE: &str = "\
member 1 of 1
ask 1 7 1 store a
carry 1 1 1
carry 1 1 2
";

// What it prints.
const STORED: &str = "\
1 accepted
1 send 1 1 Store [1:1=a/0/0/] 1 1
1 accepted
1 ack 1 1
1 send 1 2 StoreAck 1 1
1 accepted
1 ack 1 2
1 reply 7 1 Stored
";

// The reader's fault comes once all that the script does is printed. The writer takes sixteen bytes.
#[test]
fn a_fault_of_the_reader_or_the_writer_ends_the_script(rt: HostRuntime) {
    let mut script = Script(STORE.as_bytes());
    let mut output = Vec::new(rt.alloc());
    let outcome = play(rt.alloc(), &mut script, &mut output);
    assert!(rt; matches!(outcome, Err(PlayFault::Read)));
    assert!(rt; output.as_slice() == STORED.as_bytes());
    let mut script = Script(STORE.as_bytes());
    let mut room = [0; 16];
    let mut few: &mut [u8] = &mut room;
    let outcome = play(rt.alloc(), &mut script, &mut few);
    assert!(rt; matches!(outcome, Err(PlayFault::Write)));
}

// Where a device fails.
const FAILING: DeviceFault = DeviceFault {
    side: Side::A,
    call: Call::Sync,
};

// Faults, and their texts.
const TEXTS: [(NodeFault, &str); 8] = [
    (
        NodeFault::Format(FormatFault::Device(FAILING)),
        "Device A Sync",
    ),
    (
        NodeFault::Format(FormatFault::AlreadyFormatted),
        "AlreadyFormatted",
    ),
    (
        NodeFault::Open(OpenFault::Damaged(Side::A, 153)),
        "Damaged A 153",
    ),
    (NodeFault::Open(OpenFault::NotFormatted), "NotFormatted"),
    (
        NodeFault::Engine(Failed { fault: FAILING }),
        "Failed A Sync",
    ),
    (NodeFault::Spent, "Spent"),
    (NodeFault::Outlet, "Outlet"),
    (NodeFault::NoMemory, "NoMemory"),
];

#[test]
fn faults_of_a_node_print_their_texts(rt: HostRuntime) {
    for (fault, wanted) in &TEXTS {
        let text = format!(in rt.alloc(); "{fault}").expect(&rt, "a text");
        assert!(rt; text.as_str() == *wanted, "{wanted}");
    }
}
