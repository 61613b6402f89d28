//! A site of two files: what it does with a folder, and with files that fail or give too little.

ghost use Rattle.std.specs.Prelude.{◌≤◌, IfOk};

use cc_messages::{Answer, Message};
use cc_site::{
    Call, DeviceFault, FileSite, NoOutlet, Outlet, Side, Site, SiteFault, read_whole, write_whole,
};
use cc_views::NodeId;
use std::cell::Cell;
use std::fs::{File, Files};
use std::io::ErrorKind;
use std::os::unix::fs::FileExt;
use std::process::Abort;
use std::{fs, io};

// A file of which a call moves so many bytes at most, and the call with that number fails.
#[derive(Drop)]
struct Scant {
    calls: Cell<u64>,
    most: usize,
    fails_at: u64,
}

impl Scant {
    fn new(most: usize, fails_at: u64) -> Self {
        Scant {
            calls: Cell::new(0),
            most,
            fails_at,
        }
    }

    fn count(&self, asked: usize) -> io::Result<usize>
        ensures { IfOk result (λ n. n ≤ asked) }
    {
        let call = self.calls.get();
        self.calls.set(call.wrapping_add(1));
        if call == self.fails_at {
            return Err(io::ErrorKind::Interrupted.into());
        }
        Ok(asked.min(self.most))
    }
}

impl FileExt for Scant {
    fn read_at(&self, buf: &mut [u8], _offset: u64) -> io::Result<usize> {
        let count = self.count(buf.len())?;
        buf[..count].fill(7);
        Ok(count)
    }

    fn write_at(&self, buf: &[u8], _offset: u64) -> io::Result<usize> {
        self.count(buf.len())
    }
}

fn kind_of(outcome: io::Result<()>) -> Option<ErrorKind> {
    match outcome {
        Ok(()) => None,
        Err(error) => {
            let kind = error.kind();
            drop(error);
            Some(kind)
        }
    }
}

// How many bytes a call moves at most, which call fails, why eight bytes can't be written then and why they can't be read, and
// how many calls either takes: what a call leaves is asked for next, nothing is tried twice, and a call that moves nothing ends
// it.
const CALLS: [(usize, u64, Option<ErrorKind>, Option<ErrorKind>, u64); 5] = [
    (3, 9, None, None, 3),
    (3, 0, INTERRUPTED, INTERRUPTED, 1),
    (3, 1, INTERRUPTED, INTERRUPTED, 2),
    (3, 2, INTERRUPTED, INTERRUPTED, 3),
    (
        0,
        9,
        Some(ErrorKind::WriteZero),
        Some(ErrorKind::UnexpectedEof),
        1,
    ),
];

const INTERRUPTED: Option<ErrorKind> = Some(ErrorKind::Interrupted);

#[test]
fn a_file_that_moves_too_little_is_asked_again(rt: HostRuntime) {
    for &(most, fails_at, unwritten, unread, calls) in &CALLS {
        let file = Scant::new(most, fails_at);
        assert!(rt; kind_of(write_whole(&file, 0, b"abcdefgh")) == unwritten);
        assert!(rt; file.calls.get() == calls);
        let mut into = [0; 8];
        let file = Scant::new(most, fails_at);
        assert!(rt; kind_of(read_whole(&file, 0, &mut into)) == unread);
        assert!(rt; file.calls.get() == calls);
        assert!(rt; unread.is_some() || into == [7; 8]);
    }
}

// Keeps the last failure that it is told of.
#[derive(Drop)]
struct Told<'a>(&'a Cell<Option<(Side, ErrorKind)>>);

impl Outlet for Told<'_> {
    fn spell(&self, _message: &Message) -> Option<Vec<u8>> {
        None
    }

    fn send(&mut self, _to: NodeId, _number: u64, _message: &Message, _spelled: Option<&[u8]>) {}

    fn ack(&mut self, _to: NodeId, _number: u64) {}

    fn reply(&mut self, _session: u64, _request: u64, _answer: &Answer) {}

    fn fail(&mut self, side: Side, why: io::Error) {
        self.0.set(Some((side, why.kind())));
    }
}

// Whether the folder can't be opened, for the call Length of that side.
fn is_refused<R: Abort + AllocGlobal + Files<File = File>>(
    rt: &R,
    folder: &str,
    side: Side,
) -> bool {
    let call = Call::Length;
    let wanted = SiteFault::Device(DeviceFault { side, call });
    match FileSite::open(rt, rt.alloc(), folder, NoOutlet) {
        Ok(site) => {
            drop(site);
            false
        }
        Err(fault) => fault == wanted,
    }
}

/// The site of a folder.
pub(crate) fn site<R: Abort + AllocGlobal + Files<File = File>>(
    rt: &R,
    folder: &str,
) -> FileSite<NoOutlet> {
    FileSite::open(rt, rt.alloc(), folder, NoOutlet).expect(rt, "a site")
}

/// A new folder.
pub(crate) fn made<R: Abort + AllocGlobal + Files<File = File>>(rt: &R, folder: &str) {
    let _ = fs::remove_dir_all(rt, folder);
    fs::create_dir(rt, folder).expect(rt, "a folder");
}

pub(crate) fn remove<R: Abort + AllocGlobal + Files<File = File>>(rt: &R, folder: &str) {
    fs::remove_dir_all(rt, folder).expect(rt, "the folder is removed");
}

#[test]
fn a_folder_is_a_site_of_one(rt: HostRuntime) {
    const FOLDER: &str = "file_site_test";
    made(&rt, FOLDER);
    let mut first = site(&rt, FOLDER);
    assert!(rt; first.length(Side::A) == Ok(0) && first.length(Side::B) == Ok(0));
    let mut into = [0; 4];
    first.write_at(Side::B, 0, b"abcdef").expect(&rt, "a write");
    first.cut(Side::B, 4).expect(&rt, "a cut");
    first.sync(Side::B).expect(&rt, "a sync");
    first.read(Side::B, 0, &mut into).expect(&rt, "a read");
    assert!(rt; into == *b"abcd");
    assert!(rt; is_refused(&rt, FOLDER, Side::A), "another one opens it");
    drop(first);
    let mut second = site(&rt, FOLDER);
    assert!(rt; second.length(Side::A) == Ok(0) && second.length(Side::B) == Ok(4));
    drop(second);
    remove(&rt, FOLDER);
}

// A folder has to exist, a read past the end gives nothing too early, and a side is named by its file. An outlet is told why a
// call failed.
#[test]
fn a_site_of_files_names_its_faults(rt: HostRuntime) {
    const FOLDER: &str = "file_site_faults";
    const FILE: &str = "file_site_faults/side-b";
    assert!(rt; is_refused(&rt, "no-such-folder", Side::A));
    made(&rt, FOLDER);
    let told = Cell::new(None);
    let mut short = FileSite::open(&rt, rt.alloc(), FOLDER, Told(&told)).expect(&rt, "a site");
    let side = Side::B;
    let call = Call::Read;
    let read = short.read(side, 0, &mut [0; 4]);
    drop(short);
    assert!(rt; read == Err(DeviceFault { side, call }));
    assert!(rt; told.get() == Some((side, ErrorKind::UnexpectedEof)));
    fs::remove_file(&rt, FILE).expect(&rt, "the file is removed");
    fs::create_dir(&rt, FILE).expect(&rt, "a folder");
    assert!(rt; is_refused(&rt, FOLDER, Side::B));
    remove(&rt, FOLDER);
}
