//! A site over two files, of which nothing is claimed.

ghost use Rattle.std.specs.Prelude.{[], false, None};
ghost use Rattle.cc_site.specs.Moments.{CountsFault};

use crate::outlet::Outlet;
use crate::places::{read_whole, write_whole};
use crate::site::{Call, DeviceFault, Side, Site};
use crate::site_fault::SiteFault;
use cc_messages::{Answer, Message};
use cc_views::NodeId;
use std::alloc::Global;
use std::fs::{File, Files};
use std::io;

/// The two files of a folder, and an outlet. While it is open no other one opens the same folder. It is never honest and
/// tells nothing, since no contract says what a real file does.
#[derive(Drop)]
pub struct FileSite<O: Outlet> {
    a: File,
    b: File,
    // Held open for its lock, which ends with it.
    _lock: File,
    outlet: O,
    failures: u64,
}

impl<O: Outlet + Drop> FileSite<O> {
    /// Opens the files `side-a` and `side-b` of a folder, which has to exist, and makes those that are missing, so that
    /// they are there after a power cut too. A file that can't be opened or made is told as Length of its side; a folder
    /// that can't be locked or made sure of, as Length of side A.
    pub fn open<R: Files<File = File>>(
        rt: &R,
        alloc: Global,
        folder: &str,
        outlet: O,
    ) -> Result<Self, SiteFault> {
        let lock = lock_folder(rt, alloc, folder)?;
        let a = open_side(rt, alloc, folder, Side::A)?;
        let b = open_side(rt, alloc, folder, Side::B)?;
        sync_folder(rt, folder)?;
        Ok(FileSite {
            a,
            b,
            _lock: lock,
            outlet,
            failures: 0,
        })
    }
}

impl<O: Outlet> FileSite<O> {
    fn file(&self, side: Side) -> &File {
        match side {
            Side::A => &self.a,
            Side::B => &self.b,
        }
    }

    // Tells the outlet why a disk call failed, counts it, and names it.
    fn counted<T>(
        &mut self,
        outcome: io::Result<T>,
        side: Side,
        call: Call,
    ) -> Result<T, DeviceFault>
        ensures { CountsFault self.old.failures self.new.failures side call result }
    {
        match outcome {
            Ok(value) => Ok(value),
            Err(why) => {
                self.outlet.fail(side, why);
                self.failures = self.failures.wrapping_add(1);
                Err(DeviceFault { side, call })
            }
        }
    }
}

// What is told of a file, or of the folder, that can't be opened.
fn closed(side: Side) -> SiteFault {
    let call = Call::Length;
    SiteFault::Device(DeviceFault { side, call })
}

// A file for reading and writing, as it is, or empty where it is missing.
fn open_file<R: Files<File = File>>(
    rt: &R,
    alloc: Global,
    folder: &str,
    name: &str,
    side: Side,
) -> Result<File, SiteFault> {
    let path = format!(in alloc; "{folder}/{name}")?;
    File::options()
        .read(true)
        .write(true)
        .create(true)
        .open(rt, path.as_str())
        .or(Err(closed(side)))
}

fn open_side<R: Files<File = File>>(
    rt: &R,
    alloc: Global,
    folder: &str,
    side: Side,
) -> Result<File, SiteFault> {
    open_file(rt, alloc, folder, file_name(side), side)
}

/// The name of the file of a side, in the folder.
pub fn file_name(side: Side) -> &'static str {
    match side {
        Side::A => "side-a",
        Side::B => "side-b",
    }
}

// The file that is locked while the folder is open.
fn lock_folder<R: Files<File = File>>(
    rt: &R,
    alloc: Global,
    folder: &str,
) -> Result<File, SiteFault> {
    let lock = open_file(rt, alloc, folder, "lock", Side::A)?;
    match lock.try_lock() {
        Ok(()) => Ok(lock),
        Err(_) => Err(closed(Side::A)),
    }
}

// Makes sure of the names of the files.
fn sync_folder<R: Files<File = File>>(rt: &R, folder: &str) -> Result<(), SiteFault> {
    let Ok(folder) = File::open(rt, folder) else {
        return Err(closed(Side::A));
    };
    folder.sync_all().or(Err(closed(Side::A)))
}

impl<O: Outlet> Site for FileSite<O> {
    ghost use Rattle.std.proofs.Common.{lit≤};

    // A sync that makes a file longer changes what the file system keeps of the file, and costs a second write.
    const STRIDE: u64 = 262_144;

    ghost STRIDE = { 262144 };

    ghost has_stride = { lit≤ tt };

    ghost bounds_stride = { lit≤ tt };

    ghost honest = { λ _. ⊥ };

    ghost tells = { λ _. ⊥ };

    ghost state = { λ _ _. record { bytes = []; touched = λ _. false; shifted = None } };

    ghost sent = { λ _. [] };

    ghost moment = { λ _. 0 };

    ghost left_since = { λ _ _ _ _. ⊥ };

    ghost failures = { λ f. f.failures };

    ghost may_read = { λ _ honest _. absurd honest };

    ghost are_bytes = { λ _ honest _ _. absurd honest };

    ghost counts_now = { λ _ honest _ _ _ _ _. absurd honest };

    ghost only_now = { λ _ honest _ _ _. absurd honest };

    fn length(&mut self, side: Side) -> Result<u64, DeviceFault> {
        let length = self.file(side).metadata().map(|metadata| metadata.len());
        self.counted(length, side, Call::Length)
    }

    fn read(&mut self, side: Side, place: u64, into: &mut [u8]) -> Result<(), DeviceFault> {
        let done = read_whole(self.file(side), place, into);
        self.counted(done, side, Call::Read)
    }

    fn write_at(&mut self, side: Side, place: u64, bytes: &[u8]) -> Result<(), DeviceFault> {
        let done = write_whole(self.file(side), place, bytes);
        self.counted(done, side, Call::Write)
    }

    fn cut(&mut self, side: Side, len: u64) -> Result<(), DeviceFault> {
        let done = self.file(side).set_len(len);
        self.counted(done, side, Call::Cut)
    }

    fn sync(&mut self, side: Side) -> Result<(), DeviceFault> {
        let done = self.file(side).sync_data();
        self.counted(done, side, Call::Sync)
    }

    fn spell(&self, message: &Message) -> Option<Vec<u8>> {
        self.outlet.spell(message)
    }

    fn send(&mut self, to: NodeId, number: u64, message: &Message, spelled: Option<&[u8]>) {
        self.outlet.send(to, number, message, spelled);
    }

    fn ack(&mut self, to: NodeId, number: u64) {
        self.outlet.ack(to, number);
    }

    fn reply(&mut self, session: u64, request: u64, answer: &Answer) {
        self.outlet.reply(session, request, answer);
    }
}
