//! Standard streams that are closed.

use std::fs::{File, Files};
use std::io;

/// What stands in for standard streams that were closed when the program was started. A file gets the lowest descriptor that
/// is free: so once three are open none of 0, 1 and 2 is, and what is opened later, as the sides of a node, never gets what is
/// printed.
#[derive(Drop)]
pub struct StandIns {
    _first: File,
    _second: File,
    _third: File,
}

impl StandIns {
    /// Opens them, before anything else is opened. They are closed once it is dropped.
    pub fn open<R: Files<File = File>>(rt: &R) -> io::Result<Self> {
        Ok(StandIns {
            _first: open_null(rt)?,
            _second: open_null(rt)?,
            _third: open_null(rt)?,
        })
    }
}

fn open_null<R: Files<File = File>>(rt: &R) -> io::Result<File> {
    File::options().read(true).write(true).open(rt, "/dev/null")
}
