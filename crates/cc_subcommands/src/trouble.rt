//! Why the folder of a node can't be opened, as far as its files tell afterwards.

use std::alloc::{AllocError, Global};
use std::fs::{File, Files};
use std::io::ErrorKind;
use std::{fmt, fs, io};

/// The files that a folder has, in the order in which they are opened.
const FILES: [&str; 3] = ["lock", "side-a", "side-b"];

/// What is wrong with a folder, or with a file in it.
#[derive(Clone, Copy, PartialEq, Eq)]
pub enum Wrong {
    /// There is no such folder.
    NoFolder,
    /// It isn't a folder.
    NotAFolder,
    /// Another program holds it.
    Held,
    /// A folder stands where a file has to be.
    NotAFile,
    /// It may not be opened or made.
    Denied,
    /// Opening or making it fails in another way.
    Fails(ErrorKind),
}

impl fmt::Display for Wrong {
    fn fmt<W: fmt::Write>(&self, f: &mut fmt::Formatter<W>) -> fmt::Result {
        f.write_str(match self {
            Wrong::NoFolder => "no such folder; make it, and format it",
            Wrong::NotAFolder => "not a folder",
            Wrong::Held => {
                "held by another program: a node runs on this folder, or another ccnode has it open"
            }
            Wrong::NotAFile => "a folder, where a file has to be",
            Wrong::Denied => "permission denied; run as the user that owns the folder",
            Wrong::Fails(kind) => return write!(f, "{kind}"),
        })
    }
}

/// A path, and what is wrong there: `node-1/lock: held by another program ..`.
#[derive(Drop)]
pub struct Trouble {
    pub path: String,
    pub wrong: Wrong,
}

impl fmt::Display for Trouble {
    fn fmt<W: fmt::Write>(&self, f: &mut fmt::Formatter<W>) -> fmt::Result {
        let path = self.path.as_str();
        let wrong = self.wrong;
        write!(f, "{path}: {wrong}")
    }
}

impl Trouble {
    /// What is wrong with a folder that couldn't be opened, by a second look. None where nothing is wrong any more. Like
    /// opening it makes files that are missing.
    pub fn at<R: Files<File = File>>(
        rt: &R,
        alloc: Global,
        folder: &str,
    ) -> Result<Option<Self>, AllocError> {
        if let Some(wrong) = wrong_with_folder(rt, folder) {
            let path = String::from_str(alloc, folder)?;
            return Ok(Some(Trouble { path, wrong }));
        }
        for name in FILES {
            let path = format!(in alloc; "{folder}/{name}")?;
            if let Some(wrong) = wrong_with_file(rt, path.as_str(), name == "lock") {
                return Ok(Some(Trouble { path, wrong }));
            }
        }
        Ok(None)
    }
}

fn wrong_with_folder<R: Files>(rt: &R, folder: &str) -> Option<Wrong> {
    match fs::metadata(rt, folder) {
        Ok(metadata) => (!metadata.is_dir()).then_some(Wrong::NotAFolder),
        Err(error) => match error.kind() {
            ErrorKind::NotFound => Some(Wrong::NoFolder),
            kind => Some(wrong_of(kind)),
        },
    }
}

fn wrong_with_file<R: Files<File = File>>(rt: &R, path: &str, is_lock: bool) -> Option<Wrong> {
    match open_file(rt, path) {
        Ok(file) => (is_lock && file.try_lock().is_err()).then_some(Wrong::Held),
        Err(error) => Some(wrong_of(error.kind())),
    }
}

// As opening a node does.
fn open_file<R: Files<File = File>>(rt: &R, path: &str) -> io::Result<File> {
    File::options()
        .read(true)
        .write(true)
        .create(true)
        .open(rt, path)
}

fn wrong_of(kind: ErrorKind) -> Wrong {
    match kind {
        ErrorKind::PermissionDenied => Wrong::Denied,
        ErrorKind::IsADirectory => Wrong::NotAFile,
        kind => Wrong::Fails(kind),
    }
}
