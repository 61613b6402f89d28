//! The file that tells the node of a folder from others.

use cc_command_line::{Identity, IdentityFault, identity_in, identity_text};
use std::alloc::Global;
use std::fs::{File, Files};
use std::io::{ErrorKind, Write};
use std::{fmt, fs, io};

// What the file is called, in the folder.
const FILE: &str = "identity";

/// Why the file can't be taken.
#[derive(Clone, Copy)]
pub enum IdentityError {
    /// It can't be read.
    Unreadable(io::Error),
    /// It says something else.
    Fault(IdentityFault),
}

impl fmt::Display for IdentityError {
    fn fmt<W: fmt::Write>(&self, f: &mut fmt::Formatter<W>) -> fmt::Result {
        match self {
            IdentityError::Unreadable(why) => write!(f, "{FILE}: {why}"),
            IdentityError::Fault(fault) => write!(f, "{FILE} {fault}"),
        }
    }
}

/// What tells the node of a folder from others. None where the folder has no such file: its cluster has no name then.
pub fn identity_of_folder<R: Files<File = File>>(
    rt: &R,
    alloc: Global,
    folder: &str,
) -> Result<Option<Identity>, IdentityError> {
    let text = match read(rt, alloc, folder) {
        Ok(text) => text,
        Err(why) if is_absent(why.kind()) => return Ok(None),
        Err(why) => return Err(IdentityError::Unreadable(why)),
    };
    let identity = identity_in(text.as_str());
    drop(text);
    match identity {
        Ok(identity) => Ok(Some(identity)),
        Err(fault) => Err(IdentityError::Fault(fault)),
    }
}

// No such file is there: where the folder isn't one, what opens its other files tells so.
fn is_absent(kind: ErrorKind) -> bool {
    kind == ErrorKind::NotFound || kind == ErrorKind::NotADirectory
}

fn read<R: Files<File = File>>(rt: &R, alloc: Global, folder: &str) -> io::Result<String> {
    let path = format!(in alloc; "{folder}/{FILE}")?;
    io::read_to_string(alloc, File::open(rt, path.as_str())?)
}

/// Writes what tells the node of a folder from others, so that it is there after a power cut too.
pub(crate) fn write_identity<R: Files<File = File>>(
    rt: &R,
    alloc: Global,
    folder: &str,
    identity: &Identity,
) -> io::Result<()> {
    let path = format!(in alloc; "{folder}/{FILE}")?;
    let text = match identity_text(alloc, identity) {
        Ok(text) => text,
        Err(_) => return Err(ErrorKind::OutOfMemory.into()),
    };
    let mut file = File::create(rt, path.as_str())?;
    file.write_all(text.as_slice())?;
    file.sync_all()?;
    File::open(rt, folder)?.sync_all()
}

/// Prints it, as the file has it.
pub(crate) fn print_identity<W: Write>(identity: &Identity, output: &mut W) -> io::Result<()> {
    output.write_all(b"cluster ")?;
    output.write_all(identity.cluster.as_bytes())?;
    let birth = identity.birth;
    writeln!(output, "\nbirth {birth}")
}
