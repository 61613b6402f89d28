//! Files of a node that are missing while others are there.

use std::alloc::{AllocError, Global};
use std::fs::Files;
use std::{fmt, fs};

/// Which files of a folder are missing, though a node was kept there.
#[derive(Clone, Copy, PartialEq, Eq)]
pub enum Lost {
    /// The file `side-a`, beside a `side-b`.
    SideA,
    /// The file `side-b`, beside a `side-a`.
    SideB,
    /// Both sides, beside a `lock`.
    Both,
}

impl fmt::Display for Lost {
    fn fmt<W: fmt::Write>(&self, f: &mut fmt::Formatter<W>) -> fmt::Result {
        let missing = match self {
            Lost::SideA => "side-a is missing while side-b is there",
            Lost::SideB => "side-b is missing while side-a is there",
            Lost::Both => "side-a and side-b are missing while lock is there",
        };
        write!(
            f,
            "{missing}: a lost file isn't an unformatted folder. Bring it back, or retire this id at every other node, \
             and give the folder another one"
        )
    }
}

impl Lost {
    /// What is missing in a folder, before it is opened, which makes the files that are missing. None where nothing is, and
    /// where no node was ever kept.
    pub fn at<R: Files>(rt: &R, alloc: Global, folder: &str) -> Result<Option<Self>, AllocError> {
        let has_a = is_there(rt, alloc, folder, "side-a")?;
        let has_b = is_there(rt, alloc, folder, "side-b")?;
        let has_lock = is_there(rt, alloc, folder, "lock")?;
        Ok(match (has_a, has_b) {
            (false, true) => Some(Lost::SideA),
            (true, false) => Some(Lost::SideB),
            (false, false) if has_lock => Some(Lost::Both),
            _ => None,
        })
    }
}

fn is_there<R: Files>(rt: &R, alloc: Global, folder: &str, name: &str) -> Result<bool, AllocError> {
    let path = format!(in alloc; "{folder}/{name}")?;
    Ok(fs::exists(rt, path.as_str()).unwrap_or(false))
}
