//! What stands in the folders of nodes that earlier releases left behind.

use cc_subcommands::{DumpScope, dump_folder};
use std::io;
use std::io::Write;

// A release adds its own, and none is ever taken away.
const FOLDERS: [&str; 13] = [
    "0.1.0/fresh",
    "0.1.0/entrant",
    "0.1.0/stored",
    "0.1.0/torn",
    "0.1.0/damaged",
    "0.1.0/newer",
    "0.1.0/version-1",
    "0.1.0/rounds",
    "0.1.0/moved",
    "0.1.0/moved-rounds",
    "0.1.0/entered",
    "0.1.0/left-behind",
    "0.1.0/absent",
];

/// Prints what `ccnode dump --node` prints of each.
pub fn print_folders(rt: &HostRuntime) -> io::Result<()> {
    for &folder in &FOLDERS {
        print_folder(rt, folder)?;
    }
    Ok(())
}

fn print_folder(rt: &HostRuntime, folder: &str) -> io::Result<()> {
    let mut output = io::writer(rt);
    writeln!(output, "== {folder}")?;
    dump_folder(rt, rt.alloc(), folder, DumpScope::Node, &mut output)?;
    Ok(())
}
