//! A folder begins to keep a node.

use crate::exit_status::{GOOD, REFUSED};
use crate::folder_identity::write_identity;
use crate::format_order::FormatOrder;
use cc_command_line::Identity;
use cc_flush::{Back, format};
use cc_site::{FileSite, NoOutlet, Site};
use std::alloc::Global;
use std::fmt::Display;
use std::fs::{File, Files};
use std::io;
use std::io::Write;

/// Makes the files of a folder keep the node that is asked for, and prints `formatted` and its id, or the fault of the files
/// or of the formatting. Where its cluster is named, the folder tells its node from others by that name and by `birth`: 64 random
/// bits. The answer is the status to end with: 0, or 1 after a fault.
pub fn format_folder<R: Files<File = File>, W: Write>(
    rt: &R,
    alloc: Global,
    folder: &str,
    order: &FormatOrder,
    birth: u64,
    output: &mut W,
) -> io::Result<u8> {
    let site = match FileSite::open(rt, alloc, folder, NoOutlet) {
        Ok(site) => site,
        Err(fault) => return print_fault(&fault, output),
    };
    let name_it = || match order.cluster {
        Some(cluster) => write_identity(rt, alloc, folder, &Identity { cluster, birth }),
        None => Ok(()),
    };
    format_and(alloc, site, order, name_it, output)
}

/// The same over the two sides of any site, which have no cluster.
pub fn format_site<S: Site + Drop, W: Write>(
    alloc: Global,
    site: S,
    order: &FormatOrder,
    output: &mut W,
) -> io::Result<u8> {
    format_and(alloc, site, order, || Ok(()), output)
}

// Formats, and then does that too.
fn format_and<S: Site + Drop, N: FnOnce() -> io::Result<()>, W: Write>(
    alloc: Global,
    site: S,
    order: &FormatOrder,
    finish: N,
    output: &mut W,
) -> io::Result<u8>
    requires { N.IsAlwaysCallable finish }
{
    match format(alloc, site, &order.opening()) {
        Ok(_) => {
            finish()?;
            print_formatted(order.id, output)
        }
        Err(Back { site: _, fault }) => print_fault(&fault, output),
    }
}

fn print_formatted<W: Write>(id: u32, output: &mut W) -> io::Result<u8> {
    writeln!(output, "formatted {id}")?;
    output.flush()?;
    Ok(GOOD)
}

fn print_fault<F: Display, W: Write>(fault: &F, output: &mut W) -> io::Result<u8> {
    writeln!(output, "{fault}")?;
    output.flush()?;
    Ok(REFUSED)
}
