//! What stands in the folder of a node.

use crate::exit_status::{GOOD, REFUSED};
use crate::folder_identity::{identity_of_folder, print_identity};
use crate::node_lines::print_node;
use cc_checkpoint::{OpenFault, Peeked, peek};
use cc_flush::{Back, Flusher, Opened};
use cc_node::Node;
use cc_site::{DeviceFault, FileSite, NoOutlet, Side, Site};
use std::alloc::Global;
use std::fmt::Display;
use std::fs::{File, Files};
use std::io;
use std::io::Write;

/// How much is told of a folder.
#[derive(Clone, Copy, PartialEq, Eq)]
pub enum DumpScope {
    /// What its two sides are, and what counts on them.
    Sides,
    /// Its node too.
    Node,
}

/// Prints what stands in the files of a folder: for side A and then B whether it is armed, and under which generation, and
/// then what opening finds, and what its node is where that is told too, or its fault. A fault of the files stands in place
/// of all further lines. Behind the node stands what tells it from others, where the folder has a file for that. The answer is the
/// status to end with: 0, or 1 after a fault.
pub fn dump_folder<R: Files<File = File>, W: Write>(
    rt: &R,
    alloc: Global,
    folder: &str,
    scope: DumpScope,
    output: &mut W,
) -> io::Result<u8> {
    let status = match FileSite::open(rt, alloc, folder, NoOutlet) {
        Ok(site) => dump_site(alloc, site, scope, output)?,
        Err(fault) => print_fault(&fault, output)?,
    };
    if status == GOOD && scope == DumpScope::Node {
        return print_folder_identity(rt, alloc, folder, output);
    }
    Ok(status)
}

// Prints what tells the node of a folder from others, where there is a file for that.
fn print_folder_identity<R: Files<File = File>, W: Write>(
    rt: &R,
    alloc: Global,
    folder: &str,
    output: &mut W,
) -> io::Result<u8> {
    match identity_of_folder(rt, alloc, folder) {
        Ok(Some(identity)) => {
            print_identity(&identity, output)?;
            output.flush()?;
            Ok(GOOD)
        }
        Ok(None) => Ok(GOOD),
        Err(why) => print_fault(&why, output),
    }
}

/// The same of the two sides of any site.
pub fn dump_site<S: Site + Drop, W: Write>(
    alloc: Global,
    site: S,
    scope: DumpScope,
    output: &mut W,
) -> io::Result<u8> {
    let mut site = site;
    match print_sides(&mut site, output)? {
        None => print_found(alloc, site, scope, output),
        Some(fault) => print_fault(&OpenFault::Device(fault), output),
    }
}

// Prints what the first bytes of each side tell, up to a disk call that fails. Which one that is, if one did.
fn print_sides<S: Site, W: Write>(site: &mut S, output: &mut W) -> io::Result<Option<DeviceFault>> {
    for side in [Side::A, Side::B] {
        match peek(site, side) {
            Ok(peeked) => print_side(side, peeked, output)?,
            Err(fault) => return Ok(Some(fault)),
        }
    }
    Ok(None)
}

fn print_side<W: Write>(side: Side, peeked: Peeked, output: &mut W) -> io::Result<()> {
    match peeked {
        Peeked::Closed => writeln!(output, "{side} closed"),
        Peeked::Armed(generation) => writeln!(output, "{side} armed {generation}"),
        Peeked::Short => writeln!(output, "{side} armed short"),
    }
}

// Opens the sides, and prints what was found, and the node where that is told too.
fn print_found<S: Site + Drop, W: Write>(
    alloc: Global,
    site: S,
    scope: DumpScope,
    output: &mut W,
) -> io::Result<u8> {
    match Flusher::open(alloc, site) {
        Ok((engine, core)) => {
            drop(core);
            let printed = print_opened(alloc, engine.opened(), engine.twin(), scope, output);
            drop(engine);
            printed
        }
        Err(Back { site, fault }) => {
            drop(site);
            print_fault(&fault, output)
        }
    }
}

fn print_opened<W: Write>(
    alloc: Global,
    opened: Opened,
    node: &Node,
    scope: DumpScope,
    output: &mut W,
) -> io::Result<u8> {
    let Opened {
        side,
        records,
        events,
    } = opened;
    writeln!(output, "opened {side} records {records} events {events}")?;
    if scope == DumpScope::Node {
        print_node(alloc, node, output)?;
    }
    output.flush()?;
    Ok(GOOD)
}

fn print_fault<F: Display, W: Write>(fault: &F, output: &mut W) -> io::Result<u8> {
    writeln!(output, "fault {fault}")?;
    output.flush()?;
    Ok(REFUSED)
}
