//! What is done with the folder of a node.

use crate::folder_dump::{DumpScope, dump_folder};
use crate::folder_format::format_folder;
use crate::format_order::FormatOrder;
use crate::lost::Lost;
use crate::opening_fault::BadOpening;
use crate::statuses::print_word_fault;
use crate::trouble::{Trouble, Wrong};
use crate::warning::Warning;
use cc_command_line::FormatWords;
use std::alloc::AllocError;
use std::fs::{File, Files};
use std::process::ExitCode;
use std::random::RandomSource;
use std::thread;
use std::time::{Clock, Duration};

// How often it is looked whether another program still holds the folder, and how long a pause is between two looks, in
// milliseconds: `dump` holds it for a moment.
const LOOKS: u64 = 10;

const PAUSE_MS: u64 = 100;

/// Formats a folder: the status of that. What the operator may not want is told on standard error, and so is why it isn't
/// formatted.
pub fn format(rt: &HostRuntime, folder: &str, words: &FormatWords<'_>) -> anyhow::Result<ExitCode> {
    match FormatOrder::parse(rt.alloc(), words) {
        Ok(order) => {
            let status = format_as(rt, folder, &order);
            drop(order);
            status
        }
        Err(fault) => print_word_fault(rt, fault),
    }
}

fn format_as(rt: &HostRuntime, folder: &str, order: &FormatOrder) -> anyhow::Result<ExitCode> {
    print_lost(rt, folder)?;
    let birth = random_number(rt)?;
    let mut output = std::io::writer(rt);
    let status = format_folder(rt, rt.alloc(), folder, order, birth, &mut output)?;
    if status == 0 {
        for warning in order.warnings() {
            print_warning(rt, warning)?;
        }
    } else if !print_trouble(rt, folder)? {
        print_bad_opening(rt, order)?;
    }
    Ok(ExitCode::from(status))
}

/// 64 random bits.
pub fn random_number<R: RandomSource>(rt: &R) -> anyhow::Result<u64> {
    let mut bytes = [0; 8];
    rt.fill_bytes(&mut bytes)?;
    Ok(u64::from_be_bytes(bytes))
}

fn print_warning<R: Eprint>(rt: &R, warning: Option<Warning>) -> anyhow::Result<()> {
    if let Some(warning) = warning {
        eprintln!(rt; "ccnode: warning: {warning}")?;
    }
    Ok(())
}

// Prints the first rule that the beginning breaks, if it breaks one.
fn print_bad_opening<R: Eprint>(rt: &R, order: &FormatOrder) -> anyhow::Result<()> {
    if let Some(rule) = order.opening().broken_rule() {
        let told = BadOpening(rule);
        eprintln!(rt; "ccnode: {told}")?;
    }
    Ok(())
}

/// Tells what stands in a folder, and of its node where that is asked for: the status of that.
pub fn dump(rt: &HostRuntime, folder: &str, tells_node: bool) -> anyhow::Result<ExitCode> {
    print_lost(rt, folder)?;
    let scope = match tells_node {
        true => DumpScope::Node,
        false => DumpScope::Sides,
    };
    let mut output = std::io::writer(rt);
    let status = dump_folder(rt, rt.alloc(), folder, scope, &mut output)?;
    if status != 0 {
        print_trouble(rt, folder)?;
    }
    Ok(ExitCode::from(status))
}

/// Prints which files of a folder are missing, if one was lost. To be done before it is opened.
pub fn print_lost<R: Files<File = File> + AllocGlobal + Eprint>(
    rt: &R,
    folder: &str,
) -> anyhow::Result<()> {
    if let Some(lost) = Lost::at(rt, rt.alloc(), folder)? {
        eprintln!(rt; "ccnode: {folder}: {lost}")?;
    }
    Ok(())
}

/// Prints why a folder couldn't be opened, as far as that shows afterwards. Whether anything did.
pub fn print_trouble<R: Files<File = File> + AllocGlobal + Eprint>(
    rt: &R,
    folder: &str,
) -> anyhow::Result<bool> {
    match Trouble::at(rt, rt.alloc(), folder)? {
        Some(trouble) => {
            eprintln!(rt; "ccnode: {trouble}")?;
            Ok(true)
        }
        None => Ok(false),
    }
}

/// Waits for a second at most while another program holds the folder.
pub fn wait_for_folder<R, N>(rt: &R, machine: &N, folder: &str) -> Result<(), AllocError>
where
    R: Files<File = File> + AllocGlobal,
    N: Clock,
{
    for _ in 0..LOOKS {
        let trouble = Trouble::at(rt, rt.alloc(), folder)?;
        let is_held = match &trouble {
            Some(trouble) => trouble.wrong == Wrong::Held,
            None => false,
        };
        drop(trouble);
        if !is_held {
            break;
        }
        thread::sleep(machine, Duration::from_millis(PAUSE_MS));
    }
    Ok(())
}
