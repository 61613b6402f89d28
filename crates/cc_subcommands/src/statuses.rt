//! The statuses that all commands share, and what is printed with them.

use cc_command_line::WordFault;
use std::io;
use std::process::ExitCode;

/// The status where the command line, or a file that it names, isn't as it should be.
pub const BAD_COMMAND_LINE: u8 = 2;

/// The status where a fault ended the run.
pub const FAULT: u8 = 1;

/// Prints which word isn't of its form.
pub fn print_word_fault<R: Eprint>(rt: &R, fault: WordFault) -> anyhow::Result<ExitCode> {
    eprintln!(rt; "ccnode: {fault}")?;
    let is_bad = fault != WordFault::NoMemory;
    Ok(ExitCode::from(if is_bad { BAD_COMMAND_LINE } else { FAULT }))
}

/// Prints why a file of peers can't be read.
pub fn print_unreadable<R: Eprint>(
    rt: &R,
    file: &str,
    error: &io::Error,
) -> anyhow::Result<ExitCode> {
    eprintln!(rt; "ccnode: {file}: {error}")?;
    Ok(ExitCode::from(BAD_COMMAND_LINE))
}
