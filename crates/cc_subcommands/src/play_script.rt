//! A script of standard input.

use crate::play_fault::PlayFault;
use crate::player::play;
use crate::statuses::FAULT;
use std::io::BufWriter;
use std::process::ExitCode;

/// Plays standard input: the status that the script ends with.
pub fn play_input(rt: &HostRuntime) -> anyhow::Result<ExitCode> {
    match played(rt)? {
        Ok(status) => Ok(ExitCode::from(status)),
        Err(fault) => print_fault(rt, &fault),
    }
}

fn played(rt: &HostRuntime) -> anyhow::Result<Result<u8, PlayFault>> {
    let mut output = BufWriter::new(rt.alloc(), std::io::writer(rt))?;
    Ok(play(rt.alloc(), &mut rt.reader(), &mut output))
}

fn print_fault(rt: &HostRuntime, fault: &PlayFault) -> anyhow::Result<ExitCode> {
    eprintln!(rt; "ccnode: {fault}")?;
    Ok(ExitCode::from(FAULT))
}
