//! How a case is played.

use crate::cases::{Case, Compared, End};
use crate::chapter_lines::{spelled, unescaped};
use crate::comparison::{Wrong, replies_in, two_values, wrong_lines};
use crate::crashes::{CHECKPOINTS, CRASHES, Way, is_beside_moves, with_moves};
use cc_subcommands::play;
use std::alloc::{AllocError, Global};

/// Plays the script of a case with one of its lines, and in each way in which its nodes move: how many scripts these are, or
/// what is wrong with the first that isn't as written.
pub fn check(alloc: Global, case: &Case<'_>, line: &str) -> anyhow::Result<Result<u32, Wrong>> {
    let script = spelled(alloc, case.script, line)?;
    check_script(alloc, case, &script)
}

// The nodes move where a heading says so, in the lines behind it.
fn check_script(
    alloc: Global,
    case: &Case<'_>,
    script: &str,
) -> anyhow::Result<Result<u32, Wrong>> {
    if let Some((first, second)) = script.split_once("with crashes:\n") {
        return check_parts(alloc, case, (first, second), &CRASHES);
    }
    if let Some((first, second)) = script.split_once("with checkpoints:\n") {
        return check_parts(alloc, case, (first, second), &CHECKPOINTS);
    }
    check_parts(alloc, case, (script, ""), &[])
}

fn check_parts(
    alloc: Global,
    case: &Case<'_>,
    parts: (&str, &str),
    ways: &[Way],
) -> anyhow::Result<Result<u32, Wrong>> {
    let (first, second) = parts;
    let script = format!(in alloc; "{first}{second}")?;
    let (status, output) = played(alloc, &script)?;
    match wrong_in(alloc, &case.end, status, &output)? {
        Some(wrong) => Ok(Err(wrong)),
        None => check_ways(alloc, parts, ways, &output),
    }
}

// The status that a script ends with, and what it prints.
fn played(alloc: Global, script: &str) -> anyhow::Result<(u8, String)> {
    let bytes = unescaped(alloc, script)?;
    played_bytes(alloc, &bytes)
}

fn played_bytes(alloc: Global, script: &[u8]) -> anyhow::Result<(u8, String)> {
    let mut input = script;
    let mut output = Vec::new(alloc);
    let status = play(alloc, &mut input, &mut output)?;
    Ok((status, String::from_utf8(output)?))
}

// What is wrong with a script that ended so.
fn wrong_in(
    alloc: Global,
    end: &End<'_>,
    status: u8,
    output: &str,
) -> Result<Option<Wrong>, AllocError> {
    if status != end.status {
        return Ok(Some(Wrong::Status(status)));
    }
    if let Some(wrong) = wrong_in_lines(alloc, end, output)? {
        return Ok(Some(wrong));
    }
    Ok(two_values(alloc, output)?.map(|_| Wrong::Values))
}

// What is wrong with the lines that are compared.
fn wrong_in_lines(alloc: Global, end: &End<'_>, output: &str) -> Result<Option<Wrong>, AllocError> {
    let written = spelled(alloc, end.prints, "")?;
    match end.compared {
        Compared::All => Ok(wrong_lines(output, &written)),
        Compared::Replies => {
            let replies = replies_in(alloc, output)?;
            Ok(wrong_lines(&replies, &written))
        }
    }
}

// In each way the script prints that output, beside a line for each move.
fn check_ways(
    alloc: Global,
    parts: (&str, &str),
    ways: &[Way],
    output: &str,
) -> anyhow::Result<Result<u32, Wrong>> {
    let mut scripts: u32 = 1;
    for way in ways {
        if !is_same(alloc, parts, way, output)? {
            return Ok(Err(Wrong::Moves));
        }
        scripts = scripts.saturating_add(1);
    }
    Ok(Ok(scripts))
}

fn is_same(alloc: Global, parts: (&str, &str), way: &Way, output: &str) -> anyhow::Result<bool> {
    let (first, second) = parts;
    let script = with_moves(alloc, first, second, way)?;
    let plain = first.lines().count().saturating_add(second.lines().count());
    let moves = script.lines().count().saturating_sub(plain);
    let (status, printed) = played(alloc, &script)?;
    Ok(status == 0 && is_beside_moves(&printed, output, moves))
}
