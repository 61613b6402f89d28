//! Scripts whose nodes crash and make checkpoints after each line.

use crate::chapter_lines::push_replaced;
use std::alloc::{AllocError, Global};

/// What the first node that a script makes does after each line, what the second one does, and so on: the fifth does what the
/// first one does. A `#` stands for the node's number.
pub type Way = [&'static str; 4];

const CRASH_A5: &str = "crash # fill a5\n";

const MOVE_A5: &str = "checkpoint #\ncrash # fill a5\n";

const MOVE_FF: &str = "checkpoint #\ncrash # fill ff\n";

const MOVE_00: &str = "checkpoint #\ncrash # fill 00\n";

const MOVE: &str = "checkpoint #\ncrash #\n";

const CHECKPOINT: &str = "checkpoint #\n";

/// With crashes: a crash of each node; and a checkpoint before each crash, which leaves FF where nothing was made sure of, and then
/// something else of each node.
pub const CRASHES: [Way; 3] = [
    [CRASH_A5, CRASH_A5, CRASH_A5, CRASH_A5],
    [MOVE_FF, MOVE_FF, MOVE_FF, MOVE_FF],
    [MOVE_A5, MOVE_FF, MOVE_00, MOVE],
];

/// With checkpoints alone.
pub const CHECKPOINTS: [Way; 1] = [[CHECKPOINT, CHECKPOINT, CHECKPOINT, CHECKPOINT]];

/// The script of these two parts, with the moves of a way after each line of the second one, for each node that the first one
/// makes.
pub fn with_moves(
    alloc: Global,
    first: &str,
    second: &str,
    way: &Way,
) -> Result<String, AllocError> {
    let mut moves = String::new(alloc);
    push_moves(&mut moves, first, way)?;
    let mut script = String::from_str(alloc, first)?;
    push_with_moves(&mut script, second, &moves)?;
    Ok(script)
}

fn push_moves(moves: &mut String, first: &str, way: &Way) -> Result<(), AllocError> {
    let mut made: usize = 0;
    for line in first.lines() {
        if let Some(node) = node_made_by(line) {
            let template = way.get(made % 4).copied().unwrap_or("");
            push_replaced(moves, template, '#', node)?;
            made = made.saturating_add(1);
        }
    }
    Ok(())
}

// The number of the node that a line makes.
fn node_made_by(line: &str) -> Option<&str> {
    let mut words = line.split(' ');
    match words.next() {
        Some("member" | "entrant") => words.next(),
        _ => None,
    }
}

fn push_with_moves(script: &mut String, second: &str, moves: &str) -> Result<(), AllocError> {
    for line in second.lines() {
        script.push_str(line)?;
        script.push('\n')?;
        script.push_str(moves)?;
    }
    Ok(())
}

/// Whether a text is that output beside so many lines that tell of checkpoints and openings.
pub fn is_beside_moves(printed: &str, output: &str, moves: usize) -> bool {
    let mut lines = output.split('\n');
    let mut told: usize = 0;
    for line in printed.split('\n') {
        if line.ends_with(" checkpoint") || line.ends_with(" opened") {
            told = told.saturating_add(1);
        } else if lines.next() != Some(line) {
            return false;
        }
    }
    told == moves && lines.next().is_none()
}
