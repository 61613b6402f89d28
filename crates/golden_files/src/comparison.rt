//! What a script prints, beside what is written.

use crate::among::first_missing;
use cc_command_line::number;
use std::alloc::{AllocError, Global};
use std::collections::BTreeMap;
use std::fmt;

/// What is wrong with a script.
#[derive(Clone, Copy)]
pub enum Wrong {
    /// It ends with that status.
    Status(u8),
    /// That line of what it prints, counted from 1, isn't what is written.
    Line(u64),
    /// That line among others, counted from 1, isn't printed, or doesn't say what is so.
    Other(u64),
    /// It prints two values under one number.
    Values,
    /// It prints something else where its nodes crash or make checkpoints.
    Moves,
}

impl fmt::Display for Wrong {
    fn fmt<W: fmt::Write>(&self, f: &mut fmt::Formatter<W>) -> fmt::Result {
        match self {
            Wrong::Status(status) => write!(f, "it ends with status {status}"),
            Wrong::Line(line) => write!(f, "line {line} isn't as written"),
            Wrong::Other(line) => write!(f, "line {line} among others isn't so"),
            Wrong::Values => f.write_str("a row has two values under one number"),
            Wrong::Moves => f.write_str("it prints something else with crashes or checkpoints"),
        }
    }
}

/// The lines that are replies.
pub fn replies_in(alloc: Global, printed: &str) -> Result<String, AllocError> {
    let mut replies = String::new(alloc);
    push_replies(&mut replies, printed)?;
    Ok(replies)
}

fn push_replies(replies: &mut String, printed: &str) -> Result<(), AllocError> {
    for line in printed.lines() {
        if line.contains(" reply ") {
            replies.push_str(line)?;
            replies.push('\n')?;
        }
    }
    Ok(())
}

/// What is wrong with what is printed, beside what is written.
pub fn wrong_lines(printed: &str, written: &str) -> Option<Wrong> {
    match written.split_once("among others:\n") {
        Some((first, others)) => wrong_among(printed, first, others),
        None => first_difference(printed, written).map(Wrong::Line),
    }
}

// The same of lines that are printed first, and others behind them.
fn wrong_among(printed: &str, first: &str, others: &str) -> Option<Wrong> {
    let Some(rest) = printed.strip_prefix(first) else {
        let line = first_difference(printed, first).unwrap_or(1);
        return Some(Wrong::Line(line));
    };
    first_missing(rest, others).map(Wrong::Other)
}

// The first line, counted from 1, in which what is printed isn't what is written. There a line `(N lines)` stands for N lines.
fn first_difference(printed: &str, written: &str) -> Option<u64> {
    let mut lines = printed.split('\n');
    let mut place: u64 = 0;
    for line in written.split('\n') {
        if let Some(count) = left_out(line) {
            for _ in 0..count {
                place = place.saturating_add(1);
                if lines.next().is_none() {
                    return Some(place);
                }
            }
        } else {
            place = place.saturating_add(1);
            if lines.next() != Some(line) {
                return Some(place);
            }
        }
    }
    match lines.next() {
        Some(_) => Some(place.saturating_add(1)),
        None => None,
    }
}

// How many lines a line stands for.
fn left_out(line: &str) -> Option<u64> {
    number(line.strip_prefix('(')?.strip_suffix(" lines)")?)
}

/// The node and the number of rows that have two values in what is printed, as `NODE:NUMBER`.
pub fn two_values<'a>(alloc: Global, printed: &'a str) -> Result<Option<&'a str>, AllocError> {
    let mut values = BTreeMap::new(alloc);
    let mut found = None;
    for word in printed.split([' ', '\n']) {
        if let Some(name) = note_view(&mut values, word)? {
            found = Some(name);
        }
    }
    Ok(found)
}

// Notes the rows of a word, if it is a view: the name of one that has another value already.
fn note_view<'a>(
    values: &mut BTreeMap<&'a str, &'a str>,
    word: &'a str,
) -> Result<Option<&'a str>, AllocError> {
    let mut found = None;
    for row in rows_in(word).unwrap_or("").split(',') {
        if let Some((name, value)) = row.split_once('=') {
            if values.insert(name, value)?.unwrap_or(value) != value {
                found = Some(name);
            }
        }
    }
    Ok(found)
}

/// The rows of a word that is a view.
pub fn rows_in(word: &str) -> Option<&str> {
    word.strip_prefix('[')?.strip_suffix(']')
}
