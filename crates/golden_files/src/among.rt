//! Lines that a script prints among others.

use crate::comparison::rows_in;
use cc_command_line::number;

/// The first of these lines, counted from 1, that isn't printed. A line in brackets says something else of what is printed.
pub fn first_missing(printed: &str, wanted: &str) -> Option<u64> {
    let mut place: u64 = 0;
    for line in wanted.lines() {
        place = place.saturating_add(1);
        if !is_so(printed, line) {
            return Some(place);
        }
    }
    None
}

fn is_so(printed: &str, line: &str) -> bool {
    if line == "(nothing refused)" {
        return !printed.contains("refused");
    }
    match rows_wanted(line) {
        Some((least, node)) => count_rows(printed, node) >= least,
        None => is_printed(printed, line),
    }
}

fn is_printed(printed: &str, line: &str) -> bool {
    for other in printed.lines() {
        if other == line {
            return true;
        }
    }
    false
}

// `(300 rows of node 1)`.
fn rows_wanted(line: &str) -> Option<(u64, &str)> {
    let inner = line.strip_prefix('(')?.strip_suffix(')')?;
    let (least, node) = inner.split_once(" rows of node ")?;
    Some((number(least)?, node))
}

// How many rows of a node are printed.
fn count_rows(printed: &str, node: &str) -> u64 {
    let mut count: u64 = 0;
    for word in printed.split([' ', '\n']) {
        for row in rows_in(word).unwrap_or("").split(',') {
            if node_of(row) == Some(node) {
                count = count.saturating_add(1);
            }
        }
    }
    count
}

// The node of a row, which is `NODE:NUMBER=VALUE`.
fn node_of(row: &str) -> Option<&str> {
    let (name, _) = row.split_once('=')?;
    let (node, _) = name.split_once(':')?;
    Some(node)
}
