//! How chapters spell scripts and what they print: lines to choose from, parts that are repeated, and what can't be seen.

use cc_command_line::number;
use std::alloc::{AllocError, Global};

/// The text of a template, with that line in the place of each `@`, and with its repeated parts as often as they come.
pub fn spelled(alloc: Global, template: &str, line: &str) -> Result<String, AllocError> {
    let mut text = String::new(alloc);
    push_spelled(&mut text, template, line)?;
    Ok(text)
}

fn push_spelled(text: &mut String, template: &str, line: &str) -> Result<(), AllocError> {
    for part in template.split("repeat ") {
        match Repeated::parse(part) {
            Some(repeated) => push_repeated(text, &repeated, line)?,
            None => push_replaced(text, part, '@', line)?,
        }
    }
    Ok(())
}

/// Lines that come once for each number from the first to the last one, and what stands behind them.
#[derive(Clone, Copy)]
struct Repeated<'a> {
    first: u64,
    last: u64,
    lines: &'a str,
    rest: &'a str,
}

impl<'a> Repeated<'a> {
    // `1 to 256:`, the lines, `end`, and the rest.
    fn parse(part: &'a str) -> Option<Repeated<'a>> {
        let (numbers, behind) = part.split_once(":\n")?;
        let (first, last) = numbers.split_once(" to ")?;
        let (lines, rest) = behind.split_once("\nend\n")?;
        Some(Repeated {
            first: number(first)?,
            last: number(last)?,
            lines,
            rest,
        })
    }
}

fn push_repeated(text: &mut String, repeated: &Repeated<'_>, line: &str) -> Result<(), AllocError> {
    for n in repeated.first..=repeated.last {
        push_numbered(text, repeated.lines, n)?;
        text.push('\n')?;
    }
    push_replaced(text, repeated.rest, '@', line)
}

// Adds lines with the value of each formula that stands in braces.
fn push_numbered(text: &mut String, lines: &str, n: u64) -> Result<(), AllocError> {
    for part in lines.split('{') {
        match part.split_once('}') {
            Some((formula, rest)) => {
                let value = value_of(formula, n).unwrap_or(0);
                write!(text, "{value}{rest}")?;
            }
            None => text.push_str(part)?,
        }
    }
    Ok(())
}

// The value of `n`, `2n`, `2n+1` or `2n-1`.
fn value_of(formula: &str, n: u64) -> Option<u64> {
    let (factor, term) = formula.split_once('n')?;
    let product = match factor.is_empty() {
        true => n,
        false => number(factor)?.checked_mul(n)?,
    };
    if let Some(more) = term.strip_prefix('+') {
        return product.checked_add(number(more)?);
    }
    match term.strip_prefix('-') {
        Some(less) => product.checked_sub(number(less)?),
        None => Some(product),
    }
}

/// Adds a template with that word in the place of each such letter.
pub fn push_replaced(
    text: &mut String,
    template: &str,
    letter: char,
    word: &str,
) -> Result<(), AllocError> {
    for (place, part) in template.split(letter).enumerate() {
        if place > 0 {
            text.push_str(word)?;
        }
        text.push_str(part)?;
    }
    Ok(())
}

// What stands behind a backslash, and the bytes that it means. At the end of a line it takes the newline away.
const ESCAPES: [(&str, &[u8]); 6] = [
    ("\n", b""),
    ("t", b"\t"),
    ("r", b"\r"),
    ("x20", b" "),
    ("x7f", b"\x7f"),
    ("xff", b"\xff"),
];

/// The bytes of a script.
pub fn unescaped(alloc: Global, script: &str) -> Result<Vec<u8>, AllocError> {
    let mut bytes = Vec::new(alloc);
    push_unescaped(&mut bytes, script)?;
    Ok(bytes)
}

fn push_unescaped(bytes: &mut Vec<u8>, script: &str) -> Result<(), AllocError> {
    for (place, part) in script.split('\\').enumerate() {
        if place > 0 {
            push_escaped(bytes, part)?;
        } else {
            bytes.extend_from_slice(part.as_bytes())?;
        }
    }
    Ok(())
}

// Adds what stands behind a backslash.
fn push_escaped(bytes: &mut Vec<u8>, part: &str) -> Result<(), AllocError> {
    for &(word, meant) in &ESCAPES {
        if let Some(rest) = part.strip_prefix(word) {
            bytes.extend_from_slice(meant)?;
            return bytes.extend_from_slice(rest.as_bytes());
        }
    }
    bytes.extend_from_slice(part.as_bytes())
}
