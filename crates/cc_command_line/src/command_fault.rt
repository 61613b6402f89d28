//! Why the words of `ask` are no command.

use crate::ask_words::AskWords;
use std::alloc::{AllocError, Global};
use std::error::Error;
use std::fmt;
use strsim::levenshtein;

// Up to how many edits lead from a name to the one that was meant.
const MOST_EDITS: usize = 2;

/// Why the words of `ask` are no command.
#[derive(Clone, Copy, Debug, PartialEq, Eq)]
pub enum CommandFault<'a> {
    /// No command has this name. The one whose name is nearest, if one is near.
    Unknown {
        name: &'a str,
        nearest: Option<&'static str>,
    },
    /// This command has a value.
    NoValue(&'static str),
    /// This command has none.
    Value(&'static str),
    /// This command has no text.
    Text(&'static str),
    /// There is a word to be stored, and a text.
    WordAndText,
    /// The value of this command isn't a number from 0 to that one.
    Number(&'static str, u64),
    /// What is to be stored has so many bytes.
    Length(usize),
    /// The word to be stored has other characters than visible ones of ASCII.
    Unseen,
}

impl fmt::Display for CommandFault<'_> {
    fn fmt<W: fmt::Write>(&self, f: &mut fmt::Formatter<W>) -> fmt::Result {
        match self {
            CommandFault::Unknown { name, nearest } => print_unknown(f, name, *nearest),
            CommandFault::NoValue(name) => write!(f, "{name} takes a value"),
            CommandFault::Value(name) => write!(f, "{name} takes no value"),
            CommandFault::Text(name) => write!(f, "{name} takes no --text, as store does"),
            CommandFault::WordAndText => f.write_str("store takes a word or --text, not both"),
            CommandFault::Number(name, most) => {
                write!(f, "{name} takes a number from 0 to {most}")
            }
            CommandFault::Length(len) => write!(f, "store takes 1 to 64 bytes; this has {len}"),
            CommandFault::Unseen => {
                f.write_str(
                    "store takes a word of visible ASCII characters; others go behind --text",
                )
            }
        }
    }
}

impl Error for CommandFault<'_> {}

fn print_unknown<W: fmt::Write>(
    f: &mut fmt::Formatter<W>,
    name: &str,
    nearest: Option<&'static str>,
) -> fmt::Result {
    write!(f, "{name} is no command")?;
    match nearest {
        Some(nearest) => write!(f, "; did you mean {nearest}?"),
        None => f.write_str(
            ": store WORD, collect, snapshot, max N, readmax, flag, readflag, add N, readset",
        ),
    }
}

// What stands behind the name of a command.
#[derive(Clone, Copy)]
enum Operand {
    Nothing,
    Text,
    // A number from 0 to this one.
    Number(u64),
}

const COMMANDS: [(&str, Operand); 9] = [
    ("store", Operand::Text),
    ("collect", Operand::Nothing),
    ("snapshot", Operand::Nothing),
    ("max", Operand::Number(u64::MAX)),
    ("readmax", Operand::Nothing),
    ("flag", Operand::Nothing),
    ("readflag", Operand::Nothing),
    ("add", Operand::Number(u32::MAX as u64)),
    ("readset", Operand::Nothing),
];

impl<'a> CommandFault<'a> {
    /// Why the words of `ask` are no command, where they are none.
    pub fn of(alloc: Global, words: &AskWords<'a>) -> Result<Self, AllocError> {
        for &(name, operand) in &COMMANDS {
            if name == words.command {
                return Ok(fault_of(name, operand, words));
            }
        }
        Ok(CommandFault::Unknown {
            name: words.command,
            nearest: nearest_to(alloc, words.command)?,
        })
    }
}

// The command whose name is nearest, the first of several. None where none is near.
fn nearest_to(alloc: Global, word: &str) -> Result<Option<&'static str>, AllocError> {
    let mut nearest = None;
    let mut fewest = MOST_EDITS + 1;
    for &(name, _) in &COMMANDS {
        let edits = levenshtein(alloc, word, name)?;
        if edits < fewest {
            fewest = edits;
            nearest = Some(name);
        }
    }
    Ok(nearest)
}

fn fault_of<'a>(name: &'static str, operand: Operand, words: &AskWords<'a>) -> CommandFault<'a> {
    if words.text.is_some() && name != "store" {
        return CommandFault::Text(name);
    }
    match operand {
        Operand::Nothing => CommandFault::Value(name),
        Operand::Number(most) => match words.value {
            Some(_) => CommandFault::Number(name, most),
            None => CommandFault::NoValue(name),
        },
        Operand::Text => fault_of_store(words),
    }
}

fn fault_of_store<'a>(words: &AskWords<'a>) -> CommandFault<'a> {
    match (words.value, words.text) {
        (Some(_), Some(_)) => CommandFault::WordAndText,
        (None, None) => CommandFault::NoValue("store"),
        (None, Some(text)) => CommandFault::Length(text.len()),
        (Some(word), None) => match word.len() {
            1..=64 => CommandFault::Unseen,
            len => CommandFault::Length(len),
        },
    }
}
