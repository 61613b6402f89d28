//! What a client prints.

use crate::json::{json_of_answer, json_of_refusal};
use cc_command_line::{AnswerForm, HarmlessJson, PrintedAnswer};
use cc_messages::{Answer, Refusal};
use std::alloc::Global;
use std::io;
use std::io::Write;

/// Prints an answer, and how many collects a snapshot took.
pub fn print_answer<W: Write>(
    alloc: Global,
    form: AnswerForm,
    answer: &Answer,
    collects: Option<u64>,
    output: &mut W,
) -> io::Result<()> {
    match form {
        AnswerForm::Plain => {
            writeln!(output, "{}", PrintedAnswer(answer))?;
            if let Some(collects) = collects {
                writeln!(output, "collects {collects}")?;
            }
        }
        AnswerForm::Json => {
            let json = json_of_answer(alloc, answer, collects)?;
            let printed = writeln!(output, "{}", HarmlessJson(json.as_str()));
            drop(json);
            printed?;
        }
    }
    output.flush()
}

/// Prints why a request was refused.
pub fn print_refusal<W: Write>(
    alloc: Global,
    form: AnswerForm,
    why: Refusal,
    output: &mut W,
) -> io::Result<()> {
    match form {
        AnswerForm::Plain => writeln!(output, "refused {why}")?,
        AnswerForm::Json => {
            let json = json_of_refusal(alloc, why)?;
            let printed = writeln!(output, "{json}");
            drop(json);
            printed?;
        }
    }
    output.flush()
}

/// Prints that another client uses the session.
pub fn print_use<W: Write>(form: AnswerForm, output: &mut W) -> io::Result<()> {
    let line = match form {
        AnswerForm::Plain => "session in use",
        AnswerForm::Json => "{\"session_in_use\":true}",
    };
    print_line(line, output)
}

/// Prints that no answer came in time.
pub fn print_silence<W: Write>(form: AnswerForm, output: &mut W) -> io::Result<()> {
    let line = match form {
        AnswerForm::Plain => "no answer",
        AnswerForm::Json => "{\"no_answer\":true}",
    };
    print_line(line, output)
}

/// Prints that no two collects in a row agreed in time.
pub fn print_no_snapshot<W: Write>(form: AnswerForm, output: &mut W) -> io::Result<()> {
    let line = match form {
        AnswerForm::Plain => "no snapshot",
        AnswerForm::Json => "{\"no_snapshot\":true}",
    };
    print_line(line, output)
}

fn print_line<W: Write>(line: &str, output: &mut W) -> io::Result<()> {
    writeln!(output, "{line}")?;
    output.flush()
}
