//! What is asked of a node over TCP.

use crate::statuses::{BAD_COMMAND_LINE, print_unreadable, print_word_fault};
use cc_client::{Told, ask_node, leave_node, look_at, reason_at, retire_node, share_node};
use cc_command_line::{
    AnswerForm, AskOrder, AskWords, CommandFault, Harmless, LeaveOrder, RetireOrder, RetireWords,
    ShareOrder, StatusOrder, WordFault,
};
use cc_connections::Address;
use std::io::ErrorKind;
use std::process::ExitCode;
use std::time::Duration;
use std::{fs, io, thread};

/// Has a command done: the status of that.
pub fn ask(rt: &HostRuntime, words: &AskWords<'_>) -> anyhow::Result<ExitCode> {
    let order = match AskOrder::parse(words) {
        Ok(order) => order,
        Err(WordFault::Command) => return print_command_fault(rt, words),
        Err(fault) => return print_word_fault(rt, fault),
    };
    let mut output = std::io::writer(rt);
    let told = ask_node(rt, rt.alloc(), &order, &mut output)?;
    match (told.silence, order.status) {
        (Some(_), Some(page)) => end_silent(rt, told, &page),
        _ => end(rt, told),
    }
}

// Where no answer came, and the node tells at its status why it isn't ready, that is told on standard error.
fn end_silent(rt: &HostRuntime, told: Told, page: &Address) -> anyhow::Result<ExitCode> {
    match reason_at(rt, rt.alloc(), page) {
        Some(reason) => {
            eprintln!(rt; "ccnode: {}", Harmless(reason.as_str()))?;
            Ok(ExitCode::from(told.status))
        }
        None => end(rt, told),
    }
}

fn print_command_fault(rt: &HostRuntime, words: &AskWords<'_>) -> anyhow::Result<ExitCode> {
    let fault = CommandFault::of(rt.alloc(), words)?;
    eprintln!(rt; "ccnode: {fault}")?;
    Ok(ExitCode::from(BAD_COMMAND_LINE))
}

/// Has a node leave: the status of that.
pub fn leave(rt: &HostRuntime, address: &str) -> anyhow::Result<ExitCode> {
    let order = match LeaveOrder::parse(address) {
        Ok(order) => order,
        Err(fault) => return print_word_fault(rt, fault),
    };
    let mut output = std::io::writer(rt);
    let told = leave_node(rt, rt.alloc(), &order, &mut output)?;
    end(rt, told)
}

/// Tells a node how many asks begin together: the status of that.
pub fn share(rt: &HostRuntime, address: &str, share: &str) -> anyhow::Result<ExitCode> {
    let order = match ShareOrder::parse(address, share) {
        Ok(order) => order,
        Err(fault) => return print_word_fault(rt, fault),
    };
    let mut output = std::io::writer(rt);
    let told = share_node(rt, rt.alloc(), &order, &mut output)?;
    end(rt, told)
}

/// Tells nodes that another is dead, one after the other: 0 where all took it, else 1.
pub fn retire(rt: &HostRuntime, words: &RetireWords<'_>) -> anyhow::Result<ExitCode> {
    let lines = match words.peers_file {
        Some(file) => match fs::read_to_string(rt, file) {
            Ok(lines) => Some(lines),
            Err(error) => return print_unreadable(rt, file, &error),
        },
        None => None,
    };
    let order = RetireOrder::parse(rt.alloc(), words, lines.as_deref());
    drop(lines);
    match order {
        Ok(order) => retire_at_all(rt, &order),
        Err(fault) => print_retire_fault(rt, fault, words.peers_file),
    }
}

// A fault of a file of peers is told with its path.
fn print_retire_fault(
    rt: &HostRuntime,
    fault: WordFault,
    peers_file: Option<&str>,
) -> anyhow::Result<ExitCode> {
    match (fault, peers_file) {
        (WordFault::Line(_) | WordFault::LineAddressTwice | WordFault::NobodyElse, Some(path)) => {
            eprintln!(rt; "ccnode: {path} {fault}")?;
            Ok(ExitCode::from(BAD_COMMAND_LINE))
        }
        _ => print_word_fault(rt, fault),
    }
}

fn retire_at_all(rt: &HostRuntime, order: &RetireOrder) -> anyhow::Result<ExitCode> {
    let mut output = std::io::writer(rt);
    let mut status = 0;
    for address in &order.addresses {
        let told = retire_node(rt, rt.alloc(), order, address, &mut output)?;
        print_told(rt, told)?;
        status = told.status.max(status);
    }
    Ok(ExitCode::from(status))
}

/// Prints what a node tells of itself, once or once a second: the status of the last time.
pub fn status(
    rt: &HostRuntime,
    address: &str,
    form: AnswerForm,
    watches: bool,
) -> anyhow::Result<ExitCode> {
    let order = match StatusOrder::parse(address, form, watches) {
        Ok(order) => order,
        Err(fault) => return print_word_fault(rt, fault),
    };
    match look_for_long(rt, &order) {
        Ok(status) => Ok(ExitCode::from(status)),
        // Who reads what is printed has seen enough.
        Err(error) if error.kind() == ErrorKind::BrokenPipe => Ok(ExitCode::SUCCESS),
        Err(error) => Err(error.into()),
    }
}

fn look_for_long(rt: &HostRuntime, order: &StatusOrder) -> io::Result<u8> {
    let mut status = look(rt, order)?;
    if order.watches {
        for _ in 0..u64::MAX {
            thread::sleep(rt, Duration::from_secs(1));
            status = look(rt, order)?;
        }
    }
    Ok(status)
}

// Looks at a node once. Where nothing is known of it, why is told on standard error.
fn look(rt: &HostRuntime, order: &StatusOrder) -> io::Result<u8> {
    let mut output = std::io::writer(rt);
    let look = look_at(rt, rt.alloc(), order, &mut output)?;
    if let Some(fault) = look.fault {
        eprintln!(rt; "ccnode: {fault}")?;
    }
    if order.watches && order.form == AnswerForm::Plain {
        println!(rt; "")?;
    }
    Ok(look.status)
}

/// The status that a client ends with. Where no answer came, why is told on standard error, and so is what is to be done.
pub fn end<R: Eprint>(rt: &R, told: Told) -> anyhow::Result<ExitCode> {
    print_told(rt, told)?;
    Ok(ExitCode::from(told.status))
}

fn print_told<R: Eprint>(rt: &R, told: Told) -> anyhow::Result<()> {
    if let Some(silence) = told.silence {
        eprintln!(rt; "ccnode: {silence}")?;
    }
    if let Some(advice) = told.advice {
        eprintln!(rt; "ccnode: {advice}")?;
    }
    Ok(())
}
